//! The commands that add to numbers: INCR, DECR, INCRBY and DECRBY.
//!
//! The sum stands in place of the digits that were there, which are handed on.
ghost use Rattle.std.specs.Prelude.{◌≡◌, IfOk, OnOk, OnErr, None, option_map};
ghost use Rattle.command_words.specs.Space.{Text, held_at};
ghost use Rattle.command_words.specs.Strings.{incrby_effect, decrby_effect};
ghost use Rattle.command_rows.specs.Rows.{IsRow};
ghost use Rattle.keyspace.specs.Plain.{held_of};
ghost use Rattle.string_cmds.specs.Counted.{IsCounted, IsHad, IsKept, counted_row};

use super::writes::put_text;
use command_rows::{
    Addition, add, decimal, not_integer, only, overflow, replied, wrong_type, wrote,
};
use command_words::Done;
use keyspace::{Content, Held, Keyspace};
use resp_value::{NoMemory, Octets, Value};
use std::alloc::Global;
use std::mem;

/// What an addition to the string of a key gave: the sum, with what the key held, or why nothing
/// was written.
#[derive(Drop)]
pub enum Counted {
    Sum(i64, Option<Held>),
    NoInteger,
    Overflow,
    WrongType,
}

/// The sum takes the place of the digits.
fn count_text(
    alloc: Global,
    text: &mut Octets,
    deadline: Option<u64>,
    number: &i64,
) -> Result<Counted, NoMemory>
    ensures ok { IfOk result (λ counted. IsCounted number.now counted
        (record { content = Text text.old; deadline = deadline })
        (record { content = Text text.new; deadline = deadline })) }
    ensures err { OnErr result (text.new ≡ text.old) }
{
    match add(Some(text), number) {
        Addition::NoInteger => Ok(Counted::NoInteger),
        Addition::Overflow => Ok(Counted::Overflow),
        Addition::Sum(sum) => {
            let digits = decimal(alloc, &sum)?;
            let content = Content::Text(mem::replace(text, digits));
            Ok(Counted::Sum(sum, Some(Held { content, deadline })))
        }
    }
}

/// The number is added in place.
fn count_in(alloc: Global, held: &mut Held, number: &i64) -> Result<Counted, NoMemory>
    ensures ok { IfOk result (λ counted.
        IsCounted number.now counted (held_of held.old) (held_of held.new)) }
    ensures err { OnErr result (held.new ≡ held.old) }
{
    let deadline = held.deadline;
    match &mut held.content {
        Content::Text(text) => count_text(alloc, text, deadline, number),
        Content::Fields(_) => Ok(Counted::WrongType),
    }
}

/// The number is added to a key that is missing.
fn count_first(
    alloc: Global,
    space: &mut Keyspace,
    key: &[u8],
    number: &i64,
) -> Result<Counted, NoMemory>
    requires { held_at key.now space.old ≡ None }
    ensures row { IfOk result (λ counted.
        counted_row key.now counted space.new ≡ incrby_effect key.now number.now space.old) }
    ensures had { IfOk result (λ counted. IsHad key.now counted space.old space.new) }
    ensures err { OnErr result (space.new ≡ space.old) }
{
    match add(None, number) {
        Addition::NoInteger => Ok(Counted::NoInteger),
        Addition::Overflow => Ok(Counted::Overflow),
        Addition::Sum(sum) => {
            put_text(space, key, decimal(alloc, &sum)?, None)?;
            Ok(Counted::Sum(sum, None))
        }
    }
}

/// The number is added to what the key holds.
fn count(alloc: Global, space: &mut Keyspace, key: &[u8], number: &i64) -> Result<Counted, NoMemory>
    ensures row { IfOk result (λ counted.
        counted_row key.now counted space.new ≡ incrby_effect key.now number.now space.old) }
    ensures had { IfOk result (λ counted. IsHad key.now counted space.old space.new) }
    ensures err { OnErr result (space.new ≡ space.old) }
{
    match space.held_mut(key) {
        Some(held) => count_in(alloc, held, number),
        None => count_first(alloc, space, key, number),
    }
}

/// INCRBY, with what the key held, where it changed.
pub fn add_number(
    alloc: Global,
    space: &mut Keyspace,
    key: &[u8],
    number: &i64,
) -> Result<(Done, Option<Option<Held>>), NoMemory>
    ensures reply { IfOk result (λ r.
        r.0.reply ≡ (incrby_effect key.now number.now space.old).reply) }
    ensures signals { IfOk result (λ r.
        r.0.signalled ≡ (incrby_effect key.now number.now space.old).signalled) }
    ensures space { OnOk result
        (space.new ≡ (incrby_effect key.now number.now space.old).space) }
    ensures kept { IfOk result (λ r.
        IsKept key.now (option_map (λ had. option_map held_of had) r.1) space.old space.new) }
    ensures err { OnErr result (space.new ≡ space.old) }
{
    let keys = only(alloc, key)?;
    // An error reply takes memory too, and nothing has changed then.
    match count(alloc, space, key, number)? {
        Counted::Sum(sum, had) => Ok((wrote(Value::Number(sum), keys), Some(had))),
        Counted::NoInteger => Ok((replied(alloc, not_integer(alloc)?), None)),
        Counted::Overflow => Ok((replied(alloc, overflow(alloc)?), None)),
        Counted::WrongType => Ok((replied(alloc, wrong_type(alloc)?), None)),
    }
}

/// DECRBY, with what the key held, where it changed.
pub fn take_number(
    alloc: Global,
    space: &mut Keyspace,
    key: &[u8],
    number: i64,
) -> Result<(Done, Option<Option<Held>>), NoMemory>
    ensures reply { IfOk result (λ r.
        r.0.reply ≡ (decrby_effect key.now number space.old).reply) }
    ensures signals { IfOk result (λ r.
        r.0.signalled ≡ (decrby_effect key.now number space.old).signalled) }
    ensures space { OnOk result (space.new ≡ (decrby_effect key.now number space.old).space) }
    ensures kept { IfOk result (λ r.
        IsKept key.now (option_map (λ had. option_map held_of had) r.1) space.old space.new) }
    ensures err { OnErr result (space.new ≡ space.old) }
{
    match number.checked_neg() {
        None => Ok((replied(alloc, overflow(alloc)?), None)),
        Some(opposite) => add_number(alloc, space, key, &opposite),
    }
}

pub(crate) fn incrby(
    alloc: Global,
    space: &mut Keyspace,
    key: &[u8],
    number: &i64,
) -> Result<Done, NoMemory>
    ensures { IsRow (incrby_effect key.now number.now space.old) result space.old space.new }
{
    let (done, _had) = add_number(alloc, space, key, number)?;
    Ok(done)
}

pub(crate) fn decrby(
    alloc: Global,
    space: &mut Keyspace,
    key: &[u8],
    number: i64,
) -> Result<Done, NoMemory>
    ensures { IsRow (decrby_effect key.now number space.old) result space.old space.new }
{
    let (done, _had) = take_number(alloc, space, key, number)?;
    Ok(done)
}
