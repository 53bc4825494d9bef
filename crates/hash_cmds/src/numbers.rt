//! HINCRBY.
//!
//! The sum stands in place of the digits that were there, which are handed on.
ghost use Rattle.std.specs.Prelude.{◌≡◌, ◌∷◌, [], IfOk, OnOk, OnErr, None};
ghost use Rattle.command_words.specs.Space.{held_at};
ghost use Rattle.command_words.specs.Hashes.{hincrby_effect};
ghost use Rattle.command_rows.specs.Rows.{IsRow};
ghost use Rattle.keyspace.specs.Plain.{content_of};
ghost use Rattle.hash_cmds.specs.Counted.{IsChange, IsCounted, IsCountedIn, IsHad, counted_row};
ghost use Rattle.hash_cmds.specs.Counted.{with_new_hash};

use command_rows::{
    Addition, add, decimal, hash_not_integer, only, overflow, replied, wrong_type, wrote,
};
use command_words::Done;
use keyspace::{Content, Fields, Held, Keyspace};
use resp_value::{NoMemory, Octets, Value};
use std::alloc::Global;

/// What HINCRBY changed: nothing; a field of a hash, which held this, if it was there; or a key
/// that was missing.
#[derive(Drop)]
pub enum FieldChange {
    Nothing,
    Field(Option<Octets>),
    Hash,
}

/// What an addition to a field gave: the sum, with what changed, or why nothing was written.
#[derive(Drop)]
pub enum Counted {
    Sum(i64, FieldChange),
    NoInteger,
    Overflow,
    WrongType,
}

/// The sum takes the place of the field's digits.
fn count_field(
    alloc: Global,
    fields: &mut Fields,
    field: &[u8],
    number: &i64,
) -> Result<Counted, NoMemory>
    ensures ok { IfOk result (λ counted.
        IsCounted field.now number.now counted fields.old fields.new) }
    ensures err { OnErr result (fields.new ≡ fields.old) }
{
    match add(fields.get(field), number) {
        Addition::NoInteger => Ok(Counted::NoInteger),
        Addition::Overflow => Ok(Counted::Overflow),
        Addition::Sum(sum) => {
            let had = fields.put(field, decimal(alloc, &sum)?)?;
            Ok(Counted::Sum(sum, FieldChange::Field(had)))
        }
    }
}

/// The number is added in place.
fn count_in(
    alloc: Global,
    content: &mut Content,
    field: &[u8],
    number: &i64,
) -> Result<Counted, NoMemory>
    ensures ok { IfOk result (λ counted. IsCountedIn field.now number.now counted
        (content_of content.old) (content_of content.new)) }
    ensures err { OnErr result (content.new ≡ content.old) }
{
    match content {
        Content::Fields(fields) => count_field(alloc, fields, field, number),
        Content::Text(_) => Ok(Counted::WrongType),
    }
}

/// A key that is missing holds a hash of this field alone.
fn put_first(
    alloc: Global,
    space: &mut Keyspace,
    key: &[u8],
    field: &[u8],
    value: Octets,
) -> Result<(), NoMemory>
    ensures ok { OnOk result
        (space.new ≡ with_new_hash key.now ((field.now, value) ∷ []) space.old) }
    ensures err { OnErr result (space.new ≡ space.old) }
{
    let mut fields = Fields::new(alloc);
    fields.put(field, value)?;
    let held = Held {
        content: Content::Fields(fields),
        deadline: None,
    };
    space.put(key, held)
}

/// The number is added to a field of a key that is missing.
fn count_first(
    alloc: Global,
    space: &mut Keyspace,
    key: &[u8],
    field: &[u8],
    number: &i64,
) -> Result<Counted, NoMemory>
    requires { held_at key.now space.old ≡ None }
    ensures row { IfOk result (λ counted. counted_row key.now counted space.new
        ≡ hincrby_effect key.now field.now number.now space.old) }
    ensures had { IfOk result (λ counted.
        IsHad key.now field.now counted space.old space.new) }
    ensures err { OnErr result (space.new ≡ space.old) }
{
    match add(None, number) {
        Addition::NoInteger => Ok(Counted::NoInteger),
        Addition::Overflow => Ok(Counted::Overflow),
        Addition::Sum(sum) => {
            put_first(alloc, space, key, field, decimal(alloc, &sum)?)?;
            Ok(Counted::Sum(sum, FieldChange::Hash))
        }
    }
}

/// The number is added to a field of what the key holds.
fn count(
    alloc: Global,
    space: &mut Keyspace,
    key: &[u8],
    field: &[u8],
    number: &i64,
) -> Result<Counted, NoMemory>
    ensures row { IfOk result (λ counted. counted_row key.now counted space.new
        ≡ hincrby_effect key.now field.now number.now space.old) }
    ensures had { IfOk result (λ counted.
        IsHad key.now field.now counted space.old space.new) }
    ensures err { OnErr result (space.new ≡ space.old) }
{
    match space.content_mut(key) {
        Some(content) => count_in(alloc, content, field, number),
        None => count_first(alloc, space, key, field, number),
    }
}

/// HINCRBY, with what changed.
pub fn add_field(
    alloc: Global,
    space: &mut Keyspace,
    key: &[u8],
    field: &[u8],
    number: &i64,
) -> Result<(Done, FieldChange), NoMemory>
    ensures reply { IfOk result (λ r.
        r.0.reply ≡ (hincrby_effect key.now field.now number.now space.old).reply) }
    ensures signals { IfOk result (λ r.
        r.0.signalled ≡ (hincrby_effect key.now field.now number.now space.old).signalled) }
    ensures space { OnOk result
        (space.new ≡ (hincrby_effect key.now field.now number.now space.old).space) }
    ensures kept { IfOk result (λ r. IsChange key.now field.now r.1 space.old space.new) }
    ensures err { OnErr result (space.new ≡ space.old) }
{
    let keys = only(alloc, key)?;
    match count(alloc, space, key, field, number)? {
        Counted::Sum(sum, change) => Ok((wrote(Value::Number(sum), keys), change)),
        Counted::NoInteger => {
            let error = hash_not_integer(alloc)?;
            Ok((replied(alloc, error), FieldChange::Nothing))
        }
        Counted::Overflow => Ok((replied(alloc, overflow(alloc)?), FieldChange::Nothing)),
        Counted::WrongType => Ok((replied(alloc, wrong_type(alloc)?), FieldChange::Nothing)),
    }
}

pub(crate) fn hincrby(
    alloc: Global,
    space: &mut Keyspace,
    key: &[u8],
    field: &[u8],
    number: &i64,
) -> Result<Done, NoMemory>
    ensures { IsRow (hincrby_effect key.now field.now number.now space.old)
        result space.old space.new }
{
    let (done, _change) = add_field(alloc, space, key, field, number)?;
    Ok(done)
}
