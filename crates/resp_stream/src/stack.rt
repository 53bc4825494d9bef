//! Values with elements, read without recursion.
ghost use Rattle.std.specs.Prelude.{◌≡◌, ◌≤◌, ◌<◌, ◌^◌, ◌+◌, ◌-◌, ◌++◌, ◌∷◌, [], ℕ, List, length};
ghost use Rattle.std.specs.Prelude.{take, drop};
ghost use Rattle.std.specs.Prelude.{reverse, OnOk};
ghost use Rattle.resp_value.specs.ValueTree.{tree_of};
ghost use Rattle.resp_stream.specs.Results.{LeafGives};
ghost use Rattle.resp_stream.specs.Value.{type_byte_of, opening};
ghost use Rattle.resp_stream.specs.ValueSteps.{LineSeen, ValueStepGives, HasRead, Closes, IsStack};
ghost use Rattle.resp_stream.specs.ValueSteps.{RunGives, OnNone, ValueReadingGives, OnMore};
ghost use Rattle.resp_stream.specs.declared.value.TypeByte.TheVariants.{Aggregate};

use super::fault::{Fault, ReadStop, WHOLE_LIMIT, limited};
use super::leaf::leaf_of;
use super::tokens::{bad_byte, head_of, length_of};
use super::value::{Kind, TypeByte, build, elements, may_stand, rule_of, type_byte_of};
use resp_value::{NoMemory, Value, Values};
use std::alloc::Global;

/// An open aggregate: how many values come after its next one, and those before it.
#[derive(Drop)]
pub struct Frame {
    kind: Kind,
    left: u64,
    done: Values,
}

/// How far a value was read: up to `at`, with room for `room` more levels, and `seen` bytes of the
/// line that begins there.
#[derive(Drop)]
pub struct ValueProgress {
    pub at: usize,
    pub room: u64,
    pub seen: usize,
    pub stack: Vec<Frame>,
}

impl ValueProgress {
    /// Nothing is read of the next value.
    pub(crate) fn reset(&mut self)
        ensures at { self.new.at ≡ 0 }
        ensures room { self.new.room ≡ 8 }
        ensures seen { self.new.seen ≡ 0 }
        ensures stack { self.new.stack.items ≡ [] }
    {
        self.at = 0;
        self.room = 8;
        self.seen = 0;
        self.stack.clear();
    }
}

/// A whole value, or the head of an aggregate that has some.
#[derive(Drop)]
pub enum Step {
    Leaf(Value),
    Open(Kind, u64),
}

/// What a text begins with, by the limit of the whole; `at` is where the faulty byte is.
#[derive(Drop)]
pub enum ValueReading {
    Whole { value: Value, taken: usize },
    More,
    Faulty { fault: Fault, at: usize },
}

/// The kind of an aggregate, where there is room for it.
fn opening(room: u64, mark: TypeByte) -> Option<Kind>
    ensures { result ≡ opening room mark }
{
    if room == 0 {
        return None;
    }
    match mark {
        TypeByte::Aggregate(kind) => Some(kind),
        _ => None,
    }
}

/// The head of the aggregate that `bytes` begin with; `rest` follows its type byte.
fn open_of<'a>(
    alloc: Global,
    c: u8,
    kind: Kind,
    room: u64,
    bytes: &'a [u8],
    rest: &'a [u8],
) -> Result<Option<(Step, &'a [u8])>, ReadStop>
    requires head { bytes.now ≡ c ∷ rest.now }
    requires mark { type_byte_of c ≡ Aggregate kind }
    requires room { 0 < room }
    ensures { ValueStepGives room bytes.now (λ x. (x.0, x.1.now)) result }
{
    if !may_stand(room == 8, kind) {
        return Err(ReadStop::Faulty(bad_byte(bytes)));
    }
    match length_of(rule_of(kind), rest) {
        Ok(None) => Ok(None),
        Err(e) => Err(ReadStop::Faulty(e)),
        Ok(Some((None, rest))) => Ok(Some((Step::Leaf(Value::NullArray), rest))),
        Ok(Some((Some(count), rest))) => {
            if count == 0 {
                return match build(alloc, kind, Values::new(alloc)) {
                    Ok(value) => Ok(Some((Step::Leaf(value), rest))),
                    Err(_) => Err(ReadStop::NoMemory),
                };
            }
            Ok(Some((Step::Open(kind, elements(kind, count)), rest)))
        }
    }
}

/// The value or the head that comes next; `seen` bytes of its line were passed before.
fn step_of<'a>(
    alloc: Global,
    room: u64,
    seen: &mut usize,
    bytes: &'a [u8],
) -> Result<Option<(Step, &'a [u8])>, ReadStop>
    requires { LineSeen bytes.now seen.old }
    ensures gives { ValueStepGives room bytes.now (λ x. (x.0, x.1.now)) result }
    ensures seen { LineSeen bytes.now seen.new }
{
    let Some((c, rest)) = head_of(bytes) else {
        return Ok(None);
    };
    let mark = type_byte_of(c);
    match opening(room, mark) {
        Some(kind) => open_of(alloc, c, kind, room, bytes, rest),
        None => match leaf_of(alloc, mark, c, bytes.len(), seen, rest) {
            Ok(None) => Ok(None),
            Ok(Some((value, rest))) => Ok(Some((Step::Leaf(value), rest))),
            Err(e) => Err(e),
        },
    }
}

/// Puts a value into the newest open aggregate. One that is full with it is a value in turn.
#[tactic(auto, using(crate::proofs::Closing::closing))]
fn close(
    alloc: Global,
    stack: &mut Vec<Frame>,
    room: &mut u64,
    value: Value,
) -> Result<Option<Value>, NoMemory>
    requires { room.old + length stack.old.items < 2 ^ 32 }
    ensures room { OnOk result
        (room.new + length stack.new.items ≡ room.old + length stack.old.items) }
    ensures closes { (whole : ℕ) (text : List ℕ) (at : ℕ) →
        HasRead whole text at room.old (reverse stack.old.items) (tree_of value) →
        Closes whole text at room.new stack.new.items result }
{
    let mut value = value;
    'open: while let Some(frame) = stack.pop() {
        let Frame { kind, left, done } = frame;
        let mut done = done;
        done.push(value)?;
        if left > 0 {
            stack.push(Frame {
                kind,
                left: left - 1,
                done,
            })?;
            return Ok(None);
        }
        value = build(alloc, kind, done)?;
        *room += 1;
    }
    Ok(Some(value))
}

/// Opens an aggregate of so many values.
fn push_frame(alloc: Global, kind: Kind, count: u64, stack: &mut Vec<Frame>) -> Result<(), NoMemory>
    requires { 0 < count }
    ensures { OnOk result (stack.new.items
        ≡ stack.old.items ++ (record { kind = kind; left = count - 1; done = [] }) ∷ []) }
{
    stack.push(Frame {
        kind,
        left: count - 1,
        done: Values::new(alloc),
    })?;
    Ok(())
}

/// Reads on from `at`, until a value is whole, more is needed, or a byte is at fault.
fn run(
    alloc: Global,
    text: &[u8],
    at: &mut usize,
    room: &mut u64,
    seen: &mut usize,
    stack: &mut Vec<Frame>,
) -> Result<Option<Value>, ReadStop>
    requires room { room.old + length stack.old.items ≡ 8 }
    requires stack { IsStack 8 text.now at.old room.old (reverse stack.old.items) }
    requires seen { LineSeen (drop at.old text.now) seen.old }
    ensures gives { RunGives text.now at.new result }
    ensures none { OnNone result (IsStack 8 text.now at.new room.new (reverse stack.new.items)) }
    ensures room { OnNone result (room.new + length stack.new.items ≡ 8) }
    ensures seen { OnNone result (LineSeen (drop at.new text.now) seen.new) }
{
    'steps: loop {
        let (_, rest) = text.split_at(*at);
        match step_of(alloc, *room, seen, rest) {
            Ok(None) => return Ok(None),
            Err(e) => return Err(e),
            Ok(Some((step, after))) => {
                let next = text.len() - after.len();
                *seen = 0;
                match step {
                    Step::Open(kind, count) => {
                        push_frame(alloc, kind, count, stack)?;
                        *room -= 1;
                        *at = next;
                    }
                    Step::Leaf(value) => match close(alloc, stack, room, value) {
                        Err(_) => return Err(ReadStop::NoMemory),
                        Ok(None) => {
                            *at = next;
                        }
                        Ok(Some(value)) => {
                            *at = next;
                            return Ok(Some(value));
                        }
                    },
                }
            }
        }
    }
}

/// The byte that passes the limit.
fn too_long() -> ValueReading
    ensures { result ≡ ValueReading.Faulty (Fault.TooLong (WHOLE_LIMIT + 1)) WHOLE_LIMIT }
{
    ValueReading::Faulty {
        fault: Fault::TooLong(WHOLE_LIMIT as u64 + 1),
        at: WHOLE_LIMIT,
    }
}

/// A value with more bytes than `WHOLE_LIMIT` is a fault at the first byte too many.
pub(crate) fn read_value(
    alloc: Global,
    text: &[u8],
    progress: &mut ValueProgress,
) -> Result<ValueReading, NoMemory>
    requires room { progress.old.room + length progress.old.stack.items ≡ 8 }
    requires stack { IsStack 8 text.now progress.old.at progress.old.room
        (reverse progress.old.stack.items) }
    requires seen { LineSeen (drop progress.old.at text.now) progress.old.seen }
    ensures gives { ValueReadingGives text.now result }
    ensures more { OnMore result
        (IsStack 8 text.now progress.new.at progress.new.room (reverse progress.new.stack.items)) }
    ensures room { OnMore result (progress.new.room + length progress.new.stack.items ≡ 8) }
    ensures seen { OnMore result (LineSeen (drop progress.new.at text.now) progress.new.seen) }
{
    match run(
        alloc,
        text,
        &mut progress.at,
        &mut progress.room,
        &mut progress.seen,
        &mut progress.stack,
    ) {
        Err(ReadStop::NoMemory) => Err(NoMemory),
        Err(ReadStop::Faulty(e)) => {
            let (fault, at) = limited(e.fault, text.len() - e.left);
            Ok(ValueReading::Faulty { fault, at })
        }
        Ok(Some(value)) => {
            let taken = progress.at;
            if WHOLE_LIMIT < taken {
                return Ok(too_long());
            }
            Ok(ValueReading::Whole { value, taken })
        }
        Ok(None) => {
            if WHOLE_LIMIT < text.len() {
                return Ok(too_long());
            }
            Ok(ValueReading::More)
        }
    }
}
