//! The types of values, and numbers.
ghost use Rattle.std.specs.Prelude.{◌≡◌, ◌≤◌, ◌<◌, ◌^◌, ℕ, ◌+◌, ◌-◌, List, length, take, drop, ◌∷◌};
ghost use Rattle.std.specs.Prelude.{[], true, false, Some, None, IfOk, IfSome, IfNone};
ghost use Rattle.resp_value.specs.ValueTree.{tree_of};
ghost use Rattle.resp_stream.specs.Parsed.{Parsed, Whole, More};
ghost use Rattle.resp_stream.specs.Results.{Gives, IfNumber};
ghost use Rattle.resp_stream.specs.Tokens.{Passed, ending};
ghost use Rattle.resp_stream.specs.Request.{line_limit};
ghost use Rattle.resp_stream.specs.Value.{rule_of, digits_of_at, number_at, signed_at, signed};
ghost use Rattle.resp_stream.specs.Value.{greatest, blob_at, format_at, formatted_at, type_byte_of};
ghost use Rattle.resp_stream.specs.Value.{elements, build, may_stand};

use super::fault::Broken;
use super::tokens::{LengthRule, bad_byte, byte_of, head_of, whole};
use resp_value::{NoMemory, Pairs, Value, Values};
use std::alloc::Global;

/// The kinds of aggregates.
#[derive(Clone, Copy, Debug, Drop)]
pub enum Kind {
    Array,
    Map,
    Set,
    Push,
}

/// What a type byte says of a value.
#[derive(Clone, Copy, Debug, Drop)]
pub enum TypeByte {
    Simple,
    Error,
    Number,
    Blob,
    Verbatim,
    BlobError,
    Truth,
    Null,
    Aggregate(Kind),
    /// Doubles, big numbers and attributes.
    NotServed,
    Wrong,
}

pub(crate) fn type_byte_of(c: u8) -> TypeByte
    ensures { result ≡ type_byte_of c }
{
    match c {
        b'+' => TypeByte::Simple,
        b'-' => TypeByte::Error,
        b':' => TypeByte::Number,
        b'$' => TypeByte::Blob,
        b'*' => TypeByte::Aggregate(Kind::Array),
        b'=' => TypeByte::Verbatim,
        b'!' => TypeByte::BlobError,
        b'#' => TypeByte::Truth,
        b'_' => TypeByte::Null,
        b'%' => TypeByte::Aggregate(Kind::Map),
        b'~' => TypeByte::Aggregate(Kind::Set),
        b'>' => TypeByte::Aggregate(Kind::Push),
        b',' | b'(' | b'|' => TypeByte::NotServed,
        _ => TypeByte::Wrong,
    }
}

pub(crate) fn rule_of(kind: Kind) -> LengthRule
    ensures { result ≡ rule_of kind }
{
    match kind {
        Kind::Array => LengthRule {
            streamed: true,
            null: true,
            least: 0,
            limit: 65536,
        },
        Kind::Map => LengthRule {
            streamed: true,
            null: false,
            least: 0,
            limit: 32768,
        },
        Kind::Set | Kind::Push => LengthRule {
            streamed: true,
            null: false,
            least: 0,
            limit: 65536,
        },
    }
}

/// A push is at the top alone.
pub(crate) fn may_stand(top: bool, kind: Kind) -> bool
    ensures { result ≡ may_stand top kind }
{
    match kind {
        Kind::Push => top,
        Kind::Array | Kind::Map | Kind::Set => true,
    }
}

/// How many values an aggregate of this length has.
pub(crate) fn elements(kind: Kind, count: u64) -> u64
    requires { count < 2 ^ 32 }
    ensures { result ≡ elements kind count }
{
    match kind {
        Kind::Map => count + count,
        Kind::Array | Kind::Set | Kind::Push => count,
    }
}

pub(crate) fn build(alloc: Global, kind: Kind, values: Values) -> Result<Value, NoMemory>
    ensures { IfOk result (λ v. tree_of v ≡ build kind values) }
{
    match kind {
        Kind::Array => Ok(Value::Array(values)),
        Kind::Map => Ok(Value::Map(Pairs::in_turn(alloc, values)?)),
        Kind::Set => Ok(Value::Set(values)),
        Kind::Push => Ok(Value::Push(values)),
    }
}

/// The rest of a number with this many digits so far.
#[tactic(auto, unfolding(crate::specs::Value::digits_of_at))]
fn digits_on(
    most: u64,
    digits: u64,
    first: u64,
    bytes: &[u8],
) -> Result<Option<(u64, &[u8])>, Broken>
    requires digits { digits ≤ 19 }
    requires first { first ≤ most }
    requires most { most < 2 ^ 63 + 1 }
    ensures gives { Gives (λ x. (x.0, x.1.now)) result
        (digits_of_at most (Some (record { count = digits; made = first })) bytes.now) }
    ensures most { IfNumber result most }
{
    let mut count = digits;
    let mut number = first;
    let mut rest = bytes;
    'digits: while let [c, after @ ..] = rest {
        let c = *c;
        if c == 13 {
            return Ok(Some((number, whole!(byte_of(10, after)))));
        }
        if c < 48 || 57 < c {
            return Err(bad_byte(rest));
        }
        if 19 <= count {
            return Err(bad_byte(rest));
        }
        if most / 10 < number {
            return Err(bad_byte(rest));
        }
        let longer = number * 10 + u64::from(c - 48);
        if most < longer {
            return Err(bad_byte(rest));
        }
        count += 1;
        number = longer;
        rest = after;
    }
    Ok(None)
}

/// The digits after a sign.
#[tactic(auto, unfolding(crate::specs::Value::digits_of_at))]
fn digits_after(most: u64, bytes: &[u8]) -> Result<Option<(u64, &[u8])>, Broken>
    requires least { 9 ≤ most }
    requires most { most < 2 ^ 63 + 1 }
    ensures gives { Gives (λ x. (x.0, x.1.now)) result (digits_of_at most None bytes.now) }
    ensures most { IfNumber result most }
{
    let [c, rest @ ..] = bytes else {
        return Ok(None);
    };
    let c = *c;
    if c < 48 || 57 < c {
        return Err(bad_byte(bytes));
    }
    digits_on(most, 1, u64::from(c - 48), rest)
}

/// The number with this sign.
fn signed(minus: bool, number: u64) -> i64
    requires { number ≤ greatest minus }
    ensures { result ≡ signed minus number }
{
    if !minus {
        return number as i64;
    }
    if number == 0 {
        return 0;
    }
    -((number - 1) as i64) - 1
}

/// A number, after its type byte.
#[tactic(auto, unfolding(crate::specs::Value::number_at, crate::specs::Value::signed_at))]
pub(crate) fn number_of(bytes: &[u8]) -> Result<Option<(i64, &[u8])>, Broken>
    ensures { Gives (λ x. (x.0, x.1.now)) result (number_at bytes.now) }
{
    let [c, rest @ ..] = bytes else {
        return Ok(None);
    };
    let c = *c;
    if c == b'+' {
        let (number, rest) = whole!(digits_after(9223372036854775807, rest));
        return Ok(Some((signed(false, number), rest)));
    }
    if c == b'-' {
        let (number, rest) = whole!(digits_after(9223372036854775808, rest));
        return Ok(Some((signed(true, number), rest)));
    }
    if c < 48 || 57 < c {
        return Err(bad_byte(bytes));
    }
    let (number, rest) = whole!(digits_on(9223372036854775807, 1, u64::from(c - 48), rest));
    Ok(Some((signed(false, number), rest)))
}

/// The three bytes of a format.
#[tactic(auto, unfolding(crate::specs::Value::format_at))]
pub(crate) fn format_of(bytes: &[u8]) -> Option<(u8, u8, u8, &[u8])>
    ensures some { IfSome result (λ x. format_at bytes.now ≡ Whole (x.0 ∷ x.1 ∷ x.2 ∷ []) x.3.now) }
    ensures none { IfNone result (format_at bytes.now ≡ More) }
{
    let (x, rest) = head_of(bytes)?;
    let (y, rest) = head_of(rest)?;
    let (z, rest) = head_of(rest)?;
    Some((x, y, z, rest))
}
