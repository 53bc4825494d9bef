//! The tokens of values and requests: ends, lengths, lines and counted bytes.
ghost use Rattle.std.specs.Prelude.{◌≡◌, ℕ, ◌≤◌, ◌<◌, ◌^◌, length, take, List, ◌∷◌, [], IfNone};
ghost use Rattle.std.specs.Prelude.{IfSome, Some};
ghost use Rattle.resp_stream.specs.declared.tokens.LengthRule.{LengthRule};
ghost use Rattle.resp_stream.specs.Parsed.{Whole};
ghost use Rattle.resp_stream.specs.Results.{Gives, IfLength};
ghost use Rattle.resp_stream.specs.Tokens.{only_byte, line_feed, ending, digits_at, length_at};
ghost use Rattle.resp_stream.specs.Tokens.{counted_at, minus_one, IsRule, ends_line, refused};
ghost use Rattle.resp_stream.specs.Tokens.{line_at, Passed};

use super::fault::{Broken, Fault};

/// Which lengths a type byte has.
#[derive(Clone, Copy, Debug, Drop)]
pub struct LengthRule {
    /// A `?` in its place is a form of the third protocol that is not served.
    pub streamed: bool,
    /// It may be the null `-1`.
    pub null: bool,
    pub least: u64,
    pub limit: u64,
}

/// What was read; where more is needed or a byte is at fault it returns that from the function,
/// with `$wrap` around the fault.
macro_rules! whole {
    ($read:expr) => {
        match $read {
            Ok(Some(read)) => read,
            Ok(None) => return Ok(None),
            Err(broken) => return Err(broken),
        }
    };
    ($read:expr, $wrap:path) => {
        match $read {
            Ok(Some(read)) => read,
            Ok(None) => return Ok(None),
            Err(broken) => return Err($wrap(broken)),
        }
    };
}

pub(crate) use whole;

/// A fault of the first of these bytes.
pub(crate) fn broken(fault: Fault, bytes: &[u8]) -> Broken
    ensures { result ≡ record { fault = fault; left = length bytes.now } }
{
    Broken {
        fault,
        left: bytes.len(),
    }
}

/// The first of these bytes begins nothing of the grammar.
pub(crate) fn bad_byte(bytes: &[u8]) -> Broken
    ensures { result ≡ record { fault = Fault.BadByte; left = length bytes.now } }
{
    broken(Fault::BadByte, bytes)
}

/// The first byte, and those after it.
pub(crate) fn head_of(bytes: &[u8]) -> Option<(u8, &[u8])>
    ensures some { IfSome result (λ x. bytes.now ≡ x.0 ∷ x.1.now) }
    ensures none { IfNone result (bytes.now ≡ []) }
{
    match bytes {
        [] => None,
        [c, rest @ ..] => Some((*c, rest)),
    }
}

#[tactic(auto, unfolding(crate::specs::Tokens::only_byte))]
pub(crate) fn byte_of(byte: u8, bytes: &[u8]) -> Result<Option<&[u8]>, Broken>
    ensures { Gives (λ r. (tt, r.now)) result (only_byte byte bytes.now) }
{
    match bytes {
        [] => Ok(None),
        [c, rest @ ..] => {
            if *c == byte {
                Ok(Some(rest))
            } else {
                Err(bad_byte(bytes))
            }
        }
    }
}

/// CR LF
pub(crate) fn end_of(bytes: &[u8]) -> Result<Option<&[u8]>, Broken>
    ensures { Gives (λ r. (tt, r.now)) result (ending {A = Unit {0}} tt bytes.now) }
{
    let rest = whole!(byte_of(13, bytes));
    Ok(Some(whole!(byte_of(10, rest))))
}

#[tactic(auto, unfolding(crate::specs::Tokens::digits_at))]
fn digits_of(
    rule: LengthRule,
    first: u64,
    bytes: &[u8],
) -> Result<Option<(Option<u64>, &[u8])>, Broken>
    requires rule { IsRule rule }
    requires first { first ≤ rule.limit }
    ensures gives { Gives (λ x. (x.0, x.1.now)) result (digits_at rule first bytes.now) }
    ensures limit { IfLength result rule.limit }
{
    let mut number = first;
    let mut rest = bytes;
    'digits: while let [c, after @ ..] = rest {
        let c = *c;
        if c == 13 {
            if number < rule.least {
                return Err(bad_byte(rest));
            }
            return Ok(Some((Some(number), whole!(byte_of(10, after)))));
        }
        if c < 48 || 57 < c {
            return Err(bad_byte(rest));
        }
        let longer = number * 10 + u64::from(c - 48);
        if rule.limit < longer {
            return Err(broken(Fault::TooLong(longer), rest));
        }
        number = longer;
        rest = after;
    }
    Ok(None)
}

/// The digits so far make the length, and its end comes.
#[tactic(auto, unfolding(crate::specs::Tokens::digits_at, crate::specs::Tokens::only_byte))]
fn ended(rule: LengthRule, number: u64, bytes: &[u8]) -> Option<(u64, &[u8])>
    requires { number ≤ rule.limit }
    ensures gives { IfSome result
        (λ x. digits_at rule number bytes.now ≡ Whole (Some x.0) x.1.now) }
    ensures limit { IfSome result (λ x. x.0 ≤ rule.limit) }
{
    let [13, 10, rest @ ..] = bytes else {
        return None;
    };
    if number < rule.least {
        return None;
    }
    Some((number, rest))
}

/// One digit more makes the length, and its end comes.
#[tactic(auto, unfolding(crate::specs::Tokens::digits_at, crate::specs::Tokens::only_byte))]
fn ended_behind(rule: LengthRule, number: u64, bytes: &[u8]) -> Option<(u64, &[u8])>
    requires rule { IsRule rule }
    requires number { number ≤ rule.limit }
    ensures gives { IfSome result
        (λ x. digits_at rule number bytes.now ≡ Whole (Some x.0) x.1.now) }
    ensures limit { IfSome result (λ x. x.0 ≤ rule.limit) }
{
    let [c, 13, 10, rest @ ..] = bytes else {
        return None;
    };
    let c = *c;
    if c < 48 || 57 < c {
        return None;
    }
    let longer = number * 10 + u64::from(c - 48);
    if longer < rule.least || rule.limit < longer {
        return None;
    }
    Some((longer, rest))
}

/// A length after its type byte, with its end; nothing for the null `-1`.
#[tactic(auto, unfolding(crate::specs::Tokens::length_at, crate::specs::Tokens::minus_one))]
pub(crate) fn length_of(
    rule: LengthRule,
    bytes: &[u8],
) -> Result<Option<(Option<u64>, &[u8])>, Broken>
    requires { IsRule rule }
    ensures gives { Gives (λ x. (x.0, x.1.now)) result (length_at rule bytes.now) }
    ensures limit { IfLength result rule.limit }
{
    let [c, rest @ ..] = bytes else {
        return Ok(None);
    };
    let c = *c;
    if c == 63 && rule.streamed {
        return Err(broken(Fault::NotServed(63), bytes));
    }
    if c == 45 && rule.null {
        let rest = whole!(byte_of(49, rest));
        return Ok(Some((None, whole!(end_of(rest)))));
    }
    if c == 48 && rule.least == 0 {
        return Ok(Some((Some(0), whole!(end_of(rest)))));
    }
    if c < 49 || 57 < c {
        return Err(bad_byte(bytes));
    }
    let number = u64::from(c - 48);
    if rule.limit < number {
        return Err(broken(Fault::TooLong(number), bytes));
    }
    // Most lengths are of one digit or two, which need no loop.
    if let Some((length, rest)) = ended(rule, number, rest) {
        return Ok(Some((Some(length), rest)));
    }
    if let Some((length, rest)) = ended_behind(rule, number, rest) {
        return Ok(Some((Some(length), rest)));
    }
    digits_of(rule, number, rest)
}

/// So many bytes, and an end.
#[tactic(auto, unfolding(crate::specs::Tokens::counted_at, crate::specs::Tokens::bytes_at))]
pub(crate) fn counted_of(length: u64, bytes: &[u8]) -> Result<Option<(&[u8], &[u8])>, Broken>
    ensures { Gives (λ x. (x.0.now, x.1.now)) result (counted_at length bytes.now) }
{
    let length = length as usize;
    if bytes.len() < length {
        return Ok(None);
    }
    let (text, rest) = bytes.split_at(length);
    Ok(Some((text, whole!(end_of(rest)))))
}

/// An inline request ends in LF alone too.
fn ends_line(inline: bool, c: u8) -> bool
    ensures { result ≡ ends_line inline c }
{
    inline && c == 10
}

/// A value's line has no LF, and an inline request has no quotes.
fn refused(inline: bool, c: u8) -> bool
    ensures { result ≡ refused inline c }
{
    if inline { c == 34 || c == 39 } else { c == 10 }
}

/// The text of a line, of which `seen` bytes were passed before.
#[tactic(auto, using(crate::proofs::Line::line_steps))]
pub(crate) fn line_of<'a>(
    inline: bool,
    limit: usize,
    seen: &mut usize,
    bytes: &'a [u8],
) -> Result<Option<(&'a [u8], &'a [u8])>, Broken>
    requires limit { limit < 2 ^ 32 }
    requires seen { seen.old ≤ length bytes.now }
    requires passed { Passed inline limit (take seen.old bytes.now) }
    ensures gives { Gives (λ x. (x.0.now, x.1.now)) result (line_at inline limit bytes.now) }
    ensures seen { seen.new ≤ length bytes.now }
    ensures passed { Passed inline limit (take seen.new bytes.now) }
{
    'line: while *seen < bytes.len() {
        let at = *seen;
        let (text, rest) = bytes.split_at(at);
        let Some((c, after)) = head_of(rest) else {
            return Ok(None);
        };
        if c == 13 {
            return Ok(Some((text, whole!(byte_of(10, after)))));
        }
        if ends_line(inline, c) {
            return Ok(Some((text, after)));
        }
        if limit <= at {
            return Err(broken(Fault::TooLong(limit as u64 + 1), rest));
        }
        if refused(inline, c) {
            return Err(bad_byte(rest));
        }
        *seen = at + 1;
    }
    Ok(None)
}
