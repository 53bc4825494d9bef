//! Values without elements, after their type byte.
ghost use Rattle.std.specs.Prelude.{◌≡◌, ◌≤◌, ◌+◌, ◌∷◌, ℕ, length, take, true, false};
ghost use Rattle.resp_value.specs.ValueTree.{tree_of};
ghost use Rattle.resp_value.specs.Tree.{Tree, simple, error, null};
ghost use Rattle.resp_stream.specs.Parsed.{taken};
ghost use Rattle.resp_stream.specs.Results.{LeafGives};
ghost use Rattle.resp_stream.specs.Tokens.{IsRule, Passed, ending};
ghost use Rattle.resp_stream.specs.Request.{line_limit};
ghost use Rattle.resp_stream.specs.Value.{line_tree, blob_tree, text_at, whole_number_at, blob_at};
ghost use Rattle.resp_stream.specs.Value.{formatted_at, verbatim_at, truth_at, choice_of, too_deep};

use super::fault::{Broken, Fault, ReadStop};
use super::tokens::{LengthRule, bad_byte, byte_of, counted_of, end_of, length_of, line_of, whole};
use super::value::{TypeByte, format_of, number_of};
use resp_value::{Octets, Value};
use std::alloc::Global;

const LINE_LIMIT: usize = 65536;

pub(crate) const BLOB: LengthRule = LengthRule {
    streamed: true,
    null: true,
    least: 0,
    limit: 16777216,
};

/// Three bytes of a format and a colon are counted.
const VERBATIM: LengthRule = LengthRule {
    streamed: false,
    null: false,
    least: 4,
    limit: 16777216,
};

const BLOB_ERROR: LengthRule = LengthRule {
    streamed: false,
    null: false,
    least: 0,
    limit: 16777216,
};

/// A line of text: a simple string or an error.
#[tactic(auto, unfolding(crate::specs::Value::text_at))]
fn text_of<'a>(
    alloc: Global,
    is_error: bool,
    seen: &mut usize,
    bytes: &'a [u8],
) -> Result<Option<(Value, &'a [u8])>, ReadStop>
    requires seen { seen.old ≤ length bytes.now }
    requires passed { Passed false line_limit (take seen.old bytes.now) }
    ensures gives { LeafGives (λ x. (tree_of x.0, x.1.now)) result
        (text_at (line_tree is_error) bytes.now) }
    ensures seen { seen.new ≤ length bytes.now }
    ensures passed { Passed false line_limit (take seen.new bytes.now) }
{
    let (text, rest) = whole!(line_of(false, LINE_LIMIT, seen, bytes), ReadStop::Faulty);
    let text = Octets::from_slice(alloc, text)?;
    if is_error {
        return Ok(Some((Value::Error(text), rest)));
    }
    Ok(Some((Value::Simple(text), rest)))
}

/// Counted bytes: a blob, its null, or a long error.
#[tactic(auto, unfolding(crate::specs::Value::blob_at))]
fn blob_of(
    alloc: Global,
    is_error: bool,
    rule: LengthRule,
    bytes: &[u8],
) -> Result<Option<(Value, &[u8])>, ReadStop>
    requires { IsRule rule }
    ensures { LeafGives (λ x. (tree_of x.0, x.1.now)) result
        (blob_at (blob_tree is_error) rule bytes.now) }
{
    let (length, rest) = whole!(length_of(rule, bytes), ReadStop::Faulty);
    let Some(length) = length else {
        return Ok(Some((Value::Null, rest)));
    };
    let (text, rest) = whole!(counted_of(length, rest), ReadStop::Faulty);
    let text = Octets::from_slice(alloc, text)?;
    if is_error {
        return Ok(Some((Value::BlobError(text), rest)));
    }
    Ok(Some((Value::Blob(text), rest)))
}

/// A format, a colon and a text, which have so many bytes.
#[tactic(auto, unfolding(crate::specs::Value::formatted_at))]
fn formatted_of(
    alloc: Global,
    length: u64,
    bytes: &[u8],
) -> Result<Option<(Value, &[u8])>, ReadStop>
    ensures { LeafGives (λ x. (tree_of x.0, x.1.now)) result (formatted_at length bytes.now) }
{
    let Some((x, y, z, rest)) = format_of(bytes) else {
        return Ok(None);
    };
    let rest = whole!(byte_of(b':', rest), ReadStop::Faulty);
    let (text, rest) = whole!(counted_of(length.saturating_sub(4), rest), ReadStop::Faulty);
    let text = Octets::from_slice(alloc, text)?;
    let format = [x, y, z];
    Ok(Some((Value::Verbatim(format, text), rest)))
}

#[tactic(auto, unfolding(crate::specs::Value::verbatim_at))]
fn verbatim_of(alloc: Global, bytes: &[u8]) -> Result<Option<(Value, &[u8])>, ReadStop>
    ensures { LeafGives (λ x. (tree_of x.0, x.1.now)) result (verbatim_at bytes.now) }
{
    let (length, rest) = whole!(length_of(VERBATIM, bytes), ReadStop::Faulty);
    match length {
        None => Ok(Some((Value::Null, rest))),
        Some(length) => formatted_of(alloc, length, rest),
    }
}

#[tactic(auto, unfolding(crate::specs::Value::truth_at))]
fn truth_of(bytes: &[u8]) -> Result<Option<(Value, &[u8])>, ReadStop>
    ensures { LeafGives (λ x. (tree_of x.0, x.1.now)) result (truth_at bytes.now) }
{
    let [c, rest @ ..] = bytes else {
        return Ok(None);
    };
    let c = *c;
    if c == b't' {
        let rest = whole!(end_of(rest), ReadStop::Faulty);
        return Ok(Some((Value::Bool(true), rest)));
    }
    if c == b'f' {
        let rest = whole!(end_of(rest), ReadStop::Faulty);
        return Ok(Some((Value::Bool(false), rest)));
    }
    Err(ReadStop::Faulty(bad_byte(bytes)))
}

fn null_of(bytes: &[u8]) -> Result<Option<(Value, &[u8])>, ReadStop>
    ensures { LeafGives (λ x. (tree_of x.0, x.1.now)) result (ending null bytes.now) }
{
    let rest = whole!(end_of(bytes), ReadStop::Faulty);
    Ok(Some((Value::Null, rest)))
}

#[tactic(auto, unfolding(crate::specs::Value::whole_number_at))]
fn whole_number_of(bytes: &[u8]) -> Result<Option<(Value, &[u8])>, ReadStop>
    ensures { LeafGives (λ x. (tree_of x.0, x.1.now)) result (whole_number_at bytes.now) }
{
    let (number, rest) = whole!(number_of(bytes), ReadStop::Faulty);
    Ok(Some((Value::Number(number), rest)))
}

/// A value without elements, after its type byte `c`; an aggregate is too deep here. There are
/// `left` bytes from that on, and `seen` bytes of a line were passed before.
pub(crate) fn leaf_of<'a>(
    alloc: Global,
    mark: TypeByte,
    c: u8,
    left: usize,
    seen: &mut usize,
    bytes: &'a [u8],
) -> Result<Option<(Value, &'a [u8])>, ReadStop>
    requires left { left ≡ length bytes.now + 1 }
    requires seen { seen.old ≤ length bytes.now }
    requires passed { Passed false line_limit (take seen.old bytes.now) }
    ensures gives { LeafGives (λ x. (tree_of x.0, x.1.now)) result
        (taken (choice_of too_deep mark c) c bytes.now) }
    ensures seen { seen.new ≤ length bytes.now }
    ensures passed { Passed false line_limit (take seen.new bytes.now) }
{
    match mark {
        TypeByte::Simple => text_of(alloc, false, seen, bytes),
        TypeByte::Error => text_of(alloc, true, seen, bytes),
        TypeByte::Number => whole_number_of(bytes),
        TypeByte::Blob => blob_of(alloc, false, BLOB, bytes),
        TypeByte::Verbatim => verbatim_of(alloc, bytes),
        TypeByte::BlobError => blob_of(alloc, true, BLOB_ERROR, bytes),
        TypeByte::Truth => truth_of(bytes),
        TypeByte::Null => null_of(bytes),
        TypeByte::NotServed => Err(ReadStop::Faulty(Broken {
            fault: Fault::NotServed(c),
            left,
        })),
        TypeByte::Wrong => Err(ReadStop::Faulty(Broken {
            fault: Fault::BadByte,
            left,
        })),
        TypeByte::Aggregate(_) => Err(ReadStop::Faulty(Broken {
            fault: Fault::TooDeep,
            left,
        })),
    }
}
