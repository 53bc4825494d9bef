//! Where a long blob lies that came in pieces.
ghost use Rattle.std.specs.Prelude.{◌≡◌, ◌≤◌, ◌+◌, ◌∷◌, IfSome};
ghost use Rattle.resp_stream.specs.LongBlobs.{LiesAt};
ghost use Rattle.resp_stream.specs.Tokens.{IsRule};
ghost use Rattle.resp_stream.specs.ValueSteps.{IsBlobAt};

use super::fault::WHOLE_LIMIT;
use super::leaf::BLOB;
use super::tokens::{LengthRule, head_of, length_of};

/// Shorter ones are copied: their memory then has no more room than they need, at less cost.
const LONG: usize = 4096;

/// The place of a blob's bytes in a text.
#[derive(Clone, Copy, Debug, Drop)]
pub struct BlobPlace {
    pub first: usize,
    pub count: usize,
}

/// What stands behind CR LF.
fn behind_end(bytes: &[u8]) -> Option<&[u8]>
    ensures { IfSome result (λ r. bytes.now ≡ 13 ∷ 10 ∷ r.now) }
{
    let (cr, rest) = head_of(bytes)?;
    let (lf, rest) = head_of(rest)?;
    if cr == 13 && lf == 10 {
        Some(rest)
    } else {
        None
    }
}

/// The blob that the text begins with, where it is long, whole, no shorter than what stands behind
/// it, and at its end within so many bytes.
pub(crate) fn place_of(rule: LengthRule, most: usize, text: &[u8]) -> Option<BlobPlace>
    requires { IsRule rule }
    ensures lies { IfSome result (λ p. LiesAt rule text.now p.first p.count) }
    ensures within { IfSome result (λ p. p.first + p.count + 2 ≤ most) }
{
    let (mark, rest) = head_of(text)?;
    if mark != b'$' {
        return None;
    }
    let Ok(Some((Some(length), rest))) = length_of(rule, rest) else {
        return None;
    };
    let first = text.len() - rest.len();
    let count = length as usize;
    if count < LONG || rest.len() < count || most < first + count + 2 {
        return None;
    }
    let (_, after) = rest.split_at(count);
    let behind = behind_end(after)?;
    if count < behind.len() {
        return None;
    }
    Some(BlobPlace { first, count })
}

/// A value that is such a blob.
pub(crate) fn long_blob(text: &[u8]) -> Option<BlobPlace>
    ensures { IfSome result (λ p. IsBlobAt text.now p.first p.count) }
{
    place_of(BLOB, WHOLE_LIMIT, text)
}
