//! Writing all of some bytes to a link.
ghost use Rattle.std.specs.Io.KnownBytes.{Keeps};
ghost use Rattle.edge_links.specs.Writes.{WritesAll, AllCounts};

use super::links::Link;
use super::streams::Wrote;

/// The link failed.
#[derive(Clone, Copy, Debug, PartialEq, Eq)]
pub struct LinkFailed;

/// Writes all of the bytes, in as many writes as the link wants.
pub fn write_all<L: Link>(link: &mut L, bytes: &[u8]) -> Result<(), LinkFailed>
    ensures bytes { WritesAll result (L.contents link.old) (L.contents link.new) bytes.now }
    ensures unread { Keeps (L.left link.old) (L.left link.new) }
    ensures counts { AllCounts result (L.counts link.old) (L.counts link.new) }
{
    let mut rest = bytes;
    while !rest.is_empty() {
        match link.write(rest) {
            Wrote::Took(n) => {
                let (_, more) = rest.split_at(n);
                rest = more;
            }
            Wrote::Failed => return Err(LinkFailed),
        }
    }
    Ok(())
}
