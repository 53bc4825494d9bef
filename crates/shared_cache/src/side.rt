//! What a client keeps of its invalidation link.
ghost use Rattle.std.specs.Prelude.{◌≡◌, ◌||◌, [], IfOk, false};
ghost use Rattle.std.specs.List.{flat_map};
ghost use Rattle.resp_value.specs.Spelling.{request_spelling};
ghost use Rattle.shared_cache.specs.declared.log.Wire.TheVariants.{Side};
ghost use Rattle.shared_cache.specs.Log.{handshake, ends_wire};

use super::handshake::greeting;
use super::log::{ClientMode, Shape, Wire};
use byte_queue::ByteQueue;
use resp_value::{NoMemory, Octets};
use std::alloc::Global;

/// The invalidation link of a pair; of one link there is nothing.
#[derive(Drop)]
pub struct SideLink {
    /// The bytes that were not taken.
    pub queued: ByteQueue,
    pub replied: u64,
    /// The digits of the id that it was told.
    pub id: Octets,
    pub ended: bool,
}

impl SideLink {
    /// Its handshake is queued.
    pub fn new(alloc: Global, mode: &ClientMode) -> Result<SideLink, NoMemory>
        ensures { IfOk result (λ s. s ≡ record {
          queued = flat_map request_spelling (handshake mode.now Side []);
          replied = 0;
          id = [];
          ended = false;
        }) }
    {
        Ok(SideLink {
            queued: greeting(alloc, mode, Wire::Side)?,
            replied: 0,
            id: Octets::from_slice(alloc, b"")?,
            ended: false,
        })
    }
}

/// Whether a link has ended, as it had before or had not, after an end of this one of a client that
/// is ready or not: of two links, one of Side, before the client is ready, ends Main.
pub fn has_ended_by(shape: Shape, end: Wire, wire: Wire, ready: bool, before: bool) -> bool
    ensures { result ≡ (ends_wire shape end wire ready || before) }
{
    match (end, wire) {
        (Wire::Main, Wire::Side) => before,
        (Wire::Side, Wire::Main) => match shape {
            Shape::Single => before,
            Shape::Pair => !ready || before,
        },
        _ => true,
    }
}
