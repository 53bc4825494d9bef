//! A client's pump, and sessions of scripts, over links in memory.
ghost use Rattle.std.specs.Prelude.{◌≡◌, ◌<◌};
ghost use Rattle.shared_cache.specs.ClientFields.{IsClientMode};
ghost use Rattle.shared_cache.specs.declared.log.Shape.TheVariants.{Single, Pair};

mod pumps;
mod sessions;

use resp_value::Proto;
use shared_cache::{Caching, ClientMode, Shape};
use shared_client::ClientSetup;
use std::alloc::{AllocError, Global};

/// A text in which `;` stands for the end of a line.
fn bytes_of(alloc: Global, text: &str) -> Result<Vec<u8>, AllocError> {
    let mut bytes = Vec::new(alloc);
    for byte in text.bytes() {
        match byte {
            b';' => bytes.extend_from_slice(b"\r\n")?,
            _ => bytes.push(byte)?,
        }
    }
    Ok(bytes)
}

/// A client of ten keys in default mode, with a log of so many entries.
fn setup_of(log_max: u64) -> ClientSetup
    ensures mode { IsClientMode result.mode }
    ensures shape { result.mode.shape ≡ Single }
    ensures capacity { result.capacity ≡ 10 }
    ensures log_max { 0 < result.log_max }
{
    setup_in(Caching::Default, false, log_max)
}

/// A client of two links.
fn pair_of(proto: Proto) -> ClientSetup
    ensures mode { IsClientMode result.mode }
    ensures shape { result.mode.shape ≡ Pair }
    ensures capacity { result.capacity ≡ 10 }
    ensures log_max { 0 < result.log_max }
{
    ClientSetup {
        mode: ClientMode {
            shape: Shape::Pair,
            proto,
            caching: Caching::Default,
            noloop: false,
        },
        capacity: 10,
        log_max: 100,
    }
}

/// A client of one link in another mode.
fn setup_in(caching: Caching, noloop: bool, log_max: u64) -> ClientSetup
    ensures mode { IsClientMode result.mode }
    ensures shape { result.mode.shape ≡ Single }
    ensures capacity { result.capacity ≡ 10 }
    ensures log_max { 0 < result.log_max }
{
    ClientSetup {
        mode: ClientMode {
            shape: Shape::Single,
            proto: Proto::Three,
            caching,
            noloop,
        },
        capacity: 10,
        log_max: log_max.max(1),
    }
}
