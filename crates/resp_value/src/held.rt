//! Where the bytes of a byte string lie.
ghost use Rattle.std.specs.Prelude.{◌≡◌, ◌++◌, [], IfOk, IfErr};
ghost use Rattle.resp_value.specs.Held.{bytes_of};

use crate::octets::NoMemory;
use crate::short::{SHORT_LIMIT, Short};
use std::alloc::{AllocFailed, Global};
use std::sync::Arc;

/// From how many bytes on copies share them. A copy of fewer costs little more than the piece of
/// memory that the count of their owners takes.
const SHARED_FROM: usize = 4096;

/// The bytes, in the value itself, owned, or shared with other byte strings.
#[derive(Drop)]
pub(crate) enum Held {
    Short(Short),
    Owned(Vec<u8>),
    Shared(Arc<Vec<u8>>),
}

impl Held {
    pub(crate) fn empty() -> Held
        ensures { bytes_of result ≡ [] }
    {
        Held::Short(Short::new(&[]))
    }

    /// A copy of the bytes.
    pub(crate) fn from_slice(alloc: Global, bytes: &[u8]) -> Result<Held, NoMemory>
        ensures { IfOk result (λ h. bytes_of h ≡ bytes.now) }
    {
        if bytes.len() <= SHORT_LIMIT {
            return Ok(Held::Short(Short::new(bytes)));
        }
        let bytes = Vec::from_slice(alloc, bytes)?;
        Ok(Held::from_long(bytes))
    }

    /// The bytes themselves. Many are owned where there is no memory for the count of their owners.
    fn from_long(bytes: Vec<u8>) -> Held
        ensures { bytes_of result ≡ bytes.items }
    {
        if bytes.len() < SHARED_FROM {
            return Held::Owned(bytes);
        }
        match Arc::new(*bytes.allocator(), bytes) {
            Ok(shared) => Held::Shared(shared),
            Err(AllocFailed { value }) => Held::Owned(value),
        }
    }

    /// The bytes themselves; takes no memory, and gives back that of a few.
    pub(crate) fn from_vec(bytes: Vec<u8>) -> Held
        ensures { bytes_of result ≡ bytes.items }
    {
        if bytes.len() <= SHORT_LIMIT {
            Held::Short(Short::new(bytes.as_slice()))
        } else {
            Held::Owned(bytes)
        }
    }

    pub(crate) fn as_slice(&self) -> &[u8]
        ensures { result.now ≡ bytes_of self.now }
    {
        match self {
            Held::Short(bytes) => bytes.as_slice(),
            Held::Owned(bytes) => bytes.as_slice(),
            Held::Shared(bytes) => bytes.as_slice(),
        }
    }

    /// The same bytes once more; takes no memory where they are few, or are shared.
    pub(crate) fn copy(&self, alloc: Global) -> Result<Held, NoMemory>
        ensures { IfOk result (λ h. bytes_of h ≡ bytes_of self.now) }
    {
        match self {
            Held::Short(bytes) => Ok(Held::Short(*bytes)),
            Held::Owned(bytes) => Held::from_slice(alloc, bytes.as_slice()),
            Held::Shared(bytes) => Ok(Held::Shared(Arc::try_clone(bytes)?)),
        }
    }

    /// The bytes, and others behind them. Where memory runs out it answers the bytes alone.
    pub(crate) fn append(self, alloc: Global, more: &[u8]) -> Result<Held, Held>
        ensures ok { IfOk result (λ h. bytes_of h ≡ bytes_of self ++ more.now) }
        ensures err { IfErr result (λ h. bytes_of h ≡ bytes_of self) }
    {
        let bytes = match self {
            Held::Owned(bytes) => bytes,
            Held::Short(bytes) => return Held::Short(bytes).join(alloc, more),
            Held::Shared(bytes) => match Arc::try_unwrap(bytes) {
                Ok(bytes) => bytes,
                Err(bytes) => return Held::Shared(bytes).join(alloc, more),
            },
        };
        extended(bytes, more)
    }

    /// A copy of the bytes, and of others behind them.
    fn join(self, alloc: Global, more: &[u8]) -> Result<Held, Held>
        ensures ok { IfOk result (λ h. bytes_of h ≡ bytes_of self ++ more.now) }
        ensures err { IfErr result (λ h. bytes_of h ≡ bytes_of self) }
    {
        match joined(alloc, self.as_slice(), more) {
            Ok(held) => Ok(held),
            Err(_) => Err(self),
        }
    }
}

/// Both, the one behind the other.
fn joined(alloc: Global, front: &[u8], back: &[u8]) -> Result<Held, NoMemory>
    ensures { IfOk result (λ h. bytes_of h ≡ front.now ++ back.now) }
{
    let count = front.len() + back.len();
    if count <= SHORT_LIMIT {
        return Ok(Held::Short(Short::join(front, back)));
    }
    let mut bytes = Vec::with_capacity(alloc, count)?;
    bytes.extend_from_slice(front)?;
    bytes.extend_from_slice(back)?;
    Ok(Held::from_long(bytes))
}

/// The bytes, and others behind them.
fn extended(bytes: Vec<u8>, more: &[u8]) -> Result<Held, Held>
    ensures ok { IfOk result (λ h. bytes_of h ≡ bytes.items ++ more.now) }
    ensures err { IfErr result (λ h. bytes_of h ≡ bytes.items) }
{
    let mut bytes = bytes;
    match bytes.extend_from_slice(more) {
        Ok(()) => Ok(Held::from_long(bytes)),
        Err(_) => Err(Held::Owned(bytes)),
    }
}
