//! A few bytes in a value itself.
ghost use Rattle.std.specs.Prelude.{◌≡◌, ◌+◌, ◌≤◌, ◌++◌, length, take};

/// How many bytes at most lie in a byte string itself: with its kind and its length they fill 32
/// bytes.
pub(crate) const SHORT_LIMIT: usize = 30;

/// The first `len` of the bytes; the others are of no account.
#[derive(Clone, Copy)]
pub(crate) struct Short {
    pub(crate) len: u8,
    pub(crate) bytes: [u8; SHORT_LIMIT],
    ghost fits: { len ≤ 30 },
}

impl Short {
    pub(crate) fn new(bytes: &[u8]) -> Short
        requires { length bytes.now ≤ 30 }
        ensures { take result.len result.bytes ≡ bytes.now }
    {
        let mut room = [0; SHORT_LIMIT];
        room[..bytes.len()].copy_from_slice(bytes);
        Short {
            len: bytes.len() as u8,
            bytes: room,
        }
    }

    /// Both, the one behind the other.
    pub(crate) fn join(front: &[u8], back: &[u8]) -> Short
        requires { length front.now + length back.now ≤ 30 }
        ensures { take result.len result.bytes ≡ front.now ++ back.now }
    {
        let end = front.len() + back.len();
        let mut room = [0; SHORT_LIMIT];
        room[..front.len()].copy_from_slice(front);
        room[front.len()..end].copy_from_slice(back);
        Short {
            len: end as u8,
            bytes: room,
        }
    }

    pub(crate) fn as_slice(&self) -> &[u8]
        ensures { result.now ≡ take self.now.len self.now.bytes }
    {
        &self.bytes[..self.len as usize]
    }
}
