//! What a request does besides its reply.
ghost use Rattle.std.specs.Prelude.{◌≡◌};
ghost use Rattle.server_book.specs.Endings.{ends_of};

use super::ends::Ends;
use resp_value::Words;
use track_modes::Mode;

/// Whom a request tells, what its connection remembers or registers by it, and what it makes of
/// that. One that names no mode ends what CLIENT CACHING said, and leaves the rest of the mode.
#[derive(Drop)]
pub enum Deed {
    Nothing,
    /// Those who hold these keys are told, and those who registered prefixes of them.
    Tell(Words),
    /// All that track are told that no key is what it was.
    TellAll,
    /// The connection remembers these keys.
    Remember(Words),
    /// The connection has this mode from now on.
    Become(Mode),
    /// And it tracks, by the prefixes of the mode.
    Track(Mode),
    /// And it forgets all keys and its prefixes.
    Forget(Mode),
    /// The connection ends behind all that the request sends.
    Quit,
    /// And so do all.
    Shutdown,
}

impl Deed {
    /// Whom the request of a connection ends, where no more bytes may wait for one than the limit.
    pub fn ends(&self, by: u64, limit: u64) -> Ends
        ensures { result ≡ ends_of by self.now limit }
    {
        Ends {
            by,
            quits: matches!(self, Deed::Quit),
            stops: matches!(self, Deed::Shutdown),
            limit,
        }
    }
}
