//! Whom a turn ends.
ghost use Rattle.std.specs.Prelude.{◌≡◌};
ghost use Rattle.server_book.specs.Endings.{by_tick, quits_in};

/// Whom a turn ends, behind all that it sends: the connection that runs, where it quits; all, where
/// the server stops; and those for which more bytes wait than the limit.
#[derive(Clone, Copy)]
pub struct Ends {
    /// The connection that runs; at a Tick it is 0.
    pub by: u64,
    pub quits: bool,
    pub stops: bool,
    pub limit: u64,
}

impl Ends {
    /// Whom a Tick ends.
    pub fn by_tick(limit: u64) -> Ends
        ensures { result ≡ by_tick limit }
    {
        Ends {
            by: 0,
            quits: false,
            stops: false,
            limit,
        }
    }

    /// Whether the connection quits.
    pub fn quits(self, id: u64) -> bool
        ensures { result ≡ quits_in self id }
    {
        self.by == id && self.quits
    }
}
