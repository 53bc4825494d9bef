//! Currency over any wires: what a client holds is what the server would answer, whatever its
//! wires, the form of its log and the server's history are, where the laws of both hold. Each
//! function is a law, and does nothing.
#![tactic(auto)]

ghost use Rattle.std.specs.Prelude.{List, ℕ};
ghost use Rattle.wire_currency.specs.Complete.{CompletesExactly};
ghost use Rattle.wire_currency.specs.Current.{Currency, PointApart};
ghost use Rattle.wire_currency.specs.Opened.{RunsInOrder, StepsGiveLaws};

/// A kind of client: what its wires and the entries of its log are, the words of its commands, what
/// it gets of what is sent to it, and what it makes of a value.
pub trait ClientKind {
    type Wire;

    type LogEntry;

    type Words;

    type Value;

    type Message;

    type Answer;

    /// A value is what is got of a message; of the end of a connection none is.
    ghost is_got: { Self.Value → Self.Message → Type 0 };
    /// After so many entries of the history the modes of its connections are as it asked.
    ghost as_asked: { ℕ → Type 0 };
    /// The read of an entry is one that its connection's tracking remembers.
    ghost remembered: { ℕ → Type 0 };
    /// A log that its own rules allow.
    ghost is_legal: { List Self.LogEntry → Type 0 };
}

/// The reply to a fetch that is open is current, and a hit on it has its point: for every history
/// and every log that meet, where the laws of the log, of what was sent, of the entries and of the
/// handshake hold.
pub fn law_currency<C: ClientKind>()
    ensures { Currency C.Wire C.LogEntry C.Words C.Value C.Message C.Answer C.is_got C.as_asked
        C.remembered }
{}

/// On more wires than one the point of a hit is the greater of its fetch's entry and what is
/// complete.
pub fn law_point_on_more_wires<C: ClientKind>()
    ensures { PointApart C.Wire C.LogEntry C.Words C.Value C.Message C.Answer C.is_got }
{}

/// A wire is complete up to the entry before the first of which something is not got, or to the end
/// of the history; a client, up to the least of its wires.
pub fn law_complete_exactly<C: ClientKind>()
    ensures { CompletesExactly C.Wire C.LogEntry C.Words C.Value C.Message C.is_got }
{}

/// The laws of a log, for a fetch that is open in it, follow from what single entries do.
pub fn law_steps_give_log_laws<C: ClientKind>()
    ensures { StepsGiveLaws C.Wire C.LogEntry C.Words C.Value C.Message C.Answer C.is_legal }
{}

/// A command that was sent once another wire's reply was got ran behind the command of that reply.
pub fn law_runs_in_order<C: ClientKind>()
    ensures { RunsInOrder C.Wire C.LogEntry C.Words C.Value C.Message C.is_got }
{}
