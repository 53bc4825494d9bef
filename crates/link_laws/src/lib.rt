//! What is read at one end of a link was written at the other: each function is a law, and does
//! nothing.
#![tactic(auto)]

ghost use Rattle.serial_model.specs.History.{IsLegal};
ghost use Rattle.link_laws.specs.Crossing.{HeardWasCommanded, ReadWasSent, SentIsWellFormed};

/// Whatever ran before, what a server sends to a connection has a spelling that a reader can tell
/// from any other.
pub fn law_what_is_sent_is_well_formed()
    ensures { SentIsWellFormed }
{}

/// What a client reads of the first bytes of a connection's stream is what was sent first.
pub fn law_what_is_read_was_sent()
    ensures { ReadWasSent IsLegal }
{}

/// What a server hears of the first bytes of a client's link are the client's first commands.
pub fn law_what_is_heard_was_commanded()
    ensures { HeardWasCommanded }
{}
