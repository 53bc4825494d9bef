//! What follows of the commands' rows. Each function's contract is the law; none has work to do.
ghost use Rattle.command_words.specs.Laws.{RepliesAreOfKeysRead, SignalsAreWritten};

/// A key that a command signals is one of those that it writes.
pub fn law_signals_are_written()
    ensures { SignalsAreWritten }
{}

/// The reply to a read depends on the contents of the keys that it reads alone.
pub fn law_replies_are_of_keys_read()
    ensures { RepliesAreOfKeysRead }
{}
