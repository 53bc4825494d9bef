//! The cache is current: what a client holds is what the server would answer, on the premise that
//! its links hand over what was sent, in order.
#![tactic(auto)]

ghost use Rattle.currency.specs.CompleteExactly.{CompletesExactly};
ghost use Rattle.currency.specs.Current.{Currency};

use command_words::law_signals_are_written;
use serial_model::{
    law_before_the_reply, law_change_is_signalled, law_redirected_is_sent, law_registered_is_mode,
};

/// For every legal history and every legal log that meet, of a client of one link or of two, and
/// whatever other connections do: each held entry is current, and a hit on it has its point.
pub fn law_currency()
    ensures { Currency }
{
    law_change_is_signalled();
    law_before_the_reply();
    law_signals_are_written();
    law_registered_is_mode();
    law_redirected_is_sent();
}

/// For every history and every log that meet: a link is complete up to the entry before the first
/// of which something is not got, or to the end of the history; a client, up to the least of its.
pub fn law_complete_exactly()
    ensures { CompletesExactly }
{}
