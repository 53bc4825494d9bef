//! What holds of every schedule.
ghost use Rattle.world_run.specs.WorldHistory.{HasOneHistory, RefusalsChangeNothing};

use currency::law_currency;

/// The contract is the law; there is no work to do. After any schedule that meets no fault, the
/// history is one legal list of entries, and the lines that begin with `#` are its lines. What each
/// link's client read are the first bytes of what that history sent it, and the requests that its
/// server's end read are its Runs, each once and in order. A client's log is a legal one, and what
/// it holds is what the server would answer: each answer from a cache that the schedule prints is
/// that query's answer at the printed point of the history. Each Run and Tick is at the moment that
/// the clock was set to last, or at the greatest moment before it. A link that flows and is not cut
/// delivers all that was there. One more event that meets a fault, or that want of memory breaks
/// off, stays within that.
pub fn law_one_history()
    ensures { HasOneHistory }
{
    law_currency();
}

/// An event that is refused leaves the world as it was, and prints nothing.
pub fn law_refusals_change_nothing()
    ensures { RefusalsChangeNothing }
{}
