//! What holds of every schedule.
ghost use Rattle.server_links.specs.OneHistory.{HasOneHistory, RefusalsChangeNothing};

/// The contract is the law; there is no work to do. After any schedule that meets no fault, the
/// history is one legal list of entries, and the lines that begin with `#` are its lines. The bytes
/// that each link's client read are the first bytes of what that history sent it, and the requests
/// in the bytes that its server's end read, up to a fault of the stream or a QUIT, are its Runs,
/// each once and in order. No byte is lost but by a cut. Each Run and Tick is at the moment that
/// the clock was set to last, or at the greatest moment before it. One more event that meets a
/// fault, or that want of memory breaks off, stays within that.
pub fn law_one_history()
    ensures { HasOneHistory }
{}

/// The first three faults of an event leave the world as it was, and print nothing.
pub fn law_refusals_change_nothing()
    ensures { RefusalsChangeNothing }
{}
