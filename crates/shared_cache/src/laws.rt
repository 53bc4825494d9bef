//! What holds of a client's log. Each function's contract is the law; none has work to do.
ghost use Rattle.shared_cache.specs.Laws.{LegalStep, CommandsGrow, CommandsHaveWords, GotsGrow};
ghost use Rattle.shared_cache.specs.Laws.{RepliesAreGots, TakenWithin, HandshakeFirst, NoControl};
ghost use Rattle.shared_cache.specs.Laws.{OpenWasSent, PlaceIsQuery, SentReady, OpenWires};
ghost use Rattle.shared_cache.specs.Laws.{MarkBeforeRead};
ghost use Rattle.shared_cache.specs.Laws.{NoLaterWrite, NoLaterReply, HeldIsFetch};
ghost use Rattle.shared_cache.specs.Laws.{EndedHoldsNothing};
ghost use Rattle.shared_cache.specs.Laws.{SideFirst, TrackNamesId};
ghost use Rattle.shared_cache.specs.Laws.{WithinCapacity, EarliestLeaves, HeldInOrder};

/// A turn leaves a legal log legal.
pub fn law_legal_step()
    ensures { LegalStep }
{}

/// With one entry more, the commands of a link begin with those before.
pub fn law_commands_grow()
    ensures { CommandsGrow }
{}

/// Each command has at least one word.
pub fn law_commands_have_words()
    ensures { CommandsHaveWords }
{}

/// With one entry more, one value more was got on a link, or none.
pub fn law_gots_grow()
    ensures { GotsGrow }
{}

/// The replies are the values that were got and are no push, in order.
pub fn law_replies_are_gots()
    ensures { RepliesAreGots }
{}

/// No more bytes were taken than there are.
pub fn law_taken_within()
    ensures { TakenWithin }
{}

/// The handshake's commands come first, and nothing after them before the client is ready.
pub fn law_handshake_first()
    ensures { HandshakeFirst }
{}

/// Of two links the tracking command goes once all of Side's handshake is answered, and before any
/// command of a caller.
pub fn law_side_first()
    ensures { SideFirst }
{}

/// Of two links the tracking command names the id that Side was told, and Side is told no other.
pub fn law_track_names_id()
    ensures { TrackNamesId }
{}

/// No command of a caller is one that changes how the server serves the client.
pub fn law_no_control()
    ensures { NoControl }
{}

/// An open fetch was sent when its number was still to come, with caching on and its query not
/// held, and nothing that was got or sent since ends it.
pub fn law_open_was_sent()
    ensures { OpenWasSent }
{}

/// The command with the number of an open fetch is its query.
pub fn law_place_is_query()
    ensures { PlaceIsQuery }
{}

/// By opting in, the command before an open fetch's says that its keys are remembered.
pub fn law_mark_before_read()
    ensures { MarkBeforeRead }
{}

/// An open fetch was sent by a client that was ready.
pub fn law_sent_ready()
    ensures { SentReady }
{}

/// While a fetch is open, no link has ended.
pub fn law_open_wires()
    ensures { OpenWires }
{}

/// No command after an open fetch writes its key.
pub fn law_no_later_write()
    ensures { NoLaterWrite }
{}

/// Of two links no reply has come to a command after an open fetch that names its key.
pub fn law_no_later_reply()
    ensures { NoLaterReply }
{}

/// What is held is the reply to an open fetch.
pub fn law_held_is_fetch()
    ensures { HeldIsFetch }
{}

/// Once a link has ended nothing is held.
pub fn law_ended_holds_nothing()
    ensures { EndedHoldsNothing }
{}

/// No more keys are held than the capacity.
pub fn law_within_capacity()
    ensures { WithinCapacity }
{}

/// The key that leaves is held, and none that is held was last used before it.
pub fn law_earliest_leaves()
    ensures { EarliestLeaves }
{}

/// What is held is listed by its places: each below the number of what is held has its own, in
/// order, and no other place has any.
pub fn law_held_in_order()
    ensures { HeldInOrder }
{}
