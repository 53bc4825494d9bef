//! Who is told of which keys and what is remembered, and no more than that: each function is a law,
//! and does nothing.
#![tactic(auto)]

ghost use Rattle.tracking_laws.specs.Causes.{EachReadIsOwedOrTold, EachReadIsRemembered};
ghost use Rattle.tracking_laws.specs.Causes.{GoneIsForgotten, LeavesForCause, RememberedIsRead};
ghost use Rattle.tracking_laws.specs.Drops.{DropsOldest};
ghost use Rattle.tracking_laws.specs.Laws.{LegalTellsExactly, OfEachEntry, OfEachLegal};
ghost use Rattle.tracking_laws.specs.Sent.{OnlyAnswered, SentIsTold};
ghost use Rattle.tracking_laws.specs.Told.{ToldByName, ToldIsAsked, ToldOfAll, ToldOnce};

/// At each entry a connection is told of a key by name exactly where the key leaves the table while
/// the connection remembers it, and where the key expires or is signalled once for each prefix of
/// it that the connection has registered, but not where its own command under NOLOOP signals the
/// key; of all keys exactly at a flush, if it tracks, its own under NOLOOP too.
pub fn law_told_exactly_where_remembered()
    ensures by_name { OfEachEntry ToldByName }
    ensures of_all { OfEachEntry ToldOfAll }
{}

/// A connection is told of a key by name only if it remembered it, before the entry or by the
/// entry's own read, or has registered a prefix of it.
pub fn law_told_is_asked()
    ensures { OfEachEntry ToldIsAsked }
{}

/// An entry tells a connection of a key once at most; or twice, where the key expired, was read by
/// the entry's own command, and was dropped at once. One that has registered prefixes of the key is
/// told once more for each where the key expires, and where it is signalled.
pub fn law_told_once()
    ensures { OfEachEntry ToldOnce }
{}

/// A connection comes to remember a key by its own read alone, where its mode says so at that read,
/// and remembers it no more only for a cause: the key is signalled or dropped, or the connection
/// stops tracking or ends, by QUIT or as it is dropped too. A key that is signalled or dropped is
/// forgotten until it is read again, also where its own command under NOLOOP signals it.
pub fn law_remembered_for_cause()
    ensures read { OfEachEntry RememberedIsRead }
    ensures leaves { OfEachEntry LeavesForCause }
    ensures forgotten { OfEachEntry GoneIsForgotten }
{}

/// Keys are dropped only while more than the limit are remembered, down to the limit, the oldest
/// first.
pub fn law_oldest_are_dropped()
    ensures { OfEachEntry DropsOldest }
{}

/// Each key that a remembered read names is owed or told: its connection is told of it from then
/// on, or it has been told already, or it has ended. It is remembered, or dropped at once and told,
/// or its connection is dropped.
pub fn law_each_read_is_owed_or_told()
    ensures owed { OfEachLegal EachReadIsOwedOrTold }
    ensures remembered { OfEachEntry EachReadIsRemembered }
{}

/// An entry sends a connection a message for each time that it tells one whose messages go to it,
/// and beside these its reply and its end alone, which a QUIT and a drop send too. A SHUTDOWN is
/// not answered. On the second protocol, not subscribed, a connection is sent no message.
pub fn law_sent_is_told()
    ensures told { OfEachEntry SentIsTold }
    ensures answered { OfEachEntry OnlyAnswered }
{}

/// All of this holds of each entry of a legal history.
pub fn law_told_exactly()
    ensures { LegalTellsExactly }
{}
