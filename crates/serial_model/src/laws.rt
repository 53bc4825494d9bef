//! What follows for any list of turns. Each function's contract is the law; none has work to do.
ghost use Rattle.serial_model.specs.Laws.{BeforeTheReply, BrokenIsLost, BrokenIsTold};
ghost use Rattle.serial_model.specs.Laws.{ChangeIsSignalled, CloseGivesUp};
ghost use Rattle.serial_model.specs.Laws.{DropIsCaused, DropIsOnce, DueIsPushed, DueIsSent};
ghost use Rattle.serial_model.specs.Laws.{EachRunOnce, EndIsAtItsEntry, EndIsCaused};
ghost use Rattle.serial_model.specs.Laws.{EndIsLast, EndIsSent};
ghost use Rattle.serial_model.specs.Laws.{FreshIsFirst, FreshIsSentNothing, GivenIsStream};
ghost use Rattle.serial_model.specs.Laws.{LegalIsAdded, LimitIsKept, MessagesAreLive};
ghost use Rattle.serial_model.specs.Laws.{ModeByOwnRuns, NextAfterMark, OthersExtend, PostedIsSent};
ghost use Rattle.serial_model.specs.Laws.{PostsAreNumbered, ReadIsOwedOrTold, ReadReplies};
ghost use Rattle.serial_model.specs.Laws.{RedirectedIsSent, RegisteredIsMode, ReplyBehindExpiry};
ghost use Rattle.serial_model.specs.Laws.{ResetRenews, StoppedHasEnded, StoppedIsShutdown};
ghost use Rattle.serial_model.specs.Laws.{RunsLive, SentGrows};
ghost use Rattle.serial_model.specs.Laws.{ToldEndsForCause, ToldIsDue, ToldIsSent};
ghost use Rattle.serial_model.specs.Laws.{WaitingIsUnsent};

use command_words::{law_replies_are_of_keys_read, law_signals_are_written};

/// After any list of turns on an empty history, the bytes that each connection was given are the
/// first bytes of what was sent to it.
pub fn law_given_is_stream()
    ensures { GivenIsStream }
{}

/// After any list of turns on an empty history, each request that was answered as run is one entry
/// of it, in the order of its connection.
pub fn law_each_run_once()
    ensures { EachRunOnce }
{}

/// A history is legal exactly where its newest entry is one that a step adds on a legal one.
pub fn law_legal_is_added()
    ensures { LegalIsAdded }
{}

/// A turn of another connection only adds to what was sent to a connection, or ends it.
pub fn law_others_extend()
    ensures { OthersExtend }
{}

/// The posts of an entry are what it added to what each connection was sent.
pub fn law_posted_is_sent()
    ensures { PostedIsSent }
{}

/// The posts of the newest entry have its number.
pub fn law_posts_are_numbered()
    ensures { PostsAreNumbered }
{}

/// A connection has ended exactly where its end was sent.
pub fn law_end_is_sent()
    ensures { EndIsSent }
{}

/// A connection's own runs alone change its mode.
pub fn law_mode_by_own_runs()
    ensures { ModeByOwnRuns }
{}

/// What CLIENT CACHING says is in force for a Run exactly where it is its connection's Run before.
pub fn law_next_after_mark()
    ensures { NextAfterMark }
{}

/// RESET leaves its connection the mode with which it was admitted, and no broken redirection.
pub fn law_reset_renews()
    ensures { ResetRenews }
{}

/// What was sent only grows, and what an entry adds has the number of that entry.
pub fn law_sent_grows()
    ensures { SentGrows }
{}

/// Nothing is sent to a connection after its end.
pub fn law_end_is_last()
    ensures { EndIsLast }
{}

/// The entry at which a connection ends sends its end, behind all else that it sends to it.
pub fn law_end_is_at_its_entry()
    ensures { EndIsAtItsEntry }
{}

/// How many bytes wait for a connection is how many it did not take and still can.
pub fn law_waiting_is_unsent()
    ensures { WaitingIsUnsent }
{}

/// A Close gives up what its connection had not taken.
pub fn law_close_gives_up()
    ensures { CloseGivesUp }
{}

/// No more bytes wait for a connection that has not ended than the limit.
pub fn law_limit_is_kept()
    ensures { LimitIsKept }
{}

/// The server is stopped exactly where a SHUTDOWN ran.
pub fn law_stopped_is_shutdown()
    ensures { StoppedIsShutdown }
{}

/// Where a SHUTDOWN ran every connection has ended.
pub fn law_stopped_has_ended()
    ensures { StoppedHasEnded }
{}

/// A connection is dropped exactly by a SHUTDOWN, or where more bytes wait for it than the limit;
/// but not by the entry by which it quits.
pub fn law_drop_is_caused()
    ensures { DropIsCaused }
{}

/// A connection that has ended is not dropped.
pub fn law_drop_is_once()
    ensures { DropIsOnce }
{}

/// A connection ends exactly where it is dropped, quits or is closed.
pub fn law_end_is_caused()
    ensures { EndIsCaused }
{}

/// A connection that was not admitted has what it is admitted with.
pub fn law_fresh_is_first()
    ensures { FreshIsFirst }
{}

/// A connection that was not admitted was sent nothing.
pub fn law_fresh_is_sent_nothing()
    ensures { FreshIsSentNothing }
{}

/// In a legal history no message is for a connection that has ended.
pub fn law_messages_are_live()
    ensures { MessagesAreLive }
{}

/// The reply to a Run stands behind what tells of keys that left before it, and before the rest.
pub fn law_reply_behind_expiry()
    ensures { ReplyBehindExpiry }
{}

/// A Run in a legal history is of a connection that has not ended.
pub fn law_runs_live()
    ensures { RunsLive }
{}

/// A changed answer is signalled.
pub fn law_change_is_signalled()
    ensures { ChangeIsSignalled }
{
    law_replies_are_of_keys_read();
}

/// A cacheable read replies what its query answers at its entry.
pub fn law_read_replies()
    ensures { ReadReplies }
{}

/// A connection that is told of a key gets its message where the key is signalled to it, or dropped
/// while it remembers it.
pub fn law_told_is_due()
    ensures { ToldIsDue }
{}

/// Where a command does not write a key, each query on the key answers as before, or the key has
/// left at its deadline and a connection that is told of it is told before the reply.
pub fn law_before_the_reply()
    ensures { BeforeTheReply }
{
    law_replies_are_of_keys_read();
    law_signals_are_written();
}

/// The receiver of what a connection is told is sent a message of each key that an entry tells the
/// connection of.
pub fn law_due_is_sent()
    ensures { DueIsSent }
{}

/// On the third protocol a connection that redirects its messages to none is sent a push of each
/// key that an entry tells it of.
pub fn law_due_is_pushed()
    ensures { DueIsPushed }
{}

/// Where a connection redirects its messages to one that has not ended, this one is sent a message
/// of each key that an entry tells the connection of: a push on the third protocol, on the second
/// the message of the channel, if it is subscribed.
pub fn law_redirected_is_sent()
    ensures { RedirectedIsSent }
{}

/// On the third protocol a connection that redirects its messages to one that has ended is sent the
/// notice of that by each entry that tells it of a key.
pub fn law_broken_is_told()
    ensures { BrokenIsTold }
{}

/// A redirection is broken from the first entry that tells its connection while the target has
/// ended, until the connection sets its tracking anew.
pub fn law_broken_is_lost()
    ensures { BrokenIsLost }
{}

/// So it is sent one of each key that is signalled to a connection that is told of it.
pub fn law_told_is_sent()
    ensures { ToldIsSent }
{}

/// A remembered read is owed or told: its connection is told of the key from then on, or it has
/// been told already, or it has ended.
pub fn law_read_is_owed_or_told()
    ensures { ReadIsOwedOrTold }
{}

/// Being told of a key ends only where the key is signalled or dropped, or the connection stops
/// tracking or ends.
pub fn law_told_ends_for_cause()
    ensures { ToldEndsForCause }
{}

/// A connection has registered a prefix of a key exactly where it has not ended and its mode has
/// one.
pub fn law_registered_is_mode()
    ensures { RegisteredIsMode }
{}
