//! The server's history, and what it says of each connection.
#![tactic(auto)]

mod callable;
mod copies;
mod effect;
mod history;
mod laws;
mod standing;

pub use effect::{Effect, EntryKind};
pub use history::{BookCall, BookRefusal, BookReply, Entry, Limits, Post, Posted};
pub use laws::{
    law_before_the_reply, law_broken_is_lost, law_broken_is_told, law_change_is_signalled,
    law_close_gives_up, law_drop_is_caused, law_drop_is_once, law_due_is_pushed, law_due_is_sent,
    law_each_run_once, law_end_is_at_its_entry, law_end_is_caused, law_end_is_last,
    law_end_is_sent, law_fresh_is_first, law_fresh_is_sent_nothing, law_given_is_stream,
    law_legal_is_added, law_limit_is_kept, law_messages_are_live, law_mode_by_own_runs,
    law_next_after_mark, law_others_extend, law_posted_is_sent, law_posts_are_numbered,
    law_read_is_owed_or_told, law_read_replies, law_redirected_is_sent, law_registered_is_mode,
    law_reply_behind_expiry, law_reset_renews, law_runs_live, law_sent_grows,
    law_stopped_has_ended, law_stopped_is_shutdown, law_told_ends_for_cause, law_told_is_due,
    law_told_is_sent, law_waiting_is_unsent,
};
pub use standing::Standing;
