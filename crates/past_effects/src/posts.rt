//! What was sent to a connection, by the effects of a past.
ghost use Rattle.std.specs.Prelude.{◌≡◌, List, IfOk, OnOk, ◌++◌};
ghost use Rattle.serial_model.specs.declared.history.Entry.{Entry};
ghost use Rattle.serial_model.specs.History.{IsLegal, sent};
ghost use Rattle.serial_model.specs.Laws.{as_posts};
ghost use Rattle.serial_model.specs.Steps.{AreValid};
ghost use Rattle.past_effects.specs.Past.{effects_of};
ghost use Rattle.past_effects.specs.Sendings.{posts_for};

use super::scan::Scan;
use super::sendings::Sent;
use resp_value::NoMemory;
use serial_model::{Effect, Limits, Post};
use std::alloc::Global;

// Those of these that are for a connection, as posts of their entry.
fn push_posts(posts: &mut Vec<Post>, entry: u64, id: u64, sent: &[Sent]) -> Result<(), NoMemory>
    ensures { OnOk result (posts.new.items ≡ posts.old.items ++ posts_for entry id sent.now) }
{
    let mut left = sent;
    'sent: while let [one, others @ ..] = left {
        if one.to == id {
            posts.push(Post {
                entry,
                id,
                what: one.what,
            })?;
        }
        left = others;
    }
    Ok(())
}

/// The messages that were sent to a connection, and its end, in order, found by a scan of the
/// effects of all entries so far, the oldest first. It keeps nothing between calls, and looks at
/// all connections at each effect.
pub fn sent_slow(
    alloc: Global,
    effects: &[Effect],
    limits: &Limits,
    id: u64,
) -> Result<Vec<Post>, NoMemory>
    requires { AreValid limits.now }
    ensures { IfOk result (λ posts. (past : List Entry)
        → IsLegal limits.now past → effects.now ≡ effects_of limits.now past
        → posts.items ≡ as_posts id (sent limits.now id past)) }
{
    let mut scan = Scan::new(alloc, limits.table_max, limits.out_max);
    let mut posts = Vec::new(alloc);
    for effect in effects {
        let sent = scan.step(effect)?;
        push_posts(&mut posts, effect.entry, id, sent.as_slice())?;
    }
    Ok(posts)
}
