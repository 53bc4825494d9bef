//! What one line of a script comes to.
ghost use Rattle.std.specs.Prelude.{◌≡◌};
ghost use Rattle.turn_lock.specs.Own.{IsWithin};
ghost use Rattle.script_text.specs.Scripts.{IsValidCall};
ghost use Rattle.script_run.specs.Lines.{PlaysLine};

use client_link::{Waiters, ask_through, send_through};
use resp_value::Value;
use script_text::ScriptCall;
use shared_cache::ClientRefusal;
use shared_client::SharedClient;
use std::sync::Wait;
use turn_lock::{Seat, TurnLock};

/// What a line of a script came to.
#[derive(Drop)]
pub enum Answer {
    /// The cache had the value, which command number N brought.
    Hit(u64, Value),
    /// The value came from the server, as the reply to command number N.
    Read(u64, Value),
    /// The reply to a command that is no query.
    Reply(Value),
    Refused(ClientRefusal),
}

/// Plays what a line asks for, and waits for its answer.
#[tactic(auto, using(crate::proofs::Lines::line_outcomes))]
pub fn play_line<R: Wait>(
    rt: &R,
    lock: &TurnLock<SharedClient>,
    seat: &mut Seat<SharedClient>,
    waiters: &Waiters,
    call: &ScriptCall,
) -> Answer
    requires lock { seat.old.lock ≡ lock.now }
    requires within { IsWithin seat.old }
    requires call { IsValidCall call.now }
    ensures { PlaysLine call.now result seat.old seat.new }
{
    match call {
        ScriptCall::Ask(query) => match ask_through(rt, lock, seat, waiters, query) {
            Ok(fetched) => {
                if fetched.from_cache {
                    Answer::Hit(fetched.number, fetched.value)
                } else {
                    Answer::Read(fetched.number, fetched.value)
                }
            }
            Err(refusal) => Answer::Refused(refusal),
        },
        ScriptCall::Do(words) => match send_through(rt, lock, seat, waiters, words) {
            Ok(value) => Answer::Reply(value),
            Err(refusal) => Answer::Refused(refusal),
        },
    }
}
