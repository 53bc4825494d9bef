//! The client's callers: each waits for the reply to its own command.
ghost use Rattle.std.specs.Prelude.{◌≡◌, ◌<◌, IfOk, IfErr, length};
ghost use Rattle.turn_lock.specs.Own.{IsWithin};
ghost use Rattle.shared_cache.specs.declared.log.ClientCall.TheVariants as call;
ghost use Rattle.shared_cache.specs.declared.log.ClientReply.TheVariants as reply;
ghost use Rattle.shared_cache.specs.declared.log.LogEntry.TheVariants as entry;
ghost use Rattle.shared_client.specs.Turns.{Adds, Refuses, asked_reply};
ghost use Rattle.client_link.specs.Callers.{is_not_ready, Fails, Fetches, FetchFails};
ghost use Rattle.client_link.specs.Callers.{Sends, SendFails};

use super::waiters::Waiters;
use command_words::Query;
use resp_value::{Value, Words};
use shared_cache::{ClientRefusal, Wire};
use shared_client::{Asked, SharedClient, ask, poll, send};
use std::sync::Wait;
use turn_lock::{Seat, TurnLock};

/// The answer to a query.
#[derive(Drop)]
pub struct Fetched {
    pub value: Value,
    /// Whether the cache had it.
    pub from_cache: bool,
    /// The number of the read that brought it.
    pub number: u64,
}

fn is_not_ready(refusal: ClientRefusal) -> bool
    ensures { result ≡ is_not_ready refusal }
{
    match refusal {
        ClientRefusal::NotReady => true,
        _ => false,
    }
}

// Asks the query, once the client is ready.
fn ask_ready<R: Wait>(
    rt: &R,
    lock: &TurnLock<SharedClient>,
    seat: &mut Seat<SharedClient>,
    waiters: &Waiters,
    query: &Query,
) -> Result<Asked, ClientRefusal>
    requires lock { seat.old.lock ≡ lock.now }
    requires within { IsWithin seat.old }
    ensures ok { IfOk result
        (λ a. Adds (call.Ask query.now) (asked_reply a) (entry.Ask query.now) seat.old seat.new) }
    ensures err { IfErr result (λ e. Fails (call.Ask query.now) e seat.old seat.new) }
{
    for _ in rt.forever() {
        let rings = waiters.rings();
        let Ok(copy) = query.copy() else {
            return Err(ClientRefusal::NoMemory);
        };
        match ask(rt, lock, seat, copy) {
            Ok(asked) => return Ok(asked),
            Err(refusal) => {
                if !is_not_ready(refusal) {
                    return Err(refusal);
                }
                waiters.sleep(rt, rings);
            }
        }
    }
    unreachable!()
}

// Sends the command, once the client is ready.
fn send_ready<R: Wait>(
    rt: &R,
    lock: &TurnLock<SharedClient>,
    seat: &mut Seat<SharedClient>,
    waiters: &Waiters,
    words: &Words,
) -> Result<u64, ClientRefusal>
    requires lock { seat.old.lock ≡ lock.now }
    requires within { IsWithin seat.old }
    requires words { 0 < length words.now }
    ensures ok { IfOk result
        (λ n. Adds (call.Send words.now) (reply.Sent n) (entry.Send words.now) seat.old seat.new) }
    ensures err { IfErr result (λ e. Fails (call.Send words.now) e seat.old seat.new) }
{
    for _ in rt.forever() {
        let rings = waiters.rings();
        let Ok(copy) = words.copy() else {
            return Err(ClientRefusal::NoMemory);
        };
        match send(rt, lock, seat, copy) {
            Ok(number) => return Ok(number),
            Err(refusal) => {
                if !is_not_ready(refusal) {
                    return Err(refusal);
                }
                waiters.sleep(rt, rings);
            }
        }
    }
    unreachable!()
}

// The reply to the command of that number, once it has come.
fn await_reply<R: Wait>(
    rt: &R,
    lock: &TurnLock<SharedClient>,
    seat: &mut Seat<SharedClient>,
    waiters: &Waiters,
    number: u64,
) -> Result<Value, ClientRefusal>
    requires lock { seat.old.lock ≡ lock.now }
    requires within { IsWithin seat.old }
    ensures ok { IfOk result
        (λ v. Adds (call.Poll number) (reply.Answer v) (entry.Poll number) seat.old seat.new) }
    ensures err { IfErr result (λ e. Refuses (call.Poll number) e seat.old seat.new) }
{
    for _ in rt.forever() {
        let rings = waiters.rings();
        match poll(rt, lock, seat, number) {
            Ok(Some(value)) => return Ok(value),
            Ok(None) => waiters.sleep(rt, rings),
            Err(refusal) => return Err(refusal),
        }
    }
    unreachable!()
}

/// Asks a query: it is answered from the cache where it is held, else by the server. It waits until
/// the client is ready, and for the reply.
pub fn ask_through<R: Wait>(
    rt: &R,
    lock: &TurnLock<SharedClient>,
    seat: &mut Seat<SharedClient>,
    waiters: &Waiters,
    query: &Query,
) -> Result<Fetched, ClientRefusal>
    requires lock { seat.old.lock ≡ lock.now }
    requires within { IsWithin seat.old }
    ensures ok { IfOk result (λ f. Fetches query.now f seat.old seat.new) }
    ensures err { IfErr result (λ e. FetchFails query.now e seat.old seat.new) }
{
    match ask_ready(rt, lock, seat, waiters, query) {
        Ok(Asked::Hit { value, number }) => Ok(Fetched {
            value,
            from_cache: true,
            number,
        }),
        Ok(Asked::Sent { number }) => {
            waiters.wake(Wire::Main);
            match await_reply(rt, lock, seat, waiters, number) {
                Ok(value) => Ok(Fetched {
                    value,
                    from_cache: false,
                    number,
                }),
                Err(refusal) => Err(refusal),
            }
        }
        Err(refusal) => Err(refusal),
    }
}

/// Sends a command, and answers its reply. It waits until the client is ready, and for the reply.
pub fn send_through<R: Wait>(
    rt: &R,
    lock: &TurnLock<SharedClient>,
    seat: &mut Seat<SharedClient>,
    waiters: &Waiters,
    words: &Words,
) -> Result<Value, ClientRefusal>
    requires lock { seat.old.lock ≡ lock.now }
    requires within { IsWithin seat.old }
    requires words { 0 < length words.now }
    ensures ok { IfOk result (λ v. Sends words.now v seat.old seat.new) }
    ensures err { IfErr result (λ e. SendFails words.now e seat.old seat.new) }
{
    match send_ready(rt, lock, seat, waiters, words) {
        Ok(number) => {
            waiters.wake(Wire::Main);
            match await_reply(rt, lock, seat, waiters, number) {
                Ok(value) => Ok(value),
                Err(refusal) => Err(refusal),
            }
        }
        Err(refusal) => Err(refusal),
    }
}
