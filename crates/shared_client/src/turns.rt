//! The turns of callers, and those of a link.
ghost use Rattle.std.specs.Prelude.{◌≡◌, ◌<◌, IfOk, IfErr, OnOk, OnErr, length};
ghost use Rattle.turn_lock.specs.Own.{IsWithin};
ghost use Rattle.shared_cache.specs.declared.log.ClientCall.TheVariants as call;
ghost use Rattle.shared_cache.specs.declared.log.ClientReply.TheVariants as reply;
ghost use Rattle.shared_cache.specs.declared.log.LogEntry.TheVariants as entry;
ghost use Rattle.shared_client.specs.Turns.{Adds, Refuses, asked_reply, Polls, most, TakesOut};
ghost use Rattle.shared_client.specs.Turns.{IsLinked, Gets, GetsNot, Ends, WornOut};

use super::logged::SharedClient;
use command_words::Query;
use resp_value::{Octets, Value, Words};
use shared_cache::{ClientCall, ClientRefusal, ClientReply, Wire};
use std::sync::Wait;
use turn_lock::{Seat, TurnLock, Worn, play};

/// What a query came to.
#[derive(Drop)]
pub enum Asked {
    /// The value from the cache, and the number of the fetch that filled it.
    Hit { value: Value, number: u64 },
    /// The read goes out, and its reply comes by this number.
    Sent { number: u64 },
}

/// The most bytes that are taken out at once.
pub const MOST: u64 = 65_536;

/// Asks a query, which is answered from the cache where it is held.
#[tactic(auto, using(crate::proofs::Outcomes::outcomes))]
pub fn ask<R: Wait>(
    rt: &R,
    lock: &TurnLock<SharedClient>,
    seat: &mut Seat<SharedClient>,
    query: Query,
) -> Result<Asked, ClientRefusal>
    requires lock { seat.old.lock ≡ lock.now }
    requires within { IsWithin seat.old }
    ensures ok { IfOk result
        (λ a. Adds (call.Ask query) (asked_reply a) (entry.Ask query) seat.old seat.new) }
    ensures err { IfErr result (λ e. Refuses (call.Ask query) e seat.old seat.new) }
{
    match play(rt, lock, seat, ClientCall::Ask(query)) {
        Ok(ClientReply::Hit { value, number }) => Ok(Asked::Hit { value, number }),
        Ok(ClientReply::Sent { number }) => Ok(Asked::Sent { number }),
        Ok(ClientReply::Refused(refusal)) => Err(refusal),
        Ok(ClientReply::NotYet) => unreachable!(),
        Ok(ClientReply::Answer { .. }) => unreachable!(),
        Ok(ClientReply::Bytes(_)) => unreachable!(),
        Ok(ClientReply::Quiet) => unreachable!(),
        Ok(ClientReply::Noted) => unreachable!(),
        Err(_) => Err(ClientRefusal::Worn),
    }
}

/// Sends a command; its reply comes by the number that is answered.
#[tactic(auto, using(crate::proofs::Outcomes::outcomes))]
pub fn send<R: Wait>(
    rt: &R,
    lock: &TurnLock<SharedClient>,
    seat: &mut Seat<SharedClient>,
    words: Words,
) -> Result<u64, ClientRefusal>
    requires lock { seat.old.lock ≡ lock.now }
    requires within { IsWithin seat.old }
    requires words { 0 < length words }
    ensures ok { IfOk result
        (λ n. Adds (call.Send words) (reply.Sent n) (entry.Send words) seat.old seat.new) }
    ensures err { IfErr result (λ e. Refuses (call.Send words) e seat.old seat.new) }
{
    match play(rt, lock, seat, ClientCall::Send(words)) {
        Ok(ClientReply::Sent { number }) => Ok(number),
        Ok(ClientReply::Refused(refusal)) => Err(refusal),
        Ok(ClientReply::Hit { .. }) => unreachable!(),
        Ok(ClientReply::NotYet) => unreachable!(),
        Ok(ClientReply::Answer { .. }) => unreachable!(),
        Ok(ClientReply::Bytes(_)) => unreachable!(),
        Ok(ClientReply::Quiet) => unreachable!(),
        Ok(ClientReply::Noted) => unreachable!(),
        Err(_) => Err(ClientRefusal::Worn),
    }
}

/// The reply to the command of that number, handed out once; none where it has not come yet.
#[tactic(auto, using(crate::proofs::Outcomes::outcomes))]
pub fn poll<R: Wait>(
    rt: &R,
    lock: &TurnLock<SharedClient>,
    seat: &mut Seat<SharedClient>,
    number: u64,
) -> Result<Option<Value>, ClientRefusal>
    requires lock { seat.old.lock ≡ lock.now }
    requires within { IsWithin seat.old }
    ensures ok { IfOk result (λ v. Polls number v seat.old seat.new) }
    ensures err { IfErr result (λ e. Refuses (call.Poll number) e seat.old seat.new) }
{
    match play(rt, lock, seat, ClientCall::Poll(number)) {
        Ok(ClientReply::Answer { value }) => Ok(Some(value)),
        Ok(ClientReply::NotYet) => Ok(None),
        Ok(ClientReply::Refused(refusal)) => Err(refusal),
        Ok(ClientReply::Hit { .. }) => unreachable!(),
        Ok(ClientReply::Sent { .. }) => unreachable!(),
        Ok(ClientReply::Bytes(_)) => unreachable!(),
        Ok(ClientReply::Quiet) => unreachable!(),
        Ok(ClientReply::Noted) => unreachable!(),
        Err(_) => Err(ClientRefusal::Worn),
    }
}

/// The next bytes for that link, `MOST` or fewer; none where nothing is queued.
#[tactic(auto, using(crate::proofs::Outcomes::outcomes))]
pub fn take_out<R: Wait>(
    rt: &R,
    lock: &TurnLock<SharedClient>,
    seat: &mut Seat<SharedClient>,
    wire: Wire,
) -> Result<Option<Octets>, ClientRefusal>
    requires lock { seat.old.lock ≡ lock.now }
    requires within { IsWithin seat.old }
    requires link { IsLinked wire seat.old }
    ensures ok { IfOk result (λ bytes. TakesOut wire bytes seat.old seat.new) }
    ensures err { IfErr result (λ e. Refuses (call.TakeOut wire most) e seat.old seat.new) }
{
    match play(rt, lock, seat, ClientCall::TakeOut(wire, MOST)) {
        Ok(ClientReply::Bytes(bytes)) => Ok(Some(bytes)),
        Ok(ClientReply::Quiet) => Ok(None),
        Ok(ClientReply::Refused(refusal)) => Err(refusal),
        Ok(ClientReply::Hit { .. }) => unreachable!(),
        Ok(ClientReply::Sent { .. }) => unreachable!(),
        Ok(ClientReply::NotYet) => unreachable!(),
        Ok(ClientReply::Answer { .. }) => unreachable!(),
        Ok(ClientReply::Noted) => unreachable!(),
        Err(_) => Err(ClientRefusal::Worn),
    }
}

/// Processes a value that was read on that link.
#[tactic(auto, using(crate::proofs::Outcomes::outcomes))]
pub fn got<R: Wait>(
    rt: &R,
    lock: &TurnLock<SharedClient>,
    seat: &mut Seat<SharedClient>,
    wire: Wire,
    value: Value,
) -> Result<(), ClientRefusal>
    requires lock { seat.old.lock ≡ lock.now }
    requires within { IsWithin seat.old }
    requires link { IsLinked wire seat.old }
    ensures ok { OnOk result (Gets wire value seat.old seat.new) }
    ensures err { IfErr result (λ e. GetsNot wire value e seat.old seat.new) }
{
    match play(rt, lock, seat, ClientCall::Got(wire, value)) {
        Ok(ClientReply::Noted) => Ok(()),
        Ok(ClientReply::Refused(refusal)) => Err(refusal),
        Ok(ClientReply::Hit { .. }) => unreachable!(),
        Ok(ClientReply::Sent { .. }) => unreachable!(),
        Ok(ClientReply::NotYet) => unreachable!(),
        Ok(ClientReply::Answer { .. }) => unreachable!(),
        Ok(ClientReply::Bytes(_)) => unreachable!(),
        Ok(ClientReply::Quiet) => unreachable!(),
        Err(_) => Err(ClientRefusal::Worn),
    }
}

/// Ends that link, where it has not ended.
#[tactic(auto, using(crate::proofs::Outcomes::outcomes))]
pub fn end<R: Wait>(
    rt: &R,
    lock: &TurnLock<SharedClient>,
    seat: &mut Seat<SharedClient>,
    wire: Wire,
) -> Result<(), Worn>
    requires lock { seat.old.lock ≡ lock.now }
    requires within { IsWithin seat.old }
    requires link { IsLinked wire seat.old }
    ensures ok { OnOk result (Ends wire seat.old seat.new) }
    ensures err { OnErr result (WornOut seat.old seat.new) }
{
    match play(rt, lock, seat, ClientCall::End(wire)) {
        Ok(ClientReply::Noted) => Ok(()),
        Ok(ClientReply::Refused(_)) => unreachable!(),
        Ok(ClientReply::Hit { .. }) => unreachable!(),
        Ok(ClientReply::Sent { .. }) => unreachable!(),
        Ok(ClientReply::NotYet) => unreachable!(),
        Ok(ClientReply::Answer { .. }) => unreachable!(),
        Ok(ClientReply::Bytes(_)) => unreachable!(),
        Ok(ClientReply::Quiet) => unreachable!(),
        Err(worn) => Err(worn),
    }
}
