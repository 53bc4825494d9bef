//! A client's pump over a link in memory, and what a caller is told behind it.
ghost use Rattle.std.specs.Prelude.{◌≡◌};
ghost use Rattle.turn_lock.specs.Own.{IsWithin};

use super::{bytes_of, setup_of};
use client_link::*;
use command_words::Query;
use edge_links::{LinkStep, MemoryLink};
use resp_value::{Octets, Words};
use shared_cache::{ClientRefusal, Wire};
use shared_client::{SharedClient, open};
use std::alloc::{AllocError, Global};
use std::sync::Wait;
use std::test::Fail;
use turn_lock::{Seat, TurnLock};

/// The steps of a link, as commas part them: those named, waits for so many bytes, and pieces.
fn steps_of(alloc: Global, text: &str) -> Result<Vec<LinkStep>, AllocError> {
    let mut steps = Vec::new(alloc);
    for word in text.split(',') {
        steps.push(match word {
            "fail" => LinkStep::Fail,
            "idle" => LinkStep::Idle,
            "ready" => LinkStep::Wait(60),
            _ => LinkStep::Bytes(bytes_of(alloc, word)?),
        })?;
    }
    Ok(steps)
}

fn query_of(alloc: Global, text: &str) -> Result<Query, AllocError> {
    let mut words = Words::new(alloc);
    for word in text.split(' ') {
        let Ok(word) = Octets::from_slice(alloc, word.as_bytes()) else {
            return Err(AllocError);
        };
        if words.push(word).is_err() {
            return Err(AllocError);
        }
    }
    match Query::read(alloc, &words) {
        Ok(Some(query)) => Ok(query),
        Ok(None) => Err(AllocError),
        Err(_) => Err(AllocError),
    }
}

/// Why a pump ends.
fn pump_of<R: Wait>(
    rt: &R,
    alloc: Global,
    lock: &TurnLock<SharedClient>,
    seat: &mut Seat<SharedClient>,
    waiters: &Waiters,
    link: &mut MemoryLink,
) -> PumpEnd
    requires lock { seat.old.lock ≡ lock.now }
    requires within { IsWithin seat.old }
    ensures lock { seat.new.lock ≡ lock.now }
    ensures within { IsWithin seat.new }
{
    pump(rt, alloc, lock, seat, waiters, Wire::Main, link)
}

/// What a caller is refused by.
fn refusal_of<R: Wait>(
    rt: &R,
    lock: &TurnLock<SharedClient>,
    seat: &mut Seat<SharedClient>,
    waiters: &Waiters,
    query: &Query,
) -> Option<ClientRefusal>
    requires lock { seat.old.lock ≡ lock.now }
    requires within { IsWithin seat.old }
{
    match ask_through(rt, lock, seat, waiters, query) {
        Ok(_) => None,
        Err(refusal) => Some(refusal),
    }
}

/// How a pump of a new client ends, and what a caller is answered then.
fn said<R: Wait>(
    rt: &R,
    alloc: Global,
    log_max: u64,
    link: &mut MemoryLink,
) -> Result<String, AllocError> {
    let query = query_of(alloc, "GET a")?;
    let Ok((lock, mut seat)) = open(alloc, setup_of(log_max)) else {
        return Err(AllocError);
    };
    let waiters = Waiters::new(None, None);
    let ended = pump_of(rt, alloc, &lock, &mut seat, &waiters, link);
    let refusal = refusal_of(rt, &lock, &mut seat, &waiters, &query);
    format!(in alloc; "{ended:?} {refusal:?}")
}

/// The steps of a link, the most entries, the end and what a caller is told behind it; all that
/// was written is the handshake.
const ROWS: &str = " = 100 = PeerEnd Some(Down { wire: Main })
fail = 100 = LinkFault Some(Down { wire: Main })
ready,%0;+OK; = 100 = PeerEnd Some(Down { wire: Main })
ready,%0;,idle,+O,idle,K;$1; = 100 = PeerEnd Some(Down { wire: Main })
ready,*x = 100 = BadStream(BadByte { offset: 1 }) Some(Down { wire: Main })
ready,%0;,+OK;*,x = 100 = BadStream(BadByte { offset: 10 }) Some(Down { wire: Main })
ready,:1; = 100 = Refused(SetupRefused { wire: Main }) Some(Down { wire: Main })
ready,%0;+OK;:1; = 100 = Refused(Unexpected { wire: Main }) Some(Down { wire: Main })
ready,%0;+OK;>1;$10;invalidate; = 100 = Refused(BadPush { wire: Main }) Some(Down { wire: Main })
ready,%0;+OK; = 1 = LogFull Some(Down { wire: Main })";

#[test]
fn a_pump_ends_as_its_link_does(rt: HostRuntime) -> Result<(), Fail> {
    let greeting = bytes_of(
        rt.alloc(),
        "*2;$5;HELLO;$1;3;*3;$6;CLIENT;$8;TRACKING;$2;ON;",
    )?;
    for row in ROWS.lines() {
        let mut parts = row.split(" = ");
        let steps = steps_of(rt.alloc(), parts.next().unwrap_or(""))?;
        let most = parts.next().unwrap_or("").parse::<u64>().unwrap_or(0);
        let want = parts.next().unwrap_or("");
        let mut link = MemoryLink::new(rt.alloc(), 100, steps)?;
        let came = said(&rt, rt.alloc(), most, &mut link)?;
        assert!(rt; came.as_str() == want, "{row}: {came}");
        assert!(rt; link.bytes() == greeting.as_slice(), "{row}");
    }
    Ok(())
}
