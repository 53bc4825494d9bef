//! One connection over a link in memory: how it ends, how many of its requests ran, and what was
//! written to it, in how many writes.
ghost use Rattle.std.specs.declared.option.Option.TheVariants.{None};
ghost use Rattle.serial_model.specs.Steps.{AreValid};

use conn_worker::*;
use edge_links::{Clock, FixedClock, Link, LinkRead, LinkStep, MemoryLink, Wrote};
use resp_value::Words;
use server_book::Limits;
use shared_book::open;
use std::alloc::{AllocError, Global};
use std::sync::Wait;
use std::sync::atomic::{AtomicU64, Ordering};
use std::test::Fail;

/// A text in which `_` stands for a space, and `;` for the end of a line.
fn bytes_of(alloc: Global, text: &str) -> Result<Vec<u8>, AllocError> {
    let mut bytes = Vec::new(alloc);
    for byte in text.bytes() {
        match byte {
            b'_' => bytes.push(b' ')?,
            b';' => bytes.extend_from_slice(b"\r\n")?,
            _ => bytes.push(byte)?,
        }
    }
    Ok(bytes)
}

/// A PING of which each byte comes alone, with an idle read behind it.
fn push_apart(alloc: Global, steps: &mut Vec<LinkStep>) -> Result<(), AllocError> {
    for byte in b"*1\r\n$4\r\nPING\r\n" {
        let mut piece = Vec::new(alloc);
        piece.push(*byte)?;
        steps.push(LinkStep::Bytes(piece))?;
        steps.push(LinkStep::Idle)?;
    }
    Ok(())
}

/// The steps of a link, as commas part them: those named, and pieces of bytes.
fn steps_of(alloc: Global, text: &str) -> Result<Vec<LinkStep>, AllocError> {
    let mut steps = Vec::new(alloc);
    for word in text.split(',') {
        if word == "apart" {
            push_apart(alloc, &mut steps)?;
            continue;
        }
        steps.push(match word {
            "fail" => LinkStep::Fail,
            "idle" => LinkStep::Idle,
            _ => LinkStep::Bytes(bytes_of(alloc, word)?),
        })?;
    }
    Ok(steps)
}

/// A link that counts the writes to it.
#[derive(Drop)]
struct CountedLink {
    link: MemoryLink,
    writes: u64,
}

impl Link for CountedLink {
    ghost left = { λ l. ⟦<MemoryLink as Link>⟧.left l.link };

    ghost contents = { λ l. ⟦<MemoryLink as Link>⟧.contents l.link };

    ghost counts = { λ l. ⟦<MemoryLink as Link>⟧.counts l.link };

    fn read(&mut self, buf: &mut [u8]) -> LinkRead {
        self.link.read(buf)
    }

    fn write(&mut self, bytes: &[u8]) -> Wrote {
        self.writes = self.writes.saturating_add(1);
        self.link.write(bytes)
    }
}

/// How a connection over a server of these limits ends, how many of its requests ran, and in how
/// many writes they were answered.
fn said_within<R: Wait, C: Clock, G: Gate>(
    rt: &R,
    alloc: Global,
    limits: Limits,
    link: &mut CountedLink,
    clock: &C,
    gate: &G,
) -> Result<String, AllocError>
    requires { AreValid limits }
{
    let Ok((lock, mut seat)) = open(alloc, limits) else {
        return Err(AllocError);
    };
    let report = serve_link(rt, alloc, &lock, &mut seat, link, clock, gate);
    format!(in alloc; "{:?} {} in {}", report.ended, report.requests, link.writes)
}

/// The same, where much output may wait.
fn said<R: Wait, C: Clock, G: Gate>(
    rt: &R,
    alloc: Global,
    history_max: u64,
    link: &mut CountedLink,
    clock: &C,
    gate: &G,
) -> Result<String, AllocError> {
    let limits = Limits {
        table_max: 100,
        out_max: 1_000_000,
        history_max: history_max.max(1),
    };
    said_within(rt, alloc, limits, link, clock, gate)
}

/// The steps of a link, the most entries, how much of what is written fits; the end, the requests
/// and the writes; and what was written.
const ROWS: &str = " = 100 = 100 = PeerEnd 0 in 0 = 
fail = 100 = 100 = LinkFault 0 in 0 = 
GET_a; = 100 = 100 = PeerEnd 1 in 1 = $-1;
GET_a;,fail = 100 = 100 = LinkFault 1 in 1 = $-1;
GET_a;,GET_ = 100 = 100 = PeerEnd 1 in 1 = $-1;
G,idle,E,idle,T_a;,idle = 100 = 100 = PeerEnd 1 in 1 = $-1;
SET_a_v;GET_a;,GET_a; = 100 = 100 = PeerEnd 3 in 2 = +OK;$1;v;$1;v;
SET_a_v;GET_a;GET_b;SET_a_w;GET_a; = 100 = 100 = PeerEnd 5 in 1 = +OK;$1;v;$-1;+OK;$1;w;
GET_a;GET_a;GE,T_a;GET_a; = 100 = 100 = PeerEnd 4 in 2 = $-1;$-1;$-1;$-1;
*1;$007 = 100 = 100 = BadRequest(BadByte { offset: 6 }) 0 in 0 = 
GET_a;*1;$007 = 100 = 100 = BadRequest(BadByte { offset: 13 }) 1 in 1 = $-1;
SET_a_v;GET_a;*1;$007 = 100 = 100 = BadRequest(BadByte { offset: 22 }) 2 in 1 = +OK;$1;v;
GET_a;GET_a; = 100 = 3 = LinkFault 2 in 2 = $-1
GET_a; = 1 = 100 = PeerEnd 1 in 1 = $-1;
*1;$4;PING; = 1 = 100 = PeerEnd 1 in 1 = +PONG;
SET_a_v;GET_a;,GET_a; = 2 = 100 = PeerEnd 3 in 2 = +OK;$1;v;$1;v;
QUIT; = 100 = 100 = Quit 1 in 1 = +OK;
PING;QUIT;PING; = 100 = 100 = Quit 2 in 1 = +PONG;+OK;
PI,NG;QU,IT;PI,NG; = 100 = 100 = Quit 2 in 2 = +PONG;+OK;
*1;$4;qu,IT;SET_a_v; = 100 = 100 = Quit 1 in 1 = +OK;
GET_a;QUIT;QUIT;,idle,fail = 100 = 100 = Quit 2 in 1 = $-1;+OK;
QUIT;*1;$007 = 100 = 100 = Quit 1 in 1 = +OK;
QUIT; = 100 = 2 = LinkFault 1 in 2 = +O
QUIT_a;GET_a; = 100 = 100 = PeerEnd 2 in 1 = \
    -ERR wrong number of arguments for 'quit' command;$-1;
SHUTDOWN; = 100 = 100 = Dropped 1 in 0 = 
PING;,shutdown_nosave; = 100 = 100 = Dropped 2 in 1 = +PONG;
PING;SHUTDOWN;PING;QUIT; = 100 = 100 = Dropped 2 in 0 = 
SHUTDOWN_a;GET_a; = 100 = 100 = PeerEnd 2 in 1 = -ERR syntax error;$-1;";

fn link_of(alloc: Global, steps: &str, room: usize) -> Result<CountedLink, AllocError> {
    let Ok(link) = MemoryLink::new(alloc, room, steps_of(alloc, steps)?) else {
        return Err(AllocError);
    };
    Ok(CountedLink { link, writes: 0 })
}

fn comes_to<R: Wait>(rt: &R, alloc: Global, row: &str) -> Result<bool, Fail> {
    let mut parts = row.split(" = ");
    let steps = parts.next().unwrap_or("");
    let most = parts.next().unwrap_or("").parse().unwrap_or(0);
    let room = parts.next().unwrap_or("").parse().unwrap_or(0);
    let mut link = link_of(alloc, steps, room)?;
    let clock = FixedClock { ms: 7 };
    let came = said(rt, alloc, most, &mut link, &clock, &OpenGate)?;
    let is_end = came.as_str() == parts.next().unwrap_or("");
    let written = bytes_of(alloc, parts.next().unwrap_or(""))?;
    Ok(is_end && link.link.bytes() == written.as_slice())
}

#[test]
fn a_connection_ends_as_its_link_does(rt: HostRuntime) -> Result<(), Fail> {
    for row in ROWS.lines() {
        assert!(rt; comes_to(&rt, rt.alloc(), row)?, "{row}");
    }
    Ok(())
}

/// The steps of a link, how many bytes may wait for its connection; the end, the requests and the
/// writes; and what was written. What waits for one that is dropped is given up.
const DROPS: &str = "\
SET_a_v;GET_a; = 12 = PeerEnd 2 in 1 = +OK;$1;v;
SET_a_v;GET_a; = 11 = Dropped 2 in 0 = 
SET_a_v;,GET_a; = 7 = PeerEnd 2 in 2 = +OK;$1;v;
SET_a_v;,GET_a;GET_a;,GET_a; = 6 = Dropped 2 in 1 = +OK;
*1;$4;PING; = 1 = Dropped 1 in 0 = ";

fn drops_so<R: Wait>(rt: &R, alloc: Global, row: &str) -> Result<bool, Fail> {
    let mut parts = row.split(" = ");
    let mut link = link_of(alloc, parts.next().unwrap_or(""), 100)?;
    let out_max = parts.next().unwrap_or("").parse::<u64>().unwrap_or(1);
    let limits = Limits {
        table_max: 100,
        out_max: out_max.max(1),
        history_max: 100,
    };
    let clock = FixedClock { ms: 7 };
    let came = said_within(rt, alloc, limits, &mut link, &clock, &OpenGate)?;
    let is_end = came.as_str() == parts.next().unwrap_or("");
    let written = bytes_of(alloc, parts.next().unwrap_or(""))?;
    Ok(is_end && link.link.bytes() == written.as_slice())
}

#[test]
fn a_connection_for_which_too_much_waits_is_dropped(rt: HostRuntime) -> Result<(), Fail> {
    for row in DROPS.lines() {
        assert!(rt; drops_so(&rt, rt.alloc(), row)?, "{row}");
    }
    Ok(())
}

/// A value of so many bytes, as a word of a request or a reply has it.
fn long_word(alloc: Global, length: usize) -> Result<Vec<u8>, AllocError> {
    let head = format!(in alloc; "${length}\r\n")?;
    let mut bytes = Vec::new(alloc);
    bytes.extend_from_slice(head.as_bytes())?;
    for _ in 0..length {
        bytes.push(b'v')?;
    }
    bytes.extend_from_slice(b"\r\n")?;
    Ok(bytes)
}

/// A link that sets a key to a long value, and then gets it ten times in one piece.
fn ten_gets(alloc: Global, word: &[u8]) -> Result<CountedLink, AllocError> {
    let mut set = bytes_of(alloc, "*3;$3;SET;$1;a;")?;
    set.extend_from_slice(word)?;
    let gets = "GET_a;GET_a;GET_a;GET_a;GET_a;GET_a;GET_a;GET_a;GET_a;GET_a;";
    let mut steps = Vec::new(alloc);
    steps.push(LinkStep::Bytes(set))?;
    steps.push(LinkStep::Bytes(bytes_of(alloc, gets)?))?;
    let Ok(link) = MemoryLink::new(alloc, 1_000_000, steps) else {
        return Err(AllocError);
    };
    Ok(CountedLink { link, writes: 0 })
}

/// Of ten replies that come to much more than may wait, each is written before the next is made, by
/// two Takes.
#[test]
fn replies_that_come_at_once_do_not_add_up_against_the_limit(rt: HostRuntime) -> Result<(), Fail> {
    let word = long_word(rt.alloc(), 70_000)?;
    let mut link = ten_gets(rt.alloc(), word.as_slice())?;
    let limits = Limits {
        table_max: 100,
        out_max: 150_000,
        history_max: 100,
    };
    let clock = FixedClock { ms: 7 };
    let came = said_within(&rt, rt.alloc(), limits, &mut link, &clock, &OpenGate)?;
    assert_eq!(rt; came.as_str(), "PeerEnd 11 in 21");
    let mut written = bytes_of(rt.alloc(), "+OK;")?;
    for _ in 0..10 {
        written.extend_from_slice(word.as_slice())?;
    }
    assert!(rt; link.link.bytes() == written.as_slice());
    Ok(())
}

/// The steps of a link that hears PING, and QUIT behind it, as a client sends them; how many bytes
/// a write to it takes at most, and the number of the write that fails, 0 for none; the end, the
/// requests and the writes; and what was written.
const LINKS: &str = " = 99 0 = PeerEnd 0 in 0 = 
fail = 99 0 = LinkFault 0 in 0 = 
*1;$4;PING;,fail = 99 0 = LinkFault 1 in 1 = +PONG;
*1;$4;PING;,*1;$ = 99 0 = PeerEnd 1 in 1 = +PONG;
apart = 99 0 = PeerEnd 1 in 1 = +PONG;
*1;$4;PING; = 99 1 = LinkFault 1 in 1 = 
*1;$4;PING; = 99 2 = PeerEnd 1 in 1 = +PONG;
*1;$4;PING; = 1 0 = PeerEnd 1 in 7 = +PONG;
*1;$4;PING; = 1 3 = LinkFault 1 in 3 = +P
*1;$007 = 99 0 = BadRequest(BadByte { offset: 6 }) 0 in 0 = 
*1;$4;PING;*1;$4;QUIT;*1;$4;PING; = 99 0 = Quit 2 in 1 = +PONG;+OK;
*1;$8;SHUTDOWN; = 99 0 = Dropped 1 in 0 = 
*1;$4;PING;*1;$4;QUIT; = 5 3 = LinkFault 2 in 3 = +PONG;+OK";

fn cut_link(alloc: Global, steps: &str, writes: &str) -> Result<CountedLink, AllocError> {
    let mut link = link_of(alloc, steps, 100)?;
    let (most, failing) = writes.split_once(' ').unwrap_or(("", ""));
    link.link
        .take_most(most.parse::<usize>().unwrap_or(1).max(1));
    link.link.fail_write(failing.parse::<u64>().unwrap_or(0));
    Ok(link)
}

fn ends_so<R: Wait>(rt: &R, alloc: Global, row: &str) -> Result<bool, Fail> {
    let mut parts = row.split(" = ");
    let steps = parts.next().unwrap_or("");
    let mut link = cut_link(alloc, steps, parts.next().unwrap_or(""))?;
    let clock = FixedClock { ms: 7 };
    let came = said(rt, alloc, 100, &mut link, &clock, &OpenGate)?;
    let is_end = came.as_str() == parts.next().unwrap_or("");
    let written = bytes_of(alloc, parts.next().unwrap_or(""))?;
    Ok(is_end && link.link.bytes() == written.as_slice())
}

#[test]
fn a_link_that_ends_fails_or_is_cut_ends_its_connection(rt: HostRuntime) -> Result<(), Fail> {
    for row in LINKS.lines() {
        assert!(rt; ends_so(&rt, rt.alloc(), row)?, "{row}");
    }
    Ok(())
}

/// Is three milliseconds later at each look.
#[derive(Drop)]
struct LaterClock {
    ms: AtomicU64,
}

impl Clock for LaterClock {
    ghost moment = { λ _. None };

    fn now_ms(&self) -> u64 {
        self.ms.fetch_add(3, Ordering::SeqCst)
    }
}

/// A key with a deadline leaves at the first idle read behind it, and its holder is told. The
/// steps of a link, the most entries; the end, the requests and the writes; and how what was
/// written ends.
const TICKS: &str = "\
SET_a_v_PX_4;,idle,GET_a; = 100 = PeerEnd 2 in 2 = +OK;$-1;
SET_a_v_PX_4;,idle,idle,idle,GET_a; = 100 = PeerEnd 2 in 2 = +OK;$-1;
HELLO_3;CLIENT_TRACKING_ON;SET_a_v_PX_4;GET_a; = 100 = PeerEnd 4 in 1 = +OK;+OK;$1;v;
HELLO_3;CLIENT_TRACKING_ON;SET_a_v_PX_4;GET_a;,idle = 100 = PeerEnd 4 in 1 = +OK;+OK;$1;v;
HELLO_3;CLIENT_TRACKING_ON;SET_a_v_PX_4;GET_a;,idle,idle = 100 = PeerEnd 4 in 2 = \
    $1;v;>2;$10;invalidate;*1;$1;a;
HELLO_3;CLIENT_TRACKING_ON;SET_a_v_PX_4;GET_a;,idle,idle,idle,EXISTS_a; = 100 = PeerEnd 5 in 3 = \
    $1;v;>2;$10;invalidate;*1;$1;a;:0;
HELLO_3;CLIENT_TRACKING_ON;SET_a_v_PX_4;GET_a;,idle,idle = 1 = PeerEnd 4 in 2 = \
    $1;v;>2;$10;invalidate;*1;$1;a;";

fn ticks_so<R: Wait>(rt: &R, alloc: Global, row: &str) -> Result<bool, Fail> {
    let mut parts = row.split(" = ");
    let mut link = link_of(alloc, parts.next().unwrap_or(""), 1000)?;
    let most = parts.next().unwrap_or("").parse().unwrap_or(0);
    let clock = LaterClock {
        ms: AtomicU64::new(0),
    };
    let came = said(rt, alloc, most, &mut link, &clock, &OpenGate)?;
    let is_end = came.as_str() == parts.next().unwrap_or("");
    let written = bytes_of(alloc, parts.next().unwrap_or(""))?;
    Ok(is_end && link.link.bytes().ends_with(written.as_slice()))
}

#[test]
fn a_key_that_is_due_leaves_at_an_idle_read(rt: HostRuntime) -> Result<(), Fail> {
    for row in TICKS.lines() {
        assert!(rt; ticks_so(&rt, rt.alloc(), row)?, "{row}");
    }
    Ok(())
}

/// Counts what it is told.
#[derive(Drop)]
struct CountingGate {
    begun: AtomicU64,
    answered: AtomicU64,
    // By its number, beside the id.
    ended: AtomicU64,
}

impl Gate for CountingGate {
    fn before(&self, _id: u64, words: &Words) {
        self.begun
            .fetch_add(words.as_slice().len() as u64, Ordering::SeqCst);
    }

    fn after(&self, _id: u64, requests: u64) {
        self.answered.store(requests, Ordering::SeqCst);
    }

    fn ended(&self, id: u64, ended: Ended) {
        let told = id
            .saturating_mul(100)
            .saturating_add(u64::from(ended.number()));
        self.ended.store(told, Ordering::SeqCst);
    }
}

fn counting_gate() -> CountingGate {
    CountingGate {
        begun: AtomicU64::new(0),
        answered: AtomicU64::new(0),
        ended: AtomicU64::new(0),
    }
}

#[test]
fn a_gate_is_told_of_each_end(rt: HostRuntime) -> Result<(), Fail> {
    let clock = FixedClock { ms: 7 };
    for (steps, room, told) in [
        ("GET_a;", 100, 101),
        ("*1;$007", 100, 104),
        ("GET_a;", 3, 105),
        ("QUIT;GET_a;", 100, 102),
        ("SHUTDOWN;", 100, 103),
    ] {
        let gate = counting_gate();
        let mut link = link_of(rt.alloc(), steps, room)?;
        said(&rt, rt.alloc(), 100, &mut link, &clock, &gate)?;
        assert_eq!(rt; gate.ended.load(Ordering::SeqCst), told);
    }
    Ok(())
}

#[test]
fn a_gate_is_told_of_each_request_and_of_those_that_were_answered(
    rt: HostRuntime,
) -> Result<(), Fail> {
    let gate = counting_gate();
    let mut link = link_of(rt.alloc(), "SET_a_v;GET_a;,GET_a;", 100)?;
    said(
        &rt,
        rt.alloc(),
        100,
        &mut link,
        &FixedClock { ms: 7 },
        &gate,
    )?;
    assert_eq!(rt; gate.begun.load(Ordering::SeqCst), 7);
    assert_eq!(rt; gate.answered.load(Ordering::SeqCst), 3);
    Ok(())
}
