//! A client as a program of another language holds it, over tables of calls.
use client_library::{ClientOptions, ForeignClient, option_status, status, tracking};
use resp_value::NoMemory;
use std::alloc::{AllocError, Global};
use std::process::Abort;
use std::test::Fail;

// What the server sends, by pieces of that size.
fn feed(client: &mut ForeignClient, bytes: &[u8], piece: usize) -> u64 {
    let mut told = client.feed(b"");
    for part in bytes.chunks(piece.max(1)) {
        told = client.feed(part);
    }
    told
}

/// The bytes of a part of a line, where `~` is the end of a line and `-` alone is no byte.
pub fn bytes_of(alloc: Global, text: &str) -> Result<Vec<u8>, AllocError> {
    let mut bytes = Vec::new(alloc);
    if text == "-" {
        return Ok(bytes);
    }
    for byte in text.as_bytes() {
        if *byte == b'~' {
            bytes.extend_from_slice(b"\r\n")?;
        } else {
            bytes.push(*byte)?;
        }
    }
    Ok(bytes)
}

fn call(client: &mut ForeignClient, name: &str, bytes: &[u8], number: u64, piece: usize) -> u64 {
    match name {
        "ask" => client.ask(bytes),
        "send" => client.send(bytes),
        "feed" => feed(client, bytes, piece),
        "poll" => client.poll(number),
        "take" => client.take_out(number),
        "time" => client.tell_time(number),
        "end" => client.end(),
        _ => client.close(),
    }
}

fn status_of(name: &str) -> u64 {
    match name {
        "done" => status::DONE,
        "hit" => status::HIT,
        "sent" => status::SENT,
        "reply" => status::REPLY,
        "bytes" => status::BYTES,
        "not-yet" => status::NOT_YET,
        "not-ready" => status::NOT_READY,
        "no-number" => status::NO_NUMBER,
        "control" => status::CONTROL,
        _ => status::ENDED,
    }
}

/// Whether the last call told this answer, which fits in room of just its size.
fn answers(alloc: Global, client: &mut ForeignClient, answer: &[u8]) -> Result<bool, AllocError> {
    let mut room = Vec::from_elem(alloc, 0u8, answer.len())?;
    let size = client.copy_answer(&mut room);
    Ok(size == answer.len() as u64 && room.as_slice() == answer)
}

/// Whether the last call told this number and this answer.
fn told(alloc: Global, client: &mut ForeignClient, want: &str) -> Result<bool, AllocError> {
    let Some((number, answer)) = want.split_once(' ') else {
        return Ok(false);
    };
    let answer = bytes_of(alloc, answer)?;
    Ok(client.number() == number.parse().unwrap_or(0) && answers(alloc, client, answer.as_slice())?)
}

/// Plays a line: a call, and the status, the number and the answer that it tells.
fn is_told(
    alloc: Global,
    client: &mut ForeignClient,
    line: &str,
    piece: usize,
) -> Result<bool, AllocError> {
    let Some((asked, want)) = line.split_once(" | ") else {
        return Ok(false);
    };
    let Some((name, rest)) = asked.split_once(' ') else {
        return Ok(false);
    };
    let Some((wanted, want)) = want.split_once(' ') else {
        return Ok(false);
    };
    let bytes = bytes_of(alloc, rest)?;
    let number = rest.parse().unwrap_or(0);
    let status = call(client, name, bytes.as_slice(), number, piece);
    Ok(status == status_of(wanted) && told(alloc, client, want)?)
}

fn play<R: Abort>(
    rt: &R,
    alloc: Global,
    client: &mut ForeignClient,
    piece: usize,
    table: &str,
) -> Result<(), Fail> {
    for line in table.lines() {
        assert!(rt; is_told(alloc, client, line, piece)?, "{line}");
    }
    Ok(())
}

fn options_of(capacity: u64, max_age: u64) -> ClientOptions {
    ClientOptions {
        capacity,
        max_age,
        tracking: tracking::DEFAULT,
        noloop: 0,
        reserved: [0, 0, 0, 0],
    }
}

fn plays_by<R: Abort>(
    rt: &R,
    alloc: Global,
    options: &ClientOptions,
    prefixes: &[u8],
    table: &str,
) -> Result<(), Fail> {
    match ForeignClient::new(alloc, options, prefixes)? {
        Ok(mut client) => play(rt, alloc, &mut client, 100, table),
        Err(_) => Err("no client".into()),
    }
}

fn plays_within<R: Abort>(
    rt: &R,
    alloc: Global,
    max_age: u64,
    piece: usize,
    table: &str,
) -> Result<(), Fail> {
    match ForeignClient::new(alloc, &options_of(100, max_age), b"")? {
        Ok(mut client) => play(rt, alloc, &mut client, piece, table),
        Err(_) => Err("no client".into()),
    }
}

fn plays<R: Abort>(rt: &R, alloc: Global, piece: usize, table: &str) -> Result<(), Fail> {
    plays_within(rt, alloc, 0, piece, table)
}

const FETCH: &str = "\
ask GET foo~ | not-ready 0 -
take 4 | bytes 0 *2~
feed %1~$5~proto~:3~+OK~ | done 0 -
ask GET foo~ | sent 3 -
poll 3 | not-yet 0 -
feed $3~bar~ | done 0 -
poll 3 | reply 0 $3~bar~
poll 3 | no-number 0 -
ask get foo~ | hit 3 $3~bar~
send SET foo 1~ | sent 4 -
ask GET foo~ | sent 5 -";

#[test]
fn a_fetch_is_answered_and_then_held(rt: HostRuntime) -> Result<(), Fail> {
    for piece in [1, 7, 100] {
        plays(&rt, rt.alloc(), piece, FETCH)?;
    }
    Ok(())
}

// Each way in which a link ends: a push that is malformed, bytes that break the protocol, the end
// in mid-value, and a close.
const ENDS: &str = "\
feed %0~+OK~ | done 0 -
ask GET a~ | sent 3 -
feed >2~$10~invalidate~:1~ | done 0 -
feed 1~ | done 0 -
ask GET a~ | ended 0 -
poll 3 | ended 0 -

feed %0~+OK~ | done 0 -
ask GET a~ | sent 3 -
feed ?~ | done 0 -
feed 1~ | done 0 -
ask GET a~ | ended 0 -
poll 3 | ended 0 -

feed %0~+OK~ | done 0 -
ask GET a~ | sent 3 -
feed $1~ | done 0 -
end - | done 0 -
feed 1~ | done 0 -
ask GET a~ | ended 0 -
poll 3 | ended 0 -

feed %0~+OK~ | done 0 -
ask GET a~ | sent 3 -
feed $1~ | done 0 -
close - | done 0 -
feed 1~ | ended 0 -
ask GET a~ | ended 0 -
poll 3 | ended 0 -";

#[test]
fn each_end_is_told(rt: HostRuntime) -> Result<(), Fail> {
    for table in ENDS.split("\n\n") {
        plays(&rt, rt.alloc(), 1, table)?;
    }
    Ok(())
}

// Each null that the protocols have.
const FLUSHES: &str = "\
feed %0~+OK~ | done 0 -
ask GET a~ | sent 3 -
feed $1~1~ | done 0 -
ask GET a~ | hit 3 $1~1~
feed >2~$10~invalidate~_~ | done 0 -
ask GET a~ | sent 4 -
feed $1~2~ | done 0 -
ask GET a~ | hit 4 $1~2~
feed >2~$10~invalidate~$-1~ | done 0 -
ask GET a~ | sent 5 -
feed $1~3~ | done 0 -
ask GET a~ | hit 5 $1~3~
feed >2~$10~invalidate~*-1~ | done 0 -
ask GET a~ | sent 6 -";

#[test]
fn a_flush_by_any_null_empties(rt: HostRuntime) -> Result<(), Fail> {
    for piece in [1, 7, 100] {
        plays(&rt, rt.alloc(), piece, FLUSHES)?;
    }
    Ok(())
}

// What making a client tells.
fn made_by(alloc: Global, options: &ClientOptions, prefixes: &[u8]) -> Result<u64, NoMemory> {
    match ForeignClient::new(alloc, options, prefixes)? {
        Ok(_) => Ok(status::DONE),
        Err(fault) => Ok(option_status(fault)),
    }
}

#[test]
fn a_limit_that_is_none_is_refused(rt: HostRuntime) -> Result<(), Fail> {
    for capacity in [0, 1000001] {
        let told = made_by(rt.alloc(), &options_of(capacity, 0), b"")?;
        assert_eq!(rt; told, status::BAD_LIMIT);
    }
    let told = made_by(rt.alloc(), &options_of(1, 0), b"")?;
    assert_eq!(rt; told, status::DONE);
    Ok(())
}

// The numbers of the tracking, of NOLOOP and of what is for later, prefixes, and what is told.
const OPTIONS: &str = "\
0 0 0 - 0
3 1 0 - 0
3 0 0 a~ 0
3 0 0 *1~$1~a~ 0
4 0 0 - 16
4 2 1 a~ 16
0 2 1 a~ 17
0 0 1 a~ 19
0 0 0 a~ 18
1 0 0 a~ 18
2 0 0 a~ 18
3 0 0 a 18
3 0 0 ~ 18
3 0 0 *1~$2~a~ 18";

fn word_at(line: &str, place: usize) -> &str {
    line.split(" ").nth(place).unwrap_or("")
}

fn number_at(line: &str, place: usize) -> u64 {
    word_at(line, place).parse().unwrap_or(0)
}

#[test]
fn an_option_that_is_none_is_told(rt: HostRuntime) -> Result<(), Fail> {
    for line in OPTIONS.lines() {
        let mut options = options_of(1, 0);
        options.tracking = number_at(line, 0);
        options.noloop = number_at(line, 1);
        options.reserved = [0, 0, number_at(line, 2), 0];
        let prefixes = bytes_of(rt.alloc(), word_at(line, 3))?;
        let told = made_by(rt.alloc(), &options, prefixes.as_slice())?;
        assert_eq!(rt; told, number_at(line, 4), "{line}");
    }
    Ok(())
}

// Each mode with its set-up, a fetch, and a hit; by BCAST what has no prefix is never a hit.
const OPTIN: &str = "\
take 22 | bytes 0 *2~$5~HELLO~$1~3~
take 1000 | bytes 0 *4~$6~CLIENT~$8~TRACKING~$2~ON~$5~OPTIN~
feed %0~+OK~ | done 0 -
ask GET a~ | sent 4 -
take 1000 | bytes 0 *3~$6~CLIENT~$7~CACHING~$3~YES~*2~$3~GET~$1~a~
feed +OK~$1~1~ | done 0 -
ask GET a~ | hit 4 $1~1~";

const BCAST: &str = "\
take 22 | bytes 0 *2~$5~HELLO~$1~3~
take 1000 | bytes 0 *7~$6~CLIENT~$8~TRACKING~$2~ON~$5~BCAST~$6~PREFIX~$2~u:~$6~NOLOOP~
feed %0~+OK~ | done 0 -
ask GET u:1~ | sent 3 -
ask GET o:1~ | sent 4 -
feed $1~1~$1~2~ | done 0 -
ask GET u:1~ | hit 3 $1~1~
ask GET o:1~ | sent 5 -";

#[test]
fn a_client_has_the_mode_that_was_chosen(rt: HostRuntime) -> Result<(), Fail> {
    let alloc = rt.alloc();
    let mut options = options_of(100, 0);
    options.tracking = tracking::OPTIN;
    plays_by(&rt, alloc, &options, b"", OPTIN)?;
    options.tracking = tracking::BCAST;
    options.noloop = 1;
    plays_by(&rt, alloc, &options, b"u:\r\n", BCAST)
}

/// Whether the line is told so by a client that is set up.
fn sends<R: Abort>(rt: &R, alloc: Global, line: &str, want: &str) -> Result<(), Fail> {
    let mut table = String::new(alloc);
    table.push_str("feed %0~+OK~ | done 0 -\nsend ")?;
    table.push_str(line)?;
    table.push_str("~ | ")?;
    table.push_str(want)?;
    plays(rt, alloc, 100, &table)
}

const REFUSED: &str = "\
AUTH x
auth x y z
HELLO
HELLO 2 SETNAME x
Reset
RESET now
QUIT
SELECT 1
select
SWAPDB 0 1
MULTI
multi now
EXEC
DISCARD
WATCH k
UNWATCH
SUBSCRIBE a b
UNSUBSCRIBE
PSUBSCRIBE a
PUNSUBSCRIBE
SSUBSCRIBE a
SUNSUBSCRIBE a
MONITOR
SYNC
PSYNC ? -1
REPLCONF ack 1
ASKING
READONLY
READWRITE
DEBUG SLEEP 1
SHUTDOWN NOSAVE FORCE
FAILOVER
CLIENT
CLIENT REPLY OFF
client reply skip
CLIENT TRACKING OFF
CLIENT NO-EVICT ON
CLIENT KILL ID 3
CLIENT GETREDIR
SCRIPT DEBUG YES";

#[test]
fn what_changes_a_connection_is_refused(rt: HostRuntime) -> Result<(), Fail> {
    for line in REFUSED.lines() {
        sends(&rt, rt.alloc(), line, "control 0 -")?;
    }
    Ok(())
}

const HARMLESS: &str = "\
CLIENT ID
client getname
CLIENT INFO
CLIENT LIST TYPE normal
CLIENT SETINFO lib-name x
CLIENT SETNAME x
CLIENT TRACKINGINFO
SCRIPT LOAD x
SCRIPT EXISTS x
SCRIPT FLUSH
SCRIPT KILL
AUTHOR
SELECTED
CLIENTS REPLY OFF
PING";

#[test]
fn what_is_harmless_is_sent(rt: HostRuntime) -> Result<(), Fail> {
    for line in HARMLESS.lines() {
        sends(&rt, rt.alloc(), line, "sent 3 -")?;
    }
    Ok(())
}

// Each command of these may write any of its words; the last is known, and writes its second.
const UNKNOWN: &str = "\
feed %0~+OK~ | done 0 -
ask GET a~ | sent 3 -
ask GET b~ | sent 4 -
feed $1~1~$1~2~ | done 0 -
send LPUSH a 1~ | sent 5 -
ask GET b~ | hit 4 $1~2~
ask GET a~ | sent 6 -
feed :1~$1~3~ | done 0 -
ask GET a~ | hit 6 $1~3~
send EVAL script 2 a b~ | sent 7 -
ask GET b~ | sent 8 -
feed _~$1~4~ | done 0 -
ask GET b~ | hit 8 $1~4~
send SET b 5 GET~ | sent 9 -
ask GET b~ | sent 10 -
feed $1~4~$1~5~ | done 0 -
ask GET b~ | hit 10 $1~5~
send MGET a b~ | sent 11 -
send PING b~ | sent 12 -
ask GET b~ | hit 10 $1~5~
send SELECT b~ | control 0 -
ask GET b~ | hit 10 $1~5~
feed *0~+b~ | done 0 -
ask GET c~ | sent 13 -
send ZADD z 1 c~ | sent 14 -
feed $1~6~:1~ | done 0 -
ask GET c~ | sent 15 -
feed $1~7~ | done 0 -
ask GET c~ | hit 15 $1~7~
ask GET b~ | hit 10 $1~5~";

#[test]
fn what_an_unknown_command_may_write_goes(rt: HostRuntime) -> Result<(), Fail> {
    plays(&rt, rt.alloc(), 100, UNKNOWN)
}

// The bound is 10. A time before the latest counts as the latest.
const AGES: &str = "\
feed %0~+OK~ | done 0 -
time 100 | done 0 -
ask GET a~ | sent 3 -
time 103 | done 0 -
ask GET b~ | sent 4 -
feed $1~1~$1~2~ | done 0 -
ask GET a~ | hit 3 $1~1~
time 110 | done 0 -
ask GET a~ | hit 3 $1~1~
time 111 | done 0 -
ask GET a~ | sent 5 -
ask GET b~ | hit 4 $1~2~
feed $1~3~ | done 0 -
time 50 | done 0 -
ask GET a~ | hit 5 $1~3~
time 115 | done 0 -
ask GET b~ | sent 6 -
ask STRLEN b~ | sent 7 -
ask GET a~ | hit 5 $1~3~
time 18446744073709551615 | done 0 -
ask GET a~ | sent 8 -";

#[test]
fn no_hit_is_older_than_its_bound(rt: HostRuntime) -> Result<(), Fail> {
    plays_within(&rt, rt.alloc(), 10, 100, AGES)
}

const NO_BOUND: &str = "\
feed %0~+OK~ | done 0 -
ask GET a~ | sent 3 -
feed $1~1~ | done 0 -
time 18446744073709551615 | done 0 -
ask GET a~ | hit 3 $1~1~";

#[test]
fn a_bound_of_0_is_none(rt: HostRuntime) -> Result<(), Fail> {
    plays(&rt, rt.alloc(), 100, NO_BOUND)
}
