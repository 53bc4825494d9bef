//! A client over tables: each line is a call and its answer.
ghost use Rattle.std.specs.Prelude.{◌≡◌, ◌<◌, IfOk, IfSome, length};
ghost use Rattle.shared_cache.specs.Laws.{IsCall};

use super::super::calls::mode;
use command_words::Query;
use resp_value::{NoMemory, Octets, Pairs, Value, Values, Words};
use shared_cache::{ClientCall, ClientRefusal, ClientReply, ClientState, Wire};
use std::alloc::Global;
use std::process::Abort;
use std::test::Fail;

fn command(alloc: Global, name: &[u8], key: &[u8]) -> Result<Words, NoMemory>
    ensures { IfOk result (λ w. length w ≡ 2) }
{
    let mut words = Words::new(alloc);
    words.push(Octets::from_slice(alloc, name)?)?;
    words.push(Octets::from_slice(alloc, key)?)?;
    Ok(words)
}

pub fn query(alloc: Global, key: &str) -> Result<Query, Fail> {
    let words = command(alloc, b"get".as_slice(), key.as_bytes())?;
    Ok(Query::read(alloc, &words)?.ok_or("no query")?)
}

fn set(alloc: Global, key: &str) -> Result<Words, NoMemory>
    ensures { IfOk result (λ w. length w ≡ 3) }
{
    let mut words = command(alloc, b"SET".as_slice(), key.as_bytes())?;
    words.push(Octets::from_slice(alloc, b"1".as_slice())?)?;
    Ok(words)
}

fn exists(alloc: Global, key: &str) -> Result<Words, NoMemory>
    ensures { IfOk result (λ w. length w ≡ 3) }
{
    let mut words = command(alloc, b"EXISTS".as_slice(), key.as_bytes())?;
    words.push(Octets::from_slice(alloc, b"b".as_slice())?)?;
    Ok(words)
}

fn reset(alloc: Global) -> Result<Words, NoMemory>
    ensures { IfOk result (λ w. length w ≡ 1) }
{
    let mut words = Words::new(alloc);
    words.push(Octets::from_slice(alloc, b"reset".as_slice())?)?;
    Ok(words)
}

fn blob(alloc: Global, bytes: &[u8]) -> Result<Value, NoMemory> {
    Ok(Value::Blob(Octets::from_slice(alloc, bytes)?))
}

fn push(alloc: Global, name: &[u8], payload: Value) -> Result<Value, NoMemory> {
    let mut values = Values::new(alloc);
    values.push(blob(alloc, name)?)?;
    values.push(payload)?;
    Ok(Value::Push(values))
}

fn keys(alloc: Global, key: &[u8]) -> Result<Value, NoMemory> {
    let mut values = Values::new(alloc);
    values.push(blob(alloc, key)?)?;
    Ok(Value::Array(values))
}

fn simple(alloc: Global, text: &str) -> Result<Value, NoMemory> {
    Ok(Value::Simple(Octets::from_slice(alloc, text.as_bytes())?))
}

pub fn value_of(alloc: Global, name: &str, text: &str) -> Result<Value, NoMemory> {
    match name {
        "map" => Ok(Value::Map(Pairs::new(alloc))),
        "simple" => simple(alloc, text),
        "blob" => blob(alloc, text.as_bytes()),
        "error" => Ok(Value::Error(Octets::from_slice(alloc, b"ERR".as_slice())?)),
        "invalidate" => push(alloc, b"invalidate", keys(alloc, text.as_bytes())?),
        "flush" => push(alloc, b"invalidate", Value::Null),
        "flush-array" => push(alloc, b"invalidate", Value::NullArray),
        "broken" => push(alloc, b"tracking-redir-broken", Value::Number(1)),
        "other" => push(alloc, b"message", Value::Null),
        "malformed" => push(alloc, b"invalidate", Value::Number(1)),
        _ => Ok(Value::Null),
    }
}

pub fn number_of(text: &str) -> u64 {
    text.parse::<u64>().unwrap_or(0)
}

// The read of one key that a table names: `read` is its rest of life, others are as commands are.
fn read_named(name: &str) -> Option<&'static [u8]> {
    match name {
        "read" => Some(b"TTL".as_slice()),
        "pttl" => Some(b"PTTL".as_slice()),
        "mget" => Some(b"MGET".as_slice()),
        "strlen" => Some(b"STRLEN".as_slice()),
        _ => None,
    }
}

// The command that a table sends by this name.
fn words_named(alloc: Global, name: &str, key: &str) -> Result<Option<Words>, NoMemory>
    ensures { IfOk result (λ words. IfSome words (λ w. 0 < length w)) }
{
    if let Some(read) = read_named(name) {
        return Ok(Some(command(alloc, read, key.as_bytes())?));
    }
    match name {
        "set" => Ok(Some(set(alloc, key)?)),
        "exists" => Ok(Some(exists(alloc, key)?)),
        "reset" => Ok(Some(reset(alloc)?)),
        _ => Ok(None),
    }
}

// The call on a client that a table names: `get` asks, a command's name sends it, `poll` and `take`
// have a number, and any other is a value that was read.
fn call_of(alloc: Global, client: &ClientState, text: &str) -> Result<ClientCall, Fail>
    ensures { IfOk result (λ c. IsCall client.now.setup.mode c) }
{
    let (name, rest) = text.split_once(" ").unwrap_or((text, ""));
    if let Some(words) = words_named(alloc, name, rest)? {
        return Ok(ClientCall::Send(words));
    }
    match name {
        "get" => Ok(ClientCall::Ask(query(alloc, rest)?)),
        "poll" => Ok(ClientCall::Poll(number_of(rest))),
        "take" => Ok(ClientCall::TakeOut(Wire::Main, number_of(rest))),
        "end" => Ok(ClientCall::End(Wire::Main)),
        _ => Ok(ClientCall::Got(Wire::Main, value_of(alloc, name, rest)?)),
    }
}

fn refusal_parts(refusal: &ClientRefusal) -> (&'static str, u64) {
    match refusal {
        ClientRefusal::Down { .. } => ("down", 0),
        ClientRefusal::Unexpected { .. } => ("unexpected", 0),
        ClientRefusal::BadPush { .. } => ("bad-push", 0),
        ClientRefusal::NoMemory => ("no-memory", 0),
        ClientRefusal::LogFull { entries } => ("full", *entries),
        ClientRefusal::SetupRefused { .. } => ("setup-refused", 0),
        ClientRefusal::NotReady => ("not-ready", 0),
        ClientRefusal::Control => ("control", 0),
        ClientRefusal::NoNumber { number } => ("no-number", *number),
        ClientRefusal::Worn => ("worn", 0),
    }
}

// An answer as a table has it: a name, and a number where it has one.
pub fn parts_of(reply: &ClientReply) -> (&'static str, u64) {
    match reply {
        ClientReply::Hit { number, .. } => ("hit", *number),
        ClientReply::Sent { number } => ("sent", *number),
        ClientReply::NotYet => ("not-yet", 0),
        ClientReply::Answer { .. } => ("answer", 0),
        ClientReply::Bytes(bytes) => ("bytes", bytes.as_slice().len() as u64),
        ClientReply::Quiet => ("quiet", 0),
        ClientReply::Noted => ("noted", 0),
        ClientReply::Refused(refusal) => refusal_parts(refusal),
    }
}

const SET_UP: &str = "\
map: noted
simple OK: noted";

pub const HELD_UNTIL_INVALIDATED: &str = "\
get a: sent 3
blob 1: noted
get a: hit 3
invalidate b: noted
other: noted
get a: hit 3
invalidate a: noted
get a: sent 4";

// What comes between a fetch and its reply, and the next fetch.
pub const BETWEEN: &str = "\
get a: sent 3
invalidate a: noted
blob 1: noted
get a: sent 4

get a: sent 3
flush: noted
blob 1: noted
get a: sent 4

get a: sent 3
flush-array: noted
blob 1: noted
get a: sent 4

get a: sent 3
broken: noted
blob 1: noted
get a: sent 4

get a: sent 3
set a: sent 4
blob 1: noted
get a: sent 5";

pub const LATER_FETCH: &str = "\
get a: sent 3
get a: sent 4
blob old: noted
blob new: noted
get a: hit 4";

pub const FLUSH_OF_ALL: &str = "\
get a: sent 3
error: noted
get a: hit 3
get b: sent 4
null: noted
get b: hit 4
flush-array: noted
get a: sent 5
get b: sent 6";

// On one link a reply to a later command ends nothing.
pub const LATER_REPLIES: &str = "\
get a: sent 3
strlen a: sent 4
blob 1: noted
null: noted
get a: hit 3
mget a: sent 5
read a: sent 6
error: noted
null: noted
get a: hit 3";

pub const LEAST_RECENT: &str = "\
get a: sent 3
get b: sent 4
blob 1: noted
blob 2: noted
get a: hit 3
get c: sent 5
blob 3: noted
get a: hit 3
get c: hit 5
get b: sent 6";

pub const HANDED_OUT_ONCE: &str = "\
get a: sent 3
poll 3: not-yet
poll 2: no-number 2
poll 4: no-number 4
blob 1: noted
poll 3: answer
poll 3: no-number 3
set a: sent 4
set a: sent 5
set a: sent 6
simple OK: noted
simple OK: noted
poll 5: answer
poll 5: no-number 5
end: noted
poll 4: answer
poll 4: no-number 4
poll 5: no-number 5
poll 6: down";

pub const REFUSALS: &str = "\
get a: not-ready
reset: not-ready
map: noted
simple OK: noted
get a: full 2
reset: control
set a: full 2
take 9: full 2
other: full 2
poll 3: no-number 3
malformed: bad-push
get a: down
reset: down
take 9: down
null: down
end: noted";

// The log has room for one entry.
pub const REFUSALS_BEFORE_READY: &str = "\
map: noted
get a: not-ready
reset: not-ready
take 9: full 1
poll 2: no-number 2
other: full 1
error: setup-refused
get a: down
reset: down
poll 2: no-number 2
take 9: down
error: down
malformed: down
end: noted";

// And here for three.
const REFUSALS_WHERE_ALL_IS_TAKEN: &str = "\
take 1000: bytes 60
map: noted
simple OK: noted
take 1000: quiet
get a: full 3
null: unexpected
take 1000: down
null: down";

const FIRST_ANSWER_IS_AN_ERROR: &str = "\
error: setup-refused
map: down";

const SECOND_ANSWER_IS_ANOTHER: &str = "\
map: noted
simple ok: setup-refused";

const THIRD_ANSWER_IS_NOT_AWAITED: &str = "\
null: unexpected
end: noted";

const BYTES_TAKEN_OUT: &str = "\
take 20: bytes 20
take 1000: bytes 40
take 1000: quiet
get a: sent 3
take 1000: bytes 20";

const TWO_HELD: &str = "\
get \0: sent 3
get Z: sent 4
blob 1: noted
blob 2: noted";

fn told(client: &mut ClientState, call: ClientCall) -> (&'static str, u64)
    requires { IsCall client.old.setup.mode call }
{
    let reply = client.turn(call);
    parts_of(&reply)
}

/// Plays a line of a table on a client.
pub fn play_line<R: Abort>(
    rt: &R,
    alloc: Global,
    client: &mut ClientState,
    line: &str,
) -> Result<(), Fail> {
    let (call, wanted) = line.split_once(": ").ok_or("a line without an answer")?;
    let (name, number) = wanted.split_once(" ").unwrap_or((wanted, "0"));
    let call = call_of(alloc, client, call)?;
    let (is, of) = told(client, call);
    assert_eq!(rt; is, name, "{line}");
    assert_eq!(rt; of, number_of(number), "{line}");
    Ok(())
}

/// Plays a table on a client.
pub fn play<R: Abort>(
    rt: &R,
    alloc: Global,
    client: &mut ClientState,
    table: &str,
) -> Result<(), Fail> {
    for line in table.lines() {
        play_line(rt, alloc, client, line)?;
    }
    Ok(())
}

// Tables are played one after the other on a client whose log holds so many entries.
fn plays_within<R: Abort>(
    rt: &R,
    alloc: Global,
    log_max: u64,
    first: &str,
    table: &str,
) -> Result<(), Fail>
    requires { 0 < log_max }
{
    let mut client = ClientState::new(alloc, mode(), 2, log_max)?;
    play_both(rt, alloc, &mut client, first, table)
}

fn play_both<R: Abort>(
    rt: &R,
    alloc: Global,
    client: &mut ClientState,
    first: &str,
    table: &str,
) -> Result<(), Fail> {
    play(rt, alloc, client, first)?;
    play(rt, alloc, client, table)
}

fn plays_from_the_start<R: Abort>(
    rt: &R,
    alloc: Global,
    log_max: u64,
    table: &str,
) -> Result<(), Fail>
    requires { 0 < log_max }
{
    plays_within(rt, alloc, log_max, "", table)
}

// A client whose handshake is answered, and which then answers so.
fn plays<R: Abort>(rt: &R, alloc: Global, table: &str) -> Result<(), Fail> {
    plays_within(rt, alloc, 100, SET_UP, table)
}

#[test]
fn a_reply_is_held_until_its_key_is_invalidated(rt: HostRuntime) -> Result<(), Fail> {
    plays(&rt, rt.alloc(), HELD_UNTIL_INVALIDATED)
}

#[test]
fn what_comes_between_a_fetch_and_its_reply_leaves_nothing_held(
    rt: HostRuntime,
) -> Result<(), Fail> {
    for table in BETWEEN.split("\n\n") {
        plays(&rt, rt.alloc(), table)?;
    }
    Ok(())
}

#[test]
fn a_later_fetch_of_the_query_ends_the_older(rt: HostRuntime) -> Result<(), Fail> {
    plays(&rt, rt.alloc(), LATER_FETCH)
}

#[test]
fn a_later_reply_on_one_link_ends_nothing(rt: HostRuntime) -> Result<(), Fail> {
    plays(&rt, rt.alloc(), LATER_REPLIES)
}

#[test]
fn a_flush_empties_and_errors_and_nulls_are_held(rt: HostRuntime) -> Result<(), Fail> {
    plays(&rt, rt.alloc(), FLUSH_OF_ALL)
}

#[test]
fn the_key_used_earliest_leaves_at_the_capacity(rt: HostRuntime) -> Result<(), Fail> {
    plays(&rt, rt.alloc(), LEAST_RECENT)
}

#[test]
fn a_reply_is_handed_out_once_in_any_order(rt: HostRuntime) -> Result<(), Fail> {
    plays(&rt, rt.alloc(), HANDED_OUT_ONCE)
}

#[test]
fn each_refusal_comes_in_its_order(rt: HostRuntime) -> Result<(), Fail> {
    let a = rt.alloc();
    plays_from_the_start(&rt, a, 2, REFUSALS)?;
    plays_from_the_start(&rt, a, 1, REFUSALS_BEFORE_READY)?;
    plays_from_the_start(&rt, a, 3, REFUSALS_WHERE_ALL_IS_TAKEN)
}

#[test]
fn another_answer_to_the_handshake_ends_the_link(rt: HostRuntime) -> Result<(), Fail> {
    let a = rt.alloc();
    plays_from_the_start(&rt, a, 100, FIRST_ANSWER_IS_AN_ERROR)?;
    plays_from_the_start(&rt, a, 100, SECOND_ANSWER_IS_ANOTHER)?;
    plays(&rt, a, THIRD_ANSWER_IS_NOT_AWAITED)
}

#[test]
fn the_bytes_of_the_commands_are_taken_in_order(rt: HostRuntime) -> Result<(), Fail> {
    plays(&rt, rt.alloc(), BYTES_TAKEN_OUT)
}

/// What is held at a place: its query's key, and the number of its fetch.
pub fn is_held<R: Abort>(
    rt: &R,
    client: &ClientState,
    place: usize,
    key: &[u8],
    number: u64,
) -> Result<(), Fail> {
    let (query, _, fetch) = client.held(place).ok_or("nothing there")?;
    assert_eq!(rt; query.key(), key);
    assert_eq!(rt; fetch, number);
    Ok(())
}

fn holds_two<R: Abort>(rt: &R, client: &ClientState) -> Result<(), Fail> {
    is_held(rt, client, 0, b"Z", 4)?;
    is_held(rt, client, 1, b"\0", 3)?;
    assert!(rt; client.held(2).is_none());
    assert_eq!(rt; client.entries(), 6);
    Ok(())
}

fn fill_and_look<R: Abort>(rt: &R, alloc: Global, client: &mut ClientState) -> Result<(), Fail> {
    play_both(rt, alloc, client, SET_UP, TWO_HELD)?;
    holds_two(rt, client)
}

#[test]
fn what_is_held_is_in_byte_order_of_the_printed_words(rt: HostRuntime) -> Result<(), Fail> {
    let mut client = ClientState::new(rt.alloc(), mode(), 2, 100)?;
    fill_and_look(&rt, rt.alloc(), &mut client)
}
