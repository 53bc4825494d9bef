//! A client in each mode of one link: the bytes of its handshake, and tables.
ghost use Rattle.std.specs.Prelude.{◌≡◌, ◌<◌, IfOk};
ghost use Rattle.shared_cache.specs.ClientFields.{IsOneLink};

use super::client::{
    BETWEEN, FLUSH_OF_ALL, HANDED_OUT_ONCE, HELD_UNTIL_INVALIDATED, LATER_FETCH, LEAST_RECENT,
    REFUSALS, REFUSALS_BEFORE_READY, is_held, play, play_line,
};
use super::dialogues::bytes_of;
use resp_value::{NoMemory, Octets, Proto, Words};
use shared_cache::{Caching, ClientCall, ClientMode, ClientReply, ClientState, Shape, Wire};
use std::alloc::Global;
use std::process::Abort;
use std::test::Fail;

fn prefixes_of(alloc: Global, text: &str) -> Result<Words, NoMemory> {
    let mut prefixes = Words::new(alloc);
    for word in text.split(" ") {
        if let Some(prefix) = word.strip_prefix("prefix:") {
            prefixes.push(Octets::from_slice(alloc, prefix.as_bytes())?)?;
        }
    }
    Ok(prefixes)
}

pub fn caching_of(alloc: Global, text: &str) -> Result<Caching, NoMemory> {
    let (name, rest) = text.split_once(" ").unwrap_or((text, ""));
    match name {
        "optin" => Ok(Caching::OptIn),
        "optout" => Ok(Caching::OptOut),
        "bcast" => Ok(Caching::Bcast(prefixes_of(alloc, rest)?)),
        _ => Ok(Caching::Default),
    }
}

// A mode as a table names it: what is cached, and `noloop` and prefixes behind it.
fn mode_of(alloc: Global, text: &str) -> Result<ClientMode, NoMemory>
    ensures { IfOk result (λ m. IsOneLink m) }
{
    Ok(ClientMode {
        shape: Shape::Single,
        proto: Proto::Three,
        caching: caching_of(alloc, text)?,
        noloop: text.contains("noloop"),
    })
}

// What goes out behind HELLO 3, whose bytes end at 22.
const HANDSHAKES: &str = "\
default | *3~$6~CLIENT~$8~TRACKING~$2~ON~
default noloop | *4~$6~CLIENT~$8~TRACKING~$2~ON~$6~NOLOOP~
optin | *4~$6~CLIENT~$8~TRACKING~$2~ON~$5~OPTIN~
optin noloop | *5~$6~CLIENT~$8~TRACKING~$2~ON~$5~OPTIN~$6~NOLOOP~
optout | *4~$6~CLIENT~$8~TRACKING~$2~ON~$6~OPTOUT~
optout noloop | *5~$6~CLIENT~$8~TRACKING~$2~ON~$6~OPTOUT~$6~NOLOOP~
bcast | *4~$6~CLIENT~$8~TRACKING~$2~ON~$5~BCAST~
bcast noloop | *5~$6~CLIENT~$8~TRACKING~$2~ON~$5~BCAST~$6~NOLOOP~
bcast prefix:a prefix:bc | *8~$6~CLIENT~$8~TRACKING~$2~ON~$5~BCAST~$6~PREFIX~$1~a~$6~PREFIX~$2~bc~
bcast noloop prefix:a prefix: | \
*9~$6~CLIENT~$8~TRACKING~$2~ON~$5~BCAST~$6~PREFIX~$1~a~$6~PREFIX~$0~~$6~NOLOOP~";

fn taken(client: &mut ClientState, most: u64) -> Result<Octets, Fail> {
    match client.turn(ClientCall::TakeOut(Wire::Main, most)) {
        ClientReply::Bytes(bytes) => Ok(bytes),
        _ => Err("no bytes".into()),
    }
}

fn has_handshake<R: Abort>(
    rt: &R,
    alloc: Global,
    client: &mut ClientState,
    tracking: &str,
) -> Result<(), Fail> {
    let hello = bytes_of(alloc, "*2~$5~HELLO~$1~3~")?;
    assert_eq!(rt; taken(client, 20 + 2)?.as_slice(), hello.as_slice());
    let tracking = bytes_of(alloc, tracking)?;
    assert_eq!(rt; taken(client, 1000)?.as_slice(), tracking.as_slice());
    Ok(())
}

#[test]
fn each_mode_has_its_handshake(rt: HostRuntime) -> Result<(), Fail> {
    let alloc = rt.alloc();
    for line in HANDSHAKES.lines() {
        let (mode, tracking) = line.split_once(" | ").ok_or("a line without bytes")?;
        let mut client = ClientState::new(alloc, mode_of(alloc, mode)?, 2, 100)?;
        has_handshake(&rt, alloc, &mut client, tracking)?;
    }
    Ok(())
}

fn set_up<R: Abort>(rt: &R, alloc: Global, client: &mut ClientState) -> Result<(), Fail> {
    play(rt, alloc, client, "map: noted\nsimple OK: noted")?;
    let _ = taken(client, 1000)?;
    Ok(())
}

// What a call puts on the link.
const PUT: &str = "\
default | get a: sent 3 | *2~$3~GET~$1~a~
default noloop | set a: sent 3 | *3~$3~SET~$1~a~$1~1~
optin | get a: sent 4 | *3~$6~CLIENT~$7~CACHING~$3~YES~*2~$3~GET~$1~a~
optin noloop | get a: sent 4 | *3~$6~CLIENT~$7~CACHING~$3~YES~*2~$3~GET~$1~a~
optin | read a: sent 3 | *2~$3~TTL~$1~a~
optin | set a: sent 3 | *3~$3~SET~$1~a~$1~1~
optout | get a: sent 3 | *2~$3~GET~$1~a~
optout | read a: sent 4 | *3~$6~CLIENT~$7~CACHING~$2~NO~*2~$3~TTL~$1~a~
optout | pttl a: sent 4 | *3~$6~CLIENT~$7~CACHING~$2~NO~*2~$4~PTTL~$1~a~
optout | mget a: sent 4 | *3~$6~CLIENT~$7~CACHING~$2~NO~*2~$4~MGET~$1~a~
optout | strlen a: sent 4 | *3~$6~CLIENT~$7~CACHING~$2~NO~*2~$6~STRLEN~$1~a~
optout | exists a: sent 4 | *3~$6~CLIENT~$7~CACHING~$2~NO~*3~$6~EXISTS~$1~a~$1~b~
optout noloop | set a: sent 3 | *3~$3~SET~$1~a~$1~1~
bcast prefix:a | get a: sent 3 | *2~$3~GET~$1~a~
bcast prefix:a | get b: sent 3 | *2~$3~GET~$1~b~
bcast | read a: sent 3 | *2~$3~TTL~$1~a~";

fn puts<R: Abort>(
    rt: &R,
    alloc: Global,
    client: &mut ClientState,
    call: &str,
    bytes: &str,
) -> Result<(), Fail> {
    set_up(rt, alloc, client)?;
    play_line(rt, alloc, client, call)?;
    let bytes = bytes_of(alloc, bytes)?;
    assert_eq!(rt; taken(client, 1000)?.as_slice(), bytes.as_slice());
    Ok(())
}

#[test]
fn each_mode_puts_a_caching_word_right_before_its_read(rt: HostRuntime) -> Result<(), Fail> {
    let alloc = rt.alloc();
    for line in PUT.lines() {
        let (mode, rest) = line.split_once(" | ").ok_or("a line without a call")?;
        let (call, bytes) = rest.split_once(" | ").ok_or("a line without bytes")?;
        let mut client = ClientState::new(alloc, mode_of(alloc, mode)?, 2, 100)?;
        puts(&rt, alloc, &mut client, call, bytes)?;
    }
    Ok(())
}

// The number of CLIENT CACHING is nobody's.
const BY_OPTING_IN: &str = "\
get a: sent 4
take 1000: bytes 58
poll 2: no-number 2
poll 3: no-number 3
poll 4: not-yet
simple OK: noted
poll 3: no-number 3
blob 1: noted
poll 3: no-number 3
poll 4: answer
poll 4: no-number 4
get a: hit 4
read a: sent 5
set a: sent 6
null: noted
null: noted
broken: noted
get a: sent 7";

const BY_OPTING_OUT: &str = "\
get a: sent 3
blob 1: noted
read a: sent 5
take 1000: bytes 77
poll 4: no-number 4
simple OK: noted
null: noted
poll 5: answer
get a: hit 3
set a: sent 6
null: noted
broken: noted
read a: sent 7";

const BY_PREFIXES: &str = "\
get abc: sent 3
get b: sent 4
get bcd: sent 5
blob 1: noted
blob 2: noted
blob 3: noted
get abc: hit 3
get bcd: hit 5
get b: sent 6
read abc: sent 7
invalidate abc: noted
get abc: sent 8";

const OUTSIDE_THE_PREFIX: &str = "\
get b: sent 3
get ab: sent 4
blob 1: noted
blob 2: noted";

fn plays<R: Abort>(
    rt: &R,
    alloc: Global,
    client: &mut ClientState,
    table: &str,
) -> Result<(), Fail> {
    set_up(rt, alloc, client)?;
    play(rt, alloc, client, table)
}

fn plays_in<R: Abort>(rt: &R, alloc: Global, mode: &str, table: &str) -> Result<(), Fail> {
    let mut client = ClientState::new(alloc, mode_of(alloc, mode)?, 2, 100)?;
    plays(rt, alloc, &mut client, table)
}

#[test]
fn by_opting_in_a_read_goes_behind_its_caching_word(rt: HostRuntime) -> Result<(), Fail> {
    plays_in(&rt, rt.alloc(), "optin", BY_OPTING_IN)
}

#[test]
fn by_opting_out_a_read_that_is_sent_is_not_remembered(rt: HostRuntime) -> Result<(), Fail> {
    plays_in(&rt, rt.alloc(), "optout", BY_OPTING_OUT)
}

#[test]
fn by_prefixes_covered_keys_alone_are_held(rt: HostRuntime) -> Result<(), Fail> {
    plays_in(&rt, rt.alloc(), "bcast prefix:a prefix:bc", BY_PREFIXES)
}

#[test]
fn a_key_outside_the_prefix_is_not_held(rt: HostRuntime) -> Result<(), Fail> {
    let alloc = rt.alloc();
    let mut client = ClientState::new(alloc, mode_of(alloc, "bcast prefix:a")?, 10, 100)?;
    plays(&rt, alloc, &mut client, OUTSIDE_THE_PREFIX)?;
    is_held(&rt, &client, 0, b"ab", 4)?;
    assert!(&rt; client.held(1).is_none());
    Ok(())
}

const COVERED_BY_ANY_PREFIX: &str = "\
get a: sent 3
get b: sent 4
blob 1: noted
blob 2: noted
get a: hit 3
get b: hit 4";

#[test]
fn no_prefix_and_the_empty_one_cover_every_key(rt: HostRuntime) -> Result<(), Fail> {
    let alloc = rt.alloc();
    plays_in(&rt, alloc, "bcast", COVERED_BY_ANY_PREFIX)?;
    plays_in(&rt, alloc, "bcast prefix:", COVERED_BY_ANY_PREFIX)?;
    plays_in(&rt, alloc, "bcast prefix:c prefix:", COVERED_BY_ANY_PREFIX)
}

// The modes in which nothing goes before a query of a covered key.
const WITHOUT_A_WORD: &str = "\
default noloop
optout
optout noloop
bcast
bcast noloop
bcast prefix:a prefix:b prefix:c noloop";

fn plays_as_by_default<R: Abort>(rt: &R, alloc: Global, mode: &str) -> Result<(), Fail> {
    plays_in(rt, alloc, mode, HELD_UNTIL_INVALIDATED)?;
    plays_in(rt, alloc, mode, LATER_FETCH)?;
    plays_in(rt, alloc, mode, FLUSH_OF_ALL)?;
    plays_in(rt, alloc, mode, LEAST_RECENT)?;
    plays_in(rt, alloc, mode, HANDED_OUT_ONCE)?;
    for table in BETWEEN.split("\n\n") {
        plays_in(rt, alloc, mode, table)?;
    }
    Ok(())
}

#[test]
fn a_mode_that_puts_nothing_before_a_query_holds_as_by_default(
    rt: HostRuntime,
) -> Result<(), Fail> {
    for mode in WITHOUT_A_WORD.lines() {
        plays_as_by_default(&rt, rt.alloc(), mode)?;
    }
    Ok(())
}

const EACH: &str = "\
default
default noloop
optin
optin noloop
optout
optout noloop
bcast
bcast prefix:a noloop";

fn refuses_within<R: Abort>(
    rt: &R,
    alloc: Global,
    mode: &str,
    log_max: u64,
    table: &str,
) -> Result<(), Fail>
    requires { 0 < log_max }
{
    let mut client = ClientState::new(alloc, mode_of(alloc, mode)?, 2, log_max)?;
    play(rt, alloc, &mut client, table)
}

#[test]
fn each_mode_refuses_in_the_same_order(rt: HostRuntime) -> Result<(), Fail> {
    for mode in EACH.lines() {
        refuses_within(&rt, rt.alloc(), mode, 2, REFUSALS)?;
        refuses_within(&rt, rt.alloc(), mode, 1, REFUSALS_BEFORE_READY)?;
    }
    Ok(())
}
