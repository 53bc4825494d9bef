//! The grammar of schedules against worked examples. Each table has a case a line.
use resp_value::NoMemory;
use script_text::{Event, LONGEST_LINE, put_event, read_event};
use std::alloc::Global;
use std::test::Fail;

fn has_line(alloc: Global, event: &Event, line: &str) -> Result<bool, NoMemory> {
    let mut out = Vec::new(alloc);
    put_event(event, &mut out)?;
    Ok(out.as_slice().strip_suffix(b"\n") == Some(line.as_bytes()))
}

/// Whether a line is read as the event of the other line.
fn is_read_as(alloc: Global, line: &str, other: &str) -> Result<bool, NoMemory> {
    match read_event(alloc, line.as_bytes())? {
        Some(event) => has_line(alloc, &event, other),
        None => Ok(false),
    }
}

fn is_read(alloc: Global, line: &[u8]) -> Result<bool, NoMemory> {
    let event = read_event(alloc, line)?;
    Ok(event.is_some())
}

/// The first line of a table that is not read as the event whose line it is.
fn first_changed<'a>(alloc: Global, table: &'a str) -> Result<Option<&'a str>, NoMemory> {
    for line in table.split('\n') {
        if !is_read_as(alloc, line, line)? {
            return Ok(Some(line));
        }
    }
    Ok(None)
}

/// The first line of a table that is read.
fn first_read<'a>(alloc: Global, table: &'a str) -> Result<Option<&'a str>, NoMemory> {
    for line in table.split('\n') {
        if is_read(alloc, line.as_bytes())? {
            return Ok(Some(line));
        }
    }
    Ok(None)
}

// Lines of a raw connection and of any link.
const READ: &str = "\
raw r
raw n1
raw abcdefghijklmnop
raw 0123456789abcdef
raw raw
say r SET foo bar
say r GET nope
say n2 SET k1 x.y
say w set a \"!~#[]{}'
say r \\e \\s \\\\ a\\sb \\x00\\x1f\\x7f\\xff
say say say say
bytes r *2\\r\\n$3\\r\\nGET\\r\\n$3\\r\\nfoo\\r\\n
bytes r GET\\sa\\r\\n
bytes r \\e
out r
out r 1
serve r
serve r 21
send r
send r 10
recv r
recv r 18446744073709551615
flow r
flow flow
flow
cut r
now 0
now 18446744073709551615
tick
out x.data
serve x.inv 21
send 0.data 1
recv abcdefghijklmnop.data
flow data.inv
cut x.data";

// Lines of a client.
const CLIENT_LINES: &str = "\
client x single 3 default 1
client x single 3 optin 8
client x single 3 optout 1000000
client x single 3 bcast 8
client x pair 2 default 8 noloop
client x pair 3 optin 8 noloop
client x single 3 bcast 8 prefix a
client x pair 2 bcast 8 noloop prefix a\\sb prefix \\e prefix noloop
client x single 3 bcast 8 prefix prefix prefix prefix
ask x GET k
ask x HMGET k f \\e
ask x GETRANGE k 0 -1
do x GET k
do x get \\xff
poll x 0
poll x 18446744073709551615
show x";

// Lines outside the grammar; the last is empty.
const REFUSED: &str = "\
raw
raw 
raw  r
raw r 
raw r x
raw r\r
raw abcdefghijklmnopq
raw R
raw r.data
raw r-1
RAW r
rawr r
sya r GET
say r
say r 
say r  GET
say r GET  a
say r GET a 
say R GET a
say abcdefghijklmnopq GET a
say r GET\ta
say r GET \u{7f}
say r GET caf\u{e9}
flow 
flow r r
flow R
flow r 1
cut
cut r 1
bytes r
bytes r a b
bytes r \\
bytes r \\q
bytes r a\\e
bytes r \\e\\e
bytes r \\ea
bytes r \\x0
bytes r \\xFF
bytes r \\xg0
bytes r \\X00
bytes r \\x41
bytes r \\x0d
bytes r \\x20
bytes r \\x5c
say r GET \\x0D
out
out r 
out r 0
out r 01
out r +1
out r -1
out r 1x
out r 1 1
serve r 18446744073709551616
send r 99999999999999999999999
recv r \u{663}
now
now 
now 01
now -1
now 1 1
now 18446744073709551616
tick 
tick 1
tick r
Tick
 
 raw r
";

// Names where they do not belong.
const REFUSED_LINKS: &str = "\
raw x.data
say x.data PING
bytes x.inv a
client x.data single 3 default 8
ask x.data GET k
do x.inv GET k
poll x.data 1
show x.inv
out x.
out .data
out x.side
out x.data.data
out x.DATA
out x.data 0
cut abcdefghijklmnopq.inv";

// Lines of a client that are outside the grammar.
const REFUSED_CLIENT_LINES: &str = "\
client x
client x single
client x single 3
client x single 3 default
client x single 2 default 8
client x Single 3 default 8
client x triple 3 default 8
client x pair 1 default 8
client x pair 03 default 8
client x single 3 all 8
client x single 3 default 0
client x single 3 default 08
client x single 3 default 1000001
client x single 3 default 8 
client x single 3 default 8 NOLOOP
client x single 3 default 8 noloop noloop
client x single 3 default 8 prefix a
client x single 3 bcast 8 prefix
client x single 3 bcast 8 prefix a noloop
client x single 3 bcast 8 prefix a b
client x single 3 bcast 8 prefix \\x61
ask x
ask x SET k v
ask x MGET k
ask x GET
ask x GET k k
ask x get k 
ask X GET k
do x
do x 
poll x
poll x 01
poll x -1
poll x 1 1
poll x 18446744073709551616
show
show x 1";

#[test]
fn a_line_of_the_grammar_is_read_as_its_event(rt: HostRuntime) -> Result<(), Fail> {
    let alloc = rt.alloc();
    assert_eq!(rt; first_changed(alloc, READ)?, None);
    assert_eq!(rt; first_changed(alloc, CLIENT_LINES)?, None);
    Ok(())
}

#[test]
fn a_line_outside_the_grammar_has_no_event(rt: HostRuntime) -> Result<(), Fail> {
    let alloc = rt.alloc();
    assert_eq!(rt; first_read(alloc, REFUSED)?, None);
    assert_eq!(rt; first_read(alloc, REFUSED_LINKS)?, None);
    assert_eq!(rt; first_read(alloc, REFUSED_CLIENT_LINES)?, None);
    Ok(())
}

#[test]
fn a_query_is_read_in_any_case(rt: HostRuntime) -> Result<(), Fail> {
    assert!(rt; is_read_as(rt.alloc(), "ask x hGetAll K", "ask x HGETALL K")?);
    Ok(())
}

fn are_bytes(alloc: Global, line: &[u8], want: &[u8]) -> Result<bool, NoMemory> {
    match read_event(alloc, line)? {
        Some(Event::Bytes(_, bytes)) => Ok(bytes.as_slice() == want),
        _ => Ok(false),
    }
}

#[test]
fn an_escape_is_read_as_its_byte(rt: HostRuntime) -> Result<(), Fail> {
    let line = b"bytes r \\r\\n\\s\\\\e\\\\x41\\x00\\x09\\x7f\\xff!~\\xabc";
    let want: &[u8] = b"\r\n \\e\\x41\x00\t\x7f\xff!~\xabc";
    assert!(rt; are_bytes(rt.alloc(), line, want)?);
    assert!(rt; are_bytes(rt.alloc(), b"bytes r \\e", b"")?);
    Ok(())
}

fn put_longest(line: &mut Vec<u8>) -> Result<(), NoMemory> {
    for _ in line.len()..LONGEST_LINE {
        line.push(b'a')?;
    }
    Ok(())
}

#[test]
fn the_longest_line_is_read_and_a_longer_one_is_not(rt: HostRuntime) -> Result<(), Fail> {
    let mut line = Vec::from_slice(rt.alloc(), b"say r ")?;
    put_longest(&mut line)?;
    assert!(rt; is_read(rt.alloc(), line.as_slice())?);
    line.push(b'a')?;
    assert!(rt; !is_read(rt.alloc(), line.as_slice())?);
    Ok(())
}
