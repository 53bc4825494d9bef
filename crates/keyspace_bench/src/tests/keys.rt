//! The rows of the commands on keys, in the words of their pages.
use super::rows::{commands_of, put_hash, words_of};
use command_words::{Command, Done, Signalled};
use key_cmds::{is_key, run_key};
use keyspace::Keyspace;
use resp_value::{NoMemory, Proto, put_value};
use std::alloc::Global;
use std::test::Fail;

/// Strings with no deadline, one to come, one now and one past, and two hashes: the moment of the
/// tests is 1000.
fn put_six_keys(alloc: Global, space: &mut Keyspace) -> Result<(), NoMemory> {
    space.put_texts(words_of(alloc, "s 1 d 1 n 1 p 1")?.as_slice())?;
    space.set_deadline(b"d", Some(2000));
    space.set_deadline(b"n", Some(1000));
    space.set_deadline(b"p", Some(999));
    put_hash(alloc, space, b"h")?;
    put_hash(alloc, space, b"i")
}

fn put_signalled(signalled: &Signalled, shown: &mut Vec<u8>) -> Result<(), NoMemory> {
    match signalled {
        Signalled::Keys(words) => {
            for word in words.as_slice() {
                shown.push(b' ')?;
                shown.extend_from_slice(word.as_slice())?;
            }
        }
        Signalled::All => shown.extend_from_slice(b" all")?,
    }
    Ok(())
}

fn put_done(done: &Done, shown: &mut Vec<u8>) -> Result<(), NoMemory> {
    put_value(Proto::Three, &done.reply, shown)?;
    put_signalled(&done.signalled, shown)
}

/// The reply and the signalled keys of a command at the moment 1000, in one line.
fn put_outcome(
    alloc: Global,
    space: &mut Keyspace,
    command: &Command,
    shown: &mut Vec<u8>,
) -> Result<(), NoMemory> {
    if !is_key(command) {
        return Ok(());
    }
    let done = run_key(alloc, space, command, 1000)?;
    put_done(&done, shown)
}

/// The bytes but CR and LF.
fn plain(alloc: Global, shown: &[u8]) -> Result<Vec<u8>, NoMemory> {
    let mut text = Vec::new(alloc);
    for byte in shown {
        if *byte != b'\r' && *byte != b'\n' {
            text.push(*byte)?;
        }
    }
    Ok(text)
}

fn put_line(
    alloc: Global,
    space: &mut Keyspace,
    line: &str,
    shown: &mut Vec<u8>,
) -> Result<(), NoMemory> {
    let commands = commands_of(alloc, line)?;
    match commands.first() {
        Some(command) => put_outcome(alloc, space, command, shown),
        None => Ok(()),
    }
}

/// What a line shows; nothing where it is no command on keys.
fn played(alloc: Global, space: &mut Keyspace, line: &str) -> Result<Vec<u8>, NoMemory> {
    let mut shown = Vec::new(alloc);
    put_line(alloc, space, line, &mut shown)?;
    plain(alloc, shown.as_slice())
}

/// Whether a row comes out as it says: a command, a colon, and its reply with the keys that it
/// signals.
fn row_holds(alloc: Global, space: &mut Keyspace, row: &str) -> Result<bool, NoMemory> {
    let Some((line, want)) = row.split_once(": ") else {
        return Ok(false);
    };
    let shown = played(alloc, space, line)?;
    Ok(shown.as_slice() == want.as_bytes())
}

fn all_hold(alloc: Global, space: &mut Keyspace, table: &str) -> Result<bool, NoMemory> {
    put_six_keys(alloc, space)?;
    for row in table.lines() {
        if !row_holds(alloc, space, row)? {
            return Ok(false);
        }
    }
    Ok(true)
}

/// Whether each row of a table holds, where they run one after another.
fn holds(alloc: Global, table: &str) -> Result<bool, NoMemory> {
    let mut space = Keyspace::new(alloc);
    all_hold(alloc, &mut space, table)
}

const KEYS: &str = "\
DBSIZE: :6
TYPE s: +string
TYPE d: +string
TYPE n: +string
TYPE p: +string
TYPE h: +hash
TYPE none: +none
EXISTS none: :0
EXISTS s h none s: :3
EXISTS d n p: :3
DEL none: :0
DEL s none s h: :2 s h
EXISTS s h d: :1
TYPE h: +none
PEXPIRE i 5: :1 i
TYPE i: +hash
EXISTS i: :1
DBSIZE: :4
DEL n d none d i: :3 n d i
DBSIZE: :1
DEL p p: :1 p
DBSIZE: :0
FLUSHDB SYNC: +OK all
EXISTS p: :0
DBSIZE: :0
FLUSHALL: +OK all";

#[test]
fn keys_are_counted_and_removed_once(rt: HostRuntime) -> Result<(), Fail> {
    assert!(rt; holds(rt.alloc(), KEYS)?);
    Ok(())
}

const MOVES: &str = "\
RENAME none s: -ERR no such key
RENAME none d: -ERR no such key
RENAME none none: -ERR no such key
RENAME s s: +OK
PTTL s: :-1
RENAME d d: +OK
PTTL d: :1000
RENAME h h: +OK
TYPE h: +hash
RENAME s d: +OK s d
PTTL d: :-1
PEXPIRE d 70: :1 d
RENAME d h: +OK d h
PTTL h: :70
TYPE h: +string
RENAME i h: +OK i h
TYPE h: +hash
PTTL h: :-1
PEXPIRE h 9: :1 h
RENAME h h: +OK
PTTL h: :9
RENAME h new: +OK h new
TYPE new: +hash
PTTL new: :9
RENAME n new: +OK n new
TYPE new: +string
PTTL new: :0
RENAME new p: +OK new p
PTTL p: :0
EXISTS s d h i n new p: :1
FLUSHALL ASYNC: +OK all
FLUSHDB: +OK all
DBSIZE: :0";

#[test]
fn a_key_moves_with_its_deadline(rt: HostRuntime) -> Result<(), Fail> {
    assert!(rt; holds(rt.alloc(), MOVES)?);
    Ok(())
}

const DEADLINES: &str = "\
TTL none: :-2
PTTL none: :-2
TTL s: :-1
PTTL s: :-1
TTL h: :-1
PTTL h: :-1
TTL d: :1
PTTL d: :1000
TTL n: :0
PTTL n: :0
TTL p: :0
PTTL p: :0
EXPIRE none 5: :0
PEXPIRE none 5: :0
EXPIREAT none 5: :0
PEXPIREAT none 5000: :0
EXPIRE none 0: :0
PEXPIREAT none 1000: :0
EXPIRE s 5: :1 s
PTTL s: :5000
PEXPIRE s 499: :1 s
TTL s: :0
PEXPIRE s 500: :1 s
TTL s: :1
PEXPIRE s 1499: :1 s
TTL s: :1
PEXPIRE s 1500: :1 s
TTL s: :2
EXPIREAT s 3: :1 s
PTTL s: :2000
PEXPIREAT s 1001: :1 s
PTTL s: :1
TTL s: :0
PEXPIREAT s 1000: :1 s
EXISTS s: :0
EXPIREAT h 2: :1 h
PTTL h: :1000
EXPIRE h 3: :1 h
TTL h: :3
PEXPIRE h 4: :1 h
PTTL h: :4
PEXPIREAT h 2500: :1 h
TTL h: :2
PERSIST h: :1 h
PERSIST h: :0
PERSIST none: :0
PTTL h: :-1
EXPIREAT h 1: :1 h
PERSIST d: :1 d
PERSIST d: :0
PERSIST n: :1 n
PTTL n: :-1
PERSIST p: :1 p
PTTL p: :-1
PEXPIRE d 0: :1 d
PEXPIRE d -9223372036854775808: :0
PEXPIREAT i 1000: :1 i
PEXPIREAT n 999: :1 n
EXPIREAT p 0: :1 p
DBSIZE: :0";

#[test]
fn a_deadline_that_is_past_at_once_removes_the_key(rt: HostRuntime) -> Result<(), Fail> {
    assert!(rt; holds(rt.alloc(), DEADLINES)?);
    Ok(())
}

const DUE: &str = "\
EXPIRE n 5: :1 n
PTTL n: :5000
PEXPIRE p 5: :1 p
PTTL p: :5
PEXPIREAT h 999: :1 h
EXPIRE i 0: :1 i
EXISTS h i: :0
FLUSHALL: +OK all
DBSIZE: :0";

#[test]
fn a_due_key_takes_a_later_deadline(rt: HostRuntime) -> Result<(), Fail> {
    assert!(rt; holds(rt.alloc(), DUE)?);
    Ok(())
}

const ENDS: &str = "\
EXPIRE s 1: :1 s
PTTL s: :1000
PEXPIRE s 1: :1 s
PTTL s: :1
PEXPIRE s 9223372036854775807: :1 s
PTTL s: :9223372036854775807
TTL s: :9223372036854776
EXPIRE s 9223372036854775: :1 s
PTTL s: :9223372036854775000
TTL s: :9223372036854775
EXPIREAT s 9223372036854775: :1 s
PTTL s: :9223372036854774000
PEXPIREAT s 9223372036854775807: :1 s
PTTL s: :9223372036854774807
RENAME s d: +OK s d
PTTL d: :9223372036854774807
PERSIST d: :1 d
PTTL d: :-1
PEXPIRE h 9223372036854775807: :1 h
PTTL h: :9223372036854775807
EXISTS d h: :2
PEXPIREAT d -9223372036854775808: :1 d
PEXPIRE h -9223372036854775808: :1 h
EXPIREAT i -9223372036854775: :1 i
EXPIRE n -9223372036854775: :1 n
PEXPIRE p -1: :1 p
DBSIZE: :0";

#[test]
fn deadlines_reach_both_ends_of_the_range(rt: HostRuntime) -> Result<(), Fail> {
    assert!(rt; holds(rt.alloc(), ENDS)?);
    Ok(())
}
