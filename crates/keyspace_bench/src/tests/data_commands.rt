//! Commands with the deadlines after each, the keys that were due, and runs that are taken back.
use super::rows::commands_of;
use command_set::{Database, Turned, has_row};
use resp_value::{NoMemory, Proto, Words, put_value};
use std::alloc::Global;
use std::process::Abort;
use std::test::Fail;

fn put_joined(words: &Words, text: &mut Vec<u8>) -> Result<(), NoMemory> {
    for word in words.as_slice() {
        if !text.is_empty() {
            text.push(b' ')?;
        }
        text.extend_from_slice(word.as_slice())?;
    }
    if text.is_empty() {
        text.push(b'-')?;
    }
    Ok(())
}

/// The words, parted by spaces; `-` where there are none.
fn joined(alloc: Global, words: &Words) -> Result<Vec<u8>, NoMemory> {
    let mut text = Vec::new(alloc);
    put_joined(words, &mut text)?;
    Ok(text)
}

/// Runs a data command.
fn run(
    rt: &impl Abort,
    alloc: Global,
    database: &mut Database,
    line: &str,
    moment: u64,
) -> Result<Turned, NoMemory> {
    let commands = commands_of(alloc, line)?;
    let Some(command) = commands.first() else {
        panic!(rt; "{line}");
    };
    if !has_row(command) {
        panic!(rt; "{line}");
    }
    database.run_due(command, moment)
}

/// Runs data commands.
fn run_all(
    rt: &impl Abort,
    alloc: Global,
    database: &mut Database,
    lines: &str,
    moment: u64,
) -> Result<(), NoMemory> {
    for line in lines.lines() {
        let _ = run(rt, alloc, database, line, moment)?;
    }
    Ok(())
}

/// The keys with deadlines, in order.
fn listed(alloc: Global, database: &mut Database) -> Result<Vec<u8>, NoMemory> {
    let keys = database.due_keys(u64::MAX)?;
    joined(alloc, &keys)
}

/// Runs a command and compares the keys with deadlines after it, in order.
fn lists(
    rt: &impl Abort,
    alloc: Global,
    database: &mut Database,
    row: &str,
) -> Result<(), NoMemory> {
    let Some((line, want)) = row.split_once(": ") else {
        panic!(rt; "{row}");
    };
    run_all(rt, alloc, database, line, 1000)?;
    let listed = listed(alloc, database)?;
    assert_eq!(rt; listed.as_slice(), want.as_bytes(), "{row}");
    Ok(())
}

const LISTED: &str = "\
SET n 1: -
SET b 1 PX 5: b
SET a 1 PX 5: a b
SET c 1 PX 3: c a b
APPEND a x: c a b
PERSIST a: c b
RENAME c b: b
RENAME b n: n
SET n 2 KEEPTTL: n
SET n 2 NX PX 1: n
SET n 2: -
PEXPIRE n 9: n
HSET h f 1: n
PEXPIREAT h 1001: h n
HDEL h f: n
MSET m 1 n 2: -
EXPIRE m 1: m
EXPIRE m 0: -
SET m 1 EX 1: m
GETDEL m: -
SET m 1 EX 1: m
DEL m m: -
SET m 1 EX 1: m
FLUSHALL: -
SET s 1 KEEPTTL: -
SET s 1 KEEPTTL: -
SET d 1 XX PX 1: -
SET d 1 PX 1000: d
SET s 1 EX 1: d s
SET s 1 PX 999: s d
SET s 1 EX 1: d s
SET d 1 XX PX 1001: s d
HSET h f 1: s d
SET h 1 PX 999: h s d
DEL h: s d
HSET h f 1: s d
SET h 1 EX 2: s d h
DEL h: s d
HSET h f 1: s d
EXPIRE h 2: s d h
SET h 1 KEEPTTL: s d h
DEL h: s d
HSET h f 1: s d
EXPIRE h 2: s d h
SET h 1 PX 1: h s d
HSET i f 1: h s d
EXPIRE i 2: h s d i
SET i 1: h s d
SET s 1 PX 9223372036854775807: h d s
SET d 1 EX 9223372036854775: h d s
SET h 1 PX 9223372036854775806: d h s
SET s 1 PX 1: s d h
RENAME s s: s d h
RENAME s h: h d
RENAME i d: h
FLUSHDB: -";

fn all_list(rt: &impl Abort, alloc: Global, database: &mut Database) -> Result<(), Fail> {
    for row in LISTED.lines() {
        lists(rt, alloc, database, row)?;
    }
    Ok(())
}

#[test]
fn the_deadlines_follow_each_command(rt: HostRuntime) -> Result<(), Fail> {
    let mut database = Database::new(rt.alloc());
    all_list(&rt, rt.alloc(), &mut database)
}

const LIVES: &str = "\
SET b 1 PX 5
SET a 1 PX 5
SET z 1 PX 4
SET n 1
SET c 1 PX 6
SET d 1 PX 7";

fn expire_and_undo(database: &mut Database, moment: u64) -> Result<(), NoMemory> {
    let expired = database.expire_due(moment)?;
    database.undo_due(expired.undo);
    Ok(())
}

fn expired(alloc: Global, database: &mut Database, moment: u64) -> Result<Vec<u8>, NoMemory> {
    let expired = database.expire_due(moment)?;
    joined(alloc, &expired.keys)
}

fn expires(
    rt: &impl Abort,
    alloc: Global,
    database: &mut Database,
    moment: u64,
    want: &str,
) -> Result<(), NoMemory> {
    expire_and_undo(database, moment)?;
    let keys = expired(alloc, database, moment)?;
    assert_eq!(rt; keys.as_slice(), want.as_bytes());
    Ok(())
}

/// Runs a command, and gives the keys that were due.
fn found_due(
    rt: &impl Abort,
    alloc: Global,
    database: &mut Database,
    line: &str,
) -> Result<Vec<u8>, NoMemory> {
    let turned = run(rt, alloc, database, line, 7)?;
    joined(alloc, &turned.expired)
}

/// Runs a command and compares the keys that were due.
fn finds_due(
    rt: &impl Abort,
    alloc: Global,
    database: &mut Database,
    line: &str,
    want: &str,
) -> Result<(), NoMemory> {
    let keys = found_due(rt, alloc, database, line)?;
    assert_eq!(rt; keys.as_slice(), want.as_bytes());
    Ok(())
}

fn go_in_turn(rt: &impl Abort, alloc: Global, database: &mut Database) -> Result<(), Fail> {
    run_all(rt, alloc, database, LIVES, 0)?;
    expires(rt, alloc, database, 4, "-")?;
    expires(rt, alloc, database, 6, "z a b")?;
    finds_due(rt, alloc, database, "SET c 2 KEEPTTL", "c")?;
    finds_due(rt, alloc, database, "SET d 2 KEEPTTL", "-")?;
    expires(rt, alloc, database, u64::MAX, "d")?;
    Ok(())
}

#[test]
fn keys_go_after_their_deadlines(rt: HostRuntime) -> Result<(), Fail> {
    let mut database = Database::new(rt.alloc());
    go_in_turn(&rt, rt.alloc(), &mut database)
}

const READS: &str = "\
GET s
GET t
HGETALL h
HGETALL i
TTL s
TTL h
EXISTS a s t h i
DBSIZE";

fn put_reply(
    rt: &impl Abort,
    alloc: Global,
    database: &mut Database,
    line: &str,
    bytes: &mut Vec<u8>,
) -> Result<(), NoMemory> {
    let turned = run(rt, alloc, database, line, 1000)?;
    put_value(Proto::Three, &turned.done.reply, bytes)
}

/// The replies to some reads, which say all that the keys of the test hold.
fn replies(rt: &impl Abort, alloc: Global, database: &mut Database) -> Result<Vec<u8>, NoMemory> {
    let mut bytes = Vec::new(alloc);
    for line in READS.lines() {
        put_reply(rt, alloc, database, line, &mut bytes)?;
    }
    Ok(bytes)
}

/// Runs a command, where memory is there for it, and takes it back.
fn run_and_undo(rt: &impl Abort, alloc: Global, database: &mut Database, line: &str) {
    if let Ok(turned) = run(rt, alloc, database, line, 2000) {
        database.undo_due(turned.undo);
    }
}

/// After a run that is taken back, or that found no memory, all keys hold what they held.
fn leads_back(
    rt: &impl Abort,
    alloc: Global,
    database: &mut Database,
    line: &str,
) -> Result<(), NoMemory> {
    let before = replies(rt, alloc, database)?;
    run_and_undo(rt, alloc, database, line);
    let after = replies(rt, alloc, database)?;
    assert_eq!(rt; after.as_slice(), before.as_slice(), "{line}");
    Ok(())
}

const HELD: &str = "\
SET s one
PEXPIREAT s 1500
SET t two
HSET h a 1 b 2 c 3
EXPIRE h 100
HSET i n 1";

const TAKEN_BACK: &str = "\
GET t
SET t new
SET u new PX 5
SET t new NX
SET t new XX KEEPTTL
SETNX t new
SETNX u new
GETDEL t
GETDEL h
APPEND t x
INCR n
MSET t 1 v 2 s 3
MSET t 1 t 2
HSET h b 5 d 6
HDEL h a b
HDEL h a b c
HDEL h b
HDEL h b a b
HDEL h d
HINCRBY i n 5
DEL s t h
DEL t u t
RENAME h i
RENAME t u
RENAME u t
RENAME t t
PERSIST h
EXPIRE t 0
FLUSHALL
FLUSHDB";

fn all_lead_back(rt: &impl Abort, alloc: Global, database: &mut Database) -> Result<(), Fail> {
    run_all(rt, alloc, database, HELD, 1000)?;
    for line in TAKEN_BACK.lines() {
        leads_back(rt, alloc, database, line)?;
    }
    Ok(())
}

#[test]
fn a_run_that_is_taken_back_leaves_what_was(rt: HostRuntime) -> Result<(), Fail> {
    let mut database = Database::new(rt.alloc());
    all_lead_back(&rt, rt.alloc(), &mut database)
}

/// Two commands run and are taken back, the last one first.
fn lead_back(
    rt: &impl Abort,
    alloc: Global,
    database: &mut Database,
    first: &str,
    second: &str,
) -> Result<(), NoMemory> {
    let first = run(rt, alloc, database, first, 2000)?;
    run_and_undo(rt, alloc, database, second);
    database.undo_due(first.undo);
    Ok(())
}

fn two_lead_back(rt: &impl Abort, alloc: Global, database: &mut Database) -> Result<(), Fail> {
    run_all(rt, alloc, database, "MSET s one t two", 1000)?;
    let before = replies(rt, alloc, database)?;
    lead_back(rt, alloc, database, "SET t three", "DEL s t")?;
    let after = replies(rt, alloc, database)?;
    assert_eq!(rt; after.as_slice(), before.as_slice());
    Ok(())
}

#[test]
fn runs_are_taken_back_the_last_one_first(rt: HostRuntime) -> Result<(), Fail> {
    let mut database = Database::new(rt.alloc());
    two_lead_back(&rt, rt.alloc(), &mut database)
}
