//! Words against the tables of commands, and printed words against worked examples.
use command_words::{Command, SetLife, SetWhen, WordFault, fault_text, put_printed, read_command};
use resp_value::{NoMemory, Octets, Words};
use std::alloc::Global;
use std::test::Fail;

fn words_of(alloc: Global, text: &str) -> Result<Words, NoMemory> {
    let mut words = Words::new(alloc);
    for part in text.split(' ') {
        words.push(Octets::from_slice(alloc, part.as_bytes())?)?;
    }
    Ok(words)
}

fn show_life(life: &SetLife) -> &'static str {
    match life {
        SetLife::Cleared => "cleared",
        SetLife::Seconds(_) => "seconds",
        SetLife::Millis(_) => "millis",
        SetLife::Kept => "kept",
    }
}

fn show_fault(fault: &WordFault) -> &'static str {
    match fault {
        WordFault::Unknown => "unknown",
        WordFault::Arity => "arity",
        WordFault::Syntax => "syntax",
        WordFault::BadNumber => "number",
        WordFault::BadExpire => "expire",
        WordFault::NoMemory => "memory",
    }
}

// What a line is read as: the options of SET, another command, or the fault.
fn show(read: &Result<Command, WordFault>) -> (&'static str, &'static str) {
    match read {
        Ok(Command::Set(_, _, SetWhen::Always, life)) => ("always", show_life(life)),
        Ok(Command::Set(_, _, SetWhen::Nx, life)) => ("nx", show_life(life)),
        Ok(Command::Set(_, _, SetWhen::Xx, life)) => ("xx", show_life(life)),
        Ok(_) => ("another", "command"),
        Err(fault) => ("fault", show_fault(fault)),
    }
}

fn is_shown(read: &Result<Command, WordFault>, wanted: &str) -> bool {
    let (kind, detail) = show(read);
    match wanted.split_once(' ') {
        Some((wanted_kind, wanted_detail)) => kind == wanted_kind && detail == wanted_detail,
        None => false,
    }
}

fn is_read_so(alloc: Global, row: &str) -> Result<bool, NoMemory> {
    let Some((line, wanted)) = row.split_once(": ") else {
        return Ok(false);
    };
    let words = words_of(alloc, line)?;
    let read = read_command(alloc, &words);
    Ok(is_shown(&read, wanted))
}

/// The first row whose words are not read as it says.
fn wrong_row<'a>(alloc: Global, table: &'a str) -> Result<Option<&'a str>, NoMemory> {
    for row in table.split('\n') {
        if !is_read_so(alloc, row)? {
            return Ok(Some(row));
        }
    }
    Ok(None)
}

// The options of SET: its condition and its lifetime.
const SET_ROWS: &str = "\
SET k v: always cleared
set k v nx: nx cleared
SET k v XX: xx cleared
SET k v KEEPTTL: always kept
SET k v eX 10: always seconds
SET k v px 10 xx: xx millis
SET k v NX keepttl: nx kept
SET k v EX 9223372036854775: always seconds
SET k v EX 9223372036854776: fault expire
SET k v PX 9223372036854775807: always millis
SET k v PX -1: fault expire
SET k v EX 0 FOO: fault expire
SET k v FOO EX 0: fault syntax
SET k v EX 1x: fault number
SET k v EX: fault syntax
SET k v NX NX: fault syntax
SET k v NX XX: fault syntax
SET k v EX 1 PX 1: fault syntax
SET k v KEEPTTL KEEPTTL: fault syntax
SET k: fault arity";

#[test]
fn set_takes_its_options_in_any_order(rt: HostRuntime) -> Result<(), Fail> {
    assert_eq!(rt; wrong_row(rt.alloc(), SET_ROWS)?, None);
    Ok(())
}

// A fault each, in the order in which they are looked for.
const FAULT_ROWS: &str = "\
NOPE: fault unknown
CLIENT NOPE a b: fault unknown
CLIENT: fault arity
GET: fault arity
MSET a 1 b: fault arity
HSET k f: fault arity
HSET k f 1 g: fault arity
HMGET k: fault arity
DEL: fault arity
PING a b: fault arity
QUIT now: fault arity
UNSUBSCRIBE a b: fault arity
CLIENT CACHING YES NO: fault arity
CLIENT CACHING maybe: fault syntax
CLIENT TRACKING: fault arity
CLIENT TRACKING maybe: fault syntax
CLIENT TRACKING ON REDIRECT 1 REDIRECT x: fault syntax
CLIENT TRACKING ON REDIRECT x FOO: fault number
CLIENT TRACKING ON PREFIX: fault syntax
HELLO abc FOO: fault syntax
FLUSHALL ASYNC SYNC: fault syntax
SHUTDOWN SAVE NOSAVE: fault syntax
GETRANGE k x: fault arity
GETRANGE k x y: fault number
INCRBY k 9223372036854775808: fault number
INCRBY k -9223372036854775809: fault number
INCRBY k 007: fault number
INCRBY k +1: fault number
INCRBY k -0: fault number
EXPIRE k 9223372036854776: fault expire
EXPIREAT k -9223372036854776: fault expire";

#[test]
fn faults_are_found_in_their_order(rt: HostRuntime) -> Result<(), Fail> {
    assert_eq!(rt; wrong_row(rt.alloc(), FAULT_ROWS)?, None);
    Ok(())
}

// Each command, in capitals or not.
const COMMAND_ROWS: &str = "\
get k: another command
SETNX k v: another command
GETDEL k: another command
APPEND k v: another command
STRLEN k: another command
GETRANGE k 0 -1: another command
INCR k: another command
DECR k: another command
INCRBY k -9223372036854775808: another command
DECRBY k 9223372036854775807: another command
MGET a b: another command
MSET a 1 b 2: another command
HSET k f v g w: another command
HGET k f: another command
HMGET k f g: another command
HGETALL k: another command
HDEL k f g: another command
HLEN k: another command
HEXISTS k f: another command
HKEYS k: another command
HVALS k: another command
HINCRBY k f 0: another command
DEL a b: another command
EXISTS a a: another command
TYPE k: another command
RENAME a b: another command
EXPIRE k -9223372036854775: another command
PEXPIRE k 9223372036854775807: another command
EXPIREAT k 1: another command
PEXPIREAT k 1: another command
TTL k: another command
PTTL k: another command
PERSIST k: another command
DBSIZE: another command
FLUSHALL async: another command
FLUSHDB: another command
PING: another command
PING m: another command
ECHO m: another command
HELLO 3: another command
RESET: another command
QUIT: another command
SHUTDOWN nosave: another command
CLIENT ID: another command
client tracking on bcast prefix a PREFIX b redirect -7 noloop: another command
CLIENT TRACKING OFF OPTIN OPTOUT OPTIN: another command
CLIENT CACHING no: another command
CLIENT GETREDIR: another command
CLIENT TRACKINGINFO: another command
SUBSCRIBE c: another command
UNSUBSCRIBE: another command";

#[test]
fn every_command_is_read(rt: HostRuntime) -> Result<(), Fail> {
    assert_eq!(rt; wrong_row(rt.alloc(), COMMAND_ROWS)?, None);
    Ok(())
}

// The text of the fault that a line is read as.
const TEXT_ROWS: &str = "\
NOPE a: ERR unknown command
client a: ERR unknown subcommand
CLIENT ID a: ERR wrong number of arguments for 'client' command
SET a b c: ERR syntax error
INCRBY a b: ERR value is not an integer or out of range
EXPIRE a 9223372036854775807: ERR invalid expire time";

fn fault_of(alloc: Global, words: &Words) -> Option<WordFault> {
    match read_command(alloc, words) {
        Ok(_) => None,
        Err(fault) => Some(fault),
    }
}

fn have_text(alloc: Global, words: &Words, wanted: &str) -> Result<bool, NoMemory> {
    match fault_of(alloc, words) {
        None => Ok(false),
        Some(fault) => Ok(fault_text(alloc, words, fault)?.as_slice() == wanted.as_bytes()),
    }
}

fn has_text(alloc: Global, row: &str) -> Result<bool, NoMemory> {
    let Some((line, wanted)) = row.split_once(": ") else {
        return Ok(false);
    };
    let words = words_of(alloc, line)?;
    have_text(alloc, &words, wanted)
}

#[test]
fn a_fault_has_its_text(rt: HostRuntime) -> Result<(), Fail> {
    for row in TEXT_ROWS.lines() {
        assert!(rt; has_text(rt.alloc(), row)?, "{row}");
    }
    Ok(())
}

// Words, each with its printed form.
fn printed_row(row: usize) -> (&'static str, &'static str) {
    match row {
        0 => ("", "\\e"),
        1 => ("foo", "foo"),
        2 => ("!~", "!~"),
        3 => ("+OK\r\n$3\r\nbar\r\n", "+OK\\r\\n$3\\r\\nbar\\r\\n"),
        4 => ("a b", "a\\sb"),
        5 => ("\\e", "\\\\e"),
        6 => ("\u{0}\u{1f}\u{7f}", "\\x00\\x1f\\x7f"),
        _ => ("caf\u{e9}", "caf\\xc3\\xa9"),
    }
}

fn is_printed_so(alloc: Global, word: &str, wanted: &str) -> Result<bool, NoMemory> {
    let mut out = Vec::from_slice(alloc, b"<")?;
    put_printed(word.as_bytes(), &mut out)?;
    match out.as_slice() {
        [first, printed @ ..] => Ok(*first == b'<' && printed == wanted.as_bytes()),
        [] => Ok(false),
    }
}

#[test]
fn a_word_is_printed_in_visible_bytes(rt: HostRuntime) -> Result<(), Fail> {
    for row in 0..8 {
        let (word, wanted) = printed_row(row);
        assert!(rt; is_printed_so(rt.alloc(), word, wanted)?, "{wanted}");
    }
    Ok(())
}
