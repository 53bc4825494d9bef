//! Queries, keys and control commands, with ample memory.
use super::rows::commands_of;
use command_words::{Command, Query, is_control, keys_read, written_by};
use resp_value::{NoMemory, Octets, Words};
use std::alloc::Global;
use std::test::Fail;

fn words(alloc: Global, line: &str) -> Result<Words, NoMemory> {
    let mut words = Words::new(alloc);
    for word in line.split(' ') {
        words.push(Octets::from_slice(alloc, word.as_bytes())?)?;
    }
    Ok(words)
}

/// What a line is asked in a table.
#[derive(Clone, Copy)]
enum Asked {
    IsQuery,
    IsControl,
    HowManyKeys,
    Two(AskedOfTwo),
}

/// What two parts of a line are asked, with a stroke between them.
#[derive(Clone, Copy)]
enum AskedOfTwo {
    AreSame,
    HasKey,
    Writes,
}

fn yes_or_no(is_so: bool) -> &'static str {
    if is_so { "yes" } else { "no" }
}

fn how_many_are_read(alloc: Global, command: &Command) -> Result<&'static str, NoMemory> {
    let keys = keys_read(alloc, command)?;
    Ok(match keys.as_slice().len() {
        0 => "0",
        1 => "1",
        2 => "2",
        3 => "3",
        _ => "more",
    })
}

fn how_many_keys(alloc: Global, line: &str) -> Result<&'static str, NoMemory> {
    let commands = commands_of(alloc, line)?;
    match commands.first() {
        Some(command) => how_many_are_read(alloc, command),
        None => Ok("no command"),
    }
}

fn query_of(alloc: Global, line: &str) -> Result<Option<Query>, NoMemory> {
    Query::read(alloc, &words(alloc, line)?)
}

/// Whether the other query, read once more from its own words, is the same.
fn is_same_read(alloc: Global, one: &Query, other: &Query) -> Result<bool, NoMemory> {
    match Query::read(alloc, other.words())? {
        Some(again) => Ok(one.is_same(&again)),
        None => Ok(false),
    }
}

fn is_same(alloc: Global, one: &Query, other: &str) -> Result<bool, NoMemory> {
    match query_of(alloc, other)? {
        Some(other) => is_same_read(alloc, one, &other),
        None => Ok(false),
    }
}

/// Whether two lines are the same query.
fn are_same(alloc: Global, one: &str, other: &str) -> Result<bool, NoMemory> {
    match query_of(alloc, one)? {
        Some(one) => is_same(alloc, &one, other),
        None => Ok(false),
    }
}

fn has_key(alloc: Global, line: &str, key: &str) -> Result<bool, NoMemory> {
    match query_of(alloc, line)? {
        Some(query) => Ok(query.key() == key.as_bytes()),
        None => Ok(false),
    }
}

fn writes(alloc: Global, line: &str, key: &str) -> Result<bool, NoMemory> {
    Ok(written_by(alloc, &words(alloc, line)?)?.names(key.as_bytes()))
}

fn answer_of_two(alloc: Global, asked: AskedOfTwo, parts: &str) -> Result<bool, NoMemory> {
    let Some((one, other)) = parts.split_once(" | ") else {
        return Ok(false);
    };
    match asked {
        AskedOfTwo::AreSame => are_same(alloc, one, other),
        AskedOfTwo::HasKey => has_key(alloc, one, other),
        AskedOfTwo::Writes => writes(alloc, one, other),
    }
}

fn answer(alloc: Global, asked: Asked, line: &str) -> Result<&'static str, NoMemory> {
    match asked {
        Asked::IsQuery => Ok(yes_or_no(query_of(alloc, line)?.is_some())),
        Asked::IsControl => Ok(yes_or_no(is_control(&words(alloc, line)?))),
        Asked::HowManyKeys => how_many_keys(alloc, line),
        Asked::Two(asked) => Ok(yes_or_no(answer_of_two(alloc, asked, line)?)),
    }
}

fn is_answered(alloc: Global, asked: Asked, row: &str) -> Result<bool, NoMemory> {
    let Some((line, wanted)) = row.split_once(": ") else {
        return Ok(false);
    };
    Ok(answer(alloc, asked, line)? == wanted)
}

/// The first row whose line is not answered as it says.
fn wrong_row<'a>(alloc: Global, asked: Asked, table: &'a str) -> Result<Option<&'a str>, NoMemory> {
    for row in table.split('\n') {
        if !is_answered(alloc, asked, row)? {
            return Ok(Some(row));
        }
    }
    Ok(None)
}

const QUERIES: &str = "\
gEt a: yes
hmget k f g: yes
set a 1: no
mget a: no
ttl a: no
exists a: yes
exists a b: no
type a: yes
getrange a 0 x: no";

const CONTROLS: &str = "\
hello 3: yes
HELLO 3 x: no
quit: yes
quit now: no
shutdown nosave: yes
client tracking on bcast prefix a redirect -7: yes
client tracking on redirect 7 redirect 8: no
client tracking on redirect 9223372036854775808: no
client caching yes: yes
client id: no
get a: no";

const KEYS: &str = "\
mget a b a c b: 3
exists a a: 1
hmget k a b: 1
set a b: 0";

#[test]
fn queries_controls_and_keys_are_told_from_the_words(rt: HostRuntime) -> Result<(), Fail> {
    assert_eq!(rt; wrong_row(rt.alloc(), Asked::IsQuery, QUERIES)?, None);
    assert_eq!(rt; wrong_row(rt.alloc(), Asked::IsControl, CONTROLS)?, None);
    assert_eq!(rt; wrong_row(rt.alloc(), Asked::HowManyKeys, KEYS)?, None);
    Ok(())
}

const SAME: &str = "\
gEt a | get a: yes
get a | gEt a: yes
get a | get b: no
get a | set a 1: no
hmget k f g | HMGET k f g: yes
hmget k f g | hmget k g f: no
hmget k f g | hgetall k: no";

const KEYS_OF_QUERIES: &str = "\
gEt a | a: yes
hmget k f g | k: yes
hmget k f g | f: no";

#[test]
fn a_query_is_its_words_with_the_name_in_upper_case(rt: HostRuntime) -> Result<(), Fail> {
    let same = Asked::Two(AskedOfTwo::AreSame);
    assert_eq!(rt; wrong_row(rt.alloc(), same, SAME)?, None);
    let has_key = Asked::Two(AskedOfTwo::HasKey);
    assert_eq!(rt; wrong_row(rt.alloc(), has_key, KEYS_OF_QUERIES)?, None);
    Ok(())
}

const WRITTEN: &str = "\
set a 1 | a: yes
set a 1 | b: no
mset a 1 b 2 | b: yes
mset a 1 b 2 | 1: no
hset k a 1 | a: no
hset k a 1 | k: yes
rename a b | b: yes
flushdb | b: yes
mset a | a: no
get a | a: no";

#[test]
fn what_is_written_is_named(rt: HostRuntime) -> Result<(), Fail> {
    let writes = Asked::Two(AskedOfTwo::Writes);
    assert_eq!(rt; wrong_row(rt.alloc(), writes, WRITTEN)?, None);
    Ok(())
}
