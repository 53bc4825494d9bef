//! The rows of the commands on hashes, in the words of their pages.
use super::rows::{all_leave_deadlines, holds, words_of};
use keyspace::Keyspace;
use std::alloc::Global;
use std::process::Abort;
use std::test::Fail;

// Fields that are missing, new and old, in the order in which they came.
const ROWS: &str = "\
HGET h f: _ |
HSET h a 1 b 2: :2 | h
HSET h a 3 c 4: :1 | h
HGET h a: $1 3 |
HMGET h a zz: *2 $1 3 _ |
HVALS h: *3 $1 3 $1 2 $1 4 |
HDEL h b zz b: :1 | h
HKEYS h: *2 $1 a $1 c |
HGETALL h: %2 $1 a $1 3 $1 c $1 4 |
HLEN h: :2 |
HEXISTS h a: :1 |
HEXISTS h b: :0 |
HDEL h zz: :0 |
HSET h '' '': :1 | h
HGET h '': $0  |
HDEL h '' a c: :3 | h
HINCRBY i f 1: :1 | i
HINCRBY i f -3: :-2 | i
HSET i m 9223372036854775807 x 01: :2 | i
HINCRBY i m 1: -ERR increment or decrement would overflow |
HINCRBY i x 1: -ERR hash value is not an integer |
HVALS i: *3 $2 -2 $19 9223372036854775807 $2 01 |";

// The hash under `h`, without a field, goes.
fn replies<R: Abort>(rt: &R, alloc: Global, space: &mut Keyspace) -> Result<(), Fail> {
    holds(rt, alloc, space, ROWS)?;
    assert!(rt; space.get(b"h").is_none(), "a hash without fields goes");
    Ok(())
}

#[test]
fn each_command_replies_and_signals_by_its_row(rt: HostRuntime) -> Result<(), Fail> {
    let mut space = Keyspace::new(rt.alloc());
    replies(&rt, rt.alloc(), &mut space)
}

// A missing key is a hash without fields.
const MISSING_ROWS: &str = "\
HMGET h a b: *2 _ _ |
HGETALL h: %0 |
HKEYS h: *0 |
HVALS h: *0 |
HLEN h: :0 |
HEXISTS h a: :0 |
HDEL h a: :0 |";

fn stays_empty<R: Abort>(rt: &R, alloc: Global, space: &mut Keyspace) -> Result<(), Fail> {
    holds(rt, alloc, space, MISSING_ROWS)?;
    assert_eq!(rt; space.len(), 0);
    Ok(())
}

#[test]
fn a_missing_key_is_a_hash_without_fields(rt: HostRuntime) -> Result<(), Fail> {
    let mut space = Keyspace::new(rt.alloc());
    stays_empty(&rt, rt.alloc(), &mut space)
}

// A string is under `k`.
const WRONG_TYPE_ROWS: &str = "\
HSET k f v: -WRONGTYPE Operation against a key holding the wrong kind of value |
HGET k f: -WRONGTYPE Operation against a key holding the wrong kind of value |
HMGET k f: -WRONGTYPE Operation against a key holding the wrong kind of value |
HGETALL k: -WRONGTYPE Operation against a key holding the wrong kind of value |
HDEL k f: -WRONGTYPE Operation against a key holding the wrong kind of value |
HLEN k: -WRONGTYPE Operation against a key holding the wrong kind of value |
HEXISTS k f: -WRONGTYPE Operation against a key holding the wrong kind of value |
HKEYS k: -WRONGTYPE Operation against a key holding the wrong kind of value |
HVALS k: -WRONGTYPE Operation against a key holding the wrong kind of value |
HINCRBY k f 1: -WRONGTYPE Operation against a key holding the wrong kind of value |";

fn refuses_a_string<R: Abort>(rt: &R, alloc: Global, space: &mut Keyspace) -> Result<(), Fail> {
    space.put_texts(words_of(alloc, "k 1")?.as_slice())?;
    holds(rt, alloc, space, WRONG_TYPE_ROWS)
}

#[test]
fn a_string_is_of_the_wrong_type(rt: HostRuntime) -> Result<(), Fail> {
    let mut space = Keyspace::new(rt.alloc());
    refuses_a_string(&rt, rt.alloc(), &mut space)
}

// Each row with the deadline that the key then has.
const DEADLINE_ROWS: &str = "\
HSET h a 2 b 3: :1 | h; 9000
HINCRBY h a 1: :3 | h; 9000
HDEL h b: :1 | h; 9000";

fn keeps_deadline<R: Abort>(rt: &R, alloc: Global, space: &mut Keyspace) -> Result<(), Fail> {
    holds(rt, alloc, space, "HSET h a 1: :1 | h")?;
    assert!(rt; space.set_deadline(b"h", Some(9000)));
    all_leave_deadlines(rt, alloc, space, b"h", DEADLINE_ROWS)
}

#[test]
fn a_hash_keeps_its_deadline(rt: HostRuntime) -> Result<(), Fail> {
    let mut space = Keyspace::new(rt.alloc());
    keeps_deadline(&rt, rt.alloc(), &mut space)
}
