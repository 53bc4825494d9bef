//! The rows of the commands on strings, in the words of their pages.
use super::rows::{all_leave_deadlines, holds, holds_anew, put_hash};
use keyspace::{Content, Held, Keyspace};
use resp_value::{NoMemory, Octets};
use std::alloc::Global;
use std::process::Abort;
use std::test::Fail;

// Keys that are missing, and keys that hold a string.
const ROWS: &str = "\
GET k: _ |
SET k v: +OK | k
GET k: $1 v |
SET k w NX: _ |
SET k w XX: +OK | k
SET z w XX: _ |
SET z w NX: +OK | z
SETNX k x: :0 |
SETNX n 1: :1 | n
SET e '': +OK | e
GET e: $0  |
APPEND a xy: :2 | a
APPEND a z: :3 | a
APPEND b '': :0 | b
STRLEN a: :3 |
STRLEN none: :0 |
GETRANGE a 0 -1: $3 xyz |
GETRANGE a -2 9: $2 yz |
GETRANGE a -1 -2: $0  |
GETRANGE a 2 1: $0  |
GETRANGE none 0 5: $0  |
GETDEL a: $3 xyz | a
GETDEL a: _ |
MSET p 1 q 2 p 3: +OK | p q
MGET p none q: *3 $1 3 _ $1 2 |
MSET p 4 k w: +OK | p k
MGET p k: *2 $1 4 $1 w |";

#[test]
fn each_command_replies_and_signals_by_its_row(rt: HostRuntime) -> Result<(), Fail> {
    holds_anew(&rt, rt.alloc(), ROWS)
}

// Both ends of 64 bits, and what is no number.
const NUMBER_ROWS: &str = "\
INCR c: :1 | c
DECR c: :0 | c
INCRBY c 5: :5 | c
DECRBY c 7: :-2 | c
GET c: $2 -2 |
SET m 9223372036854775807: +OK | m
INCR m: -ERR increment or decrement would overflow |
GET m: $19 9223372036854775807 |
SET m -9223372036854775808: +OK | m
DECR m: -ERR increment or decrement would overflow |
INCR m: :-9223372036854775807 | m
DECRBY none -9223372036854775808: -ERR increment or decrement would overflow |
SET k 01: +OK | k
INCR k: -ERR value is not an integer or out of range |
DECR n: :-1 | n
INCRBY o 4: :4 | o
DECRBY p 3: :-3 | p";

#[test]
fn numbers_end_at_64_bits(rt: HostRuntime) -> Result<(), Fail> {
    holds_anew(&rt, rt.alloc(), NUMBER_ROWS)
}

// A hash is under `h`; SET and MSET overwrite it.
const WRONG_TYPE_ROWS: &str = "\
GET h: -WRONGTYPE Operation against a key holding the wrong kind of value |
GETDEL h: -WRONGTYPE Operation against a key holding the wrong kind of value |
APPEND h x: -WRONGTYPE Operation against a key holding the wrong kind of value |
STRLEN h: -WRONGTYPE Operation against a key holding the wrong kind of value |
GETRANGE h 0 1: -WRONGTYPE Operation against a key holding the wrong kind of value |
INCR h: -WRONGTYPE Operation against a key holding the wrong kind of value |
DECR h: -WRONGTYPE Operation against a key holding the wrong kind of value |
INCRBY h 2: -WRONGTYPE Operation against a key holding the wrong kind of value |
DECRBY h 2: -WRONGTYPE Operation against a key holding the wrong kind of value |
SETNX h x: :0 |
SET h x EX 5 NX: _ |
SET none x PX 5 XX: _ |
MGET h: *1 _ |
DECRBY h -9223372036854775808: -ERR increment or decrement would overflow |
SET h x: +OK | h";

fn refuses_a_hash<R: Abort>(rt: &R, alloc: Global, space: &mut Keyspace) -> Result<(), Fail> {
    put_hash(alloc, space, b"h")?;
    holds(rt, alloc, space, WRONG_TYPE_ROWS)?;
    put_hash(alloc, space, b"h")?;
    holds(rt, alloc, space, "MSET h x: +OK | h\nGET h: $1 x |")
}

#[test]
fn a_hash_is_of_the_wrong_type(rt: HostRuntime) -> Result<(), Fail> {
    let mut space = Keyspace::new(rt.alloc());
    refuses_a_hash(&rt, rt.alloc(), &mut space)
}

// Each row with the deadline that the key then has.
const DEADLINE_ROWS: &str = "\
SET d 1 EX 10: +OK | d; 11000
SET d 2 KEEPTTL: +OK | d; 11000
APPEND d 3: :2 | d; 11000
INCR d: :24 | d; 11000
SET d 5 PX 7: +OK | d; 1007
SET d 6 EX 9 NX: _ |; 1007
SET d 6 PX 9 XX: +OK | d; 1009
SET d 6: +OK | d; none";

fn leaves_deadlines<R: Abort>(rt: &R, alloc: Global, space: &mut Keyspace) -> Result<(), Fail> {
    put_hash(alloc, space, b"d")?;
    all_leave_deadlines(rt, alloc, space, b"d", DEADLINE_ROWS)
}

#[test]
fn set_leaves_the_deadline_of_its_option(rt: HostRuntime) -> Result<(), Fail> {
    let mut space = Keyspace::new(rt.alloc());
    leaves_deadlines(&rt, rt.alloc(), &mut space)
}

// A mebibyte under `big`.
const BIG_ROWS: &str = "\
APPEND big y: :1048577 | big
STRLEN big: :1048577 |
GETRANGE big -2 -1: $2 xy |";

fn mebibyte(alloc: Global) -> Result<Octets, NoMemory> {
    let mut bytes = Vec::new(alloc);
    for _byte in 0..1048576 {
        bytes.push(b'x')?;
    }
    Ok(Octets::from_vec(bytes))
}

fn put_mebibyte(alloc: Global, space: &mut Keyspace, key: &[u8]) -> Result<(), NoMemory> {
    let held = Held {
        content: Content::Text(mebibyte(alloc)?),
        deadline: None,
    };
    space.put(key, held)
}

fn grows<R: Abort>(rt: &R, alloc: Global, space: &mut Keyspace) -> Result<(), Fail> {
    put_mebibyte(alloc, space, b"big")?;
    holds(rt, alloc, space, BIG_ROWS)
}

#[test]
fn a_value_of_a_mebibyte_grows_by_one_byte(rt: HostRuntime) -> Result<(), Fail> {
    let mut space = Keyspace::new(rt.alloc());
    grows(&rt, rt.alloc(), &mut space)
}
