//! Marks over ample memory.
use command_words::Query;
use fill_mark::Marks;
use resp_value::{Octets, Words};
use std::alloc::{AllocError, Global};
use std::process::Abort;
use std::test::Fail;

fn get(alloc: Global, key: &str) -> Result<Query, Fail> {
    let mut words = Words::new(alloc);
    words.push(Octets::from_slice(alloc, b"get".as_slice())?)?;
    words.push(Octets::from_slice(alloc, key.as_bytes())?)?;
    Ok(Query::read(alloc, &words)?.ok_or("no query")?)
}

/// The key of a query, or `-` where there is none.
fn key_of(alloc: Global, query: Option<&Query>) -> Result<Vec<u8>, AllocError> {
    match query {
        Some(query) => Vec::from_slice(alloc, query.key()),
        None => Vec::from_slice(alloc, b"-"),
    }
}

/// Does a step, and gives the key of the query that it gave.
fn play(
    alloc: Global,
    marks: &mut Marks,
    name: &str,
    number: u64,
    key: &str,
) -> Result<Vec<u8>, Fail> {
    match name {
        "begin" => marks.begin(number, get(alloc, key)?)?,
        "void" => marks.void_key(key.as_bytes()),
        "all" => marks.void_all(),
        "settle" => return Ok(key_of(alloc, marks.settle(number).as_ref())?),
        _ => return Ok(key_of(alloc, marks.query_of(number))?),
    }
    Ok(key_of(alloc, None)?)
}

fn gives(alloc: Global, marks: &mut Marks, row: &str) -> Result<bool, Fail> {
    let Some((step, wanted)) = row.split_once(": ") else {
        return Ok(false);
    };
    let Some((name, rest)) = step.split_once(' ') else {
        return Ok(false);
    };
    let Some((number, key)) = rest.split_once(' ') else {
        return Ok(false);
    };
    let given = play(alloc, marks, name, number.parse().unwrap_or(0), key)?;
    Ok(given.as_slice() == wanted.as_bytes())
}

fn play_rows<R: Abort>(rt: &R, alloc: Global, marks: &mut Marks, table: &str) -> Result<(), Fail> {
    for row in table.lines() {
        assert!(rt; gives(alloc, marks, row)?, "{row}");
    }
    Ok(())
}

fn plays<R: Abort>(rt: &R, alloc: Global, table: &str) -> Result<(), Fail> {
    let mut marks = Marks::new(alloc);
    play_rows(rt, alloc, &mut marks, table)
}

// A step with a number and a key, and the key of the query that it gives.
const IN_TURN: &str = "\
begin 3 a: -
begin 4 b: -
begin 5 a: -
query 3 -: -
settle 4 -: b
settle 4 -: -
void 0 b: -
query 5 -: a
void 0 a: -
settle 5 -: -
begin 6 a: -
all 0 -: -
settle 6 -: -";

#[test]
fn a_mark_is_there_until_it_is_settled_or_voided(rt: HostRuntime) -> Result<(), Fail> {
    plays(&rt, rt.alloc(), IN_TURN)
}

const IN_ANY_ORDER: &str = "\
begin 8 a: -
begin 7 b: -
begin 9 b: -
query 7 -: -
settle 9 -: b
begin 10 a: -
query 8 -: -
settle 10 -: a";

#[test]
fn numbers_may_come_in_any_order(rt: HostRuntime) -> Result<(), Fail> {
    plays(&rt, rt.alloc(), IN_ANY_ORDER)
}
