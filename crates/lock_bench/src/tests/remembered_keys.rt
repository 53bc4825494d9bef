//! A table of remembered keys against a worked example.
use resp_value::{NoMemory, Octets, Words};
use std::alloc::Global;
use std::test::Fail;
use track_table::TrackTable;

// What is done in turn to a table with a limit of two keys, and what it then shows: how many keys
// were new to the connection where that is told, how many there are, each with the connections that
// hold it, and behind the stroke those past the limit.
const STEPS: &str = "\
one 9 a: 0 1 a9 /
one 1 b: 0 2 a9 b1 /
one 4 a: 0 2 a49 b1 /
one 9 b: 0 2 a49 b19 /
one 4 a: 0 2 a49 b19 /
one 7 c: 0 3 a49 b19 c7 /a
forget 0 a: 0 2 b19 c7 /
one 7 a: 0 3 a7 b19 c7 /b
leave 9 -: 0 3 a7 b1 c7 /b
leave 1 -: 0 2 a7 c7 /
clear 0 -: 0 0 /
one 9 a: 0 1 a9 /
one 4 b: 0 2 a9 b4 /
back 9 b a c c d: 3 2 a9 b4 /
all 9 b a c c d: 3 4 a9 b49 c9 d9 /ab
drop 0 -: 0 2 c9 d9 /
all 1 d c: 2 2 c19 d19 /";

// Keys that are set aside, and what the table then shows.
const ASIDE: &str = "\
a: 0 3 b19 c7 d79 /b
c: 0 3 a9 b19 d79 /a
d b: 0 2 a9 c7 /
c d: 0 2 a9 b19 /
b e c a d: 0 0 /
e: 0 4 a9 b19 c7 d79 /ab";

// What it shows once they are back, and one key more is remembered.
const BACK: &str = "0 5 a9 b19 c7 d79 /abc";

fn keys_of(alloc: Global, words: &str) -> Result<Words, NoMemory> {
    let mut keys = Words::new(alloc);
    for word in words.split(' ') {
        keys.push(Octets::from_slice(alloc, word.as_bytes())?)?;
    }
    Ok(keys)
}

/// A connection remembers the keys, and `back` takes back those that were new.
fn remember(
    alloc: Global,
    table: &mut TrackTable,
    id: u64,
    words: &str,
    back: bool,
) -> Result<u64, NoMemory> {
    let new = table.remember_all(id, keys_of(alloc, words)?.as_slice())?;
    if back {
        table.release_all(id, new.as_slice());
    }
    Ok(new.as_slice().len() as u64)
}

/// Does a step, and says how many keys were new where it remembers several.
fn play(alloc: Global, table: &mut TrackTable, step: &str) -> Result<u64, NoMemory> {
    let Some((name, rest)) = step.split_once(' ') else {
        return Ok(9);
    };
    let Some((id, keys)) = rest.split_once(' ') else {
        return Ok(9);
    };
    let id = id.parse().unwrap_or(0);
    match name {
        "one" => table.remember(id, keys.as_bytes())?,
        "forget" => table.forget_key(keys.as_bytes()),
        "leave" => table.forget_connection(id),
        "drop" => table.drop_over_limit(),
        "clear" => table.clear(),
        _ => return remember(alloc, table, id, keys, name == "back"),
    }
    Ok(0)
}

fn put_digit(number: u64, line: &mut Vec<u8>) -> Result<(), NoMemory> {
    line.push(b'0' + (number % 10) as u8)?;
    Ok(())
}

fn put_key(key: &str, holders: &[u64], line: &mut Vec<u8>) -> Result<(), NoMemory> {
    if holders.is_empty() {
        return Ok(());
    }
    line.extend_from_slice(key.as_bytes())?;
    for id in holders {
        put_digit(*id, line)?;
    }
    line.push(b' ')?;
    Ok(())
}

fn put_keys(table: &TrackTable, line: &mut Vec<u8>) -> Result<(), NoMemory> {
    for key in "a b c d".split(' ') {
        put_key(key, table.holders(key.as_bytes()), line)?;
    }
    line.push(b'/')?;
    for row in table.over_limit() {
        line.extend_from_slice(row.key())?;
    }
    Ok(())
}

fn shown(alloc: Global, table: &TrackTable, new: u64) -> Result<Vec<u8>, NoMemory> {
    let mut line = Vec::new(alloc);
    put_digit(new, &mut line)?;
    line.push(b' ')?;
    put_digit(table.len(), &mut line)?;
    line.push(b' ')?;
    put_keys(table, &mut line)?;
    Ok(line)
}

fn is_shown(alloc: Global, table: &mut TrackTable, row: &str) -> Result<bool, NoMemory> {
    let Some((step, wanted)) = row.split_once(": ") else {
        return Ok(false);
    };
    let new = play(alloc, table, step)?;
    Ok(shown(alloc, table, new)?.as_slice() == wanted.as_bytes())
}

#[test]
fn a_key_is_as_old_as_it_is_held_without_a_break(rt: HostRuntime) -> Result<(), Fail> {
    let mut table = TrackTable::new(rt.alloc(), 2);
    for row in STEPS.lines() {
        assert!(rt; is_shown(rt.alloc(), &mut table, row)?, "{row}");
    }
    Ok(())
}

/// A table of four keys, two of which are past its limit.
fn four_keys(alloc: Global) -> Result<TrackTable, NoMemory> {
    let mut table = TrackTable::new(alloc, 2);
    for (id, key) in [(9, "a"), (1, "b"), (9, "b"), (7, "c"), (9, "d"), (7, "d")] {
        table.remember(id, key.as_bytes())?;
    }
    Ok(table)
}

/// Whether the table shows what it should without these keys, and once they are put back.
fn goes_back(alloc: Global, row: &str) -> Result<bool, NoMemory> {
    let Some((keys, wanted)) = row.split_once(": ") else {
        return Ok(false);
    };
    let mut table = four_keys(alloc)?;
    let before = table.len();
    let aside = table.set_aside(keys_of(alloc, keys)?.as_slice())?;
    let without = shown(alloc, &table, 0)?;
    table.put_back(aside);
    let whole = table.len() == before;
    table.remember(9, b"e")?;
    let back = shown(alloc, &table, 0)?;
    Ok(whole && without.as_slice() == wanted.as_bytes() && back.as_slice() == BACK.as_bytes())
}

#[test]
fn keys_that_were_set_aside_go_back_to_their_places(rt: HostRuntime) -> Result<(), Fail> {
    for row in ASIDE.lines() {
        assert!(rt; goes_back(rt.alloc(), row)?, "{row}");
    }
    Ok(())
}
