//! What no clause can say: the calls succeed, and the fields stand in the order of the pages.
use super::rows::words_of;
use keyspace::{Content, Fields, Held, Keyspace};
use resp_value::{NoMemory, Octets};
use std::alloc::Global;
use std::process::Abort;
use std::test::Fail;

/// A step and what it has to show, where the step is two words or more and a colon ends it.
fn parts_of(row: &str) -> Option<(&str, &str, &str)> {
    let (step, wanted) = row.split_once(": ")?;
    let (name, rest) = step.split_once(' ')?;
    Some((name, rest, wanted))
}

// What is done in turn to a hash, the number that it answers, and the fields with their values.
const FIELD_STEPS: &str = "\
all a 1 b 2 c 3 a 4: 3 a4 b2 c3
empty a: 0 a b2 c3
remove b: 1 a c3
remove zz: 0 a c3
get b: 0 a c3
get c: 1 a c3
empty b: 1 a c3 b";

fn play_fields(
    alloc: Global,
    fields: &mut Fields,
    name: &str,
    words: &str,
) -> Result<u64, NoMemory> {
    match name {
        "all" => fields.set_all(words_of(alloc, words)?.as_slice()),
        "empty" => Ok(fields.set(words.as_bytes(), Octets::from_slice(alloc, b"")?)? as u64),
        "remove" => Ok(fields.remove(words.as_bytes()) as u64),
        _ => Ok(fields.get(words.as_bytes()).is_some() as u64),
    }
}

fn put_digit(number: u64, line: &mut Vec<u8>) -> Result<(), NoMemory> {
    line.push(b'0' + (number % 10) as u8)?;
    Ok(())
}

fn put_field(name: &[u8], value: &[u8], line: &mut Vec<u8>) -> Result<(), NoMemory> {
    line.push(b' ')?;
    line.extend_from_slice(name)?;
    line.extend_from_slice(value)?;
    Ok(())
}

fn put_fields(fields: &Fields, line: &mut Vec<u8>) -> Result<(), NoMemory> {
    for place in 0..fields.len() {
        if let Some((name, value)) = fields.at(place as usize) {
            put_field(name, value.as_slice(), line)?;
        }
    }
    Ok(())
}

fn put_step(
    alloc: Global,
    fields: &mut Fields,
    name: &str,
    words: &str,
    line: &mut Vec<u8>,
) -> Result<(), NoMemory> {
    put_digit(play_fields(alloc, fields, name, words)?, line)?;
    put_fields(fields, line)
}

fn shows_fields(alloc: Global, fields: &mut Fields, row: &str) -> Result<bool, NoMemory> {
    let Some((name, words, wanted)) = parts_of(row) else {
        return Ok(false);
    };
    let mut line = Vec::new(alloc);
    put_step(alloc, fields, name, words, &mut line)?;
    Ok(line.as_slice() == wanted.as_bytes())
}

fn all_show_fields<R: Abort>(rt: &R, alloc: Global, fields: &mut Fields) -> Result<(), Fail> {
    for row in FIELD_STEPS.lines() {
        assert!(rt; shows_fields(alloc, fields, row)?, "{row}");
    }
    Ok(())
}

#[test]
fn a_removal_keeps_the_order_of_the_others(rt: HostRuntime) -> Result<(), Fail> {
    let mut fields = Fields::new(rt.alloc());
    all_show_fields(&rt, rt.alloc(), &mut fields)
}

// What is done in turn to a keyspace, how many keys it then has, and what `k`, `l` and `m` hold: a
// text, or `#` for a hash, and `!` where it has the deadline 9.
const KEY_STEPS: &str = "\
texts k 1 l 2 k 3: 2 k3 l2
live k: 2 k3! l2
hash k: 2 k#! l2
hash m: 2 k#! l2
texts m 5: 3 k#! l2 m5
take l: 2 k#! m5
take l: 2 k#! m5
clear -: 0
live m: 0
texts m 6: 1 m6";

fn play_keys(alloc: Global, space: &mut Keyspace, name: &str, words: &str) -> Result<(), NoMemory> {
    match name {
        "texts" => space.put_texts(words_of(alloc, words)?.as_slice())?,
        "live" => {
            space.set_deadline(words.as_bytes(), Some(9));
        }
        "hash" => {
            if let Some(content) = space.content_mut(words.as_bytes()) {
                *content = Content::Fields(Fields::new(alloc));
            }
        }
        "take" => {
            let _ = space.take(words.as_bytes());
        }
        _ => space.clear(),
    }
    Ok(())
}

fn put_held(held: &Held, line: &mut Vec<u8>) -> Result<(), NoMemory> {
    match &held.content {
        Content::Text(text) => line.extend_from_slice(text.as_slice())?,
        Content::Fields(_) => line.push(b'#')?,
    }
    if held.deadline == Some(9) {
        line.push(b'!')?;
    }
    Ok(())
}

fn put_key(space: &Keyspace, key: &[u8], line: &mut Vec<u8>) -> Result<(), NoMemory> {
    let Some(held) = space.get(key) else {
        return Ok(());
    };
    line.push(b' ')?;
    line.extend_from_slice(key)?;
    put_held(held, line)
}

fn put_keys(space: &Keyspace, line: &mut Vec<u8>) -> Result<(), NoMemory> {
    put_digit(space.len(), line)?;
    put_key(space, b"k", line)?;
    put_key(space, b"l", line)?;
    put_key(space, b"m", line)
}

fn shows_keys(alloc: Global, space: &mut Keyspace, row: &str) -> Result<bool, NoMemory> {
    let Some((name, words, wanted)) = parts_of(row) else {
        return Ok(false);
    };
    play_keys(alloc, space, name, words)?;
    let mut line = Vec::new(alloc);
    put_keys(space, &mut line)?;
    Ok(line.as_slice() == wanted.as_bytes())
}

fn all_show_keys<R: Abort>(rt: &R, alloc: Global, space: &mut Keyspace) -> Result<(), Fail> {
    for row in KEY_STEPS.lines() {
        assert!(rt; shows_keys(alloc, space, row)?, "{row}");
    }
    Ok(())
}

#[test]
fn a_key_holds_what_was_put_last(rt: HostRuntime) -> Result<(), Fail> {
    let mut space = Keyspace::new(rt.alloc());
    all_show_keys(&rt, rt.alloc(), &mut space)
}
