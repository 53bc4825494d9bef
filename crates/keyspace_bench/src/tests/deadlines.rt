//! An index of deadlines against a worked example.
use expiry::DeadlineIndex;
use resp_value::NoMemory;
use std::alloc::Global;
use std::process::Abort;
use std::test::Fail;

// What is done in turn, and the keys with a deadline before 9, each behind its deadline; behind the
// strokes the first before 3 and the first before 4.
const STEPS: &str = "\
set 5 b: 5b//
set 5 a: 5a5b//
set 3 z: 3z5a5b//3z
set 5 a: 3z5a5b//3z
set 9 -: 3z5a5b//3z
set 2 y: 2y3z5a5b/2y/2y
unset 2 y: 3z5a5b//3z
unset 5 b: 3z5a//3z
unset 5 b: nothing
drop 5 -: 5a//
clear 0 -: //";

fn put_deadline(at: u64, key: &[u8], line: &mut Vec<u8>) -> Result<(), NoMemory> {
    line.push(b'0' + (at % 10) as u8)?;
    line.extend_from_slice(key)?;
    Ok(())
}

fn put_first(index: &DeadlineIndex, moment: u64, line: &mut Vec<u8>) -> Result<(), NoMemory> {
    line.push(b'/')?;
    if let Some((at, key)) = index.first_due(moment) {
        put_deadline(at, key, line)?;
    }
    Ok(())
}

fn put_all(index: &DeadlineIndex, line: &mut Vec<u8>) -> Result<(), NoMemory> {
    for block in index.due_blocks(9) {
        for deadline in block.due(9) {
            put_deadline(deadline.at, deadline.key.as_slice(), line)?;
        }
    }
    put_first(index, 3, line)?;
    put_first(index, 4, line)
}

fn shown(alloc: Global, index: &DeadlineIndex) -> Result<Vec<u8>, NoMemory> {
    let mut line = Vec::new(alloc);
    put_all(index, &mut line)?;
    Ok(line)
}

/// Does a step, and says whether it did something.
fn play(index: &mut DeadlineIndex, name: &str, at: u64, key: &[u8]) -> Result<bool, NoMemory> {
    match name {
        "set" => index.set(at, key)?,
        "unset" => return Ok(index.unset(at, key)),
        "drop" => index.drop_due(at),
        _ => index.clear(),
    }
    Ok(true)
}

fn is_shown(alloc: Global, index: &mut DeadlineIndex, row: &str) -> Result<bool, NoMemory> {
    let Some((step, wanted)) = row.split_once(": ") else {
        return Ok(false);
    };
    let Some((name, rest)) = step.split_once(' ') else {
        return Ok(false);
    };
    let Some((at, key)) = rest.split_once(' ') else {
        return Ok(false);
    };
    if !play(index, name, at.parse().unwrap_or(0), key.as_bytes())? {
        return Ok(wanted == "nothing");
    }
    Ok(shown(alloc, index)?.as_slice() == wanted.as_bytes())
}

fn all_are_shown<R: Abort>(rt: &R, alloc: Global, index: &mut DeadlineIndex) -> Result<(), Fail> {
    for row in STEPS.lines() {
        assert!(rt; is_shown(alloc, index, row)?, "{row}");
    }
    assert_eq!(rt; index.due_blocks(u64::MAX).len(), 0);
    Ok(())
}

#[test]
fn deadlines_come_by_moment_and_then_by_key(rt: HostRuntime) -> Result<(), Fail> {
    let mut index = DeadlineIndex::new(rt.alloc());
    all_are_shown(&rt, rt.alloc(), &mut index)
}
