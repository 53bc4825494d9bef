//! A queue of messages against worked examples.
use out_queue::OutQueue;
use resp_value::{NoMemory, Proto, Value};
use std::alloc::Global;
use std::process::Abort;
use std::test::Fail;

/// Takes so many bytes, as its number says, and whether they are the text behind it.
fn takes(queue: &mut OutQueue, wanted: &str) -> Result<bool, NoMemory> {
    let (most, text) = wanted.split_once(' ').unwrap_or((wanted, ""));
    let taken = queue.take_bytes(most.parse().unwrap_or(0))?;
    Ok(taken.as_slice() == text.as_bytes())
}

/// Does a step, and says whether it gave what the step says.
fn gives(queue: &mut OutQueue, name: &str, rest: &str) -> Result<bool, NoMemory> {
    let number = rest.parse().unwrap_or(0);
    match name {
        "add" => queue.add(rest.as_bytes())?,
        "null-2" => return Ok(queue.add_value(Proto::Two, &Value::Null)? == number),
        "null-3" => return Ok(queue.add_value(Proto::Three, &Value::Null)? == number),
        "keep" => queue.keep(number as usize),
        "drop" => queue.drop_all(),
        "take" => return takes(queue, rest),
        "size" => return Ok(queue.size() == number),
        "over" => return Ok(queue.is_over(number)),
        "within" => return Ok(!queue.is_over(number)),
        _ => return Ok(false),
    }
    Ok(true)
}

fn play<R: Abort>(rt: &R, queue: &mut OutQueue, steps: &str) -> Result<(), Fail> {
    for step in steps.split('|') {
        let (name, rest) = step.split_once(' ').unwrap_or((step, ""));
        assert!(rt; gives(queue, name, rest)?, "{step}");
    }
    Ok(())
}

fn plays<R: Abort>(rt: &R, alloc: Global, steps: &str) -> Result<(), Fail> {
    let mut queue = OutQueue::new(alloc);
    play(rt, &mut queue, steps)
}

#[test]
fn a_queue_is_over_its_limit_where_it_has_one_byte_more(rt: HostRuntime) -> Result<(), Fail> {
    plays(
        &rt,
        rt.alloc(),
        "add +OK\r\n|add $1\r\na\r\n|size 12|over 11|within 12|within 13",
    )
}

#[test]
fn bytes_are_taken_across_messages(rt: HostRuntime) -> Result<(), Fail> {
    plays(
        &rt,
        rt.alloc(),
        "add +OK\r\n|add |add :1\r\n|take 0|take 7 +OK\r\n:1|size 2|take 7 \r\n|within 0",
    )
}

#[test]
fn the_message_that_was_added_last_can_be_taken_back(rt: HostRuntime) -> Result<(), Fail> {
    plays(
        &rt,
        rt.alloc(),
        "add abc|add de|keep 3|take 9 abc|add f|drop|size 0",
    )
}

#[test]
fn a_value_is_added_as_it_is_spelled(rt: HostRuntime) -> Result<(), Fail> {
    plays(
        &rt,
        rt.alloc(),
        "add +OK\r\n|null-2 5|null-3 3|take 20 +OK\r\n$-1\r\n_\r\n",
    )
}
