//! Which calls a turn takes, and which limits a server can have.
use resp_value::Words;
use serial_model::{BookCall, Limits};
use std::alloc::Global;
use std::test::Fail;

fn run(alloc: Global) -> BookCall {
    BookCall::Run {
        id: 0,
        words: Words::new(alloc),
        now: 0,
    }
}

fn is_callable(call: BookCall) -> bool {
    call.is_callable()
}

#[test]
fn a_take_of_no_byte_alone_is_not_callable(rt: HostRuntime) -> Result<(), Fail> {
    assert!(rt; is_callable(BookCall::Admit));
    assert!(rt; is_callable(run(rt.alloc())));
    assert!(rt; !is_callable(BookCall::Take { id: 1, max: 0 }));
    assert!(rt; is_callable(BookCall::Take { id: 1, max: 1 }));
    Ok(())
}

fn are_valid(table_max: u64, out_max: u64, history_max: u64) -> bool {
    let limits = Limits {
        table_max,
        out_max,
        history_max,
    };
    limits.are_valid()
}

#[test]
fn a_limit_of_none_is_not_valid(rt: HostRuntime) -> Result<(), Fail> {
    assert!(rt; are_valid(1, 1, 1));
    assert!(rt; !are_valid(0, 1, 1));
    assert!(rt; !are_valid(1, 0, 1));
    assert!(rt; !are_valid(1, 1, 0));
    Ok(())
}
