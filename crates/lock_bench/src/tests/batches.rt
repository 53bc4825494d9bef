//! A batch of turns on a state that refuses calls.
ghost use Rattle.std.specs.Prelude.{◌≡◌, not, ⊤};

use std::test::*;
use turn_lock::{Logged, Refusing, TurnLock};

/// A call for one of what is left.
#[derive(Drop)]
struct Want;

/// A stock, and how many calls were played on it.
#[derive(Drop)]
struct Stock {
    left: u64,
    asked: u64,
}

impl Logged for Stock {
    type Setup = u64;

    type Entry = u64;

    type Call = Want;

    type Reply = bool;

    ghost setup = { λ _. 0 };

    ghost stands = { λ _ _. ⊤ };

    ghost fits = { λ _ _. ⊤ };

    ghost step = { λ _ _ _ _ _. ⊤ };

    fn turn(&mut self, _call: Want) -> bool {
        self.asked = self.asked.wrapping_add(1);
        match self.left.checked_sub(1) {
            Some(left) => {
                self.left = left;
                true
            }
            None => false,
        }
    }
}

/// A call is refused where nothing is left.
impl Refusing for Stock {
    ghost refuses = { λ reply. not reply };

    ghost refusable = { λ _. ⊤ };

    fn is_refusal(reply: &bool) -> bool {
        !*reply
    }

    fn refuse(&self, _call: Want) -> bool {
        false
    }
}

#[test]
fn calls_behind_one_that_is_refused_are_not_played(rt: HostRuntime) {
    let alloc = rt.alloc();
    let stock = Stock { left: 2, asked: 0 };
    let (lock, mut seat) = TurnLock::create(alloc, stock).expect(&rt, "memory");
    let calls = vec![in alloc; Want, Want, Want, Want, Want].expect(&rt, "memory");
    let replies = lock
        .play_all(&rt, alloc, &mut seat, calls)
        .ok()
        .expect(&rt, "memory and tickets");
    assert_eq!(rt;
        replies.as_slice(),
        [true, true, false, false, false].as_slice()
    );
    let none = lock
        .play_all(&rt, alloc, &mut seat, Vec::new(alloc))
        .ok()
        .expect(&rt, "no memory and no ticket");
    assert!(rt; none.is_empty());
    let closed = lock.close(seat).ok().expect(&rt, "all seats are joined");
    assert_eq!(rt; (closed.tickets(), closed.state().asked), (5, 3));
}
