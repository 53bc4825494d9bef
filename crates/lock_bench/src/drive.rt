//! Threads that raise a register, under the turn lock and under a mutex.
ghost use Rattle.std.specs.Thread.{IsSync};
ghost use Rattle.std.specs.Prelude.{◌≡◌, ◌*◌, ◌≤◌, min, IfOk};
ghost use Rattle.lock_bench.specs.Register.{RaisedBy};

use crate::register::{Ask, Register, mixed};
use std::alloc::Global;
use std::sync::{Mutex, Wait};
use std::thread::{Threads, join};
use turn_lock::{Closed, LAST_TICKET, Logged, NoMemory, Seat, TurnLock};

/// What each thread does: so many turns, and so many rounds of its own work before each.
#[derive(Clone, Copy)]
pub struct Share {
    pub turns: u64,
    pub own_rounds: u64,
}

/// Plays the turns of one thread, or fewer where no ticket is left.
fn play_share<R: Wait>(
    rt: &R,
    lock: &TurnLock<Register>,
    mut seat: Seat<Register>,
    share: Share,
) -> Seat<Register>
    requires seat { seat.lock ≡ lock.now }
    ensures { RaisedBy share.turns seat result }
{
    let mut own = 1;
    for _ in 0..share.turns {
        own = mixed(own, share.own_rounds);
        match lock.play(rt, &mut seat, Ask::Raise(own)) {
            Ok(_) => {}
            Err(_) => break,
        }
    }
    seat
}

/// That many threads play a share each, or less where no ticket is left.
pub fn play_in_threads<R: Threads + Wait + Sync>(
    rt: &R,
    lock: &TurnLock<Register>,
    mut seat: Seat<Register>,
    threads: u64,
    share: Share,
) -> Seat<Register>
    requires seat { seat.lock ≡ lock.now }
    requires threads { (1 ≤ threads) × (threads ≤ seat.parts) }
    ensures { RaisedBy (threads * share.turns) seat result }
{
    if threads == 1 {
        return play_share(rt, lock, seat, share);
    }
    let others = threads - 1;
    let other = lock.split(&mut seat, others);
    let (mut mine, theirs) = join(
        rt,
        || -> Seat<Register>
            requires { IsSync R.row × (seat.lock ≡ lock.now) }
            ensures { RaisedBy share.turns seat result }
        { play_share(rt, lock, seat, share) },
        || -> Seat<Register>
            requires { IsSync R.row × (other.lock ≡ lock.now)
                × (1 ≤ others) × (others ≤ other.parts) }
            ensures { RaisedBy (others * share.turns) other result }
        { play_in_threads(rt, lock, other, others, share) },
    );
    lock.join(&mut mine, theirs);
    mine
}

/// A lock whose register so many threads raised, each by its share, with so many rounds of work in
/// a turn. The threads stop where no ticket is left.
pub fn raised_in_turn<R: Threads + Wait + Sync>(
    rt: &R,
    alloc: Global,
    threads: u64,
    share: Share,
    rounds: u64,
) -> Result<Closed<Register>, NoMemory>
    requires { 1 ≤ threads }
    ensures tickets { IfOk result (λ c. c.tickets ≡ min (threads * share.turns) LAST_TICKET) }
    ensures value { IfOk result (λ c. c.state.value ≡ c.tickets) }
{
    let (lock, seat) = TurnLock::create(alloc, Register::new(0, rounds))?;
    let seat = play_in_threads(rt, &lock, seat, threads, share);
    match lock.close(seat) {
        Ok(closed) => Ok(closed),
        Err(_) => unreachable!(),
    }
}

fn raise_many<R: Wait>(rt: &R, mutex: &Mutex<Register>, share: Share) {
    let mut own = 1;
    for _ in 0..share.turns {
        own = mixed(own, share.own_rounds);
        mutex.lock(rt).turn(Ask::Raise(own));
    }
}

fn raise_under_mutex<R: Threads + Wait + Sync>(
    rt: &R,
    mutex: &Mutex<Register>,
    threads: u64,
    share: Share,
)
    requires { 1 ≤ threads }
{
    if threads == 1 {
        return raise_many(rt, mutex, share);
    }
    let others = threads - 1;
    join(
        rt,
        ||
            requires { IsSync R.row }
        { raise_many(rt, mutex, share) },
        ||
            requires { IsSync R.row × (1 ≤ others) }
        { raise_under_mutex(rt, mutex, others, share) },
    );
}

/// The value of a register that so many threads raised, each by its share and one by one, under
/// std's mutex.
pub fn raised_under_mutex<R: Threads + Wait + Sync>(
    rt: &R,
    threads: u64,
    share: Share,
    rounds: u64,
) -> u64
    requires { 1 ≤ threads }
{
    let mutex = Mutex::new(Register::new(0, rounds));
    raise_under_mutex(rt, &mutex, threads, share);
    mutex.into_inner().value
}
