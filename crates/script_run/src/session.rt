//! A session: a pump for each of the client's links and the script's callers, side by side.
ghost use Rattle.std.specs.Prelude.{◌≡◌, ◌<◌, ◌≤◌, [], IfOk, is_some, option_map, true};
ghost use Rattle.std.specs.Prelude.{vec_capacity};
ghost use Rattle.std.specs.List.{All};
ghost use Rattle.std.specs.Thread.{IsSync};
ghost use Rattle.turn_lock.specs.Own.{IsWithin, past_of, turns_of};
ghost use Rattle.shared_cache.specs.declared.log.Wire.TheVariants.{Main, Side};
ghost use Rattle.shared_cache.specs.ClientFields.{IsClientMode};
ghost use Rattle.shared_client.specs.Setups.{setup_of};
ghost use Rattle.shared_client.specs.Turns.{IsLinked, setup_at};
ghost use Rattle.script_text.specs.Scripts.{IsValidLine, most_threads};
ghost use Rattle.client_link.specs.Pumps.{EndCounts, Pumps};
ghost use Rattle.script_run.specs.Complete.{Completes};
ghost use Rattle.script_run.specs.Reports.{ends_of};
ghost use Rattle.script_run.specs.Session.{Session, is_pair};
ghost use Rattle.script_run.specs.Ends.{Calls, Leaves, BothPump, link_end, side_end, side_pump};
ghost use Rattle.script_run.specs.Ends.{SideCounts};

use super::callers::{Answers, Board, Caller, Task, play_threads, split_off};
use client_link::{PumpEnd, Waiters, pump};
use edge_links::Link;
use resp_value::NoMemory;
use script_text::{MOST_THREADS, ScriptLine};
use shared_cache::Wire;
use shared_client::{ClientSetup, SharedClient, end, open};
use socket_links::{Bell, Wakeable};
use std::alloc::Global;
use std::sync::Wait;
use std::thread::{Threads, join};
use turn_lock::{Closed, Seat, TurnLock};

/// A link of a session.
#[derive(Drop)]
pub struct PumpedLink<L> {
    pub link: L,
    /// Why its pump has ended.
    pub end: PumpEnd,
}

/// What a script came to.
#[derive(Drop)]
pub struct Played<L> {
    /// The client, with its log.
    pub client: Closed<SharedClient>,
    pub main: PumpedLink<L>,
    pub side: Option<PumpedLink<L>>,
    /// What the lines came to, a list for each thread, from thread 1.
    pub answers: Vec<Answers>,
    pub lines: Vec<ScriptLine>,
}

impl<L> Played<L> {
    /// Why the pump of Side has ended, where there is one.
    pub fn side_end(&self) -> Option<PumpEnd>
        ensures { result ≡ side_pump self.now.side }
    {
        match &self.side {
            None => None,
            Some(side) => Some(side.end),
        }
    }
}

// The seat of a pump that has ended, and its link.
type Pumped<L> = (Seat<SharedClient>, PumpedLink<L>);

fn run_pump<R: Wait, L: Link>(
    rt: &R,
    alloc: Global,
    lock: &TurnLock<SharedClient>,
    mut seat: Seat<SharedClient>,
    waiters: &Waiters,
    wire: Wire,
    mut link: L,
) -> Pumped<L>
    requires lock { seat.lock ≡ lock.now }
    requires within { IsWithin seat }
    requires link { IsLinked wire seat }
    ensures same { (result.0.lock ≡ seat.lock) × (result.0.parts ≡ seat.parts) }
    ensures pumps { Pumps wire result.1.end (L.left link) (L.left result.1.link)
        (L.contents link) (L.contents result.1.link) seat result.0 }
    ensures counts { EndCounts result.1.end (L.counts link) (L.counts result.1.link) }
{
    let ended = pump(rt, alloc, lock, &mut seat, waiters, wire, &mut link);
    (seat, PumpedLink { link, end: ended })
}

// That link ends, so that its pump does.
#[tactic(auto, using(crate::proofs::Closing::leaving))]
fn end_link<R: Wait>(
    rt: &R,
    lock: &TurnLock<SharedClient>,
    seat: &mut Seat<SharedClient>,
    wire: Wire,
)
    requires lock { seat.old.lock ≡ lock.now }
    requires within { IsWithin seat.old }
    requires link { IsLinked wire seat.old }
    ensures { Leaves wire seat.old seat.new }
{
    match end(rt, lock, seat, wire) {
        Ok(()) => {}
        Err(_) => {}
    }
}

// Plays the lines of all threads, and ends Main, and then Side where there is one.
fn call_all<R: Threads + Wait + Sync>(
    rt: &R,
    alloc: Global,
    lock: &TurnLock<SharedClient>,
    seat: Seat<SharedClient>,
    board: &Board,
    answers: Vec<Answers>,
) -> Caller<Vec<Answers>>
    requires lock { seat.lock ≡ lock.now }
    requires within { IsWithin seat }
    requires side { board.now.has_side ≡ true → IsLinked Side seat }
    requires lines { All IsValidLine board.now.lines.items }
    requires parts { most_threads < seat.parts }
    requires none { answers.items ≡ [] }
    requires room { most_threads ≤ vec_capacity answers }
    ensures same { (result.seat.lock ≡ seat.lock) × (result.seat.parts ≡ seat.parts) }
    ensures calls { Calls board.now.lines.items result.answers.items board.now.has_side seat
        result.seat }
{
    let task = Task {
        alloc,
        threads: MOST_THREADS,
        seat,
        answers,
    };
    let Caller { mut seat, answers } = play_threads(rt, lock, board, task);
    end_link(rt, lock, &mut seat, Wire::Main);
    board.waiters.wake(Wire::Main);
    if board.has_side {
        end_link(rt, lock, &mut seat, Wire::Side);
        board.waiters.wake(Wire::Side);
    }
    Caller { seat, answers }
}

// The pump of Main and the callers, each in a thread where one can be made.
fn pump_and_call<R: Threads + Wait + Sync, L: Link + Send + Drop>(
    rt: &R,
    alloc: Global,
    lock: &TurnLock<SharedClient>,
    seat: Seat<SharedClient>,
    callers: Seat<SharedClient>,
    board: &Board,
    answers: Vec<Answers>,
    link: L,
) -> (Pumped<L>, Caller<Vec<Answers>>)
    requires lock { (seat.lock ≡ lock.now) × (callers.lock ≡ lock.now) }
    requires within { IsWithin seat × IsWithin callers }
    requires side { board.now.has_side ≡ true → IsLinked Side callers }
    requires lines { All IsValidLine board.now.lines.items }
    requires parts { most_threads < callers.parts }
    requires none { answers.items ≡ [] }
    requires room { most_threads ≤ vec_capacity answers }
    ensures pump_same { (result.0.0.lock ≡ seat.lock) × (result.0.0.parts ≡ seat.parts) }
    ensures pumps { Pumps Main result.0.1.end (L.left link) (L.left result.0.1.link)
        (L.contents link) (L.contents result.0.1.link) seat result.0.0 }
    ensures counts { EndCounts result.0.1.end (L.counts link) (L.counts result.0.1.link) }
    ensures same { (result.1.seat.lock ≡ callers.lock)
        × (result.1.seat.parts ≡ callers.parts) }
    ensures calls { Calls board.now.lines.items result.1.answers.items board.now.has_side callers
        result.1.seat }
{
    let waiters = &board.waiters;
    join(
        rt,
        || -> Pumped<L>
            requires { IsSync R.row × (seat.lock ≡ lock.now) × IsWithin seat
                × IsLinked Main seat }
            ensures { (result.0.lock ≡ seat.lock) × (result.0.parts ≡ seat.parts)
                × Pumps Main result.1.end (L.left link) (L.left result.1.link)
                (L.contents link) (L.contents result.1.link) seat result.0
                × EndCounts result.1.end (L.counts link) (L.counts result.1.link) }
        { run_pump(rt, alloc, lock, seat, waiters, Wire::Main, link) },
        || -> Caller<Vec<Answers>>
            requires { IsSync R.row × (callers.lock ≡ lock.now) × IsWithin callers
                × (board.now.has_side ≡ true → IsLinked Side callers)
                × All IsValidLine board.now.lines.items × (most_threads < callers.parts)
                × (answers.items ≡ []) × (most_threads ≤ vec_capacity answers) }
            ensures { (result.seat.lock ≡ callers.lock) × (result.seat.parts ≡ callers.parts)
                × Calls board.entry.now.lines.items result.answers.items
                board.entry.now.has_side callers result.seat }
        { call_all(rt, alloc, lock, callers, board, answers) },
    )
}

// The same beside the pump of Side.
fn pump_beside<R: Threads + Wait + Sync, L: Link + Send + Drop>(
    rt: &R,
    alloc: Global,
    lock: &TurnLock<SharedClient>,
    seats: Seats,
    board: &Board,
    answers: Vec<Answers>,
    main: L,
    side: L,
) -> (Pumped<L>, (Pumped<L>, Caller<Vec<Answers>>))
    requires lock { (seats.side.lock ≡ lock.now) × (seats.main.lock ≡ lock.now)
        × (seats.callers.lock ≡ lock.now) }
    requires within { IsWithin seats.side × IsWithin seats.main × IsWithin seats.callers }
    requires links { IsLinked Side seats.side × IsLinked Side seats.callers }
    requires lines { All IsValidLine board.now.lines.items }
    requires parts { most_threads < seats.callers.parts }
    requires none { answers.items ≡ [] }
    requires room { most_threads ≤ vec_capacity answers }
    ensures side_same { (result.0.0.lock ≡ seats.side.lock)
        × (result.0.0.parts ≡ seats.side.parts) }
    ensures side_pumps { Pumps Side result.0.1.end (L.left side) (L.left result.0.1.link)
        (L.contents side) (L.contents result.0.1.link) seats.side result.0.0 }
    ensures side_counts { EndCounts result.0.1.end (L.counts side) (L.counts result.0.1.link) }
    ensures pump_same { (result.1.0.0.lock ≡ seats.main.lock)
        × (result.1.0.0.parts ≡ seats.main.parts) }
    ensures pumps { Pumps Main result.1.0.1.end (L.left main) (L.left result.1.0.1.link)
        (L.contents main) (L.contents result.1.0.1.link) seats.main result.1.0.0 }
    ensures counts { EndCounts result.1.0.1.end (L.counts main) (L.counts result.1.0.1.link) }
    ensures same { (result.1.1.seat.lock ≡ seats.callers.lock)
        × (result.1.1.seat.parts ≡ seats.callers.parts) }
    ensures calls { Calls board.now.lines.items result.1.1.answers.items board.now.has_side
        seats.callers result.1.1.seat }
{
    let Seats {
        main: seat,
        side: side_seat,
        callers,
    } = seats;
    let waiters = &board.waiters;
    join(
        rt,
        || -> Pumped<L>
            requires { IsSync R.row × (side_seat.lock ≡ lock.now) × IsWithin side_seat
                × IsLinked Side side_seat }
            ensures { (result.0.lock ≡ side_seat.lock) × (result.0.parts ≡ side_seat.parts)
                × Pumps Side result.1.end (L.left side) (L.left result.1.link)
                (L.contents side) (L.contents result.1.link) side_seat result.0
                × EndCounts result.1.end (L.counts side) (L.counts result.1.link) }
        { run_pump(rt, alloc, lock, side_seat, waiters, Wire::Side, side) },
        || -> (Pumped<L>, Caller<Vec<Answers>>)
            requires { IsSync R.row × (seat.lock ≡ lock.now) × (callers.lock ≡ lock.now)
                × IsWithin seat × IsWithin callers
                × (board.now.has_side ≡ true → IsLinked Side callers)
                × All IsValidLine board.now.lines.items × (most_threads < callers.parts)
                × (answers.items ≡ []) × (most_threads ≤ vec_capacity answers) }
            ensures { (result.0.0.lock ≡ seat.lock) × (result.0.0.parts ≡ seat.parts)
                × Pumps Main result.0.1.end (L.left main) (L.left result.0.1.link)
                (L.contents main) (L.contents result.0.1.link) seat result.0.0
                × EndCounts result.0.1.end (L.counts main) (L.counts result.0.1.link)
                × (result.1.seat.lock ≡ callers.lock) × (result.1.seat.parts ≡ callers.parts)
                × Calls board.entry.now.lines.items result.1.answers.items
                board.entry.now.has_side callers result.1.seat }
        { pump_and_call(rt, alloc, lock, seat, callers, board, answers, main) },
    )
}

// The seats of a session over two links.
#[derive(Drop)]
struct Seats {
    main: Seat<SharedClient>,
    side: Seat<SharedClient>,
    callers: Seat<SharedClient>,
}

// What the links and the callers of a session came to; the pumps' seats are joined.
#[derive(Drop)]
struct Ran<L> {
    seat: Seat<SharedClient>,
    main: PumpedLink<L>,
    side: Option<PumpedLink<L>>,
    called: Caller<Vec<Answers>>,
}

// A pump for each link, and the callers.
fn run_links<R: Threads + Wait + Sync, L: Link + Send + Drop>(
    rt: &R,
    alloc: Global,
    lock: &TurnLock<SharedClient>,
    mut seat: Seat<SharedClient>,
    callers: Seat<SharedClient>,
    board: &Board,
    answers: Vec<Answers>,
    main: L,
    side: Option<L>,
) -> Ran<L>
    requires lock { (seat.lock ≡ lock.now) × (callers.lock ≡ lock.now) }
    requires within { IsWithin seat × IsWithin callers }
    requires fresh { (turns_of seat ≡ []) × (past_of seat ≡ []) }
    requires links { is_some side ≡ true → IsLinked Side seat × IsLinked Side callers }
    requires side { board.now.has_side ≡ is_some side }
    requires lines { All IsValidLine board.now.lines.items }
    requires parts { (most_threads < callers.parts) × (1 < seat.parts) }
    requires none { answers.items ≡ [] }
    requires room { most_threads ≤ vec_capacity answers }
    ensures pump_same { (result.seat.lock ≡ seat.lock) × (result.seat.parts ≡ seat.parts)
        × (result.seat.setup ≡ seat.setup) }
    ensures pumps { BothPump (setup_at seat)
        (link_end L.left L.contents L.counts main result.main)
        (side_end L.left L.contents L.counts side result.side) result.seat }
    ensures counts { EndCounts result.main.end (L.counts main) (L.counts result.main.link) }
    ensures side_counts { SideCounts L.counts side result.side }
    ensures same { (result.called.seat.lock ≡ callers.lock)
        × (result.called.seat.parts ≡ callers.parts) }
    ensures calls { Calls board.now.lines.items result.called.answers.items (is_some side) callers
        result.called.seat }
{
    match side {
        None => {
            let ((seat, main), called) = pump_and_call(
                rt, alloc, lock, seat, callers, board, answers, main,
            );
            Ran {
                seat,
                main,
                side: None,
                called,
            }
        }
        Some(side) => {
            let side_seat = split_off(lock, &mut seat, 1);
            let seats = Seats {
                main: seat,
                side: side_seat,
                callers,
            };
            let ((side_seat, side), ((mut seat, main), called)) = pump_beside(
                rt, alloc, lock, seats, board, answers, main, side,
            );
            lock.join(&mut seat, side_seat);
            Ran {
                seat,
                main,
                side: Some(side),
                called,
            }
        }
    }
}

// The bell of a link that may not be there.
fn bell_of<L: Wakeable>(link: &Option<L>) -> Option<Bell> {
    match link {
        None => None,
        Some(link) => link.bell(),
    }
}

/// Plays each thread's lines in order, the threads side by side, over one client and its links, and
/// ends these once all are played, Main first.
pub fn play_script<R: Threads + Wait + Sync, L: Link + Wakeable + Send + Drop>(
    rt: &R,
    alloc: Global,
    setup: ClientSetup,
    lines: Vec<ScriptLine>,
    main: L,
    side: Option<L>,
) -> Result<Played<L>, NoMemory>
    requires mode { IsClientMode setup.mode }
    requires side { is_pair setup.mode.shape ≡ is_some side }
    requires capacity { (0 < setup.capacity) × (setup.capacity ≤ 1000000) }
    requires log_max { 0 < setup.log_max }
    requires lines { All IsValidLine lines.items }
    ensures lines { IfOk result (λ p. p.lines.items ≡ lines.items) }
    ensures session { IfOk result (λ p. Session (setup_of setup) lines.items p.answers.items
        (link_end L.left L.contents L.counts main p.main)
        (side_end L.left L.contents L.counts side p.side) p.client.state.past
        p.client.tickets) }
    ensures complete { IfOk result (λ p. Completes (setup_of setup)
        (ends_of lines.items p.answers.items) (link_end L.left L.contents L.counts main p.main)
        (side_end L.left L.contents L.counts side p.side) p.client.state.past
        p.client.tickets) }
    ensures counts { IfOk result
        (λ p. EndCounts p.main.end (L.counts main) (L.counts p.main.link)) }
    ensures side_counts { IfOk result (λ p. SideCounts L.counts side p.side) }
{
    let Ok(answers) = Vec::with_capacity(alloc, MOST_THREADS as usize) else {
        return Err(NoMemory);
    };
    let (lock, mut seat) = open(alloc, setup)?;
    let callers = split_off(&lock, &mut seat, MOST_THREADS + 1);
    let board = Board {
        waiters: Waiters::new(main.bell(), bell_of(&side)),
        has_side: side.is_some(),
        lines,
    };
    let Ran {
        mut seat,
        main,
        side,
        called,
    } = run_links(rt, alloc, &lock, seat, callers, &board, answers, main, side);
    lock.join(&mut seat, called.seat);
    match lock.close(seat) {
        Ok(client) => Ok(Played {
            client,
            main,
            side,
            answers: called.answers,
            lines: board.lines,
        }),
        Err(_) => unreachable!(),
    }
}
