//! A long schedule, whose history is played again beside a server of slow tables.
ghost use Rattle.std.specs.Prelude.{IfOk, ◌<◌};
ghost use Rattle.serial_model.specs.Steps.{AreValid, IsCallable};

use super::book::words_of;
use super::slow_server::SlowServer;
use resp_value::NoMemory;
use server_book::{Book, BookCall, BookReply, Entry, Limits};
use std::alloc::Global;
use std::process::Abort;
use std::test::Fail;

const TURNS: u64 = 10_000;

const LEAST_PUSHES: u64 = 1_000;

/// How many keys are remembered, of the 32 that there are.
const TABLE_MAX: u64 = 9;

/// The keys are parts of this text, each of a length of its own, by which a push tells its key.
const TEXT: &str = "qkzmxbrtwyhjcndgvpfslaeuoiwqmzbxktrhyjcdngvfpslaueiomqzkwxbtryhjdcngpvfsle";

#[derive(Drop)]
pub(super) struct Dice {
    pub(super) state: u64,
}

impl Dice {
    pub(super) fn roll(&mut self, sides: u64) -> u64
        requires { 0 < sides }
        ensures { result < sides }
    {
        self.state = self
            .state
            .wrapping_mul(6_364_136_223_846_793_005)
            .wrapping_add(1_442_695_040_888_963_407);
        (self.state >> 33) % sides
    }

    fn key(&mut self) -> &'static str {
        let from = self.roll(32) as usize;
        TEXT.get(from..from + from + 10).unwrap_or("")
    }
}

// A command that comes seldom.
fn rare(dice: &mut Dice) -> &'static str {
    match dice.roll(20) {
        0 => "FLUSHDB",
        1 | 2 => "CLIENT TRACKING OFF",
        3 => "HELLO 2",
        4..=9 => "HELLO 3",
        10 => "CLIENT TRACKING ON BCAST PREFIX q PREFIX kz",
        11 => "CLIENT TRACKING ON BCAST PREFIX m",
        12 => "CLIENT TRACKING ON BCAST",
        _ => "CLIENT TRACKING ON",
    }
}

fn command(alloc: Global, dice: &mut Dice) -> Result<String, NoMemory> {
    let (key, other, third) = (dice.key(), dice.key(), dice.key());
    let text = match dice.roll(20) {
        0..=7 => format!(in alloc; "GET {key}")?,
        8 | 9 => format!(in alloc; "MGET {key} {other} {third} {key}")?,
        10 => format!(in alloc; "SET {key} v")?,
        11..=13 => {
            let life = (dice.roll(20) + 1) * 100;
            format!(in alloc; "SET {key} v PX {life}")?
        }
        14 => format!(in alloc; "MSET {key} v {other} w")?,
        15 => format!(in alloc; "DEL {key} {other} {key}")?,
        16 | 17 => {
            let life = dice.roll(3);
            format!(in alloc; "EXPIRE {key} {life}")?
        }
        _ => String::from_str(alloc, rare(dice))?,
    };
    Ok(text)
}

// The next call on a book: of one of the connections that came last, some of which have ended.
fn call(alloc: Global, dice: &mut Dice, newest: u64, now: u64) -> Result<BookCall, NoMemory>
    ensures { IfOk result (λ call. IsCallable call) }
{
    let id = newest.saturating_sub(dice.roll(8));
    match dice.roll(50) {
        0 => Ok(BookCall::Admit),
        1 => Ok(BookCall::Close { id }),
        2 | 3 => Ok(BookCall::Tick { now }),
        4 => Ok(BookCall::Take { id, max: 50 }),
        _ => {
            let words = words_of(alloc, command(alloc, dice)?.as_str())?;
            Ok(BookCall::Run { id, words, now })
        }
    }
}

fn play(alloc: Global, book: &mut Book) -> Result<(), NoMemory> {
    let mut dice = Dice { state: 1 };
    let mut newest = 0u64;
    let mut now = 0u64;
    for _ in 0..TURNS {
        let reply = book.turn(call(alloc, &mut dice, newest, now)?);
        if let BookReply::Admitted { id, .. } = &reply {
            newest = *id;
        }
        now = now.saturating_add(dice.roll(2) * 100);
    }
    Ok(())
}

// The call that added an entry.
fn call_of(entry: &Entry) -> Result<BookCall, NoMemory>
    ensures { IfOk result (λ call. IsCallable call) }
{
    let call = match entry {
        Entry::Admit { .. } => BookCall::Admit,
        Entry::Run { id, words, moment } => BookCall::Run {
            id: *id,
            words: words.copy()?,
            now: *moment,
        },
        Entry::Tick { moment } => BookCall::Tick { now: *moment },
        Entry::Take { id, max } => BookCall::Take {
            id: *id,
            max: (*max).max(1),
        },
        Entry::Close { id } => BookCall::Close { id: *id },
    };
    Ok(call)
}

fn limits() -> Limits
    ensures { AreValid result }
{
    Limits {
        table_max: TABLE_MAX,
        out_max: 1_000_000,
        history_max: 1_000_000,
    }
}

// Plays the history on a book, and holds each turn's posts against those of slow tables. It
// answers how many pushes there were.
fn replay_on<R: Abort>(
    rt: &R,
    book: &mut Book,
    slow: &mut SlowServer,
    history: &[Entry],
) -> Result<u64, Fail> {
    let mut pushes = 0u64;
    for (place, entry) in history.iter().enumerate() {
        let _ = book.turn(call_of(entry)?);
        slow.play(entry)?;
        assert!(rt; slow.is_posted(book.last_posts()), "{place}");
        pushes = pushes.saturating_add(slow.pushes());
    }
    Ok(pushes)
}

fn replay<R: Abort>(rt: &R, alloc: Global, history: &[Entry]) -> Result<u64, Fail> {
    let mut slow = SlowServer::new(alloc, TABLE_MAX as usize);
    let mut book = Book::new(alloc, limits())?;
    replay_on(rt, &mut book, &mut slow, history)
}

// Whether a history that the book comes to, a long one, is played again with many pushes.
fn posts_again<R: Abort>(rt: &R, alloc: Global, book: &mut Book) -> Result<bool, Fail> {
    play(alloc, book)?;
    let history = book.history();
    let pushes = replay(rt, alloc, history)?;
    Ok(history.len() > 5_000 && pushes > LEAST_PUSHES)
}

fn plays_again<R: Abort>(rt: &R, alloc: Global) -> Result<bool, Fail> {
    let mut book = Book::new(alloc, limits())?;
    posts_again(rt, alloc, &mut book)
}

#[test]
fn a_history_played_again_posts_what_slow_tables_tell(rt: HostRuntime) -> Result<(), Fail> {
    assert!(rt; plays_again(&rt, rt.alloc())?);
    Ok(())
}
