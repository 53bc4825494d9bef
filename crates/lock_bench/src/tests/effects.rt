//! What was sent to each connection, found again by a scan of the effects that a book tells.
ghost use Rattle.std.specs.Prelude.{◌<◌, IfOk};
ghost use Rattle.serial_model.specs.Steps.{AreValid, IsCallable};

use super::book::words_of;
use super::replay::Dice;
use past_effects::sent_slow;
use resp_value::NoMemory;
use server_book::{Book, BookCall, BookReply, Effect, Limits, Post, Posted};
use std::alloc::Global;
use std::process::Abort;
use std::test::Fail;

const TURNS: u64 = 400;

/// At least so many connections end.
const LEAST_ENDS: u64 = 10;

/// What a book told of its turns.
#[derive(Drop)]
struct Told {
    newest: u64,
    effects: Vec<Effect>,
    posts: Vec<Post>,
}

impl Told {
    fn new(alloc: Global) -> Told {
        Told {
            newest: 0,
            effects: Vec::new(alloc),
            posts: Vec::new(alloc),
        }
    }

    // Plays a turn, and keeps what the book tells of it.
    fn play(&mut self, book: &mut Book, call: BookCall) -> Result<(), NoMemory>
        requires { IsCallable call }
    {
        if let BookReply::Admitted { id, .. } = book.turn(call) {
            self.newest = id;
        }
        if let Some(effect) = book.last_effect() {
            self.effects.push(effect.copy()?)?;
        }
        for post in book.last_posts() {
            self.posts.push(*post)?;
        }
        Ok(())
    }

    // Whether these are all that was sent to a connection.
    fn are_sent(&self, id: u64, found: &[Post]) -> bool {
        let mut found = found.iter();
        for post in &self.posts {
            if post.id == id && found.next() != Some(post) {
                return false;
            }
        }
        found.next().is_none()
    }

    fn ends(&self) -> u64 {
        let mut ends = 0u64;
        for post in &self.posts {
            if post.what == Posted::End {
                ends = ends.saturating_add(1);
            }
        }
        ends
    }
}

// How a connection tracks from now on, and other commands of its own.
fn own(alloc: Global, dice: &mut Dice, newest: u64) -> Result<String, NoMemory> {
    let other = newest.saturating_sub(dice.roll(4));
    let text = match dice.roll(26) {
        0..=4 => "HELLO 3",
        5 => "HELLO 2",
        6 | 7 => "CLIENT TRACKING ON",
        8 => "CLIENT TRACKING ON NOLOOP",
        9 => "CLIENT TRACKING OFF",
        10 => "CLIENT TRACKING ON OPTIN",
        11 => "CLIENT TRACKING ON OPTOUT NOLOOP",
        12 => "CLIENT CACHING YES",
        13 => "CLIENT CACHING NO",
        14 => "CLIENT TRACKING ON BCAST PREFIX k1 PREFIX k2",
        15 => "CLIENT TRACKING ON BCAST PREFIX k NOLOOP",
        16 => "CLIENT TRACKING ON BCAST",
        17 | 18 => "SUBSCRIBE __redis__:invalidate",
        19 => "UNSUBSCRIBE",
        20 => "CLIENT TRACKINGINFO",
        21 => "RESET",
        22 => "QUIT",
        23 => return Ok(format!(in alloc; "CLIENT TRACKING ON BCAST REDIRECT {other}")?),
        _ => return Ok(format!(in alloc; "CLIENT TRACKING ON REDIRECT {other}")?),
    };
    Ok(String::from_str(alloc, text)?)
}

fn command(alloc: Global, dice: &mut Dice, newest: u64) -> Result<String, NoMemory> {
    let (key, other) = (dice.roll(8), dice.roll(8));
    let text = match dice.roll(24) {
        0..=7 => format!(in alloc; "GET k{key}")?,
        8 => format!(in alloc; "MGET k{key} k{other} k{key}")?,
        9 | 10 => format!(in alloc; "SET k{key} v")?,
        11 | 12 => {
            let life = (dice.roll(20) + 1) * 100;
            format!(in alloc; "SET k{key} v PX {life}")?
        }
        13 => format!(in alloc; "MSET k{key} v k{other} w")?,
        14 => format!(in alloc; "DEL k{key} k{other}")?,
        15 => format!(in alloc; "HSET k{key} f v")?,
        16 => format!(in alloc; "EXPIRE k{key} {other}")?,
        17 => String::from_str(alloc, "FLUSHALL")?,
        18 => String::from_str(alloc, "NOSUCH")?,
        _ => own(alloc, dice, newest)?,
    };
    Ok(text)
}

// The next call on a book: of one of the connections that came last, some of which have ended.
fn call(alloc: Global, dice: &mut Dice, newest: u64, now: u64) -> Result<BookCall, NoMemory>
    ensures { IfOk result (λ call. IsCallable call) }
{
    let id = newest.saturating_sub(dice.roll(6));
    match dice.roll(40) {
        0 | 1 => Ok(BookCall::Admit),
        2 => Ok(BookCall::Close { id }),
        3 | 4 => Ok(BookCall::Tick { now }),
        5..=9 => Ok(BookCall::Take { id, max: 150 }),
        _ => {
            let words = words_of(alloc, command(alloc, dice, newest)?.as_str())?;
            Ok(BookCall::Run { id, words, now })
        }
    }
}

fn run(alloc: Global, id: u64, text: &str) -> Result<BookCall, NoMemory>
    ensures { IfOk result (λ call. IsCallable call) }
{
    Ok(BookCall::Run {
        id,
        words: words_of(alloc, text)?,
        now: 0,
    })
}

// Plays turns, and at last a SHUTDOWN of one of the newest connections, and what comes behind it.
fn play_all(alloc: Global, book: &mut Book, seed: u64) -> Result<Told, NoMemory> {
    let mut dice = Dice { state: seed };
    let mut told = Told::new(alloc);
    let mut now = 0u64;
    for _ in 0..TURNS {
        let call = call(alloc, &mut dice, told.newest, now)?;
        told.play(book, call)?;
        now = now.saturating_add(dice.roll(2) * 100);
    }
    for back in 0..6u64 {
        let id = told.newest.saturating_sub(back);
        told.play(book, run(alloc, id, "SHUTDOWN")?)?;
        told.play(book, BookCall::Close { id })?;
        told.play(book, BookCall::Admit)?;
    }
    Ok(told)
}

// Holds what a scan of the effects finds of each connection against the posts of the book.
fn find_all<R: Abort>(rt: &R, alloc: Global, told: &Told, limits: &Limits) -> Result<(), Fail>
    requires { AreValid limits.now }
{
    for id in 0..told.newest.saturating_add(2) {
        let found = sent_slow(alloc, &told.effects, limits, id)?;
        assert!(rt; told.are_sent(id, &found), "{id}");
    }
    Ok(())
}

// With so many remembered keys, and bytes that wait, at most.
fn finds_all<R: Abort>(
    rt: &R,
    alloc: Global,
    seed: u64,
    table_max: u64,
    out_max: u64,
) -> Result<(), Fail>
    requires table { 0 < table_max }
    requires out { 0 < out_max }
{
    let limits = Limits {
        table_max,
        out_max,
        history_max: 100,
    };
    let mut book = Book::new(alloc, limits)?;
    let told = play_all(alloc, &mut book, seed)?;
    assert!(rt; told.ends() > LEAST_ENDS, "{seed}");
    find_all(rt, alloc, &told, &limits)
}

#[test]
fn a_scan_of_effects_finds_what_was_posted(rt: HostRuntime) -> Result<(), Fail> {
    let alloc = rt.alloc();
    finds_all(&rt, alloc, 1, 4, 1_000_000)?;
    finds_all(&rt, alloc, 2, 1, 6_000)?;
    finds_all(&rt, alloc, 3, 100, 1_000)?;
    finds_all(&rt, alloc, 4, 3, 400)
}

#[test]
fn a_scan_finds_no_message_under_noloop(rt: HostRuntime) -> Result<(), Fail> {
    let alloc = rt.alloc();
    let limits = Limits {
        table_max: 2,
        out_max: 1_000_000,
        history_max: 2,
    };
    let mut book = Book::new(alloc, limits)?;
    let mut told = Told::new(alloc);
    told.play(&mut book, BookCall::Admit)?;
    told.play(&mut book, run(alloc, 1, "HELLO 3")?)?;
    told.play(&mut book, run(alloc, 1, "CLIENT TRACKING ON NOLOOP")?)?;
    told.play(&mut book, run(alloc, 1, "GET foo")?)?;
    told.play(&mut book, run(alloc, 1, "SET foo 1")?)?;
    told.play(&mut book, run(alloc, 1, "GET foo")?)?;
    told.play(&mut book, BookCall::Take { id: 1, max: 200 })?;
    told.play(&mut book, BookCall::Admit)?;
    told.play(&mut book, run(alloc, 2, "SET foo 2")?)?;
    let wanted = [(2, 144), (3, 5), (4, 3), (5, 5), (6, 7), (9, 34)];
    let found = sent_slow(alloc, &told.effects, &limits, 1)?;
    assert!(rt; found.len() == wanted.len());
    for (post, (entry, length)) in found.iter().zip(wanted.iter()) {
        let what = Posted::Message { length: *length };
        assert!(rt; post.entry == *entry && post.what == what, "{entry}");
    }
    Ok(())
}
