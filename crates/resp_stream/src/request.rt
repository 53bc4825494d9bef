//! Requests, read from the front of a text in any number of steps.
ghost use Rattle.std.specs.Prelude.{◌≡◌, true, ◌++◌, ◌∷◌, [], ℕ, ◌≤◌, ◌<◌, ◌^◌, ◌-◌, List, length};
ghost use Rattle.std.specs.Prelude.{take, drop, IfOk, IfSome, OnOk, OnErr};
ghost use Rattle.std.specs.Prelude.{◌+◌};
ghost use Rattle.resp_stream.specs.Results.{Gives};
ghost use Rattle.resp_stream.specs.Tokens.{Passed};
ghost use Rattle.resp_stream.specs.Request.{is_blank, some_word, words_after, word_at, inline_at};
ghost use Rattle.resp_stream.specs.Request.{line_limit, request_begun};
ghost use Rattle.resp_stream.specs.RequestSteps.{HasWords, RequestStepGives, IsProgress};
ghost use Rattle.resp_stream.specs.RequestSteps.{RequestReadingGives, NextGives};
ghost use Rattle.resp_stream.specs.RequestSteps.{IsLastAt, words_so_far};

use super::fault::{Broken, Fault, ReadStop, WHOLE_LIMIT, limited};
use super::long_blob::{BlobPlace, place_of};
use super::tokens::{LengthRule, byte_of, counted_of, head_of, length_of, line_of};
use resp_value::{NoMemory, Octets, Words};
use std::alloc::Global;
use std::mem;

const LINE_LIMIT: usize = 65536;

/// The number of words.
const WORDS: LengthRule = LengthRule {
    streamed: true,
    null: true,
    least: 0,
    limit: 65536,
};

/// The length of a word.
const WORD: LengthRule = LengthRule {
    streamed: true,
    null: false,
    least: 0,
    limit: 16777216,
};

/// How far a request was read.
#[derive(Drop)]
pub enum Progress {
    /// Nothing is kept but how many bytes of a line were passed.
    Line { seen: usize },
    /// The words before `at`, of which so many are missing.
    Words { at: usize, left: u64, words: Words },
}

/// A request with the number of its bytes, or how far it was read.
#[derive(Drop)]
pub enum RequestStep {
    Whole { words: Words, taken: usize },
    More(Progress),
}

/// What a text begins with, by the limit of the whole; `at` is where the faulty byte is.
#[derive(Drop)]
pub enum Reading {
    Whole { words: Words, taken: usize },
    More(Progress),
    Faulty { fault: Fault, at: usize },
}

/// The same after empty requests: `taken` counts from the front, and `at` from the end of the
/// `passed`
/// bytes.
#[derive(Drop)]
pub enum Next {
    Whole {
        words: Words,
        taken: usize,
    },
    More {
        passed: usize,
        progress: Progress,
    },
    Faulty {
        passed: usize,
        fault: Fault,
        at: usize,
    },
}

fn is_blank(c: u8) -> bool
    ensures { result ≡ is_blank c }
{
    c == b' ' || c == b'\t'
}

/// The word goes last, if it has bytes.
fn close_word(words: &mut Words, word: Vec<u8>) -> Result<(), NoMemory>
    ensures { OnOk result (words.new ≡ words.old ++ some_word word.items) }
{
    if word.is_empty() {
        return Ok(());
    }
    words.push(Octets::from_vec(word))
}

/// The words of an inline request.
fn words_of(alloc: Global, line: &[u8]) -> Result<Words, NoMemory>
    ensures { IfOk result (λ w. w ≡ words_after [] line.now) }
{
    let mut words = Words::new(alloc);
    let mut word = Vec::new(alloc);
    'bytes: for c in line {
        if is_blank(*c) {
            close_word(&mut words, mem::replace(&mut word, Vec::new(alloc)))?;
        } else {
            word.push(*c)?;
        }
    }
    close_word(&mut words, word)?;
    Ok(words)
}

#[tactic(auto, unfolding(crate::specs::Request::word_at))]
fn word_of(bytes: &[u8]) -> Result<Option<(&[u8], &[u8])>, Broken>
    ensures { Gives (λ x. (x.0.now, x.1.now)) result (word_at bytes.now) }
{
    match byte_of(b'$', bytes) {
        Ok(None) => Ok(None),
        Err(e) => Err(e),
        Ok(Some(rest)) => match length_of(WORD, rest) {
            Ok(None) => Ok(None),
            Err(e) => Err(e),
            Ok(Some((None, rest))) => Ok(Some((&[], rest))),
            Ok(Some((Some(length), rest))) => counted_of(length, rest),
        },
    }
}

/// Words from `at` on, until none is missing.
fn read_words(
    alloc: Global,
    text: &[u8],
    at: usize,
    left: u64,
    words: Words,
) -> Result<RequestStep, ReadStop>
    requires { HasWords text.now at left words }
    ensures { RequestStepGives text.now result }
{
    let mut at = at;
    let mut left = left;
    let mut words = words;
    'words: while left > 0 {
        let (_, rest) = text.split_at(at);
        match word_of(rest) {
            Ok(None) => {
                return Ok(RequestStep::More(Progress::Words { at, left, words }));
            }
            Err(e) => {
                return Err(ReadStop::Faulty(e));
            }
            Ok(Some((word, after))) => {
                let Ok(word) = Octets::from_slice(alloc, word) else {
                    return Err(ReadStop::NoMemory);
                };
                match words.push(word) {
                    Ok(()) => {}
                    Err(_) => {
                        return Err(ReadStop::NoMemory);
                    }
                }
                at = text.len() - after.len();
                left -= 1;
            }
        }
    }
    Ok(RequestStep::Whole { words, taken: at })
}

/// The words that are kept.
pub(crate) fn words_so_far(alloc: Global, progress: Progress) -> Words
    ensures { result ≡ words_so_far progress }
{
    match progress {
        Progress::Line { .. } => Words::new(alloc),
        Progress::Words { words, .. } => words,
    }
}

/// The place of the one word that is missing, where it is long and whole.
pub(crate) fn last_word(text: &[u8], progress: &Progress) -> Option<BlobPlace>
    requires { IsProgress text.now progress.now }
    ensures { IfSome result
        (λ p. IsLastAt text.now (words_so_far progress.now) p.first p.count) }
{
    match progress {
        Progress::Words { at, left: 1, .. } => {
            let (_, rest) = text.split_at(*at);
            let place = place_of(WORD, WHOLE_LIMIT.saturating_sub(*at), rest)?;
            Some(BlobPlace {
                first: at + place.first,
                count: place.count,
            })
        }
        _ => None,
    }
}

/// A line of words.
fn read_inline(alloc: Global, text: &[u8], seen: usize) -> Result<RequestStep, ReadStop>
    requires seen { seen ≤ length text.now }
    requires passed { Passed true line_limit (take seen text.now) }
    requires inline { request_begun text.now ≡ inline_at text.now }
    ensures { RequestStepGives text.now result }
{
    let mut seen = seen;
    match line_of(true, LINE_LIMIT, &mut seen, text) {
        Ok(None) => Ok(RequestStep::More(Progress::Line { seen })),
        Err(e) => Err(ReadStop::Faulty(e)),
        Ok(Some((line, rest))) => match words_of(alloc, line) {
            Ok(words) => Ok(RequestStep::Whole {
                words,
                taken: text.len() - rest.len(),
            }),
            Err(_) => Err(ReadStop::NoMemory),
        },
    }
}

/// A request from its first byte on, of which `seen` bytes of a line were passed before.
fn begin_request(alloc: Global, text: &[u8], seen: usize) -> Result<RequestStep, ReadStop>
    requires seen { seen ≤ length text.now }
    requires passed { Passed true line_limit (take seen text.now) }
    ensures { RequestStepGives text.now result }
{
    let Some((c, rest)) = head_of(text) else {
        return Ok(RequestStep::More(Progress::Line { seen: 0 }));
    };
    if c != b'*' {
        return read_inline(alloc, text, seen);
    }
    match length_of(WORDS, rest) {
        Ok(None) => Ok(RequestStep::More(Progress::Line { seen: 0 })),
        Err(e) => Err(ReadStop::Faulty(e)),
        Ok(Some((None, rest))) => Ok(RequestStep::Whole {
            words: Words::new(alloc),
            taken: text.len() - rest.len(),
        }),
        Ok(Some((Some(left), rest))) => {
            let at = text.len() - rest.len();
            read_words(alloc, text, at, left, Words::new(alloc))
        }
    }
}

/// Reads on, until the request is whole, more is needed, or a byte is at fault.
fn read_request(alloc: Global, text: &[u8], progress: Progress) -> Result<RequestStep, ReadStop>
    requires { IsProgress text.now progress }
    ensures { RequestStepGives text.now result }
{
    match progress {
        Progress::Line { seen } => begin_request(alloc, text, seen),
        Progress::Words { at, left, words } => read_words(alloc, text, at, left, words),
    }
}

/// A request with more bytes than `WHOLE_LIMIT` is a fault at the first byte too many.
fn read_within(alloc: Global, text: &[u8], progress: Progress) -> Result<Reading, NoMemory>
    requires { IsProgress text.now progress }
    ensures { RequestReadingGives text.now result }
{
    match read_request(alloc, text, progress) {
        Err(ReadStop::NoMemory) => Err(NoMemory),
        Err(ReadStop::Faulty(e)) => {
            let (fault, at) = limited(e.fault, text.len() - e.left);
            Ok(Reading::Faulty { fault, at })
        }
        Ok(RequestStep::Whole { words, taken }) => {
            if WHOLE_LIMIT < taken {
                return Ok(too_long());
            }
            Ok(Reading::Whole { words, taken })
        }
        Ok(RequestStep::More(progress)) => {
            if WHOLE_LIMIT < text.len() {
                return Ok(too_long());
            }
            Ok(Reading::More(progress))
        }
    }
}

/// The byte that passes the limit.
fn too_long() -> Reading
    ensures { result ≡ Reading.Faulty (Fault.TooLong (WHOLE_LIMIT + 1)) WHOLE_LIMIT }
{
    Reading::Faulty {
        fault: Fault::TooLong(WHOLE_LIMIT as u64 + 1),
        at: WHOLE_LIMIT,
    }
}

/// The next request, empty ones passed over.
pub(crate) fn next_in(alloc: Global, text: &[u8], progress: Progress) -> Result<Next, NoMemory>
    requires { IsProgress text.now progress }
    ensures { NextGives text.now result }
{
    let mut passed = 0;
    let mut progress = progress;
    'requests: loop {
        let (_, rest) = text.split_at(passed);
        match read_within(alloc, rest, progress) {
            Err(e) => {
                return Err(e);
            }
            Ok(Reading::Faulty { fault, at }) => {
                return Ok(Next::Faulty { passed, fault, at });
            }
            Ok(Reading::More(progress)) => {
                return Ok(Next::More { passed, progress });
            }
            Ok(Reading::Whole { words, taken }) => {
                let taken = passed + taken;
                if !words.as_slice().is_empty() {
                    return Ok(Next::Whole { words, taken });
                }
                passed = taken;
                progress = Progress::Line { seen: 0 };
            }
        }
    }
}
