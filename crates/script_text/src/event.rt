//! The events of a schedule, and how they are read.
ghost use Rattle.std.specs.Prelude.{◌≡◌, List, ℕ, IfOk, map};
ghost use Rattle.script_text.specs.Events.{amount_of, asked_of, bare, bytes_of, event_alone};
ghost use Rattle.script_text.specs.Events.{event_of};
ghost use Rattle.script_text.specs.Events.{event_of_parts, link_event, named_event, polled_of};
ghost use Rattle.script_text.specs.Events.{request_of};

use super::client_line::read_client;
use super::words::{is_link, is_name, is_text, line_parts, read_within, read_word, read_words};
use command_words::Query;
use resp_value::{NoMemory, Octets, Words};
use shared_cache::ClientMode;
use std::alloc::Global;

/// The longest line of a schedule in bytes, its LF not counted.
pub const LONGEST_LINE: usize = 1_048_576;

/// What a line of a schedule asks for. The first field is the name of a link or of a client; where
/// an amount of bytes is `None`, all that is there moves.
#[derive(Drop)]
pub enum Event {
    /// `raw R`: a link is made, and the server admits it.
    Raw(Octets),
    /// `say R WORD..`: the bytes of a request are put onto the way up.
    Say(Octets, Words),
    /// `bytes R TEXT`: bytes are put onto the way up.
    Bytes(Octets, Octets),
    /// `client X SHAPE PROTO MODE CAPACITY [noloop] [prefix P]..`: a client is made with its links,
    /// and the server admits them. It holds the queries of at most `CAPACITY` keys.
    Client(Octets, ClientMode, u64),
    /// `out L [N]`: the client's end puts what it has to send onto the way up.
    Out(Octets, Option<u64>),
    /// `serve L [N]`: the server's end reads from the way up.
    Serve(Octets, Option<u64>),
    /// `send L [N]`: the server's end puts onto the way down.
    Send(Octets, Option<u64>),
    /// `recv L [N]`: the client's end reads from the way down.
    Recv(Octets, Option<u64>),
    /// `flow L`: `out`, `serve`, `send` and `recv` of all that is there.
    Flow(Octets),
    /// `flow`: each link flows, in order of making.
    FlowAll,
    /// `cut L`: what is on both ways is dropped, and both end.
    Cut(Octets),
    /// `now N`: the clock's value in milliseconds; 0 at the start.
    Now(u64),
    /// `tick`: the server takes out the keys that are due by the clock.
    Tick,
    /// `ask X WORD..`: the client is asked a query.
    Ask(Octets, Query),
    /// `do X WORD..`: the client sends any other command.
    Do(Octets, Words),
    /// `poll X N`: the client is asked for the reply to its command number N.
    Poll(Octets, u64),
    /// `show X`: what the client holds is printed.
    Show(Octets),
}

fn read_bare(event: Event, rest: &[&[u8]]) -> Option<Event>
    ensures { result ≡ bare event (map (λ p. p.now) rest.now) }
{
    if rest.is_empty() { Some(event) } else { None }
}

pub fn read_request(alloc: Global, rest: &[&[u8]]) -> Result<Option<Words>, NoMemory>
    ensures { IfOk result (λ o. o ≡ request_of (map (λ p. p.now) rest.now)) }
{
    if rest.is_empty() {
        return Ok(None);
    }
    read_words(alloc, rest)
}

fn read_bytes(alloc: Global, rest: &[&[u8]]) -> Result<Option<Octets>, NoMemory>
    ensures { IfOk result (λ o. o ≡ bytes_of (map (λ p. p.now) rest.now)) }
{
    match rest {
        [text] => read_word(alloc, text),
        _ => Ok(None),
    }
}

pub fn read_query(alloc: Global, rest: &[&[u8]]) -> Result<Option<Query>, NoMemory>
    ensures { IfOk result (λ o. o ≡ asked_of (map (λ p. p.now) rest.now)) }
{
    match read_words(alloc, rest)? {
        Some(words) => Query::read(alloc, &words),
        None => Ok(None),
    }
}

fn read_polled(alloc: Global, rest: &[&[u8]]) -> Result<Option<u64>, NoMemory>
    ensures { IfOk result (λ o. o ≡ polled_of (map (λ p. p.now) rest.now)) }
{
    match rest {
        [text] => read_within(alloc, 0, u64::MAX, text),
        _ => Ok(None),
    }
}

fn read_amount(alloc: Global, rest: &[&[u8]]) -> Result<Option<Option<u64>>, NoMemory>
    ensures { IfOk result (λ o. o ≡ amount_of (map (λ p. p.now) rest.now)) }
{
    match rest {
        [] => Ok(Some(None)),
        [text] => match read_within(alloc, 1, u64::MAX, text)? {
            Some(count) => Ok(Some(Some(count))),
            None => Ok(None),
        },
        _ => Ok(None),
    }
}

#[tactic(auto, unfolding(crate::specs::Events::named_event))]
fn read_named(
    alloc: Global,
    kind: &[u8],
    name: Octets,
    rest: &[&[u8]],
) -> Result<Option<Event>, NoMemory>
    ensures { IfOk result (λ o. o ≡ named_event kind.now name (map (λ p. p.now) rest.now)) }
{
    if is_text(kind, b"raw") {
        Ok(read_bare(Event::Raw(name), rest))
    } else if is_text(kind, b"say") {
        Ok(read_request(alloc, rest)?.map(|words| Event::Say(name, words)))
    } else if is_text(kind, b"bytes") {
        Ok(read_bytes(alloc, rest)?.map(|bytes| Event::Bytes(name, bytes)))
    } else if is_text(kind, b"client") {
        Ok(read_client(alloc, rest)?.map(|(mode, keys)| Event::Client(name, mode, keys)))
    } else if is_text(kind, b"ask") {
        Ok(read_query(alloc, rest)?.map(|query| Event::Ask(name, query)))
    } else if is_text(kind, b"do") {
        Ok(read_request(alloc, rest)?.map(|words| Event::Do(name, words)))
    } else if is_text(kind, b"poll") {
        Ok(read_polled(alloc, rest)?.map(|number| Event::Poll(name, number)))
    } else if is_text(kind, b"show") {
        Ok(read_bare(Event::Show(name), rest))
    } else {
        Ok(None)
    }
}

#[tactic(auto, unfolding(crate::specs::Events::link_event))]
fn read_of_link(
    alloc: Global,
    kind: &[u8],
    link: Octets,
    rest: &[&[u8]],
) -> Result<Option<Event>, NoMemory>
    ensures { IfOk result (λ o. o ≡ link_event kind.now link (map (λ p. p.now) rest.now)) }
{
    if is_text(kind, b"out") {
        Ok(read_amount(alloc, rest)?.map(|amount| Event::Out(link, amount)))
    } else if is_text(kind, b"serve") {
        Ok(read_amount(alloc, rest)?.map(|amount| Event::Serve(link, amount)))
    } else if is_text(kind, b"send") {
        Ok(read_amount(alloc, rest)?.map(|amount| Event::Send(link, amount)))
    } else if is_text(kind, b"recv") {
        Ok(read_amount(alloc, rest)?.map(|amount| Event::Recv(link, amount)))
    } else if is_text(kind, b"flow") {
        Ok(read_bare(Event::Flow(link), rest))
    } else if is_text(kind, b"cut") {
        Ok(read_bare(Event::Cut(link), rest))
    } else {
        Ok(None)
    }
}

fn read_alone(kind: &[u8]) -> Option<Event>
    ensures { result ≡ event_alone kind.now }
{
    if is_text(kind, b"flow") {
        Some(Event::FlowAll)
    } else if is_text(kind, b"tick") {
        Some(Event::Tick)
    } else {
        None
    }
}

#[tactic(auto, unfolding(crate::specs::Events::event_of_parts))]
fn read_parts(alloc: Global, parts: &[&[u8]]) -> Result<Option<Event>, NoMemory>
    ensures { IfOk result (λ o. o ≡ event_of_parts (map (λ p. p.now) parts.now)) }
{
    match parts {
        [] => Ok(None),
        [kind] => Ok(read_alone(kind)),
        [kind, rest @ ..] if is_text(kind, b"now") => {
            Ok(read_polled(alloc, rest)?.map(Event::Now))
        }
        [kind, name, rest @ ..] => {
            if is_name(name) {
                let named = Octets::from_slice(alloc, name)?;
                if let Some(event) = read_named(alloc, kind, named, rest)? {
                    return Ok(Some(event));
                }
            }
            if is_link(name) {
                read_of_link(alloc, kind, Octets::from_slice(alloc, name)?, rest)
            } else {
                Ok(None)
            }
        }
    }
}

/// The event of a line of a schedule, given without its LF, or `None` where the line is not in
/// the grammar. The forms are those of the cases of `Event`, their parts parted by one space each.
/// A name has 1 to 16 of `a` to `z` and `0` to `9`, and a link of a client has `.data` or `.inv`
/// behind the client's name; a word, and the text of `bytes`, is in its one printed form, which
/// `command_words::put_printed` describes; the words of a query are a cacheable query, its name in
/// any case. Numbers are in decimal, with no leading zero and below 2^64; a count is at least 1.
/// A line of more than `LONGEST_LINE` bytes is not in the grammar.
#[tactic(auto, unfolding(crate::specs::Events::event_of))]
pub fn read_event(alloc: Global, line: &[u8]) -> Result<Option<Event>, NoMemory>
    ensures { IfOk result (λ o. o ≡ event_of line.now) }
{
    if line.len() > LONGEST_LINE {
        return Ok(None);
    }
    let parts = line_parts(alloc, line)?;
    read_parts(alloc, parts.as_slice())
}
