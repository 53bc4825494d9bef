//! The line of a client: how it is set up, and how many keys it may hold.
ghost use Rattle.std.specs.Prelude.{◌≡◌, List, ℕ, IfOk, map};
ghost use Rattle.std.specs.Option.{option_and_then};
ghost use Rattle.script_text.specs.Clients.{after_noloop, caching_of, client_from, client_of};
ghost use Rattle.script_text.specs.Clients.{has_noloop, may_speak, mode_of, prefixes_of, proto_of};
ghost use Rattle.script_text.specs.Clients.{shape_of, with_keys};

use super::words::{is_text, read_within, read_word};
use resp_value::{NoMemory, Proto, Words};
use shared_cache::{Caching, ClientMode, Shape};
use std::alloc::Global;

/// The greatest number of keys that a client of a schedule may hold.
const MOST_KEYS: u64 = 1_000_000;

fn read_shape(text: &[u8]) -> Option<Shape>
    ensures { result ≡ shape_of text.now }
{
    if is_text(text, b"single") {
        Some(Shape::Single)
    } else if is_text(text, b"pair") {
        Some(Shape::Pair)
    } else {
        None
    }
}

fn read_proto(text: &[u8]) -> Option<Proto>
    ensures { result ≡ proto_of text.now }
{
    if is_text(text, b"2") {
        Some(Proto::Two)
    } else if is_text(text, b"3") {
        Some(Proto::Three)
    } else {
        None
    }
}

fn may_speak(shape: Shape, proto: Proto) -> bool
    ensures { result ≡ may_speak shape proto }
{
    !matches!((shape, proto), (Shape::Single, Proto::Two))
}

fn read_caching(text: &[u8], prefixes: Words) -> Option<Caching>
    ensures { result ≡ caching_of text.now prefixes }
{
    if is_text(text, b"bcast") {
        Some(Caching::Bcast(prefixes))
    } else if !prefixes.as_slice().is_empty() {
        None
    } else if is_text(text, b"default") {
        Some(Caching::Default)
    } else if is_text(text, b"optin") {
        Some(Caching::OptIn)
    } else if is_text(text, b"optout") {
        Some(Caching::OptOut)
    } else {
        None
    }
}

fn has_noloop(options: &[&[u8]]) -> bool
    ensures { result ≡ has_noloop (map (λ p. p.now) options.now) }
{
    match options {
        [first, ..] => is_text(first, b"noloop"),
        [] => false,
    }
}

fn after_noloop<'a, 'b>(options: &'a [&'b [u8]]) -> &'a [&'b [u8]]
    ensures { map (λ p. p.now) result.now ≡ after_noloop (map (λ p. p.now) options.now) }
{
    match options {
        [first, rest @ ..] if is_text(first, b"noloop") => rest,
        _ => options,
    }
}

fn read_prefixes(alloc: Global, options: &[&[u8]]) -> Result<Option<Words>, NoMemory>
    ensures { IfOk result (λ o. o ≡ prefixes_of (map (λ p. p.now) options.now)) }
{
    let mut prefixes = Words::new(alloc);
    let mut rest = options;
    'prefixes: while let [word, text, after @ ..] = rest {
        if !is_text(word, b"prefix") {
            return Ok(None);
        }
        match read_word(alloc, text)? {
            Some(prefix) => prefixes.push(prefix)?,
            None => return Ok(None),
        }
        rest = after;
    }
    Ok(if rest.is_empty() {
        Some(prefixes)
    } else {
        None
    })
}

/// Caching with the prefixes that stand among the options.
fn read_cached(
    alloc: Global,
    caching: &[u8],
    options: &[&[u8]],
) -> Result<Option<Caching>, NoMemory>
    ensures { IfOk result (λ o. o ≡ option_and_then (caching_of caching.now)
        (prefixes_of (after_noloop (map (λ p. p.now) options.now)))) }
{
    match read_prefixes(alloc, after_noloop(options))? {
        Some(prefixes) => Ok(read_caching(caching, prefixes)),
        None => Ok(None),
    }
}

fn mode_of(
    shape: Option<Shape>,
    proto: Option<Proto>,
    caching: Option<Caching>,
    noloop: bool,
) -> Option<ClientMode>
    ensures { result ≡ mode_of shape proto caching noloop }
{
    let mode = ClientMode {
        shape: shape?,
        proto: proto?,
        caching: caching?,
        noloop,
    };
    if may_speak(mode.shape, mode.proto) {
        Some(mode)
    } else {
        None
    }
}

fn with_keys(mode: Option<ClientMode>, keys: Option<u64>) -> Option<(ClientMode, u64)>
    ensures { result ≡ with_keys mode keys }
{
    match (mode, keys) {
        (Some(mode), Some(keys)) => Some((mode, keys)),
        _ => None,
    }
}

#[tactic(auto, unfolding(crate::specs::Clients::client_from))]
fn read_from(
    alloc: Global,
    shape: &[u8],
    proto: &[u8],
    caching: &[u8],
    keys: &[u8],
    options: &[&[u8]],
) -> Result<Option<(ClientMode, u64)>, NoMemory>
    ensures { IfOk result (λ o. o ≡ client_from shape.now proto.now caching.now keys.now
        (map (λ p. p.now) options.now)) }
{
    let caching = read_cached(alloc, caching, options)?;
    let mode = mode_of(
        read_shape(shape),
        read_proto(proto),
        caching,
        has_noloop(options),
    );
    let keys = read_within(alloc, 1, MOST_KEYS, keys)?;
    Ok(with_keys(mode, keys))
}

pub fn read_client(alloc: Global, rest: &[&[u8]]) -> Result<Option<(ClientMode, u64)>, NoMemory>
    ensures { IfOk result (λ o. o ≡ client_of (map (λ p. p.now) rest.now)) }
{
    match rest {
        [shape, proto, caching, keys, options @ ..] => {
            read_from(alloc, shape, proto, caching, keys, options)
        }
        _ => Ok(None),
    }
}
