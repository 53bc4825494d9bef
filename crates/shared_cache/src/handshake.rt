//! The handshake: its commands, and what each is to be answered.
ghost use Rattle.std.specs.Prelude.{◌≡◌, ◌+◌, ◌-◌, ◌<◌, ◌≤◌, ◌++◌, ◌∷◌, [], List, ℕ, IfOk, OnOk};
ghost use Rattle.std.specs.Prelude.{codes, length, Some};
ghost use Rattle.std.specs.List.{flat_map, slice_get};
ghost use Rattle.resp_value.specs.Spelling.{request_spelling};
ghost use Rattle.shared_cache.specs.declared.log.Wire.TheVariants.{Main, Side};
ghost use Rattle.shared_cache.specs.Log.{handshake, tracking, caching_words, noloop_words};
ghost use Rattle.shared_cache.specs.Log.{steps, handshake_length, id_in, is_ok_text};
ghost use Rattle.shared_cache.specs.Steps.{is_map, is_id, is_listening, welcomes, is_welcome};
ghost use Rattle.shared_cache.specs.ClientFields.{id_after, tracking_behind};

use super::log::{Caching, ClientMode, Shape, Wire};
use byte_queue::ByteQueue;
use itoa::Buffer;
use resp_value::{NoMemory, Octets, Proto, Value, Words, put_request};
use std::alloc::Global;

/// A command of the handshake.
#[derive(Clone, Copy, Debug, PartialEq, Eq)]
pub enum HandshakeStep {
    /// HELLO 3.
    Hello,
    /// CLIENT ID.
    ClientId,
    /// SUBSCRIBE to the channel of invalidations.
    Subscribe,
    /// CLIENT TRACKING ON.
    Track,
}

/// How many commands the handshake has on Main.
pub fn handshake_length(mode: &ClientMode) -> u64
    ensures length { result ≡ handshake_length mode.now }
    ensures within { (0 < result) × (result ≤ 2) }
{
    match mode.proto {
        Proto::Two => 1,
        Proto::Three => 2,
    }
}

/// How many commands the handshake has on Side.
pub fn side_length(mode: &ClientMode) -> u64
    ensures { result ≡ length (steps mode.now Side) }
{
    match mode.shape {
        Shape::Single => 0,
        Shape::Pair => match mode.proto {
            Proto::Two => 2,
            Proto::Three => 2,
        },
    }
}

fn first_step(mode: &ClientMode, wire: Wire) -> Option<HandshakeStep>
    ensures { result ≡ slice_get (steps mode.now wire) 0 }
{
    match wire {
        Wire::Main => match mode.proto {
            Proto::Two => Some(HandshakeStep::Track),
            Proto::Three => Some(HandshakeStep::Hello),
        },
        Wire::Side => match mode.shape {
            Shape::Single => None,
            Shape::Pair => match mode.proto {
                Proto::Two => Some(HandshakeStep::ClientId),
                Proto::Three => Some(HandshakeStep::Hello),
            },
        },
    }
}

fn second_step(mode: &ClientMode, wire: Wire) -> Option<HandshakeStep>
    ensures { result ≡ slice_get (steps mode.now wire) 1 }
{
    match wire {
        Wire::Main => match mode.proto {
            Proto::Two => None,
            Proto::Three => Some(HandshakeStep::Track),
        },
        Wire::Side => match mode.shape {
            Shape::Single => None,
            Shape::Pair => match mode.proto {
                Proto::Two => Some(HandshakeStep::Subscribe),
                Proto::Three => Some(HandshakeStep::ClientId),
            },
        },
    }
}

fn step_of(mode: &ClientMode, wire: Wire, number: u64) -> Option<HandshakeStep>
    requires { 0 < number }
    ensures { result ≡ slice_get (steps mode.now wire) (number - 1) }
{
    match number {
        1 => first_step(mode, wire),
        2 => second_step(mode, wire),
        _ => None,
    }
}

fn is_map(value: &Value) -> bool
    ensures { result ≡ is_map value.now }
{
    match value {
        Value::Map(_) => true,
        _ => false,
    }
}

fn is_id(value: &Value) -> bool
    ensures { result ≡ is_id value.now }
{
    match value {
        Value::Number(id) => *id > 0,
        _ => false,
    }
}

// The three elements of a reply to SUBSCRIBE: the channel's first subscription.
fn is_listening(value: &Value) -> bool
    ensures { result ≡ is_listening value.now }
{
    match value {
        Value::Array(values) => match values.as_slice() {
            [Value::Blob(kind), Value::Blob(name), Value::Number(count)] => {
                kind.as_slice() == b"subscribe".as_slice()
                    && name.as_slice() == b"__redis__:invalidate".as_slice()
                    && *count == 1
            }
            _ => false,
        },
        _ => false,
    }
}

fn is_ok_text(value: &Value) -> bool
    ensures { result ≡ is_ok_text value.now }
{
    match value {
        Value::Simple(text) => text.as_slice() == b"OK".as_slice(),
        _ => false,
    }
}

fn welcomes(step: HandshakeStep, value: &Value) -> bool
    ensures { result ≡ welcomes step value.now }
{
    match step {
        HandshakeStep::Hello => is_map(value),
        HandshakeStep::ClientId => is_id(value),
        HandshakeStep::Subscribe => is_listening(value),
        HandshakeStep::Track => is_ok_text(value),
    }
}

/// Whether the value answers the command of that number on that link as it is to be answered, if it
/// is one of the handshake.
pub fn is_welcome(mode: &ClientMode, wire: Wire, number: u64, value: &Value) -> bool
    requires { 0 < number }
    ensures { result ≡ is_welcome mode.now wire number value.now }
{
    match step_of(mode, wire, number) {
        None => true,
        Some(step) => welcomes(step, value),
    }
}

fn push_word(alloc: Global, word: &[u8], words: &mut Words) -> Result<(), NoMemory>
    ensures { OnOk result (words.new ≡ words.old ++ word.now ∷ []) }
{
    words.push(Octets::from_slice(alloc, word)?)
}

fn two_words(alloc: Global, first: &[u8], second: &[u8]) -> Result<Words, NoMemory>
    ensures { IfOk result (λ w. w ≡ first.now ∷ second.now ∷ []) }
{
    let mut words = Words::new(alloc);
    push_word(alloc, first, &mut words)?;
    push_word(alloc, second, &mut words)?;
    Ok(words)
}

fn push_prefixes(alloc: Global, prefixes: &[Octets], words: &mut Words) -> Result<(), NoMemory>
    ensures { OnOk result (words.new
        ≡ words.old ++ flat_map (λ p. codes "PREFIX" ∷ p ∷ []) prefixes.now) }
{
    for prefix in prefixes {
        push_word(alloc, b"PREFIX", words)?;
        words.push(prefix.copy()?)?;
    }
    Ok(())
}

fn push_caching(alloc: Global, caching: &Caching, words: &mut Words) -> Result<(), NoMemory>
    ensures { OnOk result (words.new ≡ words.old ++ caching_words caching.now) }
{
    match caching {
        Caching::Default => Ok(()),
        Caching::OptIn => push_word(alloc, b"OPTIN", words),
        Caching::OptOut => push_word(alloc, b"OPTOUT", words),
        Caching::Bcast(prefixes) => {
            push_word(alloc, b"BCAST", words)?;
            push_prefixes(alloc, prefixes.as_slice(), words)
        }
    }
}

fn push_noloop(alloc: Global, noloop: bool, words: &mut Words) -> Result<(), NoMemory>
    ensures { OnOk result (words.new ≡ words.old ++ noloop_words noloop) }
{
    if noloop {
        push_word(alloc, b"NOLOOP", words)
    } else {
        Ok(())
    }
}

fn push_options(alloc: Global, mode: &ClientMode, words: &mut Words) -> Result<(), NoMemory>
    ensures { OnOk result (words.new
        ≡ words.old ++ (caching_words mode.now.caching ++ noloop_words mode.now.noloop)) }
{
    push_caching(alloc, &mode.caching, words)?;
    push_noloop(alloc, mode.noloop, words)
}

fn tracking_on(alloc: Global) -> Result<Words, NoMemory>
    ensures { IfOk result (λ w. w ≡ codes "CLIENT" ∷ codes "TRACKING" ∷ codes "ON" ∷ []) }
{
    let mut words = two_words(alloc, b"CLIENT", b"TRACKING")?;
    push_word(alloc, b"ON", &mut words)?;
    Ok(words)
}

// The tracking command of one link.
fn tracking(alloc: Global, mode: &ClientMode) -> Result<Words, NoMemory>
    ensures { IfOk result (λ w. w ≡ tracking mode.now []) }
{
    let mut words = tracking_on(alloc)?;
    push_options(alloc, mode, &mut words)?;
    Ok(words)
}

// Of two, where that id is the invalidation link's.
fn tracking_to(alloc: Global, mode: &ClientMode, id: &Octets) -> Result<Words, NoMemory>
    ensures { IfOk result
        (λ w. w ≡ tracking mode.now (codes "REDIRECT" ∷ id.now ∷ [])) }
{
    let mut words = tracking_on(alloc)?;
    push_word(alloc, b"REDIRECT", &mut words)?;
    words.push(id.copy()?)?;
    push_options(alloc, mode, &mut words)?;
    Ok(words)
}

/// The bytes that Side's reply of that number lets go on Main, where that is the id: the tracking
/// command waits for the last.
pub fn tracking_behind(
    alloc: Global,
    mode: &ClientMode,
    number: u64,
    id: &Octets,
) -> Result<Vec<u8>, NoMemory>
    ensures { IfOk result (λ v. v.items ≡ tracking_behind mode.now number id.now) }
{
    let mut bytes = Vec::new(alloc);
    if number != 2 {
        return Ok(bytes);
    }
    put_request(&tracking_to(alloc, mode, id)?, &mut bytes)?;
    Ok(bytes)
}

fn put_hello(alloc: Global, bytes: &mut Vec<u8>) -> Result<(), NoMemory>
    ensures { OnOk result (bytes.new.items ≡ bytes.old.items
        ++ request_spelling (codes "HELLO" ∷ codes "3" ∷ [])) }
{
    put_request(&two_words(alloc, b"HELLO", b"3")?, bytes)
}

fn put_client_id(alloc: Global, bytes: &mut Vec<u8>) -> Result<(), NoMemory>
    ensures { OnOk result (bytes.new.items ≡ bytes.old.items
        ++ request_spelling (codes "CLIENT" ∷ codes "ID" ∷ [])) }
{
    put_request(&two_words(alloc, b"CLIENT", b"ID")?, bytes)
}

fn put_subscribe(alloc: Global, bytes: &mut Vec<u8>) -> Result<(), NoMemory>
    ensures { OnOk result (bytes.new.items ≡ bytes.old.items
        ++ request_spelling (codes "SUBSCRIBE" ∷ codes "__redis__:invalidate" ∷ [])) }
{
    put_request(
        &two_words(alloc, b"SUBSCRIBE", b"__redis__:invalidate")?,
        bytes,
    )
}

fn put_main(alloc: Global, mode: &ClientMode, bytes: &mut Vec<u8>) -> Result<(), NoMemory>
    ensures { OnOk result (bytes.new.items ≡ bytes.old.items
        ++ flat_map request_spelling (handshake mode.now Main [])) }
{
    match mode.proto {
        Proto::Two => {}
        Proto::Three => put_hello(alloc, bytes)?,
    }
    match mode.shape {
        Shape::Single => put_request(&tracking(alloc, mode)?, bytes),
        Shape::Pair => Ok(()),
    }
}

fn put_side(alloc: Global, mode: &ClientMode, bytes: &mut Vec<u8>) -> Result<(), NoMemory>
    ensures { OnOk result (bytes.new.items ≡ bytes.old.items
        ++ flat_map request_spelling (handshake mode.now Side [])) }
{
    match mode.shape {
        Shape::Single => Ok(()),
        Shape::Pair => match mode.proto {
            Proto::Two => {
                put_client_id(alloc, bytes)?;
                put_subscribe(alloc, bytes)
            }
            Proto::Three => {
                put_hello(alloc, bytes)?;
                put_client_id(alloc, bytes)
            }
        },
    }
}

/// The bytes of the handshake that go out on a link at the start.
pub fn greeting(alloc: Global, mode: &ClientMode, wire: Wire) -> Result<ByteQueue, NoMemory>
    ensures { IfOk result (λ b. b ≡ flat_map request_spelling (handshake mode.now wire [])) }
{
    let mut bytes = Vec::new(alloc);
    match wire {
        Wire::Main => put_main(alloc, mode, &mut bytes)?,
        Wire::Side => put_side(alloc, mode, &mut bytes)?,
    }
    let mut queued = ByteQueue::new(alloc);
    queued.add(&bytes)?;
    Ok(queued)
}

fn id_digits(alloc: Global, value: &Value) -> Result<Octets, NoMemory>
    ensures { IfOk result (λ o. o ≡ id_in (Some value.now)) }
{
    match value {
        Value::Number(id) => {
            let mut digits = Buffer::new();
            Octets::from_slice(alloc, digits.format(*id).as_bytes())
        }
        _ => Octets::from_slice(alloc, b""),
    }
}

/// The digits of the id that Side was told, after its reply of that number.
pub fn id_after(
    alloc: Global,
    mode: &ClientMode,
    number: u64,
    value: &Value,
    before: &Octets,
) -> Result<Octets, NoMemory>
    ensures { IfOk result (λ o. o ≡ id_after mode.now.proto number value.now before.now) }
{
    let id_number = match mode.proto {
        Proto::Two => 1,
        Proto::Three => 2,
    };
    if id_number == number {
        id_digits(alloc, value)
    } else {
        before.copy()
    }
}
