//! HELLO: the protocol that it asks for, and its reply.
ghost use Rattle.std.specs.Prelude.{◌≡◌, ◌<◌, ◌^◌, IfOk, MatchResult, pos};
ghost use Rattle.resp_value.specs.declared.value.Value.TheVariants.{Blob, Map};
ghost use Rattle.serial_model.specs.Modes.{greeting, hello, version, version_of};

use command_words::read_integer;
use resp_value::{NoMemory, Octets, Pairs, Proto, Value, Values};
use std::alloc::Global;

// The protocol of a version's word, or the text of the error.
fn version_of(word: &Octets) -> Result<Proto, &'static [u8]>
    ensures { MatchResult result (λ p. version_of word.now ≡ Ok p)
        (λ text. version_of word.now ≡ Err text.now) }
{
    if word.as_slice() == b"2".as_slice() {
        Ok(Proto::Two)
    } else if word.as_slice() == b"3".as_slice() {
        Ok(Proto::Three)
    } else if read_integer(word.as_slice()).is_some() {
        Err(b"NOPROTO unsupported protocol version")
    } else {
        Err(b"ERR Protocol version is not an integer or out of range")
    }
}

/// The protocol that HELLO leaves in force, or the text of its error.
pub fn hello(word: &Option<Octets>, proto: Proto) -> Result<Proto, &'static [u8]>
    ensures { MatchResult result (λ p. hello word.now proto ≡ Ok p)
        (λ text. hello word.now proto ≡ Err text.now) }
{
    match word {
        Some(word) => version_of(word),
        None => Ok(proto),
    }
}

/// A text as a value.
pub fn blob(alloc: Global, text: &[u8]) -> Result<Value, NoMemory>
    ensures { IfOk result (λ v. v ≡ Blob text.now) }
{
    Ok(Value::Blob(Octets::from_slice(alloc, text)?))
}

fn number_of(proto: Proto) -> i64
    ensures { result ≡ pos (version proto) }
{
    match proto {
        Proto::Two => 2,
        Proto::Three => 3,
    }
}

/// The reply to HELLO once the protocol is in force.
pub fn greeting(alloc: Global, proto: Proto, id: u64) -> Result<Value, NoMemory>
    requires { id < 2 ^ 63 }
    ensures { IfOk result (λ v. v ≡ Map (greeting proto id)) }
{
    let mut rows = Pairs::new(alloc);
    rows.push(blob(alloc, b"server")?, blob(alloc, b"redis")?)?;
    rows.push(blob(alloc, b"version")?, blob(alloc, b"7.0.0")?)?;
    rows.push(blob(alloc, b"proto")?, Value::Number(number_of(proto)))?;
    rows.push(blob(alloc, b"id")?, Value::Number(id as i64))?;
    rows.push(blob(alloc, b"mode")?, blob(alloc, b"standalone")?)?;
    rows.push(blob(alloc, b"role")?, blob(alloc, b"master")?)?;
    rows.push(blob(alloc, b"modules")?, Value::Array(Values::new(alloc)))?;
    Ok(Value::Map(rows))
}
