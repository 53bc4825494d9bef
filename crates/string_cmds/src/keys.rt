//! The keys that MSET signals.
ghost use Rattle.std.specs.Prelude.{◌≡◌, IfOk, OnOk, map};
ghost use Rattle.std.specs.List.{list_any};
ghost use Rattle.std.specs.Str.{bytes_eq};
ghost use Rattle.resp_value.specs.Tree.{in_turn};
ghost use Rattle.command_words.specs.KeyLists.{each_once, with_key};

use keyspace::Fields;
use resp_value::{NoMemory, Octets, Words};
use std::alloc::Global;

/// Of how many words the keys are looked at one by one for a repeated one; a hash costs more.
const FEW: usize = 64;

/// Whether the key is among them.
fn has(keys: &[Octets], key: &[u8]) -> bool
    ensures { result ≡ list_any (bytes_eq key.now) keys.now }
{
    for met in keys {
        if key == met.as_slice() {
            return true;
        }
    }
    false
}

/// The key goes last, where it is none of those.
fn push_once(key: &Octets, keys: &mut Words) -> Result<(), NoMemory>
    ensures { OnOk result (keys.new ≡ with_key key.now keys.old) }
{
    if has(keys.as_slice(), key.as_slice()) {
        return Ok(());
    }
    keys.push(key.copy()?)
}

/// The keys, with a look at each of those before a key.
fn few_once(alloc: Global, words: &[Octets]) -> Result<Words, NoMemory>
    ensures { IfOk result (λ keys. keys ≡ each_once (map (λ p. p.0) (in_turn words.now))) }
{
    let mut keys = Words::new(alloc);
    let mut left = words;
    'keys: while let [key, _, others @ ..] = left {
        push_once(key, &mut keys)?;
        left = others;
    }
    Ok(keys)
}

/// The keys, by a hash whose fields are the keys met so far.
fn many_once(alloc: Global, words: &[Octets]) -> Result<Words, NoMemory>
    ensures { IfOk result (λ keys. keys ≡ each_once (map (λ p. p.0) (in_turn words.now))) }
{
    let mut met = Fields::new(alloc);
    let mut keys = Words::new(alloc);
    let mut left = words;
    'keys: while let [key, _, others @ ..] = left {
        if met.set(key.as_slice(), Octets::from_slice(alloc, b"")?)? {
            keys.push(key.copy()?)?;
        }
        left = others;
    }
    Ok(keys)
}

/// The keys of keys and values in turn, each once, in order of first occurrence.
pub(crate) fn each_key_once(alloc: Global, words: &[Octets]) -> Result<Words, NoMemory>
    ensures { IfOk result (λ keys. keys ≡ each_once (map (λ p. p.0) (in_turn words.now))) }
{
    if words.len() <= FEW {
        few_once(alloc, words)
    } else {
        many_once(alloc, words)
    }
}
