//! What the client puts before a caller's command: CLIENT CACHING, in the modes by opting.
ghost use Rattle.std.specs.Prelude.{◌≡◌, ◌++◌, ◌∷◌, [], IfOk, OnOk, map, codes, nat_eq};
ghost use Rattle.std.specs.List.{flat_map, list_any, starts_with};
ghost use Rattle.resp_value.specs.Spelling.{request_spelling};
ghost use Rattle.command_words.specs.Queries.{read};
ghost use Rattle.shared_cache.specs.Held.{led_by, read_lead, send_lead, is_read, is_some_key};
ghost use Rattle.shared_cache.specs.Held.{word_of};
ghost use Rattle.shared_cache.specs.Log.{covers};

use super::log::Caching;
use command_words::{Command, WordFault, keys_read, read_command};
use resp_value::{NoMemory, Octets, Words, put_request};
use std::alloc::Global;

/// Whether the keys of the next command are remembered.
#[derive(Clone, Copy, Debug, PartialEq, Eq)]
pub enum CachingWord {
    Yes,
    No,
}

/// What goes before a read whose fetch has caching on or off.
pub fn read_lead(caching: &Caching, on: bool) -> Option<CachingWord>
    ensures { result ≡ read_lead caching.now on }
{
    match caching {
        Caching::OptIn if on => Some(CachingWord::Yes),
        _ => None,
    }
}

fn reads_some(alloc: Global, command: &Command) -> Result<bool, NoMemory>
    ensures { IfOk result (λ b. b ≡ is_some_key (read command.now)) }
{
    let keys = keys_read(alloc, command)?;
    Ok(!keys.as_slice().is_empty())
}

#[tactic(auto, unfolding(crate::specs::Held::is_read))]
fn is_read(alloc: Global, words: &Words) -> Result<bool, NoMemory>
    ensures { IfOk result (λ b. b ≡ is_read words.now) }
{
    match read_command(alloc, words) {
        Ok(command) => reads_some(alloc, &command),
        Err(WordFault::NoMemory) => Err(NoMemory),
        Err(_) => Ok(false),
    }
}

/// What goes before a Send's words while caching is on or off.
pub fn send_lead(
    alloc: Global,
    caching: &Caching,
    on: bool,
    words: &Words,
) -> Result<Option<CachingWord>, NoMemory>
    ensures { IfOk result (λ l. l ≡ send_lead caching.now on (is_read words.now)) }
{
    match caching {
        Caching::OptOut if on => {
            if is_read(alloc, words)? {
                Ok(Some(CachingWord::No))
            } else {
                Ok(None)
            }
        }
        _ => Ok(None),
    }
}

fn word_of(word: CachingWord) -> &'static [u8]
    ensures { result.now ≡ word_of word }
{
    match word {
        CachingWord::Yes => b"YES".as_slice(),
        CachingWord::No => b"NO".as_slice(),
    }
}

fn caching_command(alloc: Global, word: CachingWord) -> Result<Words, NoMemory>
    ensures { IfOk result
        (λ w. w ≡ codes "CLIENT" ∷ codes "CACHING" ∷ word_of word ∷ []) }
{
    let mut words = Words::new(alloc);
    words.push(Octets::from_slice(alloc, b"CLIENT")?)?;
    words.push(Octets::from_slice(alloc, b"CACHING")?)?;
    words.push(Octets::from_slice(alloc, word_of(word))?)?;
    Ok(words)
}

/// The bytes of a caller's command, and of what goes before it.
pub fn put_led(
    alloc: Global,
    lead: Option<CachingWord>,
    words: &Words,
    bytes: &mut Vec<u8>,
) -> Result<(), NoMemory>
    ensures { OnOk result (bytes.new.items ≡ bytes.old.items
        ++ flat_map request_spelling (map (λ c. c.words) (led_by lead words.now))) }
{
    match lead {
        Some(word) => put_request(&caching_command(alloc, word)?, bytes)?,
        None => {}
    }
    put_request(words, bytes)
}

/// Whether the server tells of the key.
pub fn covers(caching: &Caching, key: &[u8]) -> bool
    ensures { result ≡ covers caching.now key.now }
{
    match caching {
        Caching::Bcast(prefixes) => {
            let prefixes = prefixes.as_slice();
            match prefixes {
                [] => true,
                _ => starts_with_any(prefixes, key),
            }
        }
        _ => true,
    }
}

fn starts_with_any(prefixes: &[Octets], key: &[u8]) -> bool
    ensures { result ≡ list_any (starts_with nat_eq key.now) prefixes.now }
{
    for prefix in prefixes {
        if key.starts_with(prefix.as_slice()) {
            return true;
        }
    }
    false
}
