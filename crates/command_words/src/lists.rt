//! Lists of words.
ghost use Rattle.std.specs.Prelude.{◌≡◌, ◌++◌, IfOk, OnOk};
ghost use Rattle.std.specs.List.{list_any};
ghost use Rattle.std.specs.Str.{bytes_eq};

use resp_value::{NoMemory, Octets, Words};
use std::alloc::Global;

/// Copies of the words go last.
pub(crate) fn push_all(words: &[Octets], out: &mut Words) -> Result<(), NoMemory>
    ensures { OnOk result (out.new ≡ out.old ++ words.now) }
{
    for word in words {
        out.push(word.copy()?)?;
    }
    Ok(())
}

/// An equal list.
pub(crate) fn copies(alloc: Global, words: &[Octets]) -> Result<Words, NoMemory>
    ensures { IfOk result (λ w. w ≡ words.now) }
{
    let mut out = Words::new(alloc);
    push_all(words, &mut out)?;
    Ok(out)
}

/// Whether the key is among them.
pub(crate) fn has(keys: &[Octets], key: &[u8]) -> bool
    ensures { result ≡ list_any (bytes_eq key.now) keys.now }
{
    for named in keys {
        if key == named.as_slice() {
            return true;
        }
    }
    false
}
