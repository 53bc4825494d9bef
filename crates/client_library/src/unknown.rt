//! Commands that the client doesn't know, and the invalidation that it plays itself.
ghost use Rattle.std.specs.Prelude.{◌≡◌, IfOk};
ghost use Rattle.resp_value.specs.Tree.{trees_of};
ghost use Rattle.client_library.specs.Unknown.{blobs, invalidation, is_unknown};

use command_words::{WordFault, read_command};
use resp_value::{NoMemory, Octets, Value, Values, Words};
use std::alloc::Global;

/// Whether the words read as no command of the client's table.
#[tactic(auto, unfolding(crate::specs::Unknown::is_unknown))]
pub fn is_unknown(alloc: Global, words: &Words) -> Result<bool, NoMemory>
    ensures { IfOk result (λ b. b ≡ is_unknown words.now) }
{
    match read_command(alloc, words) {
        Ok(_) => Ok(false),
        Err(WordFault::NoMemory) => Err(NoMemory),
        Err(_) => Ok(true),
    }
}

fn blobs(alloc: Global, keys: &[Octets]) -> Result<Values, NoMemory>
    ensures { IfOk result (λ v. v ≡ blobs keys.now) }
{
    let mut values = Values::new(alloc);
    for key in keys {
        values.push(Value::Blob(key.copy()?))?;
    }
    Ok(values)
}

/// The invalidation of these keys, as a server sends it.
pub fn invalidation(alloc: Global, keys: &[Octets]) -> Result<Value, NoMemory>
    ensures { IfOk result (λ v. v ≡ invalidation keys.now) }
{
    let keys = blobs(alloc, keys)?;
    let mut values = Values::new(alloc);
    values.push(Value::Blob(Octets::from_slice(alloc, b"invalidate")?))?;
    values.push(Value::Array(keys))?;
    Ok(Value::Push(values))
}
