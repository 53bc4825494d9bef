//! The messages of invalidation, and the notice of a broken redirection (the client-side caching
//! reference).
ghost use Rattle.std.specs.Prelude.{◌≡◌, ◌<◌, ◌^◌, IfOk, Some, map, option_map, pos};
ghost use Rattle.resp_value.specs.Tree.{blob};
ghost use Rattle.resp_value.specs.declared.value.Value.TheVariants.{Blob};
ghost use Rattle.redirect.specs.Messages.{HasMessage, invalidation_of, keys_of, notice_of};

use super::routes::Route;
use resp_value::{NoMemory, Octets, Value, Values, Words};
use std::alloc::Global;
use track_modes::INVALIDATION_CHANNEL;

fn text(alloc: Global, bytes: &[u8]) -> Result<Value, NoMemory>
    ensures { IfOk result (λ v. v ≡ Blob bytes.now) }
{
    Ok(Value::Blob(Octets::from_slice(alloc, bytes)?))
}

fn blobs(alloc: Global, keys: &Words) -> Result<Values, NoMemory>
    ensures { IfOk result (λ v. v ≡ map blob keys.now) }
{
    let mut values = Values::new(alloc);
    for key in keys.as_slice() {
        values.push(Value::Blob(key.copy()?))?;
    }
    Ok(values)
}

// The keys, or null for all.
fn keys_value(alloc: Global, keys: Option<&Words>) -> Result<Value, NoMemory>
    ensures { IfOk result (λ v. v ≡ keys_of (option_map (λ w. w.now) keys.entry)) }
{
    match keys {
        Some(keys) => Ok(Value::Array(blobs(alloc, keys)?)),
        None => Ok(Value::Null),
    }
}

/// The message that these keys, or all, are not what they were, for the connection of a route. It
/// is spelled in that connection's protocol.
pub fn invalidation(alloc: Global, route: &Route, keys: Option<&Words>) -> Result<Value, NoMemory>
    requires { HasMessage route.now }
    ensures { IfOk result
        (λ v. Some v ≡ invalidation_of route.now (option_map (λ w. w.now) keys.entry)) }
{
    let mut values = Values::new(alloc);
    match route {
        Route::Push(_) => {
            values.push(text(alloc, b"invalidate")?)?;
            values.push(keys_value(alloc, keys)?)?;
            Ok(Value::Push(values))
        }
        Route::Message(_) => {
            values.push(text(alloc, b"message")?)?;
            values.push(text(alloc, INVALIDATION_CHANNEL)?)?;
            values.push(keys_value(alloc, keys)?)?;
            Ok(Value::Array(values))
        }
        Route::BrokenNotice(_) | Route::Nowhere => unreachable!(),
    }
}

/// The notice that the connection `target`, which messages are redirected to, has ended.
pub fn notice(alloc: Global, target: u64) -> Result<Value, NoMemory>
    requires { target < 2 ^ 63 }
    ensures { IfOk result (λ v. v ≡ notice_of target) }
{
    let mut values = Values::new(alloc);
    values.push(text(alloc, b"tracking-redir-broken")?)?;
    values.push(Value::Number(target as i64))?;
    Ok(Value::Push(values))
}
