//! PING, SUBSCRIBE and UNSUBSCRIBE: what they are answered by the subscription of a connection.
ghost use Rattle.std.specs.Prelude.{◌≡◌, ◌∷◌, [], IfOk, codes};
ghost use Rattle.std.specs.Option.{option_map_or};
ghost use Rattle.resp_value.specs.Tree as tree;
ghost use Rattle.resp_value.specs.declared.value.Value.TheVariants.{Array};
ghost use Rattle.resp_value.specs.ValueTree.{tree_of};
ghost use Rattle.serial_model.specs.Modes.{is_confined, left_channel, pong, subscribe_reply};
ghost use Rattle.serial_model.specs.Modes.{subscription, unsubscribe_reply};
ghost use Rattle.track_modes.specs.Commands.{changed};
ghost use Rattle.command_words.specs.declared.command.Command.TheVariants.{Unsubscribe};

use super::hello::blob;
use resp_value::{NoMemory, Octets, Proto, Value, Values};
use std::alloc::Global;
use track_modes::{INVALIDATION_CHANNEL, Mode};

// Whether the connection is subscribed on the second protocol.
fn is_confined(mode: &Mode) -> bool
    ensures { result ≡ is_confined mode.now }
{
    let peer = mode.peer();
    peer.proto == Proto::Two && peer.subscribed
}

// The reply to PING of a connection that is sent messages on the second protocol.
fn confined_pong(alloc: Global, text: &Option<Octets>) -> Result<Value, NoMemory>
    ensures { IfOk result (λ v. v ≡ Array
        (tree.blob (codes "pong") ∷ tree.blob (option_map_or (λ t. t) text.now []) ∷ [])) }
{
    let text = match text {
        Some(text) => blob(alloc, text.as_slice())?,
        None => blob(alloc, b"")?,
    };
    let mut parts = Values::new(alloc);
    parts.push(blob(alloc, b"pong")?)?;
    parts.push(text)?;
    Ok(Value::Array(parts))
}

/// The reply to PING.
pub fn pong(alloc: Global, mode: &Mode, text: &Option<Octets>) -> Result<Value, NoMemory>
    ensures { IfOk result (λ v. v ≡ pong mode.now text.now) }
{
    if is_confined(mode) {
        return confined_pong(alloc, text);
    }
    match text {
        Some(text) => blob(alloc, text.as_slice()),
        None => Ok(Value::Simple(Octets::from_slice(alloc, b"PONG")?)),
    }
}

// What was subscribed to or left, and whether the connection is subscribed then.
fn subscription(
    alloc: Global,
    word: &[u8],
    channel: Value,
    is_subscribed: bool,
) -> Result<Value, NoMemory>
    ensures { IfOk result (λ v. v ≡ subscription word.now (tree_of channel) is_subscribed) }
{
    let count = if is_subscribed { 1 } else { 0 };
    let mut parts = Values::new(alloc);
    parts.push(blob(alloc, word)?)?;
    parts.push(channel)?;
    parts.push(Value::Number(count))?;
    Ok(Value::Push(parts))
}

/// The reply to SUBSCRIBE.
pub fn subscribe_reply(alloc: Global, channel: &Octets) -> Result<Value, NoMemory>
    ensures { IfOk result (λ v. v ≡ subscribe_reply channel.now) }
{
    if channel.as_slice() == INVALIDATION_CHANNEL {
        let channel = blob(alloc, channel.as_slice())?;
        subscription(alloc, b"subscribe", channel, true)
    } else {
        Ok(Value::Error(Octets::from_slice(alloc, b"ERR channel not served")?))
    }
}

// The channel that UNSUBSCRIBE leaves, which without a name is the one that was subscribed to.
fn left_channel(
    alloc: Global,
    channel: &Option<Octets>,
    is_subscribed: bool,
) -> Result<Value, NoMemory>
    ensures { IfOk result (λ v. tree_of v ≡ left_channel channel.now is_subscribed) }
{
    match channel {
        Some(channel) => blob(alloc, channel.as_slice()),
        None => {
            if is_subscribed {
                blob(alloc, INVALIDATION_CHANNEL)
            } else {
                Ok(Value::Null)
            }
        }
    }
}

/// The reply to UNSUBSCRIBE in this mode; `is_subscribed` tells of the mode that it leaves.
pub fn unsubscribe_reply(
    alloc: Global,
    channel: &Option<Octets>,
    mode: &Mode,
    is_subscribed: bool,
) -> Result<Value, NoMemory>
    requires { is_subscribed ≡ (changed (Unsubscribe channel.now) mode.now).subscribed }
    ensures { IfOk result (λ v. v ≡ unsubscribe_reply channel.now mode.now) }
{
    let left = left_channel(alloc, channel, mode.peer().subscribed)?;
    subscription(alloc, b"unsubscribe", left, is_subscribed)
}
