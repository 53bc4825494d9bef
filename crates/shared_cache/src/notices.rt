//! What a value that was read is to a client.
ghost use Rattle.std.specs.Prelude.{◌≡◌, ◌||◌, ◌∷◌, List, ℕ, IfOk, map};
ghost use Rattle.resp_value.specs.ValueTree.{tree_of};
ghost use Rattle.resp_value.specs.Tree.{trees_of};
ghost use Rattle.shared_cache.specs.Notices.{all_blobs, payload, named_push, push, kind_of};
ghost use Rattle.shared_cache.specs.Notices.{blobs_in, on_channel, message, listened_kind};
ghost use Rattle.shared_cache.specs.Notices.{notice_of};
ghost use Rattle.shared_cache.specs.Notices.{named_keys, invalidates_as};
ghost use Rattle.shared_cache.specs.Log.{is_broken_notice};
ghost use Rattle.command_words.specs.Queries.{names};

use super::log::{ClientMode, Wire};
use command_words::Written;
use resp_value::{NoMemory, Proto, Value, Words};
use std::alloc::Global;

/// What a value on a client's link is.
#[derive(Clone, Copy, Debug, PartialEq, Eq)]
pub enum Notice {
    /// No push: the reply to a command.
    Reply,
    /// An invalidation of keys.
    Keys,
    /// An invalidation of every key.
    All,
    /// A redirection is broken.
    Broken,
    /// A push of another kind.
    Other,
    /// An invalidation that is none of the forms.
    Malformed,
}

fn are_blobs(values: &[Value]) -> bool
    ensures { result ≡ all_blobs (trees_of (map tree_of values.now)) }
{
    for value in values {
        match value {
            Value::Blob(_) => {}
            _ => return false,
        }
    }
    true
}

fn payload(value: &Value) -> Notice
    ensures { result ≡ payload (tree_of value.now) }
{
    match value {
        Value::Array(keys) => {
            if are_blobs(keys.as_slice()) {
                Notice::Keys
            } else {
                Notice::Malformed
            }
        }
        Value::Null => Notice::All,
        Value::NullArray => Notice::All,
        _ => Notice::Malformed,
    }
}

fn named(name: &[u8], rest: &[Value]) -> Notice
    ensures { result ≡ named_push name.now (map tree_of rest.now) }
{
    if name == b"invalidate".as_slice() {
        match rest {
            [value] => payload(value),
            _ => Notice::Malformed,
        }
    } else if name == b"tracking-redir-broken".as_slice() {
        Notice::Broken
    } else {
        Notice::Other
    }
}

fn push(values: &[Value]) -> Notice
    ensures { result ≡ push (map tree_of values.now) }
{
    match values {
        [Value::Blob(name), rest @ ..] => named(name.as_slice(), rest),
        _ => Notice::Other,
    }
}

// The kind of a push; whatever else is no push is a reply.
fn kind_of(value: &Value) -> Notice
    ensures { result ≡ kind_of value.now }
{
    match value {
        Value::Push(values) => push(values.as_slice()),
        _ => Notice::Reply,
    }
}

fn on_channel(rest: &[Value]) -> Notice
    ensures { result ≡ on_channel (map tree_of rest.now) }
{
    match rest {
        [Value::Blob(name), value] => {
            if name.as_slice() == b"__redis__:invalidate".as_slice() {
                payload(value)
            } else {
                Notice::Malformed
            }
        }
        _ => Notice::Malformed,
    }
}

fn message(values: &[Value]) -> Notice
    ensures { result ≡ message (map tree_of values.now) }
{
    match values {
        [Value::Blob(name), rest @ ..] => {
            if name.as_slice() == b"message".as_slice() {
                on_channel(rest)
            } else {
                Notice::Reply
            }
        }
        _ => Notice::Reply,
    }
}

fn listened_kind(value: &Value) -> Notice
    ensures { result ≡ listened_kind value.now }
{
    match value {
        Value::Array(values) => message(values.as_slice()),
        _ => kind_of(value),
    }
}

/// What a value is on this link of a client of this mode.
pub fn notice_of(mode: &ClientMode, wire: Wire, value: &Value) -> Notice
    ensures { result ≡ notice_of mode.now wire value.now }
{
    match wire {
        Wire::Main => kind_of(value),
        Wire::Side => match mode.proto {
            Proto::Two => listened_kind(value),
            Proto::Three => kind_of(value),
        },
    }
}

fn blobs(alloc: Global, values: &[Value]) -> Result<Words, NoMemory>
    ensures { IfOk result (λ w. w ≡ blobs_in (trees_of (map tree_of values.now))) }
{
    let mut words = Words::new(alloc);
    for value in values {
        match value {
            Value::Blob(bytes) => words.push(bytes.copy()?)?,
            _ => {}
        }
    }
    Ok(words)
}

// The keys that an invalidation names.
fn named_keys(alloc: Global, value: &Value) -> Result<Words, NoMemory>
    ensures { IfOk result (λ w. w ≡ named_keys value.now) }
{
    match value {
        Value::Push(values) => match values.as_slice() {
            [_, Value::Array(keys)] => blobs(alloc, keys.as_slice()),
            _ => Ok(Words::new(alloc)),
        },
        Value::Array(values) => match values.as_slice() {
            [_, _, Value::Array(keys)] => blobs(alloc, keys.as_slice()),
            _ => Ok(Words::new(alloc)),
        },
        _ => Ok(Words::new(alloc)),
    }
}

/// The keys that a value of this kind invalidates.
pub fn invalidated(alloc: Global, notice: Notice, value: &Value) -> Result<Written, NoMemory>
    ensures { IfOk result (λ w. (key : List ℕ)
        → names w key ≡ invalidates_as notice (named_keys value.now) key) }
{
    match notice {
        Notice::Keys => Ok(Written::Keys(named_keys(alloc, value)?)),
        Notice::All => Ok(Written::All),
        Notice::Broken => Ok(Written::All),
        _ => Ok(Written::Keys(Words::new(alloc))),
    }
}

/// Whether a redirection is broken after a value of this kind.
pub fn is_broken_by(notice: Notice, before: bool) -> bool
    ensures { result ≡ (is_broken_notice notice || before) }
{
    match notice {
        Notice::Broken => true,
        _ => before,
    }
}
