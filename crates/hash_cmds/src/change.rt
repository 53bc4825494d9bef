//! Changes of the fields under a key. All that may fail comes first.
ghost use Rattle.std.specs.Prelude.{◌≡◌, ◌<◌, ◌^◌, [], OnOk, OnErr, IfOk, Some, None, length};
ghost use Rattle.std.specs.Prelude.{option_map};
ghost use Rattle.resp_value.specs.Tree.{in_turn};
ghost use Rattle.command_words.specs.Space.{content_at};
ghost use Rattle.command_words.specs.Hashes.{remove_all, set_all};
ghost use Rattle.keyspace.specs.Places.{all_placed, with_placed, with_placed_of};
ghost use Rattle.keyspace.specs.Plain.{content_of, held_of};
ghost use Rattle.hash_cmds.specs.Changed.{is_text, is_empty_hash, IsDropped};
ghost use Rattle.hash_cmds.specs.Changed.{Becomes, Adds, Loses};
ghost use Rattle.hash_cmds.specs.Changed.{HashBecomes, FieldsBecome};
ghost use Rattle.hash_cmds.specs.Changed.{held_back, with_hash};

use keyspace::{Content, Fields, Held, Keyspace, Placed};
use resp_value::{NoMemory, Octets};
use std::alloc::Global;

/// Whether the key holds a string.
pub(crate) fn holds_text(space: &Keyspace, key: &[u8]) -> bool
    ensures { result ≡ is_text (content_at key.now space.now) }
{
    match space.get(key) {
        None => false,
        Some(held) => match &held.content {
            Content::Text(_) => true,
            Content::Fields(_) => false,
        },
    }
}

/// Whether the key holds a hash without fields.
fn holds_empty(space: &Keyspace, key: &[u8]) -> bool
    ensures { result ≡ is_empty_hash (content_at key.now space.now) }
{
    match space.get(key) {
        None => false,
        Some(held) => match &held.content {
            Content::Text(_) => false,
            Content::Fields(fields) => fields.len() == 0,
        },
    }
}

/// A hash without fields goes, and is the answer.
pub(crate) fn take_empty(space: &mut Keyspace, key: &[u8]) -> Option<Held>
    ensures dropped { IsDropped key.now space.old space.new }
    ensures back { held_back key.now (option_map held_of result) space.new ≡ space.old }
{
    if holds_empty(space, key) {
        space.take(key)
    } else {
        None
    }
}

/// Sets fields of a hash, in turn with their values; a string stays.
fn set_in(content: &mut Content, words: &[Octets]) -> Result<u64, NoMemory>
    ensures ok { OnOk result (Becomes (set_all (in_turn words.now))
        (content_of content.old) (content_of content.new)) }
    ensures added { IfOk result (Adds (set_all (in_turn words.now))
        (Some (content_of content.old))) }
    ensures small { IfOk result (λ n. n < 2 ^ 63) }
    ensures err { OnErr result (content.new ≡ content.old) }
{
    match content {
        Content::Fields(fields) => fields.set_all(words),
        Content::Text(_) => Ok(0),
    }
}

/// Takes fields out of a hash, each with its place; a string stays.
fn take_in(alloc: Global, content: &mut Content, names: &[Octets]) -> Result<Vec<Placed>, NoMemory>
    ensures gone { OnOk result (Becomes (remove_all names.now)
        (content_of content.old) (content_of content.new)) }
    ensures went { IfOk result (λ v.
        Loses (remove_all names.now) (Some (content_of content.old)) (length v.items)) }
    ensures kept { IfOk result (λ v. length v.items ≡ 0 → content.new ≡ content.old) }
    ensures back { IfOk result (λ v.
        with_placed (all_placed v.items) (content_of content.new) ≡ content_of content.old) }
    ensures err { OnErr result (content.new ≡ content.old) }
{
    match content {
        Content::Fields(fields) => fields.take_all(names),
        Content::Text(_) => Ok(Vec::new(alloc)),
    }
}

/// Sets fields under a key that is missing.
fn set_first(
    alloc: Global,
    space: &mut Keyspace,
    key: &[u8],
    words: &[Octets],
) -> Result<u64, NoMemory>
    requires { content_at key.now space.old ≡ None }
    ensures ok { OnOk result
        (space.new ≡ with_hash key.now (set_all (in_turn words.now) []) space.old) }
    ensures added { IfOk result (λ n. n ≡ length (set_all (in_turn words.now) [])) }
    ensures small { IfOk result (λ n. n < 2 ^ 63) }
    ensures err { OnErr result (space.new ≡ space.old) }
{
    let mut fields = Fields::new(alloc);
    let added = fields.set_all(words)?;
    let held = Held {
        content: Content::Fields(fields),
        deadline: None,
    };
    space.put(key, held)?;
    Ok(added)
}

/// Sets fields under a key, in turn with their values; the answer is how many are new.
pub(crate) fn set_fields(
    alloc: Global,
    space: &mut Keyspace,
    key: &[u8],
    words: &[Octets],
) -> Result<u64, NoMemory>
    ensures ok { OnOk result
        (HashBecomes key.now (set_all (in_turn words.now)) space.old space.new) }
    ensures added { IfOk result
        (Adds (set_all (in_turn words.now)) (content_at key.now space.old)) }
    ensures small { IfOk result (λ n. n < 2 ^ 63) }
    ensures err { OnErr result (space.new ≡ space.old) }
{
    match space.content_mut(key) {
        Some(content) => set_in(content, words),
        None => set_first(alloc, space, key, words),
    }
}

/// Takes fields out under a key, each with its place.
pub(crate) fn take_under(
    alloc: Global,
    space: &mut Keyspace,
    key: &[u8],
    names: &[Octets],
) -> Result<Vec<Placed>, NoMemory>
    ensures gone { OnOk result
        (FieldsBecome key.now (remove_all names.now) space.old space.new) }
    ensures went { IfOk result (λ v.
        Loses (remove_all names.now) (content_at key.now space.old) (length v.items)) }
    ensures kept { IfOk result (λ v. length v.items ≡ 0 → space.new ≡ space.old) }
    ensures back { IfOk result (λ v.
        with_placed_of key.now (all_placed v.items) space.new ≡ space.old) }
    ensures err { OnErr result (space.new ≡ space.old) }
{
    match space.content_mut(key) {
        Some(content) => take_in(alloc, content, names),
        None => Ok(Vec::new(alloc)),
    }
}
