//! How a part of what a key holds comes to be as it was.
ghost use Rattle.std.specs.Prelude.{◌≡◌, IfOk, OnOk, OnErr, take};
ghost use Rattle.keyspace.specs.Places.{all_placed, with_placed, with_placed_of};
ghost use Rattle.keyspace.specs.Plain.{content_of};
ghost use Rattle.command_set.specs.Priors.{shortened, with_field, with_text_of, with_field_of};

use keyspace::{Content, Keyspace, Placed};
use resp_value::{NoMemory, Octets};
use std::alloc::Global;

/// The first bytes of a string, so many.
fn front(alloc: Global, text: &Octets, len: usize) -> Result<Octets, NoMemory>
    ensures { IfOk result (λ o. o ≡ take len text.now) }
{
    let bytes = text.as_slice();
    if len < bytes.len() {
        Octets::from_slice(alloc, &bytes[..len])
    } else {
        text.copy()
    }
}

/// A string has its first bytes alone, so many; a hash stays.
fn shorten(alloc: Global, content: &mut Content, len: usize) -> Result<(), NoMemory>
    ensures ok { OnOk result (content_of content.new ≡ shortened len (content_of content.old)) }
    ensures err { OnErr result (content.new ≡ content.old) }
{
    match content {
        Content::Text(text) => {
            *text = front(alloc, text, len)?;
            Ok(())
        }
        Content::Fields(_) => Ok(()),
    }
}

/// The string of the key has its first bytes alone, so many.
pub(crate) fn shorten_text(
    alloc: Global,
    space: &mut Keyspace,
    key: &[u8],
    len: usize,
) -> Result<(), NoMemory>
    ensures ok { OnOk result (space.new ≡ with_text_of key.now len space.old) }
    ensures err { OnErr result (space.new ≡ space.old) }
{
    match space.content_mut(key) {
        Some(content) => shorten(alloc, content, len),
        None => Ok(()),
    }
}

/// A field of a hash has this value, or goes; a string stays.
fn put_field(content: &mut Content, field: &[u8], value: &Option<Octets>) -> Result<(), NoMemory>
    ensures ok { OnOk result
        (content_of content.new ≡ with_field field.now value.now (content_of content.old)) }
    ensures err { OnErr result (content.new ≡ content.old) }
{
    match content {
        Content::Text(_) => Ok(()),
        Content::Fields(fields) => match value {
            None => {
                fields.remove(field);
                Ok(())
            }
            Some(value) => {
                fields.set(field, value.copy()?)?;
                Ok(())
            }
        },
    }
}

/// A field of the key's hash has this value, or goes.
pub(crate) fn put_field_of(
    space: &mut Keyspace,
    key: &[u8],
    field: &[u8],
    value: &Option<Octets>,
) -> Result<(), NoMemory>
    ensures ok { OnOk result (space.new ≡ with_field_of key.now field.now value.now space.old) }
    ensures err { OnErr result (space.new ≡ space.old) }
{
    match space.content_mut(key) {
        Some(content) => put_field(content, field, value),
        None => Ok(()),
    }
}

/// Fields that were taken out of a hash go to their places again; a string stays.
fn put_taken(content: &mut Content, taken: &[Placed]) -> Result<(), NoMemory>
    ensures ok { OnOk result (content_of content.new
        ≡ with_placed (all_placed taken.now) (content_of content.old)) }
    ensures err { OnErr result (content.new ≡ content.old) }
{
    match content {
        Content::Text(_) => Ok(()),
        Content::Fields(fields) => fields.put_back(taken),
    }
}

/// Fields that were taken out of the key's hash go to their places again.
pub(crate) fn put_taken_of(
    space: &mut Keyspace,
    key: &[u8],
    taken: &[Placed],
) -> Result<(), NoMemory>
    ensures ok { OnOk result
        (space.new ≡ with_placed_of key.now (all_placed taken.now) space.old) }
    ensures err { OnErr result (space.new ≡ space.old) }
{
    match space.content_mut(key) {
        Some(content) => put_taken(content, taken),
        None => Ok(()),
    }
}
