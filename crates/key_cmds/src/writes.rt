//! The commands that remove and move keys: DEL, RENAME, FLUSHALL and FLUSHDB.
//!
//! All that may fail comes before the keyspace changes.
ghost use Rattle.std.specs.Prelude.{◌≡◌};
ghost use Rattle.command_words.specs.Keys.{del_effect, remove_each, rename_effect, flush_effect};
ghost use Rattle.command_rows.specs.Rows.{IsRow};

use super::listed::those_there;
use command_rows::{error, ok, only, replied, wrote};
use command_words::{Done, Signalled};
use keyspace::Keyspace;
use resp_value::{NoMemory, Octets, Value};
use std::alloc::Global;

/// The keys go.
fn remove_each(space: &mut Keyspace, words: &[Octets])
    ensures { space.new ≡ remove_each words.now space.old }
{
    for key in words {
        space.take(key.as_slice());
    }
}

pub(crate) fn del(alloc: Global, space: &mut Keyspace, words: &[Octets]) -> Result<Done, NoMemory>
    ensures { IsRow (del_effect words.now space.old) result space.old space.new }
{
    let keys = those_there(alloc, space, words)?;
    remove_each(space, words);
    Ok(wrote(Value::Number(keys.as_slice().len() as i64), keys))
}

pub(crate) fn rename(
    alloc: Global,
    space: &mut Keyspace,
    from: &Octets,
    to: &Octets,
) -> Result<Done, NoMemory>
    ensures { IsRow (rename_effect from.now to.now space.old) result space.old space.new }
{
    if space.get(from.as_slice()).is_none() {
        return Ok(replied(alloc, error(alloc, b"ERR no such key")?));
    }
    let reply = ok(alloc)?;
    if from.as_slice() == to.as_slice() {
        return Ok(replied(alloc, reply));
    }
    let mut keys = only(alloc, from.as_slice())?;
    keys.push(to.copy()?)?;
    space.rename(from.as_slice(), to.as_slice())?;
    Ok(wrote(reply, keys))
}

pub(crate) fn flush(alloc: Global, space: &mut Keyspace) -> Result<Done, NoMemory>
    ensures { IsRow flush_effect result space.old space.new }
{
    let reply = ok(alloc)?;
    space.clear();
    Ok(Done {
        reply,
        signalled: Signalled::All,
    })
}
