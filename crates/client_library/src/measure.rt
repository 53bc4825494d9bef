//! How much a client holds, by going over all of it.
use resp_value::{NoMemory, Proto, put_value};
use shared_cache::CacheEntry;
use std::alloc::Global;
use std::collections::BTreeSet;

/// How many keys are held, and how many bytes their queries and values have as they are written.
#[derive(Clone, Copy, Debug, PartialEq, Eq)]
pub struct HeldSize {
    pub keys: u64,
    pub bytes: u64,
}

fn words_size(entry: &CacheEntry) -> u64 {
    let mut size: u64 = 0;
    for word in entry.query.words().as_slice() {
        size = size.saturating_add(word.as_slice().len() as u64);
    }
    size
}

fn value_size(entry: &CacheEntry, room: &mut Vec<u8>) -> Result<u64, NoMemory> {
    room.clear();
    put_value(Proto::Three, &entry.value, room)?;
    Ok(room.len() as u64)
}

/// The size of what these entries hold.
pub fn measure(alloc: Global, entries: &[&CacheEntry]) -> Result<HeldSize, NoMemory> {
    let mut keys = BTreeSet::new(alloc);
    let mut room = Vec::new(alloc);
    let mut bytes: u64 = 0;
    for entry in entries {
        let size = value_size(entry, &mut room)?.saturating_add(words_size(entry));
        bytes = bytes.saturating_add(size);
        match keys.insert(entry.query.key()) {
            Ok(_) => {}
            Err(_) => return Err(NoMemory),
        }
    }
    Ok(HeldSize {
        keys: keys.len() as u64,
        bytes,
    })
}
