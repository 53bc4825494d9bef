//! A change of several entries: copies first, then room, and then what takes no memory.
ghost use Rattle.std.specs.Prelude.{◌≡◌, ◌+◌, ◌<◌, ◌≤◌, IfOk, Some, map};
ghost use Rattle.std.specs.Str.{bytes_eq};
ghost use Rattle.indexmap.specs.IndexMap.{insert_entry, index_map_len, spare, Updates};
ghost use Rattle.resp_value.specs.Tree.{in_turn};

use indexmap::IndexMap;
use resp_value::{NoMemory, Octets};
use std::alloc::Global;

/// Names and values in turn, as pairs; a name without a value is left out.
pub(crate) fn copies_in_turn(
    alloc: Global,
    words: &[Octets],
) -> Result<Vec<(Vec<u8>, Octets)>, NoMemory>
    ensures { IfOk result (λ v. map (λ p. (p.0.items, p.1)) v.items ≡ in_turn words.now) }
{
    let mut pairs = Vec::new(alloc);
    let mut rest = words;
    'pairs: while let [name, value, others @ ..] = rest {
        let name = Vec::from_slice(alloc, name.as_slice())?;
        pairs.push((name, value.copy()?))?;
        rest = others;
    }
    Ok(pairs)
}

/// Inserts where there is room, which takes no memory.
pub(crate) fn insert_in_room<V: Drop>(table: &mut IndexMap<Vec<u8>, V>, name: Vec<u8>, value: V)
    requires { 0 < spare table.old }
    ensures entries { table.new.entries
        ≡ insert_entry (λ a b. bytes_eq a.items b.items) table.old.entries name value }
    ensures updates { Updates (λ a b. bytes_eq a.items b.items)
        table.old table.new name (Some value) }
    ensures spare { spare table.old ≤ spare table.new + 1 }
    ensures len { index_map_len table.old ≤ index_map_len table.new }
{
    match table.insert(name, value) {
        Ok(_) => {}
        Err(_) => unreachable!(),
    }
}
