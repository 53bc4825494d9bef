//! A field that was taken out of a hash, with its place.
ghost use Rattle.std.specs.Prelude.{◌≡◌, ◌+◌, ◌<◌, ◌≤◌, IfOk, map};
ghost use Rattle.indexmap.specs.IndexMap.{spare};
ghost use Rattle.keyspace.specs.Places.{all_placed, field_put, placed_of};

use indexmap::IndexMap;
use resp_value::{NoMemory, Octets};
use std::alloc::Global;

/// A field that was taken out, with the place that it had.
#[derive(Drop)]
pub struct Placed {
    pub place: usize,
    pub field: Vec<u8>,
    pub value: Octets,
}

impl Placed {
    /// An equal one, in this allocator.
    fn copy(&self, alloc: Global) -> Result<Placed, NoMemory>
        ensures { IfOk result (λ placed. placed_of placed ≡ placed_of self.now) }
    {
        let place = self.place;
        let field = Vec::from_slice(alloc, self.field.as_slice())?;
        let value = self.value.copy()?;
        Ok(Placed {
            place,
            field,
            value,
        })
    }
}

/// Equal ones, in this allocator.
pub(crate) fn copies_of(alloc: Global, all: &[Placed]) -> Result<Vec<Placed>, NoMemory>
    ensures { IfOk result (λ v. all_placed v.items ≡ all_placed all.now) }
{
    let mut copies = Vec::new(alloc);
    for placed in all {
        copies.push(placed.copy(alloc)?)?;
    }
    Ok(copies)
}

/// A field that is not there goes to its place. There is room, so it takes no memory.
pub(crate) fn put_in_room(table: &mut IndexMap<Vec<u8>, Octets>, placed: Placed)
    requires { 0 < spare table.old }
    ensures entries { map (λ p. (p.0.items, p.1)) table.new.entries
        ≡ field_put (placed_of placed) (map (λ p. (p.0.items, p.1)) table.old.entries) }
    ensures spare { spare table.old ≤ spare table.new + 1 }
{
    let Placed {
        place,
        field,
        value,
    } = placed;
    if table.contains_key(field.as_slice()) {
        return;
    }
    let place = place.min(table.len());
    match table.insert_before(place, field, value) {
        Ok(_) => {}
        Err(_) => unreachable!(),
    }
}
