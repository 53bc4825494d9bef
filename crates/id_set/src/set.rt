//! A set of ids, as a list in ascending order.
ghost use Rattle.std.specs.Prelude.{◌≡◌, ◌∷◌, [], IfOk, IfSome, OnOk, OnErr};
ghost use Rattle.id_set.specs.Ids.{Ascend, IsPlaceFor, with_id, without_id};
ghost use Rattle.id_set.specs.Kept.{ids_of};

use resp_value::NoMemory;
use std::alloc::Global;
use std::marker::Model;
use std::slice;

// Most sets are of one id, which takes no memory of its own; a larger set takes a pointer here.
#[derive(Drop)]
enum Ids {
    Nobody,
    One(u64),
    Many(Box<Vec<u64>>),
}

/// Ids in ascending order, each once. It looks at them one by one.
#[derive(Drop)]
pub struct IdSet {
    alloc: Global,
    ids: Ids,
}

impl Model for IdSet {
    ghost use Rattle.std.specs.Prelude.{List, ℕ};
    ghost use Rattle.id_set.specs.Ids.{Ascend};
    ghost use Rattle.id_set.specs.Kept.{ids_of};

    ghost Value = { List ℕ };

    ghost view = { λ s. ids_of s.ids };

    ghost invariant = { λ s. Ascend (ids_of s.ids) };
}

// The place of the first id that is not below this one.
fn place_for(ids: &[u64], id: u64) -> usize
    ensures { IsPlaceFor id ids.now result }
{
    for (place, other) in ids.iter().enumerate() {
        if *other >= id {
            return place;
        }
    }
    ids.len()
}

// Adds an id at its place, where it is not there yet.
fn insert_among(ids: &mut Vec<u64>, id: u64) -> Result<(), NoMemory>
    ensures ok { OnOk result (ids.new.items ≡ with_id id ids.old.items) }
    ensures err { OnErr result (ids.new.items ≡ ids.old.items) }
    ensures order { Ascend ids.old.items → Ascend ids.new.items }
{
    let at = place_for(ids, id);
    if at < ids.len() && ids[at] == id {
        return Ok(());
    }
    ids.insert(at, id)?;
    Ok(())
}

// One id and another.
fn both(alloc: Global, one: u64, id: u64) -> Result<Box<Vec<u64>>, NoMemory>
    ensures { IfOk result (λ ids. ids.value.items ≡ with_id id (one ∷ [])) }
{
    let mut ids = Vec::with_capacity(alloc, 2)?;
    ids.push(one)?;
    insert_among(&mut ids, id)?;
    Ok(Box::new(alloc, ids)?)
}

fn remove_among(ids: &mut Vec<u64>, id: u64)
    ensures ids { ids.new.items ≡ without_id id ids.old.items }
    ensures order { Ascend ids.old.items → Ascend ids.new.items }
{
    ids.retain(|other| *other != id);
}

// How so few ids are kept, if they are, which takes no memory.
fn few(ids: &[u64]) -> Option<Ids>
    ensures { IfSome result (λ kept. ids_of kept ≡ ids.now) }
{
    match ids {
        [] => Some(Ids::Nobody),
        [one] => Some(Ids::One(*one)),
        _ => None,
    }
}

impl IdSet {
    /// No id. It takes no memory.
    pub fn new(alloc: Global) -> IdSet
        ensures { result ≡ [] }
    {
        IdSet {
            alloc,
            ids: Ids::Nobody,
        }
    }

    /// The ids, in ascending order.
    pub fn as_slice(&self) -> &[u64]
        ensures list { result.now ≡ self.now }
        ensures order { Ascend result.now }
    {
        match &self.ids {
            Ids::Nobody => &[],
            Ids::One(id) => slice::from_ref(id),
            Ids::Many(ids) => ids.as_slice(),
        }
    }

    /// Adds an id at its place, where it is not there yet.
    pub fn insert(&mut self, id: u64) -> Result<(), NoMemory>
        ensures ok { OnOk result (self.new ≡ with_id id self.old) }
        ensures err { OnErr result (self.new ≡ self.old) }
    {
        match &mut self.ids {
            Ids::Nobody => {
                self.ids = Ids::One(id);
                Ok(())
            }
            Ids::One(one) => {
                if *one != id {
                    self.ids = Ids::Many(both(self.alloc, *one, id)?);
                }
                Ok(())
            }
            Ids::Many(ids) => insert_among(ids, id),
        }
    }

    /// Takes an id out. It takes no memory.
    pub fn remove(&mut self, id: u64)
        ensures { self.new ≡ without_id id self.old }
    {
        match &mut self.ids {
            Ids::Nobody => {}
            Ids::One(one) => {
                if *one == id {
                    self.ids = Ids::Nobody;
                }
            }
            Ids::Many(ids) => {
                remove_among(ids, id);
                if let Some(kept) = few(ids.as_slice()) {
                    self.ids = kept;
                }
            }
        }
    }
}
