//! Rows that were taken out of the table, and how they come back to their places.
ghost use Rattle.std.specs.Prelude.{◌≡◌, ◌<◌, ◌≤◌, ◌+◌, ◌++◌, [], length};
ghost use Rattle.std.specs.Prelude.{IfOk, drop, vec_capacity, vec_len};
ghost use Rattle.std.specs.List.{insert};
ghost use Rattle.track_table.specs.declared.table.Held.{Held};
ghost use Rattle.track_table.specs.Aside.{all_put, put_in};

use super::table::{Held, place_of};
use resp_value::Octets;
use std::marker::Model;

/// A row that was taken out, and the key of the row that stood behind it, if there was one.
#[derive(Drop)]
pub struct Parted {
    pub(super) row: Held,
    pub(super) next: Option<Octets>,
}

/// The rows that were taken out of a table, and memory to put them back.
#[derive(Drop)]
pub struct Aside {
    pub(super) parted: Vec<Parted>,
    pub(super) spare: Vec<Held>,
}

impl Model for Aside {
    ghost use Rattle.std.specs.Prelude.{◌≡◌, [], vec_capacity};
    ghost use Rattle.track_table.specs.Aside.{AsideState};

    ghost Value = { AsideState };

    ghost view = { λ a. record { parted = a.parted.items; room = vec_capacity a.spare } };

    ghost invariant = { λ a. a.spare.items ≡ [] };
}

// The place of the row that stood behind, or behind all rows.
fn place_before(rows: &[Held], next: &Option<Octets>) -> usize
    ensures inside { result ≤ length rows.now }
    ensures place { (row : Held) → insert rows.now result row
        ≡ put_in (record { row = row; next = next.now }) rows.now }
{
    match next {
        Some(key) => match place_of(rows, key.as_slice()) {
            Some(place) => place,
            None => rows.len(),
        },
        None => rows.len(),
    }
}

// There is room for the row.
fn put_back(rows: &mut Vec<Held>, parted: Parted)
    requires { vec_len rows.old < vec_capacity rows.old }
    ensures rows { rows.new.items ≡ put_in parted rows.old.items }
    ensures len { vec_len rows.new ≡ vec_len rows.old + 1 }
    ensures capacity { vec_capacity rows.old ≤ vec_capacity rows.new }
{
    let place = place_before(rows, &parted.next);
    let _ = rows.insert(place, parted.row);
}

/// The last that went comes back first. There is room for all.
pub fn put_all_back(rows: &mut Vec<Held>, parted: Vec<Parted>)
    requires { vec_len rows.old + vec_len parted ≤ vec_capacity rows.old }
    ensures { rows.new.items ≡ all_put parted.items rows.old.items }
{
    let mut left = parted;
    'rows: while let Some(row) = left.pop() {
        put_back(rows, row);
    }
}
