//! The lines of the connections that a turn drops. A turn can't be taken back, so what they need is
//! made before it: places for them, and a copy of the name of each link.
ghost use Rattle.std.specs.Prelude.{◌≡◌, ◌+◌, ◌<◌, ◌≤◌, ◌++◌, ◌∷◌, [], OnOk, OnErr, false, length};
ghost use Rattle.std.specs.Prelude.{ℕ, List, vec_capacity, vec_len};
ghost use Rattle.script_text.specs.declared.line.Line.{Line};
ghost use Rattle.serial_model.specs.Tracking.{has_id};
ghost use Rattle.server_links.specs.DropNames.{Rise};
ghost use Rattle.server_links.specs.EntryLines.{drop_lines, name_of};

use resp_value::{NoMemory, Octets};
use script_text::Line;
use std::alloc::Global;
use std::mem;

/// Puts a line after the others, with places for so many more behind it.
pub fn put_with_room(line: Line, more: usize, items: &mut Vec<Line>) -> Result<(), NoMemory>
    ensures ok { OnOk result (items.new.items ≡ items.old.items ++ line ∷ []) }
    ensures room { OnOk result (vec_len items.new + more ≤ vec_capacity items.new) }
    ensures err { OnErr result (items.new.items ≡ items.old.items) }
{
    items.push(line)?;
    if items.reserve(more).is_err() {
        take_back(items);
        return Err(NoMemory);
    }
    Ok(())
}

/// The last line goes.
pub fn take_back(items: &mut Vec<Line>)
    ensures { (before : List Line) (line : Line) → items.old.items ≡ before ++ line ∷ []
        → items.new.items ≡ before }
{
    let _ = items.pop();
}

/// The line of each connection that the entry dropped. It takes the copy of the name of its link,
/// since no other entry drops it.
pub fn put_drops(
    alloc: Global,
    entry: u64,
    ids: &[u64],
    copies: &mut Vec<Octets>,
    items: &mut Vec<Line>,
)
    requires rise { Rise 0 ids.now (vec_len copies.old) }
    requires room { vec_len items.old + length ids.now ≤ vec_capacity items.old }
    ensures lines { items.new.items
        ≡ items.old.items ++ drop_lines entry copies.old.items ids.now }
    ensures count { vec_len copies.new ≡ vec_len copies.old }
    ensures others { (c : ℕ) → 0 < c → has_id c ids.now ≡ false
        → name_of copies.new.items c ≡ name_of copies.old.items c }
{
    for id in ids {
        let taken = Octets::from_vec(Vec::new(alloc));
        let name = mem::replace(&mut copies[(*id - 1) as usize], taken);
        items.push_reserved(Line::Drop(entry, name));
    }
}
