//! A scan of past effects, one after another.
ghost use Rattle.std.specs.Prelude.{◌≡◌, ◌++◌, ◌∷◌, ◌<◌, [], IfOk, OnOk, if◌then◌else◌, map};
ghost use Rattle.track_table.specs.Table.{kept, without_connection, without_keys};
ghost use Rattle.prefix_table.specs.Table as registrations;
ghost use Rattle.serial_model.specs.State.{State, for_each};
ghost use Rattle.serial_model.specs.Tracking.{registering, remembering, without_signalled};
ghost use Rattle.serial_model.specs.declared.effect.EntryKind.TheVariants as kind;
ghost use Rattle.serial_model.specs.declared.history.Limits.{Limits};
ghost use Rattle.past_effects.specs.Ends.{AreSettled, ended_ids};
ghost use Rattle.past_effects.specs.Made.{memory_as};
ghost use Rattle.past_effects.specs.Past.{Follows, next_by, sends_by, told_by};
ghost use Rattle.past_effects.specs.Seen.{HasNumber, admitted_one, changed, gone, having, on_at};
ghost use Rattle.past_effects.specs.Seen.{taking};
ghost use Rattle.past_effects.specs.Sendings.{end_of, outline};

use super::connection::Causes;
use super::connections::Connections;
use super::own::{Kept, Own, own_effect};
use super::sendings::Sendings;
use prefix_table::PrefixTable;
use resp_value::NoMemory;
use serial_model::{Effect, EntryKind};
use std::alloc::Global;
use track_table::TrackTable;

/// The connections, who remembers which keys, and who registered which prefixes of them.
#[derive(Drop)]
pub struct Scan {
    alloc: Global,
    out_max: u64,
    connections: Connections,
    table: TrackTable,
    prefixes: PrefixTable,
}

// The connection remembers these keys, or nothing is remembered for it any more.
fn remember(table: &mut TrackTable, id: u64, own: &Own) -> Result<(), NoMemory>
    ensures { OnOk result
        (let rows = remembering id (memory_as own.now.mode own.now.kept) table.old.rows in
        table.new ≡ record table.old { rows = rows }) }
{
    match &own.kept {
        Kept::Remembers(keys) => {
            let _ = table.remember_all(id, keys.as_slice())?;
        }
        Kept::Registers => {}
        Kept::Forgets => table.forget_connection(id),
    }
    Ok(())
}

// The prefixes of its mode are registered, or none is for it any more.
fn register(prefixes: &mut PrefixTable, id: u64, own: &Own) -> Result<(), NoMemory>
    ensures { OnOk result
        (prefixes.new ≡ registering id (memory_as own.now.mode own.now.kept) prefixes.old) }
{
    match &own.kept {
        Kept::Remembers(_) => Ok(()),
        Kept::Registers => prefixes.add_all(id, own.mode.tracking().prefixes()),
        Kept::Forgets => {
            prefixes.remove_connection(id);
            Ok(())
        }
    }
}

impl Scan {
    pub fn new(alloc: Global, table_max: u64, out_max: u64) -> Scan
        requires { 0 < table_max }
        ensures most { result.out_max ≡ out_max }
        ensures connections { result.connections ≡ [] }
        ensures table { result.table ≡ record { limit = table_max; rows = [] } }
        ensures prefixes { result.prefixes ≡ [] }
    {
        Scan {
            alloc,
            out_max,
            connections: Connections::new(alloc),
            table: TrackTable::new(alloc, table_max),
            prefixes: PrefixTable::new(alloc),
        }
    }

    // Its keys and its prefixes are forgotten.
    fn forget(&mut self, id: u64)
        ensures most { self.new.out_max ≡ self.old.out_max }
        ensures connections { self.new.connections ≡ self.old.connections }
        ensures table { let rows = without_connection id self.old.table.rows in
            self.new.table ≡ record self.old.table { rows = rows } }
        ensures prefixes { self.new.prefixes
            ≡ registrations.without_connection id self.old.prefixes }
    {
        self.table.forget_connection(id);
        self.prefixes.remove_connection(id);
    }

    // The messages of an action: of the keys that expired, its reply, of what its command signals,
    // and of keys past the table's limit.
    fn tell(&mut self, effect: &Effect, own: &Own) -> Result<Sendings, NoMemory>
        requires { HasNumber own.now.mode }
        ensures most { self.new.out_max ≡ self.old.out_max }
        ensures connections { OnOk result (self.new.connections
            ≡ changed effect.now.id (having own.now.mode) self.old.connections) }
        ensures table { OnOk result
            (let memory = memory_as own.now.mode own.now.kept in
            let left = without_keys effect.now.expired self.old.table.rows in
            let rows = without_signalled effect.now.signalled left in
            let grown = remembering effect.now.id memory rows in
            self.new.table ≡ record self.old.table { rows = kept self.old.table.limit grown }) }
        ensures prefixes { OnOk result
            (let memory = memory_as own.now.mode own.now.kept in
            self.new.prefixes ≡ registering effect.now.id memory self.old.prefixes) }
        ensures sent { IfOk result (λ sent. sent
            ≡ told_by effect.now own.now self.old.connections self.old.table self.old.prefixes) }
    {
        let id = effect.id;
        let mut sent = Sendings::new(self.alloc);
        let expired = effect.expired.as_slice();
        sent.tell_keys(
            &self.connections,
            &mut self.table,
            &self.prefixes,
            None,
            expired,
        )?;
        let passed = self.connections.passed_over(id);
        let tracking = self.connections.tracking()?;
        self.connections.set_mode(id, own.mode.copy()?);
        let proto = own.mode.peer().proto;
        sent.reply(&self.connections, id, proto, &effect.reply)?;
        sent.tell_signalled(
            &self.connections,
            &mut self.table,
            &self.prefixes,
            &effect.signalled,
            passed,
            &tracking,
        )?;
        remember(&mut self.table, id, own)?;
        sent.tell_dropped(&self.connections, &mut self.table)?;
        register(&mut self.prefixes, id, own)?;
        Ok(sent)
    }

    // Those who end by an action are sent their ends, and all that was kept for them is forgotten.
    fn end_all(&mut self, causes: Causes, sent: &mut Sendings) -> Result<(), NoMemory>
        ensures most { self.new.out_max ≡ self.old.out_max }
        ensures connections { OnOk result
            (AreSettled causes sent.old self.old.connections self.new.connections) }
        ensures table { OnOk result
            (let ids = ended_ids causes sent.old self.old.connections in
            let rows = for_each without_connection ids self.old.table.rows in
            self.new.table ≡ record self.old.table { rows = rows }) }
        ensures prefixes { OnOk result
            (let ids = ended_ids causes sent.old self.old.connections in
            self.new.prefixes
            ≡ for_each registrations.without_connection ids self.old.prefixes) }
        ensures sent { OnOk result
            (let ids = ended_ids causes sent.old self.old.connections in
            sent.new ≡ sent.old ++ map end_of ids) }
    {
        let ended = self.connections.ending(causes, sent.as_slice())?;
        self.connections.settle(causes, sent.as_slice());
        for id in &ended {
            sent.end(*id)?;
            self.forget(*id);
        }
        Ok(())
    }

    // A Run or a Tick.
    fn act(&mut self, effect: &Effect) -> Result<Sendings, NoMemory>
        ensures { IfOk result (λ sent. (l : Limits) (s : State) → Follows l self.old s
            → (sent ≡ map outline (sends_by l effect.now kind.Run s))
            × Follows l self.new (next_by l effect.now kind.Run s)) }
    {
        let own = own_effect(self.alloc, &self.connections, effect)?;
        let mut sent = self.tell(effect, &own)?;
        self.end_all(own.causes(effect.id, self.out_max), &mut sent)?;
        Ok(sent)
    }

    fn admit(&mut self) -> Result<Sendings, NoMemory>
        ensures most { self.new.out_max ≡ self.old.out_max }
        ensures connections { OnOk result
            (self.new.connections ≡ self.old.connections ++ admitted_one ∷ []) }
        ensures table { self.new.table ≡ self.old.table }
        ensures prefixes { self.new.prefixes ≡ self.old.prefixes }
        ensures sent { IfOk result (λ sent. sent ≡ []) }
    {
        self.connections.admit()?;
        Ok(Sendings::new(self.alloc))
    }

    fn take(&mut self, id: u64, count: u64) -> Sendings
        ensures most { self.new.out_max ≡ self.old.out_max }
        ensures connections { self.new.connections
            ≡ changed id (taking count) self.old.connections }
        ensures table { self.new.table ≡ self.old.table }
        ensures prefixes { self.new.prefixes ≡ self.old.prefixes }
        ensures sent { result ≡ [] }
    {
        self.connections.take(id, count);
        Sendings::new(self.alloc)
    }

    fn close(&mut self, id: u64) -> Result<Sendings, NoMemory>
        ensures most { self.new.out_max ≡ self.old.out_max }
        ensures connections { OnOk result
            (self.new.connections ≡ changed id gone self.old.connections) }
        ensures table { OnOk result
            (let rows = without_connection id self.old.table.rows in
            self.new.table ≡ record self.old.table { rows = rows }) }
        ensures prefixes { OnOk result
            (self.new.prefixes ≡ registrations.without_connection id self.old.prefixes) }
        ensures sent { IfOk result (λ sent. sent
            ≡ (if on_at self.old.connections id then end_of id ∷ [] else [])) }
    {
        let mut sent = Sendings::new(self.alloc);
        if self.connections.is_live(id) {
            sent.end(id)?;
        }
        self.connections.end(id);
        self.forget(id);
        Ok(sent)
    }

    /// What the entry of the next effect sends.
    pub fn step(&mut self, effect: &Effect) -> Result<Sendings, NoMemory>
        ensures { IfOk result (λ sent. (l : Limits) (s : State) → Follows l self.old s
            → (sent ≡ map outline (sends_by l effect.now effect.now.kind s))
            × Follows l self.new (next_by l effect.now effect.now.kind s)) }
    {
        match effect.kind {
            EntryKind::Admit => self.admit(),
            EntryKind::Run | EntryKind::Tick => self.act(effect),
            EntryKind::Take(count) => Ok(self.take(effect.id, count)),
            EntryKind::Close => self.close(effect.id),
        }
    }
}
