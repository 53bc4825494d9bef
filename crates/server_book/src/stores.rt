//! What the server keeps beside its history, all of which follows from it.
ghost use Rattle.std.specs.Prelude.{◌≡◌, ◌<◌, ◌∷◌, [], OnOk, OnErr, IfOk, None, true, Err};
ghost use Rattle.std.specs.Prelude.{if◌then◌else◌};
ghost use Rattle.command_words.specs.declared.command.WordFault.TheVariants as word;
ghost use Rattle.std.specs.FinMap.{empty};
ghost use Rattle.track_table.specs.Table.{dropped, kept, with_keys, without_connection};
ghost use Rattle.track_table.specs.Table.{without_keys};
ghost use Rattle.prefix_table.specs.Table as registrations;
ghost use Rattle.serial_model.specs.Deadlines.{due_keys};
ghost use Rattle.serial_model.specs.Modes.{target_of};
ghost use Rattle.serial_model.specs.State.{for_each};
ghost use Rattle.serial_model.specs.Tracking.{AreApart, drop_group, group, prefix_group, told_to};
ghost use Rattle.serial_model.specs.Tracking.{whole_group};
ghost use Rattle.server_book.specs.Connections.{IsId, IsOpen, connection_at, is_live};
ghost use Rattle.server_book.specs.Endings.{ArePostedTo, HasEnded, ended_if, ending_ids};
ghost use Rattle.server_book.specs.Endings.{is_ending};
ghost use Rattle.server_book.specs.Places.{HasNumber};
ghost use Rattle.server_book.specs.Plans.{IsSound, asks_broken, kept_by, mode_by, registered_by};
ghost use Rattle.server_book.specs.Plans.{signals_of};
ghost use Rattle.server_book.specs.RunSendings.{deed_done, reply_sent, run_sendings, settled};
ghost use Rattle.server_book.specs.Sendings.{before_posts, is_broken_by, is_target, lost_marked};
ghost use Rattle.server_book.specs.Sendings.{passed_over, told_at, tracking_ids, unpassed};
ghost use Rattle.server_book.specs.Sendings.{with_told};
ghost use Rattle.server_book.specs.Stores.{IsHeld, running};

use super::connections::Connections;
use super::deed::Deed;
use super::ends::Ends;
use super::messages::push_under;
use super::plan::{Caller, Plan};
use command_set::Database;
use command_words::{Command, Signalled, WordFault};
use prefix_table::PrefixTable;
use resp_value::{NoMemory, Octets, Words};
use std::alloc::Global;
use track_table::{Held, TrackTable};

/// The keys, who remembers which of them, who registered which prefixes of them, and the
/// connections.
#[derive(Drop)]
pub struct Stores {
    pub alloc: Global,
    pub space: Database,
    pub table: TrackTable,
    pub prefixes: PrefixTable,
    pub connections: Connections,
}

/// No connection holds these keys any more. It takes no memory.
pub fn forget_keys(table: &mut TrackTable, keys: &[Octets])
    ensures { table.new ≡ record table.old { rows = without_keys keys.now table.old.rows } }
{
    let mut left = keys;
    'keys: while let [key, others @ ..] = left {
        table.forget_key(key.as_slice());
        left = others;
    }
}

// Tells the holders of these keys, row by row.
fn tell_rows(
    alloc: Global,
    connections: &mut Connections,
    entry: u64,
    rows: &[Held],
) -> Result<(), NoMemory>
    ensures told { OnOk result (connections.new
        ≡ with_told entry (drop_group rows.now) connections.old) }
    ensures back { OnErr result
        (before_posts connections.new.posts connections.new.items
        ≡ before_posts connections.old.posts connections.old.items) }
{
    for (place, row) in rows.iter().enumerate() {
        connections.tell(alloc, entry, Some(row.key()), None, row.holders())?;
    }
    Ok(())
}

// The connection that a command names as the target of a redirection.
fn named_target(read: &Result<Command, WordFault>) -> Option<u64>
    ensures { result ≡ target_of read.now }
{
    match read {
        Ok(Command::ClientTracking(options)) => { if options.on { options.redirect } else { None } }
        _ => None,
    }
}

// Whether words ask if the redirection of their connection is broken.
fn asks_broken(read: &Result<Command, WordFault>) -> bool
    ensures { result ≡ asks_broken read.now }
{
    matches!(read, Ok(Command::ClientTrackingInfo))
}

impl Stores {
    pub fn new(alloc: Global, table_max: u64) -> Stores
        requires { 0 < table_max }
        ensures space { result.space ≡ empty }
        ensures table { result.table ≡ record { limit = table_max; rows = [] } }
        ensures prefixes { result.prefixes ≡ [] }
        ensures connections { result.connections
            ≡ record { items = []; posts = []; lost = []; drops = [] } }
    {
        Stores {
            alloc,
            space: Database::new(alloc),
            table: TrackTable::new(alloc, table_max),
            prefixes: PrefixTable::new(alloc),
            connections: Connections::new(alloc),
        }
    }

    // Keys that are new may push out the oldest ones.
    fn remember(&mut self, entry: u64, id: u64, keys: &[Octets]) -> Result<(), NoMemory>
        requires id { IsId self.old.connections.items id }
        ensures space { self.new.space ≡ self.old.space }
        ensures prefixes { self.new.prefixes ≡ self.old.prefixes }
        ensures table { OnOk result
            (let rows = with_keys id keys.now self.old.table.rows in
            self.new.table ≡ record self.old.table { rows = kept self.old.table.limit rows }) }
        ensures told { OnOk result
            (let rows = with_keys id keys.now self.old.table.rows in
            let group = drop_group (dropped self.old.table.limit rows) in
            self.new.connections ≡ with_told entry group self.old.connections) }
        ensures err { OnErr result (self.new.table ≡ self.old.table) }
        ensures back { OnErr result
            (before_posts self.new.connections.posts self.new.connections.items
            ≡ before_posts self.old.connections.posts self.old.connections.items) }
    {
        let new = self.table.remember_all(id, keys)?;
        let over = self.table.over_limit();
        match tell_rows(self.alloc, &mut self.connections, entry, over) {
            Ok(()) => {
                self.table.drop_over_limit();
                Ok(())
            }
            Err(_) => {
                self.table.release_all(id, new.as_slice());
                Err(NoMemory)
            }
        }
    }

    // Tells the holders of these keys but the one that is passed over, key by key; they hold them
    // still.
    fn tell_holders(
        &mut self,
        entry: u64,
        but: Option<u64>,
        keys: &[Octets],
    ) -> Result<(), NoMemory>
        requires apart { AreApart keys.now }
        ensures space { self.new.space ≡ self.old.space }
        ensures table { self.new.table ≡ self.old.table }
        ensures prefixes { self.new.prefixes ≡ self.old.prefixes }
        ensures told { OnOk result
            (let group = group keys.now self.old.table.rows in
            self.new.connections
            ≡ with_told entry (unpassed but group) self.old.connections) }
        ensures back { OnErr result
            (before_posts self.new.connections.posts self.new.connections.items
            ≡ before_posts self.old.connections.posts self.old.connections.items) }
    {
        for (place, key) in keys.iter().enumerate() {
            let holders = self.table.holders(key.as_slice());
            self.connections
                .tell(self.alloc, entry, Some(key.as_slice()), but, holders)?;
        }
        Ok(())
    }

    // Tells the connections that registered the prefix at a place of those of these keys that start
    // with it, but the one that is passed over.
    fn tell_at(
        &mut self,
        entry: u64,
        but: Option<u64>,
        keys: &[Octets],
        place: usize,
    ) -> Result<(), NoMemory>
        ensures space { self.new.space ≡ self.old.space }
        ensures table { self.new.table ≡ self.old.table }
        ensures prefixes { self.new.prefixes ≡ self.old.prefixes }
        ensures told { OnOk result
            (let told = told_at keys.now self.old.prefixes place in
            self.new.connections
            ≡ with_told entry (unpassed but told) self.old.connections) }
        ensures back { OnErr result
            (before_posts self.new.connections.posts self.new.connections.items
            ≡ before_posts self.old.connections.posts self.old.connections.items) }
    {
        match self.prefixes.at(place) {
            Some((prefix, ids)) => {
                let push = push_under(self.alloc, prefix, keys)?;
                self.connections.tell_each(entry, &push, but, ids)
            }
            None => Ok(()),
        }
    }

    // Tells, prefix by prefix, the connections that registered a prefix of these keys, but the one
    // that is passed over.
    fn tell_prefixes(
        &mut self,
        entry: u64,
        but: Option<u64>,
        keys: &[Octets],
    ) -> Result<(), NoMemory>
        ensures space { self.new.space ≡ self.old.space }
        ensures table { self.new.table ≡ self.old.table }
        ensures prefixes { self.new.prefixes ≡ self.old.prefixes }
        ensures told { OnOk result
            (let group = prefix_group keys.now self.old.prefixes in
            self.new.connections
            ≡ with_told entry (unpassed but group) self.old.connections) }
        ensures back { OnErr result
            (before_posts self.new.connections.posts self.new.connections.items
            ≡ before_posts self.old.connections.posts self.old.connections.items) }
    {
        if self.prefixes.is_empty() {
            return Ok(());
        }
        let places = self.prefixes.matching_any(keys)?;
        for place in &places {
            self.tell_at(entry, but, keys, *place)?;
        }
        Ok(())
    }

    /// Tells the holders of these keys, and then those who registered prefixes of them, but the one
    /// that is passed over. They hold them still.
    pub fn tell_keys(
        &mut self,
        entry: u64,
        but: Option<u64>,
        keys: &[Octets],
    ) -> Result<(), NoMemory>
        requires apart { AreApart keys.now }
        ensures space { self.new.space ≡ self.old.space }
        ensures table { self.new.table ≡ self.old.table }
        ensures prefixes { self.new.prefixes ≡ self.old.prefixes }
        ensures told { OnOk result
            (let group = whole_group keys.now self.old.table.rows self.old.prefixes in
            self.new.connections
            ≡ with_told entry (unpassed but group) self.old.connections) }
        ensures back { OnErr result
            (before_posts self.new.connections.posts self.new.connections.items
            ≡ before_posts self.old.connections.posts self.old.connections.items) }
    {
        self.tell_holders(entry, but, keys)?;
        self.tell_prefixes(entry, but, keys)
    }

    // Tells those whom these keys concern but the one that is passed over; all hold them no more.
    fn tell_and_forget(
        &mut self,
        entry: u64,
        but: Option<u64>,
        keys: &[Octets],
    ) -> Result<(), NoMemory>
        requires apart { AreApart keys.now }
        ensures space { self.new.space ≡ self.old.space }
        ensures prefixes { self.new.prefixes ≡ self.old.prefixes }
        ensures table { OnOk result (self.new.table
            ≡ record self.old.table { rows = without_keys keys.now self.old.table.rows }) }
        ensures told { OnOk result
            (let group = whole_group keys.now self.old.table.rows self.old.prefixes in
            self.new.connections
            ≡ with_told entry (unpassed but group) self.old.connections) }
        ensures err { OnErr result (self.new.table ≡ self.old.table) }
        ensures back { OnErr result
            (before_posts self.new.connections.posts self.new.connections.items
            ≡ before_posts self.old.connections.posts self.old.connections.items) }
    {
        self.tell_keys(entry, but, keys)?;
        forget_keys(&mut self.table, keys);
        Ok(())
    }

    // Whether the connection that a command names as the target of a redirection has not ended.
    fn has_target(&self, read: &Result<Command, WordFault>) -> bool
        ensures { result ≡ is_target (is_live self.now.connections.items) (target_of read.now) }
    {
        match named_target(read) {
            Some(target) => self.connections.is_live(target),
            None => true,
        }
    }

    // Tells those that track that no key is what it was; none is remembered any more.
    fn tell_flush(&mut self, entry: u64) -> Result<(), NoMemory>
        ensures space { self.new.space ≡ self.old.space }
        ensures prefixes { self.new.prefixes ≡ self.old.prefixes }
        ensures table { OnOk result (self.new.table ≡ record self.old.table { rows = [] }) }
        ensures told { OnOk result
            (let group = told_to None (tracking_ids self.old.connections.items) in
            self.new.connections ≡ with_told entry group self.old.connections) }
        ensures err { OnErr result (self.new.table ≡ self.old.table) }
        ensures back { OnErr result
            (before_posts self.new.connections.posts self.new.connections.items
            ≡ before_posts self.old.connections.posts self.old.connections.items) }
    {
        let tracking = self.connections.tracking(self.alloc)?;
        self.connections
            .tell(self.alloc, entry, None, None, tracking.as_slice())?;
        self.table.clear();
        Ok(())
    }

    // Tells those whom the keys that a command signals concern; under NOLOOP its connection is
    // passed over.
    fn tell_signalled(&mut self, entry: u64, id: u64, keys: &[Octets]) -> Result<(), NoMemory>
        requires id { IsId self.old.connections.items id }
        requires apart { AreApart keys.now }
        ensures space { self.new.space ≡ self.old.space }
        ensures prefixes { self.new.prefixes ≡ self.old.prefixes }
        ensures table { OnOk result (self.new.table
            ≡ record self.old.table { rows = without_keys keys.now self.old.table.rows }) }
        ensures told { OnOk result
            (let group = whole_group keys.now self.old.table.rows self.old.prefixes in
            self.new.connections
            ≡ with_told entry (unpassed (passed_over self.old.connections.items id) group)
            self.old.connections) }
        ensures err { OnErr result (self.new.table ≡ self.old.table) }
        ensures back { OnErr result
            (before_posts self.new.connections.posts self.new.connections.items
            ≡ before_posts self.old.connections.posts self.old.connections.items) }
    {
        let but = self.connections.passed_over(id);
        self.tell_and_forget(entry, but, keys)
    }

    /// The connection remembers no key any more, and has registered no prefix. It takes no memory.
    pub fn forget(&mut self, id: u64)
        ensures space { self.new.space ≡ self.old.space }
        ensures table { let rows = without_connection id self.old.table.rows in
            self.new.table ≡ record self.old.table { rows = rows } }
        ensures prefixes { self.new.prefixes
            ≡ registrations.without_connection id self.old.prefixes }
        ensures connections { self.new.connections ≡ self.old.connections }
    {
        self.table.forget_connection(id);
        self.prefixes.remove_connection(id);
    }

    // Tells those whom a request concerns, and keeps what it remembers or registers. Where memory
    // runs out all is as before, but for what was sent.
    fn carry_out(&mut self, entry: u64, id: u64, deed: &Deed) -> Result<(), NoMemory>
        requires held { IsHeld self.old.table.limit self.old.table.rows }
        requires id { IsId self.old.connections.items id }
        requires sound { IsSound deed.now }
        ensures space { self.new.space ≡ self.old.space }
        ensures table { OnOk result
            (let rows = kept_by self.old.table.limit id deed.now self.old.table.rows in
            self.new.table ≡ record self.old.table { rows = rows }) }
        ensures prefixes { OnOk result
            (self.new.prefixes ≡ registered_by id deed.now self.old.prefixes) }
        ensures sent { OnOk result
            (self.new.connections
            ≡ deed_done entry id deed.now self.old.table self.old.prefixes
            self.old.connections) }
        ensures err { OnErr result (self.new.table ≡ self.old.table) }
        ensures err_prefixes { OnErr result (self.new.prefixes ≡ self.old.prefixes) }
        ensures back { OnErr result
            (before_posts self.new.connections.posts self.new.connections.items
            ≡ before_posts self.old.connections.posts self.old.connections.items) }
    {
        match deed {
            Deed::Nothing | Deed::Become(_) | Deed::Quit | Deed::Shutdown => Ok(()),
            Deed::Track(mode) => self.prefixes.add_all(id, mode.tracking().prefixes()),
            Deed::Tell(keys) => self.tell_signalled(entry, id, keys.as_slice()),
            Deed::TellAll => self.tell_flush(entry),
            Deed::Remember(keys) => self.remember(entry, id, keys.as_slice()),
            Deed::Forget(_) => {
                self.forget(id);
                Ok(())
            }
        }
    }

    // Sends the reply to a Run, if there is one.
    fn send_reply(&mut self, entry: u64, id: u64, plan: &Plan) -> Result<(), NoMemory>
        requires id { IsOpen self.old.connections.items id }
        ensures space { self.new.space ≡ self.old.space }
        ensures table { self.new.table ≡ self.old.table }
        ensures prefixes { self.new.prefixes ≡ self.old.prefixes }
        ensures sent { OnOk result
            (self.new.connections ≡ reply_sent entry id plan.now self.old.connections) }
        ensures err { OnErr result (self.new.connections ≡ self.old.connections) }
    {
        match &plan.reply {
            Some(reply) => self.connections.send(entry, id, plan.proto, reply),
            None => Ok(()),
        }
    }

    // What a Run sends once the keys that are due are gone: its reply, then whom it tells itself.
    fn send_own(&mut self, entry: u64, id: u64, plan: &Plan) -> Result<(), NoMemory>
        requires held { IsHeld self.old.table.limit self.old.table.rows }
        requires id { IsOpen self.old.connections.items id }
        requires sound { IsSound plan.now.deed }
        ensures space { self.new.space ≡ self.old.space }
        ensures table { OnOk result
            (let rows = kept_by self.old.table.limit id plan.now.deed self.old.table.rows in
            self.new.table ≡ record self.old.table { rows = rows }) }
        ensures prefixes { OnOk result
            (self.new.prefixes ≡ registered_by id plan.now.deed self.old.prefixes) }
        ensures sent { OnOk result (self.new.connections
            ≡ deed_done entry id plan.now.deed self.old.table self.old.prefixes
            (reply_sent entry id plan.now self.old.connections)) }
        ensures err { OnErr result (self.new.table ≡ self.old.table) }
        ensures err_prefixes { OnErr result (self.new.prefixes ≡ self.old.prefixes) }
        ensures back { OnErr result
            (before_posts self.new.connections.posts self.new.connections.items
            ≡ before_posts self.old.connections.posts self.old.connections.items) }
    {
        self.send_reply(entry, id, plan)?;
        self.carry_out(entry, id, &plan.deed)
    }

    // What a Run sends, in order: those are told whom the keys that are due concern, then comes its
    // reply, then whom it tells itself.
    fn send_groups(
        &mut self,
        entry: u64,
        id: u64,
        expired: &[Octets],
        plan: &Plan,
    ) -> Result<(), NoMemory>
        requires held { IsHeld self.old.table.limit self.old.table.rows }
        requires id { IsOpen self.old.connections.items id }
        requires none { self.old.connections.posts ≡ [] }
        requires apart { AreApart expired.now }
        requires sound { IsSound plan.now.deed }
        ensures space { self.new.space ≡ self.old.space }
        ensures table { OnOk result
            (let left = without_keys expired.now self.old.table.rows in
            let rows = kept_by self.old.table.limit id plan.now.deed left in
            self.new.table ≡ record self.old.table { rows = rows }) }
        ensures prefixes { OnOk result
            (self.new.prefixes ≡ registered_by id plan.now.deed self.old.prefixes) }
        ensures sent { OnOk result (let run = running entry id expired.now plan.now self.old in
            self.new.connections ≡ run_sendings run self.old.connections) }
        ensures err { OnErr result (self.new.table ≡ self.old.table) }
        ensures err_prefixes { OnErr result (self.new.prefixes ≡ self.old.prefixes) }
        ensures back { OnErr result
            (before_posts self.new.connections.posts self.new.connections.items
            ≡ self.old.connections.items) }
    {
        self.tell_keys(entry, None, expired)?;
        let aside = self.table.set_aside(expired)?;
        match self.send_own(entry, id, plan) {
            Ok(()) => Ok(()),
            Err(_) => {
                self.table.put_back(aside);
                Err(NoMemory)
            }
        }
    }

    /// Sends what a Run sends, and keeps what it remembers or registers. Where memory runs out all
    /// is as before.
    pub fn send_run(
        &mut self,
        entry: u64,
        id: u64,
        expired: &[Octets],
        plan: &Plan,
    ) -> Result<(), NoMemory>
        requires held { IsHeld self.old.table.limit self.old.table.rows }
        requires id { IsOpen self.old.connections.items id }
        requires none { self.old.connections.posts ≡ [] }
        requires none_lost { self.old.connections.lost ≡ [] }
        requires none_dropped { self.old.connections.drops ≡ [] }
        requires apart { AreApart expired.now }
        requires sound { IsSound plan.now.deed }
        ensures space { self.new.space ≡ self.old.space }
        ensures table { OnOk result
            (let left = without_keys expired.now self.old.table.rows in
            let rows = kept_by self.old.table.limit id plan.now.deed left in
            self.new.table ≡ record self.old.table { rows = rows }) }
        ensures prefixes { OnOk result
            (self.new.prefixes ≡ registered_by id plan.now.deed self.old.prefixes) }
        ensures sent { OnOk result (let run = running entry id expired.now plan.now self.old in
            self.new.connections ≡ run_sendings run self.old.connections) }
        ensures err_table { OnErr result (self.new.table ≡ self.old.table) }
        ensures err_prefixes { OnErr result (self.new.prefixes ≡ self.old.prefixes) }
        ensures err_connections { OnErr result (self.new.connections ≡ self.old.connections) }
    {
        match self.send_groups(entry, id, expired, plan) {
            Ok(()) => Ok(()),
            Err(_) => {
                self.connections.take_back();
                Err(NoMemory)
            }
        }
    }

    // What a request makes of its connection, and which redirections it finds broken, come behind
    // all that may fail. Answers what the request signals. It takes no memory.
    fn settle(&mut self, id: u64, deed: Deed) -> Signalled
        requires open { IsOpen self.old.connections.items id }
        requires number { HasNumber
            (mode_by deed (connection_at self.old.connections.items id).mode) }
        ensures signalled { result ≡ signals_of deed }
        ensures space { self.new.space ≡ self.old.space }
        ensures table { self.new.table ≡ self.old.table }
        ensures prefixes { self.new.prefixes ≡ self.old.prefixes }
        ensures connections { self.new.connections ≡ settled id deed self.old.connections }
    {
        self.connections.mark_lost();
        let none = Words::new(self.alloc);
        match deed {
            Deed::Nothing | Deed::Quit | Deed::Shutdown => self.connections.spend(id),
            Deed::Tell(keys) => {
                self.connections.spend(id);
                return Signalled::Keys(keys);
            }
            Deed::TellAll => {
                self.connections.spend(id);
                return Signalled::All;
            }
            Deed::Remember(_keys) => self.connections.spend(id),
            Deed::Become(mode) => self.connections.set_mode(id, mode),
            Deed::Track(mode) => self.connections.renew(id, mode),
            Deed::Forget(mode) => self.connections.renew(id, mode),
        }
        Signalled::Keys(none)
    }

    // Ends the connection where it is one of those whom a turn ends, and forgets what was kept for
    // it. It takes no memory.
    fn end_one(&mut self, entry: u64, ends: Ends, id: u64)
        requires { IsId self.old.connections.items id }
        ensures space { self.new.space ≡ self.old.space }
        ensures table { let ended = is_ending ends self.old.connections.items id in
            let rows = self.old.table.rows in
            self.new.table ≡ record self.old.table {
              rows = if ended then without_connection id rows else rows;
            } }
        ensures prefixes { let ended = is_ending ends self.old.connections.items id in
            let left = registrations.without_connection id self.old.prefixes in
            self.new.prefixes ≡ if ended then left else self.old.prefixes }
        ensures connections { let ended = is_ending ends self.old.connections.items id in
            self.new.connections ≡ ended_if ended entry ends id self.old.connections }
    {
        if !self.connections.end(entry, ends, id) {
            return;
        }
        self.forget(id);
    }

    /// Ends those whom a turn ends, in order of their ids, and forgets what was kept for them. It
    /// takes no memory.
    pub fn end_all(&mut self, entry: u64, ends: Ends)
        requires by { ends.quits ≡ true → IsId self.old.connections.items ends.by }
        requires posted { let c = self.old.connections in ArePostedTo ends.limit c.items c.posts }
        ensures space { self.new.space ≡ self.old.space }
        ensures table { let ids = ending_ids ends self.old.connections.items in
            let rows = for_each without_connection ids self.old.table.rows in
            self.new.table ≡ record self.old.table { rows = rows } }
        ensures prefixes { let ids = ending_ids ends self.old.connections.items in
            self.new.prefixes
            ≡ for_each registrations.without_connection ids self.old.prefixes }
        ensures connections { HasEnded entry ends self.old.connections self.new.connections }
    {
        let (after, last) = self.connections.ending_within(ends);
        for place in after..last {
            self.end_one(entry, ends, place + 1);
        }
    }

    /// What a request makes of its connection, and then those end whom it ends. Answers what the
    /// request signals. It takes no memory.
    pub fn finish(&mut self, entry: u64, id: u64, deed: Deed, ends: Ends) -> Signalled
        requires open { IsOpen self.old.connections.items id }
        requires number { HasNumber
            (mode_by deed (connection_at self.old.connections.items id).mode) }
        requires by { ends.by ≡ id }
        requires posted { ArePostedTo ends.limit (settled id deed self.old.connections).items
            self.old.connections.posts }
        ensures signalled { result ≡ signals_of deed }
        ensures space { self.new.space ≡ self.old.space }
        ensures table { let c = settled id deed self.old.connections in
            let rows = for_each without_connection (ending_ids ends c.items) self.old.table.rows in
            self.new.table ≡ record self.old.table { rows = rows } }
        ensures prefixes { let c = settled id deed self.old.connections in
            self.new.prefixes ≡ for_each registrations.without_connection
            (ending_ids ends c.items) self.old.prefixes }
        ensures connections { let settled = settled id deed self.old.connections in
            HasEnded entry ends settled self.new.connections }
    {
        let signalled = self.settle(id, deed);
        self.end_all(entry, ends);
        signalled
    }

    // Whether the connection's redirection is broken, or is found so where these keys leave: those
    // whom they concern are told, and that is taken back.
    fn is_broken_by(&mut self, id: u64, keys: &[Octets]) -> Result<bool, NoMemory>
        requires id { IsId self.old.connections.items id }
        requires none { self.old.connections.posts ≡ [] }
        requires none_lost { self.old.connections.lost ≡ [] }
        requires none_dropped { self.old.connections.drops ≡ [] }
        requires apart { AreApart keys.now }
        ensures space { self.new.space ≡ self.old.space }
        ensures table { self.new.table ≡ self.old.table }
        ensures prefixes { self.new.prefixes ≡ self.old.prefixes }
        ensures connections { self.new.connections ≡ self.old.connections }
        ensures broken { IfOk result (λ b. b ≡ is_broken_by keys.now
            self.old.table.rows self.old.prefixes self.old.connections.items id) }
    {
        if self.connections.is_broken(id) {
            return Ok(true);
        }
        if !self.connections.is_lost(id) {
            return Ok(false);
        }
        match self.tell_keys(0, None, keys) {
            Ok(()) => {
                let is_lost = self.connections.was_lost(id);
                self.connections.take_back();
                Ok(is_lost)
            }
            Err(_) => {
                self.connections.take_back();
                Err(NoMemory)
            }
        }
    }

    // And where the keys that are due at a moment leave.
    fn is_broken_then(&mut self, id: u64, moment: u64) -> Result<bool, NoMemory>
        requires id { IsId self.old.connections.items id }
        requires none { self.old.connections.posts ≡ [] }
        requires none_lost { self.old.connections.lost ≡ [] }
        requires none_dropped { self.old.connections.drops ≡ [] }
        ensures space { self.new.space ≡ self.old.space }
        ensures table { self.new.table ≡ self.old.table }
        ensures prefixes { self.new.prefixes ≡ self.old.prefixes }
        ensures connections { self.new.connections ≡ self.old.connections }
        ensures broken { IfOk result (λ b. b ≡ is_broken_by (due_keys moment self.old.space)
            self.old.table.rows self.old.prefixes self.old.connections.items id) }
    {
        let keys = self.space.due_keys(moment)?;
        self.is_broken_by(id, keys.as_slice())
    }

    /// Who runs words that were read so, at a moment. Whether its redirection is broken is found
    /// out where they ask.
    pub fn caller(
        &mut self,
        id: u64,
        read: &Result<Command, WordFault>,
        moment: u64,
    ) -> Result<Caller, NoMemory>
        requires id { IsId self.old.connections.items id }
        requires none { self.old.connections.posts ≡ [] }
        requires none_lost { self.old.connections.lost ≡ [] }
        requires none_dropped { self.old.connections.drops ≡ [] }
        ensures space { self.new.space ≡ self.old.space }
        ensures table { self.new.table ≡ self.old.table }
        ensures prefixes { self.new.prefixes ≡ self.old.prefixes }
        ensures connections { self.new.connections ≡ self.old.connections }
        ensures id { IfOk result (λ by. by.id ≡ id) }
        ensures target { IfOk result (λ by. by.target_exists
            ≡ is_target (is_live self.old.connections.items) (target_of read.now)) }
        ensures broken { IfOk result (λ by. asks_broken read.now ≡ true → by.is_broken
            ≡ is_broken_by (due_keys moment self.old.space) self.old.table.rows
            self.old.prefixes self.old.connections.items id) }
        ensures known { OnOk result (read.now ≡ Err word.NoMemory → ⊥) }
    {
        if let Err(WordFault::NoMemory) = read {
            return Err(NoMemory);
        }
        let is_broken = asks_broken(read) && self.is_broken_then(id, moment)?;
        Ok(Caller {
            alloc: self.alloc,
            id,
            is_broken,
            target_exists: self.has_target(read),
        })
    }

    /// Sends what a Tick sends: those are told whom the keys that left concern, and none holds them
    /// any more. Where memory runs out all is as before.
    pub fn send_tick(&mut self, entry: u64, expired: &[Octets]) -> Result<(), NoMemory>
        requires none { self.old.connections.posts ≡ [] }
        requires none_lost { self.old.connections.lost ≡ [] }
        requires none_dropped { self.old.connections.drops ≡ [] }
        requires apart { AreApart expired.now }
        ensures space { self.new.space ≡ self.old.space }
        ensures prefixes { self.new.prefixes ≡ self.old.prefixes }
        ensures table { OnOk result (self.new.table
            ≡ record self.old.table { rows = without_keys expired.now self.old.table.rows }) }
        ensures sent { OnOk result
            (let group = whole_group expired.now self.old.table.rows self.old.prefixes in
            self.new.connections
            ≡ lost_marked (with_told entry group self.old.connections)) }
        ensures err_table { OnErr result (self.new.table ≡ self.old.table) }
        ensures err_connections { OnErr result (self.new.connections ≡ self.old.connections) }
    {
        match self.tell_and_forget(entry, None, expired) {
            Ok(()) => {
                self.connections.mark_lost();
                Ok(())
            }
            Err(_) => {
                self.connections.take_back();
                Err(NoMemory)
            }
        }
    }
}
