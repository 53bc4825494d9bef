//! What an effect sends, in order, as far as posts tell it.
ghost use Rattle.std.specs.Prelude.{◌≡◌, ◌+◌, ◌++◌, ◌∷◌, [], IfOk, OnOk, ℕ, List, None, Some};
ghost use Rattle.std.specs.Prelude.{filter, length, nat_eq, option_map};
ghost use Rattle.std.specs.List.{starts_with};
ghost use Rattle.track_table.specs.Table.{dropped, kept, without_keys};
ghost use Rattle.serial_model.specs.Actions.{Message, spelled, to_one};
ghost use Rattle.serial_model.specs.Tracking.{drop_group, group, prefix_group, signal_group};
ghost use Rattle.serial_model.specs.Tracking.{told_to, whole_group, without_signalled};
ghost use Rattle.past_effects.specs.Seen.{passes, unpassed};
ghost use Rattle.past_effects.specs.Sendings.{at_most, bytes_for, end_of, outlines, size_of};
ghost use Rattle.past_effects.specs.Sendings.{told_at, told_sent};

use super::connection::passes;
use super::connections::Connections;
use command_words::Signalled;
use prefix_table::PrefixTable;
use redirect::{Route, invalidation, notice};
use resp_value::{NoMemory, Octets, Proto, Value, Words, put_value};
use serial_model::Posted;
use std::alloc::Global;
use std::marker::Model;
use track_table::{Held, TrackTable};

/// A message of so many bytes to a connection, or its end.
#[derive(Clone, Copy)]
pub struct Sent {
    pub to: u64,
    pub what: Posted,
}

/// How many bytes wait for a connection with those of these that are its own, where these are not
/// more than the limit.
pub fn waiting_with(most: u64, waiting: u64, id: u64, sent: &[Sent]) -> Option<u64>
    ensures { result ≡ at_most most (waiting + bytes_for id sent.now) }
{
    if waiting > most {
        return None;
    }
    let mut sum = waiting;
    let mut left = sent;
    'sent: while let [one, others @ ..] = left {
        let size = if one.to == id { size_of(one.what) } else { 0 };
        if size > most - sum {
            return None;
        }
        sum += size;
        left = others;
    }
    Some(sum)
}

fn size_of(what: Posted) -> u64
    ensures { result ≡ size_of what }
{
    match what {
        Posted::Message { length } => length,
        Posted::End => 0,
    }
}

// Those of the keys that start with a prefix.
fn keys_under(alloc: Global, prefix: &[u8], keys: &[Octets]) -> Result<Words, NoMemory>
    ensures { IfOk result (λ w. w ≡ filter (λ key. starts_with nat_eq key prefix.now) keys.now) }
{
    let mut some = Words::new(alloc);
    for key in keys {
        if key.as_slice().starts_with(prefix) {
            some.push(key.copy()?)?;
        }
    }
    Ok(some)
}

fn one_key(alloc: Global, key: &[u8]) -> Result<Words, NoMemory>
    ensures { IfOk result (λ w. w ≡ key.now ∷ []) }
{
    let mut one = Words::new(alloc);
    one.push(Octets::from_slice(alloc, key)?)?;
    Ok(one)
}

// Of how many bytes a message is.
#[tactic(auto, unfolding(serial_model::specs::Actions::spelled))]
fn spelled_length(alloc: Global, proto: Proto, value: &Value) -> Result<u64, NoMemory>
    ensures { IfOk result (λ n. n ≡ length (spelled proto value.now)) }
{
    let mut bytes = Vec::new(alloc);
    put_value(proto, value, &mut bytes)?;
    Ok(bytes.len() as u64)
}

/// What an effect sends so far.
#[derive(Drop)]
pub struct Sendings {
    alloc: Global,
    items: Vec<Sent>,
}

impl Model for Sendings {
    ghost use Rattle.std.specs.Prelude.{List};
    ghost use Rattle.past_effects.specs.declared.sendings.Sent.{Sent};

    ghost Value = { List Sent };

    ghost view = { λ s. s.items.items };
}

impl Sendings {
    pub fn new(alloc: Global) -> Sendings
        ensures { result ≡ [] }
    {
        Sendings {
            alloc,
            items: Vec::new(alloc),
        }
    }

    pub fn as_slice(&self) -> &[Sent]
        ensures { result.now ≡ self.now }
    {
        self.items.as_slice()
    }

    /// A message, unless its connection has ended.
    pub fn send(
        &mut self,
        connections: &Connections,
        to: u64,
        proto: Proto,
        value: &Value,
    ) -> Result<(), NoMemory>
        ensures { OnOk result
            (self.new ≡ self.old ++ outlines connections.now ((to, Message proto value.now) ∷ [])) }
    {
        if connections.is_live(to) {
            let length = spelled_length(self.alloc, proto, value)?;
            self.items.push(Sent {
                to,
                what: Posted::Message { length },
            })?;
        }
        Ok(())
    }

    /// The reply, if there is one.
    pub fn reply(
        &mut self,
        connections: &Connections,
        to: u64,
        proto: Proto,
        reply: &Option<Value>,
    ) -> Result<(), NoMemory>
        ensures { OnOk result
            (self.new ≡ self.old ++ outlines connections.now (to_one to proto reply.now)) }
    {
        match reply {
            Some(value) => self.send(connections, to, proto, value),
            None => Ok(()),
        }
    }

    /// The end of a connection.
    pub fn end(&mut self, id: u64) -> Result<(), NoMemory>
        ensures { OnOk result (self.new ≡ self.old ++ end_of id ∷ []) }
    {
        self.items.push(Sent {
            to: id,
            what: Posted::End,
        })?;
        Ok(())
    }

    // A connection is told that these keys, or all, are not what they were, by its way.
    fn tell_way(
        &mut self,
        connections: &Connections,
        keys: Option<&Words>,
        id: u64,
    ) -> Result<(), NoMemory>
        ensures { OnOk result (let keys = option_map (λ w. w.now) keys.entry in
            self.new ≡ self.old ++ told_sent connections.now (told_to keys (id ∷ []))) }
    {
        let route = connections.route(id);
        match route {
            Route::Push(to) => {
                let message = invalidation(self.alloc, &route, keys)?;
                self.send(connections, to, Proto::Three, &message)
            }
            Route::Message(to) => {
                let message = invalidation(self.alloc, &route, keys)?;
                self.send(connections, to, Proto::Two, &message)
            }
            Route::BrokenNotice(to) => match connections.target(id) {
                Some(target) => {
                    let message = notice(self.alloc, target)?;
                    self.send(connections, to, Proto::Three, &message)
                }
                None => Ok(()),
            },
            Route::Nowhere => Ok(()),
        }
    }

    // A connection is told, unless it is passed over.
    fn tell_one(
        &mut self,
        connections: &Connections,
        passed: Option<u64>,
        keys: Option<&Words>,
        id: u64,
    ) -> Result<(), NoMemory>
        ensures { OnOk result
            (let told = told_to (option_map (λ w. w.now) keys.entry) (id ∷ []) in
            self.new ≡ self.old ++ told_sent connections.now (unpassed passed told)) }
    {
        if passes(passed, id) {
            return Ok(());
        }
        self.tell_way(connections, keys, id)
    }

    // These connections are told the same, but the one that is passed over.
    fn tell(
        &mut self,
        connections: &Connections,
        passed: Option<u64>,
        keys: Option<&Words>,
        ids: &[u64],
    ) -> Result<(), NoMemory>
        ensures { OnOk result (let told = told_to (option_map (λ w. w.now) keys.entry) ids.now in
            self.new ≡ self.old ++ told_sent connections.now (unpassed passed told)) }
    {
        for (place, id) in ids.iter().enumerate() {
            self.tell_one(connections, passed, keys, *id)?;
        }
        Ok(())
    }

    // The holders of these keys are told, key by key, and hold them no more.
    fn tell_holders(
        &mut self,
        connections: &Connections,
        table: &mut TrackTable,
        passed: Option<u64>,
        keys: &[Octets],
    ) -> Result<(), NoMemory>
        ensures table { OnOk result
            (table.new ≡ record table.old { rows = without_keys keys.now table.old.rows }) }
        ensures told { OnOk result (let told = group keys.now table.old.rows in
            self.new ≡ self.old ++ told_sent connections.now (unpassed passed told)) }
    {
        for (place, key) in keys.iter().enumerate() {
            let text = key.as_slice();
            let one = one_key(self.alloc, text)?;
            self.tell(connections, passed, Some(&one), table.holders(text))?;
            table.forget_key(text);
        }
        Ok(())
    }

    // Those who registered the prefix at a place are told of the keys that start with it.
    fn tell_at(
        &mut self,
        connections: &Connections,
        prefixes: &PrefixTable,
        passed: Option<u64>,
        keys: &[Octets],
        place: usize,
    ) -> Result<(), NoMemory>
        ensures { OnOk result (let told = told_at keys.now prefixes.now place in
            self.new ≡ self.old ++ told_sent connections.now (unpassed passed told)) }
    {
        match prefixes.at(place) {
            Some((prefix, ids)) => {
                let some = keys_under(self.alloc, prefix, keys)?;
                if some.as_slice().is_empty() {
                    return Ok(());
                }
                self.tell(connections, passed, Some(&some), ids)
            }
            None => Ok(()),
        }
    }

    // Those who registered prefixes of these keys are told, prefix by prefix.
    fn tell_prefixes(
        &mut self,
        connections: &Connections,
        prefixes: &PrefixTable,
        passed: Option<u64>,
        keys: &[Octets],
    ) -> Result<(), NoMemory>
        ensures { OnOk result (let told = prefix_group keys.now prefixes.now in
            self.new ≡ self.old ++ told_sent connections.now (unpassed passed told)) }
    {
        let places = prefixes.matching_any(keys)?;
        for place in &places {
            self.tell_at(connections, prefixes, passed, keys, *place)?;
        }
        Ok(())
    }

    /// Those whom these keys concern are told, but the one that is passed over; nobody remembers
    /// them any more.
    pub fn tell_keys(
        &mut self,
        connections: &Connections,
        table: &mut TrackTable,
        prefixes: &PrefixTable,
        passed: Option<u64>,
        keys: &[Octets],
    ) -> Result<(), NoMemory>
        ensures table { OnOk result
            (table.new ≡ record table.old { rows = without_keys keys.now table.old.rows }) }
        ensures told { OnOk result (let told = whole_group keys.now table.old.rows prefixes.now in
            self.new ≡ self.old ++ told_sent connections.now (unpassed passed told)) }
    {
        self.tell_holders(connections, table, passed, keys)?;
        self.tell_prefixes(connections, prefixes, passed, keys)
    }

    /// Those whom what a command signals concerns are told; of all keys, these that track.
    pub fn tell_signalled(
        &mut self,
        connections: &Connections,
        table: &mut TrackTable,
        prefixes: &PrefixTable,
        signalled: &Signalled,
        passed: Option<u64>,
        tracking: &[u64],
    ) -> Result<(), NoMemory>
        ensures table { OnOk result (let rows = without_signalled signalled.now table.old.rows in
            table.new ≡ record table.old { rows = rows }) }
        ensures told { OnOk result (let rows = table.old.rows in
            let told = signal_group signalled.now (passes passed) tracking.now rows prefixes.now in
            self.new ≡ self.old ++ told_sent connections.now told) }
    {
        match signalled {
            Signalled::Keys(keys) => {
                self.tell_keys(connections, table, prefixes, passed, keys.as_slice())
            }
            Signalled::All => {
                self.tell(connections, None, None, tracking)?;
                table.clear();
                Ok(())
            }
        }
    }

    // The holders of these rows are told, row by row.
    fn tell_rows(&mut self, connections: &Connections, rows: &[Held]) -> Result<(), NoMemory>
        ensures { OnOk result
            (self.new ≡ self.old ++ told_sent connections.now (drop_group rows.now)) }
    {
        for (place, row) in rows.iter().enumerate() {
            let one = one_key(self.alloc, row.key())?;
            self.tell(connections, None, Some(&one), row.holders())?;
        }
        Ok(())
    }

    /// The holders of keys past the table's limit are told, and these keys are dropped.
    pub fn tell_dropped(
        &mut self,
        connections: &Connections,
        table: &mut TrackTable,
    ) -> Result<(), NoMemory>
        ensures table { OnOk result
            (table.new ≡ record table.old { rows = kept table.old.limit table.old.rows }) }
        ensures told { OnOk result
            (let told = drop_group (dropped table.old.limit table.old.rows) in
            self.new ≡ self.old ++ told_sent connections.now told) }
    {
        self.tell_rows(connections, table.over_limit())?;
        table.drop_over_limit();
        Ok(())
    }
}
