//! The client's state: one turn at a time.
ghost use Rattle.std.specs.Prelude.{◌≡◌, ◌+◌, ◌<◌, ◌≤◌, ◌∷◌, [], ℕ, IfOk, OnOk, OnErr, length};

use super::cache::{forget_all, invalidate, mark, refill};
use super::counted_log::CountedLog;
use super::entry::CacheEntry;
use super::handshake::{
    greeting, handshake_length, id_after, is_welcome, side_length, tracking_behind,
};
use super::held_keys::HeldKeys;
use super::lead::{CachingWord, covers, read_lead, send_lead};
use super::log::{ClientCall, ClientMode, ClientRefusal, ClientReply, LogEntry, Wire};
use super::notices::{Notice, invalidated, is_broken_by, notice_of};
use super::outgoing::{NamedKeys, enqueue};
use super::pending::{Handed, PendingReplies, put_reply};
use super::side::{SideLink, has_ended_by};
use byte_queue::ByteQueue;
use command_words::{Query, is_control, written_by};
use fill_mark::Marks;
use past_entries::Past;
use resp_value::{NoMemory, Octets, Value, Words};
use std::alloc::Global;
use std::marker::Model;

const DOWN: ClientRefusal = ClientRefusal::Down { wire: Wire::Main };

/// A client: its log, the bytes for its links, the replies for its callers, the marks of its
/// fetches and its cache.
#[derive(Drop)]
pub struct ClientState {
    alloc: Global,
    mode: ClientMode,
    capacity: u64,
    log_max: u64,
    // an end of each link, and a Poll of each number that is owed, can still be counted
    log: CountedLog,
    // the bytes for Main that were not taken
    queued: ByteQueue,
    replied: u64,
    side: SideLink,
    // of two links, for each number without a reply, after the handshake's
    named: NamedKeys,
    // by number, after the handshake's
    pending: PendingReplies,
    owed: usize,
    marks: Marks,
    keys: HeldKeys,
    ended: bool,
    broken: bool,
}

impl Model for ClientState {
    ghost use Rattle.std.specs.Prelude.{◌+◌, ◌<◌, ◌^◌, length, cond};
    ghost use Rattle.shared_cache.specs.ClientFields.{Client, Reflects};
    ghost use Rattle.std.specs.Coded.{codes};
    ghost use Rattle.resp_value.specs.TreeCoding.{tree_code};

    ghost Value = { Client };

    ghost coded = { Prim.hlevel (codes, tree_code) };

    ghost view = { λ c. record {
      setup = record { mode = c.mode; capacity = c.capacity; log_max = c.log_max };
      past = c.log;
    } };

    ghost invariant = { λ c. record {
      reflects : Reflects (record { mode = c.mode; capacity = c.capacity; log_max = c.log_max })
          c.log
          (record {
            queued = c.queued;
            replied = c.replied;
            side = c.side;
            named = c.named;
            pending = c.pending;
            owed = c.owed;
            marks = c.marks;
            keys = c.keys;
            ended = c.ended;
            broken = c.broken;
          });
      room : length c.log + c.owed + cond c.ended 0 1 + cond c.side.ended 0 1 < 2 ^ 64;
    } };
}

impl ClientState {
    ghost use Rattle.std.specs.Prelude.{◌==◌, true, false, not, is_some, option_map, take, nat_le};
    ghost use Rattle.shared_cache.specs.declared.log.LogEntry.TheVariants as entry;
    ghost use Rattle.shared_cache.specs.declared.notices.Notice.TheVariants.{Reply};
    ghost use Rattle.shared_cache.specs.declared.log.ClientCall.TheVariants as call;
    ghost use Rattle.shared_cache.specs.declared.log.Wire.TheVariants.{Main, Side};
    ghost use Rattle.shared_cache.specs.Notices.{notice_of, IsPush};
    ghost use Rattle.shared_cache.specs.Log.{is_ready, is_ended, replies, caching_on, handshake};
    ghost use Rattle.shared_cache.specs.Log.{caching_on_for};
    ghost use Rattle.shared_cache.specs.Held.{commands, held, held_for, held_in_place, as_listed};
    ghost use Rattle.shared_cache.specs.Held.{send_lead, is_read};
    ghost use Rattle.std.specs.List.{slice_get};
    ghost use Rattle.shared_cache.specs.HeldKeys.{seen};
    ghost use Rattle.shared_cache.specs.Out.{untaken};
    ghost use Rattle.shared_cache.specs.Steps.{ClientStep, answer_ask, read_number, command_number};
    ghost use Rattle.shared_cache.specs.Steps.{is_log_full, is_welcome, fault_of};
    ghost use Rattle.shared_cache.specs.Log.{is_told};
    ghost use Rattle.shared_cache.specs.ClientFields.{IsLast, IsClientMode, added};
    ghost use Rattle.shared_cache.specs.Laws.{IsCall, LegalLog};

    /// A client with an empty log, whose handshake is queued.
    pub fn new(
        alloc: Global,
        mode: ClientMode,
        capacity: u64,
        log_max: u64,
    ) -> Result<ClientState, NoMemory>
        requires mode { IsClientMode mode }
        requires capacity { (0 < capacity) × (capacity ≤ 1000000) }
        requires log_max { 0 < log_max }
        ensures { IfOk result (λ c. c ≡ record {
          setup = record { mode = mode; capacity = capacity; log_max = log_max };
          past = [];
        }) }
    {
        let keys = HeldKeys::new(alloc, capacity)?;
        let queued = greeting(alloc, &mode, Wire::Main)?;
        let side = SideLink::new(alloc, &mode)?;
        Ok(ClientState {
            alloc,
            mode,
            capacity,
            log_max,
            log: CountedLog::new(),
            queued,
            replied: 0,
            side,
            named: NamedKeys::new(alloc),
            pending: PendingReplies::new(alloc),
            owed: 0,
            marks: Marks::new(alloc),
            keys,
            ended: false,
            broken: false,
        })
    }

    /// The entries so far, which are in no memory.
    pub fn log(&self) -> &Past<LogEntry>
        ensures { result.now ≡ self.now.past }
    {
        self.log.past()
    }

    /// How many entries the log has.
    pub fn entries(&self) -> u64
        ensures { result ≡ length self.now.past }
    {
        self.log.len()
    }

    /// What is held, in byte order of the query's printed words: the query, the value, and the
    /// number of the fetch. None past the last. Each that is held is compared with all others.
    pub fn held(&self, place: usize) -> Option<(&Query, &Value, u64)>
        ensures { option_map (λ r. (r.0.now, r.1.now, r.2)) result
            ≡ as_listed (held_in_place place (held self.now.setup self.now.past)) }
    {
        let entry = self.keys.entry_at(place)?;
        Some((&entry.query, &entry.value, entry.number))
    }

    /// All that is held, as `held` lists it by place, by one sort.
    pub fn held_in_order(&self) -> Result<Vec<&CacheEntry>, NoMemory>
        ensures { IfOk result (λ v. (place : ℕ) → slice_get (seen v.items) place
            ≡ held_in_place place (held self.now.setup self.now.past)) }
    {
        self.keys.in_order(self.alloc)
    }

    /// Whether Main has ended.
    pub fn has_ended(&self) -> bool
        ensures { result ≡ is_ended self.now.setup.mode Main self.now.past }
    {
        self.ended
    }

    /// Whether this link has ended.
    pub fn has_ended_on(&self, wire: Wire) -> bool
        ensures { result ≡ is_ended self.now.setup.mode wire self.now.past }
    {
        match wire {
            Wire::Main => self.ended,
            Wire::Side => self.side.ended,
        }
    }

    /// How many bytes are to be taken out for Main.
    pub fn waiting(&self) -> usize
        ensures { result ≡ length (untaken self.now.setup Main self.now.past) }
    {
        self.waiting_on(Wire::Main)
    }

    /// How many bytes are to be taken out for this link.
    pub fn waiting_on(&self, wire: Wire) -> usize
        ensures { result ≡ length (untaken self.now.setup wire self.now.past) }
    {
        match wire {
            Wire::Main => self.queued.len(),
            Wire::Side => self.side.queued.len(),
        }
    }

    /// How many of its commands have been answered, those of the handshake among them.
    pub fn replied(&self) -> u64
        ensures { result ≡ length (replies self.now.setup.mode Main self.now.past) }
    {
        self.replied
    }

    fn is_ready(&self) -> bool
        ensures { result ≡ is_ready self.now.setup.mode self.now.past }
    {
        self.replied >= handshake_length(&self.mode)
    }

    // What is read is cached, unless the key is not covered.
    fn is_caching(&self) -> bool
        ensures { result ≡ caching_on self.now.setup.mode self.now.past }
    {
        self.is_ready() && !(self.ended || self.side.ended) && !self.broken
    }

    fn is_caching_for(&self, key: &[u8]) -> bool
        ensures { result ≡ caching_on_for self.now.setup.mode self.now.past key.now }
    {
        self.is_caching() && covers(&self.mode.caching, key)
    }

    fn is_log_full(&self) -> bool
        ensures { result ≡ is_log_full self.now.setup self.now.past }
    {
        self.log.len() >= self.log_max
    }

    // The link ends by this entry.
    fn finish(&mut self, wire: Wire, entry: LogEntry)
        requires open { is_ended self.old.setup.mode wire self.old.past ≡ false }
        requires last { IsLast wire entry }
        ensures { self.new ≡ added entry self.old }
    {
        let ready = self.is_ready();
        forget_all(&mut self.marks, &mut self.keys);
        let main = has_ended_by(self.mode.shape, wire, Wire::Main, ready, self.ended);
        let side = has_ended_by(self.mode.shape, wire, Wire::Side, ready, self.side.ended);
        self.ended = main;
        self.side.ended = side;
        self.log.record(&entry);
    }

    fn end(&mut self, wire: Wire) -> ClientReply
        ensures setup { self.new.setup ≡ self.old.setup }
        ensures step { ClientStep self.old.setup self.old.past (call.End wire) result
            self.new.past }
    {
        if self.has_ended_on(wire) {
            return ClientReply::Noted;
        }
        self.finish(wire, LogEntry::End(wire));
        ClientReply::Noted
    }

    fn hand_out(&mut self, number: u64) -> ClientReply
        ensures setup { self.new.setup ≡ self.old.setup }
        ensures step { ClientStep self.old.setup self.old.past (call.Poll number) result
            self.new.past }
    {
        let before = handshake_length(&self.mode);
        if number <= before {
            return ClientReply::Refused(ClientRefusal::NoNumber { number });
        }
        if number - before > self.pending.len() as u64 {
            return ClientReply::Refused(ClientRefusal::NoNumber { number });
        }
        let place = (number - before - 1) as usize;
        match self.pending.hand_over(place) {
            Handed::Gone => ClientReply::Refused(ClientRefusal::NoNumber { number }),
            Handed::Waiting => {
                if self.ended {
                    return ClientReply::Refused(DOWN);
                }
                ClientReply::NotYet
            }
            Handed::There(value) => {
                self.owed -= 1;
                self.log.record(&LogEntry::Poll(number));
                ClientReply::Answer { value }
            }
        }
    }

    fn is_drained(&self, wire: Wire) -> bool
        ensures { result ≡ (length (untaken self.now.setup wire self.now.past) == 0) }
    {
        match wire {
            Wire::Main => self.queued.len() == 0,
            Wire::Side => self.side.queued.len() == 0,
        }
    }

    fn give_main(&mut self, most: u64) -> Result<Octets, NoMemory>
        requires { is_ended self.old.setup.mode Main self.old.past ≡ false }
        ensures bytes { IfOk result
            (λ b. b ≡ take most (untaken self.old.setup Main self.old.past)) }
        ensures ok { OnOk result (self.new ≡ added (entry.TakeOut Main most) self.old) }
        ensures err { OnErr result (self.new ≡ self.old) }
    {
        let bytes = self.queued.front(most as usize)?;
        self.log.reserve(self.owed, 3)?;
        self.queued.advance(most as usize);
        self.log.record(&LogEntry::TakeOut(Wire::Main, most));
        Ok(bytes)
    }

    fn give_side(&mut self, most: u64) -> Result<Octets, NoMemory>
        requires { is_ended self.old.setup.mode Side self.old.past ≡ false }
        ensures bytes { IfOk result
            (λ b. b ≡ take most (untaken self.old.setup Side self.old.past)) }
        ensures ok { OnOk result (self.new ≡ added (entry.TakeOut Side most) self.old) }
        ensures err { OnErr result (self.new ≡ self.old) }
    {
        let bytes = self.side.queued.front(most as usize)?;
        self.log.reserve(self.owed, 3)?;
        self.side.queued.advance(most as usize);
        self.log.record(&LogEntry::TakeOut(Wire::Side, most));
        Ok(bytes)
    }

    fn give(&mut self, wire: Wire, most: u64) -> Result<Octets, NoMemory>
        requires { is_ended self.old.setup.mode wire self.old.past ≡ false }
        ensures bytes { IfOk result
            (λ b. b ≡ take most (untaken self.old.setup wire self.old.past)) }
        ensures ok { OnOk result (self.new ≡ added (entry.TakeOut wire most) self.old) }
        ensures err { OnErr result (self.new ≡ self.old) }
    {
        match wire {
            Wire::Main => self.give_main(most),
            Wire::Side => self.give_side(most),
        }
    }

    fn take_out(&mut self, wire: Wire, most: u64) -> ClientReply
        ensures setup { self.new.setup ≡ self.old.setup }
        ensures step { ClientStep self.old.setup self.old.past (call.TakeOut wire most) result
            self.new.past }
    {
        if self.has_ended_on(wire) {
            return ClientReply::Refused(ClientRefusal::Down { wire });
        }
        if self.is_drained(wire) {
            return ClientReply::Quiet;
        }
        if self.is_log_full() {
            return ClientReply::Refused(ClientRefusal::LogFull {
                entries: self.entries(),
            });
        }
        match self.give(wire, most) {
            Ok(bytes) => ClientReply::Bytes(bytes),
            Err(_) => ClientReply::Refused(ClientRefusal::NoMemory),
        }
    }

    fn lead_for(&self, words: &Words) -> Result<Option<CachingWord>, NoMemory>
        ensures { IfOk result (λ l. l ≡ send_lead self.now.setup.mode.caching
            (caching_on self.now.setup.mode self.now.past) (is_read words.now)) }
    {
        send_lead(self.alloc, &self.mode.caching, self.is_caching(), words)
    }

    // The words go out, and what they write is no longer held.
    fn pass_on(&mut self, words: Words) -> Result<u64, NoMemory>
        requires open { is_ended self.old.setup.mode Main self.old.past ≡ false }
        requires ready { is_ready self.old.setup.mode self.old.past ≡ true }
        ensures number { IfOk result (λ n. n ≡ command_number self.old.setup self.old.past words) }
        ensures ok { OnOk result (self.new ≡ added (entry.Send words) self.old) }
        ensures err { OnErr result (self.new ≡ self.old) }
    {
        let written = written_by(self.alloc, &words)?;
        let lead = self.lead_for(&words)?;
        self.log.reserve(self.owed, 4)?;
        enqueue(
            self.mode.shape,
            lead,
            &words,
            &mut self.queued,
            &mut self.pending,
            &mut self.named,
        )?;
        invalidate(&mut self.marks, &mut self.keys, &written);
        self.owed += 1;
        self.log.record(&LogEntry::Send(words));
        Ok(handshake_length(&self.mode) + self.pending.len() as u64)
    }

    fn send(&mut self, words: Words) -> ClientReply
        ensures setup { self.new.setup ≡ self.old.setup }
        ensures step { ClientStep self.old.setup self.old.past (call.Send words) result
            self.new.past }
    {
        if self.has_ended() {
            return ClientReply::Refused(DOWN);
        }
        if !self.is_ready() {
            return ClientReply::Refused(ClientRefusal::NotReady);
        }
        if is_control(&words) {
            return ClientReply::Refused(ClientRefusal::Control);
        }
        if self.is_log_full() {
            return ClientReply::Refused(ClientRefusal::LogFull {
                entries: self.entries(),
            });
        }
        match self.pass_on(words) {
            Ok(number) => ClientReply::Sent { number },
            Err(_) => ClientReply::Refused(ClientRefusal::NoMemory),
        }
    }

    // A hit: the key was used.
    fn hit(&mut self, query: Query) -> Result<(), NoMemory>
        requires { is_some (held_for query (held self.old.setup self.old.past)) ≡ true }
        ensures ok { OnOk result (self.new ≡ added (entry.Ask query) self.old) }
        ensures err { OnErr result (self.new ≡ self.old) }
    {
        self.log.reserve(self.owed, 3)?;
        self.keys.promote(query.key());
        self.log.record(&LogEntry::Ask(query));
        Ok(())
    }

    // A miss: the query goes out, and while caching is on its fetch is marked.
    fn fetch(&mut self, query: Query) -> Result<u64, NoMemory>
        requires open { is_ended self.old.setup.mode Main self.old.past ≡ false }
        requires ready { is_ready self.old.setup.mode self.old.past ≡ true }
        requires miss { held_for query (held self.old.setup self.old.past) ≡ None }
        ensures number { IfOk result (λ n. n ≡ read_number self.old.setup self.old.past query) }
        ensures ok { OnOk result (self.new ≡ added (entry.Ask query) self.old) }
        ensures err { OnErr result (self.new ≡ self.old) }
    {
        let marked = query.copy()?;
        let on = self.is_caching_for(query.key());
        let before = self.queued.len();
        let awaited = self.pending.len();
        let named = self.named.len();
        self.log.reserve(self.owed, 4)?;
        // its words read as a query, which names its key alone
        let words = query.words();
        enqueue(
            self.mode.shape,
            read_lead(&self.mode.caching, on),
            words,
            &mut self.queued,
            &mut self.pending,
            &mut self.named,
        )?;
        let number = handshake_length(&self.mode) + self.pending.len() as u64;
        match mark(&mut self.marks, on, number, marked) {
            Ok(()) => {}
            Err(_) => {
                self.queued.keep(before);
                self.pending.keep(awaited);
                self.named.shorten(named);
                return Err(NoMemory);
            }
        }
        self.owed += 1;
        self.log.record(&LogEntry::Ask(query));
        Ok(number)
    }

    fn answer(&mut self, query: Query) -> Result<ClientReply, NoMemory>
        requires open { is_ended self.old.setup.mode Main self.old.past ≡ false }
        requires ready { is_ready self.old.setup.mode self.old.past ≡ true }
        ensures reply { IfOk result
            (λ r. r ≡ answer_ask (held_for query (held self.old.setup self.old.past))
            (read_number self.old.setup self.old.past query)) }
        ensures ok { OnOk result (self.new ≡ added (entry.Ask query) self.old) }
        ensures err { OnErr result (self.new ≡ self.old) }
    {
        match self.keys.find(&query) {
            Some(entry) => {
                let value = entry.value.copy()?;
                let number = entry.number;
                self.hit(query)?;
                Ok(ClientReply::Hit { value, number })
            }
            None => Ok(ClientReply::Sent {
                number: self.fetch(query)?,
            }),
        }
    }

    fn ask(&mut self, query: Query) -> ClientReply
        ensures setup { self.new.setup ≡ self.old.setup }
        ensures step { ClientStep self.old.setup self.old.past (call.Ask query) result
            self.new.past }
    {
        if self.has_ended() {
            return ClientReply::Refused(DOWN);
        }
        if !self.is_ready() {
            return ClientReply::Refused(ClientRefusal::NotReady);
        }
        if self.is_log_full() {
            return ClientReply::Refused(ClientRefusal::LogFull {
                entries: self.entries(),
            });
        }
        match self.answer(query) {
            Ok(reply) => reply,
            Err(_) => ClientReply::Refused(ClientRefusal::NoMemory),
        }
    }

    // A push or a message that does not end the link.
    fn on_push(&mut self, wire: Wire, notice: Notice, value: Value) -> Result<(), NoMemory>
        requires open { is_ended self.old.setup.mode wire self.old.past ≡ false }
        requires notice { notice ≡ notice_of self.old.setup.mode wire value }
        requires push { IsPush notice }
        ensures ok { OnOk result (self.new ≡ added (entry.Got wire value) self.old) }
        ensures err { OnErr result (self.new ≡ self.old) }
    {
        let written = invalidated(self.alloc, notice, &value)?;
        self.log.reserve(self.owed, 3)?;
        invalidate(&mut self.marks, &mut self.keys, &written);
        self.broken = is_broken_by(notice, self.broken);
        self.log.record(&LogEntry::Got(wire, value));
        Ok(())
    }

    // The reply to the oldest number without one.
    fn settle(&mut self, value: Value) -> Result<(), NoMemory>
        requires open { is_ended self.old.setup.mode Main self.old.past ≡ false }
        requires reply { notice_of self.old.setup.mode Main value ≡ Reply }
        requires awaited { fault_of self.old.setup self.old.past Main value ≡ None }
        ensures ok { OnOk result (self.new ≡ added (entry.Got Main value) self.old) }
        ensures err { OnErr result (self.new ≡ self.old) }
    {
        // so few numbers are awaited that the next is a number too
        let _ = self.pending.len();
        let before = handshake_length(&self.mode);
        let number = self.replied + 1;
        self.log.reserve(self.owed, 3)?;
        refill(
            self.alloc,
            number,
            &value,
            self.named.for_number(number, before),
            &mut self.marks,
            &mut self.keys,
        )?;
        self.named.drop_number(number, before);
        let value = self.log.record_got(Wire::Main, value);
        put_reply(&self.mode, &mut self.pending, number, value);
        self.replied = number;
        Ok(())
    }

    // The next reply on Side.
    fn settle_side(&mut self, value: Value) -> Result<(), NoMemory>
        requires open { is_ended self.old.setup.mode Side self.old.past ≡ false }
        requires reply { notice_of self.old.setup.mode Side value ≡ Reply }
        requires awaited { fault_of self.old.setup self.old.past Side value ≡ None }
        ensures ok { OnOk result (self.new ≡ added (entry.Got Side value) self.old) }
        ensures err { OnErr result (self.new ≡ self.old) }
    {
        let number = self.side.replied + 1;
        let id = id_after(self.alloc, &self.mode, number, &value, &self.side.id)?;
        let bytes = tracking_behind(self.alloc, &self.mode, number, &id)?;
        self.log.reserve(self.owed, 3)?;
        self.queued.add(&bytes)?;
        self.side.replied = number;
        self.side.id = id;
        self.log.record(&LogEntry::Got(Wire::Side, value));
        Ok(())
    }

    // How many commands went out on the link.
    fn has_put(&self, wire: Wire) -> u64
        ensures { result ≡ length (commands self.now.setup wire self.now.past) }
    {
        match wire {
            Wire::Main => self.greeted() + self.pending.len() as u64,
            Wire::Side => side_length(&self.mode),
        }
    }

    // All of the handshake on Side was answered.
    fn is_told(&self) -> bool
        ensures { result ≡ is_told self.now.setup.mode self.now.past }
    {
        self.side.replied >= side_length(&self.mode)
    }

    // How many commands of the handshake went out on Main.
    fn greeted(&self) -> u64
        ensures length { result ≡ length (handshake self.now.setup.mode Main self.now.past) }
        ensures within { result ≤ 2 }
    {
        let all = handshake_length(&self.mode);
        if self.is_told() { all } else { all - 1 }
    }

    fn answered(&self, wire: Wire) -> u64
        ensures { result ≡ length (replies self.now.setup.mode wire self.now.past) }
    {
        match wire {
            Wire::Main => self.replied,
            Wire::Side => self.side.replied,
        }
    }

    fn is_awaiting(&self, wire: Wire) -> bool
        ensures { result ≡ not (nat_le (length (commands self.now.setup wire self.now.past))
            (length (replies self.now.setup.mode wire self.now.past))) }
    {
        self.answered(wire) < self.has_put(wire)
    }

    fn welcomes(&self, wire: Wire, value: &Value) -> bool
        requires { length (replies self.now.setup.mode wire self.now.past)
            < length (commands self.now.setup wire self.now.past) }
        ensures { result ≡ is_welcome self.now.setup.mode wire
            (length (replies self.now.setup.mode wire self.now.past) + 1) value.now }
    {
        let _ = self.has_put(wire);
        is_welcome(&self.mode, wire, self.answered(wire) + 1, value)
    }

    fn notice(&self, wire: Wire, value: &Value) -> Notice
        ensures { result ≡ notice_of self.now.setup.mode wire value.now }
    {
        notice_of(&self.mode, wire, value)
    }

    fn got(&mut self, wire: Wire, value: Value) -> ClientReply
        ensures setup { self.new.setup ≡ self.old.setup }
        ensures step { ClientStep self.old.setup self.old.past (call.Got wire value) result
            self.new.past }
    {
        if self.has_ended_on(wire) {
            return ClientReply::Refused(ClientRefusal::Down { wire });
        }
        match self.notice(wire, &value) {
            Notice::Reply => self.got_reply(wire, value),
            Notice::Malformed => {
                self.finish(wire, LogEntry::Bad(wire, value));
                ClientReply::Refused(ClientRefusal::BadPush { wire })
            }
            notice => self.got_push(wire, notice, value),
        }
    }

    fn got_push(&mut self, wire: Wire, notice: Notice, value: Value) -> ClientReply
        requires open { is_ended self.old.setup.mode wire self.old.past ≡ false }
        requires notice { notice ≡ notice_of self.old.setup.mode wire value }
        requires push { IsPush notice }
        ensures setup { self.new.setup ≡ self.old.setup }
        ensures step { ClientStep self.old.setup self.old.past (call.Got wire value) result
            self.new.past }
    {
        if self.is_log_full() {
            return ClientReply::Refused(ClientRefusal::LogFull {
                entries: self.entries(),
            });
        }
        match self.on_push(wire, notice, value) {
            Ok(()) => ClientReply::Noted,
            Err(_) => ClientReply::Refused(ClientRefusal::NoMemory),
        }
    }

    fn settle_on(&mut self, wire: Wire, value: Value) -> Result<(), NoMemory>
        requires open { is_ended self.old.setup.mode wire self.old.past ≡ false }
        requires reply { notice_of self.old.setup.mode wire value ≡ Reply }
        requires awaited { fault_of self.old.setup self.old.past wire value ≡ None }
        ensures ok { OnOk result (self.new ≡ added (entry.Got wire value) self.old) }
        ensures err { OnErr result (self.new ≡ self.old) }
    {
        match wire {
            Wire::Main => self.settle(value),
            Wire::Side => self.settle_side(value),
        }
    }

    fn got_reply(&mut self, wire: Wire, value: Value) -> ClientReply
        requires open { is_ended self.old.setup.mode wire self.old.past ≡ false }
        requires reply { notice_of self.old.setup.mode wire value ≡ Reply }
        ensures setup { self.new.setup ≡ self.old.setup }
        ensures step { ClientStep self.old.setup self.old.past (call.Got wire value) result
            self.new.past }
    {
        if !self.is_awaiting(wire) {
            self.finish(wire, LogEntry::Bad(wire, value));
            return ClientReply::Refused(ClientRefusal::Unexpected { wire });
        }
        if !self.welcomes(wire, &value) {
            self.finish(wire, LogEntry::Bad(wire, value));
            return ClientReply::Refused(ClientRefusal::SetupRefused { wire });
        }
        if self.is_log_full() {
            return ClientReply::Refused(ClientRefusal::LogFull {
                entries: self.entries(),
            });
        }
        match self.settle_on(wire, value) {
            Ok(()) => ClientReply::Noted,
            Err(_) => ClientReply::Refused(ClientRefusal::NoMemory),
        }
    }

    /// One turn: its answer, and one more entry in the log, or none, are those of the definition.
    pub fn turn(&mut self, call: ClientCall) -> ClientReply
        requires { IsCall self.old.setup.mode call }
        ensures setup { self.new.setup ≡ self.old.setup }
        ensures step { ClientStep self.old.setup self.old.past call result self.new.past }
        ensures legal { LegalLog self.old.setup self.old.past
            → LegalLog self.new.setup self.new.past }
    {
        match call {
            ClientCall::Ask(query) => {
                // an entry of a legal log reads as a query, as each `Query` does
                let _words = query.words();
                self.ask(query)
            }
            ClientCall::Send(words) => self.send(words),
            ClientCall::Poll(number) => self.hand_out(number),
            ClientCall::TakeOut(wire, most) => self.take_out(wire, most),
            ClientCall::Got(wire, value) => self.got(wire, value),
            ClientCall::End(wire) => self.end(wire),
        }
    }
}
