//! The client behind its guards: what is refused, what is let go, and how old a hit may be.
ghost use Rattle.std.specs.Prelude.{◌≡◌, ◌∷◌, ◌<◌, ◌≤◌, [], IfErr, IfOk, OnOk, length};
ghost use Rattle.command_words.specs.Queries.{key_of};
ghost use Rattle.shared_cache.specs.declared.log.ClientCall.TheVariants as call;
ghost use Rattle.shared_cache.specs.declared.log.ClientReply.TheVariants.{Noted, Refused};
ghost use Rattle.shared_cache.specs.declared.log.Wire.TheVariants.{Main};
ghost use Rattle.shared_cache.specs.ClientFields.{IsOneLink};
ghost use Rattle.client_library.specs.Guarded.{AsksBound, AsksGuarded, AsksWithin, DoesNotLetGo};
ghost use Rattle.client_library.specs.Guarded.{FeedsTo, counting};
ghost use Rattle.client_library.specs.Guarded.{Fetches, HitIsYoung, IsMiss, IsNotedOrRefused};
ghost use Rattle.client_library.specs.Guarded.{IsShortened, IsYoungHit, KeepsTime};
ghost use Rattle.client_library.specs.Guarded.{LeavesNone, LetsGoThen, SendsGuarded, Turns};
ghost use Rattle.client_library.specs.Guarded.{at_time, begun_with, is_stale, is_young};
ghost use Rattle.client_library.specs.Guarded.{with_client};
ghost use Rattle.client_library.specs.Library.{HitIsHeld, ended, has_ended};
ghost use Rattle.client_library.specs.Unknown.{AreGone, invalidation};

use super::library::LibraryClient;
use super::measure::HeldSize;
use super::refused::refuses;
use super::unknown::{invalidation, is_unknown};
use command_words::Query;
use resp_value::{NoMemory, Octets, Words};
use shared_cache::{ClientMode, ClientRefusal, ClientReply};
use std::alloc::Global;
use std::collections::BTreeMap;
use std::marker::Model;

fn key_alone(alloc: Global, query: &Query) -> Result<Words, NoMemory>
    ensures { IfOk result (λ w. w ≡ key_of query.now ∷ []) }
{
    let mut keys = Words::new(alloc);
    keys.push(Octets::from_slice(alloc, query.key())?)?;
    Ok(keys)
}

// A value that is got is noted or refused.
fn as_noted(told: ClientReply) -> Result<(), ClientRefusal>
    requires { IsNotedOrRefused told }
    ensures ok { OnOk result (told ≡ Noted) }
    ensures err { IfErr result (λ r. told ≡ Refused r) }
{
    match told {
        ClientReply::Noted => Ok(()),
        ClientReply::Refused(refusal) => Err(refusal),
        _ => unreachable!(),
    }
}

/// A client that refuses each command that would change how its connection is served, lets go of
/// what an unknown command may write, and, where it has a bound, gives no hit that is older.
#[derive(Drop)]
pub struct GuardedClient {
    alloc: Global,
    client: LibraryClient,
    max_age: Option<u64>,
    // the latest time that was told
    clock: u64,
    // when the fetch of a number was sent; of a client with a bound
    times: BTreeMap<u64, u64>,
    // there are at most so many
    times_max: u64,
    hits: u64,
    misses: u64,
}

impl Model for GuardedClient {
    ghost use Rattle.std.specs.Coded.{codes};
    ghost use Rattle.resp_value.specs.TreeCoding.{tree_code};
    ghost use Rattle.client_library.specs.Guarded.{Guarded};

    ghost Value = { Guarded };

    ghost coded = { Prim.hlevel (codes, tree_code) };

    ghost view = { λ g. record {
      client = g.client;
      max_age = g.max_age;
      clock = g.clock;
      times = g.times.entries;
      counts = record { hits = g.hits; misses = g.misses };
    } };
}

impl GuardedClient {
    /// As `LibraryClient::new`, with a bound on the age of hits or none.
    pub fn new(
        alloc: Global,
        mode: ClientMode,
        capacity: u64,
        max_age: Option<u64>,
    ) -> Result<GuardedClient, NoMemory>
        requires mode { IsOneLink mode }
        requires capacity { (0 < capacity) × (capacity ≤ 1000000) }
        ensures { IfOk result (λ g. g ≡ begun_with mode capacity max_age) }
    {
        Ok(GuardedClient {
            alloc,
            client: LibraryClient::new(alloc, mode, capacity)?,
            max_age,
            clock: 0,
            times: BTreeMap::new(alloc),
            times_max: capacity.saturating_mul(2).saturating_add(4096),
            hits: 0,
            misses: 0,
        })
    }

    /// Whether the link has ended.
    pub fn has_ended(&self) -> bool
        ensures { result ≡ has_ended self.now.client }
    {
        self.client.has_ended()
    }

    /// The time of the asks that follow, in any unit, which is that of the bound. One before the
    /// latest counts as the latest.
    pub fn tell_time(&mut self, now: u64)
        ensures { self.new ≡ at_time now self.old }
    {
        self.clock = self.clock.max(now);
    }

    // An invalidation of these keys.
    fn let_go(&mut self, keys: &[Octets]) -> Result<(), ClientRefusal>
        ensures turn { OnOk result
            (Turns (call.Got Main (invalidation keys.now)) self.old Noted self.new) }
        ensures gone { OnOk result (AreGone keys.now self.new.client) }
        ensures err { IfErr result (λ r. DoesNotLetGo keys.now self.old (Refused r) self.new) }
    {
        let Ok(value) = invalidation(self.alloc, keys) else {
            return Err(ClientRefusal::NoMemory);
        };
        let told = self.client.get(value);
        match as_noted(told) {
            Ok(()) => {}
            Err(refusal) => return Err(refusal),
        }
        Ok(())
    }

    fn pass_on(&mut self, words: Words) -> ClientReply
        requires { 0 < length words }
        ensures { Turns (call.Send words) self.old result self.new }
    {
        self.client.send(words)
    }

    fn send_unknown(&mut self, words: Words) -> ClientReply
        requires { 0 < length words }
        ensures turns { LetsGoThen words (Turns (call.Send words)) self.old result self.new }
        ensures none { LeavesNone words result self.new }
    {
        match self.let_go(words.as_slice()) {
            Ok(()) => self.pass_on(words),
            Err(refusal) => ClientReply::Refused(refusal),
        }
    }

    /// A command other than a query: its number.
    pub fn send(&mut self, words: Words) -> ClientReply
        requires { 0 < length words }
        ensures sends { SendsGuarded words self.old result self.new }
        ensures none { LeavesNone words result self.new }
    {
        if refuses(&words) {
            return ClientReply::Refused(ClientRefusal::Control);
        }
        match is_unknown(self.alloc, &words) {
            Ok(true) => self.send_unknown(words),
            Ok(false) => self.pass_on(words),
            Err(_) => ClientReply::Refused(ClientRefusal::NoMemory),
        }
    }

    // Whether the fetch of that number was sent no longer ago than that.
    fn is_young(&self, age: u64, number: u64) -> bool
        ensures { result ≡ is_young age self.now number }
    {
        match self.times.get(&number) {
            Some(time) => self.clock.saturating_sub(*time) <= age,
            None => false,
        }
    }

    fn is_stale(&self, age: u64, told: &ClientReply) -> bool
        ensures { result ≡ is_stale age self.now told.now }
    {
        match told {
            ClientReply::Hit { number, .. } => !self.is_young(age, *number),
            _ => false,
        }
    }

    // Where there are many more times than keys the oldest goes: what it brought counts as too old.
    fn drop_oldest(&mut self)
        ensures { IsShortened self.old self.new }
    {
        if self.times.len() as u64 <= self.times_max {
            return;
        }
        match self.times.pop_first() {
            Some(_) => {}
            None => {}
        }
    }

    fn keep_time(&mut self, told: &ClientReply)
        ensures { KeepsTime told.now self.old self.new }
    {
        match told {
            ClientReply::Sent { number } => match self.times.insert(*number, self.clock) {
                Ok(_) => self.drop_oldest(),
                Err(_) => {}
            },
            _ => {}
        }
    }

    // A query as a client without a bound is asked.
    fn look_up(&mut self, query: Query) -> ClientReply
        ensures turn { Turns (call.Ask query) self.old result self.new }
        ensures hit { HitIsHeld self.old.client query result }
    {
        self.client.ask(query)
    }

    fn fetch(&mut self, query: Query) -> ClientReply
        ensures fetches { Fetches query self.old result self.new }
        ensures hit { HitIsHeld self.old.client query result }
    {
        let told = self.client.ask(query);
        self.keep_time(&told);
        told
    }

    // What is held of its key goes, and it is fetched anew.
    fn fetch_anew(&mut self, query: Query) -> ClientReply
        ensures fetches { LetsGoThen (key_of query ∷ []) (Fetches query) self.old result self.new }
        ensures missed { IsMiss result }
    {
        let Ok(keys) = key_alone(self.alloc, &query) else {
            return ClientReply::Refused(ClientRefusal::NoMemory);
        };
        match self.let_go(keys.as_slice()) {
            Ok(()) => self.fetch(query),
            Err(refusal) => ClientReply::Refused(refusal),
        }
    }

    fn ask_within(&mut self, age: u64, query: Query) -> ClientReply
        ensures asks { AsksWithin age query self.old result self.new }
        ensures hit { HitIsHeld self.old.client query result }
        ensures young { IsYoungHit age self.old result }
    {
        let Ok(again) = query.copy() else {
            return ClientReply::Refused(ClientRefusal::NoMemory);
        };
        let told = self.look_up(query);
        if self.is_stale(age, &told) {
            return self.fetch_anew(again);
        }
        self.keep_time(&told);
        told
    }

    fn answer(&mut self, query: Query) -> ClientReply
        ensures asks { AsksBound self.old.max_age query self.old result self.new }
        ensures hit { HitIsHeld self.old.client query result }
        ensures young { HitIsYoung self.old result }
    {
        match self.max_age {
            None => self.look_up(query),
            Some(age) => self.ask_within(age, query),
        }
    }

    fn count(&mut self, told: &ClientReply)
        ensures { self.new ≡ counting told.now self.old }
    {
        match told {
            ClientReply::Hit { .. } => self.hits = self.hits.saturating_add(1),
            ClientReply::Sent { .. } => self.misses = self.misses.saturating_add(1),
            _ => {}
        }
    }

    /// A query: a hit with its value, or the number of its fetch. What is held for longer than the
    /// bound goes. A hit and a fetch are counted by what is answered.
    pub fn ask(&mut self, query: Query) -> ClientReply
        ensures asks { AsksGuarded query self.old result self.new }
        ensures hit { HitIsHeld self.old.client query result }
        ensures young { HitIsYoung self.old result }
    {
        let told = self.answer(query);
        self.count(&told);
        told
    }

    /// How many asks were answered from the cache.
    pub fn hits(&self) -> u64
        ensures { result ≡ self.now.counts.hits }
    {
        self.hits
    }

    /// How many asks sent a fetch.
    pub fn misses(&self) -> u64
        ensures { result ≡ self.now.counts.misses }
    {
        self.misses
    }

    /// As `LibraryClient::invalidations`.
    pub fn invalidations(&self) -> u64 {
        self.client.invalidations()
    }

    /// As `LibraryClient::measure`.
    pub fn measure(&self) -> Result<HeldSize, NoMemory> {
        self.client.measure()
    }

    /// As `LibraryClient::poll`.
    pub fn poll(&mut self, number: u64) -> ClientReply
        ensures { Turns (call.Poll number) self.old result self.new }
    {
        self.client.poll(number)
    }

    /// As `LibraryClient::take_out`.
    pub fn take_out(&mut self, most: u64) -> ClientReply
        ensures { Turns (call.TakeOut Main most) self.old result self.new }
    {
        self.client.take_out(most)
    }

    /// As `LibraryClient::end`.
    pub fn end(&mut self)
        ensures { self.new ≡ with_client self.old (ended self.old.client) }
    {
        self.client.end();
    }

    /// As `LibraryClient::feed`.
    pub fn feed(&mut self, bytes: &[u8]) -> Result<(), NoMemory>
        ensures { FeedsTo self.old bytes.now result self.new }
    {
        self.client.feed(bytes)
    }
}
