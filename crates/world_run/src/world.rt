//! The world of a schedule: a server, the links to it, and the clients at their other ends.
ghost use Rattle.std.specs.Prelude.{◌≡◌, ◌+◌, ◌^◌, ◌<◌, ◌≤◌, ℕ, IfOk, [], false, length, true};
ghost use Rattle.script_text.specs.declared.event.Event.TheVariants as event;
ghost use Rattle.script_text.specs.Valid.{IsValid};
ghost use Rattle.serial_model.specs.Steps.{AreValid};
ghost use Rattle.shared_cache.specs.ClientFields.{IsClientMode};
ghost use Rattle.shared_cache.specs.declared.log.Shape.TheVariants.{Pair, Single};
ghost use Rattle.server_links.specs.LinkEvent.{Over};
ghost use Rattle.server_links.specs.LinksState.{AreApart, names};
ghost use Rattle.server_links.specs.Outcome.{Gives};
ghost use Rattle.world_run.specs.Counts.{all_held};
ghost use Rattle.world_run.specs.World.{StepGives, client_does, end_named, flow_at, is_served};
ghost use Rattle.world_run.specs.World.{is_taken, links_step, making, setup_by};
ghost use Rattle.world_run.specs.WorldHistory.{StaysInHistory};
ghost use Rattle.world_run.specs.ClientMoves as client;
ghost use Rattle.world_run.specs.WorldState.{IsOver, client_named, end_of_link, fresh_member};
ghost use Rattle.world_run.specs.WorldState.{member_at, start, start_with};

use super::laws::law_one_history;
use super::link_end::{ClientEnd, link_on};
use super::living::Living;
use super::member::Member;
use super::refusal_numbers::NOT_SERVED;
use command_words::Query;
use resp_value::{NoMemory, Octets, Proto, Words, put_request};
use script_text::{Event, Lines};
use server_book::Limits;
use server_links::{LinkMove, ServerLinks, WorldFault};
use shared_cache::{Caching, ClientMode, ClientState, Shape, Wire};
use std::alloc::Global;
use std::marker::Model;

/// Contracts see the server with its links, and the clients.
#[derive(Drop)]
pub struct World {
    alloc: Global,
    links: ServerLinks,
    members: Vec<Member>,
    /// The clients' ends of their links.
    ends: Vec<ClientEnd>,
    living: Living,
    /// How many entries the log of each client may have.
    log_max: u64,
}

impl Model for World {
    ghost use Rattle.std.specs.Prelude.{◌<◌};
    ghost use Rattle.std.specs.Coded.{codes};
    ghost use Rattle.resp_value.specs.TreeCoding.{tree_code};
    ghost use Rattle.world_run.specs.Members.{world};
    ghost use Rattle.world_run.specs.WorldState.{AreOver, HaveClients, WorldState};

    ghost Value = { WorldState };

    ghost coded = { Prim.hlevel (codes, tree_code) };

    ghost view = { λ w. record {
      links = w.links;
      members = w.members.items;
      ends = w.ends.items;
      log_max = w.log_max;
    } };

    ghost invariant = { λ w. AreOver w.living (world w.log_max w.links w.members.items w.ends.items)
        × HaveClients (world w.log_max w.links w.members.items w.ends.items)
        × (0 < w.log_max) };
}

impl World {
    /// A server with no link, at moment 0.
    pub fn new(alloc: Global, limits: Limits) -> Result<World, NoMemory>
        requires { AreValid limits }
        ensures { IfOk result (λ w. w ≡ start limits) }
    {
        World::with_log_limit(alloc, limits, limits.history_max)
    }

    /// The same, where the log of each client may have this many entries.
    pub fn with_log_limit(alloc: Global, limits: Limits, log_max: u64) -> Result<World, NoMemory>
        requires limits { AreValid limits }
        requires log { 0 < log_max }
        ensures { IfOk result (λ w. w ≡ start_with limits log_max) }
    {
        Ok(World {
            alloc,
            links: ServerLinks::new(alloc, limits)?,
            members: Vec::new(alloc),
            ends: Vec::new(alloc),
            living: Living::new(alloc),
            log_max,
        })
    }

    /// How many entries the history has.
    pub fn entries(&self) -> u64
        ensures { result ≡ length self.now.links.past }
    {
        self.links.entries()
    }

    /// How many queries the clients hold.
    pub fn held(&self) -> Result<u64, NoMemory>
        ensures { IfOk result (λ n. n ≡ all_held self.now) }
    {
        let mut count: u64 = 0;
        for member in self.members.as_slice() {
            count = count.checked_add(member.held()?).ok_or(NoMemory)?;
        }
        Ok(count)
    }

    /// Plays an event, and appends its lines.
    pub fn step(&mut self, event: &Event, lines: &mut Lines) -> Result<(), WorldFault>
        requires { IsValid event.now }
        ensures gives { StepGives self.old event.now lines.old result self.new lines.new }
        ensures history { StaysInHistory self.old event.now lines.old self.new lines.new }
    {
        law_one_history();
        self.dispatch(event, lines)
    }

    fn dispatch(&mut self, event: &Event, lines: &mut Lines) -> Result<(), WorldFault>
        requires { IsValid event.now }
        ensures { StepGives self.old event.now lines.old result self.new lines.new }
    {
        match event {
            Event::Raw(name) => self.raw(name, lines),
            Event::Say(name, words) => self.say(name, words, lines),
            Event::Bytes(name, bytes) => self.bytes(name, bytes.as_slice(), lines),
            Event::Client(name, mode, capacity) => self.client(name, mode, *capacity, lines),
            Event::Out(name, count) => self.out(name, *count, lines),
            Event::Serve(name, count) => self.play(name, LinkMove::Serve(*count), lines),
            Event::Send(name, count) => self.play(name, LinkMove::Send(*count), lines),
            Event::Recv(name, count) => self.recv(name, *count, lines),
            Event::Flow(name) => self.flow(name, lines),
            Event::FlowAll => self.flow_all(lines),
            Event::Cut(name) => self.play(name, LinkMove::Cut, lines),
            Event::Now(moment) => {
                self.links.set_clock(*moment);
                Ok(())
            }
            Event::Tick => self.links.tick(lines),
            Event::Ask(name, query) => self.ask(name, query, lines),
            Event::Do(name, words) => self.send(name, words, lines),
            Event::Poll(name, number) => self.poll(name, *number, lines),
            Event::Show(name) => self.show(name, lines),
        }
    }

    // A look at each client.
    fn client_named(&self, name: &Octets) -> Option<usize>
        ensures { result ≡ client_named name.now self.now.members }
    {
        let name = name.as_slice();
        self.members
            .iter()
            .position(|member| member.name().as_slice() == name)
    }

    // A look at each end.
    fn end_of_link(&self, link: &Octets) -> Option<usize>
        ensures { result ≡ end_of_link link.now self.now.ends }
    {
        let link = link.as_slice();
        self.ends
            .iter()
            .position(|end| end.link().as_slice() == link)
    }

    // A look at each end.
    fn end_named(&self, name: &Octets) -> Option<usize>
        ensures { result ≡ end_named name.now self.now }
    {
        let name = name.as_slice();
        self.ends
            .iter()
            .position(|end| end.is_main() && self.client_name(end) == name)
    }

    // The name of an end's client; there is one.
    fn client_name(&self, end: &ClientEnd) -> &[u8]
        ensures { result.now ≡ (member_at self.now.members end.now.end.client).name }
    {
        match self.members.get(end.end.client) {
            Some(member) => member.name().as_slice(),
            None => &[],
        }
    }

    // One name is one link's or one client's.
    fn is_taken(&self, name: &Octets) -> bool
        ensures { result ≡ is_taken name.now self.now }
    {
        self.links.place_of(name).is_some() || self.client_named(name).is_some()
    }

    /// Something moves over a link.
    fn play(
        &mut self,
        name: &Octets,
        movement: LinkMove,
        lines: &mut Lines,
    ) -> Result<(), WorldFault>
        ensures { Gives (links_step (Over name.now movement) self.old) lines.old result self.new
            lines.new }
    {
        self.links.play(name, movement, lines)
    }

    /// Makes a link, which the server admits.
    fn raw(&mut self, name: &Octets, lines: &mut Lines) -> Result<(), WorldFault>
        ensures { StepGives self.old (event.Raw name.now) lines.old result self.new lines.new }
    {
        if self.is_taken(name) {
            return Err(WorldFault::NameTaken);
        }
        self.links.raw(name, lines)
    }

    /// The bytes of a request are put onto the way up of a raw link.
    fn say(&mut self, name: &Octets, words: &Words, lines: &mut Lines) -> Result<(), WorldFault>
        ensures { StepGives self.old (event.Say name.now words.now) lines.old result self.new
            lines.new }
    {
        if self.end_of_link(name).is_some() {
            return Err(WorldFault::NoName);
        }
        if self.links.place_of(name).is_none() {
            return Err(WorldFault::NoName);
        }
        let mut request = Vec::new(self.alloc);
        put_request(words, &mut request)?;
        self.links.put(name, request.as_slice(), lines)
    }

    /// Bytes are put onto the way up of a raw link.
    fn bytes(&mut self, name: &Octets, bytes: &[u8], lines: &mut Lines) -> Result<(), WorldFault>
        ensures { StepGives self.old (event.Bytes name.now bytes.now) lines.old result self.new
            lines.new }
    {
        if self.end_of_link(name).is_some() {
            return Err(WorldFault::NoName);
        }
        self.links.put(name, bytes, lines)
    }

    /// Makes a client and its links, which the server admits.
    fn client(
        &mut self,
        name: &Octets,
        mode: &ClientMode,
        capacity: u64,
        lines: &mut Lines,
    ) -> Result<(), WorldFault>
        requires { (0 < capacity) × (capacity ≤ 1000000) }
        ensures { StepGives self.old (event.Client name.now mode.now capacity) lines.old result
            self.new lines.new }
    {
        if !is_served(mode) {
            return Err(WorldFault::Refused { number: NOT_SERVED });
        }
        if self.is_taken(name) {
            return Err(WorldFault::NameTaken);
        }
        match mode.shape {
            Shape::Single => self.connect_one(name, mode, capacity, lines),
            Shape::Pair => self.connect_two(name, mode, capacity, lines),
        }
    }

    // Its one link is made, once there is room for the client.
    fn connect_one(
        &mut self,
        name: &Octets,
        mode: &ClientMode,
        capacity: u64,
        lines: &mut Lines,
    ) -> Result<(), WorldFault>
        requires mode { IsClientMode mode.now }
        requires shape { mode.now.shape ≡ Single }
        requires capacity { (0 < capacity) × (capacity ≤ 1000000) }
        ensures { Gives (making Single name.now (setup_by self.old mode.now capacity) self.old)
            lines.old result self.new lines.new }
    {
        self.members.reserve(1)?;
        self.ends.reserve(1)?;
        let place = self.links.count();
        let main = ClientEnd::new(self.alloc, self.members.len(), Wire::Main, name, place)?;
        let member = fresh_member(self.alloc, name, mode, capacity, self.log_max, place, place)?;
        let made = self.links.raw(main.link(), lines);
        if made.is_err() {
            drop(member);
            drop(main);
            return made;
        }
        self.links.keep_words(place);
        self.members.push_reserved(member);
        self.ends.push_reserved(main);
        Ok(())
    }

    // Its two links are made, the one for invalidations first.
    fn connect_two(
        &mut self,
        name: &Octets,
        mode: &ClientMode,
        capacity: u64,
        lines: &mut Lines,
    ) -> Result<(), WorldFault>
        requires mode { IsClientMode mode.now }
        requires shape { mode.now.shape ≡ Pair }
        requires capacity { (0 < capacity) × (capacity ≤ 1000000) }
        ensures { Gives (making Pair name.now (setup_by self.old mode.now capacity) self.old)
            lines.old result self.new lines.new }
    {
        self.members.reserve(1)?;
        self.ends.reserve(2)?;
        let first = self.links.count();
        // there are never so many
        let Some(second) = first.checked_add(1) else {
            return Err(WorldFault::NoMemory);
        };
        let client = self.members.len();
        let side = ClientEnd::new(self.alloc, client, Wire::Side, name, first)?;
        let main = ClientEnd::new(self.alloc, client, Wire::Main, name, second)?;
        let member = fresh_member(
            self.alloc,
            name,
            mode,
            capacity,
            self.log_max,
            second,
            first,
        )?;
        if self.links.place_of(main.link()).is_some() {
            drop(member);
            drop(side);
            drop(main);
            return Err(WorldFault::NameTaken);
        }
        let made = self.links.raw(side.link(), lines);
        if made.is_err() {
            drop(member);
            drop(side);
            drop(main);
            return made;
        }
        let other = self.links.raw(main.link(), lines);
        if other.is_err() {
            drop(member);
            drop(side);
            drop(main);
            return other;
        }
        self.links.keep_words(second);
        self.members.push_reserved(member);
        self.ends.push_reserved(side);
        self.ends.push_reserved(main);
        Ok(())
    }

    /// The client's end of a link puts what it has to send onto the way up.
    fn out(
        &mut self,
        name: &Octets,
        count: Option<u64>,
        lines: &mut Lines,
    ) -> Result<(), WorldFault>
        ensures { StepGives self.old (event.Out name.now count) lines.old result self.new
            lines.new }
    {
        match self.end_of_link(name) {
            Some(at) => {
                let ClientEnd { end, .. } = &self.ends[at];
                let member = &mut self.members[end.client];
                end.out(count, &mut self.links, member, lines)
            }
            None if self.links.place_of(name).is_none() => Err(WorldFault::NoName),
            None => match count {
                None => Ok(()),
                Some(_) => Err(WorldFault::NothingThere),
            },
        }
    }

    /// The client's end of a link reads.
    fn recv(
        &mut self,
        name: &Octets,
        count: Option<u64>,
        lines: &mut Lines,
    ) -> Result<(), WorldFault>
        ensures { StepGives self.old (event.Recv name.now count) lines.old result self.new
            lines.new }
    {
        match self.end_of_link(name) {
            Some(at) => {
                let ClientEnd { end, reader } = &mut self.ends[at];
                let member = &mut self.members[end.client];
                end.receive(count, &mut self.links, member, reader, lines)
            }
            None => self.links.play(name, LinkMove::Recv(count), lines),
        }
    }

    /// All that is there moves over a link.
    fn flow(&mut self, name: &Octets, lines: &mut Lines) -> Result<(), WorldFault>
        ensures { StepGives self.old (event.Flow name.now) lines.old result self.new lines.new }
    {
        match self.end_of_link(name) {
            Some(at) => self.flow_end(at, lines),
            None => self.links.play(name, LinkMove::Flow, lines),
        }
    }

    /// Each link flows, in order of making.
    fn flow_all(&mut self, lines: &mut Lines) -> Result<(), WorldFault>
        ensures { StepGives self.old event.FlowAll lines.old result self.new lines.new }
    {
        let mut over = 0;
        let mut at = self.next_after(over, 0);
        'links: while at < self.count() {
            self.flow_at(at, lines)?;
            over = self.over_from(over, at);
            at = self.next_after(over, at + 1);
        }
        Ok(())
    }

    fn count(&self) -> usize
        ensures count { result ≡ length self.now.links.links }
        ensures apart { AreApart (names self.now.links.links) }
    {
        self.links.count()
    }

    // The first link from a place on that may still move something, where those before it from
    // another place on are over; this is kept for the next time.
    fn next_after(&mut self, over: usize, at: usize) -> usize
        requires order { over ≤ at }
        requires below { at ≤ length self.old.links.links }
        requires over { (k : ℕ) → over ≤ k → k < at → IsOver self.old k }
        ensures same { self.new ≡ self.old }
        ensures order { (at ≤ result) × (result ≤ length self.old.links.links) }
        ensures over { (k : ℕ) → over ≤ k → k < result → IsOver self.old k }
        ensures apart { AreApart (names self.old.links.links) }
    {
        let next = self.living.next(at).min(self.count());
        // what want of memory loses here is found again
        let _ = self.living.note(over, next);
        next
    }

    // From where on the links up to this place are over, where those between are.
    fn over_from(&self, from: usize, at: usize) -> usize
        requires below { at < length self.now.links.links }
        requires small { at + 1 < 2 ^ 64 }
        requires order { from ≤ at }
        requires over { (k : ℕ) → from ≤ k → k < at → IsOver self.now k }
        ensures order { result ≤ at + 1 }
        ensures over { (k : ℕ) → result ≤ k → k < at + 1 → IsOver self.now k }
    {
        if self.is_over(at) {
            return from;
        }
        at + 1
    }

    // Nothing moves any more over the link at this place, and no client is at its end.
    fn is_over(&self, at: usize) -> bool
        requires { at < length self.now.links.links }
        ensures over { result ≡ true → IsOver self.now at }
        ensures goes_on { result ≡ false → IsOver self.now at → ⊥ }
    {
        if !self.links.is_over(at) {
            return false;
        }
        self.end_of_link(self.links.name_at(at)).is_none()
    }

    /// All that is there moves over the link at this place.
    fn flow_at(&mut self, at: usize, lines: &mut Lines) -> Result<(), WorldFault>
        requires { at < length self.old.links.links }
        ensures gives { Gives (flow_at at self.old) lines.old result self.new lines.new }
        ensures count { length self.new.links.links ≡ length self.old.links.links }
    {
        match self.end_of_link(self.links.name_at(at)) {
            Some(end) => self.flow_end(end, lines),
            None => self.links.play_at(at, LinkMove::Flow, lines),
        }
    }

    // All that is there moves over the link of the client's end at this place.
    fn flow_end(&mut self, at: usize, lines: &mut Lines) -> Result<(), WorldFault>
        requires { at < length self.old.ends }
        ensures gives { Gives (client_does at client.flow self.old) lines.old result self.new
            lines.new }
        ensures count { length self.new.links.links ≡ length self.old.links.links }
    {
        let ClientEnd { end, reader } = &mut self.ends[at];
        let member = &mut self.members[end.client];
        end.flow(&mut self.links, member, reader, lines)
    }

    fn ask(&mut self, name: &Octets, query: &Query, lines: &mut Lines) -> Result<(), WorldFault>
        ensures { StepGives self.old (event.Ask name.now query.now) lines.old result self.new
            lines.new }
    {
        let Some(at) = self.end_named(name) else {
            return Err(WorldFault::NoName);
        };
        let client = self.ends[at].client();
        self.members[client].ask(&self.links, query, lines)
    }

    fn send(&mut self, name: &Octets, words: &Words, lines: &mut Lines) -> Result<(), WorldFault>
        requires { 0 < length words.now }
        ensures { StepGives self.old (event.Do name.now words.now) lines.old result self.new
            lines.new }
    {
        let Some(at) = self.end_named(name) else {
            return Err(WorldFault::NoName);
        };
        let client = self.ends[at].client();
        self.members[client].send(&self.links, words, lines)
    }

    fn poll(&mut self, name: &Octets, number: u64, lines: &mut Lines) -> Result<(), WorldFault>
        ensures { StepGives self.old (event.Poll name.now number) lines.old result self.new
            lines.new }
    {
        let Some(at) = self.end_named(name) else {
            return Err(WorldFault::NoName);
        };
        let client = self.ends[at].client();
        self.members[client].poll(&self.links, number, lines)
    }

    fn show(&mut self, name: &Octets, lines: &mut Lines) -> Result<(), WorldFault>
        ensures { StepGives self.old (event.Show name.now) lines.old result self.new lines.new }
    {
        let Some(at) = self.end_named(name) else {
            return Err(WorldFault::NoName);
        };
        let client = self.ends[at].client();
        self.members[client].show(&self.links, lines)
    }
}

/// The modes that are served: one link is of the third protocol.
fn is_served(mode: &ClientMode) -> bool
    ensures { result ≡ is_served mode.now }
{
    !matches!((mode.shape, mode.proto), (Shape::Single, Proto::Two))
}

// A client whose log is empty, at the links of these places.
fn fresh_member(
    alloc: Global,
    name: &Octets,
    mode: &ClientMode,
    capacity: u64,
    log_max: u64,
    main: usize,
    side: usize,
) -> Result<Member, NoMemory>
    requires mode { IsClientMode mode.now }
    requires capacity { (0 < capacity) × (capacity ≤ 1000000) }
    requires log_max { 0 < log_max }
    ensures { IfOk result (λ m. m ≡ fresh_member name.now main side (record {
      mode = mode.now;
      capacity = capacity;
      log_max = log_max;
    })) }
{
    let link = link_on(alloc, Wire::Main, name)?;
    let called = name.copy()?;
    let shape = mode.shape;
    let state = ClientState::new(alloc, copy_mode(mode)?, capacity, log_max)?;
    Ok(Member::new(alloc, called, link, main, side, shape, state))
}

fn copy_mode(mode: &ClientMode) -> Result<ClientMode, NoMemory>
    ensures { IfOk result (λ m. m ≡ mode.now) }
{
    Ok(ClientMode {
        shape: mode.shape,
        proto: mode.proto,
        caching: copy_caching(&mode.caching)?,
        noloop: mode.noloop,
    })
}

fn copy_caching(caching: &Caching) -> Result<Caching, NoMemory>
    ensures { IfOk result (λ c. c ≡ caching.now) }
{
    match caching {
        Caching::Default => Ok(Caching::Default),
        Caching::OptIn => Ok(Caching::OptIn),
        Caching::OptOut => Ok(Caching::OptOut),
        Caching::Bcast(prefixes) => Ok(Caching::Bcast(prefixes.copy()?)),
    }
}
