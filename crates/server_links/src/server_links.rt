//! A server and the links to it.
ghost use Rattle.std.specs.Prelude.{◌≡◌, ◌+◌, ◌<◌, ◌++◌, ◌∷◌, [], IfOk, OnOk, OnErr, false, length};
ghost use Rattle.std.specs.Prelude.{option_map, position, slice_get, true};
ghost use Rattle.std.specs.declared.option.Option.TheVariants.{None};
ghost use Rattle.std.specs.Str.{bytes_eq};
ghost use Rattle.serial_model.specs.declared.history.BookCall.TheVariants as call;
ghost use Rattle.serial_model.specs.History.{run_entries, runs_of};
ghost use Rattle.serial_model.specs.Steps.{AreValid};
ghost use Rattle.server_links.specs.Directions.{is_queued};
ghost use Rattle.server_links.specs.LinkEvent.{Over, Put, Raw, Tick};
ghost use Rattle.server_links.specs.LinkSteps.{StepGives, place_of};
ghost use Rattle.server_links.specs.LinksState.{AreApart, IsOver, at_place, names, start};
ghost use Rattle.server_links.specs.Notes.{sent_entries};
ghost use Rattle.server_links.specs.Turns.{TurnGives};

use super::fault::{STOPPED, WorldFault};
use super::link::{Link, LinkMove};
use super::server::Server;
use resp_value::{NoMemory, Octets, Words};
use script_text::{Line, Lines};
use server_book::Limits;
use std::alloc::Global;
use std::marker::Model;

/// A server and its links. Contracts see the limits, the clock, the history and the links.
#[derive(Drop)]
pub struct ServerLinks {
    alloc: Global,
    server: Server,
    links: Vec<Link>,
}

impl Model for ServerLinks {
    ghost use Rattle.server_links.specs.LinksState.{AreNames, Fits, LinksState};

    ghost Value = { LinksState };

    ghost view = { λ w. record {
      limits = w.server.book.limits;
      now = w.server.clock;
      past = w.server.book.past;
      links = w.links.items;
    } };

    ghost invariant = { λ w. Fits w.server.book.past w.links.items
        × AreNames w.server.names w.links.items };
}

impl ServerLinks {
    /// A server with no link, at moment 0.
    pub fn new(alloc: Global, limits: Limits) -> Result<ServerLinks, NoMemory>
        requires { AreValid limits }
        ensures { IfOk result (λ w. w ≡ start limits) }
    {
        Ok(ServerLinks {
            alloc,
            server: Server::new(alloc, limits)?,
            links: Vec::new(alloc),
        })
    }

    /// Makes a link, which the server admits, unless a SHUTDOWN stopped it.
    pub fn raw(&mut self, name: &Octets, lines: &mut Lines) -> Result<(), WorldFault>
        ensures { StepGives self.old (Raw name.now) lines.old result self.new lines.new }
    {
        if self.place_of(name).is_some() {
            return Err(WorldFault::NameTaken);
        }
        if self.server.is_stopped() {
            return Err(WorldFault::Refused { number: STOPPED });
        }
        let id = self.links.len() as u64 + 1;
        let line = Line::Admit(self.server.next_entry()?, name.copy()?, id);
        let link = Link::new(self.alloc, id, name.copy()?);
        self.links.reserve(1)?;
        self.server.admit(name, line, lines)?;
        self.links.push_reserved(link);
        Ok(())
    }

    /// The client's end of a link puts bytes on the way up.
    pub fn put(&mut self, name: &Octets, bytes: &[u8], lines: &mut Lines) -> Result<(), WorldFault>
        ensures { StepGives self.old (Put name.now bytes.now) lines.old result self.new lines.new }
    {
        let Some(at) = self.place_of(name) else {
            return Err(WorldFault::NoName);
        };
        self.links[at].put(bytes)
    }

    /// Plays a move over a link.
    pub fn play(
        &mut self,
        name: &Octets,
        movement: LinkMove,
        lines: &mut Lines,
    ) -> Result<(), WorldFault>
        ensures { StepGives self.old (Over name.now movement) lines.old result self.new lines.new }
    {
        let Some(at) = self.place_of(name) else {
            return Err(WorldFault::NoName);
        };
        self.play_at(at, movement, lines)
    }

    /// Plays a move over the link at this place.
    pub fn play_at(
        &mut self,
        at: usize,
        movement: LinkMove,
        lines: &mut Lines,
    ) -> Result<(), WorldFault>
        requires { at < length self.old.links }
        ensures { StepGives self.old (Over (at_place self.old.links at).name movement) lines.old
            result self.new lines.new }
    {
        self.links[at].play(self.alloc, &mut self.server, movement, lines)
    }

    /// The clock's value, in milliseconds.
    pub fn set_clock(&mut self, now: u64)
        ensures { self.new ≡ record self.old { now = now } }
    {
        self.server.set_clock(now);
    }

    /// The keys that are due by the clock leave.
    pub fn tick(&mut self, lines: &mut Lines) -> Result<(), WorldFault>
        ensures { StepGives self.old Tick lines.old result self.new lines.new }
    {
        self.server.tick(lines)
    }

    pub fn limits(&self) -> Limits
        ensures same { result ≡ self.now.limits }
        ensures valid { AreValid result }
    {
        self.server.limits()
    }

    /// How many entries the history has.
    pub fn entries(&self) -> u64
        ensures { result ≡ length self.now.past }
    {
        self.server.entries()
    }

    /// How many links there are; no two have one name.
    pub fn count(&self) -> usize
        ensures count { result ≡ length self.now.links }
        ensures apart { AreApart (names self.now.links) }
    {
        self.links.len()
    }

    /// The place of the link of this name.
    pub fn place_of(&self, name: &Octets) -> Option<usize>
        ensures { result ≡ place_of name.now self.now }
    {
        self.server.place_of(name.as_slice())
    }

    /// The name of the link at this place.
    pub fn name_at(&self, at: usize) -> &Octets
        requires { at < length self.now.links }
        ensures { result.now ≡ (at_place self.now.links at).name }
    {
        &self.links[at].name
    }

    /// The bytes in flight to the client's end of the link at this place.
    pub fn in_flight(&self, at: usize) -> &[u8]
        ensures { result.now ≡ (at_place self.now.links at).down.bytes }
    {
        match self.links.get(at) {
            Some(link) => link.down.bytes.as_slice(),
            None => &[],
        }
    }

    /// Whether an EOF follows them.
    pub fn ends_there(&self, at: usize) -> bool
        ensures { result ≡ is_queued (at_place self.now.links at).down.eof }
    {
        match self.links.get(at) {
            Some(link) => link.down.is_queued(),
            None => false,
        }
    }

    /// Whether the link at this place is over: its connection has ended, and the EOF on the way
    /// down was read. It stays so, and nothing moves down any more.
    pub fn is_over(&self, at: usize) -> bool
        requires { at < length self.now.links }
        ensures over { result ≡ true → IsOver self.now at }
        ensures goes_on { result ≡ false → IsOver self.now at → ⊥ }
    {
        let link = &self.links[at];
        if self.server.reads_on(link.id) {
            return false;
        }
        link.down.is_spent()
    }

    /// At which entry the command of this number, counted from 0, of the link at this place ran.
    /// Want of memory may have lost it.
    pub fn run_entry(&self, at: usize, number: usize) -> Result<Option<u64>, NoMemory>
        ensures { IfOk result (λ e. e ≡ slice_get (run_entries (at + 1) self.now.past) number) }
    {
        self.server.run_entry(at, number)
    }

    /// Which entry sent what was sent on it under this number, counted from 0. Want of memory may
    /// have lost it.
    pub fn sent_entry(&self, at: usize, number: usize) -> Result<Option<u64>, NoMemory>
        ensures { IfOk result (λ e. e ≡ slice_get
            (sent_entries self.now.limits (at + 1) self.now.past) number) }
    {
        self.server.sent_entry(at, number)
    }

    /// From now on the words of the commands of the link at this place are kept, which has run none
    /// so far.
    pub fn keep_words(&mut self, at: usize)
        ensures { self.new ≡ self.old }
    {
        self.server.keep_words(at);
    }

    /// The words of the command of this number, counted from 0, of the link at this place, where
    /// they are kept. Want of memory may have lost it.
    pub fn run_words(&self, at: usize, number: usize) -> Result<Option<&Words>, NoMemory>
        ensures { IfOk result (λ w. option_map (λ x. x.now) w
            ≡ slice_get (runs_of (at + 1) self.now.past) number) }
    {
        self.server.run_words(at, number)
    }
}
