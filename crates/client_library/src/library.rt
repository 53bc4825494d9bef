//! The client as its program holds it.
ghost use Rattle.std.specs.Prelude.{◌≡◌, ◌<◌, ◌≤◌, IfOk, length};
ghost use Rattle.resp_stream.specs.Parse.{parse_values};
ghost use Rattle.shared_cache.specs.declared.log.ClientCall.TheVariants as call;
ghost use Rattle.shared_cache.specs.declared.log.Wire.TheVariants.{Main};
ghost use Rattle.shared_cache.specs.ClientFields.{IsOneLink};
ghost use Rattle.shared_cache.specs.Laws.{IsCall, LegalLog};
ghost use Rattle.shared_cache.specs.Out.{untaken};
ghost use Rattle.client_library.specs.Library.{FeedGives, HitIsHeld, IsToldBy, Plays, ReadGives};
ghost use Rattle.client_library.specs.Library.{ended, fresh, has_ended};

use super::measure::{HeldSize, measure};
use super::turns::{close, get};
use command_words::Query;
use past_entries::Past;
use resp_stream::{StreamFault, ValueReader};
use resp_value::{NoMemory, Value, Words};
use shared_cache::{ClientCall, ClientMode, ClientReply, ClientState, LogEntry, Wire};
use std::alloc::Global;
use std::marker::Model;

/// Want of memory is an error; a fault of the bytes is the end of the link and no more.
fn told_by(fault: StreamFault) -> Result<(), NoMemory>
    ensures { IsToldBy fault result }
{
    match fault {
        StreamFault::NoMemory => Err(NoMemory),
        _ => Ok(()),
    }
}

fn is_invalidation(value: &Value) -> bool {
    match value {
        Value::Push(values) => match values.as_slice() {
            [Value::Blob(name), ..] => name.as_slice() == b"invalidate".as_slice(),
            _ => false,
        },
        _ => false,
    }
}

/// A cached client over one link that its program carries: the client's state, and the reader of
/// what came over the link.
#[derive(Drop)]
pub struct LibraryClient {
    alloc: Global,
    state: ClientState,
    reader: ValueReader,
    // how many invalidations the server sent
    invalidations: u64,
}

impl Model for LibraryClient {
    ghost use Rattle.std.specs.Coded.{codes};
    ghost use Rattle.resp_value.specs.TreeCoding.{tree_code};
    ghost use Rattle.shared_cache.specs.Laws.{LegalLog};
    ghost use Rattle.client_library.specs.Library.{Library};

    ghost Value = { Library };

    ghost coded = { Prim.hlevel (codes, tree_code) };

    ghost view = { λ c. record {
      setup = c.state.setup;
      past = c.state.past;
      reader = c.reader;
    } };

    ghost invariant = { λ c. LegalLog c.state.setup c.state.past };
}

impl LibraryClient {
    /// A client of that mode, which holds at most so many keys. Its log may have as many entries as
    /// a number counts. Its set-up is the first that comes out for the server.
    pub fn new(alloc: Global, mode: ClientMode, capacity: u64) -> Result<LibraryClient, NoMemory>
        requires mode { IsOneLink mode }
        requires capacity { (0 < capacity) × (capacity ≤ 1000000) }
        ensures { IfOk result (λ c. c ≡ fresh mode capacity) }
    {
        Ok(LibraryClient {
            alloc,
            state: ClientState::new(alloc, mode, capacity, u64::MAX)?,
            reader: ValueReader::new(alloc),
            invalidations: 0,
        })
    }

    /// The entries so far, which are in no memory: those of a legal log.
    pub fn log(&self) -> &Past<LogEntry>
        ensures entries { result.now ≡ self.now.past }
        ensures legal { LegalLog self.now.setup self.now.past }
    {
        self.state.log()
    }

    /// How many entries the log has.
    pub fn entries(&self) -> u64
        ensures { result ≡ length self.now.past }
    {
        self.state.entries()
    }

    /// Whether the link has ended. It does where its program says so, by a fault of the bytes, by
    /// a value that a client has to refuse, and by a value that found no room.
    pub fn has_ended(&self) -> bool
        ensures { result ≡ has_ended self.now }
    {
        self.state.has_ended()
    }

    /// How many invalidations the server sent: messages, each of a key or of several, or of all.
    pub fn invalidations(&self) -> u64 {
        self.invalidations
    }

    /// How much is held. It goes over all of that.
    pub fn measure(&self) -> Result<HeldSize, NoMemory> {
        measure(self.alloc, self.state.held_in_order()?.as_slice())
    }

    /// How many bytes are to be sent to the server.
    pub fn waiting(&self) -> usize
        ensures { result ≡ length (untaken self.now.setup Main self.now.past) }
    {
        self.state.waiting()
    }

    fn play(&mut self, call: ClientCall) -> ClientReply
        requires { IsCall self.old.setup.mode call }
        ensures { Plays call self.old result self.new }
    {
        self.state.turn(call)
    }

    /// A query: a hit with its value, or the number of its fetch.
    pub fn ask(&mut self, query: Query) -> ClientReply
        ensures plays { Plays (call.Ask query) self.old result self.new }
        ensures hit { HitIsHeld self.old query result }
    {
        self.play(ClientCall::Ask(query))
    }

    /// Any other command: its number.
    pub fn send(&mut self, words: Words) -> ClientReply
        requires { 0 < length words }
        ensures { Plays (call.Send words) self.old result self.new }
    {
        self.play(ClientCall::Send(words))
    }

    /// The reply to the command of that number, which is handed out once, or that it is not yet
    /// there.
    pub fn poll(&mut self, number: u64) -> ClientReply
        ensures { Plays (call.Poll number) self.old result self.new }
    {
        self.play(ClientCall::Poll(number))
    }

    /// The next bytes for the server, at most so many.
    pub fn take_out(&mut self, most: u64) -> ClientReply
        ensures { Plays (call.TakeOut Main most) self.old result self.new }
    {
        self.play(ClientCall::TakeOut(Wire::Main, most))
    }

    /// A value is got as if the server had sent it.
    pub fn get(&mut self, value: Value) -> ClientReply
        ensures { Plays (call.Got Main value) self.old result self.new }
    {
        self.play(ClientCall::Got(Wire::Main, value))
    }

    /// The connection is lost: what was held is let go.
    pub fn end(&mut self)
        ensures { self.new ≡ ended self.old }
    {
        close(&mut self.state);
    }

    /// What the server sent next, cut anywhere: each whole value is got in turn. Where memory runs
    /// out the link has ended, since a value would be lost.
    pub fn feed(&mut self, bytes: &[u8]) -> Result<(), NoMemory>
        ensures { FeedGives self.old bytes.now result self.new }
    {
        if self.has_ended() {
            return Ok(());
        }
        match self.reader.feed(bytes) {
            Ok(()) => self.read_values(),
            Err(_) => {
                close(&mut self.state);
                Err(NoMemory)
            }
        }
    }

    /// Each whole value that was fed is got in turn; a fault of the bytes ends the link.
    fn read_values(&mut self) -> Result<(), NoMemory>
        ensures { ReadGives self.old (parse_values self.old.reader) result self.new }
    {
        'values: loop {
            match self.reader.next_value() {
                Ok(Some(value)) => {
                    let more = if is_invalidation(&value) { 1 } else { 0 };
                    self.invalidations = self.invalidations.saturating_add(more);
                    match get(&mut self.state, value) {
                        Ok(()) => {}
                        Err(_) => return Err(NoMemory),
                    }
                }
                Ok(None) => return Ok(()),
                Err(fault) => {
                    close(&mut self.state);
                    return told_by(fault);
                }
            }
        }
    }
}
