//! The client as a program of another language holds it: each call tells a status, and what it
//! tells beside stands in the handle until the next call.
ghost use Rattle.std.specs.Prelude.{◌≡◌, ◌++◌, ◌<◌, ◌≤◌, [], IfOk, OnErr, OnOk, length};
ghost use Rattle.command_words.specs.Queries.{query_of};
ghost use Rattle.client_library.specs.Guarded.{begun_with};
ghost use Rattle.client_library.specs.Handles.{Asks, AsksQuery, AsksWords, Ends, Feeds, IsCount};
ghost use Rattle.client_library.specs.Handles.{Polls};
ghost use Rattle.client_library.specs.Handles.{Sends, SendsWords, TakesOut, Tells, TellsTime};
ghost use Rattle.client_library.specs.Handles.{answer_of, copied, number_of, refusal_status};
ghost use Rattle.client_library.specs.Handles.{silent, status_of};
ghost use Rattle.client_library.specs.Library.{has_ended};
ghost use Rattle.client_library.specs.Requests.{first_request};
ghost use Rattle.shared_cache.specs.ClientFields.{IsOneLink};

use super::guarded::GuardedClient;
use super::measure::HeldSize;
use super::request::read_words;
use command_words::Query;
use resp_value::{NoMemory, Proto, Words, put_value};
use shared_cache::{ClientMode, ClientRefusal, ClientReply};
use std::alloc::Global;
use std::marker::Model;

/// What a call told, as a number.
pub mod status {
    /// Done, and there is nothing more to tell.
    pub const DONE: u64 = 0;
    /// The value is held: it is the answer, and the number is that of the fetch that filled it.
    pub const HIT: u64 = 1;
    /// The command goes to the server: the number is its own.
    pub const SENT: u64 = 2;
    /// The reply is not there yet.
    pub const NOT_YET: u64 = 3;
    /// The reply is the answer.
    pub const REPLY: u64 = 4;
    /// The answer is bytes for the server.
    pub const BYTES: u64 = 5;
    /// No bytes are to be sent.
    pub const QUIET: u64 = 6;
    /// The link has ended.
    pub const ENDED: u64 = 7;
    /// The set-up is not answered yet.
    pub const NOT_READY: u64 = 8;
    /// The command would change how the server serves this client.
    pub const CONTROL: u64 = 9;
    /// No such number is waiting for its caller.
    pub const NO_NUMBER: u64 = 10;
    /// The log has as many entries as it may have.
    pub const LOG_FULL: u64 = 11;
    /// Memory ran out.
    pub const NO_MEMORY: u64 = 12;
    /// The bytes begin with no whole command.
    pub const NO_REQUEST: u64 = 13;
    /// The command is no query that can be held.
    pub const NO_QUERY: u64 = 14;
    /// A limit is none that is served.
    pub const BAD_LIMIT: u64 = 15;
    /// There is no tracking of that number.
    pub const BAD_TRACKING: u64 = 16;
    /// NOLOOP is neither 0 nor 1.
    pub const BAD_NOLOOP: u64 = 17;
    /// There are prefixes without BCAST, or they are no words.
    pub const BAD_PREFIXES: u64 = 18;
    /// What is for options to come is not 0.
    pub const BAD_RESERVED: u64 = 19;
}

/// What `Handle::count` counts.
pub mod count {
    /// Asks that were answered from the cache.
    pub const HITS: u64 = 0;
    /// Asks that sent a fetch.
    pub const MISSES: u64 = 1;
    /// Invalidations that the server sent.
    pub const INVALIDATIONS: u64 = 2;
    /// Keys that are held. To count those takes memory, and time by what is held.
    pub const KEYS: u64 = 3;
    /// Bytes of queries and values that are held, counted likewise.
    pub const BYTES: u64 = 4;
}

/// A client, and the bytes and the number that its last call told.
#[derive(Drop)]
pub struct Handle {
    alloc: Global,
    client: GuardedClient,
    answer: Vec<u8>,
    number: u64,
}

impl Model for Handle {
    ghost use Rattle.std.specs.Coded.{codes};
    ghost use Rattle.resp_value.specs.TreeCoding.{tree_code};
    ghost use Rattle.client_library.specs.Handles as handles;

    ghost Value = { handles.Handle };

    ghost coded = { Prim.hlevel (codes, tree_code) };

    ghost view = { λ h. record {
      client = h.client;
      answer = h.answer.items;
      number = h.number;
    } };
}

fn refusal_status(refusal: ClientRefusal) -> u64
    ensures { result ≡ refusal_status refusal }
{
    match refusal {
        ClientRefusal::NoMemory => status::NO_MEMORY,
        ClientRefusal::LogFull { .. } => status::LOG_FULL,
        ClientRefusal::NotReady => status::NOT_READY,
        ClientRefusal::Control => status::CONTROL,
        ClientRefusal::NoNumber { .. } => status::NO_NUMBER,
        _ => status::ENDED,
    }
}

fn status_of(reply: &ClientReply) -> u64
    ensures { result ≡ status_of reply.now }
{
    match reply {
        ClientReply::Noted => status::DONE,
        ClientReply::Hit { .. } => status::HIT,
        ClientReply::Sent { .. } => status::SENT,
        ClientReply::NotYet => status::NOT_YET,
        ClientReply::Answer { .. } => status::REPLY,
        ClientReply::Bytes(_) => status::BYTES,
        ClientReply::Quiet => status::QUIET,
        ClientReply::Refused(refusal) => refusal_status(*refusal),
    }
}

fn held_count(name: u64, size: HeldSize) -> u64 {
    if name == count::KEYS {
        return size.keys;
    }
    if name == count::BYTES {
        return size.bytes;
    }
    0
}

fn number_of(reply: &ClientReply) -> u64
    ensures { result ≡ number_of reply.now }
{
    match reply {
        ClientReply::Hit { number, .. } => *number,
        ClientReply::Sent { number } => *number,
        _ => 0,
    }
}

/// Appends what a reply tells as bytes: a value by its spelling in the third protocol.
fn put_answer(reply: &ClientReply, out: &mut Vec<u8>) -> Result<(), NoMemory>
    ensures ok { OnOk result (out.new.items ≡ out.old.items ++ answer_of reply.now) }
    ensures err { OnErr result (out.new.items ≡ out.old.items) }
{
    match reply {
        ClientReply::Hit { value, .. } => put_value(Proto::Three, value, out),
        ClientReply::Answer { value } => put_value(Proto::Three, value, out),
        ClientReply::Bytes(bytes) => {
            out.extend_from_slice(bytes.as_slice())?;
            Ok(())
        }
        _ => Ok(()),
    }
}

impl Handle {
    /// As `GuardedClient::new`.
    pub fn new(
        alloc: Global,
        mode: ClientMode,
        capacity: u64,
        max_age: Option<u64>,
    ) -> Result<Handle, NoMemory>
        requires mode { IsOneLink mode }
        requires capacity { (0 < capacity) × (capacity ≤ 1000000) }
        ensures { IfOk result (λ h. h ≡ silent (begun_with mode capacity max_age)) }
    {
        Ok(Handle {
            alloc,
            client: GuardedClient::new(alloc, mode, capacity, max_age)?,
            answer: Vec::new(alloc),
            number: 0,
        })
    }

    /// The bytes of the last answer.
    pub fn answer(&self) -> &[u8]
        ensures { result.now ≡ self.now.answer }
    {
        self.answer.as_slice()
    }

    /// The number that the last call told.
    pub fn number(&self) -> u64
        ensures { result ≡ self.now.number }
    {
        self.number
    }

    /// Whether the link has ended.
    pub fn has_ended(&self) -> bool
        ensures { result ≡ has_ended self.now.client.client }
    {
        self.client.has_ended()
    }

    /// The size of the last answer. It is copied where there is room for it, and else nothing is.
    pub fn copy_answer(&self, out: &mut [u8]) -> u64
        ensures size { result ≡ length self.now.answer }
        ensures copied { out.new ≡ copied self.now.answer out.old }
    {
        let size = self.answer.len();
        if size <= out.len() {
            out[..size].copy_from_slice(self.answer.as_slice());
        }
        size as u64
    }

    /// The count of that name; 0 of any other, and the greatest number where memory ran out.
    pub fn count(&self, name: u64) -> u64
        ensures { IsCount name self.now.client.counts result }
    {
        if name == count::HITS {
            return self.client.hits();
        }
        if name == count::MISSES {
            return self.client.misses();
        }
        if name == count::INVALIDATIONS {
            return self.client.invalidations();
        }
        match self.client.measure() {
            Ok(size) => held_count(name, size),
            Err(_) => u64::MAX,
        }
    }

    // Nothing is told.
    fn clear(&mut self)
        ensures { self.new ≡ silent self.old.client }
    {
        self.answer.clear();
        self.number = 0;
    }

    // Where memory runs out for the answer the link ends, since a reply would be lost.
    fn tell(&mut self, reply: &ClientReply) -> u64
        requires { self.old ≡ silent self.old.client }
        ensures { Tells reply.now self.old.client result self.new }
    {
        match put_answer(reply, &mut self.answer) {
            Ok(()) => {
                self.number = number_of(reply);
                status_of(reply)
            }
            Err(_) => {
                self.client.end();
                status::NO_MEMORY
            }
        }
    }

    fn ask_words(&mut self, words: &Words) -> Result<u64, NoMemory>
        requires { self.old ≡ silent self.old.client }
        ensures ok { IfOk result (λ s. AsksQuery (query_of words.now) self.old s self.new) }
        ensures err { OnErr result (self.new ≡ self.old) }
    {
        match Query::read(self.alloc, words)? {
            Some(query) => {
                let reply = self.client.ask(query);
                Ok(self.tell(&reply))
            }
            None => Ok(status::NO_QUERY),
        }
    }

    fn ask_request(&mut self, request: &[u8]) -> Result<u64, NoMemory>
        requires { self.old ≡ silent self.old.client }
        ensures ok { IfOk result
            (λ s. AsksWords (first_request request.now) self.old s self.new) }
        ensures err { OnErr result (self.new ≡ self.old) }
    {
        match read_words(self.alloc, request)? {
            Some(words) => self.ask_words(&words),
            None => Ok(status::NO_REQUEST),
        }
    }

    /// Asks the query that the bytes write, as it would be sent to the server.
    pub fn ask(&mut self, request: &[u8]) -> u64
        ensures { Asks request.now self.old result self.new }
    {
        self.clear();
        match self.ask_request(request) {
            Ok(status) => status,
            Err(_) => status::NO_MEMORY,
        }
    }

    fn send_request(&mut self, request: &[u8]) -> Result<u64, NoMemory>
        requires { self.old ≡ silent self.old.client }
        ensures ok { IfOk result
            (λ s. SendsWords (first_request request.now) self.old s self.new) }
        ensures err { OnErr result (self.new ≡ self.old) }
    {
        match read_words(self.alloc, request)? {
            Some(words) => {
                let reply = self.client.send(words);
                Ok(self.tell(&reply))
            }
            None => Ok(status::NO_REQUEST),
        }
    }

    /// Sends the command that the bytes write, unless it would change how the connection is served.
    pub fn send(&mut self, request: &[u8]) -> u64
        ensures { Sends request.now self.old result self.new }
    {
        self.clear();
        match self.send_request(request) {
            Ok(status) => status,
            Err(_) => status::NO_MEMORY,
        }
    }

    /// The reply to the command of that number, which is told once.
    pub fn poll(&mut self, number: u64) -> u64
        ensures { Polls number self.old result self.new }
    {
        self.clear();
        let reply = self.client.poll(number);
        self.tell(&reply)
    }

    /// The next bytes for the server, at most so many.
    pub fn take_out(&mut self, most: u64) -> u64
        ensures { TakesOut most self.old result self.new }
    {
        self.clear();
        let reply = self.client.take_out(most);
        self.tell(&reply)
    }

    /// What the server sent next, cut anywhere.
    pub fn feed(&mut self, bytes: &[u8]) -> u64
        ensures { Feeds bytes.now self.old result self.new }
    {
        self.clear();
        match self.client.feed(bytes) {
            Ok(()) => status::DONE,
            Err(_) => status::NO_MEMORY,
        }
    }

    /// The time of the asks that follow, as `GuardedClient::tell_time`.
    pub fn tell_time(&mut self, now: u64) -> u64
        ensures { TellsTime now self.old result self.new }
    {
        self.clear();
        self.client.tell_time(now);
        status::DONE
    }

    /// The connection is lost.
    pub fn end(&mut self) -> u64
        ensures { Ends self.old result self.new }
    {
        self.clear();
        self.client.end();
        status::DONE
    }
}
