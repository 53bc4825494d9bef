//! A client for a program of another language: a handle, until it is closed.
ghost use Rattle.std.specs.Prelude.{◌≡◌, IfOk};
ghost use Rattle.client_library.specs.Foreign.{Closes, Copies, OnOpen, TellsCount, TellsEnded};
ghost use Rattle.client_library.specs.Foreign.{TellsNumber};
ghost use Rattle.client_library.specs.Foreign.{bound, made};
ghost use Rattle.client_library.specs.Handles.{Asks, Ends, Feeds, Polls, Sends, TakesOut};
ghost use Rattle.client_library.specs.Handles.{TellsTime};

use super::handle::{Handle, status};
use super::options::{ClientOptions, OptionFault, fault_of, mode_of, read_prefixes};
use resp_value::NoMemory;
use std::alloc::Global;
use std::marker::Model;

/// A handle, and nothing once it was closed: each call then tells that the link has ended.
#[derive(Drop)]
pub struct ForeignClient {
    handle: Option<Handle>,
}

impl Model for ForeignClient {
    ghost use Rattle.std.specs.Prelude.{Option};
    ghost use Rattle.std.specs.Coded.{codes};
    ghost use Rattle.resp_value.specs.TreeCoding.{tree_code};
    ghost use Rattle.client_library.specs.Handles as handles;

    ghost Value = { Option handles.Handle };

    ghost coded = { Prim.hlevel (codes, tree_code) };

    ghost view = { λ c. c.handle };
}

/// The bound on the age of hits; 0 stands for none.
fn bound(max_age: u64) -> Option<u64>
    ensures { result ≡ bound max_age }
{
    if max_age == 0 { None } else { Some(max_age) }
}

impl ForeignClient {
    /// As `Handle::new` by these options, and by prefixes, written as the words of a command.
    pub fn new(
        alloc: Global,
        options: &ClientOptions,
        prefixes: &[u8],
    ) -> Result<Result<ForeignClient, OptionFault>, NoMemory>
        ensures { IfOk result (λ m. m ≡ made options.now prefixes.now) }
    {
        if let Some(fault) = fault_of(options, prefixes.len() > 0) {
            return Ok(Err(fault));
        }
        match read_prefixes(alloc, prefixes)? {
            Some(words) => {
                let mode = mode_of(options, words);
                let age = bound(options.max_age);
                let handle = Handle::new(alloc, mode, options.capacity, age)?;
                Ok(Ok(ForeignClient {
                    handle: Some(handle),
                }))
            }
            None => Ok(Err(OptionFault::Prefixes)),
        }
    }

    pub fn feed(&mut self, bytes: &[u8]) -> u64
        ensures { OnOpen (Feeds bytes.now) self.old result self.new }
    {
        match &mut self.handle {
            Some(handle) => handle.feed(bytes),
            None => status::ENDED,
        }
    }

    pub fn ask(&mut self, request: &[u8]) -> u64
        ensures { OnOpen (Asks request.now) self.old result self.new }
    {
        match &mut self.handle {
            Some(handle) => handle.ask(request),
            None => status::ENDED,
        }
    }

    pub fn send(&mut self, request: &[u8]) -> u64
        ensures { OnOpen (Sends request.now) self.old result self.new }
    {
        match &mut self.handle {
            Some(handle) => handle.send(request),
            None => status::ENDED,
        }
    }

    pub fn poll(&mut self, number: u64) -> u64
        ensures { OnOpen (Polls number) self.old result self.new }
    {
        match &mut self.handle {
            Some(handle) => handle.poll(number),
            None => status::ENDED,
        }
    }

    pub fn take_out(&mut self, most: u64) -> u64
        ensures { OnOpen (TakesOut most) self.old result self.new }
    {
        match &mut self.handle {
            Some(handle) => handle.take_out(most),
            None => status::ENDED,
        }
    }

    pub fn tell_time(&mut self, now: u64) -> u64
        ensures { OnOpen (TellsTime now) self.old result self.new }
    {
        match &mut self.handle {
            Some(handle) => handle.tell_time(now),
            None => status::ENDED,
        }
    }

    pub fn end(&mut self) -> u64
        ensures { OnOpen Ends self.old result self.new }
    {
        match &mut self.handle {
            Some(handle) => handle.end(),
            None => status::ENDED,
        }
    }

    /// What it has is let go.
    pub fn close(&mut self) -> u64
        ensures { Closes self.old result self.new }
    {
        self.handle = None;
        status::DONE
    }

    /// 1 where the link has ended, else 0.
    pub fn has_ended(&mut self) -> u64
        ensures { TellsEnded self.old result self.new }
    {
        match &self.handle {
            Some(handle) => handle.has_ended() as u64,
            None => 1,
        }
    }

    /// The number that the last call told.
    pub fn number(&mut self) -> u64
        ensures { TellsNumber self.old result self.new }
    {
        match &self.handle {
            Some(handle) => handle.number(),
            None => 0,
        }
    }

    /// The count of that name, as `Handle::count`; 0 of a client that was closed.
    pub fn count(&mut self, name: u64) -> u64
        ensures { TellsCount name self.old result self.new }
    {
        match &self.handle {
            Some(handle) => handle.count(name),
            None => 0,
        }
    }

    /// The size of the last answer, which is copied where there is room for it.
    pub fn copy_answer(&mut self, out: &mut [u8]) -> u64
        ensures { Copies self.old out.old result out.new self.new }
    {
        match &self.handle {
            Some(handle) => handle.copy_answer(out),
            None => 0,
        }
    }
}
