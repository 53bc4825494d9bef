//! The server's end of a link: it reads requests and runs them, and sends what they are answered.
ghost use Rattle.std.specs.Prelude.{◌≡◌, ◌<◌, true, IfOk};
ghost use Rattle.resp_stream.specs.Parse.{parse};
ghost use Rattle.serial_model.specs.declared.history.BookCall.TheVariants as call;
ghost use Rattle.serial_model.specs.History.{gives_on, reads_on};
ghost use Rattle.server_links.specs.Moves.{close, stopped_at, run_fed, run_requests, send};
ghost use Rattle.server_links.specs.Moves.{send_all};
ghost use Rattle.server_links.specs.Moves.{serve, serve_all, stop, stop_open, take_down, turn};
ghost use Rattle.server_links.specs.Moves.{with_end};
ghost use Rattle.server_links.specs.Outcome.{Gives};
ghost use Rattle.server_links.specs.Session.{session};

use super::fault::WorldFault;
use super::link::Link;
use super::server::Server;
use resp_stream::FaultPlace;
use resp_value::Words;
use script_text::{Line, Lines};
use server_book::{BookCall, BookReply};

impl Link {
    /// The server's end reads so many bytes and never an EOF, or all that is there.
    pub fn serve(
        &mut self,
        server: &mut Server,
        count: Option<u64>,
        lines: &mut Lines,
    ) -> Result<(), WorldFault>
        ensures { Gives (serve count (session server.old self.old)) lines.old result
            (session server.new self.new) lines.new }
    {
        let Some(count) = count else {
            return self.serve_all(server, lines);
        };
        if !server.reads_on(self.id) || count > self.up.bytes.len() as u64 {
            return Err(WorldFault::NothingThere);
        }
        let count = count as usize;
        self.reader.feed(&self.up.bytes.as_slice()[..count])?;
        self.up.pass(count);
        self.run_fed(server, false, lines)
    }

    /// The server's end reads all that is there. It reads nothing where its connection was closed.
    pub fn serve_all(&mut self, server: &mut Server, lines: &mut Lines) -> Result<(), WorldFault>
        ensures { Gives (serve_all (session server.old self.old)) lines.old result
            (session server.new self.new) lines.new }
    {
        if !server.reads_on(self.id) {
            return Ok(());
        }
        self.reader.feed(self.up.bytes.as_slice())?;
        let eof = self.up.is_queued();
        self.up.pass_all();
        self.up.pass_eof();
        self.run_fed(server, eof, lines)
    }

    /// Runs the requests that were read, and then closes where something stops the reading.
    fn run_fed(
        &mut self,
        server: &mut Server,
        eof: bool,
        lines: &mut Lines,
    ) -> Result<(), WorldFault>
        ensures { Gives (run_fed eof (session server.old self.old)) lines.old result
            (session server.new self.new) lines.new }
    {
        let fault = self.run_requests(server, lines)?;
        self.stop(server, fault, eof, lines)
    }

    /// Each whole request is one Run, up to a QUIT or a drop; the fault that stands after them, if
    /// any.
    fn run_requests(
        &mut self,
        server: &mut Server,
        lines: &mut Lines,
    ) -> Result<Option<FaultPlace>, WorldFault>
        ensures gives { Gives (run_requests (session server.old self.old)) lines.old result
            (session server.new self.new) lines.new }
        ensures fault { IfOk result (λ f. f ≡ stopped_at (parse self.old.reader).fault) }
    {
        'requests: loop {
            match self.reader.next_request() {
                Ok(Some(words)) => self.run_one(server, words, lines)?,
                Ok(None) => return Ok(None),
                Err(fault) => {
                    return match fault.place() {
                        Some(place) => Ok(Some(place)),
                        None => Err(WorldFault::NoMemory),
                    };
                }
            }
        }
    }

    /// One Run. What stands behind a QUIT or a drop is passed over.
    fn run_one(
        &self,
        server: &mut Server,
        words: Words,
        lines: &mut Lines,
    ) -> Result<(), WorldFault>
        ensures { Gives (turn (call.Run self.now.id words server.old.clock) words
            (session server.old self.now)) lines.old result (session server.new self.now)
            lines.new }
    {
        if !server.runs_on(self.id) {
            return Ok(());
        }
        let line = Line::Run(server.next_entry()?, self.name.copy()?, words.copy()?);
        let now = server.clock();
        let id = self.id;
        server.turn(BookCall::Run { id, words, now }, line, lines)?;
        Ok(())
    }

    fn close(&self, server: &mut Server, lines: &mut Lines) -> Result<(), WorldFault>
        requires { reads_on server.old.book.limits server.old.book.past self.now.id ≡ true }
        ensures { Gives (close (session server.old self.now)) lines.old result
            (session server.new self.now) lines.new }
    {
        let line = Line::Close(server.next_entry()?, self.name.copy()?);
        server.turn(BookCall::Close { id: self.id }, line, lines)?;
        Ok(())
    }

    /// Closes where something stops the reading, unless the connection was dropped.
    fn stop(
        &self,
        server: &mut Server,
        fault: Option<FaultPlace>,
        eof: bool,
        lines: &mut Lines,
    ) -> Result<(), WorldFault>
        ensures { Gives (stop fault eof (session server.old self.now)) lines.old result
            (session server.new self.now) lines.new }
    {
        if server.reads_on(self.id) {
            return self.stop_open(server, fault, eof, lines);
        }
        Ok(())
    }

    /// Closes where something stops the reading: a fault of the stream, or an EOF that was read.
    fn stop_open(
        &self,
        server: &mut Server,
        fault: Option<FaultPlace>,
        eof: bool,
        lines: &mut Lines,
    ) -> Result<(), WorldFault>
        requires { reads_on server.old.book.limits server.old.book.past self.now.id ≡ true }
        ensures { Gives (stop_open fault eof (session server.old self.now)) lines.old result
            (session server.new self.now) lines.new }
    {
        match fault {
            Some(FaultPlace { number, offset }) => {
                lines.push(Line::Bad {
                    link: self.name.copy()?,
                    number,
                    offset,
                })?;
                self.close(server, lines)
            }
            None if eof => self.close(server, lines),
            None => Ok(()),
        }
    }

    /// The server's end sends so many bytes, or all.
    pub fn send(
        &mut self,
        server: &mut Server,
        count: Option<u64>,
        lines: &mut Lines,
    ) -> Result<(), WorldFault>
        ensures { Gives (send count (session server.old self.old)) lines.old result
            (session server.new self.new) lines.new }
    {
        let Some(count) = count else {
            return self.send_all(server, lines);
        };
        if !self.down.is_open() || !server.gives_on(self.id) || count > server.waiting(self.id) {
            return Err(WorldFault::NothingThere);
        }
        self.take_down(server, count, lines)?;
        self.end_down(server);
        Ok(())
    }

    /// The server's end sends all that its connection was not given yet, and then the EOF of one
    /// that has ended. After an EOF nothing is sent.
    pub fn send_all(&mut self, server: &mut Server, lines: &mut Lines) -> Result<(), WorldFault>
        ensures { Gives (send_all (session server.old self.old)) lines.old result
            (session server.new self.new) lines.new }
    {
        if !self.down.is_open() {
            return Ok(());
        }
        if !server.gives_on(self.id) {
            self.down.finish();
            return Ok(());
        }
        self.take_down(server, u64::MAX, lines)?;
        self.end_down(server);
        Ok(())
    }

    /// Once nothing is left of what a connection that has ended was sent, its EOF follows.
    fn end_down(&mut self, server: &Server)
        requires { gives_on server.now.book.limits server.now.book.past self.old.id ≡ true }
        ensures { session server.now self.new ≡ with_end (session server.now self.old) }
    {
        if !server.runs_on(self.id) && server.waiting(self.id) == 0 {
            self.down.finish();
        }
    }

    /// One Take, unless there is nothing to take.
    fn take_down(
        &mut self,
        server: &mut Server,
        most: u64,
        lines: &mut Lines,
    ) -> Result<(), WorldFault>
        requires { gives_on server.old.book.limits server.old.book.past self.old.id ≡ true }
        ensures { Gives (take_down most (session server.old self.old)) lines.old result
            (session server.new self.new) lines.new }
    {
        let count = server.waiting(self.id).min(most);
        if count == 0 {
            return Ok(());
        }
        let line = Line::Take(server.next_entry()?, self.name.copy()?, count);
        let id = self.id;
        match server.turn(BookCall::Take { id, max: most }, line, lines)? {
            BookReply::Bytes { bytes, .. } => Ok(self.down.put(bytes.as_slice())?),
            _ => unreachable!(),
        }
    }
}
