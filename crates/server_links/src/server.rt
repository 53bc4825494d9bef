//! The server of a world, and its turns.
ghost use Rattle.std.specs.Prelude.{◌≡◌, ◌+◌, ◌≤◌, ◌++◌, ◌∷◌, [], false, length, position};
ghost use Rattle.std.specs.Prelude.{slice_get, IfOk, List, None, OnErr, OnOk, option_map, true, ℕ};
ghost use Rattle.std.specs.Prelude.{vec_capacity, vec_len};
ghost use Rattle.std.specs.Str.{bytes_eq};
ghost use Rattle.serial_model.specs.declared.history.BookCall.TheVariants as calls;
ghost use Rattle.serial_model.specs.History.{gives_on, is_stopped, reads_on, run_entries, runs_of};
ghost use Rattle.serial_model.specs.History.{runs_on, unsent};
ghost use Rattle.serial_model.specs.Steps.{AreValid, BookStep, IsCallable};
ghost use Rattle.server_book.specs.BookState.{drops_after, empty_book};
ghost use Rattle.server_links.specs.declared.link.Link.{Link};
ghost use Rattle.server_links.specs.EntryLines.{dropped_lines};
ghost use Rattle.server_links.specs.LinksState.{names};
ghost use Rattle.server_links.specs.LinkSteps.{tick};
ghost use Rattle.server_links.specs.Notes.{AreNotes, IsCopy, noted_turn, runner_of, sent_entries};
ghost use Rattle.server_links.specs.Notes.{words_of};
ghost use Rattle.server_links.specs.Outcome.{Gives};
ghost use Rattle.server_links.specs.Session.{world};
ghost use Rattle.server_links.specs.Turns.{AdmitGives, EndsTick, TurnGives};

use super::drop_lines::{put_drops, put_with_room, take_back};
use super::fault::{STOPPED, WorldFault};
use super::name_list::Names;
use super::notes::Notes;
use resp_value::{NoMemory, Octets, Words};
use script_text::{Line, Lines};
use serial_model::Post;
use server_book::{Book, BookCall, BookRefusal, BookReply, Limits};
use std::alloc::Global;
use std::marker::Model;

/// Contracts see its book, its clock and the names of its links.
#[derive(Drop)]
pub struct Server {
    alloc: Global,
    limits: Limits,
    book: Book,
    // in milliseconds
    clock: u64,
    // those of the links: the connection of the id n has the n-th
    names: Names,
    // and a copy of each, for the line of its drop
    copies: Vec<Octets>,
    notes: Notes,
}

impl Model for Server {
    ghost use Rattle.std.specs.Coded.{codes};
    ghost use Rattle.std.specs.Prelude.{◌≡◌};
    ghost use Rattle.resp_value.specs.TreeCoding.{tree_code};
    ghost use Rattle.serial_model.specs.Steps.{AreValid};
    ghost use Rattle.server_links.specs.DropNames.{AreKept};
    ghost use Rattle.server_links.specs.Notes.{AreNotes};
    ghost use Rattle.server_links.specs.ServerState.{ServerState};

    ghost Value = { ServerState };

    ghost coded = { Prim.hlevel (codes, tree_code) };

    ghost view = { λ s. record { book = s.book; clock = s.clock; names = s.names } };

    ghost invariant = { λ s. AreNotes s.book.limits s.book.past s.notes
        × AreKept s.book.limits s.book.past s.names s.copies.items
        × (s.limits ≡ s.book.limits) × AreValid s.limits };
}

// the connection that a call is to run a command of
fn runner_of(call: &BookCall) -> Option<u64>
    ensures { result ≡ runner_of call.now }
{
    match call {
        BookCall::Run { id, .. } => Some(*id),
        BookCall::Admit | BookCall::Tick { .. } => None,
        BookCall::Take { .. } | BookCall::Close { .. } => None,
    }
}

// what a turn of that call is noted as
fn note(
    alloc: Global,
    notes: &mut Notes,
    runner: Option<u64>,
    words: Option<Words>,
    reply: &BookReply,
    posts: &[Post],
)
    ensures { notes.new.whole ≡ true → (notes.old.whole ≡ true)
        × ((ws : List (List ℕ)) → IsCopy words ws
        → notes.new.trails ≡ noted_turn runner ws reply.now posts.now notes.old.trails) }
{
    match (reply, runner) {
        (BookReply::Admitted { .. }, _) => notes.admit(alloc),
        (BookReply::Ran { entry }, Some(id)) => notes.run(id, *entry, words),
        _ => {}
    }
    notes.posts(posts);
}

// A copy of the words of a command that is to run, where they are kept.
fn copy_words(notes: &Notes, call: &BookCall) -> Option<Words>
    ensures { IsCopy result (words_of call.now) }
{
    match call {
        BookCall::Run { id, words, .. } if notes.keeps_words(*id) => words.copy().ok(),
        _ => None,
    }
}

// Plays a turn, and notes it.
fn play(alloc: Global, book: &mut Book, notes: &mut Notes, call: BookCall) -> BookReply
    requires { IsCallable call }
    ensures limits { book.new.limits ≡ book.old.limits }
    ensures step { BookStep book.old.limits book.old.past call result book.new.past }
    ensures drops { book.new.drops ≡ drops_after book.old.limits result book.new.past }
    ensures notes { AreNotes book.old.limits book.old.past notes.old
        → AreNotes book.new.limits book.new.past notes.new }
{
    let runner = runner_of(&call);
    let words = copy_words(notes, &call);
    // the history so far is a legal one
    let _history = book.history();
    let reply = book.turn(call);
    note(alloc, notes, runner, words, &reply, book.last_posts());
    reply
}

impl Server {
    /// A server before its first turn, at moment 0.
    pub fn new(alloc: Global, limits: Limits) -> Result<Server, NoMemory>
        requires { AreValid limits }
        ensures { IfOk result (λ s. s
            ≡ record { book = empty_book limits; clock = 0; names = [] }) }
    {
        Ok(Server {
            alloc,
            limits,
            book: Book::new(alloc, limits)?,
            clock: 0,
            names: Names::new(alloc),
            copies: Vec::new(alloc),
            notes: Notes::new(alloc),
        })
    }

    pub fn limits(&self) -> Limits
        ensures same { result ≡ self.now.book.limits }
        ensures valid { AreValid result }
    {
        self.limits
    }

    pub fn clock(&self) -> u64
        ensures { result ≡ self.now.clock }
    {
        self.clock
    }

    pub fn set_clock(&mut self, now: u64)
        ensures { self.new ≡ record self.old { clock = now } }
    {
        self.clock = now;
    }

    /// How many entries the history has.
    pub fn entries(&self) -> u64
        ensures { result ≡ length self.now.book.past }
    {
        self.book.entries()
    }

    /// The place of the link of this name.
    pub fn place_of(&self, name: &[u8]) -> Option<usize>
        ensures { result ≡ position (λ n. bytes_eq n name.now) self.now.names }
    {
        self.names.place(name)
    }

    /// Whether a SHUTDOWN stopped it.
    pub fn is_stopped(&self) -> bool
        ensures { result ≡ is_stopped self.now.book.limits self.now.book.past }
    {
        self.book.is_stopped()
    }

    /// Whether a Run of this connection is accepted.
    pub fn runs_on(&self, id: u64) -> bool
        ensures { result ≡ runs_on self.now.book.limits self.now.book.past id }
    {
        self.book.runs_on(id)
    }

    /// Whether the server reads on from this connection's link.
    pub fn reads_on(&self, id: u64) -> bool
        ensures { result ≡ reads_on self.now.book.limits self.now.book.past id }
    {
        self.book.reads_on(id)
    }

    /// Whether a Take of this connection is accepted.
    pub fn gives_on(&self, id: u64) -> bool
        ensures { result ≡ gives_on self.now.book.limits self.now.book.past id }
    {
        self.book.gives_on(id)
    }

    /// How many bytes a connection can take now.
    pub fn waiting(&self, id: u64) -> u64
        requires { gives_on self.now.book.limits self.now.book.past id ≡ true }
        ensures { result ≡ length (unsent self.now.book.limits id self.now.book.past) }
    {
        self.book.waiting(id)
    }

    /// The number of the next entry. Memory runs out before the numbers do.
    pub fn next_entry(&self) -> Result<u64, NoMemory>
        ensures { IfOk result (λ entry. entry ≡ length self.now.book.past + 1) }
    {
        self.book.entries().checked_add(1).ok_or(NoMemory)
    }

    /// At which entry the command of this number, counted from 0, of the connection of the id
    /// `at` + 1 ran.
    pub fn run_entry(&self, at: usize, number: usize) -> Result<Option<u64>, NoMemory>
        ensures { IfOk result (λ e. e ≡ slice_get (run_entries (at + 1) self.now.book.past)
            number) }
    {
        if !self.notes.is_whole() {
            return Err(NoMemory);
        }
        // only admitted connections are in a legal history
        let _history = self.book.history();
        Ok(self.notes.run_entry(at, number))
    }

    /// Which entry sent what was sent to it under this number, counted from 0.
    pub fn sent_entry(&self, at: usize, number: usize) -> Result<Option<u64>, NoMemory>
        ensures { IfOk result (λ e. e ≡ slice_get
            (sent_entries self.now.book.limits (at + 1) self.now.book.past) number) }
    {
        if !self.notes.is_whole() {
            return Err(NoMemory);
        }
        // only admitted connections are in a legal history
        let _history = self.book.history();
        Ok(self.notes.sent_entry(at, number))
    }

    /// From now on the words of the commands of the connection of the id `at` + 1 are kept, which
    /// none has run so far.
    pub fn keep_words(&mut self, at: usize)
        ensures { self.new ≡ self.old }
    {
        let Some(id) = (at as u64).checked_add(1) else {
            return;
        };
        self.notes.keep_words(id);
    }

    /// The words of the command of this number, counted from 0, of the connection of the id
    /// `at` + 1, where they are kept.
    pub fn run_words(&self, at: usize, number: usize) -> Result<Option<&Words>, NoMemory>
        ensures { IfOk result (λ w. option_map (λ x. x.now) w
            ≡ slice_get (runs_of (at + 1) self.now.book.past) number) }
    {
        let id = (at as u64).checked_add(1).ok_or(NoMemory)?;
        if !self.notes.is_whole() || !self.notes.keeps_words(id) {
            return Err(NoMemory);
        }
        Ok(self.notes.run_words(at, number))
    }
}

impl Server {
    /// Admits the connection of a link of this name, which is new, and appends the line.
    pub fn admit(&mut self, name: &Octets, line: Line, lines: &mut Lines) -> Result<(), WorldFault>
        requires goes_on { is_stopped self.old.book.limits self.old.book.past ≡ false }
        requires new { position (λ n. bytes_eq n name.now) self.old.names ≡ None }
        ensures limits { self.new.book.limits ≡ self.old.book.limits }
        ensures clock { self.new.clock ≡ self.old.clock }
        ensures gives { AdmitGives self.old name.now line lines.old result self.new lines.new }
    {
        let copy = name.copy()?;
        self.copies.reserve(1)?;
        let items = lines.items_mut();
        put_with_room(line, 0, items)?;
        if self.names.add(name.as_slice()).is_err() {
            take_back(items);
            return Err(WorldFault::NoMemory);
        }
        let reply = play(self.alloc, &mut self.book, &mut self.notes, BookCall::Admit);
        if let BookReply::Admitted { .. } = reply {
            self.copies.push_reserved(copy);
            return Ok(());
        }
        self.names.remove_last();
        take_back(items);
        Err(WorldFault::NoMemory)
    }

    // Plays a turn, and appends a line of each connection that it drops.
    fn play_out(&mut self, call: BookCall, items: &mut Vec<Line>) -> BookReply
        requires callable { IsCallable call }
        requires admits_none { call ≡ calls.Admit → ⊥ }
        requires room { vec_len items.old + length self.old.names ≤ vec_capacity items.old }
        ensures limits { self.new.book.limits ≡ self.old.book.limits }
        ensures clock { self.new.clock ≡ self.old.clock }
        ensures names { self.new.names ≡ self.old.names }
        ensures step { BookStep self.old.book.limits self.old.book.past call result
            self.new.book.past }
        ensures lines { items.new.items ≡ items.old.items
            ++ dropped_lines self.old.book.limits self.old.names result self.new.book.past }
    {
        let reply = play(self.alloc, &mut self.book, &mut self.notes, call);
        match &reply {
            BookReply::Ran { entry } | BookReply::Ticked { entry } => put_drops(
                self.alloc,
                *entry,
                self.book.last_drops(),
                &mut self.copies,
                items,
            ),
            _ => {}
        }
        reply
    }

    /// Plays a turn of a connection, and appends its line and those of the connections that it
    /// drops. They get their places first, since a turn can't be taken back.
    pub fn turn(
        &mut self,
        call: BookCall,
        line: Line,
        lines: &mut Lines,
    ) -> Result<BookReply, WorldFault>
        requires callable { IsCallable call }
        requires admits_none { call ≡ calls.Admit → ⊥ }
        ensures limits { self.new.book.limits ≡ self.old.book.limits }
        ensures clock { self.new.clock ≡ self.old.clock }
        ensures names { self.new.names ≡ self.old.names }
        ensures gives { TurnGives self.old.book.limits self.old.names self.old.book.past call line
            lines.old result self.new.book.past lines.new }
    {
        let items = lines.items_mut();
        put_with_room(line, self.copies.len(), items)?;
        match self.play_out(call, items) {
            BookReply::Refused(BookRefusal::NoMemory) => {
                take_back(items);
                Err(WorldFault::NoMemory)
            }
            reply => Ok(reply),
        }
    }

    /// The keys that are due by the clock leave. Where none is, nothing is printed.
    pub fn tick(&mut self, lines: &mut Lines) -> Result<(), WorldFault>
        ensures limits { self.new.book.limits ≡ self.old.book.limits }
        ensures clock { self.new.clock ≡ self.old.clock }
        ensures names { self.new.names ≡ self.old.names }
        ensures gives { (links : List Link) → names links ≡ self.old.names
            → Gives (tick (world self.old links)) lines.old result (world self.new links)
            lines.new }
    {
        let now = self.clock;
        let moment = now.max(self.book.moment());
        let line = Line::Tick(self.next_entry()?, moment);
        let items = lines.items_mut();
        put_with_room(line, self.copies.len(), items)?;
        let reply = self.play_out(BookCall::Tick { now }, items);
        if let BookReply::Ticked { .. } = reply {
            return Ok(());
        }
        take_back(items);
        without_entry(&reply)
    }
}

// What a Tick comes to that is no entry.
fn without_entry(reply: &BookReply) -> Result<(), WorldFault>
    ensures { EndsTick reply.now result }
{
    match reply {
        BookReply::Refused(BookRefusal::NoMemory) => Err(WorldFault::NoMemory),
        BookReply::Refused(BookRefusal::Stopped) => Err(WorldFault::Refused { number: STOPPED }),
        _ => Ok(()),
    }
}
