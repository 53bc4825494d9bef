//! The server's state. A turn answers and adds what the definition of a step gives on the history.
ghost use Rattle.std.specs.Prelude.{◌≡◌, ◌<◌, true, IfOk, OnErr, length, option_map};
ghost use Rattle.std.specs.Prelude.{None, Some, reverse, take};
ghost use Rattle.command_words.specs.Reading.{IsReading};
ghost use Rattle.command_words.specs.Words.{reading};
ghost use Rattle.serial_model.specs.declared.history.BookCall.TheVariants as call;
ghost use Rattle.serial_model.specs.declared.effect.EntryKind.TheVariants as kind;
ghost use Rattle.serial_model.specs.EntryEffects.{bare_effect};
ghost use Rattle.serial_model.specs.History.{IsLegal, gives_on, latest, reads_on};
ghost use Rattle.serial_model.specs.History.{is_stopped, runs_on};
ghost use Rattle.serial_model.specs.History.{unsent};
ghost use Rattle.serial_model.specs.Steps.{AreValid, BookStep, IsCallable};
ghost use Rattle.server_book.specs.BookState.{HasRun, IsAccepted, IsClear, IsRefusal, IsTurn};
ghost use Rattle.server_book.specs.BookState.{drops_after, effect_after, empty_book, posts_after};
ghost use Rattle.server_book.specs.Log.{base, kept, runs};

use super::ends::Ends;
use super::log::Log;
use super::plan::{Plan, Played, command_of, play, runs};
use super::stores::Stores;
use command_set::Expired;
use command_words::{Command, Signalled, WordFault, read_command};
use resp_value::{NoMemory, Value, Words};
use serial_model::{BookCall, BookRefusal, BookReply, Effect, Entry, EntryKind, Limits, Post};
use std::alloc::Global;
use std::marker::Model;
use std::mem;

/// The server's state: its history, its keys and its connections. Contracts see its limits, its
/// history, what the last turn sent, whom it dropped, and the effect of the entry that it added.
#[derive(Drop)]
pub struct Book {
    limits: Limits,
    log: Log,
    stores: Stores,
    /// A SHUTDOWN ran.
    stopped: bool,
    effect: Option<Effect>,
}

/// What a Run has done, beside its command. `entry` is the number of its entry.
#[derive(Drop)]
pub struct RunDone {
    pub entry: u64,
    pub expired: Words,
    pub reply: Option<Value>,
    pub signalled: Signalled,
}

impl Model for Book {
    ghost use Rattle.std.specs.Coded.{codes};
    ghost use Rattle.resp_value.specs.TreeCoding.{tree_code};
    ghost use Rattle.server_book.specs.BookState.{IsBook, BookState};

    ghost Value = { BookState };

    ghost coded = { Prim.hlevel (codes, tree_code) };

    ghost view = { λ b. record {
      limits = b.limits;
      past = b.log.past;
      posts = b.stores.connections.posts;
      drops = b.stores.connections.drops;
      effect = b.effect;
    } };

    ghost invariant = { λ b. IsBook b.limits b.stopped b.log b.stores };
}

// The command that words are, or what is wrong with them.
#[tactic(auto, using(crate::proofs::BookTurns::read_is))]
fn read_within(alloc: Global, words: &Words) -> Result<Result<Command, WordFault>, NoMemory>
    ensures { IfOk result (λ read. read ≡ reading words.now) }
{
    let read = read_command(alloc, words);
    if let Err(WordFault::NoMemory) = read {
        return Err(NoMemory);
    }
    Ok(read)
}

// The effect of an entry at which no command runs.
fn bare_effect(alloc: Global, entry: u64, id: u64, kind: EntryKind) -> Effect
    ensures { result ≡ bare_effect entry id kind }
{
    Effect {
        entry,
        id,
        command: None,
        expired: Words::new(alloc),
        reply: None,
        signalled: Signalled::Keys(Words::new(alloc)),
        kind,
    }
}

// The effect of a Tick, by which these keys left.
fn tick_effect(alloc: Global, entry: u64, expired: Words) -> Effect
    ensures { result ≡ record (bare_effect entry 0 kind.Tick) { expired = expired } }
{
    Effect {
        entry,
        id: 0,
        command: None,
        expired,
        reply: None,
        signalled: Signalled::Keys(Words::new(alloc)),
        kind: EntryKind::Tick,
    }
}

// A function that lets a command or an effect go has room for each of its forms, which is filled
// with zeros whenever the function begins. So one function lets go of each, at one place.
fn let_go(_read: Result<Command, WordFault>) {}

fn clear(effect: &mut Option<Effect>)
    ensures { effect.new ≡ None }
{
    *effect = None;
}

// A turn begins without an effect, so there is none to let go.
fn keep(effect: &mut Option<Effect>, new: Effect)
    ensures { effect.new ≡ Some new }
{
    mem::forget(mem::replace(effect, Some(new)));
}

impl Book {
    /// The server before its first turn.
    pub fn new(alloc: Global, limits: Limits) -> Result<Book, NoMemory>
        requires { AreValid limits }
        ensures { IfOk result (λ b. b ≡ empty_book limits) }
    {
        Ok(Book {
            limits,
            log: Log::new(alloc, limits.history_max),
            stores: Stores::new(alloc, limits.table_max),
            stopped: false,
            effect: None,
        })
    }

    /// How many entries the history has, those that were let go too.
    pub fn entries(&self) -> u64
        ensures { result ≡ length self.now.past }
    {
        self.log.len()
    }

    /// The greatest moment so far, in milliseconds.
    pub fn moment(&self) -> u64
        ensures { result ≡ latest self.now.past }
    {
        self.log.moment()
    }

    /// How many entries were let go. All are, as soon as there are as many as the limit.
    pub fn base(&self) -> u64
        ensures { result ≡ base self.now.limits.history_max self.now.past }
    {
        self.log.base()
    }

    /// How many Runs of a connection the history has. There is none where it was not admitted.
    pub fn runs(&self, id: u64) -> Option<u64>
        ensures { result ≡ runs self.now.past id }
    {
        self.log.runs(id)
    }

    /// The newest entries of the history, those since the base, the first of them first.
    pub fn history(&self) -> &[Entry]
        ensures newest { let past = self.now.past in
            reverse result.now ≡ take (kept self.now.limits.history_max past) past }
        ensures legal { IsLegal self.now.limits self.now.past }
    {
        self.log.entries()
    }

    /// What the last turn put into queues, in order.
    pub fn last_posts(&self) -> &[Post]
        ensures { result.now ≡ self.now.posts }
    {
        self.stores.connections.posts()
    }

    /// The connections that the last turn ended though they did not ask for it, in order of their
    /// ids.
    pub fn last_drops(&self) -> &[u64]
        ensures { result.now ≡ self.now.drops }
    {
        self.stores.connections.drops()
    }

    /// The effect of the entry that the last turn added, if it added one.
    pub fn last_effect(&self) -> Option<&Effect>
        ensures { option_map (λ e. e.now) result ≡ self.now.effect }
    {
        self.effect.as_ref()
    }

    /// Whether a SHUTDOWN ran: no connection is admitted any more, and none runs.
    pub fn is_stopped(&self) -> bool
        ensures { result ≡ is_stopped self.now.limits self.now.past }
    {
        self.stopped
    }

    /// Whether a Run of this connection is accepted.
    pub fn runs_on(&self, id: u64) -> bool
        ensures { result ≡ runs_on self.now.limits self.now.past id }
    {
        self.stores.connections.is_live(id)
    }

    /// Whether the server reads on from this connection's link, and a Close of it is accepted.
    pub fn reads_on(&self, id: u64) -> bool
        ensures { result ≡ reads_on self.now.limits self.now.past id }
    {
        self.stores.connections.reads(id)
    }

    /// Whether a Take of this connection is accepted.
    pub fn gives_on(&self, id: u64) -> bool
        ensures { result ≡ gives_on self.now.limits self.now.past id }
    {
        self.stores.connections.gives(id)
    }

    /// How many bytes a connection can take now.
    pub fn waiting(&self, id: u64) -> u64
        requires { gives_on self.now.limits self.now.past id ≡ true }
        ensures { result ≡ length (unsent self.now.limits id self.now.past) }
    {
        self.stores.connections.waiting(id) as u64
    }

    // The answer to a call that adds no entry, by the order of refusals.
    fn refusal(&self, call: &BookCall) -> Option<BookReply>
        requires { IsCallable call.now }
        ensures { IsRefusal self.now call.now result }
    {
        match call {
            // Whether a key is due at a Tick is not known yet.
            BookCall::Admit | BookCall::Tick { .. } => {
                if self.stopped {
                    Some(BookReply::Refused(BookRefusal::Stopped))
                } else {
                    None
                }
            }
            BookCall::Run { id, .. } => {
                if self.runs_on(*id) {
                    None
                } else {
                    Some(BookReply::Refused(BookRefusal::Gone { id: *id }))
                }
            }
            BookCall::Take { id, .. } => {
                if self.gives_on(*id) {
                    if self.waiting(*id) > 0 {
                        None
                    } else {
                        Some(BookReply::Quiet)
                    }
                } else {
                    Some(BookReply::Refused(BookRefusal::Gone { id: *id }))
                }
            }
            BookCall::Close { id } => {
                if self.reads_on(*id) {
                    None
                } else {
                    Some(BookReply::Refused(BookRefusal::Gone { id: *id }))
                }
            }
        }
    }

    fn admit(&mut self) -> Result<BookReply, NoMemory>
        requires accepted { IsAccepted self.old.limits self.old.past call.Admit }
        requires none { IsClear self.old }
        ensures ok { IfOk result (λ reply. IsTurn self.old call.Admit reply self.new) }
        ensures err { OnErr result (self.new ≡ self.old) }
    {
        let id = self.stores.connections.count() as u64 + 1;
        // Room for this entry, and for the Close of the new connection.
        self.log.reserve(2)?;
        let entry = self.log.next();
        self.stores.connections.admit()?;
        self.log.push(Entry::Admit { id });
        let effect = bare_effect(self.stores.alloc, entry, id, EntryKind::Admit);
        keep(&mut self.effect, effect);
        Ok(BookReply::Admitted { entry, id })
    }

    // The room for the entry comes first; a run and what was sent can be taken back.
    fn run_read(
        &mut self,
        id: u64,
        words: Words,
        read: &Result<Command, WordFault>,
        now: u64,
    ) -> Result<RunDone, NoMemory>
        requires accepted { IsAccepted self.old.limits self.old.past (call.Run id words now) }
        requires none { IsClear self.old }
        requires reading { IsReading read.now (reading words) }
        ensures ok { IfOk result (λ done. HasRun self.old id words now done self.new) }
        ensures err { OnErr result (self.new ≡ self.old) }
    {
        let moment = now.max(self.log.moment());
        let by = self.stores.caller(id, read, moment)?;
        self.log.reserve(1)?;
        let entry = self.log.next();
        // no id is past the number of connections
        let _connections = self.stores.connections.count();
        let mode = self.stores.connections.mode(id);
        let Played {
            expired,
            plan,
            undo,
        } = match play(&mut self.stores.space, by, mode, &words, read, moment) {
            Ok(played) => played,
            Err(_) => return Err(NoMemory),
        };
        match self.stores.send_run(entry, id, expired.as_slice(), &plan) {
            Ok(()) => self.stores.space.keep_place(undo),
            Err(_) => {
                self.stores.space.undo_due(undo);
                return Err(NoMemory);
            }
        }
        let Plan { reply, deed, .. } = plan;
        let ends = deed.ends(id, self.limits.out_max);
        let signalled = self.stores.finish(entry, id, deed, ends);
        self.stopped = self.stopped || ends.stops;
        self.log.push(Entry::Run { id, words, moment });
        self.log.release(self.stores.connections.drops().len());
        Ok(RunDone {
            entry,
            expired,
            reply,
            signalled,
        })
    }

    fn run(&mut self, id: u64, words: Words, now: u64) -> Result<BookReply, NoMemory>
        requires accepted { IsAccepted self.old.limits self.old.past (call.Run id words now) }
        requires none { IsClear self.old }
        ensures ok { IfOk result (λ reply. IsTurn self.old (call.Run id words now) reply self.new) }
        ensures err { OnErr result (self.new ≡ self.old) }
    {
        let read = match read_within(self.stores.alloc, &words) {
            Ok(read) => read,
            Err(_) => return Err(NoMemory),
        };
        let runs = runs(self.stores.connections.mode(id), &read);
        match self.run_read(id, words, &read, now) {
            Ok(
                RunDone {
                    entry,
                    expired,
                    reply,
                    signalled,
                },
            ) => {
                let effect = Effect {
                    entry,
                    id,
                    command: command_of(read, runs),
                    expired,
                    reply,
                    signalled,
                    kind: EntryKind::Run,
                };
                keep(&mut self.effect, effect);
                Ok(BookReply::Ran { entry })
            }
            Err(_) => {
                let_go(read);
                Err(NoMemory)
            }
        }
    }

    // Where no key is due, nothing was taken out.
    fn tick(&mut self, now: u64) -> Result<BookReply, NoMemory>
        requires accepted { IsAccepted self.old.limits self.old.past (call.Tick now) }
        requires none { IsClear self.old }
        ensures ok { IfOk result (λ reply. IsTurn self.old (call.Tick now) reply self.new) }
        ensures err { OnErr result (self.new ≡ self.old) }
    {
        let moment = now.max(self.log.moment());
        self.log.reserve(1)?;
        let entry = self.log.next();
        let Expired { keys, undo } = self.stores.space.expire_due(moment)?;
        if keys.as_slice().is_empty() {
            return Ok(BookReply::Quiet);
        }
        match self.stores.send_tick(entry, keys.as_slice()) {
            Ok(()) => {}
            Err(_) => {
                self.stores.space.undo_due(undo);
                return Err(NoMemory);
            }
        }
        self.stores
            .end_all(entry, Ends::by_tick(self.limits.out_max));
        self.log.push(Entry::Tick { moment });
        self.log.release(self.stores.connections.drops().len());
        let effect = tick_effect(self.stores.alloc, entry, keys);
        keep(&mut self.effect, effect);
        Ok(BookReply::Ticked { entry })
    }

    fn take(&mut self, id: u64, most: u64) -> Result<BookReply, NoMemory>
        requires most { 0 < most }
        requires accepted { IsAccepted self.old.limits self.old.past (call.Take id most) }
        requires none { IsClear self.old }
        ensures ok { IfOk result (λ reply. IsTurn self.old (call.Take id most) reply self.new) }
        ensures err { OnErr result (self.new ≡ self.old) }
    {
        let bytes = self.stores.connections.front(id, most as usize)?;
        self.log.reserve(1)?;
        let entry = self.log.next();
        self.log.push(Entry::Take { id, max: most });
        self.stores.connections.advance(id, most as usize);
        let given = bytes.as_slice().len() as u64;
        let effect = bare_effect(self.stores.alloc, entry, id, EntryKind::Take(given));
        keep(&mut self.effect, effect);
        Ok(BookReply::Bytes { entry, bytes })
    }

    // The room for the entry and for its post was kept. What was kept for the connection goes.
    fn close(&mut self, id: u64) -> BookReply
        requires accepted { IsAccepted self.old.limits self.old.past (call.Close id) }
        requires none { IsClear self.old }
        ensures { IsTurn self.old (call.Close id) result self.new }
    {
        let entry = self.log.next();
        self.log.push(Entry::Close { id });
        self.stores.connections.close(entry, id);
        self.stores.forget(id);
        let effect = bare_effect(self.stores.alloc, entry, id, EntryKind::Close);
        keep(&mut self.effect, effect);
        BookReply::Closed { entry }
    }

    /// Plays one turn. Want of memory leaves the history as it was.
    pub fn turn(&mut self, call: BookCall) -> BookReply
        requires { IsCallable call }
        ensures limits { self.new.limits ≡ self.old.limits }
        ensures step { BookStep self.old.limits self.old.past call result self.new.past }
        ensures posts { self.new.posts ≡ posts_after self.old.limits result self.new.past }
        ensures drops { self.new.drops ≡ drops_after self.old.limits result self.new.past }
        ensures effect { self.new.effect ≡ effect_after self.old.limits result self.new.past }
    {
        self.stores.connections.clear_posts();
        clear(&mut self.effect);
        if let Some(reply) = self.refusal(&call) {
            return reply;
        }
        let turned = match call {
            BookCall::Admit => self.admit(),
            BookCall::Run { id, words, now } => self.run(id, words, now),
            BookCall::Tick { now } => self.tick(now),
            BookCall::Take { id, max } => self.take(id, max),
            BookCall::Close { id } => return self.close(id),
        };
        match turned {
            Ok(reply) => reply,
            Err(_) => BookReply::Refused(BookRefusal::NoMemory),
        }
    }
}
