//! A database: the keyspace with the deadlines of its keys, and runs that can be taken back.
ghost use Rattle.std.specs.Prelude.{◌≡◌, true, IfOk, OnOk, OnErr};
ghost use Rattle.std.specs.FinMap as finite;
ghost use Rattle.command_words.specs.Effects.{effect, has_row};
ghost use Rattle.command_words.specs.Expiry.{without_due};
ghost use Rattle.command_set.specs.Runs.{AreDue, IsTurn, taken_back};

use super::due;
use super::prior::Prior;
use super::run_due::{expire, own_keys, run_flush, run_keys};
use super::waiting::{Parts, Waiting, push_waiting, settle};
use command_words::{Command, Done, Written, keys_written};
use resp_value::{NoMemory, Words};
use std::alloc::Global;
use std::marker::Model;

/// All keys with what they hold and the deadlines in order; contracts see a finite map. A run that
/// was taken back waits in it until memory is there to put its keys back.
#[derive(Drop)]
pub struct Database {
    pub(crate) alloc: Global,
    pub(crate) parts: Parts,
}

impl Model for Database {
    ghost use Rattle.std.specs.FinMap as finite;
    ghost use Rattle.std.specs.Coded.{coded_list, coded_ℕ};
    ghost use Rattle.command_words.specs.Space.{Space, held_code};

    ghost Value = { Space };

    ghost coded = { finite.code (coded_list coded_ℕ) held_code };

    ghost use Rattle.command_set.specs.Priors.{shown};

    ghost view = { λ d. shown d.parts };

    ghost use Rattle.command_set.specs.InStep.{InStep};

    ghost invariant = { λ d. InStep d.parts.index d.parts.space };
}

/// What a run changed: nothing; some keys, by what its command kept of them and what the keys that
/// were due held, with the place for what waits already; or all of them.
#[derive(Drop)]
pub(crate) enum Change {
    Nothing,
    Keys(Vec<Prior>, Vec<Prior>, Box<Waiting>),
    All(Box<Database>),
}

/// How a run is taken back.
#[derive(Drop)]
pub struct Undo {
    pub(crate) change: Change,
}

/// The keys that were due, and how they come back.
#[derive(Drop)]
pub struct Expired {
    pub keys: Words,
    pub undo: Undo,
}

/// What a run with the keys that were due gives.
#[derive(Drop)]
pub struct Turned {
    pub expired: Words,
    pub done: Done,
    pub undo: Undo,
}

impl Database {
    /// No keys; takes no memory yet.
    pub fn new(alloc: Global) -> Database
        ensures { result ≡ finite.empty }
    {
        Database {
            alloc,
            parts: Parts::new(alloc),
        }
    }

    /// The keys that are due, in order of deadline and key.
    pub fn due_keys(&mut self, moment: u64) -> Result<Words, NoMemory>
        ensures keys { IfOk result (AreDue moment self.old) }
        ensures same { self.new ≡ self.old }
    {
        settle(self.alloc, &mut self.parts)?;
        due::due_keys(self.alloc, &self.parts.index, moment)
    }

    /// The keys that are due go, and are answered in order of deadline and key.
    pub fn expire_due(&mut self, moment: u64) -> Result<Expired, NoMemory>
        ensures keys { IfOk result (λ expired. AreDue moment self.old expired.keys) }
        ensures ok { OnOk result (self.new ≡ without_due moment self.old) }
        ensures err { OnErr result (self.new ≡ self.old) }
        ensures undo { IfOk result (λ expired. taken_back expired.undo self.new ≡ self.old) }
    {
        settle(self.alloc, &mut self.parts)?;
        expire(self.alloc, &mut self.parts, moment)
    }

    /// The keys that are due go, and then the data command runs: the reply, the new keyspace and
    /// the keys that changed are those of its row. Where memory runs out, all is as before.
    pub fn run_due(&mut self, command: &Command, moment: u64) -> Result<Turned, NoMemory>
        requires { has_row command.now ≡ true }
        ensures turn { IsTurn (effect command.now (without_due moment self.old) moment)
            result self.old self.new }
        ensures expired { IfOk result (λ turned. AreDue moment self.old turned.expired) }
        ensures undo { IfOk result (λ turned. taken_back turned.undo self.new ≡ self.old) }
    {
        settle(self.alloc, &mut self.parts)?;
        if let Some(keys) = own_keys(command) {
            return run_keys(self.alloc, &mut self.parts, command, moment, keys);
        }
        match keys_written(self.alloc, command)? {
            Written::All => run_flush(self.alloc, &mut self.parts, command, moment),
            Written::Keys(keys) => {
                run_keys(
                    self.alloc,
                    &mut self.parts,
                    command,
                    moment,
                    keys.as_slice(),
                )
            }
        }
    }

    /// Takes a run back, or keys that expired, which takes no memory: where nothing has changed
    /// since then, all keys hold what they held before.
    pub fn undo_due(&mut self, undo: Undo)
        ensures { self.new ≡ taken_back undo self.old }
    {
        match undo.change {
            Change::Nothing => {}
            Change::Keys(kept, due, place) => {
                push_waiting(&mut self.parts.waiting, kept, due, place);
            }
            Change::All(old) => *self = Box::into_inner(old),
        }
    }

    /// The place that a run took along goes to the next one, once the run stands.
    pub fn keep_place(&mut self, undo: Undo)
        ensures { self.new ≡ self.old }
    {
        if let Change::Keys(_kept, _due, place) = undo.change {
            self.parts.place = Some(place);
        }
    }
}
