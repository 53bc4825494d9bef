//! What a request does: to the keyspace, and what is planned of its reply, whom it tells and what
//! it makes of its connection.
ghost use Rattle.std.specs.Prelude.{◌≡◌, ◌<◌, ◌^◌, IfOk, OnOk, OnErr, Result, Ok, Err, List, []};
ghost use Rattle.std.specs.Prelude.{ℕ, true, false, if◌then◌else◌, codes, is_some};
ghost use Rattle.command_words.specs.declared.command.WordFault.{WordFault};
ghost use Rattle.command_words.specs.Effects.{has_row};
ghost use Rattle.command_words.specs.Expiry.{without_due};
ghost use Rattle.command_words.specs.Queries.{read};
ghost use Rattle.command_words.specs.Space.{Space};
ghost use Rattle.command_words.specs.Reading.{IsReading};
ghost use Rattle.command_words.specs.Words.{reading};
ghost use Rattle.command_words.specs.declared.command.Command.{Command};
ghost use Rattle.command_set.specs.Runs.{taken_back};
ghost use Rattle.resp_value.specs.declared.value.Value.TheVariants.{Error};
ghost use Rattle.serial_model.specs.Deadlines.{due_keys};
ghost use Rattle.serial_model.specs.EntryEffects.{command_of};
ghost use Rattle.serial_model.specs.History.{is_served, served};
ghost use Rattle.server_book.specs.Places.{HasNumber};
ghost use Rattle.server_book.specs.Plans.{IsQuiet, LeavesKeys, answered, deed_for, runner};
ghost use Rattle.server_book.specs.Plans.{runs_row};
ghost use Rattle.server_book.specs.Played.{HasRow, IsPlayed};
ghost use Rattle.track_modes.specs.ModeState.{ModeState, remembers_read};

use super::connection_plan::plan_command;
use super::deed::Deed;
use command_set::{Database, Expired, Turned, Undo, has_row};
use command_words::{Command, Signalled, WordFault, fault_text, keys_read};
use resp_value::{NoMemory, Octets, Proto, Value, Words};
use std::alloc::Global;
use track_modes::Mode;

#[derive(Drop)]
pub struct Plan {
    /// There is none where the server stops.
    pub reply: Option<Value>,
    /// The protocol that the reply is spelled in.
    pub proto: Proto,
    pub deed: Deed,
}

/// The connection that runs a request.
#[derive(Clone, Copy)]
pub struct Caller {
    pub alloc: Global,
    pub id: u64,
    /// Its redirection is broken, where the request asks.
    pub is_broken: bool,
    /// The connection that the request names as the target of a redirection has not ended.
    pub target_exists: bool,
}

/// What was played of a request: the keys that were due and left, the plan of the rest, and how the
/// keyspace is put back.
#[derive(Drop)]
pub struct Played {
    pub expired: Words,
    pub plan: Plan,
    pub undo: Undo,
}

/// Plays a request on a keyspace at a moment: the keys that are due leave, and then its command
/// runs. Where memory runs out the keyspace is as before.
pub fn play(
    space: &mut Database,
    by: Caller,
    mode: &Mode,
    words: &Words,
    read: &Result<Command, WordFault>,
    moment: u64,
) -> Result<Played, NoMemory>
    requires id { by.id < 2 ^ 63 }
    requires number { HasNumber mode.now }
    requires reading { read.now ≡ reading words.now }
    ensures { IsPlayed (runner by mode.now) words.now moment result space.old space.new }
{
    if let Ok(command) = read {
        if has_row(command) && mode.allows(command) {
            return play_data(space, by, mode, command, moment);
        }
    }
    match plan_words(by, mode, words, read) {
        Ok(plan) => play_expiry(space, plan, moment),
        Err(_) => Err(NoMemory),
    }
}

// The plan of words that are no data command, or that their mode does not allow.
fn plan_words(
    by: Caller,
    mode: &Mode,
    words: &Words,
    read: &Result<Command, WordFault>,
) -> Result<Plan, NoMemory>
    requires id { by.id < 2 ^ 63 }
    requires number { HasNumber mode.now }
    requires reading { read.now ≡ reading words.now }
    requires other { runs_row mode.now read.now ≡ false }
    ensures { IfOk result (λ p. (space : Space) (moment : ℕ)
        → LeavesKeys p (runner by mode.now) words.now space moment) }
{
    match read {
        Ok(command) => {
            if is_served(command) && !mode.allows(command) {
                plan_barred(by, mode)
            } else {
                plan_command(by, mode, words, command)
            }
        }
        Err(fault) => plan_fault(by, mode, words, *fault),
    }
}

// The keys that are due leave, beside a plan that does not concern the keyspace.
fn play_expiry(space: &mut Database, plan: Plan, moment: u64) -> Result<Played, NoMemory>
    ensures plan { IfOk result (λ p. p.plan ≡ plan) }
    ensures left { OnOk result (space.new ≡ without_due moment space.old) }
    ensures expired { IfOk result (λ p. p.expired ≡ due_keys moment space.old) }
    ensures undo { IfOk result (λ p. taken_back p.undo space.new ≡ space.old) }
    ensures err { OnErr result (space.new ≡ space.old) }
{
    let Expired { keys, undo } = space.expire_due(moment)?;
    Ok(Played {
        expired: keys,
        plan,
        undo,
    })
}

/// Whether the command is served.
pub fn is_served(command: &Command) -> bool
    ensures { result ≡ is_served command.now }
{
    match command {
        Command::Ping(_)
        | Command::Echo(_)
        | Command::Hello(_)
        | Command::Reset
        | Command::Quit
        | Command::Shutdown(_)
        | Command::ClientId
        | Command::ClientTracking(_)
        | Command::ClientCaching(_)
        | Command::ClientGetRedir
        | Command::ClientTrackingInfo
        | Command::Subscribe(_)
        | Command::Unsubscribe(_) => true,
        _ => has_row(command),
    }
}

/// Whether words that read so run as a command of this mode.
pub fn runs(mode: &Mode, read: &Result<Command, WordFault>) -> bool
    ensures { result ≡ is_some (command_of mode.now (served read.now)) }
{
    match read {
        Ok(command) => is_served(command) && mode.allows(command),
        Err(_) => false,
    }
}

/// The command that ran, of words that read so, where they run as one.
pub fn command_of(read: Result<Command, WordFault>, runs: bool) -> Option<Command>
    ensures { (mode : ModeState) → runs ≡ is_some (command_of mode (served read))
        → result ≡ command_of mode (served read) }
{
    match read {
        Ok(command) => { if runs { Some(command) } else { None } }
        Err(_) => None,
    }
}

// The keys that a command's connection remembers by it, where it signals none.
fn reads_of(alloc: Global, mode: &Mode, command: &Command) -> Result<Words, NoMemory>
    ensures { IfOk result (λ w. w ≡ if remembers_read mode.now then read command.now else []) }
{
    if mode.remembers_read() {
        keys_read(alloc, command)
    } else {
        Ok(Words::new(alloc))
    }
}

// What a command does that signals this, and reads these keys.
fn deed_of(mode: &Mode, reads: Words, signalled: Signalled) -> Deed
    ensures { result ≡ deed_for (remembers_read mode.now) reads signalled }
{
    match signalled {
        Signalled::Keys(keys) => {
            if !keys.as_slice().is_empty() {
                Deed::Tell(keys)
            } else if mode.remembers_read() {
                Deed::Remember(reads)
            } else {
                Deed::Nothing
            }
        }
        Signalled::All => Deed::TellAll,
    }
}

// A data command runs, once the keys that are due have left.
fn play_data(
    space: &mut Database,
    by: Caller,
    mode: &Mode,
    command: &Command,
    moment: u64,
) -> Result<Played, NoMemory>
    requires row { has_row command.now ≡ true }
    ensures played { IfOk result (λ p.
        HasRow (runner by mode.now) command.now moment p space.old space.new) }
    ensures err { OnErr result (space.new ≡ space.old) }
{
    let reads = reads_of(by.alloc, mode, command)?;
    let Turned {
        expired,
        done,
        undo,
    } = match space.run_due(command, moment) {
        Ok(turned) => turned,
        Err(_) => return Err(NoMemory),
    };
    let deed = deed_of(mode, reads, done.signalled);
    let plan = Plan {
        reply: Some(done.reply),
        proto: mode.peer().proto,
        deed,
    };
    Ok(Played {
        expired,
        plan,
        undo,
    })
}

// A command that its mode does not allow is refused.
fn plan_barred(by: Caller, mode: &Mode) -> Result<Plan, NoMemory>
    ensures { IfOk result (λ p. p
        ≡ answered mode.now (Error (codes "ERR not allowed while subscribed"))) }
{
    let text = Octets::from_slice(by.alloc, b"ERR not allowed while subscribed")?;
    Ok(answered(mode, Value::Error(text)))
}

/// A command is answered, and does no more.
pub fn answered(mode: &Mode, reply: Value) -> Plan
    ensures { result ≡ answered mode.now reply }
{
    Plan {
        reply: Some(reply),
        proto: mode.peer().proto,
        deed: Deed::Nothing,
    }
}

/// The plan of words that are no command that is served.
pub fn plan_fault(
    by: Caller,
    mode: &Mode,
    words: &Words,
    fault: WordFault,
) -> Result<Plan, NoMemory>
    ensures { IfOk result (λ p.
        (read : Result Command WordFault) (space : Space) (moment : ℕ)
        → IsReading (Err fault) read
        → IsQuiet p (runner by mode.now) words.now read space moment) }
{
    match fault {
        WordFault::NoMemory => Err(NoMemory),
        _ => {
            let reply = Value::Error(fault_text(by.alloc, words, fault)?);
            Ok(answered(mode, reply))
        }
    }
}
