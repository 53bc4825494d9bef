//! What the command of an effect makes of its connection.
ghost use Rattle.std.specs.Prelude.{◌≡◌, ◌<◌, ◌^◌, IfOk, IfSome, Some, true, Ok};
ghost use Rattle.track_modes.specs.Commands.{allows};
ghost use Rattle.serial_model.specs.Modes.{Stays, ending_of, own_effect, refused_effect, target_of};
ghost use Rattle.past_effects.specs.Made.{IsKept, IsOwn, command_on, ending_by, is_target};
ghost use Rattle.past_effects.specs.Made.{causes_of, own_by, runner_by};
ghost use Rattle.past_effects.specs.Seen.{HasNumber, mode_at, on_at};

use super::connection::Causes;
use super::connections::Connections;
use command_words::{Command, keys_read};
use resp_value::{NoMemory, Words};
use serial_model::Effect;
use std::alloc::Global;
use track_modes::{Mode, ModeFault};

/// What is kept for the connection: it remembers these keys too; the prefixes of its mode are
/// registered; or nothing is kept.
#[derive(Drop)]
pub enum Kept {
    Remembers(Words),
    Registers,
    Forgets,
}

/// The mode that a command leaves, what is then kept for its connection, and whether that quits by
/// it, or all end.
#[derive(Drop)]
pub struct Own {
    pub mode: Mode,
    pub kept: Kept,
    pub quits: bool,
    pub stops: bool,
}

impl Own {
    /// Whom it ends, with this limit of untaken output.
    pub fn causes(&self, id: u64, out_max: u64) -> Causes
        ensures { result ≡ causes_of self.now id out_max }
    {
        Causes {
            quitter: if self.quits { Some(id) } else { None },
            stops: self.stops,
            out_max,
        }
    }
}

// Whether the connection that the command names as the target of a redirection has not ended.
fn has_target(connections: &Connections, command: &Command) -> bool
    ensures target { result ≡ is_target (on_at connections.now) (target_of (Ok command.now)) }
    ensures number { result ≡ true → IfSome (target_of (Ok command.now)) (λ r. r < 2 ^ 63) }
{
    match command {
        Command::ClientTracking(options) => {
            if options.on {
                match options.redirect {
                    Some(target) => connections.is_live(target),
                    None => true,
                }
            } else {
                true
            }
        }
        _ => true,
    }
}

// What is kept for a connection by a command that its mode allows and does not refuse.
fn kept_by(alloc: Global, mode: &Mode, command: &Command) -> Result<Kept, NoMemory>
    ensures { IfOk result (λ k. IsKept k command.now mode.now) }
{
    match command {
        Command::ClientTracking(options) => {
            if options.on {
                Ok(Kept::Registers)
            } else {
                Ok(Kept::Forgets)
            }
        }
        Command::Reset => Ok(Kept::Forgets),
        _ => {
            if mode.remembers_read() {
                Ok(Kept::Remembers(keys_read(alloc, command)?))
            } else {
                Ok(Kept::Remembers(Words::new(alloc)))
            }
        }
    }
}

// Where no command runs what CLIENT CACHING said ends, and that is all.
fn own_refused(alloc: Global, mode: Mode) -> Own
    requires { HasNumber mode }
    ensures own { IsOwn result (refused_effect mode) Stays }
    ensures number { HasNumber result.mode }
{
    let mut mode = mode;
    mode.spend();
    Own {
        mode,
        kept: Kept::Remembers(Words::new(alloc)),
        quits: false,
        stops: false,
    }
}

// Of a command that the mode allows.
#[tactic(auto, unfolding(track_modes::specs::Commands::after_command))]
fn own_ran(
    alloc: Global,
    connections: &Connections,
    id: u64,
    mode: &Mode,
    command: &Command,
) -> Result<Own, NoMemory>
    requires number { HasNumber mode.now }
    requires allowed { allows mode.now command.now ≡ true }
    ensures own { IfOk result (λ o.
        let by = runner_by id mode.now (on_at connections.now) (Some command.now) in
        IsOwn o (own_effect (Ok command.now) by) (ending_of (Ok command.now))) }
    ensures number { IfOk result (λ o. HasNumber o.mode) }
{
    let mut after = mode.copy()?;
    let kept = match after.apply(command, has_target(connections, command)) {
        Ok(()) => kept_by(alloc, mode, command)?,
        Err(ModeFault::NoMemory) => return Err(NoMemory),
        Err(_) => Kept::Remembers(Words::new(alloc)),
    };
    Ok(Own {
        mode: after,
        kept,
        quits: matches!(command, Command::Quit),
        stops: matches!(command, Command::Shutdown(_)),
    })
}

/// What the command of an effect makes of its connection. One that the mode does not allow, or of a
/// connection that has ended, is as none.
pub fn own_effect(
    alloc: Global,
    connections: &Connections,
    effect: &Effect,
) -> Result<Own, NoMemory>
    ensures own { IfOk result (λ o.
        let id = effect.now.id in
        let mode = mode_at connections.now id in
        let command = command_on (on_at connections.now id) effect.now.command in
        let by = runner_by id mode (on_at connections.now) command in
        IsOwn o (own_by command by) (ending_by command mode)) }
    ensures number { IfOk result (λ o. HasNumber o.mode) }
{
    let mode = connections.mode(effect.id)?;
    match &effect.command {
        Some(command) => {
            if connections.is_live(effect.id) && mode.allows(command) {
                own_ran(alloc, connections, effect.id, &mode, command)
            } else {
                Ok(own_refused(alloc, mode))
            }
        }
        None => Ok(own_refused(alloc, mode)),
    }
}
