//! The plans of the commands that are none on data: of a connection alone, and of how it tracks.
ghost use Rattle.std.specs.Prelude.{◌≡◌, ◌<◌, ◌^◌, ℕ, IfOk, Ok, None, true, false};
ghost use Rattle.command_words.specs.declared.command.Command.TheVariants as commands;
ghost use Rattle.command_words.specs.declared.command.SaveMode.{SaveMode};
ghost use Rattle.command_words.specs.Effects.{has_row};
ghost use Rattle.command_words.specs.Space.{Space};
ghost use Rattle.serial_model.specs.History.{served};
ghost use Rattle.serial_model.specs.Modes.{accepted, is_barred};
ghost use Rattle.server_book.specs.Places.{HasNumber};
ghost use Rattle.server_book.specs.Plans.{IsPlanOf, IsQuiet, runner};
ghost use Rattle.server_book.specs.declared.plan.Caller.{Caller};
ghost use Rattle.track_modes.specs.Commands.{allows, changed, ended, fault_at, registers};

use super::deed::Deed;
use super::hello::{blob, greeting, hello};
use super::plan::{Caller, Plan, answered, plan_fault};
use super::subscription::{pong, subscribe_reply, unsubscribe_reply};
use super::tracking_info::{redirect_number, tracking_info};
use command_words::{Command, TrackOptions, WordFault};
use resp_value::{NoMemory, Octets, Proto, Value, Words};
use std::alloc::Global;
use track_modes::{Mode, ModeFault};

// The reply to a command that is accepted.
fn accepted(alloc: Global) -> Result<Value, NoMemory>
    ensures { IfOk result (λ v. v ≡ accepted None) }
{
    Ok(Value::Simple(Octets::from_slice(alloc, b"OK")?))
}

#[tactic(auto, unfolding(track_modes::specs::Commands::fault_at))]
fn plan_ping(by: Caller, mode: &Mode, text: &Option<Octets>) -> Result<Plan, NoMemory>
    ensures { IfOk result (λ p. IsPlanOf p (runner by mode.now) (commands.Ping text.now)) }
{
    Ok(answered(mode, pong(by.alloc, mode, text)?))
}

#[tactic(auto, unfolding(track_modes::specs::Commands::fault_at))]
fn plan_echo(by: Caller, mode: &Mode, text: &Octets) -> Result<Plan, NoMemory>
    ensures { IfOk result (λ p. IsPlanOf p (runner by mode.now) (commands.Echo text.now)) }
{
    Ok(answered(mode, blob(by.alloc, text.as_slice())?))
}

// A command that its mode allows, and that no mode refuses.
#[tactic(auto, unfolding(track_modes::specs::Commands::after_command))]
fn applied(mode: &Mode, command: &Command) -> Result<Mode, NoMemory>
    requires allowed { allows mode.now command.now ≡ true }
    requires accepted { fault_at command.now true mode.now ≡ None }
    requires other { registers command.now ≡ false }
    ensures { IfOk result (λ m. m ≡ ended command.now (changed command.now mode.now)) }
{
    let mut next = mode.copy()?;
    if next.apply(command, true).is_err() {
        unreachable!()
    }
    Ok(next)
}

#[tactic(auto, unfolding(track_modes::specs::Commands::fault_at))]
fn plan_hello(
    by: Caller,
    mode: &Mode,
    command: &Command,
    word: &Option<Octets>,
) -> Result<Plan, NoMemory>
    requires id { by.id < 2 ^ 63 }
    requires allowed { allows mode.now command.now ≡ true }
    requires is { command.now ≡ commands.Hello word.now }
    ensures { IfOk result (λ p. IsPlanOf p (runner by mode.now) command.now) }
{
    let reply = match hello(word, mode.peer().proto) {
        Ok(proto) => greeting(by.alloc, proto, by.id)?,
        Err(text) => Value::Error(Octets::from_slice(by.alloc, text)?),
    };
    let next = applied(mode, command)?;
    Ok(Plan {
        reply: Some(reply),
        proto: next.peer().proto,
        deed: Deed::Become(next),
    })
}

#[tactic(auto, unfolding(track_modes::specs::Commands::fault_at))]
fn plan_subscribe(
    by: Caller,
    mode: &Mode,
    command: &Command,
    channel: &Octets,
) -> Result<Plan, NoMemory>
    requires allowed { allows mode.now command.now ≡ true }
    requires is { command.now ≡ commands.Subscribe channel.now }
    ensures { IfOk result (λ p. IsPlanOf p (runner by mode.now) command.now) }
{
    let reply = subscribe_reply(by.alloc, channel)?;
    let next = applied(mode, command)?;
    Ok(Plan {
        reply: Some(reply),
        proto: next.peer().proto,
        deed: Deed::Become(next),
    })
}

#[tactic(auto, unfolding(track_modes::specs::Commands::fault_at))]
fn plan_unsubscribe(
    by: Caller,
    mode: &Mode,
    command: &Command,
    channel: &Option<Octets>,
) -> Result<Plan, NoMemory>
    requires allowed { allows mode.now command.now ≡ true }
    requires is { command.now ≡ commands.Unsubscribe channel.now }
    ensures { IfOk result (λ p. IsPlanOf p (runner by mode.now) command.now) }
{
    let next = applied(mode, command)?;
    let reply = unsubscribe_reply(by.alloc, channel, mode, next.peer().subscribed)?;
    Ok(Plan {
        reply: Some(reply),
        proto: next.peer().proto,
        deed: Deed::Become(next),
    })
}

// RESET is answered in the protocol of a connection that is new.
#[tactic(auto, unfolding(track_modes::specs::Commands::fault_at))]
fn plan_reset(by: Caller, mode: &Mode) -> Result<Plan, NoMemory>
    ensures { IfOk result (λ p. IsPlanOf p (runner by mode.now) commands.Reset) }
{
    Ok(Plan {
        reply: Some(Value::Simple(Octets::from_slice(by.alloc, b"RESET")?)),
        proto: Proto::Two,
        deed: Deed::Forget(Mode::new(by.alloc)),
    })
}

#[tactic(auto, unfolding(track_modes::specs::Commands::fault_at))]
fn plan_quit(by: Caller, mode: &Mode) -> Result<Plan, NoMemory>
    ensures { IfOk result (λ p. IsPlanOf p (runner by mode.now) commands.Quit) }
{
    Ok(Plan {
        reply: Some(accepted(by.alloc)?),
        proto: mode.peer().proto,
        deed: Deed::Quit,
    })
}

// A SHUTDOWN that stops the server is not answered.
#[tactic(auto, unfolding(track_modes::specs::Commands::fault_at))]
fn plan_shutdown(mode: &Mode) -> Plan
    ensures { (by : Caller) (save : SaveMode)
        → IsPlanOf result (runner by mode.now) (commands.Shutdown save) }
{
    Plan {
        reply: None,
        proto: mode.peer().proto,
        deed: Deed::Shutdown,
    }
}

#[tactic(auto, unfolding(track_modes::specs::Commands::fault_at))]
fn plan_id(by: Caller, mode: &Mode) -> Result<Plan, NoMemory>
    requires { by.id < 2 ^ 63 }
    ensures { IfOk result (λ p. IsPlanOf p (runner by mode.now) commands.ClientId) }
{
    Ok(answered(mode, Value::Number(by.id as i64)))
}

#[tactic(auto, unfolding(track_modes::specs::Commands::fault_at))]
fn plan_tracking(by: Caller, mode: &Mode, options: &TrackOptions) -> Result<Plan, NoMemory>
    ensures { IfOk result (λ p.
        IsPlanOf p (runner by mode.now) (commands.ClientTracking options.now)) }
{
    let mut next = mode.copy()?;
    match next.apply_tracking(options, by.target_exists) {
        Ok(()) => {
            let reply = accepted(by.alloc)?;
            next.spend();
            Ok(Plan {
                reply: Some(reply),
                proto: next.peer().proto,
                deed: if options.on {
                    Deed::Track(next)
                } else {
                    Deed::Forget(next)
                },
            })
        }
        Err(ModeFault::NoMemory) => Err(NoMemory),
        Err(fault) => {
            let text = Octets::from_slice(by.alloc, fault.text())?;
            Ok(answered(mode, Value::Error(text)))
        }
    }
}

#[tactic(auto, unfolding(track_modes::specs::Commands::fault_at))]
fn plan_caching(by: Caller, mode: &Mode, is_yes: bool) -> Result<Plan, NoMemory>
    ensures { IfOk result (λ p.
        IsPlanOf p (runner by mode.now) (commands.ClientCaching is_yes)) }
{
    let mut next = mode.copy()?;
    match next.apply_caching(is_yes) {
        Ok(()) => {
            Ok(Plan {
                reply: Some(accepted(by.alloc)?),
                proto: next.peer().proto,
                deed: Deed::Become(next),
            })
        }
        Err(fault) => {
            let text = Octets::from_slice(by.alloc, fault.text())?;
            Ok(answered(mode, Value::Error(text)))
        }
    }
}

#[tactic(auto, unfolding(track_modes::specs::Commands::fault_at))]
fn plan_getredir(mode: &Mode) -> Plan
    requires { HasNumber mode.now }
    ensures { (by : Caller) → IsPlanOf result (runner by mode.now) commands.ClientGetRedir }
{
    answered(mode, Value::Number(redirect_number(mode)))
}

#[tactic(auto, unfolding(track_modes::specs::Commands::fault_at))]
fn plan_info(by: Caller, mode: &Mode) -> Result<Plan, NoMemory>
    requires { HasNumber mode.now }
    ensures { IfOk result (λ p. IsPlanOf p (runner by mode.now) commands.ClientTrackingInfo) }
{
    let info = tracking_info(by.alloc, by.is_broken, mode)?;
    Ok(answered(mode, info))
}

/// The plan of words that read as a command that is none on data, and that their mode allows.
pub fn plan_command(
    by: Caller,
    mode: &Mode,
    words: &Words,
    command: &Command,
) -> Result<Plan, NoMemory>
    requires id { by.id < 2 ^ 63 }
    requires number { HasNumber mode.now }
    requires other { has_row command.now ≡ false }
    requires allowed { is_barred mode.now (served (Ok command.now)) ≡ false }
    ensures { IfOk result (λ p. (space : Space) (moment : ℕ)
        → IsQuiet p (runner by mode.now) words.now (served (Ok command.now)) space moment) }
{
    match command {
        Command::Ping(text) => plan_ping(by, mode, text),
        Command::Echo(text) => plan_echo(by, mode, text),
        Command::Hello(word) => plan_hello(by, mode, command, word),
        Command::Reset => plan_reset(by, mode),
        Command::Quit => plan_quit(by, mode),
        Command::Shutdown(_) => Ok(plan_shutdown(mode)),
        Command::ClientId => plan_id(by, mode),
        Command::ClientTracking(options) => plan_tracking(by, mode, options),
        Command::ClientCaching(is_yes) => plan_caching(by, mode, *is_yes),
        Command::ClientGetRedir => Ok(plan_getredir(mode)),
        Command::ClientTrackingInfo => plan_info(by, mode),
        Command::Subscribe(channel) => plan_subscribe(by, mode, command, channel),
        Command::Unsubscribe(channel) => plan_unsubscribe(by, mode, command, channel),
        _ => plan_fault(by, mode, words, WordFault::Unknown),
    }
}
