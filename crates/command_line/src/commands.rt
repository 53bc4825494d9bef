//! The commands, by their options, and what they ask for.
ghost use Rattle.std.specs.Prelude.{◌≡◌, List, IfOk, map, string_bytes, codes};
ghost use Rattle.std.specs.Prelude.{[], option_map, false};
ghost use Rattle.clap.specs.Words.{found_of, first_value};
ghost use Rattle.command_line.specs.Clap.{Adds, AddsAll, HasOptions, flags_in};
ghost use Rattle.command_line.specs.Commands.{asked_of, caching_of, command_of, limits_from};
ghost use Rattle.command_line.specs.Commands.{connection_in, connection_of};
ghost use Rattle.command_line.specs.Commands.{prefix_of, proto_of, script_from, script_of};
ghost use Rattle.command_line.specs.Commands.{script_options, serve_from, serve_of, serve_options};
ghost use Rattle.command_line.specs.Commands.{storm_from, storm_of, storm_options, world_of};
ghost use Rattle.command_line.specs.Commands.{limit_options, world_options};
ghost use Rattle.command_line.specs.Options.{flag, valued};

use super::options::{has_flag, read_number_in, read_options, read_port};
use super::settings::{
    Asked, Caching, Connection, LimitSettings, ScriptSettings, ServeSettings, StormSettings, Text,
};
use clap::{Arg, ArgAction, ArgMatches, Command};
use resp_value::{NoMemory, Proto};
use std::alloc::{AllocError, Global};

/// What the words behind the program's name ask for: None exactly where they are outside the
/// definition.
pub fn read_words(alloc: Global, words: &[String]) -> Result<Option<Asked>, NoMemory>
    ensures { IfOk result (λ asked. asked ≡ command_of (map string_bytes words.now)) }
{
    let [name, rest @ ..] = words else {
        return Ok(None);
    };
    read_command(alloc, name.as_str(), rest)
}

/// What the words behind a command's name ask for.
fn read_command(alloc: Global, name: &str, words: &[String]) -> Result<Option<Asked>, NoMemory>
    ensures { IfOk result (λ asked. asked ≡ asked_of name.now (map string_bytes words.now)) }
{
    match name {
        "world" => Ok(read_world(alloc, words)?.map(Asked::World)),
        "storm" => Ok(read_storm(alloc, words)?.map(Asked::Storm)),
        "serve" => Ok(read_serve(alloc, words)?.map(Asked::Serve)),
        "script" => Ok(read_script(alloc, words)?.map(Asked::Script)),
        _ => Ok(None),
    }
}

/// A command with no options yet, whose words come without the program's name, and no `--help`.
fn bare_command<'a>(alloc: Global, name: &'a str) -> Command<'a>
    ensures { HasOptions name.entry.now [] result }
{
    Command::new(alloc, name)
        .no_binary_name(true)
        .disable_help_flag(true)
}

fn with_option<'a>(
    alloc: Global,
    command: Command<'a>,
    name: &'a str,
    is_required: bool,
) -> Result<Command<'a>, AllocError>
    ensures { Adds (valued name.entry.now is_required) command.entry result }
{
    let option = Arg::new(alloc, name)
        .long(name)
        .required(is_required)
        .action(ArgAction::Set);
    command.arg(option)
}

fn with_flag<'a>(
    alloc: Global,
    command: Command<'a>,
    name: &'a str,
) -> Result<Command<'a>, AllocError>
    ensures { Adds (flag name.entry.now) command.entry result }
{
    let flag = Arg::new(alloc, name).long(name).action(ArgAction::SetTrue);
    command.arg(flag)
}

fn world_command<'a>(alloc: Global) -> Result<Command<'a>, AllocError>
    ensures { IfOk result (HasOptions (codes "world") world_options) }
{
    with_limits(alloc, bare_command(alloc, "world"))
}

/// The three limits of a server's state.
fn with_limits<'a>(alloc: Global, command: Command<'a>) -> Result<Command<'a>, AllocError>
    ensures { AddsAll limit_options command.entry result }
{
    let command = with_option(alloc, command, "table-max", false)?;
    let command = with_option(alloc, command, "out-max", false)?;
    with_option(alloc, command, "history-max", false)
}

fn storm_command<'a>(alloc: Global) -> Result<Command<'a>, AllocError>
    ensures { IfOk result (HasOptions (codes "storm") storm_options) }
{
    let command = bare_command(alloc, "storm");
    let command = with_option(alloc, command, "number", true)?;
    with_option(alloc, command, "steps", true)
}

fn serve_command<'a>(alloc: Global) -> Result<Command<'a>, AllocError>
    ensures { IfOk result (HasOptions (codes "serve") serve_options) }
{
    let command = bare_command(alloc, "serve");
    let command = with_option(alloc, command, "port", true)?;
    let command = with_option(alloc, command, "workers", false)?;
    let command = with_option(alloc, command, "connections", false)?;
    with_limits(alloc, command)
}

fn script_command<'a>(alloc: Global) -> Result<Command<'a>, AllocError>
    ensures { IfOk result (HasOptions (codes "script") script_options) }
{
    let command = bare_command(alloc, "script");
    let command = with_option(alloc, command, "connect", true)?;
    let command = with_option(alloc, command, "resp", false)?;
    let command = with_option(alloc, command, "mode", false)?;
    let command = with_option(alloc, command, "prefix", false)?;
    let command = with_option(alloc, command, "capacity", false)?;
    let command = with_flag(alloc, command, "noloop")?;
    with_flag(alloc, command, "redirect")
}

fn read_world(alloc: Global, words: &[String]) -> Result<Option<LimitSettings>, NoMemory>
    ensures { IfOk result (λ o. o ≡ world_of (map string_bytes words.now)) }
{
    match read_options(world_command(alloc)?, words)? {
        Some(matches) => limit_settings(alloc, &matches, 4_000_000),
        None => Ok(None),
    }
}

fn read_storm(alloc: Global, words: &[String]) -> Result<Option<StormSettings>, NoMemory>
    ensures { IfOk result (λ o. o ≡ storm_of (map string_bytes words.now)) }
{
    match read_options(storm_command(alloc)?, words)? {
        Some(matches) => storm_settings(alloc, &matches),
        None => Ok(None),
    }
}

fn read_serve(alloc: Global, words: &[String]) -> Result<Option<ServeSettings>, NoMemory>
    ensures { IfOk result (λ o. o ≡ serve_of (map string_bytes words.now)) }
{
    match read_options(serve_command(alloc)?, words)? {
        Some(matches) => serve_settings(alloc, &matches),
        None => Ok(None),
    }
}

fn read_script(alloc: Global, words: &[String]) -> Result<Option<ScriptSettings>, NoMemory>
    ensures { IfOk result (λ o. o ≡ script_of (map string_bytes words.now)) }
{
    match read_options(script_command(alloc)?, words)? {
        Some(matches) => script_settings(alloc, &matches),
        None => Ok(None),
    }
}

/// The greatest limit of a server's state.
const LIMIT_MAX: u64 = 4_000_000_000;

// Of the history this many entries are kept, unless it is said.
fn limit_settings(
    alloc: Global,
    matches: &ArgMatches<'_>,
    kept: u64,
) -> Result<Option<LimitSettings>, NoMemory>
    ensures { IfOk result (λ o. o ≡ limits_from kept (first_value (found_of matches.now))) }
{
    let table = matches.get_str("table-max");
    let Some(table_max) = read_number_in(alloc, table, 1, LIMIT_MAX, Some(1_000_000))? else {
        return Ok(None);
    };
    let out = matches.get_str("out-max");
    let Some(out_max) = read_number_in(alloc, out, 1, LIMIT_MAX, Some(8_388_608))? else {
        return Ok(None);
    };
    let history = matches.get_str("history-max");
    let Some(history_max) = read_number_in(alloc, history, 1, LIMIT_MAX, Some(kept))? else {
        return Ok(None);
    };
    Ok(Some(LimitSettings {
        table_max,
        out_max,
        history_max,
    }))
}

fn storm_settings(
    alloc: Global,
    matches: &ArgMatches<'_>,
) -> Result<Option<StormSettings>, NoMemory>
    ensures { IfOk result (λ o. o ≡ storm_from (first_value (found_of matches.now))) }
{
    let Some(number) = read_number_in(alloc, matches.get_str("number"), 0, u64::MAX, None)? else {
        return Ok(None);
    };
    let Some(steps) = read_number_in(alloc, matches.get_str("steps"), 0, 200_000, None)? else {
        return Ok(None);
    };
    Ok(Some(StormSettings { number, steps }))
}

fn serve_settings(
    alloc: Global,
    matches: &ArgMatches<'_>,
) -> Result<Option<ServeSettings>, NoMemory>
    ensures { IfOk result (λ o. o ≡ serve_from (first_value (found_of matches.now))) }
{
    let Some(port) = read_port(alloc, matches.get_str("port"))? else {
        return Ok(None);
    };
    let Some(workers) = read_number_in(alloc, matches.get_str("workers"), 1, 64, Some(4))? else {
        return Ok(None);
    };
    let connections = matches.get_str("connections");
    let Some(connections) = read_number_in(alloc, connections, 0, 1_000_000, Some(0))? else {
        return Ok(None);
    };
    let Some(limits) = limit_settings(alloc, matches, 1)? else {
        return Ok(None);
    };
    Ok(Some(ServeSettings {
        port,
        workers,
        connections,
        limits,
    }))
}

fn script_settings(
    alloc: Global,
    matches: &ArgMatches<'_>,
) -> Result<Option<ScriptSettings>, NoMemory>
    ensures { IfOk result
        (λ o. o ≡ script_from (first_value (found_of matches.now)) (flags_in matches.now)) }
{
    let Some(connect) = read_connection(alloc, matches.get_str("connect"))? else {
        return Ok(None);
    };
    let Some(resp) = read_proto(matches.get_str("resp")) else {
        return Ok(None);
    };
    let Some(caching) = read_caching(matches.get_str("mode")) else {
        return Ok(None);
    };
    let Some(prefix) = read_prefix(alloc, matches.get_str("prefix"))? else {
        return Ok(None);
    };
    let capacity = matches.get_str("capacity");
    let Some(capacity) = read_number_in(alloc, capacity, 1, 1_000_000, Some(1024))? else {
        return Ok(None);
    };
    let noloop = has_flag(matches, "noloop");
    let redirect = has_flag(matches, "redirect");
    // RESP2 has no push messages, so the invalidations need a link of their own.
    if resp == Proto::Two && !redirect {
        return Ok(None);
    }
    if prefix.is_some() && caching != Caching::Bcast {
        return Ok(None);
    }
    Ok(Some(ScriptSettings {
        connect,
        resp,
        caching,
        prefix,
        capacity,
        noloop,
        redirect,
    }))
}

fn read_connection(alloc: Global, text: Option<&str>) -> Result<Option<Connection>, NoMemory>
    ensures { IfOk result (λ o. o ≡ connection_of (option_map (λ t. t.now) text.entry)) }
{
    match text {
        Some(text) => connection_in(alloc, text),
        None => Ok(None),
    }
}

/// HOST:PORT, where HOST comes before the last colon and is not empty.
fn connection_in(alloc: Global, text: &str) -> Result<Option<Connection>, NoMemory>
    ensures { IfOk result (λ o. o ≡ connection_in text.now) }
{
    let Some((host, port)) = text.rsplit_once(':') else {
        return Ok(None);
    };
    if host.is_empty() {
        return Ok(None);
    }
    let Some(port) = read_port(alloc, Some(port))? else {
        return Ok(None);
    };
    let host = Text::copy_of(alloc, host)?;
    Ok(Some(Connection { host, port }))
}

fn read_proto(text: Option<&str>) -> Option<Proto>
    ensures { result ≡ proto_of (option_map (λ t. t.now) text.entry) }
{
    match text {
        None => Some(Proto::Three),
        Some("2") => Some(Proto::Two),
        Some("3") => Some(Proto::Three),
        Some(_) => None,
    }
}

fn read_caching(text: Option<&str>) -> Option<Caching>
    ensures { result ≡ caching_of (option_map (λ t. t.now) text.entry) }
{
    match text {
        None => Some(Caching::Default),
        Some("default") => Some(Caching::Default),
        Some("optin") => Some(Caching::OptIn),
        Some("optout") => Some(Caching::OptOut),
        Some("bcast") => Some(Caching::Bcast),
        Some(_) => None,
    }
}

/// The prefix that was written, if one was: None where it is empty.
fn read_prefix(alloc: Global, text: Option<&str>) -> Result<Option<Option<Text>>, NoMemory>
    ensures { IfOk result (λ o. o ≡ prefix_of (option_map (λ t. t.now) text.entry)) }
{
    match text {
        None => Ok(Some(None)),
        Some("") => Ok(None),
        Some(text) => Ok(Some(Some(Text::copy_of(alloc, text)?))),
    }
}
