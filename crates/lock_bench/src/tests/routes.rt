//! Routes and messages against worked examples.
ghost use Rattle.redirect.specs.Messages.{HasMessage};

use command_words::read_command;
use redirect::{Route, invalidation, is_broken, notice, route};
use resp_value::{NoMemory, Octets, Proto, Value, Words, put_value};
use std::alloc::Global;
use std::test::Fail;
use track_modes::{Mode, Peer};

fn words_of(alloc: Global, line: &str) -> Result<Words, NoMemory> {
    let mut words = Words::new(alloc);
    for word in line.split(' ') {
        words.push(Octets::from_slice(alloc, word.as_bytes())?)?;
    }
    Ok(words)
}

// The mode of a connection that ran these commands.
fn mode_after(alloc: Global, commands: &str) -> Result<Mode, NoMemory> {
    let mut mode = Mode::new(alloc);
    for line in commands.split(", ") {
        if let Ok(command) = read_command(alloc, &words_of(alloc, line)?) {
            let _ = mode.apply(&command, true);
        }
    }
    Ok(mode)
}

fn peer_after(alloc: Global, commands: &str) -> Result<Option<Peer>, NoMemory> {
    if commands == "ended" {
        return Ok(None);
    }
    Ok(Some(mode_after(alloc, commands)?.peer()))
}

// Where a message for connection 1 goes.
fn line_of(mode: &Mode, target: Option<Peer>) -> &'static str {
    match (route(mode, 1, target), is_broken(mode, target)) {
        (Route::Push(1), false) => "push to 1",
        (Route::Push(2), false) => "push to 2",
        (Route::Message(2), false) => "message to 2",
        (Route::BrokenNotice(1), true) => "notice to 1",
        (Route::Nowhere, false) => "nowhere",
        (Route::Nowhere, true) => "nowhere, broken",
        _ => "another",
    }
}

// What connection 1 ran; what connection 2 ran, or that it has ended; where a message goes.
const ROUTES: &str = "\
HELLO 3, CLIENT TRACKING ON; PING: push to 1
CLIENT TRACKING ON; HELLO 3: nowhere
CLIENT TRACKING ON REDIRECT 2; HELLO 3: push to 2
HELLO 3, CLIENT TRACKING ON REDIRECT 2; HELLO 3: push to 2
CLIENT TRACKING ON REDIRECT 2; SUBSCRIBE __redis__:invalidate: message to 2
HELLO 3, CLIENT TRACKING ON REDIRECT 2; SUBSCRIBE __redis__:invalidate: message to 2
HELLO 3, CLIENT TRACKING ON REDIRECT 2; PING: nowhere
HELLO 3, CLIENT TRACKING ON REDIRECT 2; ended: notice to 1
CLIENT TRACKING ON REDIRECT 2; ended: nowhere, broken
HELLO 3, CLIENT TRACKING ON; ended: push to 1
HELLO 3; ended: nowhere";

fn goes_so(alloc: Global, row: &str) -> Result<bool, NoMemory> {
    let Some((ran, wanted)) = row.split_once(": ") else {
        return Ok(false);
    };
    let Some((own, other)) = ran.split_once("; ") else {
        return Ok(false);
    };
    let mode = mode_after(alloc, own)?;
    let target = peer_after(alloc, other)?;
    Ok(line_of(&mode, target) == wanted)
}

#[test]
fn a_message_goes_where_the_two_connections_say(rt: HostRuntime) -> Result<(), Fail> {
    for row in ROUTES.lines() {
        assert!(rt; goes_so(rt.alloc(), row)?, "{row}");
    }
    Ok(())
}

fn spelled(alloc: Global, proto: Proto, value: &Value) -> Result<Vec<u8>, NoMemory> {
    let mut out = Vec::new(alloc);
    put_value(proto, value, &mut out)?;
    Ok(out)
}

/// The invalidation of these keys on that route.
fn told(alloc: Global, proto: Proto, route: Route, keys: Option<&str>) -> Result<Vec<u8>, NoMemory>
    requires { HasMessage route }
{
    let value = match keys {
        Some(line) => invalidation(alloc, &route, Some(&words_of(alloc, line)?))?,
        None => invalidation(alloc, &route, None)?,
    };
    spelled(alloc, proto, &value)
}

#[test]
fn an_invalidation_is_a_push(rt: HostRuntime) -> Result<(), Fail> {
    let bytes = told(rt.alloc(), Proto::Three, Route::Push(7), Some("foo1 foo2"))?;
    let wanted = ">2\r\n$10\r\ninvalidate\r\n*2\r\n$4\r\nfoo1\r\n$4\r\nfoo2\r\n";
    assert_eq!(rt; bytes.as_slice(), wanted.as_bytes());
    Ok(())
}

#[test]
fn an_invalidation_is_a_message_of_the_channel(rt: HostRuntime) -> Result<(), Fail> {
    let bytes = told(rt.alloc(), Proto::Two, Route::Message(7), Some("foo1 foo2"))?;
    let wanted = "*3\r\n$7\r\nmessage\r\n$20\r\n__redis__:invalidate\r\n\
*2\r\n$4\r\nfoo1\r\n$4\r\nfoo2\r\n";
    assert_eq!(rt; bytes.as_slice(), wanted.as_bytes());
    Ok(())
}

#[test]
fn a_flush_names_null(rt: HostRuntime) -> Result<(), Fail> {
    let bytes = told(rt.alloc(), Proto::Three, Route::Push(7), None)?;
    let wanted = ">2\r\n$10\r\ninvalidate\r\n_\r\n";
    assert_eq!(rt; bytes.as_slice(), wanted.as_bytes());
    let bytes = told(rt.alloc(), Proto::Two, Route::Message(7), None)?;
    let wanted = "*3\r\n$7\r\nmessage\r\n$20\r\n__redis__:invalidate\r\n$-1\r\n";
    assert_eq!(rt; bytes.as_slice(), wanted.as_bytes());
    Ok(())
}

#[test]
fn a_notice_names_the_connection_that_has_ended(rt: HostRuntime) -> Result<(), Fail> {
    let value = notice(rt.alloc(), 1)?;
    let bytes = spelled(rt.alloc(), Proto::Three, &value)?;
    let wanted = ">2\r\n$21\r\ntracking-redir-broken\r\n:1\r\n";
    assert_eq!(rt; bytes.as_slice(), wanted.as_bytes());
    Ok(())
}
