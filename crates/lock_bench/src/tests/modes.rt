//! Commands of one connection against worked rows.
use command_words::read_command;
use resp_value::{NoMemory, Octets, Words};
use std::alloc::Global;
use std::test::Fail;
use track_modes::{Mode, ModeFault};

// The words of a command, which spaces part here; '' stands for the empty word. CLIENT is left out.
fn words_of(alloc: Global, command: &str) -> Result<Words, NoMemory> {
    let mut words = Words::new(alloc);
    if command.starts_with("tracking") || command.starts_with("caching") {
        words.push(Octets::from_slice(alloc, b"client")?)?;
    }
    for word in command.split(' ') {
        let text = if word == "''" { "" } else { word };
        words.push(Octets::from_slice(alloc, text.as_bytes())?)?;
    }
    Ok(words)
}

// Runs the commands, which commas part here, and gives what the mode answers to the last of them.
// No connection has the id 9.
fn run(alloc: Global, mode: &mut Mode, commands: &str) -> Result<&'static [u8], Fail> {
    let mut answer: &'static [u8] = b"";
    for command in commands.split(", ") {
        let command = read_command(alloc, &words_of(alloc, command)?)?;
        answer = match mode.apply(&command, !commands.contains("redirect 9")) {
            Ok(()) => b"OK",
            Err(fault) => fault.text(),
        };
    }
    Ok(answer)
}

fn answers(alloc: Global, table: &str) -> Result<bool, Fail> {
    for line in table.split('\n') {
        if let Some((commands, want)) = line.split_once(": ") {
            let mut mode = Mode::new(alloc);
            if run(alloc, &mut mode, commands)? != want.as_bytes() {
                return Ok(false);
            }
        }
    }
    Ok(true)
}

fn put_word(shown: &mut Vec<u8>, word: &[u8]) -> Result<(), NoMemory> {
    if !shown.is_empty() {
        shown.push(b' ')?;
    }
    shown.extend_from_slice(word)?;
    Ok(())
}

// The flags, the prefixes, each behind a slash, and whether a read is remembered.
fn show(alloc: Global, mode: &Mode, is_broken: bool) -> Result<Vec<u8>, NoMemory> {
    let mut shown = Vec::new(alloc);
    for flag in mode.flags(is_broken)?.as_slice() {
        put_word(&mut shown, flag.as_slice())?;
    }
    for prefix in mode.tracking().prefixes() {
        put_word(&mut shown, b"/")?;
        shown.extend_from_slice(prefix.as_slice())?;
    }
    if mode.remembers_read() {
        put_word(&mut shown, b"remembers")?;
    }
    Ok(shown)
}

fn leaves(alloc: Global, table: &str) -> Result<bool, Fail> {
    for line in table.split('\n') {
        if let Some((commands, want)) = line.split_once(": ") {
            let mut mode = Mode::new(alloc);
            run(alloc, &mut mode, commands)?;
            if show(alloc, &mode, false)?.as_slice() != want.as_bytes() {
                return Ok(false);
            }
        }
    }
    Ok(true)
}

// Each fault alone, and beside those next to it in the order, where they can stand together.
const REFUSED: &str = "\
tracking on redirect 9: ERR no such client to redirect to
tracking on redirect 9 prefix a: ERR no such client to redirect to
tracking on prefix a: ERR PREFIX needs BCAST
tracking on bcast, tracking on prefix a: ERR PREFIX needs BCAST
tracking on, tracking on bcast: ERR BCAST can't be switched while tracking is on
tracking on bcast, tracking on: ERR BCAST can't be switched while tracking is on
tracking on bcast, tracking on optin optout: ERR BCAST can't be switched while tracking is on
tracking on optin optout: ERR OPTIN and OPTOUT exclude each other
tracking on optin, tracking on optin optout: ERR OPTIN and OPTOUT exclude each other
tracking on bcast optin optout: ERR OPTIN and OPTOUT exclude each other
tracking on bcast optin: ERR OPTIN and OPTOUT are not for BCAST
tracking on bcast optout: ERR OPTIN and OPTOUT are not for BCAST
tracking on bcast optin prefix a prefix a: ERR OPTIN and OPTOUT are not for BCAST
tracking on optin, tracking on optout: ERR OPTIN and OPTOUT can't be switched while tracking is on
tracking on optout, tracking on optin: ERR OPTIN and OPTOUT can't be switched while tracking is on
tracking on bcast prefix a prefix a: ERR prefixes must not overlap
tracking on bcast, tracking on bcast prefix a: ERR prefixes must not overlap
caching yes: ERR CLIENT CACHING needs OPTIN or OPTOUT
tracking on, caching no: ERR CLIENT CACHING needs OPTIN or OPTOUT
tracking on bcast, caching yes: ERR CLIENT CACHING needs OPTIN or OPTOUT
tracking on optout, caching yes: ERR CLIENT CACHING YES needs OPTIN
tracking on optin, caching no: ERR CLIENT CACHING NO needs OPTOUT";

#[test]
fn the_first_fault_in_the_order_is_answered(rt: HostRuntime) -> Result<(), Fail> {
    assert!(rt; answers(rt.alloc(), REFUSED)?);
    Ok(())
}

// The empty prefix, "a", "ab" and "b" in either order, in one command and in two.
const OVERLAPS: &str = "\
tracking on bcast prefix '' prefix a: ERR prefixes must not overlap
tracking on bcast prefix '' prefix ab: ERR prefixes must not overlap
tracking on bcast prefix '' prefix b: ERR prefixes must not overlap
tracking on bcast prefix a prefix '': ERR prefixes must not overlap
tracking on bcast prefix a prefix ab: ERR prefixes must not overlap
tracking on bcast prefix a prefix b: OK
tracking on bcast prefix ab prefix '': ERR prefixes must not overlap
tracking on bcast prefix ab prefix a: ERR prefixes must not overlap
tracking on bcast prefix ab prefix b: OK
tracking on bcast prefix b prefix '': ERR prefixes must not overlap
tracking on bcast prefix b prefix a: OK
tracking on bcast prefix b prefix ab: OK
tracking on bcast prefix '', tracking on bcast prefix a: ERR prefixes must not overlap
tracking on bcast prefix '', tracking on bcast prefix ab: ERR prefixes must not overlap
tracking on bcast prefix '', tracking on bcast prefix b: ERR prefixes must not overlap
tracking on bcast prefix a, tracking on bcast prefix '': ERR prefixes must not overlap
tracking on bcast prefix a, tracking on bcast prefix ab: ERR prefixes must not overlap
tracking on bcast prefix a, tracking on bcast prefix b: OK
tracking on bcast prefix ab, tracking on bcast prefix '': ERR prefixes must not overlap
tracking on bcast prefix ab, tracking on bcast prefix a: ERR prefixes must not overlap
tracking on bcast prefix ab, tracking on bcast prefix b: OK
tracking on bcast prefix b, tracking on bcast prefix '': ERR prefixes must not overlap
tracking on bcast prefix b, tracking on bcast prefix a: OK
tracking on bcast prefix b, tracking on bcast prefix ab: OK";

#[test]
fn one_prefix_that_starts_with_another_overlaps_it(rt: HostRuntime) -> Result<(), Fail> {
    assert!(rt; answers(rt.alloc(), OVERLAPS)?);
    Ok(())
}

const ACCEPTED: &str = "\
tracking on redirect 1: OK
tracking off redirect 9 prefix a optin optout: OK
tracking on optin optin noloop noloop: OK
tracking on optin, tracking on, tracking on optout: OK
tracking on bcast prefix a prefix b: OK
tracking on bcast prefix a, tracking on bcast: OK
tracking on bcast prefix a, tracking off, tracking on bcast prefix ab: OK
tracking on bcast prefix a, reset, tracking on: OK
tracking on optin, caching yes: OK
tracking on optout, caching no: OK
subscribe __redis__:invalidate, caching yes: OK
hello 3, subscribe __redis__:invalidate, caching yes: ERR CLIENT CACHING needs OPTIN or OPTOUT";

#[test]
fn commands_that_no_rule_refuses_are_accepted(rt: HostRuntime) -> Result<(), Fail> {
    assert!(rt; answers(rt.alloc(), ACCEPTED)?);
    Ok(())
}

const LEFT: &str = "\
ping: off
tracking on: on remembers
tracking on noloop: on noloop remembers
tracking on optin: on optin
tracking on optin, caching yes: on optin caching-yes remembers
tracking on optin, caching yes, ping: on optin
tracking on optin, caching yes, caching no: on optin
tracking on optin, caching yes, caching yes: on optin caching-yes remembers
tracking on optin, caching yes, tracking on redirect 9: on optin
tracking on optout: on optout remembers
tracking on optout, caching no: on optout caching-no
tracking on optout, caching no, get a: on optout remembers
tracking on optin noloop, tracking on: on remembers
tracking on bcast noloop: on bcast noloop /
tracking on bcast prefix c prefix a, tracking on bcast prefix b: on bcast /a /b /c
tracking on bcast prefix a, tracking on bcast: on bcast / /a
tracking on bcast, tracking on bcast: on bcast /
tracking on bcast prefix a, tracking on bcast prefix aa prefix c: on bcast /a
tracking on bcast prefix a, tracking off, tracking on bcast prefix b: on bcast /b
tracking on optin, tracking off: off
tracking on, reset: off
tracking on, subscribe __redis__:invalidate, tracking off: on remembers
tracking on, subscribe __redis__:invalidate, unsubscribe, tracking off: off";

#[test]
fn a_mode_is_what_the_commands_leave_of_it(rt: HostRuntime) -> Result<(), Fail> {
    assert!(rt; leaves(rt.alloc(), LEFT)?);
    Ok(())
}

#[test]
fn a_broken_redirection_is_told_while_tracking_is_on(rt: HostRuntime) -> Result<(), Fail> {
    let mut mode = Mode::new(rt.alloc());
    run(rt.alloc(), &mut mode, "tracking on redirect 1 noloop")?;
    let shown = show(rt.alloc(), &mode, true)?;
    assert_eq!(rt;
        shown.as_slice(),
        b"on noloop broken_redirect remembers".as_slice()
    );
    run(rt.alloc(), &mut mode, "tracking off")?;
    assert_eq!(rt;
        show(rt.alloc(), &mode, true)?.as_slice(),
        b"off".as_slice()
    );
    Ok(())
}

#[test]
fn an_overlap_names_the_prefix_before_it(rt: HostRuntime) -> Result<(), Fail> {
    let mut mode = Mode::new(rt.alloc());
    run(
        rt.alloc(),
        &mut mode,
        "tracking on bcast prefix b prefix cc",
    )?;
    let words = words_of(rt.alloc(), "tracking on bcast prefix a prefix c prefix bb")?;
    let command = read_command(rt.alloc(), &words)?;
    match mode.apply(&command, true) {
        Err(ModeFault::Overlap { old }) => assert_eq!(rt; old.as_slice(), b"cc".as_slice()),
        _ => assert!(rt; false),
    }
    Ok(())
}
