//! Sessions of scripts over a link in memory.
ghost use Rattle.std.specs.Prelude.{◌≡◌, IfOk, length};
ghost use Rattle.std.specs.List.{All};
ghost use Rattle.script_text.specs.Scripts.{IsValidLine, most_threads};

use super::{bytes_of, pair_of, setup_in};
use edge_links::{LinkStep, MemoryLink};
use resp_value::{Octets, Proto, Words};
use script_run::*;
use script_text::{ScriptLine, read_script_line};
use shared_cache::Caching;
use std::alloc::{AllocError, Global};
use std::test::Fail;

/// The steps of a link, as commas part them: waits for so many bytes, and pieces. `both` awaits 100
/// bytes for 10,000,000 reads.
fn steps_of(alloc: Global, text: &str) -> Result<Vec<LinkStep>, AllocError> {
    let mut steps = Vec::new(alloc);
    for word in text.split(',') {
        steps.push(match word {
            "fail" => LinkStep::Fail,
            "both" => LinkStep::Await {
                bytes: 100,
                reads: 10_000_000,
            },
            _ => match word.parse::<u64>() {
                Ok(count) => LinkStep::Wait(count),
                Err(_) => LinkStep::Bytes(bytes_of(alloc, word)?),
            },
        })?;
    }
    Ok(steps)
}

fn lines_of(alloc: Global, text: &str) -> Result<Vec<ScriptLine>, AllocError>
    ensures { IfOk result (λ lines. All IsValidLine lines.items) }
{
    let mut lines = Vec::new(alloc);
    for line in text.split(',') {
        let Ok(Some(line)) = read_script_line(alloc, line.as_bytes()) else {
            return Err(AllocError);
        };
        lines.push(line)?;
    }
    Ok(lines)
}

/// How the server is asked to track: a mode, and prefixes behind `bcast`.
fn caching_of(alloc: Global, text: &str) -> Result<Caching, Fail> {
    let (name, prefixes) = text.split_once(" ").unwrap_or((text, ""));
    Ok(match name {
        "optin" => Caching::OptIn,
        "optout" => Caching::OptOut,
        "bcast" => {
            let mut words = Words::new(alloc);
            for prefix in prefixes.split(' ').filter(|prefix| !prefix.is_empty()) {
                words.push(Octets::from_slice(alloc, prefix.as_bytes())?)?;
            }
            Caching::Bcast(words)
        }
        _ => Caching::Default,
    })
}

/// Scripts, the steps of their links, the most entries, what is printed, how the session ends and
/// the number of its pump's end.
const ROWS: &str = "\
1 ask GET foo,1 ask GET foo = 60,%0;+OK;,82,_;,83 = 100 \
= 1 answer 3 _\\r\\n;2 hit 3 _\\r\\n; = Done 5
1 ask GET foo = 60,$5;hello; = 100 = 1 down; = LinkEnded(Main, 4) 4
1 ask GET foo = 60,%0;+OK;,82 = 100 = 1 down; = LinkEnded(Main, 1) 1
1 ask GET foo = 60,%0;+OK;,82,fail = 100 = 1 down; = LinkEnded(Main, 2) 2
1 ask GET foo = 60,%0;+OK;,82,*x = 100 = 1 down; = LinkEnded(Main, 3) 3
1 do GET a,2 do GET a = 60,%0;+OK;,both,$1;1;$1;1;,101 = 100 \
= 1 answer $1\\r\\n1\\r\\n;2 answer $1\\r\\n1\\r\\n; = Done 5
1 ask GET foo = 60,%0;+OK;,82,_; = 1 = 1 down; = HistoryFull 7";

/// The same in other modes, which come first.
const MODES: &str = "\
bcast a bc = 1 ask GET apple,1 ask GET bcd,1 ask GET bad,1 ask GET apple,1 ask GET bcd,\
1 ask GET bad = 110,%0;+OK;,134,_;,156,_;,178,_;,200,_;,201 = 100 \
= 1 answer 3 _\\r\\n;2 answer 4 _\\r\\n;3 answer 5 _\\r\\n;4 hit 3 _\\r\\n;5 hit 4 _\\r\\n;\
6 answer 6 _\\r\\n; = Done 5
optin = 1 ask GET foo,1 ask GET foo = 71,%0;+OK;,131,+OK;_;,132 = 100 \
= 1 answer 4 _\\r\\n;2 hit 4 _\\r\\n; = Done 5
optout = 1 do GET foo,1 ask GET foo,1 ask GET foo = 72,%0;+OK;,131,+OK;_;,153,_;,154 = 100 \
= 1 answer _\\r\\n;2 answer 5 _\\r\\n;3 hit 5 _\\r\\n; = Done 5
optin = 1 ask GET foo,2 do PING = 71,%0;-ERR no;,72 = 100 = 1 down;2 down; = LinkEnded(Main, 4) 4";

/// Scripts over two links: the protocol, the script, the steps of Side and of Main, what is
/// printed, how the session ends, and the numbers of the ends of Main's pump and of Side's.
const PAIRS: &str = "\
3 = 1 ask GET foo,1 ask GET foo = 46,%0;:7;,47 = 22,%0;,81,+OK;,103,_;,104 \
= 1 answer 3 _\\r\\n;2 hit 3 _\\r\\n; = Done 5 5
2 = 1 ask GET foo,1 ask GET foo \
= 70,:7;*3;$9;subscribe;$20;__redis__:invalidate;:1;,71 = 59,+OK;,81,$-1;,82 \
= 1 answer 2 _\\r\\n;2 hit 2 _\\r\\n; = Done 5 5
3 = 1 ask GET foo,2 do PING = 46,%0; = 22,%0;,30 = 1 down;2 down; = LinkEnded(Side, 1) 5 1
3 = 1 ask GET foo = 46,%0;,fail = 22,%0;,30 = 1 down; = LinkEnded(Side, 2) 5 2
3 = 1 ask GET foo = 46,*x = 22,%0;,30 = 1 down; = LinkEnded(Side, 3) 5 3
3 = 1 ask GET foo = 46,%0;-ERR; = 22,%0;,30 = 1 down; = LinkEnded(Side, 4) 5 4
2 = 1 ask GET foo = 70,:0; = 60 = 1 down; = LinkEnded(Side, 4) 5 4
3 = 1 ask GET foo = 46,%0;:7;,47 = 22,%0;,81,-ERR; = 1 down; = LinkEnded(Main, 4) 4 5
3 = 1 ask GET foo = 46,%0;:7;,47 = 22,%0;,81,+OK;,103 = 1 down; = LinkEnded(Main, 1) 1 5";

/// A text in which each LF is a `;`.
fn shown(alloc: Global, text: &[u8]) -> Result<String, AllocError> {
    let mut printed = String::new(alloc);
    for byte in text {
        printed.push(if *byte == b'\n' {
            ';'
        } else {
            char::from(*byte)
        })?;
    }
    Ok(printed)
}

/// What a session prints, how it ends, and by what number its pump did.
fn told(alloc: Global, played: &mut Played<MemoryLink>) -> Result<(String, String), Fail>
    requires lines { All IsValidLine played.old.lines.items }
    requires answers { length played.old.answers.items ≡ most_threads }
{
    let mut text = Vec::new(alloc);
    let main = played.main.end;
    let side = played.side_end();
    let end = report(
        played.lines.as_slice(),
        &mut played.answers,
        main,
        side,
        &mut text,
    )?;
    let number = main.number();
    let end = match side {
        None => format!(in alloc; "{end:?} {number}")?,
        Some(side) => {
            let other = side.number();
            format!(in alloc; "{end:?} {number} {other}")?
        }
    };
    Ok((shown(alloc, text.as_slice())?, end))
}

/// The same of a script over a link that steps so.
fn said<R: std::thread::Threads + std::sync::Wait + Sync>(
    rt: &R,
    alloc: Global,
    caching: Caching,
    script: &str,
    steps: &str,
    log_max: u64,
) -> Result<(String, String), Fail> {
    let lines = lines_of(alloc, script)?;
    let link = MemoryLink::new(alloc, 1000, steps_of(alloc, steps)?)?;
    let setup = setup_in(caching, false, log_max);
    let mut played = play_script(rt, alloc, setup, lines, link, None)?;
    told(alloc, &mut played)
}

/// The same over two links.
fn said_by_pair<R: std::thread::Threads + std::sync::Wait + Sync>(
    rt: &R,
    alloc: Global,
    proto: Proto,
    script: &str,
    side: &str,
    main: &str,
) -> Result<(String, String), Fail> {
    let lines = lines_of(alloc, script)?;
    let side = MemoryLink::new(alloc, 1000, steps_of(alloc, side)?)?;
    let main = MemoryLink::new(alloc, 1000, steps_of(alloc, main)?)?;
    let mut played = play_script(rt, alloc, pair_of(proto), lines, main, Some(side))?;
    told(alloc, &mut played)
}

#[test]
fn a_session_over_two_links_tells_which_of_them_ended(rt: HostRuntime) -> Result<(), Fail> {
    for row in PAIRS.lines() {
        let mut parts = row.split(" = ");
        let proto = match parts.next() {
            Some("2") => Proto::Two,
            _ => Proto::Three,
        };
        let script = parts.next().unwrap_or("");
        let side = parts.next().unwrap_or("");
        let main = parts.next().unwrap_or("");
        let want = parts.next().unwrap_or("");
        let end = parts.next().unwrap_or("");
        let came = said_by_pair(&rt, rt.alloc(), proto, script, side, main)?;
        assert!(rt; came.0.as_str() == want, "{row}: {}", came.0);
        assert!(rt; came.1.as_str() == end, "{row}: {}", came.1);
    }
    Ok(())
}

/// Whether the script of a row comes to what stands there.
fn is_played<R: std::thread::Threads + std::sync::Wait + Sync>(
    rt: &R,
    alloc: Global,
    mode: &str,
    row: &str,
) -> Result<bool, Fail> {
    let mut parts = row.split(" = ");
    let script = parts.next().unwrap_or("");
    let steps = parts.next().unwrap_or("");
    let most = parts.next().unwrap_or("").parse::<u64>().unwrap_or(0);
    let want = parts.next().unwrap_or("");
    let end = parts.next().unwrap_or("");
    let came = said(rt, alloc, caching_of(alloc, mode)?, script, steps, most)?;
    Ok(came.0.as_str() == want && came.1.as_str() == end)
}

#[test]
fn a_session_prints_what_its_lines_came_to(rt: HostRuntime) -> Result<(), Fail> {
    for row in ROWS.lines() {
        assert!(rt; is_played(&rt, rt.alloc(), "default", row)?, "{row}");
    }
    Ok(())
}

#[test]
fn a_session_caches_as_its_mode_says(rt: HostRuntime) -> Result<(), Fail> {
    for row in MODES.lines() {
        let (mode, row) = row.split_once(" = ").unwrap_or((row, ""));
        assert!(rt; is_played(&rt, rt.alloc(), mode, row)?, "{mode}: {row}");
    }
    Ok(())
}
