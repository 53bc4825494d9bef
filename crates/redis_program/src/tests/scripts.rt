//! Scripts over a link in memory that answers as a server would.
use super::super::dispatch::{Outcome, run};
use super::super::progress::Terminal;
use super::super::script_fault::find_script_fault;
use super::{text_bytes, words_of};
use edge_links::{
    Dialled, FixedClock, LinkStep, ListedNet, MemoryLink, MemorySink, MemorySource, Net,
};
use std::alloc::{AllocError, Global};
use std::sync::Wait;
use std::test::Fail;
use std::thread::Threads;

/// A text in which `;` stands for the end of a line of the protocol.
fn bytes_of(alloc: Global, text: &str) -> Result<Vec<u8>, AllocError> {
    let mut bytes = Vec::new(alloc);
    for byte in text.bytes() {
        match byte {
            b';' => bytes.extend_from_slice(b"\r\n")?,
            _ => bytes.push(byte)?,
        }
    }
    Ok(bytes)
}

/// The steps of a link, as commas part them: waits for so many bytes, a failure, and pieces. `both`
/// awaits 100 bytes for 10,000,000 reads, `double` is a value that is not served, and `greeting` is
/// what a server answers to the handshake.
fn steps_of(alloc: Global, text: &str) -> Result<Vec<LinkStep>, AllocError> {
    let mut steps = Vec::new(alloc);
    for word in text.split(',') {
        steps.push(match word {
            "fail" => LinkStep::Fail,
            "both" => LinkStep::Await {
                bytes: 100,
                reads: 10_000_000,
            },
            "double" => LinkStep::Bytes(bytes_of(alloc, ",1;")?),
            "greeting" => LinkStep::Bytes(bytes_of(alloc, GREETING)?),
            _ => match word.parse::<u64>() {
                Ok(count) => LinkStep::Wait(count),
                Err(_) => LinkStep::Bytes(bytes_of(alloc, word)?),
            },
        })?;
    }
    Ok(steps)
}

const GREETING: &str = "%7;$6;server;$5;redis;$7;version;$5;7.0.0;$5;proto;:3;$2;id;:1;$4;mode;\
    $10;standalone;$4;role;$6;master;$7;modules;*0;+OK;";

/// A net where the host `cache:a` gives a link at port 7 with these steps, and another behind each
/// ` | `, in the order of dialling; where they are `none` the dial fails.
fn net_with(alloc: Global, links: &str) -> Result<ListedNet, AllocError> {
    let mut dials = Vec::new(alloc);
    for steps in links.split(" | ") {
        let link = match steps {
            "none" => None,
            _ => match MemoryLink::new(alloc, 1000, steps_of(alloc, steps)?) {
                Ok(link) => Some(link),
                Err(_) => return Err(AllocError),
            },
        };
        let mut host = String::new(alloc);
        host.push_str("cache:a")?;
        dials.push(Dialled {
            host,
            port: 7,
            link,
        })?;
    }
    Ok(ListedNet::new(Vec::new(alloc), dials))
}

/// A script whose lines commas part here.
fn source_of(alloc: Global, script: &str) -> Result<MemorySource, AllocError> {
    let mut bytes = text_bytes(alloc, script)?;
    for byte in bytes.as_mut_slice() {
        if *byte == b',' {
            *byte = b'\n';
        }
    }
    Ok(MemorySource::new(bytes, Vec::new(alloc)))
}

/// What a run came to: its status, what it printed, and what it wrote to each of its links:
/// `none` where there is no such link.
#[derive(Drop)]
struct Came {
    status: u8,
    printed: String,
    main: String,
    side: String,
}

/// A text in which `;` stands for the end of a line.
fn told(alloc: Global, bytes: &[u8]) -> Result<String, AllocError> {
    let mut text = String::new(alloc);
    for byte in bytes {
        match *byte {
            b'\r' => {}
            b'\n' => text.push(';')?,
            byte => text.push(char::from(byte))?,
        }
    }
    Ok(text)
}

/// What a run wrote to its links.
fn sent_of(alloc: Global, outcome: &Outcome<ListedNet>) -> Result<(String, String), AllocError> {
    let Some(session) = &outcome.session else {
        return Ok((told(alloc, b"none")?, told(alloc, b"none")?));
    };
    let side = match &session.side {
        Some(side) => side.link.bytes(),
        None => b"none",
    };
    Ok((told(alloc, session.main.link.bytes())?, told(alloc, side)?))
}

/// The number of the status of a run and what it sent, once the rest is let go of.
fn reached_by<R: Threads + Wait + Terminal + Sync>(
    rt: &R,
    alloc: Global,
    words: &[String],
    source: &mut MemorySource,
    sink: &mut MemorySink,
    net: &mut ListedNet,
) -> (u8, Result<(String, String), AllocError>) {
    let clock = FixedClock { ms: 0 };
    let outcome = run(rt, alloc, words, source, sink, net, &clock);
    let sent = sent_of(alloc, &outcome);
    (outcome.status.number(), sent)
}

fn play<R: Threads + Wait + Terminal + Sync>(
    rt: &R,
    alloc: Global,
    options: &str,
    script: &str,
    net: &mut ListedNet,
) -> Result<Came, Fail> {
    let line = format!(in alloc; "script {options}")?;
    let words = words_of(alloc, line.as_str())?;
    let mut source = source_of(alloc, script)?;
    let mut sink = MemorySink::new(alloc, 1000, Vec::new(alloc))?;
    let (status, sent) = reached_by(rt, alloc, words.as_slice(), &mut source, &mut sink, net);
    let (main, side) = sent?;
    Ok(Came {
        status,
        printed: told(alloc, sink.bytes())?,
        main,
        side,
    })
}

/// HELLO, and CLIENT TRACKING up to ON, as they are told.
const HANDSHAKE: usize = 48;

/// What was sent on a link behind the handshake: `nothing` where that is no byte.
fn behind(sent: &str) -> &str {
    match sent {
        "none" => sent,
        _ => match sent.get(HANDSHAKE..).unwrap_or("") {
            "" => "nothing",
            words => words,
        },
    }
}

/// Options, a script, the steps of its link, the status, what is printed, and what is sent behind
/// the first words of the handshake, CLIENT TRACKING ON.
const ROWS: &str = "\
--connect cache:a:7 = 1 ask GET foo,1 ask GET foo = 60,%0;+OK;,82,_;,83 = 0 \
= 1 answer 3 _\\r\\n;2 hit 3 _\\r\\n; = *2;$3;GET;$3;foo;
--connect cache:a:7 = 1 do SET a 1,1 ask GET a = 60,%0;+OK;,87,+OK;,107,$1;1;,108 = 0 \
= 1 answer +OK\\r\\n;2 answer 4 $1\\r\\n1\\r\\n; = *3;$3;SET;$1;a;$1;1;*2;$3;GET;$1;a;
--connect cache:a:7 = 1 ask GET a,1 do PING,1 ask GET a \
= 60,%0;+OK;,80,$1;1;,94,>2;$10;invalidate;*1;$1;a;+PONG;,114,$1;2;,115 = 0 \
= 1 answer 3 $1\\r\\n1\\r\\n;2 answer +PONG\\r\\n;3 answer 5 $1\\r\\n2\\r\\n; \
= *2;$3;GET;$1;a;*1;$4;PING;*2;$3;GET;$1;a;
--connect=cache:a:7 --capacity=1 = 1 ask GET a,1 ask GET b,1 ask GET a \
= 60,%0;+OK;,80,_;,100,_;,120,_;,121 = 0 \
= 1 answer 3 _\\r\\n;2 answer 4 _\\r\\n;3 answer 5 _\\r\\n; \
= *2;$3;GET;$1;a;*2;$3;GET;$1;b;*2;$3;GET;$1;a;
--connect cache:a:7 = 1 do GET a,2 do GET a = 60,%0;+OK;,both,$1;1;$1;1;,101 = 0 \
= 1 answer $1\\r\\n1\\r\\n;2 answer $1\\r\\n1\\r\\n; = *2;$3;GET;$1;a;*2;$3;GET;$1;a;
--connect cache:a:7 = 1 ask GET foo,1 ask GET foo = 60,%0;+OK;,82 = 8 \
= 1 down;2 down;link-ended main 1; = *2;$3;GET;$3;foo;
--connect cache:a:7 = 1 ask GET foo = 60,%0;+OK;,82,fail = 8 = 1 down;link-ended main 2; \
= *2;$3;GET;$3;foo;
--connect cache:a:7 = 1 ask GET foo = 60,%0;+OK;,82,*x = 8 = 1 down;link-ended main 3; \
= *2;$3;GET;$3;foo;
--connect cache:a:7 = 1 ask GET foo = 60,$5;hello; = 8 = 1 down;link-ended main 4; = nothing
--connect cache:a:7 = 1 ask GET foo =  = 8 = 1 down;link-ended main 1; = nothing
--connect cache:a:7 = 1 ask GET foo = fail = 8 = 1 down;link-ended main 2; = nothing
--connect cache:a:7 = 1 ask GET foo = 60,double = 8 = 1 down;link-ended main 3; = nothing
--connect cache:a:7 = 1 ask GET foo = 60,:1; = 8 = 1 down;link-ended main 4; = nothing
--connect cache:a:7 = 1 ask GET foo = 60,greeting,82,>1;$10;invalidate; = 8 \
= 1 down;link-ended main 4; = *2;$3;GET;$3;foo;
--connect cache:a:7 = 1 ask GET foo = none = 6 = net-fault; = none
--connect cache:7 = 1 ask GET foo = 60,%0;+OK;,82,_;,83 = 6 = net-fault; = none
--connect cache:a:8 = 1 ask GET foo = 60,%0;+OK;,82,_;,83 = 6 = net-fault; = none
--connect cache:a:7 = 1 do SET a 1,9 ask GET a = 60,%0;+OK;,87,+OK;,88 = 3 = bad-line 2; = none
--connect cache:a:7 = 1 do SET a 1,1 ask SET a 1 = 60,%0;+OK;,87,+OK;,88 = 3 = bad-line 2; = none
--connect cache:a:7 = 1 do SET a 1,1 do HELLO 3 = 60,%0;+OK;,87,+OK;,88 = 3 = bad-line 2; = none
--connect cache:a:7 --mode optin = 1 ask GET foo,1 ask GET foo = 71,%0;+OK;,131,+OK;_;,132 = 0 \
= 1 answer 4 _\\r\\n;2 hit 4 _\\r\\n; \
= $5;OPTIN;*3;$6;CLIENT;$7;CACHING;$3;YES;*2;$3;GET;$3;foo;
--connect cache:a:7 --mode=optout = 1 do GET foo,1 ask GET foo \
= 72,%0;+OK;,131,+OK;_;,153,_;,154 = 0 = 1 answer _\\r\\n;2 answer 5 _\\r\\n; \
= $6;OPTOUT;*3;$6;CLIENT;$7;CACHING;$2;NO;*2;$3;GET;$3;foo;*2;$3;GET;$3;foo;
--connect cache:a:7 --mode bcast = 1 ask GET foo,1 ask GET foo = 71,%0;+OK;,93,_;,94 = 0 \
= 1 answer 3 _\\r\\n;2 hit 3 _\\r\\n; = $5;BCAST;*2;$3;GET;$3;foo;
--prefix f --mode bcast --noloop --connect cache:a:7 = 1 ask GET foo,1 ask GET foo,1 ask GET bar,\
1 ask GET bar = 102,%0;+OK;,124,_;,146,_;,168,_;,169 = 0 = 1 answer 3 _\\r\\n;2 hit 3 _\\r\\n;\
3 answer 4 _\\r\\n;4 answer 5 _\\r\\n; = $5;BCAST;$6;PREFIX;$1;f;$6;NOLOOP;\
*2;$3;GET;$3;foo;*2;$3;GET;$3;bar;*2;$3;GET;$3;bar;
--connect cache:a:7 --resp 3 --noloop = 1 do SET a 1 = 72,%0;+OK;,99,+OK;,100 = 0 \
= 1 answer +OK\\r\\n; = $6;NOLOOP;*3;$3;SET;$1;a;$1;1;
--connect cache:a:7 --mode optin = 1 ask GET foo,2 do PING = 71,%0;-ERR no;,72 = 8 \
= 1 down;2 down;link-ended main 4; = $5;OPTIN;
--connect cache:a:7 --resp 2 = 1 do SET a 1 = 60,%0;+OK;,87,+OK;,88 = 2 = usage; = none
--connect cache:a:7 --prefix a = 1 do SET a 1 = 60,%0;+OK;,87,+OK;,88 = 2 = usage; = none
--connect cache:a:7 --mode bcast --prefix= = 1 do SET a 1 = 71,%0;+OK; = 2 = usage; = none
--capacity 5 = 1 do SET a 1 = 60,%0;+OK;,87,+OK;,88 = 2 = usage; = none";

#[test]
fn a_script_is_played_once_over_the_link_that_its_words_name(rt: HostRuntime) -> Result<(), Fail> {
    let alloc = rt.alloc();
    for row in ROWS.lines() {
        let mut parts = row.split(" = ");
        let options = parts.next().unwrap_or("");
        let script = parts.next().unwrap_or("");
        let mut net = net_with(alloc, parts.next().unwrap_or(""))?;
        let status = parts.next().unwrap_or("").parse::<u8>().unwrap_or(1);
        let printed = parts.next().unwrap_or("");
        let came = play(&rt, alloc, options, script, &mut net)?;
        assert!(rt; came.status == status, "{row}: {}", came.status);
        assert!(rt; came.printed.as_str() == printed, "{row}: {}", came.printed);
        let sent = parts.next().unwrap_or("");
        assert!(rt; behind(came.main.as_str()) == sent, "{row}: {}", came.main);
        assert!(rt; came.side.as_str() == "none", "{row}");
        // What is not played has dialled nothing.
        let is_there = net.dial("cache:a", 7).is_ok();
        assert!(rt; is_there == (status == 2 || status == 3), "{row}");
    }
    Ok(())
}

/// Options, a script, the steps of Side and of Main, the status, what is printed, and all that is
/// sent on Main and on Side.
const PAIRS: &str = "\
--redirect --connect cache:a:7 = 1 ask GET foo,1 ask GET foo \
= 46,%0;:7;,47 | 22,%0;,81,+OK;,103,_;,104 = 0 = 1 answer 3 _\\r\\n;2 hit 3 _\\r\\n; \
= *2;$5;HELLO;$1;3;*5;$6;CLIENT;$8;TRACKING;$2;ON;$8;REDIRECT;$1;7;*2;$3;GET;$3;foo; \
= *2;$5;HELLO;$1;3;*2;$6;CLIENT;$2;ID;
--connect cache:a:7 --resp 2 --redirect = 1 ask GET foo,1 ask GET foo \
= 70,:7;*3;$9;subscribe;$20;__redis__:invalidate;:1;,71 | 59,+OK;,81,$-1;,82 = 0 \
= 1 answer 2 _\\r\\n;2 hit 2 _\\r\\n; \
= *5;$6;CLIENT;$8;TRACKING;$2;ON;$8;REDIRECT;$1;7;*2;$3;GET;$3;foo; \
= *2;$6;CLIENT;$2;ID;*2;$9;SUBSCRIBE;$20;__redis__:invalidate;
--connect cache:a:7 --redirect --resp=3 --mode bcast --prefix f --noloop = 1 ask GET bar \
= 46,%0;:7;,47 | 22,%0;,123,+OK;,145,_;,146 = 0 = 1 answer 3 _\\r\\n; \
= *2;$5;HELLO;$1;3;*9;$6;CLIENT;$8;TRACKING;$2;ON;$8;REDIRECT;$1;7;$5;BCAST;$6;PREFIX;$1;f;\
$6;NOLOOP;*2;$3;GET;$3;bar; = *2;$5;HELLO;$1;3;*2;$6;CLIENT;$2;ID;
--connect cache:a:7 --redirect = 1 ask GET foo,2 do PING = 46,%0; | 22,%0;,30 = 8 \
= 1 down;2 down;link-ended side 1; = *2;$5;HELLO;$1;3; = *2;$5;HELLO;$1;3;*2;$6;CLIENT;$2;ID;
--connect cache:a:7 --redirect = 1 ask GET foo = 46,%0;:7;,47 | 22,%0;,81,-ERR; = 8 \
= 1 down;link-ended main 4; = *2;$5;HELLO;$1;3;*5;$6;CLIENT;$8;TRACKING;$2;ON;$8;REDIRECT;$1;7; \
= *2;$5;HELLO;$1;3;*2;$6;CLIENT;$2;ID;
--connect cache:a:7 --redirect = 1 ask GET foo = 46,%0;:7;,47 | none = 6 = net-fault; = none = none
--connect cache:a:7 --redirect = 1 ask GET foo = none | none = 6 = net-fault; = none = none";

#[test]
fn with_redirect_a_script_is_played_over_two_links(rt: HostRuntime) -> Result<(), Fail> {
    let alloc = rt.alloc();
    for row in PAIRS.lines() {
        let mut parts = row.split(" = ");
        let options = parts.next().unwrap_or("");
        let script = parts.next().unwrap_or("");
        let mut net = net_with(alloc, parts.next().unwrap_or(""))?;
        let status = parts.next().unwrap_or("").parse::<u8>().unwrap_or(1);
        let printed = parts.next().unwrap_or("");
        let came = play(&rt, alloc, options, script, &mut net)?;
        assert!(rt; came.status == status, "{row}: {}", came.status);
        assert!(rt; came.printed.as_str() == printed, "{row}: {}", came.printed);
        let main = parts.next().unwrap_or("");
        assert!(rt; came.main.as_str() == main, "{row}: {}", came.main);
        let side = parts.next().unwrap_or("");
        assert!(rt; came.side.as_str() == side, "{row}: {}", came.side);
    }
    Ok(())
}

#[test]
fn a_net_that_gives_no_second_link_is_not_asked_for_a_first(rt: HostRuntime) -> Result<(), Fail> {
    let alloc = rt.alloc();
    let mut net = net_with(alloc, "none | 60")?;
    let came = play(
        &rt,
        alloc,
        "--connect cache:a:7 --redirect",
        "1 do PING",
        &mut net,
    )?;
    assert_eq!(rt; came.status, 6);
    assert!(rt; net.dial("cache:a", 7).is_ok());
    Ok(())
}

#[test]
fn a_script_of_no_lines_prints_nothing(rt: HostRuntime) -> Result<(), Fail> {
    let alloc = rt.alloc();
    let mut net = net_with(alloc, "60,%0;+OK;,61")?;
    let came = play(&rt, alloc, "--connect cache:a:7", "", &mut net)?;
    assert_eq!(rt; came.status, 0);
    assert!(rt; came.main.as_str() != "none");
    assert!(rt; came.printed.is_empty());
    Ok(())
}

#[test]
fn a_person_is_told_what_is_wrong_with_a_line_of_a_script(rt: HostRuntime) -> Result<(), Fail> {
    let alloc = rt.alloc();
    for (line, wanted) in [
        ("", "it is empty, and a script has no empty lines"),
        ("# first", "a script has no comments"),
        (
            "1 do PING\r",
            "it ends in a carriage return, and lines end in a line feed alone",
        ),
        ("1  do PING", "one space, and no more, parts its words"),
        ("9 do PING", "`9` is no thread, which is a number of 1 to 8"),
        ("raw r", "`raw` is no thread, which is a number of 1 to 8"),
        (
            "1 say PING",
            "`say` is no kind of line; kinds are ask and do",
        ),
        (
            "1 ask SET foo bar",
            "its form is `N ask WORD..`, the words of a query that the cache may hold, as \
             1 ask GET foo",
        ),
        (
            "1 do HELLO 3",
            "its form is `N do WORD..`, each word in its printed form, and the command none that \
             sets a connection up, as HELLO does",
        ),
    ] {
        let fault = find_script_fault(1, line.as_bytes());
        let told = format!(in alloc; "{fault}")?;
        assert!(rt; told.as_str() == wanted, "{line}: {told}");
    }
    Ok(())
}
