//! The program over streams in memory, against worked examples.
mod scripts;

use super::dispatch::run;
use super::line_fault::{find_line_fault, find_refusal};
use super::progress::Terminal;
use super::status::Status;
use edge_links::{
    AcceptStep, FixedClock, LinkStep, ListedNet, Listening, MemoryAcceptor, MemoryLink, MemoryNet,
    MemorySink, MemorySource, Sink, Source, SourceRead, Wrote,
};
use std::alloc::{AllocError, Global};
use std::cell::Cell;
use std::sync::Wait;
use std::test::Fail;
use std::thread::Threads;

fn text_bytes(alloc: Global, text: &str) -> Result<Vec<u8>, AllocError> {
    let mut bytes = Vec::new(alloc);
    bytes.extend_from_slice(text.as_bytes())?;
    Ok(bytes)
}

/// The words of a command line, which spaces part here.
fn words_of(alloc: Global, line: &str) -> Result<Vec<String>, AllocError> {
    let mut words = Vec::new(alloc);
    for word in line.split(' ') {
        if !word.is_empty() {
            let mut text = String::new(alloc);
            text.push_str(word)?;
            words.push(text)?;
        }
    }
    Ok(words)
}

/// The status of a run over no net, once the rest of its outcome is let go of.
fn status_of<R: Threads + Wait + Terminal + Sync, S: Source, K: Sink>(
    rt: &R,
    alloc: Global,
    words: &[String],
    source: &mut S,
    sink: &mut K,
) -> Status {
    let clock = FixedClock { ms: 0 };
    let net = &mut MemoryNet::new();
    run(rt, alloc, words, source, sink, net, &clock).status
}

const SET_AND_GET: &str = "raw r\nsay r SET foo bar\nsay r GET foo\nsay r GET nope\nflow r\n";

const SET_AND_GET_WRITTEN: &str =
    "#1 admit r 1\n#2 run r SET foo bar\n#3 run r GET foo\n#4 run r GET nope\n#5 take r 19\n\
     r < +OK\\r\\n$3\\r\\nbar\\r\\n$-1\\r\\n\n";

#[test]
fn a_run_writes_the_transcript_and_the_last_line_of_its_status(
    rt: HostRuntime,
) -> Result<(), Fail> {
    for (words, input, status, written) in [
        ("world", "", Status::Done, ""),
        ("world", SET_AND_GET, Status::Done, SET_AND_GET_WRITTEN),
        ("world", "raw r", Status::Done, "#1 admit r 1\n"),
        ("world", "raw r\nflow r", Status::Done, "#1 admit r 1\n"),
        ("", "raw r\n", Status::Usage, "usage\n"),
        ("worlds", "raw r\n", Status::Usage, "usage\n"),
        ("World", "raw r\n", Status::Usage, "usage\n"),
        ("world world", "raw r\n", Status::Usage, "usage\n"),
        ("world --table-max 0", "raw r\n", Status::Usage, "usage\n"),
        ("world --out-max=0", "raw r\n", Status::Usage, "usage\n"),
        (
            "world --history-max 05",
            "raw r\n",
            Status::Usage,
            "usage\n",
        ),
        ("storm --steps 1", "", Status::Usage, "usage\n"),
        (
            "storm --number 1 --steps 200001",
            "",
            Status::Usage,
            "usage\n",
        ),
        (
            "storm --number 1 --steps 0",
            "raw r\n",
            Status::Done,
            "steps 0\nentries 24\nhits 0\nmisses 0\nheld 0\n",
        ),
        (
            "storm --number 0 --steps 1",
            "",
            Status::Done,
            "steps 1\nentries 24\nhits 0\nmisses 0\nheld 0\n",
        ),
        ("serve --port 0", "", Status::Usage, "usage\n"),
        (
            "serve --port 7000 --table-max 5",
            "",
            Status::NetFault,
            "net-fault\n",
        ),
        (
            "serve --port 7000 --out-max 5",
            "",
            Status::NetFault,
            "net-fault\n",
        ),
        (
            "serve --port 7000",
            "raw r\n",
            Status::NetFault,
            "net-fault\n",
        ),
        ("script", "", Status::Usage, "usage\n"),
        ("script --connect h", "", Status::Usage, "usage\n"),
        (
            "script --connect h:1 --capacity 0",
            "",
            Status::Usage,
            "usage\n",
        ),
        (
            "script --connect h:1 --resp 2",
            "",
            Status::Usage,
            "usage\n",
        ),
        (
            "script --connect h:1",
            "raw r\n",
            Status::BadLine,
            "bad-line 1\n",
        ),
        (
            "script --connect h:1",
            "1 ask GET foo\n",
            Status::NetFault,
            "net-fault\n",
        ),
        (
            "world --history-max 2",
            "raw r\nraw s\nraw t\n",
            Status::Done,
            "#1 admit r 1\n#2 admit s 2\n#3 admit t 3\n",
        ),
        (
            "world --history-max=2",
            "client x single 3 default 10\nflow x.data\n",
            Status::HistoryFull,
            "#1 admit x.data 1\n#2 run x.data HELLO 3\n#3 run x.data CLIENT TRACKING ON\n#4 \
             take x.data 149\nx.data < %7\\r\\n$6\\r\\nserver\\r\\n$5\\r\\nredis\\r\\n$7\\r\
             \\nversion\\r\\n$5\\r\\n7.0.0\\r\\n$5\\r\\nproto\\r\\n:3\\r\\n$2\\r\\nid\\r\\n\
             :1\\r\\n$4\\r\\nmode\\r\\n$10\\r\\nstandalone\\r\\n$4\\r\\nrole\\r\\n$6\\r\\nm\
             aster\\r\\n$7\\r\\nmodules\\r\\n*0\\r\\n+OK\\r\\n\nhistory-full\n",
        ),
        (
            "world",
            "raw r\nsya r GET\n",
            Status::BadLine,
            "#1 admit r 1\nbad-line 2\n",
        ),
        ("world", "\nraw r\n", Status::BadLine, "bad-line 1\n"),
        (
            "world",
            "raw r\n\n",
            Status::BadLine,
            "#1 admit r 1\nbad-line 2\n",
        ),
        ("world", "raw  r\n", Status::BadLine, "bad-line 1\n"),
        (
            "world",
            "raw abcdefghijklmnop\n",
            Status::Done,
            "#1 admit abcdefghijklmnop 1\n",
        ),
        (
            "world",
            "raw abcdefghijklmnopq\n",
            Status::BadLine,
            "bad-line 1\n",
        ),
        ("world", "raw rR\n", Status::BadLine, "bad-line 1\n"),
        (
            "world",
            "raw r\nsay r GET \x7f\n",
            Status::BadLine,
            "#1 admit r 1\nbad-line 2\n",
        ),
        (
            "world",
            "raw r\nsay r GET a\r\n",
            Status::BadLine,
            "#1 admit r 1\nbad-line 2\n",
        ),
        ("world", "say q GET a\n", Status::Refused, "refused 1 1\n"),
        (
            "world",
            "raw r\nraw r\nflow r\n",
            Status::Refused,
            "#1 admit r 1\nrefused 2 2\n",
        ),
        (
            "world",
            "raw r\nsay r GET a\nflow q",
            Status::Refused,
            "#1 admit r 1\nrefused 3 1\n",
        ),
        (
            "world",
            "raw r\nserve r 1\n",
            Status::Refused,
            "#1 admit r 1\nrefused 2 3\n",
        ),
        (
            "world",
            "raw r\nbytes r GET\\sa\\r\\n\nflow r\ncut r\nrecv r\nserve r\n",
            Status::Done,
            "#1 admit r 1\n#2 run r GET a\n#3 take r 5\nr < $-1\\r\\n\nr end\n#4 close r\n",
        ),
        (
            "world",
            "raw r\nbytes r *2\\r\\n$3\\r\\nGET\\r\\n$3\\r\\nfoo\\r\\n\n\
             serve r 21\nserve r 1\nsend r\nrecv r\n",
            Status::Done,
            "#1 admit r 1\n#2 run r GET foo\n#3 take r 5\nr < $-1\\r\\n\n",
        ),
        (
            "world",
            "raw r\nbytes r *1\\r\\n$007\nserve r\n",
            Status::Done,
            "#1 admit r 1\nr bad 1 6\n#2 close r\n",
        ),
        (
            "world",
            "raw r\nbytes r *1\\r\\n$16777217\nserve r\n",
            Status::Done,
            "#1 admit r 1\nr bad 2 12\n#2 close r\n",
        ),
        (
            "world",
            "raw r\nbytes r *x\nserve r\nbytes r GET\\sa\\n\nserve r\nflow r\nflow r\nserve r 1\n",
            Status::Refused,
            "#1 admit r 1\nr bad 1 1\n#2 close r\nr end\nrefused 8 3\n",
        ),
        (
            "world",
            "raw r\nsay r Get\nsay r SET a b NX NX\nserve r\nsend r\nrecv r\nsend r 1\n",
            Status::Refused,
            "#1 admit r 1\n#2 run r Get\n#3 run r SET a b NX NX\n#4 take r 69\n\
             r < -ERR\\swrong\\snumber\\sof\\sarguments\\sfor\\s'get'\\scommand\\r\\n\
             -ERR\\ssyntax\\serror\\r\\n\nrefused 7 3\n",
        ),
        (
            "world",
            "raw r\nbytes r \\x0D\n",
            Status::BadLine,
            "#1 admit r 1\nbad-line 2\n",
        ),
        (
            "world --out-max 10",
            "raw a\nsay a ECHO hello\nraw b\nsay b ECHO hell\nflow\n",
            Status::Done,
            "#1 admit a 1\n#2 admit b 2\n#3 run a ECHO hello\n#3 drop a\na end\n\
             #4 run b ECHO hell\n#5 take b 10\nb < $4\\r\\nhell\\r\\n\n",
        ),
        (
            "world",
            "raw a\nraw b\nsay a SHUTDOWN\nserve a\nraw c\n",
            Status::Refused,
            "#1 admit a 1\n#2 admit b 2\n#3 run a SHUTDOWN\n#3 drop a\n#3 drop b\nrefused 5 5\n",
        ),
    ] {
        let words = words_of(rt.alloc(), words)?;
        let input = text_bytes(rt.alloc(), input)?;
        let mut source = MemorySource::new(input, Vec::new(rt.alloc()));
        let mut sink = MemorySink::new(rt.alloc(), 1000, Vec::new(rt.alloc()))?;
        let reached = status_of(&rt, rt.alloc(), words.as_slice(), &mut source, &mut sink);
        assert!(rt; reached == status, "{written}");
        assert!(rt; sink.bytes() == written.as_bytes(), "{written}");
    }
    Ok(())
}

const THREE_KEYS: &str =
    "raw r\nsay r HELLO 3\nsay r CLIENT TRACKING ON\nsay r MGET a b c\nflow r\n";

/// Two of them are remembered.
const THREE_KEYS_WRITTEN: &str =
    "#1 admit r 1\n#2 run r HELLO 3\n#3 run r CLIENT TRACKING ON\n#4 run r MGET a b c\n\
     #5 take r 194\nr < %7\\r\\n$6\\r\\nserver\\r\\n$5\\r\\nredis\\r\\n$7\\r\\nversion\\r\\n\
     $5\\r\\n7.0.0\\r\\n$5\\r\\nproto\\r\\n:3\\r\\n$2\\r\\nid\\r\\n:1\\r\\n$4\\r\\nmode\\r\\n\
     $10\\r\\nstandalone\\r\\n$4\\r\\nrole\\r\\n$6\\r\\nmaster\\r\\n$7\\r\\nmodules\\r\\n*0\\r\\n\
     +OK\\r\\n*3\\r\\n_\\r\\n_\\r\\n_\\r\\n>2\\r\\n$10\\r\\ninvalidate\\r\\n*1\\r\\n\
     $1\\r\\na\\r\\n\n";

#[test]
fn a_table_has_room_for_as_many_keys_as_the_words_say(rt: HostRuntime) -> Result<(), Fail> {
    let alloc = rt.alloc();
    let words = words_of(alloc, "world --table-max 2")?;
    let mut source = MemorySource::new(text_bytes(alloc, THREE_KEYS)?, Vec::new(alloc));
    let mut sink = MemorySink::new(alloc, 1000, Vec::new(alloc))?;
    let reached = status_of(&rt, alloc, words.as_slice(), &mut source, &mut sink);
    assert!(rt; reached == Status::Done);
    assert_eq!(rt; sink.bytes(), THREE_KEYS_WRITTEN.as_bytes());
    Ok(())
}

const ONE_GET: &str = "#1 admit r 1\n#2 run r GET foo\n#3 take r 5\nr < $-1\\r\\n\n";

#[test]
fn a_request_is_run_once_wherever_its_bytes_are_cut(rt: HostRuntime) -> Result<(), Fail> {
    let words = words_of(rt.alloc(), "world")?;
    for cut in 1..22 {
        let input = format!(in rt.alloc();
            "raw r\nbytes r *2\\r\\n$3\\r\\nGET\\r\\n$3\\r\\nfoo\\r\\n\n\
             serve r {}\nserve r {}\nsend r\nrecv r\n",
            cut,
            22_u64.saturating_sub(cut)
        )?;
        let input = text_bytes(rt.alloc(), input.as_str())?;
        let mut source = MemorySource::new(input, Vec::new(rt.alloc()));
        let mut sink = MemorySink::new(rt.alloc(), 1000, Vec::new(rt.alloc()))?;
        let reached = status_of(&rt, rt.alloc(), words.as_slice(), &mut source, &mut sink);
        assert!(rt; reached == Status::Done, "{cut}");
        assert!(rt; sink.bytes() == ONE_GET.as_bytes(), "{cut}");
    }
    Ok(())
}

#[test]
fn a_fault_of_a_stream_ends_the_run_where_it_comes(rt: HostRuntime) -> Result<(), Fail> {
    for (words, read, write, room, status, written) in [
        ("world", 1, 0, 1000, Status::ReadFault, "read-fault\n"),
        (
            "world",
            9,
            0,
            1000,
            Status::ReadFault,
            "#1 admit r 1\nread-fault\n",
        ),
        ("world", 0, 1, 1000, Status::WriteFault, ""),
        ("world", 0, 2, 1000, Status::WriteFault, "#1 admit r 1\n"),
        ("world", 0, 0, 5, Status::WriteFault, "#1 ad"),
        ("world", 1, 1, 1000, Status::WriteFault, ""),
        (
            "script --connect h:1",
            1,
            0,
            1000,
            Status::ReadFault,
            "read-fault\n",
        ),
        (
            "script --connect h:1",
            9,
            0,
            1000,
            Status::BadLine,
            "bad-line 1\n",
        ),
        ("script --connect h:1", 0, 0, 5, Status::WriteFault, "bad-l"),
        ("worlds", 0, 1, 1000, Status::WriteFault, ""),
    ] {
        let words = words_of(rt.alloc(), words)?;
        let input = text_bytes(rt.alloc(), SET_AND_GET)?;
        let mut source = MemorySource::new(input, Vec::from_array(rt.alloc(), [read])?);
        let mut sink = MemorySink::new(rt.alloc(), room, Vec::from_array(rt.alloc(), [write])?)?;
        let reached = status_of(&rt, rt.alloc(), words.as_slice(), &mut source, &mut sink);
        assert!(rt;
            reached == status,
            "read {read}, write {write}, room {room}"
        );
        assert!(rt;
            sink.bytes() == written.as_bytes(),
            "read {read}, write {write}, room {room}"
        );
    }
    Ok(())
}

/// A sink that says how many bytes it has.
#[derive(Drop)]
struct CountedSink<'a> {
    sink: MemorySink,
    written: &'a Cell<usize>,
}

impl Sink for CountedSink<'_> {
    ghost contents = { λ s. ⟦<MemorySink as Sink>⟧.contents s.sink };

    ghost counts = { λ s. ⟦<MemorySink as Sink>⟧.counts s.sink };

    fn write(&mut self, bytes: &[u8]) -> Wrote {
        let answer = self.sink.write(bytes);
        self.written.set(self.sink.bytes().len());
        answer
    }
}

/// A source that notes at each read how many bytes were written by then.
#[derive(Drop)]
struct NotingSource<'a> {
    source: MemorySource,
    written: &'a Cell<usize>,
    notes: Vec<usize>,
}

impl Source for NotingSource<'_> {
    ghost left = { λ s. ⟦<MemorySource as Source>⟧.left s.source };

    ghost counts = { λ s. ⟦<MemorySource as Source>⟧.counts s.source };

    fn read(&mut self, buf: &mut [u8]) -> SourceRead {
        let _ = self.notes.push(self.written.get());
        self.source.read(buf)
    }
}

#[test]
fn what_a_line_prints_is_written_before_the_next_is_read(rt: HostRuntime) -> Result<(), Fail> {
    let alloc = rt.alloc();
    let written = Cell::new(0);
    let input = text_bytes(alloc, "raw r\nraw s\nraw t\n")?;
    let mut source = NotingSource {
        source: MemorySource::new(input, Vec::new(alloc)),
        written: &written,
        notes: Vec::new(alloc),
    };
    let mut sink = CountedSink {
        sink: MemorySink::new(alloc, 100, Vec::new(alloc))?,
        written: &written,
    };
    let words = words_of(alloc, "world")?;
    let reached = status_of(&rt, alloc, words.as_slice(), &mut source, &mut sink);
    assert!(rt; reached == Status::Done);
    // Each line has 6 bytes, which are read one by one, and prints 13. The last read meets the end.
    assert_eq!(rt; source.notes.len(), 19);
    for (read, note) in source.notes.iter().enumerate() {
        assert_eq!(rt; *note, read / 6 * 13, "at read {read}");
    }
    Ok(())
}

#[test]
fn a_person_is_told_what_is_wrong_with_a_line(rt: HostRuntime) -> Result<(), Fail> {
    let alloc = rt.alloc();
    for (line, wanted) in [
        ("", "it is empty, and a schedule has no empty lines"),
        ("# first", "a schedule has no comments"),
        (
            "raw r\r",
            "it ends in a carriage return, and lines end in a line feed alone",
        ),
        ("raw\tr", "it has a tab, and one space parts its words"),
        ("raw  r", "one space, and no more, parts its words"),
        ("raw r ", "one space, and no more, parts its words"),
        (
            "sya r",
            "`sya` is no kind of line; kinds are raw, say, bytes, client, out, serve, send, recv, \
             flow, cut, ask, do, poll, show, now and tick",
        ),
        (
            "raw rR",
            "`rR` is no name, which has 1 to 16 of a to z and 0 to 9; .data behind a client's is \
             its link, and .inv that for invalidations, for out, serve, send, recv, flow and cut",
        ),
        (
            "serve r 05",
            "`05` is no count of bytes, which is a number from 1 with no leading zero",
        ),
        ("raw", "its form is `raw R`"),
        ("serve x.data", "its form is `serve L [N]`"),
        ("poll x", "its form is `poll X N`"),
        (
            "now 01",
            "its form is `now N, the clock in milliseconds, with no leading zero`",
        ),
        (
            "now -5",
            "its form is `now N, the clock in milliseconds, with no leading zero`",
        ),
        ("tick 5", "its form is `tick`"),
        (
            "say r",
            "its form is `say R WORD.., each word in its printed form`",
        ),
    ] {
        let fault = find_line_fault(1, line.as_bytes());
        let told = format!(in alloc; "{fault}")?;
        assert!(rt; told.as_str() == wanted, "{line}: {told}");
    }
    for (digit, line, wanted) in [
        (b'1', "flow q.data", "no link is named q.data"),
        (b'1', "say q GET a", "no raw connection is named q"),
        (b'1', "show q", "no client is named q"),
        (b'2', "raw r", "a link or a client is named r already"),
        (b'3', "serve r 1", "fewer bytes are there than it moves"),
        (
            b'5',
            "poll x 9",
            "the client gave no command this number, or handed its reply out before",
        ),
        (
            b'5',
            "raw c",
            "a SHUTDOWN ran, and the server takes no connection and no tick",
        ),
        (
            b'5',
            "client x single 3 default 1",
            "a SHUTDOWN ran, and the server takes no connection and no tick",
        ),
        (
            b'5',
            "tick",
            "a SHUTDOWN ran, and the server takes no connection and no tick",
        ),
    ] {
        let refusal = find_refusal(digit, line.as_bytes());
        let told = format!(in alloc; "{refusal}")?;
        assert!(rt; told.as_str() == wanted, "{line}: {told}");
    }
    Ok(())
}

#[test]
fn each_status_has_its_number(rt: HostRuntime) {
    for (status, number) in [
        (Status::Done, 0),
        (Status::Usage, 2),
        (Status::BadLine, 3),
        (Status::ReadFault, 4),
        (Status::WriteFault, 5),
        (Status::NetFault, 6),
        (Status::Refused, 7),
        (Status::LinkEnded, 8),
        (Status::HistoryFull, 9),
        (Status::NoMemory, 10),
        (Status::Worn, 11),
    ] {
        assert_eq!(rt; status.number(), number);
    }
}

/// A net where port 7000 gives a connection that sends these bytes and then its end.
fn net_with(alloc: Global, requests: &str) -> Result<ListedNet, AllocError> {
    let mut sends = Vec::new(alloc);
    sends.push(LinkStep::Bytes(text_bytes(alloc, requests)?))?;
    let mut comes = Vec::new(alloc);
    match MemoryLink::new(alloc, 100, sends) {
        Ok(link) => comes.push(AcceptStep::Came(link))?,
        Err(_) => return Err(AllocError),
    }
    let mut listens = Vec::new(alloc);
    listens.push(Listening {
        port: 7000,
        acceptor: Some(MemoryAcceptor::new(comes)),
    })?;
    Ok(ListedNet::new(listens, Vec::new(alloc)))
}

/// The status of a run over this net, and whether it served, once what it served is let go of.
fn serves<R: Threads + Wait + Terminal + Sync>(
    rt: &R,
    alloc: Global,
    words: &[String],
    source: &mut MemorySource,
    sink: &mut MemorySink,
    net: &mut ListedNet,
) -> (Status, bool) {
    let clock = FixedClock { ms: 0 };
    let outcome = run(rt, alloc, words, source, sink, net, &clock);
    (outcome.status, outcome.served.is_some())
}

#[test]
fn a_server_reports_a_connection_that_quits(rt: HostRuntime) -> Result<(), Fail> {
    let alloc = rt.alloc();
    let words = words_of(
        alloc,
        "serve --port 7000 --workers 1 --connections=9 --table-max=1",
    )?;
    let mut net = net_with(alloc, "PING\r\nQUIT\r\nGET a\r\n")?;
    let mut source = MemorySource::new(Vec::new(alloc), Vec::new(alloc));
    let mut sink = MemorySink::new(alloc, 1000, Vec::new(alloc))?;
    let words = words.as_slice();
    let (status, has_served) = serves(&rt, alloc, words, &mut source, &mut sink, &mut net);
    assert!(rt; status == Status::Done);
    assert!(rt; has_served);
    let written = "connection 1 ended 2 requests 2\n";
    assert_eq!(rt; sink.bytes(), written.as_bytes());
    Ok(())
}

#[test]
fn a_server_listens_at_its_port_and_writes_its_reports(rt: HostRuntime) -> Result<(), Fail> {
    let alloc = rt.alloc();
    let words = words_of(alloc, "serve --port 7000 --workers 1")?;
    let mut net = net_with(alloc, "SET a 1\r\nGET a\r\n")?;
    let mut source = MemorySource::new(text_bytes(alloc, "raw r\n")?, Vec::new(alloc));
    let mut sink = MemorySink::new(alloc, 1000, Vec::new(alloc))?;
    let words = words.as_slice();
    let (status, has_served) = serves(&rt, alloc, words, &mut source, &mut sink, &mut net);
    assert!(rt; status == Status::Done);
    assert!(rt; has_served);
    let written = "ended 1 connections 1 requests 2\n";
    assert_eq!(rt; sink.bytes(), written.as_bytes());
    Ok(())
}
