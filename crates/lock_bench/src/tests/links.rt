//! Links, acceptors and nets, in memory and over the loopback address: what they answer in turn.
use edge_links::*;
use std::alloc::{AllocError, Global};
use std::test::Fail;

/// The steps of a link in memory, as commas part them.
fn steps_of(alloc: Global, text: &str) -> Result<Vec<LinkStep>, AllocError> {
    let mut steps = Vec::new(alloc);
    for word in text.split(',') {
        let step = match word {
            "idle" => LinkStep::Idle,
            "fail" => LinkStep::Fail,
            "end" => LinkStep::End,
            "two" => LinkStep::Wait(2),
            "soon" => LinkStep::Await { bytes: 2, reads: 9 },
            "late" => LinkStep::Await { bytes: 9, reads: 2 },
            _ => {
                let mut bytes = Vec::new(alloc);
                bytes.extend_from_slice(word.as_bytes())?;
                LinkStep::Bytes(bytes)
            }
        };
        steps.push(step)?;
    }
    Ok(steps)
}

/// What each of five reads of three bytes gave, with a byte written behind each.
fn read_out<L: Link>(alloc: Global, link: &mut L) -> Result<String, AllocError> {
    let mut said = String::new(alloc);
    let mut buf = [0u8; 3];
    for _ in 0..5u8 {
        match link.read(&mut buf) {
            LinkRead::Bytes(n) => {
                for byte in &buf[..n] {
                    said.push(char::from(*byte))?;
                }
            }
            LinkRead::Idle => said.push_str("idle")?,
            LinkRead::End => said.push_str("end")?,
            LinkRead::Failed => said.push_str("fail")?,
        }
        said.push(' ')?;
        link.write(b"x");
    }
    Ok(said)
}

fn memory_link(alloc: Global, room: usize, steps: &str) -> Result<MemoryLink, NoMemory> {
    let Ok(steps) = steps_of(alloc, steps) else {
        return Err(NoMemory);
    };
    MemoryLink::new(alloc, room, steps)
}

/// The steps of a link in memory, and what five reads of it give.
const READS: &str = "abcd = abc d end end end
abc,idle,,de = abc idle de end end
two,ab = idle idle ab end end
two,two,abcd = idle idle abc d end
soon,ab = idle idle ab end end
late,ab = idle idle end end end
fail,ab,fail = fail ab fail end end
a,end,b = a end end end end";

#[test]
fn a_memory_link_plays_its_steps(rt: HostRuntime) -> Result<(), Fail> {
    for line in READS.lines() {
        if let Some((steps, want)) = line.split_once(" = ") {
            let mut link = memory_link(rt.alloc(), 5, steps)?;
            let said = read_out(rt.alloc(), &mut link)?;
            assert_eq!(rt; said.as_str().trim_end(), want);
            assert!(rt; link.bytes() == "xxxxx".as_bytes());
        }
    }
    Ok(())
}

#[test]
fn a_memory_link_takes_what_fits_and_then_fails(rt: HostRuntime) -> Result<(), Fail> {
    let mut link = memory_link(rt.alloc(), 3, "")?;
    assert!(rt; link.write(b"ab") == Wrote::Took(2));
    assert!(rt; link.write(b"cd") == Wrote::Took(1));
    assert!(rt; link.write(b"d") == Wrote::Failed);
    assert!(rt; link.bytes() == "abc".as_bytes());
    Ok(())
}

#[test]
fn a_memory_link_takes_pieces_and_fails_at_the_write_that_is_named(
    rt: HostRuntime,
) -> Result<(), Fail> {
    let mut link = memory_link(rt.alloc(), 9, "")?;
    link.take_most(2);
    link.fail_write(2);
    assert!(rt; link.write(b"abc") == Wrote::Took(2));
    assert!(rt; link.write(b"c") == Wrote::Failed);
    assert!(rt; link.write(b"cd") == Wrote::Took(2));
    link.fail_write(0);
    assert!(rt; link.write(b"e") == Wrote::Took(1));
    assert!(rt; link.bytes() == "abcde".as_bytes());
    Ok(())
}

fn accept_steps(alloc: Global) -> Result<Vec<AcceptStep>, Fail> {
    let mut steps = Vec::new(alloc);
    steps.push(AcceptStep::Idle)?;
    steps.push(AcceptStep::Came(memory_link(alloc, 1, "a")?))?;
    steps.push(AcceptStep::Fail)?;
    Ok(steps)
}

#[test]
fn a_memory_acceptor_plays_its_steps_and_is_then_closed(rt: HostRuntime) -> Result<(), Fail> {
    let mut acceptor = MemoryAcceptor::new(accept_steps(rt.alloc())?);
    assert!(rt; matches!(acceptor.accept(), Accepted::Idle));
    let Accepted::Came(mut link) = acceptor.accept() else {
        panic!(rt; "no link came");
    };
    assert!(rt; link.read(&mut [0]) == LinkRead::Bytes(1));
    assert!(rt; matches!(acceptor.accept(), Accepted::Failed));
    assert!(rt; matches!(acceptor.accept(), Accepted::Closed));
    Ok(())
}

/// An acceptor at 7000, one at 7001, and then none at 7000.
fn listens(alloc: Global) -> Result<Vec<Listening>, AllocError> {
    let mut listens = Vec::new(alloc);
    for row in 0..3u8 {
        let acceptor = match row {
            0 | 1 => Some(MemoryAcceptor::new(Vec::new(alloc))),
            _ => None,
        };
        let port = if row == 1 { 7001 } else { 7000 };
        listens.push(Listening { port, acceptor })?;
    }
    Ok(listens)
}

fn dialled(alloc: Global, host: &str) -> Result<Dialled, Fail> {
    Ok(Dialled {
        host: String::from_str(alloc, host)?,
        port: 7000,
        link: Some(memory_link(alloc, 1, "a")?),
    })
}

fn listed_net(alloc: Global) -> Result<ListedNet, Fail> {
    let mut dials = Vec::new(alloc);
    dials.push(dialled(alloc, "near")?)?;
    dials.push(dialled(alloc, "far")?)?;
    Ok(ListedNet::new(listens(alloc)?, dials))
}

#[test]
fn a_listed_net_gives_what_it_was_handed_and_then_fails(rt: HostRuntime) -> Result<(), Fail> {
    let mut net = listed_net(rt.alloc())?;
    assert!(rt; net.listen(7000).is_ok());
    for _ in 0..3u8 {
        assert!(rt; net.listen(7000).is_err());
    }
    assert!(rt; net.dial("near", 7000).is_ok());
    for _ in 0..2u8 {
        assert!(rt; net.dial("near", 7000).is_err());
    }
    Ok(())
}

/// Writes all of the piece.
fn write_whole<L: Link>(link: &mut L, piece: &[u8]) -> bool {
    let mut done = 0usize;
    for _ in 0..100_000u32 {
        if done >= piece.len() {
            return true;
        }
        match link.write(&piece[done..]) {
            Wrote::Took(n) => done = done.saturating_add(n),
            Wrote::Failed => return false,
        }
    }
    false
}

/// Whether the next bytes that the link gives are those of the piece.
fn gives<L: Link>(link: &mut L, piece: &[u8]) -> bool {
    let mut buf = [0u8; 4096];
    let mut done = 0usize;
    for _ in 0..100_000u32 {
        if done >= piece.len() {
            return true;
        }
        match link.read(&mut buf) {
            LinkRead::Bytes(n) => {
                let end = done.saturating_add(n);
                if end > piece.len() || buf[..n] != piece[done..end] {
                    return false;
                }
                done = end;
            }
            LinkRead::Idle => {}
            LinkRead::End | LinkRead::Failed => return false,
        }
    }
    false
}

/// A piece of so many bytes that none before it has.
fn piece_of(alloc: Global, number: u8, size: u32) -> Result<Vec<u8>, AllocError> {
    let mut piece = Vec::new(alloc);
    for place in 0..size {
        piece.push((place % 251) as u8 ^ number)?;
    }
    Ok(piece)
}

/// Sends pieces from the first to the second, 1 MiB in all.
fn carries<A: Link, B: Link>(alloc: Global, from: &mut A, to: &mut B) -> Result<bool, AllocError> {
    for number in 0..32u8 {
        let piece = piece_of(alloc, number, 32_768)?;
        if !write_whole(from, piece.as_slice()) || !gives(to, piece.as_slice()) {
            return Ok(false);
        }
    }
    Ok(true)
}

/// The first port from this one on at which nobody else listens, and its acceptor.
fn listen_from<N: Net>(net: &mut N, first: u16) -> Option<(u16, N::Acceptor)> {
    for port in first..65_000 {
        if let Ok(acceptor) = net.listen(port) {
            return Some((port, acceptor));
        }
    }
    None
}

/// The next link that comes, where one comes soon.
fn next_link<A: Acceptor + Drop>(acceptor: &mut A) -> Option<A::Link> {
    for _ in 0..10_000u32 {
        match acceptor.accept() {
            Accepted::Came(link) => return Some(link),
            Accepted::Idle => {}
            Accepted::Closed | Accepted::Failed => return None,
        }
    }
    None
}

#[test]
fn the_loopback_address_carries_a_mebibyte_both_ways(rt: HostRuntime) -> Result<(), Fail> {
    let mut net = TcpNet::new(rt);
    let Some((port, mut acceptor)) = listen_from(&mut net, 42_000) else {
        panic!(rt; "no port is free");
    };
    assert!(rt; matches!(acceptor.accept(), Accepted::Idle));
    assert!(rt; net.listen(port).is_err());
    let Ok(mut near) = net.dial("127.0.0.1", port) else {
        panic!(rt; "nobody listens");
    };
    let Some(mut far) = next_link(&mut acceptor) else {
        panic!(rt; "nobody came");
    };
    assert!(rt; near.read(&mut [0]) == LinkRead::Idle);
    assert!(rt; carries(rt.alloc(), &mut near, &mut far)?);
    assert!(rt; carries(rt.alloc(), &mut far, &mut near)?);
    drop(near);
    assert!(rt; far.read(&mut [0]) == LinkRead::End);
    drop(acceptor);
    assert!(rt; net.dial("127.0.0.1", port).is_err());
    Ok(())
}

/// What a client sends in pieces, and what is read of it with how that ends: none of the piece in
/// which a line begins as one of a web request. Behind a line that begins with `*` any may.
const FIRST_LINES: &str = "POST / HTTP/1.1;;FLUSHALL; = fail
SET a 1;|post / HTTP/1.1;FLUSHALL; = SET a 1;fail
PO|ST / HTTP/1.1;;FLUSHALL; = POfail
PUT /|x = fail
PATCH / HTTP/1.1; = fail
DELETE / HTTP/1.1; = fail
OPTIONS * HTTP/1.1; = fail
GET / HTTP/1.1;|Accept: a;|host: a;;FLUSHALL; = GET / HTTP/1.1;Accept: a;fail
HOST 1;|POSTS 1;|POST;|PUTS; OPTIONSX ; = HOST 1;POSTS 1;POST;PUTS; OPTIONSX ;end
*1;$4;PING;|POST / HTTP/1.1;Host: a; = *1;$4;PING;POST / HTTP/1.1;Host: a;end
GET a;|*1;$4;PING;POST /; = GET a;*1;$4;PING;POST /;end";

/// A text in which `;` stands for the end of a line.
fn lines_of(alloc: Global, text: &str) -> Result<Vec<u8>, AllocError> {
    let mut bytes = Vec::new(alloc);
    for byte in text.bytes() {
        match byte {
            b';' => bytes.extend_from_slice(b"\r\n")?,
            _ => bytes.push(byte)?,
        }
    }
    Ok(bytes)
}

/// Reads what the peer sent, until the link ends or nothing comes; and how that ended.
fn read_all<L: Link>(link: &mut L, got: &mut Vec<u8>) -> Result<LinkRead, AllocError> {
    let mut buf = [0u8; 64];
    for _ in 0..100u8 {
        match link.read(&mut buf) {
            LinkRead::Bytes(n) => got.extend_from_slice(&buf[..n])?,
            ended => return Ok(ended),
        }
    }
    Ok(LinkRead::Idle)
}

/// What the server's end has read once the client sent its pieces and left, and how that ended.
fn heard<N: Link + Drop, F: Link>(
    alloc: Global,
    mut near: N,
    far: &mut F,
    pieces: &str,
) -> Result<Vec<u8>, AllocError> {
    let mut got = Vec::new(alloc);
    let mut ended = LinkRead::Idle;
    for piece in pieces.split('|') {
        write_whole(&mut near, lines_of(alloc, piece)?.as_slice());
        ended = read_all(far, &mut got)?;
    }
    drop(near);
    if ended == LinkRead::Idle {
        ended = read_all(far, &mut got)?;
    }
    match ended {
        LinkRead::End => got.extend_from_slice(b"end")?,
        LinkRead::Failed => got.extend_from_slice(b"fail")?,
        LinkRead::Bytes(_) | LinkRead::Idle => {}
    }
    Ok(got)
}

#[test]
fn a_link_that_begins_as_a_web_request_fails(rt: HostRuntime) -> Result<(), Fail> {
    let alloc = rt.alloc();
    let mut net = TcpNet::new(rt);
    let Some((port, mut acceptor)) = listen_from(&mut net, 43_000) else {
        panic!(rt; "no port is free");
    };
    for row in FIRST_LINES.lines() {
        let Some((pieces, want)) = row.split_once(" = ") else {
            panic!(rt; "{row}");
        };
        let Ok(near) = net.dial("127.0.0.1", port) else {
            panic!(rt; "nobody listens");
        };
        let Some(mut far) = next_link(&mut acceptor) else {
            panic!(rt; "nobody came");
        };
        let got = heard(alloc, near, &mut far, pieces)?;
        let want = lines_of(alloc, want)?;
        assert!(rt; got.as_slice() == want.as_slice(), "{row}");
    }
    Ok(())
}
