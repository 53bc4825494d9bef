//! Links over the loopback address: what their reads bring, with a bell and without.
mod watched;

use super::{SocketNet, Wakeable};
use edge_links::{Accepted, Acceptor, Link, LinkRead, Net, Wrote};
use std::test::Fail;
use std::time::{Duration, Instant};

/// The first port from this one on at which nobody else listens, and its acceptor.
fn listen_from<N: Net>(net: &mut N, first: u16) -> Option<(u16, N::Acceptor)> {
    for port in first..65_000 {
        if let Ok(acceptor) = net.listen(port) {
            return Some((port, acceptor));
        }
    }
    None
}

/// The next link that comes, where one comes soon.
fn next_link<A: Acceptor + Drop>(acceptor: &mut A) -> Option<A::Link> {
    for _ in 0..10_000u32 {
        match acceptor.accept() {
            Accepted::Came(link) => return Some(link),
            Accepted::Idle => {}
            Accepted::Closed | Accepted::Failed => return None,
        }
    }
    None
}

/// What reads with room for three bytes bring, one behind the other: bytes, `.` for nothing, `end`.
fn reads<L: Link>(link: &mut L, times: u8, said: &mut String) -> Result<(), Fail> {
    let mut buf = [0u8; 3];
    for _ in 0..times {
        match link.read(&mut buf) {
            LinkRead::Bytes(n) => {
                for byte in &buf[..n] {
                    said.push(char::from(*byte))?;
                }
                said.push('|')?;
            }
            LinkRead::Idle => said.push('.')?,
            LinkRead::End => said.push_str("end")?,
            LinkRead::Failed => said.push_str("fail")?,
        }
    }
    Ok(())
}

#[test]
fn a_link_gives_all_that_came_whether_or_not_it_heeds_its_bell(
    rt: HostRuntime,
) -> Result<(), Fail> {
    let mut net = SocketNet::new(rt);
    let Some((port, mut acceptor)) = listen_from(&mut net, 44_000) else {
        panic!(rt; "no port is free");
    };
    for heeds in [false, true] {
        let Ok(mut near) = net.dial("127.0.0.1", port) else {
            panic!(rt; "nobody listens");
        };
        let Some(mut far) = next_link(&mut acceptor) else {
            panic!(rt; "nobody came");
        };
        let mut said = String::new(rt.alloc());
        if heeds {
            let Some(bell) = far.bell() else {
                panic!(rt; "no bell");
            };
            bell.be_heeded();
            // What came meanwhile is there behind the one read that brings nothing.
            assert!(rt; near.write(b"ab") == Wrote::Took(2));
            reads(&mut far, 2, &mut said)?;
        } else {
            assert!(rt; near.write(b"ab") == Wrote::Took(2));
            reads(&mut far, 1, &mut said)?;
        }
        assert!(rt; near.write(b"cdefgh") == Wrote::Took(6));
        reads(&mut far, 3, &mut said)?;
        assert!(rt; near.write(b"ij") == Wrote::Took(2));
        drop(near);
        reads(&mut far, 3, &mut said)?;
        let want = if heeds {
            ".ab|cde|fgh|.ij|endend"
        } else {
            "ab|cde|fgh|.ij|endend"
        };
        assert!(rt; said.as_str() == want, "{said}");
    }
    Ok(())
}

#[test]
fn a_bell_ends_the_wait_that_is_next(rt: HostRuntime) -> Result<(), Fail> {
    let mut net = SocketNet::new(rt);
    let Some((port, mut acceptor)) = listen_from(&mut net, 45_000) else {
        panic!(rt; "no port is free");
    };
    let near = net.dial("127.0.0.1", port);
    let Some(mut far) = next_link(&mut acceptor) else {
        panic!(rt; "nobody came");
    };
    let Some(bell) = far.bell() else {
        panic!(rt; "no bell");
    };
    let mut said = String::new(rt.alloc());
    // Nobody heeds it yet.
    bell.ring();
    bell.be_heeded();
    reads(&mut far, 1, &mut said)?;
    let begun = Instant::now(&rt)?;
    for _ in 0..20u8 {
        bell.ring();
        reads(&mut far, 1, &mut said)?;
    }
    // Twenty whole waits are a second.
    assert!(rt; begun.elapsed(&rt)? < Duration::from_millis(500));
    assert!(rt; said.as_str() == ".....................", "{said}");
    drop(near);
    reads(&mut far, 1, &mut said)?;
    assert!(rt; said.as_str() == ".....................end", "{said}");
    drop(far);
    // The link is gone, and nobody hears it.
    bell.ring();
    Ok(())
}

#[test]
fn a_dialled_link_heeds_its_bell_from_its_first_bytes_on(rt: HostRuntime) -> Result<(), Fail> {
    let mut net = SocketNet::new(rt);
    let Some((port, mut acceptor)) = listen_from(&mut net, 46_000) else {
        panic!(rt; "no port is free");
    };
    let Ok(mut near) = net.dial("127.0.0.1", port) else {
        panic!(rt; "nobody listens");
    };
    let Some(mut far) = next_link(&mut acceptor) else {
        panic!(rt; "nobody came");
    };
    let Some(bell) = near.bell() else {
        panic!(rt; "no bell");
    };
    let mut said = String::new(rt.alloc());
    bell.ring();
    assert!(rt; !bell.is_heeded());
    assert!(rt; far.write(b"ab") == Wrote::Took(2));
    reads(&mut near, 2, &mut said)?;
    assert!(rt; bell.is_heeded());
    let begun = Instant::now(&rt)?;
    for _ in 0..20u8 {
        bell.ring();
        reads(&mut near, 1, &mut said)?;
    }
    // Twenty whole waits are a second.
    assert!(rt; begun.elapsed(&rt)? < Duration::from_millis(500));
    drop(far);
    reads(&mut near, 1, &mut said)?;
    assert!(rt; said.as_str() == "ab|.....................end", "{said}");
    Ok(())
}
