//! Links that a lookout tells of: what their reads and writes bring, and what ends its wait.
use super::{listen_from, next_link, reads};
use crate::{Lookout, SocketAcceptor, SocketLink, SocketNet, Watched, Watching};
use edge_links::{Accepted, Acceptor, Link, LinkRead, Net, Wrote};
use std::test::Fail;
use std::time::{Duration, Instant};

/// The number under which links are watched here.
const PLACE: usize = 7;

/// More than a connection holds whose peer reads nothing.
const MUCH: usize = 16_777_216;

/// A connection over the loopback address whose accepted end is watched.
#[derive(Drop)]
struct Watch {
    port: u16,
    acceptor: SocketAcceptor<HostRuntime>,
    lookout: Lookout,
    near: Option<SocketLink<HostRuntime>>,
    far: SocketLink<HostRuntime>,
}

fn watch_from(rt: HostRuntime, first: u16) -> Option<Watch> {
    let mut net = SocketNet::new(rt);
    let (port, mut acceptor) = listen_from(&mut net, first)?;
    let near = net.dial("127.0.0.1", port).ok()?;
    let mut far = next_link(&mut acceptor)?;
    let lookout = acceptor.lookout(rt.alloc())?;
    if !far.watch(&lookout, PLACE) {
        return None;
    }
    Some(Watch {
        port,
        acceptor,
        lookout,
        near: Some(near),
        far,
    })
}

impl Watch {
    /// Whether the near end wrote all of this.
    fn sends(&mut self, text: &str) -> bool {
        match &mut self.near {
            Some(near) if !text.is_empty() => near.write(text.as_bytes())
                == Wrote::Took(text.len()),
            _ => text.is_empty(),
        }
    }

    /// Whether the watched end takes all of these bytes, of which there are some.
    fn takes(&mut self, bytes: &[u8]) -> bool {
        !bytes.is_empty() && self.far.write(bytes) == Wrote::Took(bytes.len())
    }

    /// Waits once, and tells the link its signs. Whether one is that it takes bytes.
    fn hear(&mut self, milliseconds: u64) -> bool {
        self.lookout.wait(milliseconds);
        let mut can_write = false;
        for sign in self.lookout.signs() {
            if sign.place == PLACE {
                self.far.told(*sign);
                can_write = can_write || sign.can_write;
            }
        }
        can_write
    }

    /// What reads bring from when the link is due until it isn't any more, or has ended.
    fn say(&mut self, said: &mut String) -> Result<(), Fail> {
        for _ in 0..100u8 {
            if self.far.is_due() {
                break;
            }
            self.hear(100);
        }
        for _ in 0..5u8 {
            if self.far.is_due() && !said.as_str().ends_with("end") {
                reads(&mut self.far, 1, said)?;
            }
        }
        Ok(())
    }
}

#[test]
fn a_watched_link_is_due_from_a_sign_to_a_short_read(rt: HostRuntime) -> Result<(), Fail> {
    let Some(mut watch) = watch_from(rt, 47_000) else {
        panic!(rt; "no link is watched");
    };
    // Nothing came: it isn't due, and a read doesn't wait.
    watch.hear(0);
    assert!(rt; !watch.far.is_due());
    let mut said = String::new(rt.alloc());
    let begun = Instant::now(&rt)?;
    reads(&mut watch.far, 20, &mut said)?;
    // Twenty whole waits are a second.
    assert!(rt; begun.elapsed(&rt)? < Duration::from_millis(500));
    for (sent, want) in [
        ("ab", "ab|"),
        ("cdefgh", "cde|fgh|."),
        ("ijk", "ijk|."),
        ("l", "l|"),
    ] {
        said.clear();
        assert!(rt; watch.sends(sent));
        watch.say(&mut said)?;
        assert!(rt; said.as_str() == want, "{said} for {sent}");
    }
    Ok(())
}

#[test]
fn a_watched_link_is_told_of_its_end_with_the_last_bytes(rt: HostRuntime) -> Result<(), Fail> {
    // The last is a web request, at which the link fails until it is let go.
    for (sent, want) in [
        ("", "end"),
        ("ab", "ab|end"),
        ("abc", "abc|end"),
        ("PUT a", "PUT|failend"),
    ] {
        let Some(mut watch) = watch_from(rt, 48_000) else {
            panic!(rt; "no link is watched");
        };
        assert!(rt; watch.sends(sent));
        watch.near = None;
        let mut said = String::new(rt.alloc());
        watch.say(&mut said)?;
        assert!(rt; said.as_str() == want, "{said} for {sent}");
    }
    Ok(())
}

#[test]
fn what_a_socket_does_not_take_is_written_later_in_order(rt: HostRuntime) -> Result<(), Fail> {
    let Some(mut watch) = watch_from(rt, 49_000) else {
        panic!(rt; "no link is watched");
    };
    let Some(mut near) = watch.near.take() else {
        panic!(rt; "no near end");
    };
    let mut sent = Vec::with_capacity(rt.alloc(), MUCH)?;
    for n in 0..MUCH {
        sent.push((n % 251) as u8)?;
    }
    assert!(rt; watch.takes(&sent));
    assert!(rt; watch.far.is_behind());
    let mut got = Vec::with_capacity(rt.alloc(), sent.len())?;
    let mut buf = [0u8; 65_536];
    // The socket has room again, and yet what follows goes behind what is kept.
    for _ in 0..50u8 {
        if let LinkRead::Bytes(n) = near.read(&mut buf) {
            got.extend_from_slice(&buf[..n])?;
        }
    }
    assert!(rt; watch.takes(b"last"));
    sent.extend_from_slice(b"last")?;
    for _ in 0..10_000u32 {
        if watch.hear(0) {
            watch.far.flush(0);
        }
        if let LinkRead::Bytes(n) = near.read(&mut buf) {
            got.extend_from_slice(&buf[..n])?;
        }
        if got.len() >= sent.len() {
            break;
        }
    }
    assert!(rt; got == sent, "{} of {}", got.len(), sent.len());
    assert!(rt; !watch.far.is_behind());
    Ok(())
}

#[test]
fn a_watched_link_that_gets_nowhere_is_lost(rt: HostRuntime) -> Result<(), Fail> {
    let Some(mut watch) = watch_from(rt, 50_000) else {
        panic!(rt; "no link is watched");
    };
    let much = Vec::from_elem(rt.alloc(), b'a', MUCH)?;
    assert!(rt; watch.far.write(&much) == Wrote::Took(MUCH));
    // The peer's side takes what it has room for.
    for _ in 0..20u8 {
        watch.hear(10);
        watch.far.flush(5);
    }
    let mut said = String::new(rt.alloc());
    for (now, want) in [(10_004, "."), (10_005, "fail")] {
        said.clear();
        watch.far.flush(now);
        assert!(rt; watch.far.is_due() == (want == "fail"), "at {now}");
        reads(&mut watch.far, 1, &mut said)?;
        assert!(rt; said.as_str() == want, "{said} at {now}");
    }
    assert!(rt; watch.far.write(b"a") == Wrote::Failed);
    assert!(rt; !watch.far.is_behind());
    Ok(())
}

/// The places of the links that the next wait tells may be read.
fn told(lookout: &mut Lookout, milliseconds: u64, places: &mut String) -> Result<(), Fail> {
    lookout.wait(milliseconds);
    for sign in lookout.signs() {
        if sign.can_read {
            places.push_str(if sign.place == PLACE { "old" } else { "new" })?;
        }
    }
    places.push('.')?;
    Ok(())
}

#[test]
fn a_link_that_is_moved_is_told_of_at_its_new_place(rt: HostRuntime) -> Result<(), Fail> {
    let Some(mut watch) = watch_from(rt, 51_000) else {
        panic!(rt; "no link is watched");
    };
    watch.hear(0);
    assert!(rt; watch.sends("ab"));
    let mut places = String::new(rt.alloc());
    told(&mut watch.lookout, 1000, &mut places)?;
    // It was told already.
    told(&mut watch.lookout, 0, &mut places)?;
    assert!(rt; watch.far.watch(&watch.lookout, 8));
    told(&mut watch.lookout, 1000, &mut places)?;
    assert!(rt; places.as_str() == "old..new.", "{places}");
    // No link has the numbers of the bell and of callers.
    assert!(rt; !watch.far.watch(&watch.lookout, usize::MAX));
    // One that was dialled counts its reads without an answer, which wait.
    if let Some(near) = &mut watch.near {
        assert!(rt; !near.watch(&watch.lookout, 9));
        assert!(rt; near.is_due());
    }
    Ok(())
}

fn is_sent<T: Send>(_it: &T) {}

fn is_shared<T: Send + Sync>(_it: &T) {}

#[test]
fn a_bell_or_a_caller_ends_the_wait_of_a_lookout(rt: HostRuntime) -> Result<(), Fail> {
    let Some(mut watch) = watch_from(rt, 52_000) else {
        panic!(rt; "no link is watched");
    };
    let Some(bell) = watch.lookout.bell() else {
        panic!(rt; "no bell");
    };
    is_sent(&watch.lookout);
    is_shared(&bell);
    watch.hear(0);
    assert!(rt; !watch.lookout.has_caller());
    let begun = Instant::now(&rt)?;
    bell.ring();
    watch.hear(10_000);
    assert!(rt; watch.lookout.signs().is_empty() && !watch.lookout.has_caller());
    let mut net = SocketNet::new(rt);
    let Ok(next) = net.dial("127.0.0.1", watch.port) else {
        panic!(rt; "nobody listens");
    };
    watch.hear(10_000);
    assert!(rt; watch.lookout.has_caller());
    assert!(rt; next_link(&mut watch.acceptor).is_some());
    assert!(rt; watch.acceptor.is_due());
    drop(next);
    // Nobody else is there, of which no accept waits: a thousand whole waits are five seconds.
    for _ in 0..1000u32 {
        assert!(rt; matches!(watch.acceptor.accept(), Accepted::Idle));
    }
    assert!(rt; !watch.acceptor.is_due());
    assert!(rt; begun.elapsed(&rt)? < Duration::from_secs(4));
    drop(watch.lookout);
    // The lookout is gone, and nobody hears it.
    bell.ring();
    Ok(())
}
