//! Redirection and the channel of invalidations: turns of the book against worked examples.
use super::book::first_wrong;
use std::test::Fail;

// A message goes to the target, on RESP2 only where it is subscribed; where the target has ended, a
// notice goes back in place of each, until a redirection is accepted anew. A connection may be its
// own target.
const TARGETS: &str = "\
0 0 admit: 1 \\e -
0 0 admit: 2 \\e -
0 0 admit: 3 \\e -
1 0 HELLO 3: 4 \\e 1:144
1 0 CLIENT TRACKING ON REDIRECT 2: 5 \\e 1:5
1 0 GET a: 6 \\e 1:3
3 0 SET a 1: 7 \\e 3:5
2 0 SUBSCRIBE __redis__:invalidate: 8 \\e 2:50
1 0 GET a: 9 \\e 1:7
2 0 GET a: 10 \\e 2:35
2 0 PING: 11 \\e 2:20
3 0 SET a 2: 12 \\e 3:5,2:55
2 0 UNSUBSCRIBE: 13 \\e 2:53
2 0 HELLO 3: 14 \\e 2:144
1 0 GET a: 15 \\e 1:7
3 0 SET a 3: 16 \\e 3:5,2:32
1 0 MGET a b: 17 \\e 1:14
2 0 QUIT: 18 \\e 2:5,2:end
3 0 MSET a 4 b 4: 19 \\e 3:5,1:36,1:36
1 0 CLIENT TRACKINGINFO: 20 \\e 1:85
1 0 CLIENT TRACKING ON REDIRECT 2: 21 \\e 1:36
1 0 CLIENT TRACKINGINFO: 22 \\e 1:85
1 0 CLIENT TRACKING ON REDIRECT 1: 23 \\e 1:5
1 0 CLIENT TRACKINGINFO: 24 \\e 1:63
1 0 SET k 1 PX 5: 25 \\e 1:5
1 0 GET k: 26 \\e 1:7
1 9 PING: 27 \\e 1:32,1:7";

// A key that leaves before a command finds the target ended, and the command tells so. RESET mends
// it.
const BROKEN_BEFORE: &str = "\
0 0 admit: 1 \\e -
0 0 admit: 2 \\e -
1 0 HELLO 3: 3 \\e 1:144
1 0 CLIENT TRACKING ON REDIRECT 2: 4 \\e 1:5
1 0 SET k 1 PX 5: 5 \\e 1:5
1 0 GET k: 6 \\e 1:7
2 0 close: 7 \\e 2:end
1 9 CLIENT TRACKINGINFO: 8 \\e 1:36,1:85
1 9 GET k: 9 \\e 1:3
1 9 RESET: 10 \\e 1:8
1 9 CLIENT TRACKINGINFO: 11 \\e 1:65
1 9 SET k 1: 12 \\e 1:5";

// On RESP2 nothing is noticed, and the flag is there. What is refused and left of the channel.
const ON_RESP2: &str = "\
0 0 admit: 1 \\e -
0 0 admit: 2 \\e -
1 0 CLIENT TRACKING ON REDIRECT 2: 3 \\e 1:5
1 0 GET k: 4 \\e 1:5
2 0 QUIT: 5 \\e 2:5,2:end
1 0 SET k 1: 6 \\e 1:5
1 0 CLIENT TRACKINGINFO: 7 \\e 1:85
1 0 CLIENT TRACKING OFF: 8 \\e 1:5
1 0 CLIENT TRACKINGINFO: 9 \\e 1:65
1 0 SUBSCRIBE a: 10 \\e 1:25
1 0 UNSUBSCRIBE: 11 \\e 1:31
1 0 UNSUBSCRIBE a: 12 \\e 1:33";

#[test]
fn messages_go_to_the_target_while_it_is_there(rt: HostRuntime) -> Result<(), Fail> {
    assert_eq!(rt; first_wrong(rt.alloc(), 100, TARGETS)?, None);
    assert_eq!(rt; first_wrong(rt.alloc(), 100, BROKEN_BEFORE)?, None);
    assert_eq!(rt; first_wrong(rt.alloc(), 100, ON_RESP2)?, None);
    Ok(())
}
