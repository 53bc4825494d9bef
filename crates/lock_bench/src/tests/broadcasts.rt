//! BCAST: who is told of the keys of which prefixes, turns of the book against worked examples.
use super::book::first_wrong;
use std::test::Fail;

// One message a prefix, in byte order of prefix; of a write of several keys it names those that
// start with it. A connection on RESP2 is sent nothing, and the empty prefix is that of all keys.
const PREFIXES: &str = "\
0 0 admit: 1 \\e -
0 0 admit: 2 \\e -
0 0 admit: 3 \\e -
0 0 admit: 4 \\e -
1 0 HELLO 3: 5 \\e 1:144
2 0 HELLO 3: 6 \\e 2:144
1 0 CLIENT TRACKING ON BCAST PREFIX b PREFIX a: 7 \\e 1:5
2 0 CLIENT TRACKING ON BCAST: 8 \\e 2:5
4 0 CLIENT TRACKING ON BCAST PREFIX a: 9 \\e 4:5
3 0 SET a 1: 10 \\e 3:5,2:32,1:32
3 0 SET ab 1: 11 \\e 3:5,2:33,1:33
3 0 SET c 1: 12 \\e 3:5,2:32
3 0 MSET ab 1 c 1 a 1 b 1: 13 \\e 3:5,2:54,1:40,1:32
3 0 DEL b nope c: 14 \\e 3:4,2:39,1:32
3 0 GET a: 15 \\e 3:7
3 0 DEL nope: 16 \\e 3:4
4 0 HELLO 3: 17 \\e 4:144
3 0 SET a 2: 18 \\e 3:5,2:32,1:32,4:32
1 0 SET a 3: 19 \\e 1:5,2:32,1:32,4:32
3 0 FLUSHALL: 20 \\e 3:5,1:24,2:24,4:24";

// The bytes of a message of two keys, in the order of the write.
const BYTES: &str = "\
0 0 admit: 1 \\e -
0 0 admit: 2 \\e -
1 0 CLIENT TRACKING ON BCAST PREFIX a: 3 \\e 1:5
1 9 take: 4 +OK\\r\\n -
1 0 HELLO 3: 5 \\e 1:144
1 999 take: 6 %7\\r\\n$6\\r\\nserver\\r\\n$5\\r\\nredis\\r\\n$7\\r\\nversion\\r\\n$5\\r\\n\
    7.0.0\\r\\n$5\\r\\nproto\\r\\n:3\\r\\n$2\\r\\nid\\r\\n:1\\r\\n$4\\r\\nmode\\r\\n\
    $10\\r\\nstandalone\\r\\n$4\\r\\nrole\\r\\n$6\\r\\nmaster\\r\\n$7\\r\\nmodules\\r\\n\
    *0\\r\\n -
2 0 MSET ab 1 c 1 a 1: 7 \\e 2:5,1:40
1 999 take: 8 >2\\r\\n$10\\r\\ninvalidate\\r\\n*2\\r\\n$2\\r\\nab\\r\\n$1\\r\\na\\r\\n -";

#[test]
fn one_message_a_prefix_names_the_keys_that_start_with_it(rt: HostRuntime) -> Result<(), Fail> {
    assert_eq!(rt; first_wrong(rt.alloc(), 100, PREFIXES)?, None);
    assert_eq!(rt; first_wrong(rt.alloc(), 100, BYTES)?, None);
    Ok(())
}

// Prefixes that overlap are refused, and then none of the command is registered. Without PREFIX the
// empty prefix comes beside those that are there: a key of both is told twice.
const OVERLAPS: &str = "\
0 0 admit: 1 \\e -
0 0 admit: 2 \\e -
1 0 CLIENT TRACKING ON BCAST PREFIX b PREFIX a PREFIX ab: 3 \\e 1:32
1 99 take: 4 -ERR\\sprefixes\\smust\\snot\\soverlap\\r\\n -
1 0 CLIENT TRACKING ON PREFIX a: 5 \\e 1:25
1 99 take: 6 -ERR\\sPREFIX\\sneeds\\sBCAST\\r\\n -
1 0 CLIENT TRACKING ON: 7 \\e 1:5
1 0 CLIENT TRACKING ON BCAST: 8 \\e 1:51
1 99 take: 9 +OK\\r\\n-ERR\\sBCAST\\scan't\\sbe\\sswitched\\swhile\\stracking\\sis\\son\\r\\n -
1 0 CLIENT TRACKING OFF: 10 \\e 1:5
1 0 CLIENT TRACKING ON BCAST PREFIX a: 11 \\e 1:5
1 0 CLIENT TRACKING ON: 12 \\e 1:51
1 0 CLIENT TRACKING ON BCAST PREFIX ab: 13 \\e 1:32
1 0 CLIENT TRACKING ON BCAST: 14 \\e 1:5
1 0 CLIENT GETREDIR: 15 \\e 1:4
1 0 CLIENT TRACKINGINFO: 16 \\e 1:87
1 0 HELLO 3: 17 \\e 1:144
2 0 SET a 1: 18 \\e 2:5,1:32,1:32
2 0 SET b 1: 19 \\e 2:5,1:32";

#[test]
fn prefixes_that_overlap_are_refused(rt: HostRuntime) -> Result<(), Fail> {
    assert_eq!(rt; first_wrong(rt.alloc(), 100, OVERLAPS)?, None);
    Ok(())
}

// Under NOLOOP a connection is not told of what it changes, but of keys that are due, before the
// reply or at a tick, and of a flush.
const NOLOOP: &str = "\
0 0 admit: 1 \\e -
0 0 admit: 2 \\e -
1 0 HELLO 3: 3 \\e 1:144
2 0 HELLO 3: 4 \\e 2:144
1 0 CLIENT TRACKING ON BCAST NOLOOP PREFIX a: 5 \\e 1:5
2 0 CLIENT TRACKING ON BCAST PREFIX a: 6 \\e 2:5
1 0 SET a 1: 7 \\e 1:5,2:32
2 0 SET a 2 PX 5: 8 \\e 2:5,1:32,2:32
1 9 SET a 3: 9 \\e 1:32,2:32,1:5,2:32
1 9 MSET a 1 b 2 ab 3: 10 \\e 1:5,2:40
1 9 SET a 4 PX 5: 11 \\e 1:5,2:32
1 9 SET ab 5 PX 6: 12 \\e 1:5,2:33
0 20 tick: 13 \\e 1:40,2:40
1 20 FLUSHALL: 14 \\e 1:5,1:24,2:24";

// The holders of keys are told first, key by key, and then the prefixes. Keys past the limit are
// told to their holders alone, and what a connection with prefixes reads is not remembered.
const HOLDERS: &str = "\
0 0 admit: 1 \\e -
0 0 admit: 2 \\e -
0 0 admit: 3 \\e -
1 0 HELLO 3: 4 \\e 1:144
2 0 HELLO 3: 5 \\e 2:144
1 0 CLIENT TRACKING ON BCAST: 6 \\e 1:5
2 0 CLIENT TRACKING ON: 7 \\e 2:5
1 0 GET a: 8 \\e 1:3
2 0 MGET a b: 9 \\e 2:10
3 0 MSET a 1 b 2: 10 \\e 3:5,2:32,2:32,1:39
2 0 MGET a b c: 11 \\e 2:21,2:32
3 0 SET a 2: 12 \\e 3:5,1:32
2 0 SET b 3: 13 \\e 2:5,2:32,1:32";

#[test]
fn who_is_told_of_a_prefix_comes_behind_the_holders(rt: HostRuntime) -> Result<(), Fail> {
    assert_eq!(rt; first_wrong(rt.alloc(), 100, NOLOOP)?, None);
    assert_eq!(rt; first_wrong(rt.alloc(), 100, HOLDERS)?, None);
    Ok(())
}

// OFF, RESET, QUIT and a close take a connection's prefixes away.
const ENDS: &str = "\
0 0 admit: 1 \\e -
0 0 admit: 2 \\e -
0 0 admit: 3 \\e -
0 0 admit: 4 \\e -
0 0 admit: 5 \\e -
1 0 HELLO 3: 6 \\e 1:144
2 0 HELLO 3: 7 \\e 2:144
3 0 HELLO 3: 8 \\e 3:144
4 0 HELLO 3: 9 \\e 4:144
1 0 CLIENT TRACKING ON BCAST PREFIX a: 10 \\e 1:5
2 0 CLIENT TRACKING ON BCAST PREFIX a: 11 \\e 2:5
3 0 CLIENT TRACKING ON BCAST PREFIX a: 12 \\e 3:5
4 0 CLIENT TRACKING ON BCAST PREFIX a PREFIX b: 13 \\e 4:5
5 0 SET a 1: 14 \\e 5:5,1:32,2:32,3:32,4:32
1 0 CLIENT TRACKING OFF: 15 \\e 1:5
1 0 CLIENT TRACKING ON: 16 \\e 1:5
2 0 RESET: 17 \\e 2:8
2 0 HELLO 3: 18 \\e 2:144
5 0 SET a 2: 19 \\e 5:5,3:32,4:32
3 0 QUIT: 20 \\e 3:5,3:end
5 0 SET a 3: 21 \\e 5:5,4:32
4 0 close: 22 \\e 4:end
5 0 MSET a 4 b 4: 23 \\e 5:5";

#[test]
fn connections_that_end_or_stop_tracking_leave_their_prefixes(rt: HostRuntime) -> Result<(), Fail> {
    assert_eq!(rt; first_wrong(rt.alloc(), 100, ENDS)?, None);
    Ok(())
}
