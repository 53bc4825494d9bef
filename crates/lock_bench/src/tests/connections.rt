//! What a connection is told of itself, its modes, and how it resets and quits: turns of the book
//! against worked examples.
use super::book::first_wrong;
use std::test::Fail;

// Each command of a connection alone, and what is refused, on RESP2. After QUIT the last bytes can
// be taken, and one close is accepted.
const COMMANDS: &str = "\
0 0 admit: 1 \\e -
1 0 PING: 2 \\e 1:7
1 999 take: 3 +PONG\\r\\n -
1 0 ping hi: 4 \\e 1:8
1 999 take: 5 $2\\r\\nhi\\r\\n -
1 0 ECHO foo: 6 \\e 1:9
1 999 take: 7 $3\\r\\nfoo\\r\\n -
1 0 CLIENT ID: 8 \\e 1:4
1 999 take: 9 :1\\r\\n -
1 0 CLIENT GETREDIR: 10 \\e 1:5
1 999 take: 11 :-1\\r\\n -
1 0 CLIENT TRACKINGINFO: 12 \\e 1:65
1 999 take: 13 *6\\r\\n$5\\r\\nflags\\r\\n*1\\r\\n$3\\r\\noff\\r\\n$8\\r\\nredirect\\r\\n\
    :-1\\r\\n$8\\r\\nprefixes\\r\\n*0\\r\\n -
1 0 CLIENT CACHING YES: 14 \\e 1:43
1 999 take: 15 -ERR\\sCLIENT\\sCACHING\\sneeds\\sOPTIN\\sor\\sOPTOUT\\r\\n -
1 0 CLIENT TRACKING ON OPTIN NOLOOP: 16 \\e 1:5
1 999 take: 17 +OK\\r\\n -
1 0 CLIENT GETREDIR: 18 \\e 1:4
1 999 take: 19 :0\\r\\n -
1 0 CLIENT CACHING NO: 20 \\e 1:37
1 999 take: 21 -ERR\\sCLIENT\\sCACHING\\sNO\\sneeds\\sOPTOUT\\r\\n -
1 0 CLIENT CACHING YES: 22 \\e 1:5
1 999 take: 23 +OK\\r\\n -
1 0 CLIENT TRACKINGINFO: 24 \\e 1:104
1 999 take: 25 *6\\r\\n$5\\r\\nflags\\r\\n*4\\r\\n$2\\r\\non\\r\\n$5\\r\\noptin\\r\\n\
    $11\\r\\ncaching-yes\\r\\n$6\\r\\nnoloop\\r\\n$8\\r\\nredirect\\r\\n:0\\r\\n$8\\r\\n\
    prefixes\\r\\n*0\\r\\n -
1 0 CLIENT TRACKINGINFO: 26 \\e 1:86
1 999 take: 27 *6\\r\\n$5\\r\\nflags\\r\\n*3\\r\\n$2\\r\\non\\r\\n$5\\r\\noptin\\r\\n\
    $6\\r\\nnoloop\\r\\n$8\\r\\nredirect\\r\\n:0\\r\\n$8\\r\\nprefixes\\r\\n*0\\r\\n -
1 0 CLIENT TRACKING ON OPTOUT: 28 \\e 1:62
1 999 take: 29 -ERR\\sOPTIN\\sand\\sOPTOUT\\scan't\\sbe\\sswitched\\s\
    while\\stracking\\sis\\son\\r\\n -
1 0 CLIENT TRACKING ON REDIRECT 1: 30 \\e 1:5
1 0 RESET: 31 \\e 1:8
1 9999 take: 32 +OK\\r\\n+RESET\\r\\n -
1 0 CLIENT TRACKINGINFO: 33 \\e 1:65
1 999 take: 34 *6\\r\\n$5\\r\\nflags\\r\\n*1\\r\\n$3\\r\\noff\\r\\n$8\\r\\nredirect\\r\\n\
    :-1\\r\\n$8\\r\\nprefixes\\r\\n*0\\r\\n -
1 0 QUIT: 35 \\e 1:5,1:end
1 0 PING: 0 gone -
1 999 take: 36 +OK\\r\\n -
1 999 take: 0 quiet -
1 0 close: 37 \\e -
1 9 take: 0 quiet -
1 0 close: 0 gone -";

// The same on RESP3. RESET answers on RESP2.
const COMMANDS_ON_RESP3: &str = "\
0 0 admit: 1 \\e -
1 0 HELLO 3: 2 \\e 1:144
1 999 take: 3 %7\\r\\n$6\\r\\nserver\\r\\n$5\\r\\nredis\\r\\n$7\\r\\nversion\\r\\n$5\\r\\n\
    7.0.0\\r\\n$5\\r\\nproto\\r\\n:3\\r\\n$2\\r\\nid\\r\\n:1\\r\\n$4\\r\\nmode\\r\\n\
    $10\\r\\nstandalone\\r\\n$4\\r\\nrole\\r\\n$6\\r\\nmaster\\r\\n$7\\r\\nmodules\\r\\n\
    *0\\r\\n -
1 0 PING: 4 \\e 1:7
1 999 take: 5 +PONG\\r\\n -
1 0 ping hi: 6 \\e 1:8
1 999 take: 7 $2\\r\\nhi\\r\\n -
1 0 ECHO foo: 8 \\e 1:9
1 999 take: 9 $3\\r\\nfoo\\r\\n -
1 0 CLIENT ID: 10 \\e 1:4
1 999 take: 11 :1\\r\\n -
1 0 CLIENT GETREDIR: 12 \\e 1:5
1 999 take: 13 :-1\\r\\n -
1 0 CLIENT TRACKINGINFO: 14 \\e 1:65
1 999 take: 15 %3\\r\\n$5\\r\\nflags\\r\\n~1\\r\\n$3\\r\\noff\\r\\n$8\\r\\nredirect\\r\\n\
    :-1\\r\\n$8\\r\\nprefixes\\r\\n*0\\r\\n -
1 0 CLIENT CACHING YES: 16 \\e 1:43
1 999 take: 17 -ERR\\sCLIENT\\sCACHING\\sneeds\\sOPTIN\\sor\\sOPTOUT\\r\\n -
1 0 CLIENT TRACKING ON OPTIN NOLOOP: 18 \\e 1:5
1 999 take: 19 +OK\\r\\n -
1 0 CLIENT GETREDIR: 20 \\e 1:4
1 999 take: 21 :0\\r\\n -
1 0 CLIENT CACHING NO: 22 \\e 1:37
1 999 take: 23 -ERR\\sCLIENT\\sCACHING\\sNO\\sneeds\\sOPTOUT\\r\\n -
1 0 CLIENT CACHING YES: 24 \\e 1:5
1 999 take: 25 +OK\\r\\n -
1 0 CLIENT TRACKINGINFO: 26 \\e 1:104
1 999 take: 27 %3\\r\\n$5\\r\\nflags\\r\\n~4\\r\\n$2\\r\\non\\r\\n$5\\r\\noptin\\r\\n\
    $11\\r\\ncaching-yes\\r\\n$6\\r\\nnoloop\\r\\n$8\\r\\nredirect\\r\\n:0\\r\\n$8\\r\\n\
    prefixes\\r\\n*0\\r\\n -
1 0 CLIENT TRACKINGINFO: 28 \\e 1:86
1 999 take: 29 %3\\r\\n$5\\r\\nflags\\r\\n~3\\r\\n$2\\r\\non\\r\\n$5\\r\\noptin\\r\\n\
    $6\\r\\nnoloop\\r\\n$8\\r\\nredirect\\r\\n:0\\r\\n$8\\r\\nprefixes\\r\\n*0\\r\\n -
1 0 CLIENT TRACKING ON OPTOUT: 30 \\e 1:62
1 999 take: 31 -ERR\\sOPTIN\\sand\\sOPTOUT\\scan't\\sbe\\sswitched\\s\
    while\\stracking\\sis\\son\\r\\n -
1 0 CLIENT TRACKING ON REDIRECT 1: 32 \\e 1:5
1 0 RESET: 33 \\e 1:8
1 9999 take: 34 +OK\\r\\n+RESET\\r\\n -
1 0 CLIENT TRACKINGINFO: 35 \\e 1:65
1 999 take: 36 *6\\r\\n$5\\r\\nflags\\r\\n*1\\r\\n$3\\r\\noff\\r\\n$8\\r\\nredirect\\r\\n\
    :-1\\r\\n$8\\r\\nprefixes\\r\\n*0\\r\\n -
1 0 QUIT: 37 \\e 1:5,1:end
1 0 PING: 0 gone -
1 999 take: 38 +OK\\r\\n -
1 999 take: 0 quiet -
1 0 close: 39 \\e -
1 9 take: 0 quiet -
1 0 close: 0 gone -";

// What CLIENT CACHING says holds for the next command, whatever that is: a read, a write, PING, or
// one that is refused.
const MARKS: &str = "\
0 0 admit: 1 \\e -
0 0 admit: 2 \\e -
1 0 HELLO 3: 3 \\e 1:144
1 0 CLIENT TRACKING ON OPTIN: 4 \\e 1:5
1 0 GET a: 5 \\e 1:3
2 0 SET a 1: 6 \\e 2:5
1 0 CLIENT CACHING YES: 7 \\e 1:5
1 0 GET a: 8 \\e 1:7
1 0 GET b: 9 \\e 1:3
2 0 SET a 2: 10 \\e 2:5,1:32
2 0 SET b 2: 11 \\e 2:5
1 0 CLIENT CACHING YES: 12 \\e 1:5
1 0 PING: 13 \\e 1:7
1 0 GET a: 14 \\e 1:7
2 0 SET a 3: 15 \\e 2:5
1 0 CLIENT CACHING YES: 16 \\e 1:5
1 0 CLIENT CACHING NO: 17 \\e 1:37
1 0 GET a: 18 \\e 1:7
2 0 SET a 4: 19 \\e 2:5
1 0 CLIENT CACHING YES: 20 \\e 1:5
1 0 SET x 1: 21 \\e 1:5
1 0 GET a: 22 \\e 1:7
2 0 SET a 5: 23 \\e 2:5
1 0 CLIENT TRACKING OFF: 24 \\e 1:5
1 0 CLIENT TRACKING ON OPTOUT: 25 \\e 1:5
1 0 CLIENT CACHING NO: 26 \\e 1:5
1 0 GET a: 27 \\e 1:7
1 0 GET b: 28 \\e 1:7
2 0 SET a 6: 29 \\e 2:5
2 0 SET b 3: 30 \\e 2:5,1:32";

// A connection under NOLOOP is not told of what it changes, but of keys that are due, of a flush
// and of keys past the limit; what it changes it holds no more.
const NOLOOP: &str = "\
0 0 admit: 1 \\e -
0 0 admit: 2 \\e -
1 0 HELLO 3: 3 \\e 1:144
2 0 HELLO 3: 4 \\e 2:144
1 0 CLIENT TRACKING ON NOLOOP: 5 \\e 1:5
2 0 CLIENT TRACKING ON: 6 \\e 2:5
1 0 GET a: 7 \\e 1:3
2 0 GET a: 8 \\e 2:3
1 0 SET a 1: 9 \\e 1:5,2:32
2 0 SET a 2: 10 \\e 2:5
1 0 GET a: 11 \\e 1:7
2 0 SET a 3 PX 5: 12 \\e 2:5,1:32
1 0 GET a: 13 \\e 1:7
1 9 SET a 4: 14 \\e 1:32,1:5
1 9 GET a: 15 \\e 1:7
1 9 FLUSHALL: 16 \\e 1:5,1:24,2:24
1 9 MGET a b c: 17 \\e 1:13,1:32";

// RESET and QUIT forget what was remembered.
const ENDS: &str = "\
0 0 admit: 1 \\e -
0 0 admit: 2 \\e -
0 0 admit: 3 \\e -
1 0 HELLO 3: 4 \\e 1:144
2 0 HELLO 3: 5 \\e 2:144
1 0 CLIENT TRACKING ON: 6 \\e 1:5
2 0 CLIENT TRACKING ON: 7 \\e 2:5
1 0 GET a: 8 \\e 1:3
2 0 GET a: 9 \\e 2:3
1 0 RESET: 10 \\e 1:8
1 0 GET b: 11 \\e 1:5
3 0 SET a 1: 12 \\e 3:5,2:32
2 0 GET a: 13 \\e 2:7
2 0 QUIT: 14 \\e 2:5,2:end
3 0 SET a 2: 15 \\e 3:5
2 0 GET a: 0 gone -";

#[test]
fn a_connection_is_told_of_itself_resets_and_quits(rt: HostRuntime) -> Result<(), Fail> {
    assert_eq!(rt; first_wrong(rt.alloc(), 100, COMMANDS)?, None);
    assert_eq!(rt; first_wrong(rt.alloc(), 100, COMMANDS_ON_RESP3)?, None);
    Ok(())
}

#[test]
fn the_caching_mark_holds_for_one_command(rt: HostRuntime) -> Result<(), Fail> {
    assert_eq!(rt; first_wrong(rt.alloc(), 100, MARKS)?, None);
    Ok(())
}

#[test]
fn noloop_hides_own_changes_alone(rt: HostRuntime) -> Result<(), Fail> {
    assert_eq!(rt; first_wrong(rt.alloc(), 100, NOLOOP)?, None);
    Ok(())
}

#[test]
fn reset_and_quit_forget(rt: HostRuntime) -> Result<(), Fail> {
    assert_eq!(rt; first_wrong(rt.alloc(), 100, ENDS)?, None);
    Ok(())
}
