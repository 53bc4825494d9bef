//! The handshakes of a client over two links: their bytes, what they are to be answered, and what
//! is refused before and behind them.
use super::pair::{has_tracking, plays, plays_within};
use resp_value::Proto;
use std::test::Fail;

// The tracking command is the last that goes out on Main, once the last reply of the invalidation
// link is there.
const GREETING_THREE: &str = "\
side out: *2~$5~HELLO~$1~3~*2~$6~CLIENT~$2~ID~
side take 9: quiet
out: *2~$5~HELLO~$1~3~
take 9: quiet
side map: noted
take 9: quiet
side id: noted
out: *5~$6~CLIENT~$8~TRACKING~$2~ON~$8~REDIRECT~$1~7~
take 9: quiet
get a: not-ready
map: noted
get a: not-ready
simple OK: noted
get a: sent 3
out: *2~$3~GET~$1~a~
side take 9: quiet

side map: noted
take 20: bytes 20
side id: noted
take 1000: bytes 61
side take 1000: bytes 46";

const GREETING_TWO: &str = "\
side out: *2~$6~CLIENT~$2~ID~*2~$9~SUBSCRIBE~$20~__redis__:invalidate~
side take 9: quiet
take 9: quiet
side id: noted
take 9: quiet
side subscribed: noted
out: *5~$6~CLIENT~$8~TRACKING~$2~ON~$8~REDIRECT~$1~7~
take 9: quiet
get a: not-ready
simple OK: noted
get a: sent 2
out: *2~$3~GET~$1~a~
side take 9: quiet";

// Other ids.
const IDS: &str = "\
side :1~: noted
side subscribed: noted
out: *5~$6~CLIENT~$8~TRACKING~$2~ON~$8~REDIRECT~$1~1~

side :10~: noted
side subscribed: noted
out: *5~$6~CLIENT~$8~TRACKING~$2~ON~$8~REDIRECT~$2~10~

side :9223372036854775807~: noted
side subscribed: noted
out: *5~$6~CLIENT~$8~TRACKING~$2~ON~$8~REDIRECT~$19~9223372036854775807~";

// What is no reply brings the last of them no nearer.
const NOTICES_AMONG_REPLIES_THREE: &str = "\
side map: noted
side invalidate a: noted
side flush: noted
side other: noted
other: noted
map: noted
take 1000: bytes 22
take 1000: quiet
side id: noted
take 1000: bytes 59";

const NOTICES_AMONG_REPLIES_TWO: &str = "\
side message a: noted
side id: noted
side message a: noted
side message-flush: noted
side invalidate a: noted
side other: noted
other: noted
take 1000: quiet
side subscribed: noted
take 1000: bytes 59";

// The tracking command of each caching.
const TRACKING: &str = "\
default | *5~$6~CLIENT~$8~TRACKING~$2~ON~$8~REDIRECT~$1~7~
default noloop | *6~$6~CLIENT~$8~TRACKING~$2~ON~$8~REDIRECT~$1~7~$6~NOLOOP~
optin | *6~$6~CLIENT~$8~TRACKING~$2~ON~$8~REDIRECT~$1~7~$5~OPTIN~
optin noloop | *7~$6~CLIENT~$8~TRACKING~$2~ON~$8~REDIRECT~$1~7~$5~OPTIN~$6~NOLOOP~
optout | *6~$6~CLIENT~$8~TRACKING~$2~ON~$8~REDIRECT~$1~7~$6~OPTOUT~
optout noloop | *7~$6~CLIENT~$8~TRACKING~$2~ON~$8~REDIRECT~$1~7~$6~OPTOUT~$6~NOLOOP~
bcast | *6~$6~CLIENT~$8~TRACKING~$2~ON~$8~REDIRECT~$1~7~$5~BCAST~
bcast noloop | *7~$6~CLIENT~$8~TRACKING~$2~ON~$8~REDIRECT~$1~7~$5~BCAST~$6~NOLOOP~
bcast prefix:a | *8~$6~CLIENT~$8~TRACKING~$2~ON~$8~REDIRECT~$1~7~$5~BCAST~$6~PREFIX~$1~a~
bcast prefix:a prefix:bc | *10~$6~CLIENT~$8~TRACKING~$2~ON~$8~REDIRECT~$1~7~\
$5~BCAST~$6~PREFIX~$1~a~$6~PREFIX~$2~bc~
bcast noloop prefix:bc prefix: | *11~$6~CLIENT~$8~TRACKING~$2~ON~$8~REDIRECT~$1~7~\
$5~BCAST~$6~PREFIX~$2~bc~$6~PREFIX~$0~~$6~NOLOOP~";

const TOO_EARLY_THREE: &str = "\
map: noted
side map: noted
simple OK: unexpected
get a: down
take 9: down
side id: noted
take 9: down
side take 1000: bytes 46
side end: noted";

const TOO_EARLY_TWO: &str = "\
side id: noted
simple OK: unexpected
get a: down
side subscribed: noted
take 9: down
side take 1000: bytes 70";

// Where the invalidation link is refused, or a notice on it is malformed, the client is not ready,
// so that both links are down.
const ANOTHER_ANSWER_THREE: &str = "\
simple OK: setup-refused
map: down
side map: noted
side id: noted
take 9: down

map: noted
side map: noted
side id: noted
simple ok: setup-refused
simple OK: down
get a: down
side other: noted

map: noted
side map: noted
side id: noted
map: setup-refused
get a: down

side id: side-setup-refused
side map: side-down
map: down
take 9: down
get a: down

map: noted
side map: noted
side :0~: side-setup-refused
get a: down

side map: noted
side :-7~: side-setup-refused
map: down

side map: noted
side map: side-setup-refused
map: down

map: noted
side malformed: side-bad-push
take 9: down

map: noted
side map: noted
side id: noted
side map: side-unexpected
simple OK: down
get a: down";

const ANOTHER_ANSWER_TWO: &str = "\
side subscribed: side-setup-refused
side id: side-down
take 9: down
get a: down

side :0~: side-setup-refused
take 9: down

side id: noted
side id: side-setup-refused
take 9: down

side id: noted
side *3~$9~subscribe~$20~__redis__:invalidate~:2~: side-setup-refused
take 9: down

side id: noted
side *3~$9~subscribe~$4~news~:1~: side-setup-refused
take 9: down

side id: noted
side *2~$9~subscribe~$20~__redis__:invalidate~: side-setup-refused
take 9: down

side id: noted
side *3~+subscribe~$20~__redis__:invalidate~:1~: side-setup-refused
take 9: down

side id: noted
side *0~: side-setup-refused
take 9: down

side message-number: side-bad-push
take 9: down

side id: noted
side *3~$7~message~$4~news~$-1~: side-bad-push
take 9: down

side id: noted
side subscribed: noted
map: setup-refused
get a: down
side message a: noted";

// The log has room for two entries.
const REFUSALS_BEFORE_READY: &str = "\
get a: not-ready
send RESET: not-ready
map: noted
side map: noted
get a: not-ready
send RESET: not-ready
poll 2: no-number 2
poll 3: no-number 3
take 9: full 2
side take 9: full 2
other: full 2
side other: full 2
side id: full 2
side null: side-setup-refused
get a: down
send RESET: down
poll 3: no-number 3
take 9: down
side take 9: side-down
map: down
side map: side-down
malformed: down
side malformed: side-down
end: noted
side end: noted

map: noted
side map: noted
map: unexpected
get a: down
take 9: down
side take 9: full 3
side malformed: side-bad-push
side take 9: side-down
side id: side-down

map: noted
side map: noted
malformed: bad-push
malformed: down
side id: full 3
side end: noted
side id: side-down";

// And here for four.
const REFUSALS_THREE: &str = "\
map: noted
side map: noted
side id: noted
simple OK: noted
get a: full 4
send RESET: control
send CLIENT CACHING YES: control
send SET a 1: full 4
poll 3: no-number 3
take 9: full 4
side take 9: full 4
other: full 4
side other: full 4
side invalidate a: full 4
side broken: full 4
side null: side-unexpected
side take 9: side-down
side null: side-down
side malformed: side-down
get a: full 5
take 9: full 5
malformed: bad-push
get a: down
send RESET: down
poll 3: no-number 3
take 9: down
null: down
malformed: down

map: noted
side map: noted
side id: noted
simple OK: noted
null: unexpected
get a: down
side other: full 5
side malformed: side-bad-push
side other: side-down
end: noted
side end: noted";

// Here for three. A message on Main is a reply.
const REFUSALS_TWO: &str = "\
side id: noted
side subscribed: noted
simple OK: noted
get a: full 3
send RESET: control
send SET a 1: full 3
poll 2: no-number 2
take 9: full 3
side take 9: full 3
side message a: full 3
side message-flush: full 3
side invalidate a: full 3
invalidate a: full 3
side message-number: side-bad-push
side message a: side-down
side take 9: side-down
get a: full 4
message a: unexpected
get a: down
take 9: down

side id: noted
side subscribed: noted
simple OK: noted
side subscribed: side-unexpected
side subscribed: side-down
malformed: bad-push
null: down

side id: noted
side subscribed: noted
simple OK: noted
side null: side-unexpected
side message a: side-down";

// And here for seven, where nothing is left to be taken.
const REFUSALS_WHERE_ALL_IS_TAKEN: &str = "\
take 1000: bytes 22
side take 1000: bytes 46
side map: noted
side id: noted
take 1000: bytes 59
map: noted
simple OK: noted
take 1000: quiet
side take 1000: quiet
get a: full 7
side null: side-unexpected
take 1000: quiet
side take 1000: side-down
null: unexpected
take 1000: down";

// An end of the invalidation link before the client is ready ends Main, one of Main leaves it.
const AN_END_BEFORE_READY: &str = "\
side end: noted
take 1000: down
map: down
get a: down
end: noted
side end: noted
side map: side-down
side take 9: side-down

map: noted
side map: noted
side id: noted
side end: noted
simple OK: down
get a: down

end: noted
take 9: down
side map: noted
side id: noted
side take 9: bytes 9
take 9: down
side end: noted
side take 9: side-down";

// A number is handed out as on one link, also where a link has ended.
const HANDED_OUT: &str = "\
get a: sent 2
poll 1: no-number 1
poll 2: not-yet
poll 3: no-number 3
send SET b 1: sent 3
blob 1: noted
side end: noted
poll 2: answer
poll 2: no-number 2
poll 3: not-yet
simple OK: noted
send SET b 1: sent 4
end: noted
poll 3: answer
poll 3: no-number 3
poll 4: down
poll 5: no-number 5";

#[test]
fn each_mode_of_a_pair_has_its_handshake(rt: HostRuntime) -> Result<(), Fail> {
    let a = rt.alloc();
    for line in TRACKING.lines() {
        let (caching, tracking) = line.split_once(" | ").ok_or("a line without bytes")?;
        has_tracking(&rt, a, Proto::Two, caching, tracking)?;
        has_tracking(&rt, a, Proto::Three, caching, tracking)?;
    }
    plays_within(&rt, a, "three", 100, GREETING_THREE)?;
    plays_within(&rt, a, "two", 100, GREETING_TWO)?;
    plays_within(&rt, a, "two", 100, IDS)
}

#[test]
fn the_tracking_command_waits_for_the_last_reply_on_side(rt: HostRuntime) -> Result<(), Fail> {
    let a = rt.alloc();
    plays_within(&rt, a, "three", 100, NOTICES_AMONG_REPLIES_THREE)?;
    plays_within(&rt, a, "two", 100, NOTICES_AMONG_REPLIES_TWO)?;
    plays_within(&rt, a, "three", 100, TOO_EARLY_THREE)?;
    plays_within(&rt, a, "two", 100, TOO_EARLY_TWO)
}

#[test]
fn another_answer_to_a_handshake_ends_its_link(rt: HostRuntime) -> Result<(), Fail> {
    let a = rt.alloc();
    plays_within(&rt, a, "three", 100, ANOTHER_ANSWER_THREE)?;
    plays_within(&rt, a, "two", 100, ANOTHER_ANSWER_TWO)
}

#[test]
fn each_refusal_of_a_pair_comes_in_its_order(rt: HostRuntime) -> Result<(), Fail> {
    let a = rt.alloc();
    plays_within(&rt, a, "three", 2, REFUSALS_BEFORE_READY)?;
    plays_within(&rt, a, "three optin", 4, REFUSALS_THREE)?;
    plays_within(&rt, a, "two optout", 3, REFUSALS_TWO)?;
    plays_within(&rt, a, "three", 7, REFUSALS_WHERE_ALL_IS_TAKEN)
}

#[test]
fn an_end_of_side_before_ready_ends_both_links(rt: HostRuntime) -> Result<(), Fail> {
    plays_within(&rt, rt.alloc(), "three", 100, AN_END_BEFORE_READY)
}

#[test]
fn a_reply_is_handed_out_though_a_link_has_ended(rt: HostRuntime) -> Result<(), Fail> {
    plays(&rt, rt.alloc(), "two", HANDED_OUT)
}
