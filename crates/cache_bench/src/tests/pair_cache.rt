//! What a client over two links holds: replies that overtake invalidations, invalidations on either
//! link, broken redirections, ends, capacity, and what goes before a command.
use super::pair::plays;
use std::test::Fail;

// A reply to a later command that names the key, and one to a command that does not.
const LATER_REPLIES: &str = "\
get a: sent 3
send STRLEN a: sent 4
get b: sent 5
blob 1: noted
get a: hit 3
null: noted
get a: sent 6
blob 2: noted
get b: hit 5
blob 1: noted
get a: hit 6
send SET b 1: sent 7
simple OK: noted
get a: hit 6
get b: sent 8

get a: sent 3
send TTL a: sent 4
blob 1: noted
error: noted
get a: sent 5

get a: sent 3
send GET b: sent 4
send NOSUCH a: sent 5
send MGET: sent 6
send PING a: sent 7
blob 1: noted
blob 2: noted
error: noted
error: noted
simple a: noted
get a: hit 3
get b: sent 8

get a: sent 3
get b: sent 4
send MGET c b: sent 5
blob 1: noted
blob 2: noted
get b: hit 4
holds: 2
null: noted
get a: hit 3
get b: sent 6
send EXISTS b c a: sent 7
blob 2: noted
holds: 2
error: noted
holds: 0
get a: sent 8
get b: sent 9";

// A command that can change a key ends what was fetched of it before it, when it is sent, and
// nothing behind it, when its reply is there.
const LATER_WRITES: &str = "\
get a: sent 3
get b: sent 4
blob 1: noted
send DEL c a: sent 5
get a: sent 6
blob 2: noted
holds: 1
:1~: noted
get b: hit 4
blob 1: noted
get a: hit 6

get a: sent 3
get b: sent 4
send FLUSHALL: sent 5
get a: sent 6
blob 1: noted
blob 2: noted
holds: 0
simple OK: noted
blob 3: noted
get a: hit 6
get b: sent 7

get a: sent 3
get b: sent 4
get c: sent 5
blob 1: noted
blob 2: noted
send RENAME b c: sent 6
blob 3: noted
get b: sent 7
get c: sent 8
get a: hit 3
error: noted
get a: hit 3";

// Two queries of one key: the later reply is all that is held of it.
const TWO_QUERIES: &str = "\
get a: sent 3
ask STRLEN a: sent 4
blob 1: noted
get a: hit 3
null: noted
ask STRLEN a: hit 4
holds: 1
get a: sent 5
blob 1: noted
get a: hit 5
ask STRLEN a: sent 6
get b: sent 7
error: noted
ask STRLEN a: hit 6
get a: sent 8

get a: sent 3
get a: sent 4
blob old: noted
holds: 0
blob new: noted
get a: hit 4
poll 3: answer";

// Two keys may be held. Another query of a key that is held takes no room.
const CAPACITY: &str = "\
get a: sent 3
get b: sent 4
blob 1: noted
blob 2: noted
ask STRLEN a: sent 5
null: noted
holds: 2
get b: hit 4
ask STRLEN a: hit 5
get a: sent 6
blob 1: noted
get b: hit 4
get c: sent 7
blob 3: noted
holds: 2
get b: hit 4
get c: hit 7
get a: sent 8

get a: sent 3
get b: sent 4
get c: sent 5
blob 1: noted
blob 2: noted
get a: hit 3
blob 3: noted
get a: hit 3
get c: hit 5
get b: sent 6

get a: sent 3
get b: sent 4
blob 1: noted
blob 2: noted
send MGET a b: sent 5
get c: sent 6
null: noted
holds: 0
blob 3: noted
get c: hit 6";

const BY_PUSHES: &str = "\
get a: sent 3
get b: sent 4
blob 1: noted
blob 2: noted
side invalidate a: noted
get a: sent 5
get b: hit 4
invalidate b: noted
get b: sent 6
blob 1: noted
blob 2: noted
side other: noted
side >1~$7~message~: noted
side >0~: noted
holds: 2
side >2~$10~invalidate~*2~$1~b~$1~a~: noted
holds: 0

get a: sent 3
side invalidate a: noted
blob 1: noted
get a: sent 4
side flush: noted
blob 2: noted
get a: sent 5
blob 3: noted
get a: hit 5
side flush-array: noted
get a: sent 6";

// Each null, as it is read off the invalidation link and off Main.
const PUSHED_NULLS: &str = "\
get a: sent 3
blob 1: noted
side >2~$10~invalidate~_~: noted
holds: 0
get a: sent 4
blob 1: noted
side >2~$10~invalidate~$-1~: noted
holds: 0
get a: sent 5
blob 1: noted
side >2~$10~invalidate~*-1~: noted
holds: 0
get a: sent 6
blob 1: noted
holds: 1
>2~$10~invalidate~_~: noted
holds: 0
get a: sent 7
blob 1: noted
holds: 1
>2~$10~invalidate~*-1~: noted
holds: 0";

const NULLS_IN_MESSAGES: &str = "\
get a: sent 2
blob 1: noted
side *3~$7~message~$20~__redis__:invalidate~$-1~: noted
holds: 0
get a: sent 3
blob 1: noted
holds: 1
side *3~$7~message~$20~__redis__:invalidate~*-1~: noted
holds: 0
get a: sent 4
blob 1: noted
holds: 1
side *3~$7~message~$20~__redis__:invalidate~_~: noted
holds: 0
get a: sent 5
blob 1: noted
holds: 1
side >2~$10~invalidate~*-1~: noted
holds: 0
get a: sent 6";

const BY_MESSAGES: &str = "\
get a: sent 2
get b: sent 3
blob 1: noted
blob 2: noted
side message a: noted
get a: sent 4
get b: hit 3
blob 1: noted
side *3~$7~message~$20~__redis__:invalidate~*2~$1~c~$1~b~: noted
get a: hit 4
get b: sent 5
side *3~$7~message~$20~__redis__:invalidate~*0~: noted
blob 2: noted
holds: 2
side invalidate a: noted
get b: hit 5
invalidate b: noted
holds: 0

get a: sent 2
side message a: noted
blob 1: noted
get a: sent 3
side message-flush: noted
blob 1: noted
get a: sent 4";

// What is none of the forms is an end of its link: what is held goes, and nothing is held again.
const MALFORMED_MESSAGES: &str = "\
get a: sent 2
get b: sent 3
blob 1: noted
side message-number: side-bad-push
holds: 0
get a: sent 4
blob 2: noted
blob 1: noted
holds: 0
side message a: side-down

side *3~$7~message~$4~news~*1~$1~a~: side-bad-push

side *2~$7~message~$20~__redis__:invalidate~: side-bad-push

side *3~$7~message~+__redis__:invalidate~*1~$1~a~: side-bad-push

side *3~$7~message~$20~__redis__:invalidate~*1~+a~: side-bad-push

side *4~$7~message~$20~__redis__:invalidate~*1~$1~a~_~: side-bad-push

side *1~$7~message~: side-bad-push

side *3~+message~$20~__redis__:invalidate~*1~$1~a~: side-unexpected

side *0~: side-unexpected

side malformed: side-bad-push

malformed: bad-push";

const A_BAD_VALUE: &str = "\
get a: sent 3
get b: sent 4
blob 1: noted
side malformed: side-bad-push
holds: 0
get a: sent 5
blob 2: noted
blob 1: noted
holds: 0
take 1000: bytes 60
poll 3: answer

get a: sent 3
get b: sent 4
blob 1: noted
side null: side-unexpected
holds: 0
get a: sent 5
blob 2: noted
blob 1: noted
holds: 0

get a: sent 3
blob 1: noted
null: unexpected
holds: 0
side other: noted
get a: down";

// A broken redirection empties, and ends caching, and no link.
const BROKEN: &str = "\
get a: sent 3
get b: sent 4
blob 1: noted
side broken: noted
holds: 0
get a: sent 5
blob 2: noted
blob 1: noted
holds: 0
side invalidate a: noted
get a: sent 6
blob 1: noted
get a: sent 7
poll 4: answer
take 1000: bytes 100

get a: sent 3
blob 1: noted
broken: noted
holds: 0
get a: sent 4
blob 1: noted
holds: 0
side other: noted
get a: sent 5";

const BROKEN_ON_TWO: &str = "\
get a: sent 2
blob 1: noted
side broken: noted
holds: 0
get a: sent 3
blob 1: noted
holds: 0
side message a: noted";

// An end of the invalidation link behind the handshakes leaves Main, and ends caching.
const ENDS: &str = "\
get a: sent 3
get b: sent 4
blob 1: noted
side end: noted
holds: 0
get a: sent 5
blob 2: noted
blob 1: noted
holds: 0
get a: sent 6
poll 4: answer
take 1000: bytes 80
invalidate a: noted
side invalidate a: side-down
end: noted
get a: down
side end: noted

get a: sent 3
blob 1: noted
end: noted
holds: 0
get a: down
poll 3: answer
side invalidate a: noted
side take 9: bytes 9
side end: noted
side take 9: side-down";

const BY_OPTING_IN_TWO: &str = "\
get a: sent 3
out: *3~$6~CLIENT~$7~CACHING~$3~YES~*2~$3~GET~$1~a~
poll 2: no-number 2
poll 3: not-yet
simple OK: noted
poll 2: no-number 2
blob 1: noted
poll 2: no-number 2
poll 3: answer
poll 3: no-number 3
get a: hit 3
get b: sent 5
simple OK: noted
get a: hit 3
blob 2: noted
poll 4: no-number 4
holds: 2
send STRLEN a: sent 6
out: *3~$6~CLIENT~$7~CACHING~$3~YES~*2~$3~GET~$1~b~*2~$6~STRLEN~$1~a~
null: noted
get b: hit 5
get a: sent 8

get a: sent 3
simple OK: noted
blob 1: noted
side end: noted
get a: sent 4
out: *3~$6~CLIENT~$7~CACHING~$3~YES~*2~$3~GET~$1~a~*2~$3~GET~$1~a~
poll 4: not-yet";

const BY_OPTING_IN_THREE: &str = "\
get a: sent 4
poll 3: no-number 3
simple OK: noted
poll 3: no-number 3
poll 4: not-yet
blob 1: noted
poll 4: answer
get a: hit 4
side broken: noted
get a: sent 5
out: *3~$6~CLIENT~$7~CACHING~$3~YES~*2~$3~GET~$1~a~*2~$3~GET~$1~a~";

const BY_OPTING_OUT_TWO: &str = "\
get a: sent 2
blob 1: noted
send GET b: sent 4
out: *2~$3~GET~$1~a~*3~$6~CLIENT~$7~CACHING~$2~NO~*2~$3~GET~$1~b~
poll 3: no-number 3
poll 4: not-yet
simple OK: noted
null: noted
poll 3: no-number 3
poll 4: answer
get a: hit 2
send MGET b a: sent 6
send SET b 1: sent 7
send NOSUCH b: sent 8
simple OK: noted
get a: hit 2
null: noted
holds: 0
simple OK: noted
error: noted
side end: noted
send GET b: sent 9
out: *3~$6~CLIENT~$7~CACHING~$2~NO~*3~$4~MGET~$1~b~$1~a~*3~$3~SET~$1~b~$1~1~\
*2~$6~NOSUCH~$1~b~*2~$3~GET~$1~b~";

const BY_OPTING_OUT_THREE: &str = "\
send TTL a: sent 4
get a: sent 5
out: *3~$6~CLIENT~$7~CACHING~$2~NO~*2~$3~TTL~$1~a~*2~$3~GET~$1~a~
simple OK: noted
null: noted
blob 1: noted
get a: hit 5
side broken: noted
send TTL a: sent 6";

const BY_PREFIXES: &str = "\
get ab: sent 3
get b: sent 4
blob 1: noted
blob 2: noted
get ab: hit 3
get b: sent 5
send STRLEN b: sent 6
blob 2: noted
null: noted
holds: 1
send STRLEN ab: sent 7
null: noted
holds: 0";

#[test]
fn a_later_reply_ends_what_was_fetched_of_its_key(rt: HostRuntime) -> Result<(), Fail> {
    let a = rt.alloc();
    plays(&rt, a, "three", LATER_REPLIES)?;
    plays(&rt, a, "three", LATER_WRITES)?;
    plays(&rt, a, "three", TWO_QUERIES)?;
    plays(&rt, a, "three optout noloop", TWO_QUERIES)?;
    plays(&rt, a, "three bcast", LATER_WRITES)
}

#[test]
fn capacity_is_judged_by_what_was_held_before(rt: HostRuntime) -> Result<(), Fail> {
    plays(&rt, rt.alloc(), "three", CAPACITY)
}

#[test]
fn invalidations_come_on_either_link_by_protocol(rt: HostRuntime) -> Result<(), Fail> {
    let a = rt.alloc();
    plays(&rt, a, "three", BY_PUSHES)?;
    plays(&rt, a, "two", BY_MESSAGES)?;
    plays(&rt, a, "three bcast prefix:a prefix:b", BY_PUSHES)
}

#[test]
fn a_flush_by_any_null_empties(rt: HostRuntime) -> Result<(), Fail> {
    let a = rt.alloc();
    plays(&rt, a, "three", PUSHED_NULLS)?;
    plays(&rt, a, "two", NULLS_IN_MESSAGES)
}

#[test]
fn a_value_that_ends_its_link_empties(rt: HostRuntime) -> Result<(), Fail> {
    let a = rt.alloc();
    plays(&rt, a, "two", MALFORMED_MESSAGES)?;
    plays(&rt, a, "three", A_BAD_VALUE)
}

#[test]
fn a_broken_redirection_ends_caching(rt: HostRuntime) -> Result<(), Fail> {
    let a = rt.alloc();
    plays(&rt, a, "three", BROKEN)?;
    plays(&rt, a, "two", BROKEN_ON_TWO)
}

#[test]
fn an_end_of_the_invalidation_link_ends_caching(rt: HostRuntime) -> Result<(), Fail> {
    plays(&rt, rt.alloc(), "three", ENDS)
}

#[test]
fn each_mode_of_a_pair_puts_its_caching_word_before(rt: HostRuntime) -> Result<(), Fail> {
    let a = rt.alloc();
    plays(&rt, a, "two optin", BY_OPTING_IN_TWO)?;
    plays(&rt, a, "three optin noloop", BY_OPTING_IN_THREE)?;
    plays(&rt, a, "two optout noloop", BY_OPTING_OUT_TWO)?;
    plays(&rt, a, "three optout", BY_OPTING_OUT_THREE)
}

#[test]
fn by_prefixes_keys_that_are_covered_are_held(rt: HostRuntime) -> Result<(), Fail> {
    plays(
        &rt,
        rt.alloc(),
        "three bcast prefix:a prefix:c",
        BY_PREFIXES,
    )
}
