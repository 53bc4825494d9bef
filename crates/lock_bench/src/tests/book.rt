//! Turns against worked examples.
ghost use Rattle.std.specs.Prelude.{IfOk, ◌<◌};
ghost use Rattle.serial_model.specs.Steps.{AreValid, IsCallable};

use command_words::put_printed;
use resp_value::{NoMemory, Octets, Words};
use server_book::{Book, BookCall, BookRefusal, BookReply, Entry, Limits, Post, Posted};
use std::alloc::{AllocError, Global};
use std::test::Fail;

pub(super) fn words_of(alloc: Global, text: &str) -> Result<Words, NoMemory> {
    let mut words = Words::new(alloc);
    for part in text.split(' ') {
        words.push(Octets::from_slice(alloc, part.as_bytes())?)?;
    }
    Ok(words)
}

// The turn that `what` names: an admit, a close, a take of at most `number` bytes, or a tick or a
// request at that moment.
fn call_of(alloc: Global, what: &str, id: u64, number: u64) -> Result<BookCall, NoMemory>
    ensures { IfOk result (λ call. IsCallable call) }
{
    if what == "admit" {
        Ok(BookCall::Admit)
    } else if what == "close" {
        Ok(BookCall::Close { id })
    } else if what == "tick" {
        Ok(BookCall::Tick { now: number })
    } else if what == "take" {
        let max = number.max(1);
        Ok(BookCall::Take { id, max })
    } else {
        let words = words_of(alloc, what)?;
        Ok(BookCall::Run {
            id,
            words,
            now: number,
        })
    }
}

fn limits_of(history_max: u64) -> Limits
    requires { 0 < history_max }
    ensures { AreValid result }
{
    Limits {
        table_max: 2,
        out_max: 1_000_000,
        history_max,
    }
}

// The number of the entry that a turn added, and the bytes that it gave.
fn parts_of(reply: &BookReply) -> (u64, &[u8]) {
    match reply {
        BookReply::Admitted { entry, .. } => (*entry, b""),
        BookReply::Ran { entry } => (*entry, b""),
        BookReply::Ticked { entry } => (*entry, b""),
        BookReply::Bytes { entry, bytes } => (*entry, bytes.as_slice()),
        BookReply::Closed { entry } => (*entry, b""),
        BookReply::Quiet => (0, b"quiet"),
        BookReply::Refused(BookRefusal::Gone { .. }) => (0, b"gone"),
        BookReply::Refused(BookRefusal::NoMemory) => (0, b"no memory"),
        BookReply::Refused(BookRefusal::Stopped) => (0, b"stopped"),
    }
}

fn number_of(text: &str) -> u64 {
    text.parse::<u64>().unwrap_or(0)
}

// Whether this is the post: the id of the connection, and how many bytes it is sent.
fn is_post(post: &Post, text: &str) -> bool {
    let Some((id, size)) = text.split_once(':') else {
        return false;
    };
    let is_what = match post.what {
        Posted::End => size == "end",
        Posted::Message { length } => size != "end" && length == number_of(size),
    };
    post.id == number_of(id) && is_what
}

// Whether these are the posts, as commas part them.
fn are_posts(posts: &[Post], text: &str) -> bool {
    if text == "-" {
        return posts.is_empty();
    }
    let mut wanted = text.split(',');
    for post in posts {
        match wanted.next() {
            Some(text) if is_post(post, text) => {}
            _ => return false,
        }
    }
    wanted.next().is_none()
}

// The id, a number and the call.
fn asked_of(asked: &str) -> Option<(u64, u64, &str)> {
    let (id, asked) = asked.split_once(' ')?;
    let (number, what) = asked.split_once(' ')?;
    Some((number_of(id), number_of(number), what))
}

// The number of the entry, the bytes that it gave as they are printed, and its posts.
fn wanted_of(wanted: &str) -> Option<(u64, &str, &str)> {
    let (entry, wanted) = wanted.split_once(' ')?;
    let (gave, posts) = wanted.split_once(' ')?;
    Some((number_of(entry), gave, posts))
}

fn is_reply(alloc: Global, reply: &BookReply, entry: u64, gave: &str) -> Result<bool, NoMemory> {
    let (added, bytes) = parts_of(reply);
    let mut shown = Vec::new(alloc);
    put_printed(bytes, &mut shown)?;
    Ok(added == entry && shown.as_slice() == gave.as_bytes())
}

// Plays the turn of a row.
fn is_played_so(alloc: Global, book: &mut Book, row: &str) -> Result<bool, NoMemory> {
    let Some((asked, wanted)) = row.split_once(": ") else {
        return Ok(false);
    };
    let Some((id, number, what)) = asked_of(asked) else {
        return Ok(false);
    };
    let Some((entry, gave, posts)) = wanted_of(wanted) else {
        return Ok(false);
    };
    let reply = book.turn(call_of(alloc, what, id, number)?);
    Ok(is_reply(alloc, &reply, entry, gave)? && are_posts(book.last_posts(), posts))
}

// The first row whose turn is not what it says.
fn wrong_row<'a>(
    alloc: Global,
    book: &mut Book,
    table: &'a str,
) -> Result<Option<&'a str>, NoMemory> {
    for row in table.split('\n') {
        if !is_played_so(alloc, book, row)? {
            return Ok(Some(row));
        }
    }
    Ok(None)
}

// The first row that a new book plays otherwise than it says.
pub(super) fn first_wrong<'a>(
    alloc: Global,
    history_max: u64,
    table: &'a str,
) -> Result<Option<&'a str>, NoMemory>
    requires { 0 < history_max }
{
    let mut book = Book::new(alloc, limits_of(history_max))?;
    wrong_row(alloc, &mut book, table)
}

const TURNS: &str = "\
1 9 take: 0 gone -
1 0 GET foo: 0 gone -
0 0 admit: 1 \\e -
1 9 take: 0 quiet -
1 7 SET foo bar: 2 \\e 1:5
1 3 GET foo: 3 \\e 1:9
1 3 GET nope: 4 \\e 1:5
2 9 take: 0 gone -
1 5 take: 5 +OK\\r\\n -
0 0 admit: 6 \\e -
2 8 get foo: 7 \\e 2:9
1 99 take: 8 $3\\r\\nbar\\r\\n$-1\\r\\n -
2 99 take: 9 $3\\r\\nbar\\r\\n -
2 99 take: 0 quiet -
2 0 close: 10 \\e 2:end
2 8 GET foo: 0 gone -";

// The moments of the requests that ran.
fn moments(alloc: Global, book: &Book) -> Result<Vec<u64>, AllocError> {
    let mut moments = Vec::new(alloc);
    for entry in book.history() {
        if let Entry::Run { moment, .. } = entry {
            moments.push(*moment)?;
        }
    }
    Ok(moments)
}

fn are_kept(alloc: Global, book: &mut Book) -> Result<bool, NoMemory> {
    let wrong = wrong_row(alloc, book, TURNS)?;
    let are_moments = moments(alloc, book)?.as_slice() == [7, 7, 7, 8].as_slice();
    Ok(wrong.is_none() && book.entries() == 10 && are_moments)
}

fn keeps_entries(alloc: Global) -> Result<bool, NoMemory> {
    let mut book = Book::new(alloc, limits_of(11))?;
    are_kept(alloc, &mut book)
}

#[test]
fn a_book_answers_its_turns_and_keeps_their_entries(rt: HostRuntime) -> Result<(), Fail> {
    assert_eq!(rt; first_wrong(rt.alloc(), 11, TURNS)?, None);
    assert!(rt; keeps_entries(rt.alloc())?);
    Ok(())
}

const FOLDED: &str = "\
0 9 admit: 1 \\e -
0 9 admit: 2 \\e -
1 9 GET foo: 3 \\e 1:5
1 9 SET foo bar: 4 \\e 1:5
3 9 GET foo: 0 gone -
2 9 take: 0 quiet -
1 9 take: 5 $-1\\r\\n+OK\\r -
1 9 close: 6 \\e 1:end
1 9 take: 0 gone -
2 9 GET foo: 7 \\e 2:9";

fn is_folded_so(alloc: Global, book: &mut Book, base: u64, left: usize) -> Result<bool, NoMemory> {
    let wrong = wrong_row(alloc, book, FOLDED)?;
    let parts = (book.entries(), book.base(), book.history().len());
    let runs = (book.runs(1), book.runs(2), book.runs(3));
    Ok(wrong.is_none() && parts == (7, base, left) && runs == (Some(2), Some(1), None))
}

// Whether the turns are answered as over a history that is kept whole, where so many entries were
// let go and so many are left.
fn folds_so(alloc: Global, history_max: u64, base: u64, left: usize) -> Result<bool, NoMemory>
    requires { 0 < history_max }
{
    let mut book = Book::new(alloc, limits_of(history_max))?;
    is_folded_so(alloc, &mut book, base, left)
}

#[test]
fn a_book_lets_its_entries_go_at_the_limit(rt: HostRuntime) -> Result<(), Fail> {
    let alloc = rt.alloc();
    assert!(rt; folds_so(alloc, 1, 7, 0)?);
    assert!(rt; folds_so(alloc, 2, 6, 1)?);
    assert!(rt; folds_so(alloc, 3, 6, 1)?);
    assert!(rt; folds_so(alloc, 4, 4, 3)?);
    assert!(rt; folds_so(alloc, 8, 0, 7)?);
    Ok(())
}

// What HELLO tells a connection stands in the row of its Take.
const PROTOCOLS: &str = "\
0 0 admit: 1 \\e -
0 0 admit: 2 \\e -
1 0 GET foo: 3 \\e 1:5
1 999 take: 4 $-1\\r\\n -
1 0 HELLO 3: 5 \\e 1:144
1 999 take: 6 %7\\r\\n$6\\r\\nserver\\r\\n$5\\r\\nredis\\r\\n$7\\r\\nversion\\r\\n\
    $5\\r\\n7.0.0\\r\\n\
    $5\\r\\nproto\\r\\n:3\\r\\n$2\\r\\nid\\r\\n:1\\r\\n$4\\r\\nmode\\r\\n\
    $10\\r\\nstandalone\\r\\n$4\\r\\nrole\\r\\n$6\\r\\nmaster\\r\\n$7\\r\\nmodules\\r\\n*0\\r\\n -
1 0 GET foo: 7 \\e 1:3
1 999 take: 8 _\\r\\n -
2 0 GET foo: 9 \\e 2:5
2 999 take: 10 $-1\\r\\n -
1 0 HELLO 4: 11 \\e 1:39
1 999 take: 12 -NOPROTO\\sunsupported\\sprotocol\\sversion\\r\\n -
1 0 HELLO three: 13 \\e 1:57
1 999 take: 14 -ERR\\sProtocol\\sversion\\sis\\snot\
    \\san\\sinteger\\sor\\sout\\sof\\srange\\r\\n -
1 0 HELLO 2 AUTH: 15 \\e 1:19
1 999 take: 16 -ERR\\ssyntax\\serror\\r\\n -
1 0 hello: 17 \\e 1:144
1 999 take: 18 %7\\r\\n$6\\r\\nserver\\r\\n$5\\r\\nredis\\r\\n$7\\r\\nversion\\r\\n\
    $5\\r\\n7.0.0\\r\\n\
    $5\\r\\nproto\\r\\n:3\\r\\n$2\\r\\nid\\r\\n:1\\r\\n$4\\r\\nmode\\r\\n\
    $10\\r\\nstandalone\\r\\n$4\\r\\nrole\\r\\n$6\\r\\nmaster\\r\\n$7\\r\\nmodules\\r\\n*0\\r\\n -
1 0 HELLO 2: 19 \\e 1:145
1 5 take: 20 *14\\r\\n -";

#[test]
fn hello_switches_the_protocol_of_its_own_connection(rt: HostRuntime) -> Result<(), Fail> {
    assert_eq!(rt; first_wrong(rt.alloc(), 100, PROTOCOLS)?, None);
    Ok(())
}

// Of three connections two are on the third protocol.
const TRACKING: &str = "\
0 0 admit: 1 \\e -
0 0 admit: 2 \\e -
0 0 admit: 3 \\e -
1 0 HELLO 3: 4 \\e 1:144
2 0 HELLO 3: 5 \\e 2:144
1 0 CLIENT TRACKING ON: 6 \\e 1:5
2 0 CLIENT TRACKING ON: 7 \\e 2:5
2 0 GET a: 8 \\e 2:3
1 0 GET a: 9 \\e 1:3
3 0 SET a v: 10 \\e 3:5,1:32,2:32
3 0 SET a w: 11 \\e 3:5
1 0 GET a: 12 \\e 1:7
1 0 SET a x: 13 \\e 1:5,1:32
1 0 GET a: 14 \\e 1:7
1 0 GET b: 15 \\e 1:3
2 0 GET c: 16 \\e 2:3,1:32
1 0 CLIENT TRACKING OFF: 17 \\e 1:5
3 0 SET b v: 18 \\e 3:5
3 0 CLIENT TRACKING ON: 19 \\e 3:5
3 0 GET d: 20 \\e 3:5
1 0 SET d v: 21 \\e 1:5
3 0 SET c v: 22 \\e 3:5,2:32";

// Whether the last that the second connection was sent is that the key c changed.
fn is_told_last(alloc: Global, book: &mut Book) -> Result<bool, NoMemory> {
    let wrong = wrong_row(alloc, book, TRACKING)?;
    let reply = book.turn(call_of(alloc, "take", 2, 9999)?);
    let (_, gave) = parts_of(&reply);
    let push = b">2\r\n$10\r\ninvalidate\r\n*1\r\n$1\r\nc\r\n";
    Ok(wrong.is_none() && gave.ends_with(push))
}

fn tells_holders(alloc: Global) -> Result<bool, NoMemory> {
    let mut book = Book::new(alloc, limits_of(100))?;
    is_told_last(alloc, &mut book)
}

#[test]
fn those_who_remember_a_key_are_told_behind_the_reply(rt: HostRuntime) -> Result<(), Fail> {
    assert_eq!(rt; first_wrong(rt.alloc(), 100, TRACKING)?, None);
    assert!(rt; tells_holders(rt.alloc())?);
    Ok(())
}

// A write that fails tells nobody, one of several keys tells the holders of each, and what is not
// served changes nothing.
const STRINGS_AND_HASHES: &str = "\
0 0 admit: 1 \\e -
1 0 HELLO 3: 2 \\e 1:144
1 0 CLIENT TRACKING ON: 3 \\e 1:5
0 0 admit: 4 \\e -
2 0 SET n 9223372036854775807: 5 \\e 2:5
2 0 SET n 1 NX: 6 \\e 2:5
2 0 SET m 5 XX KEEPTTL: 7 \\e 2:5
2 0 SET m 5 EX 10: 8 \\e 2:5
1 0 GET n: 9 \\e 1:26
1 0 STRLEN m: 10 \\e 1:4
2 0 INCR n: 11 \\e 2:44
2 0 MSET m 1 n 2 m 3: 12 \\e 2:5,1:32,1:32
2 0 HSET h a 1 b 2 a 3: 13 \\e 2:4
1 0 HGET h a: 14 \\e 1:7
2 0 HDEL h zz: 15 \\e 2:4
2 0 HDEL h b zz b: 16 \\e 2:4,1:32
1 0 HGETALL h: 17 \\e 1:18
2 0 HINCRBY h a 1: 18 \\e 2:4,1:32
1 0 HKEYS h: 19 \\e 1:11
1 0 HVALS h: 20 \\e 1:11
2 0 HSET h a 9: 21 \\e 2:4,1:32
2 0 HDEL h a: 22 \\e 2:4
1 0 HLEN h: 23 \\e 1:4
2 0 GETDEL m: 24 \\e 2:7
2 0 APPEND n x: 25 \\e 2:4
1 0 GETRANGE n 0 -1: 26 \\e 1:8
2 0 SETNX n 1: 27 \\e 2:4
2 0 DECRBY n 1: 28 \\e 2:46
2 0 HEXISTS n a: 29 \\e 2:68
2 0 HMGET h a b: 30 \\e 2:14
2 0 DEL n: 31 \\e 2:4,1:32";

#[test]
fn strings_and_hashes_are_served_and_told(rt: HostRuntime) -> Result<(), Fail> {
    assert_eq!(rt; first_wrong(rt.alloc(), 100, STRINGS_AND_HASHES)?, None);
    Ok(())
}

// A table of two keys: an MGET of more drops the oldest, of its own keys too, and tells.
const SEVERAL_KEYS: &str = "\
0 0 admit: 1 \\e -
0 0 admit: 2 \\e -
1 0 HELLO 3: 3 \\e 1:144
2 0 HELLO 3: 4 \\e 2:144
2 0 CLIENT TRACKING ON: 5 \\e 2:5
2 0 SET s v: 6 \\e 2:5
2 0 HSET h f v: 7 \\e 2:4
1 0 MGET s h nope s: 8 \\e 1:24
2 0 SET nope v: 9 \\e 2:5
1 0 CLIENT TRACKING ON: 10 \\e 1:5
1 0 MGET s h s: 11 \\e 1:21
2 0 HDEL h f: 12 \\e 2:4,1:32
2 0 SET s w: 13 \\e 2:5,1:32
2 0 GET a: 14 \\e 2:3
1 0 MGET a b: 15 \\e 1:10
2 0 MGET b c d: 16 \\e 2:13,1:32,2:32,1:32,2:32
2 0 SET a v: 17 \\e 2:5
1 0 SET d v: 18 \\e 1:5,2:32
1 0 MGET: 19 \\e 1:51";

#[test]
fn a_read_of_several_keys_remembers_each(rt: HostRuntime) -> Result<(), Fail> {
    assert_eq!(rt; first_wrong(rt.alloc(), 100, SEVERAL_KEYS)?, None);
    Ok(())
}

// Keys that are due leave before a reply and at a tick, and a flush is told by null.
const TICKS: &str = "\
0 0 admit: 1 \\e -
0 0 admit: 2 \\e -
1 0 HELLO 3: 3 \\e 1:144
1 0 CLIENT TRACKING ON: 4 \\e 1:5
2 0 SET a 1 PX 5: 5 \\e 2:5
1 0 GET a: 6 \\e 1:7
0 5 tick: 0 quiet -
0 6 tick: 7 \\e 1:32
0 9 tick: 0 quiet -
2 0 SET a 1 PX 5: 8 \\e 2:5
1 0 GET a: 9 \\e 1:7
1 12 GET a: 10 \\e 1:32,1:3
2 0 FLUSHALL: 11 \\e 2:5,1:24
0 99 tick: 0 quiet -";

#[test]
fn a_book_tells_of_keys_that_leave_and_of_a_flush(rt: HostRuntime) -> Result<(), Fail> {
    assert_eq!(rt; first_wrong(rt.alloc(), 20, TICKS)?, None);
    Ok(())
}
