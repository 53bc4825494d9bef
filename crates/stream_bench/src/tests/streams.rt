//! The standard's own bytes, whole and cut, and each limit at its number.
use resp_stream::{RequestReader, StreamFault, ValueReader};
use resp_value::{NoMemory, Proto, Value, Words, put_request, put_value};
use std::alloc::Global;
use std::test::Fail;

/// Whether the answer is these words, spelled as a request, or this fault.
fn is_request(
    alloc: Global,
    answer: &Result<Option<Words>, StreamFault>,
    want: &Result<&[u8], StreamFault>,
) -> Result<bool, NoMemory> {
    match (answer, want) {
        (Ok(Some(words)), Ok(bytes)) => {
            let mut out = Vec::new(alloc);
            put_request(words, &mut out)?;
            Ok(out.as_slice() == *bytes)
        }
        (Err(fault), Err(wanted)) => Ok(*fault == *wanted),
        _ => Ok(false),
    }
}

fn is_nothing(answer: &Result<Option<Words>, StreamFault>) -> bool {
    match answer {
        Ok(None) => true,
        _ => false,
    }
}

// A request's bytes, and the request or the fault that they hold.
fn request_row(row: usize) -> (&'static [u8], Result<&'static [u8], StreamFault>) {
    match row {
        0 => (
            b"*2\r\n$3\r\nGET\r\n$3\r\nfoo\r\n",
            Ok(b"*2\r\n$3\r\nGET\r\n$3\r\nfoo\r\n"),
        ),
        1 => (b"*0\r\n*-1\r\nPING\n", Ok(b"*1\r\n$4\r\nPING\r\n")),
        2 => (b" GET\t a  \r\n", Ok(b"*2\r\n$3\r\nGET\r\n$1\r\na\r\n")),
        3 => (b"*1\r\n$-1", Err(StreamFault::BadByte { offset: 5 })),
        _ => (b"GET \"a\"", Err(StreamFault::BadByte { offset: 4 })),
    }
}

/// Whether what is read next is wanted.
fn next_is_request(
    alloc: Global,
    reader: &mut RequestReader,
    want: &Result<&[u8], StreamFault>,
) -> Result<bool, NoMemory> {
    let answer = reader.next_request();
    is_request(alloc, &answer, want)
}

/// Whether nothing is read next, or what is wanted.
fn next_may_be_request(
    alloc: Global,
    reader: &mut RequestReader,
    want: &Result<&[u8], StreamFault>,
) -> Result<bool, NoMemory> {
    let answer = reader.next_request();
    if is_nothing(&answer) {
        return Ok(true);
    }
    is_request(alloc, &answer, want)
}

fn is_request_in_two(
    alloc: Global,
    reader: &mut RequestReader,
    front: &[u8],
    back: &[u8],
    want: &Result<&[u8], StreamFault>,
) -> Result<bool, NoMemory> {
    reader.feed(front)?;
    if !next_may_be_request(alloc, reader, want)? {
        return Ok(false);
    }
    reader.feed(back)?;
    next_is_request(alloc, reader, want)
}

fn is_request_cut(
    alloc: Global,
    bytes: &[u8],
    want: &Result<&[u8], StreamFault>,
    cut: usize,
) -> Result<bool, NoMemory> {
    let (front, back) = bytes.split_at(cut.min(bytes.len()));
    let mut reader = RequestReader::new(alloc);
    is_request_in_two(alloc, &mut reader, front, back, want)
}

fn is_request_in_bytes(
    alloc: Global,
    reader: &mut RequestReader,
    bytes: &[u8],
    want: &Result<&[u8], StreamFault>,
) -> Result<bool, NoMemory> {
    for byte in bytes {
        if !next_may_be_request(alloc, reader, want)? {
            return Ok(false);
        }
        reader.feed(&[*byte])?;
    }
    next_is_request(alloc, reader, want)
}

fn is_request_byte_by_byte(
    alloc: Global,
    bytes: &[u8],
    want: &Result<&[u8], StreamFault>,
) -> Result<bool, NoMemory> {
    let mut reader = RequestReader::new(alloc);
    is_request_in_bytes(alloc, &mut reader, bytes, want)
}

fn is_request_in_pieces(
    alloc: Global,
    bytes: &[u8],
    want: &Result<&[u8], StreamFault>,
) -> Result<bool, NoMemory> {
    for cut in 0..bytes.len() {
        if !is_request_cut(alloc, bytes, want, cut)? {
            return Ok(false);
        }
    }
    is_request_byte_by_byte(alloc, bytes, want)
}

#[test]
fn requests_are_read_however_their_bytes_are_cut(rt: HostRuntime) -> Result<(), Fail> {
    for row in 0..5 {
        let (bytes, want) = request_row(row);
        assert!(rt; is_request_in_pieces(rt.alloc(), bytes, &want)?, "{row}");
    }
    Ok(())
}

fn put_word(bytes: &mut Vec<u8>, head: &[u8], length: usize) -> Result<(), NoMemory> {
    bytes.extend_from_slice(head)?;
    for _ in 0..length / 64 {
        bytes.extend_from_slice(&[b'a'; 64])?;
    }
    for _ in 0..length % 64 {
        bytes.push(b'a')?;
    }
    bytes.extend_from_slice(b"\r\n")?;
    Ok(())
}

/// How many words a request has, or the offset and the number of what is too long.
#[derive(Clone, Copy, PartialEq, Eq)]
enum Size {
    None,
    Words(usize),
    TooLong(u64, u64),
    Other,
}

fn size_of(answer: &Result<Option<Words>, StreamFault>) -> Size {
    match answer {
        Ok(Some(words)) => Size::Words(words.as_slice().len()),
        Ok(None) => Size::None,
        Err(StreamFault::TooLong { offset, number }) => Size::TooLong(*offset, *number),
        Err(_) => Size::Other,
    }
}

fn size_read(alloc: Global, bytes: &[u8]) -> Result<Size, NoMemory> {
    let mut reader = RequestReader::new(alloc);
    reader.feed(bytes)?;
    Ok(size_of(&reader.next_request()))
}

fn size_of_word(alloc: Global, head: &[u8], length: usize) -> Result<Size, NoMemory> {
    let mut bytes = Vec::new(alloc);
    put_word(&mut bytes, head, length)?;
    size_read(alloc, bytes.as_slice())
}

#[test]
fn the_limit_of_a_word_is_exact(rt: HostRuntime) -> Result<(), Fail> {
    let size = size_of_word(rt.alloc(), b"*1\r\n$16777216\r\n", 16777216)?;
    assert!(rt; size == Size::Words(1));
    let size = size_read(rt.alloc(), b"*1\r\n$16777217")?;
    assert!(rt; size == Size::TooLong(12, 16777217));
    Ok(())
}

fn empty_words(alloc: Global, head: &[u8], count: usize) -> Result<Size, NoMemory> {
    let mut bytes = Vec::from_slice(alloc, head)?;
    for _ in 0..count {
        bytes.extend_from_slice(b"$0\r\n\r\n")?;
    }
    size_read(alloc, bytes.as_slice())
}

#[test]
fn the_limit_of_the_number_of_words_is_exact(rt: HostRuntime) -> Result<(), Fail> {
    let size = empty_words(rt.alloc(), b"*65536\r\n", 65536)?;
    assert!(rt; size == Size::Words(65536));
    let size = size_read(rt.alloc(), b"*65537")?;
    assert!(rt; size == Size::TooLong(5, 65537));
    Ok(())
}

#[test]
fn the_limit_of_a_line_is_exact(rt: HostRuntime) -> Result<(), Fail> {
    assert!(rt; size_of_word(rt.alloc(), b"", 65536)? == Size::Words(1));
    assert!(rt; size_of_word(rt.alloc(), b"", 65537)? == Size::TooLong(65536, 65537));
    Ok(())
}

fn feed_word(
    alloc: Global,
    reader: &mut RequestReader,
    head: &[u8],
    length: usize,
) -> Result<(), NoMemory> {
    let mut bytes = Vec::new(alloc);
    put_word(&mut bytes, head, length)?;
    reader.feed(bytes.as_slice())
}

fn feed_four(
    alloc: Global,
    reader: &mut RequestReader,
    head: &[u8],
    length: usize,
) -> Result<(), NoMemory> {
    reader.feed(b"*4\r\n")?;
    for _ in 0..3 {
        feed_word(alloc, reader, b"$16777216\r\n", 16777216)?;
    }
    feed_word(alloc, reader, head, length)
}

/// The size of a request of three words of 16 MiB and one more.
fn size_of_four(alloc: Global, head: &[u8], length: usize) -> Result<Size, NoMemory> {
    let mut reader = RequestReader::new(alloc);
    feed_four(alloc, &mut reader, head, length)?;
    Ok(size_of(&reader.next_request()))
}

// 67,108,864 bytes are a request, and one byte more is a fault.
#[test]
fn the_limit_of_a_whole_request_is_exact(rt: HostRuntime) -> Result<(), Fail> {
    let size = size_of_four(rt.alloc(), b"$16777160\r\n", 16777160)?;
    assert!(rt; size == Size::Words(4));
    let size = size_of_four(rt.alloc(), b"$16777161\r\n", 16777161)?;
    assert!(rt; size == Size::TooLong(67108864, 67108865));
    Ok(())
}

/// Whether the answer is this value, spelled in the third protocol, or this fault, or nothing.
fn is_value(
    alloc: Global,
    answer: &Result<Option<Value>, StreamFault>,
    want: &Result<&[u8], StreamFault>,
) -> Result<bool, NoMemory> {
    match (answer, want) {
        (Ok(Some(value)), Ok(bytes)) => {
            let mut out = Vec::new(alloc);
            put_value(Proto::Three, value, &mut out)?;
            Ok(out.as_slice() == *bytes)
        }
        (Ok(None), Ok(bytes)) => Ok(bytes.is_empty()),
        (Err(fault), Err(wanted)) => Ok(*fault == *wanted),
        _ => Ok(false),
    }
}

fn is_no_value(answer: &Result<Option<Value>, StreamFault>) -> bool {
    match answer {
        Ok(None) => true,
        _ => false,
    }
}

/// Whether what is read next is wanted.
fn next_is_value(
    alloc: Global,
    reader: &mut ValueReader,
    want: &Result<&[u8], StreamFault>,
) -> Result<bool, NoMemory> {
    let answer = reader.next_value();
    is_value(alloc, &answer, want)
}

/// Whether nothing is read next, or what is wanted.
fn next_may_be_value(
    alloc: Global,
    reader: &mut ValueReader,
    want: &Result<&[u8], StreamFault>,
) -> Result<bool, NoMemory> {
    let answer = reader.next_value();
    if is_no_value(&answer) {
        return Ok(true);
    }
    is_value(alloc, &answer, want)
}

fn is_value_in_two(
    alloc: Global,
    reader: &mut ValueReader,
    front: &[u8],
    back: &[u8],
    want: &Result<&[u8], StreamFault>,
) -> Result<bool, NoMemory> {
    reader.feed(front)?;
    if !next_may_be_value(alloc, reader, want)? {
        return Ok(false);
    }
    reader.feed(back)?;
    next_is_value(alloc, reader, want)
}

fn is_value_cut(
    alloc: Global,
    bytes: &[u8],
    want: &Result<&[u8], StreamFault>,
    cut: usize,
) -> Result<bool, NoMemory> {
    let (front, back) = bytes.split_at(cut.min(bytes.len()));
    let mut reader = ValueReader::new(alloc);
    is_value_in_two(alloc, &mut reader, front, back, want)
}

fn is_value_in_bytes(
    alloc: Global,
    reader: &mut ValueReader,
    bytes: &[u8],
    want: &Result<&[u8], StreamFault>,
) -> Result<bool, NoMemory> {
    for byte in bytes {
        if !next_may_be_value(alloc, reader, want)? {
            return Ok(false);
        }
        reader.feed(&[*byte])?;
    }
    next_is_value(alloc, reader, want)
}

fn is_value_byte_by_byte(
    alloc: Global,
    bytes: &[u8],
    want: &Result<&[u8], StreamFault>,
) -> Result<bool, NoMemory> {
    let mut reader = ValueReader::new(alloc);
    is_value_in_bytes(alloc, &mut reader, bytes, want)
}

fn is_value_in_pieces(
    alloc: Global,
    bytes: &[u8],
    want: &Result<&[u8], StreamFault>,
) -> Result<bool, NoMemory> {
    for cut in 0..bytes.len() {
        if !is_value_cut(alloc, bytes, want, cut)? {
            return Ok(false);
        }
    }
    is_value_byte_by_byte(alloc, bytes, want)
}

// Bytes that are no value, and their fault.
fn fault_row(row: usize) -> (&'static [u8], StreamFault) {
    match row {
        0 => (
            b"$16777217",
            StreamFault::TooLong {
                offset: 8,
                number: 16777217,
            },
        ),
        1 => (
            b"*65537",
            StreamFault::TooLong {
                offset: 5,
                number: 65537,
            },
        ),
        2 => (
            b"%32769",
            StreamFault::TooLong {
                offset: 5,
                number: 32769,
            },
        ),
        3 => (
            b"*1\r\n*1\r\n*1\r\n*1\r\n*1\r\n*1\r\n*1\r\n*1\r\n*1\r\n",
            StreamFault::TooDeep { offset: 32 },
        ),
        4 => (
            b",1.5\r\n",
            StreamFault::NotServed {
                offset: 0,
                byte: 44,
            },
        ),
        5 => (
            b"$?",
            StreamFault::NotServed {
                offset: 1,
                byte: 63,
            },
        ),
        6 => (b"*1\r\n>", StreamFault::BadByte { offset: 4 }),
        7 => (b":9223372036854775808", StreamFault::BadByte { offset: 19 }),
        8 => (b"=3\r", StreamFault::BadByte { offset: 2 }),
        9 => (b"=5\r\ntxt;", StreamFault::BadByte { offset: 7 }),
        10 => (b"=?", StreamFault::BadByte { offset: 1 }),
        _ => (b"+a\nb", StreamFault::BadByte { offset: 2 }),
    }
}

#[test]
fn faults_of_values_are_found_however_their_bytes_are_cut(rt: HostRuntime) -> Result<(), Fail> {
    for row in 0..12 {
        let (bytes, fault) = fault_row(row);
        assert!(rt;
            is_value_in_pieces(rt.alloc(), bytes, &Err(fault))?,
            "{row}"
        );
    }
    Ok(())
}

// Bytes, and how the third protocol spells the value in them; nothing where it is not whole.
fn value_row(row: usize) -> (&'static [u8], &'static [u8]) {
    match row {
        0 => (b":-0\r\n", b":0\r\n"),
        1 => (b"$3\r\nfo", b""),
        2 => (b":+0009223372036854775\r\n", b":9223372036854775\r\n"),
        3 => (b":-9223372036854775808\r\n", b":-9223372036854775808\r\n"),
        4 => (b"+OK\r\n", b"+OK\r\n"),
        5 => (b"-ERR no\r\n", b"-ERR no\r\n"),
        6 => (b"$-1\r\n", b"_\r\n"),
        7 => (b"*-1\r\n", b"_\r\n"),
        8 => (b"=8\r\ntxt:a\r\nb\r\n", b"=8\r\ntxt:a\r\nb\r\n"),
        9 => (
            b"%2\r\n$1\r\na\r\n#t\r\n!1\r\n\n\r\n*2\r\n~0\r\n_\r\n",
            b"%2\r\n$1\r\na\r\n#t\r\n!1\r\n\n\r\n*2\r\n~0\r\n_\r\n",
        ),
        _ => (
            b">2\r\n$10\r\ninvalidate\r\n*1\r\n$3\r\nfoo\r\n",
            b">2\r\n$10\r\ninvalidate\r\n*1\r\n$3\r\nfoo\r\n",
        ),
    }
}

#[test]
fn values_are_read_however_their_bytes_are_cut(rt: HostRuntime) -> Result<(), Fail> {
    for row in 0..11 {
        let (bytes, value) = value_row(row);
        assert!(rt; is_value_in_pieces(rt.alloc(), bytes, &Ok(value))?, "{row}");
    }
    Ok(())
}

fn is_one(answer: &Result<Option<Value>, StreamFault>) -> bool {
    match answer {
        Ok(Some(_)) => true,
        _ => false,
    }
}

fn reads(alloc: Global, bytes: &[u8]) -> Result<bool, NoMemory> {
    let mut reader = ValueReader::new(alloc);
    reader.feed(bytes)?;
    Ok(is_one(&reader.next_value()))
}

fn nulls(alloc: Global, head: &[u8], count: usize) -> Result<Vec<u8>, NoMemory> {
    let mut bytes = Vec::from_slice(alloc, head)?;
    for _ in 0..count {
        bytes.extend_from_slice(b"_\r\n")?;
    }
    Ok(bytes)
}

fn reads_word(alloc: Global, head: &[u8], length: usize) -> Result<bool, NoMemory> {
    let mut bytes = Vec::new(alloc);
    put_word(&mut bytes, head, length)?;
    reads(alloc, bytes.as_slice())
}

#[test]
fn the_limits_of_a_blob_and_of_a_line_are_exact(rt: HostRuntime) -> Result<(), Fail> {
    assert!(rt; reads_word(rt.alloc(), b"$16777216\r\n", 16777216)?);
    assert!(rt; reads_word(rt.alloc(), b"+", 65536)?);
    assert!(rt; !reads_word(rt.alloc(), b"+", 65537)?);
    Ok(())
}

const EIGHT_LEVELS: &[u8] = b"*1\r\n*1\r\n*1\r\n*1\r\n*1\r\n*1\r\n*1\r\n*1\r\n:1\r\n";

#[test]
fn the_limits_of_aggregates_are_exact(rt: HostRuntime) -> Result<(), Fail> {
    assert!(rt; reads(rt.alloc(), &nulls(rt.alloc(), b"*65536\r\n", 65536)?)?);
    assert!(rt; reads(rt.alloc(), &nulls(rt.alloc(), b"%32768\r\n", 65536)?)?);
    assert!(rt; reads(rt.alloc(), EIGHT_LEVELS)?);
    Ok(())
}
