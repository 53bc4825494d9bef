//! What no clause can say: the spellings in the standard's own words, and that calls succeed.
use resp_value::{NoMemory, Octets, Pairs, Proto, Value, Values, Words, put_request, put_value};
use std::alloc::Global;
use std::test::Fail;

fn text(alloc: Global, bytes: &[u8]) -> Result<Octets, NoMemory> {
    Octets::from_slice(alloc, bytes)
}

fn two_values(alloc: Global) -> Result<Values, NoMemory> {
    let mut values = Values::new(alloc);
    values.push(Value::Number(-7))?;
    values.push(Value::Null)?;
    Ok(values)
}

fn one_pair(alloc: Global) -> Result<Pairs, NoMemory> {
    let mut pairs = Pairs::new(alloc);
    pairs.push(Value::Bool(true), Value::Blob(text(alloc, b"")?))?;
    Ok(pairs)
}

/// Whether the value is spelled so, behind what is there.
fn is_spelled(alloc: Global, proto: Proto, value: &Value, wanted: &[u8]) -> Result<bool, NoMemory> {
    let mut out = Vec::from_slice(alloc, b"..")?;
    put_value(proto, value, &mut out)?;
    match out.as_slice() {
        [b'.', b'.', spelled @ ..] => Ok(spelled == wanted),
        _ => Ok(false),
    }
}

/// A value, and how the two protocols spell it.
#[derive(Drop)]
struct Row {
    value: Value,
    two: &'static [u8],
    three: &'static [u8],
}

fn text_row(a: Global, row: usize) -> Result<Row, NoMemory> {
    let (value, two, three): (Value, &'static [u8], &'static [u8]) = match row {
        0 => (Value::Simple(text(a, b"OK")?), b"+OK\r\n", b"+OK\r\n"),
        1 => (
            Value::Error(text(a, b"ERR no")?),
            b"-ERR no\r\n",
            b"-ERR no\r\n",
        ),
        2 => (
            Value::Blob(text(a, b"a\r\nb")?),
            b"$4\r\na\r\nb\r\n",
            b"$4\r\na\r\nb\r\n",
        ),
        3 => (
            Value::Verbatim(*b"txt", text(a, b"Some string")?),
            b"$11\r\nSome string\r\n",
            b"=15\r\ntxt:Some string\r\n",
        ),
        _ => (
            Value::BlobError(text(a, b"SYNTAX\r\nbad")?),
            b"-SYNTAX  bad\r\n",
            b"!11\r\nSYNTAX\r\nbad\r\n",
        ),
    };
    Ok(Row { value, two, three })
}

fn plain_row(row: usize) -> Row {
    let (value, two, three): (Value, &'static [u8], &'static [u8]) = match row {
        0 => (
            Value::Number(i64::MIN),
            b":-9223372036854775808\r\n",
            b":-9223372036854775808\r\n",
        ),
        1 => (Value::Bool(true), b":1\r\n", b"#t\r\n"),
        2 => (Value::Bool(false), b":0\r\n", b"#f\r\n"),
        3 => (Value::Null, b"$-1\r\n", b"_\r\n"),
        _ => (Value::NullArray, b"*-1\r\n", b"_\r\n"),
    };
    Row { value, two, three }
}

fn aggregate_row(a: Global, row: usize) -> Result<Row, NoMemory> {
    let (value, two, three): (Value, &'static [u8], &'static [u8]) = match row {
        0 => (
            Value::Array(two_values(a)?),
            b"*2\r\n:-7\r\n$-1\r\n",
            b"*2\r\n:-7\r\n_\r\n",
        ),
        1 => (
            Value::Set(two_values(a)?),
            b"*2\r\n:-7\r\n$-1\r\n",
            b"~2\r\n:-7\r\n_\r\n",
        ),
        2 => (
            Value::Push(two_values(a)?),
            b"*2\r\n:-7\r\n$-1\r\n",
            b">2\r\n:-7\r\n_\r\n",
        ),
        3 => (
            Value::Map(one_pair(a)?),
            b"*2\r\n:1\r\n$0\r\n\r\n",
            b"%1\r\n#t\r\n$0\r\n\r\n",
        ),
        _ => (
            Value::Map(Pairs::in_turn(a, two_values(a)?)?),
            b"*2\r\n:-7\r\n$-1\r\n",
            b"%1\r\n:-7\r\n_\r\n",
        ),
    };
    Ok(Row { value, two, three })
}

fn row_of(a: Global, number: usize) -> Result<Row, NoMemory> {
    match number / 5 {
        0 => text_row(a, number),
        1 => Ok(plain_row(number - 5)),
        _ => aggregate_row(a, number - 10),
    }
}

fn is_copy_spelled(alloc: Global, value: &Value, wanted: &[u8]) -> Result<bool, NoMemory> {
    let copy = value.copy()?;
    is_spelled(alloc, Proto::Three, &copy, wanted)
}

fn is_spelled_so(alloc: Global, row: &Row) -> Result<bool, NoMemory> {
    if !is_spelled(alloc, Proto::Two, &row.value, row.two)? {
        return Ok(false);
    }
    is_copy_spelled(alloc, &row.value, row.three)
}

fn is_row(alloc: Global, number: usize) -> Result<bool, NoMemory> {
    let row = row_of(alloc, number)?;
    is_spelled_so(alloc, &row)
}

#[test]
fn each_value_has_its_spelling(rt: HostRuntime) -> Result<(), Fail> {
    for number in 0..15 {
        assert!(rt; is_row(rt.alloc(), number)?, "{number}");
    }
    Ok(())
}

fn put_get_foo(alloc: Global, words: &mut Words) -> Result<(), NoMemory> {
    words.push(text(alloc, b"GET")?)?;
    words.push(text(alloc, b"foo")?.copy()?)
}

fn get_foo(alloc: Global) -> Result<Words, NoMemory> {
    let mut words = Words::new(alloc);
    put_get_foo(alloc, &mut words)?;
    Ok(words)
}

fn request_of(alloc: Global, words: &Words) -> Result<Vec<u8>, NoMemory> {
    let mut out = Vec::new(alloc);
    put_request(&words.copy()?, &mut out)?;
    Ok(out)
}

#[test]
fn a_request_is_an_array_of_blobs(rt: HostRuntime) -> Result<(), Fail> {
    let words = get_foo(rt.alloc())?;
    let request = request_of(rt.alloc(), &words)?;
    let wanted = b"*2\r\n$3\r\nGET\r\n$3\r\nfoo\r\n".as_slice();
    assert_eq!(rt; request.as_slice(), wanted);
    Ok(())
}
