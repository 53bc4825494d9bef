//! Values and requests as bytes.
ghost use Rattle.std.specs.Prelude.{◌≡◌, ◌<◌, ◌^◌, ◌++◌, ◌∷◌, [], ℕ, List, OnOk, OnErr, length};
ghost use Rattle.std.specs.Prelude.{map};
ghost use Rattle.resp_value.specs.ValueTree.{tree_of};
ghost use Rattle.resp_value.specs.Lists.{IsPrefix};
ghost use Rattle.resp_value.specs.Tree.{trees_of, rows_of, count, row_count};
ghost use Rattle.resp_value.specs.Spelling.{line, head, counted, plain_byte, spelling, spellings};
ghost use Rattle.resp_value.specs.Spelling.{row_spellings, blob_spellings, request_spelling};

use super::octets::{NoMemory, Octets, Words};
use super::value::{Pairs, Proto, Value, Values};
use itoa::Buffer;

/// A type byte, a text, and the end of the line.
#[tactic(auto, using(crate::proofs::Prefixes::growing), unfolding(crate::specs::Spelling::line))]
fn put_line(mark: u8, text: &[u8], out: &mut Vec<u8>) -> Result<(), NoMemory>
    ensures ok { OnOk result (out.new.items ≡ out.old.items ++ line mark text.now) }
    ensures err { OnErr result (IsPrefix out.old.items out.new.items) }
{
    out.push(mark)?;
    out.extend_from_slice(text)?;
    out.extend_from_slice(b"\r\n")?;
    Ok(())
}

/// A line with a number of bytes or of elements.
#[tactic(auto, unfolding(crate::specs::Spelling::head))]
fn put_head(mark: u8, number: usize, out: &mut Vec<u8>) -> Result<(), NoMemory>
    ensures ok { OnOk result (out.new.items ≡ out.old.items ++ head mark number) }
    ensures err { OnErr result (IsPrefix out.old.items out.new.items) }
{
    let mut digits = Buffer::new();
    put_line(mark, digits.format(number).as_bytes(), out)
}

/// A length, that many bytes, and an end.
#[tactic(auto, using(crate::proofs::Prefixes::growing), unfolding(crate::specs::Spelling::counted))]
fn put_counted(mark: u8, bytes: &[u8], out: &mut Vec<u8>) -> Result<(), NoMemory>
    ensures ok { OnOk result (out.new.items ≡ out.old.items ++ counted mark bytes.now) }
    ensures err { OnErr result (IsPrefix out.old.items out.new.items) }
{
    put_head(mark, bytes.len(), out)?;
    out.extend_from_slice(bytes)?;
    out.extend_from_slice(b"\r\n")?;
    Ok(())
}

/// An error line whose text has a space for each CR and each LF.
#[tactic(auto, using(crate::proofs::Prefixes::growing), unfolding(crate::specs::Spelling::line))]
fn put_error_line(text: &[u8], out: &mut Vec<u8>) -> Result<(), NoMemory>
    ensures ok { OnOk result (out.new.items ≡ out.old.items ++ line 45 (map plain_byte text.now)) }
    ensures err { OnErr result (IsPrefix out.old.items out.new.items) }
{
    out.push(b'-')?;
    for byte in text {
        out.push(if *byte == 13 || *byte == 10 {
            b' '
        } else {
            *byte
        })?;
    }
    out.extend_from_slice(b"\r\n")?;
    Ok(())
}

/// Blobs, one after the other.
#[tactic(auto, using(crate::proofs::Prefixes::growing))]
fn put_blobs(words: &[Octets], out: &mut Vec<u8>) -> Result<(), NoMemory>
    ensures ok { OnOk result (out.new.items ≡ out.old.items ++ blob_spellings words.now) }
    ensures err { OnErr result (IsPrefix out.old.items out.new.items) }
{
    for word in words {
        put_counted(b'$', word.as_slice(), out)?;
    }
    Ok(())
}

/// The three bytes of a format, a colon, and a text; all of them are counted.
#[tactic(auto, using(crate::proofs::Prefixes::growing), unfolding(crate::specs::Spelling::counted))]
fn put_verbatim(format: &[u8; 3], text: &[u8], out: &mut Vec<u8>) -> Result<(), NoMemory>
    ensures ok { OnOk result
        (out.new.items ≡ out.old.items ++ counted 61 (format.now ++ 58 ∷ text.now)) }
    ensures err { OnErr result (IsPrefix out.old.items out.new.items) }
{
    put_head(b'=', text.len() + 4, out)?;
    out.extend_from_slice(format)?;
    out.push(b':')?;
    out.extend_from_slice(text)?;
    out.extend_from_slice(b"\r\n")?;
    Ok(())
}

/// How many values there are.
fn number_of_values(values: &Values) -> usize
    ensures { result ≡ count (trees_of values.now) }
{
    values.as_slice().len()
}

/// How many pairs there are.
fn number_of_pairs(pairs: &Pairs) -> usize
    ensures count { result ≡ row_count (rows_of pairs.now) }
    ensures small { result < 2 ^ 63 }
{
    pairs.as_slice().len()
}

#[cycle(spell)]
#[tactic(auto, using(crate::proofs::Prefixes::growing))]
fn spell(proto: Proto, value: &Value, out: &mut Vec<u8>) -> Result<(), NoMemory>
    ensures ok { OnOk result (out.new.items ≡ out.old.items ++ spelling proto (tree_of value.now)) }
    ensures err { OnErr result (IsPrefix out.old.items out.new.items) }
{
    match (proto, value) {
        (_, Value::Simple(text)) => put_line(b'+', text.as_slice(), out),
        (_, Value::Error(text)) => put_line(b'-', text.as_slice(), out),
        (_, Value::Number(number)) => {
            let mut digits = Buffer::new();
            put_line(b':', digits.format(*number).as_bytes(), out)
        }
        (_, Value::Blob(bytes)) => put_counted(b'$', bytes.as_slice(), out),
        (Proto::Two, Value::Verbatim(_, text)) => put_counted(b'$', text.as_slice(), out),
        (Proto::Three, Value::Verbatim(format, text)) => put_verbatim(format, text.as_slice(), out),
        (Proto::Two, Value::BlobError(text)) => put_error_line(text.as_slice(), out),
        (Proto::Three, Value::BlobError(text)) => put_counted(b'!', text.as_slice(), out),
        (Proto::Two, Value::Bool(true)) => put_line(b':', b"1", out),
        (Proto::Two, Value::Bool(false)) => put_line(b':', b"0", out),
        (Proto::Three, Value::Bool(true)) => put_line(b'#', b"t", out),
        (Proto::Three, Value::Bool(false)) => put_line(b'#', b"f", out),
        (Proto::Two, Value::Null) => put_line(b'$', b"-1", out),
        (Proto::Two, Value::NullArray) => put_line(b'*', b"-1", out),
        (Proto::Three, Value::Null | Value::NullArray) => put_line(b'_', b"", out),
        (_, Value::Array(values)) => spell_all(b'*', proto, values, out),
        (Proto::Two, Value::Map(pairs)) => {
            put_head(b'*', 2 * number_of_pairs(pairs), out)?;
            spell_pairs(proto, pairs, out)
        }
        (Proto::Three, Value::Map(pairs)) => {
            put_head(b'%', number_of_pairs(pairs), out)?;
            spell_pairs(proto, pairs, out)
        }
        (Proto::Two, Value::Set(values)) => spell_all(b'*', proto, values, out),
        (Proto::Three, Value::Set(values)) => spell_all(b'~', proto, values, out),
        (Proto::Two, Value::Push(values)) => spell_all(b'*', proto, values, out),
        (Proto::Three, Value::Push(values)) => spell_all(b'>', proto, values, out),
    }
}

/// The number of the values, and the values.
#[cycle(spell)]
#[tactic(auto, using(crate::proofs::Prefixes::growing))]
fn spell_all(mark: u8, proto: Proto, values: &Values, out: &mut Vec<u8>) -> Result<(), NoMemory>
    ensures ok { OnOk result
        (out.new.items
        ≡ out.old.items
        ++ (head mark (count (trees_of values.now)) ++ spellings proto (trees_of values.now))) }
    ensures err { OnErr result (IsPrefix out.old.items out.new.items) }
{
    put_head(mark, number_of_values(values), out)?;
    spell_values(proto, values, out)
}

/// Values, one after the other.
#[cycle(spell)]
#[tactic(auto, using(crate::proofs::Prefixes::growing))]
fn spell_values(proto: Proto, values: &Values, out: &mut Vec<u8>) -> Result<(), NoMemory>
    ensures ok { OnOk result
        (out.new.items ≡ out.old.items ++ spellings proto (trees_of values.now)) }
    ensures err { OnErr result (IsPrefix out.old.items out.new.items) }
{
    for value in values.items.as_slice() {
        spell(proto, value, out)?;
    }
    Ok(())
}

/// Keys and values in turn.
#[cycle(spell)]
#[tactic(auto, using(crate::proofs::Prefixes::growing))]
fn spell_pairs(proto: Proto, pairs: &Pairs, out: &mut Vec<u8>) -> Result<(), NoMemory>
    ensures ok { OnOk result
        (out.new.items ≡ out.old.items ++ row_spellings proto (rows_of pairs.now)) }
    ensures err { OnErr result (IsPrefix out.old.items out.new.items) }
{
    for (key, value) in pairs.items.as_slice() {
        spell(proto, key, out)?;
        spell(proto, value, out)?;
    }
    Ok(())
}

/// Appends the spelling of a value on a connection of this protocol.
#[tactic(auto, using(crate::proofs::Prefixes::cut_back))]
pub fn put_value(proto: Proto, value: &Value, out: &mut Vec<u8>) -> Result<(), NoMemory>
    ensures ok { OnOk result (out.new.items ≡ out.old.items ++ spelling proto (tree_of value.now)) }
    ensures err { OnErr result (out.new.items ≡ out.old.items) }
{
    let start = out.len();
    match spell(proto, value, out) {
        Ok(()) => Ok(()),
        Err(e) => {
            out.truncate(start);
            Err(e)
        }
    }
}

/// An array of blobs.
#[tactic(auto, using(crate::proofs::Prefixes::growing))]
fn put_words(words: &[Octets], out: &mut Vec<u8>) -> Result<(), NoMemory>
    ensures ok { OnOk result (out.new.items ≡ out.old.items ++ request_spelling words.now) }
    ensures err { OnErr result (IsPrefix out.old.items out.new.items) }
{
    put_head(b'*', words.len(), out)?;
    put_blobs(words, out)
}

/// Appends a request: the array of the words as blobs.
#[tactic(auto, using(std::proofs::Common::append_assoc, crate::proofs::Prefixes::cut_back))]
pub fn put_request(words: &Words, out: &mut Vec<u8>) -> Result<(), NoMemory>
    ensures ok { OnOk result (out.new.items ≡ out.old.items ++ request_spelling words.now) }
    ensures err { OnErr result (out.new.items ≡ out.old.items) }
{
    let start = out.len();
    match put_words(words.as_slice(), out) {
        Ok(()) => Ok(()),
        Err(e) => {
            out.truncate(start);
            Err(e)
        }
    }
}
