//! The printed form of a word, as schedules and transcripts have it.
ghost use Rattle.std.specs.Prelude.{◌≡◌, ◌++◌, ◌<◌, OnOk, OnErr, length, take};
ghost use Rattle.command_words.specs.Printed.{hex_digit, printed, printed_byte, printed_bytes};

use resp_value::NoMemory;

fn hex(digit: u8) -> u8
    requires { digit < 16 }
    ensures { result ≡ hex_digit digit }
{
    if digit < 10 {
        b'0' + digit
    } else {
        b'a' - 10 + digit
    }
}

fn put_byte(byte: u8, out: &mut Vec<u8>) -> Result<(), NoMemory>
    ensures ok { OnOk result (out.new.items ≡ out.old.items ++ printed_byte byte) }
    ensures err { OnErr result (out.new.items ≡ out.old.items) }
{
    match byte {
        b'\r' => out.extend_from_slice(b"\\r")?,
        b'\n' => out.extend_from_slice(b"\\n")?,
        b' ' => out.extend_from_slice(b"\\s")?,
        b'\\' => out.extend_from_slice(b"\\\\")?,
        0x21..=0x7e => out.push(byte)?,
        _ => out.extend_from_slice(&[b'\\', b'x', hex(byte / 16), hex(byte % 16)])?,
    }
    Ok(())
}

#[tactic(auto, unfolding(crate::specs::Printed::printed_bytes))]
fn put_bytes(bytes: &[u8], out: &mut Vec<u8>) -> Result<(), NoMemory>
    ensures ok { OnOk result (out.new.items ≡ out.old.items ++ printed_bytes bytes.now) }
    ensures err { OnErr result (take (length out.old.items) out.new.items ≡ out.old.items) }
{
    for byte in bytes {
        put_byte(*byte, out)?;
    }
    Ok(())
}

/// Appends the one printed form of a word: visible bytes stand for themselves, save the
/// backslash; `\r`, `\n`, `\s`, `\\` and `\xHH` (lower case) are the others, and `\e` is the
/// empty word.
pub fn put_printed(word: &[u8], out: &mut Vec<u8>) -> Result<(), NoMemory>
    ensures ok { OnOk result (out.new.items ≡ out.old.items ++ printed word.now) }
    ensures err { OnErr result (out.new.items ≡ out.old.items) }
{
    if word.is_empty() {
        out.extend_from_slice(b"\\e")?;
        return Ok(());
    }
    let start = out.len();
    match put_bytes(word, out) {
        Ok(()) => Ok(()),
        Err(e) => {
            out.truncate(start);
            Err(e)
        }
    }
}
