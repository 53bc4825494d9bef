//! The texts of the replies to words that are no command.
ghost use Rattle.std.specs.Prelude.{◌≡◌, ◌++◌, IfOk, OnOk, codes};
ghost use Rattle.std.specs.Str.{bytes_eq};
ghost use Rattle.command_words.specs.declared.command.WordFault.TheVariants.{Arity, Unknown};
ghost use Rattle.command_words.specs.Words.{fault_text, lower_name};

use super::command::WordFault;
use super::names::is_named;
use resp_value::{NoMemory, Octets, Words};
use std::alloc::Global;

fn put_lower_name(words: &Words, out: &mut Vec<u8>) -> Result<(), NoMemory>
    ensures { OnOk result (out.new.items ≡ out.old.items ++ lower_name words.now) }
{
    if let [name, ..] = words.as_slice() {
        let mut lower = Vec::from_slice(*out.allocator(), name.as_slice())?;
        lower.make_ascii_lowercase();
        out.extend_from_slice(lower.as_slice())?;
    }
    Ok(())
}

fn arity_text(alloc: Global, words: &Words) -> Result<Octets, NoMemory>
    ensures { IfOk result (λ t. t ≡ fault_text words.now Arity) }
{
    let mut text = Vec::new(alloc);
    text.extend_from_slice(b"ERR wrong number of arguments for '")?;
    put_lower_name(words, &mut text)?;
    text.extend_from_slice(b"' command")?;
    Ok(Octets::from_vec(text))
}

fn is_client(words: &Words) -> bool
    ensures { result ≡ bytes_eq (lower_name words.now) (codes "client") }
{
    match words.as_slice() {
        [name, ..] => is_named(name, b"client"),
        [] => false,
    }
}

fn unknown_text(alloc: Global, words: &Words) -> Result<Octets, NoMemory>
    ensures { IfOk result (λ t. t ≡ fault_text words.now Unknown) }
{
    if is_client(words) {
        Octets::from_slice(alloc, b"ERR unknown subcommand")
    } else {
        Octets::from_slice(alloc, b"ERR unknown command")
    }
}

/// The text of the error reply to words that read as this fault: those of Redis for the number of
/// words and for options, this project's own for an unknown name.
pub fn fault_text(alloc: Global, words: &Words, fault: WordFault) -> Result<Octets, NoMemory>
    ensures { IfOk result (λ t. t ≡ fault_text words.now fault) }
{
    match fault {
        WordFault::Unknown => unknown_text(alloc, words),
        WordFault::Arity => arity_text(alloc, words),
        WordFault::Syntax => Octets::from_slice(alloc, b"ERR syntax error"),
        WordFault::BadNumber => {
            Octets::from_slice(alloc, b"ERR value is not an integer or out of range")
        }
        WordFault::BadExpire => Octets::from_slice(alloc, b"ERR invalid expire time"),
        WordFault::NoMemory => Octets::from_slice(alloc, b""),
    }
}
