//! The parts of a line: names and words.
ghost use Rattle.std.specs.Prelude.{◌≡◌, ◌==◌, ◌<◌, ◌++◌, ◌∷◌, List, ℕ, IfOk, OnOk, map};
ghost use Rattle.std.specs.List.{list_all, slice_split};
ghost use Rattle.std.specs.Str.{bytes_eq};
ghost use Rattle.script_text.specs.Words.{escaped, hex_value, is_link, is_name, is_name_byte};
ghost use Rattle.script_text.specs.Words.{is_name_with, is_within, number_within, unescaped};
ghost use Rattle.script_text.specs.Words.{word_of, words_of};
ghost use Rattle.script_text.specs.Escapes.{unescaped_from};

use command_words::put_printed;
use resp_value::{NoMemory, Octets, Words};
use std::alloc::Global;

const LONGEST_NAME: usize = 16;

pub fn line_parts(alloc: Global, line: &[u8]) -> Result<Vec<&[u8]>, NoMemory>
    ensures { IfOk result (λ v. map (λ p. p.now) v.items ≡ slice_split (λ b. b == 32) line.now) }
{
    Ok(line.split(|b| *b == b' ').collect(alloc)?)
}

fn has_name_bytes(text: &[u8]) -> bool
    ensures { result ≡ list_all is_name_byte text.now }
{
    text.iter().all(|b| matches!(*b, b'a'..=b'z' | b'0'..=b'9'))
}

pub fn is_text(part: &[u8], text: &[u8]) -> bool
    ensures { result ≡ bytes_eq part.now text.now }
{
    part == text
}

pub fn is_name(text: &[u8]) -> bool
    ensures { result ≡ is_name text.now }
{
    !text.is_empty() && text.len() <= LONGEST_NAME && has_name_bytes(text)
}

fn is_name_with(ending: &[u8], text: &[u8]) -> bool
    ensures { result ≡ is_name_with ending.now text.now }
{
    match text.strip_suffix(ending) {
        Some(name) => is_name(name),
        None => false,
    }
}

pub fn is_link(text: &[u8]) -> bool
    ensures { result ≡ is_link text.now }
{
    is_name(text) || is_name_with(b".data", text) || is_name_with(b".inv", text)
}

/// Where a reader is in an escape.
#[derive(Clone, Copy)]
enum Escape {
    Outside,
    Backslash,
    Number,
    Digit(u8),
}

fn hex_value(digit: u8) -> u8
    ensures value { result ≡ hex_value digit }
    ensures small { result < 16 }
{
    match digit {
        b'0'..=b'9' => digit - b'0',
        b'a'..=b'f' => digit - b'a' + 10,
        _ => 0,
    }
}

fn put_escaped(letter: u8, out: &mut Vec<u8>) -> Result<(), NoMemory>
    ensures { OnOk result (out.new.items ≡ out.old.items ++ escaped letter) }
{
    match letter {
        b'r' => out.push(b'\r')?,
        b'n' => out.push(b'\n')?,
        b's' => out.push(b' ')?,
        b'\\' => out.push(b'\\')?,
        _ => {}
    }
    Ok(())
}

fn take_byte(escape: Escape, byte: u8, out: &mut Vec<u8>) -> Result<Escape, NoMemory>
    ensures { IfOk result (λ next. (rest : List ℕ)
        → out.old.items ++ unescaped_from escape (byte ∷ rest)
        ≡ out.new.items ++ unescaped_from next rest) }
{
    match escape {
        Escape::Outside => {
            if byte == b'\\' {
                return Ok(Escape::Backslash);
            }
            out.push(byte)?;
            Ok(Escape::Outside)
        }
        Escape::Backslash => {
            if byte == b'x' {
                return Ok(Escape::Number);
            }
            put_escaped(byte, out)?;
            Ok(Escape::Outside)
        }
        Escape::Number => Ok(Escape::Digit(byte)),
        Escape::Digit(high) => {
            out.push(16 * hex_value(high) + hex_value(byte))?;
            Ok(Escape::Outside)
        }
    }
}

fn unescape(alloc: Global, text: &[u8]) -> Result<Vec<u8>, NoMemory>
    ensures { IfOk result (λ word. word.items ≡ unescaped text.now) }
{
    let mut word = Vec::new(alloc);
    let mut escape = Escape::Outside;
    for byte in text {
        escape = take_byte(escape, *byte, &mut word)?;
    }
    Ok(word)
}

#[tactic(auto, unfolding(crate::specs::Words::word_of))]
pub fn read_word(alloc: Global, text: &[u8]) -> Result<Option<Octets>, NoMemory>
    ensures { IfOk result (λ o. o ≡ word_of text.now) }
{
    let word = unescape(alloc, text)?;
    let mut spelling = Vec::new(alloc);
    put_printed(word.as_slice(), &mut spelling)?;
    if spelling.as_slice() == text {
        Ok(Some(Octets::from_vec(word)))
    } else {
        Ok(None)
    }
}

pub fn read_words(alloc: Global, texts: &[&[u8]]) -> Result<Option<Words>, NoMemory>
    ensures { IfOk result (λ o. o ≡ words_of (map (λ t. t.now) texts.now)) }
{
    let mut words = Words::new(alloc);
    for text in texts {
        match read_word(alloc, text)? {
            Some(word) => words.push(word)?,
            None => return Ok(None),
        }
    }
    Ok(Some(words))
}

fn is_within(low: u64, high: u64, number: u64) -> bool
    ensures { result ≡ is_within low high number }
{
    low <= number && number <= high
}

#[tactic(auto, unfolding(crate::specs::Words::number_within))]
pub fn read_within(alloc: Global, low: u64, high: u64, text: &[u8]) -> Result<Option<u64>, NoMemory>
    ensures { IfOk result (λ o. o ≡ number_within low high text.now) }
{
    let Ok(digits) = str::from_utf8(text) else {
        return Ok(None);
    };
    let Ok(number) = digits.parse::<u64>() else {
        return Ok(None);
    };
    let spelling = number.to_string(alloc)?;
    if is_within(low, high, number) && spelling.as_bytes() == text {
        Ok(Some(number))
    } else {
        Ok(None)
    }
}
