//! The lines of a transcript, and how they are printed.
ghost use Rattle.std.specs.Prelude.{◌≡◌, ◌<◌, ◌↔◌, ◌++◌, ◌∷◌, [], List, ℕ, length, option_to_list};
ghost use Rattle.std.specs.Prelude.{IsSome, OnOk, OnErr, codes};
ghost use Rattle.std.specs.Fmt.{decimal};
ghost use Rattle.script_text.specs.declared.line.Line.TheVariants as line;
ghost use Rattle.script_text.specs.Printed.{entry_text, line_text, number_text, unended_text};
ghost use Rattle.script_text.specs.Printed.{value_text, words_text};

use command_words::put_printed;
use resp_value::{NoMemory, Octets, Proto, Value, Words, put_value};
use std::alloc::Global;
use std::marker::Model;

/// A printed line. The fields stand in the order of the line: `#E` is the number of an entry of
/// the history, `L` the name of a link, `X` that of a client.
#[derive(Drop)]
pub enum Line {
    /// `#E admit L ID`: a link was admitted, as the connection ID.
    Admit(u64, Octets, u64),
    /// `#E run L WORD..`: a request ran.
    Run(u64, Octets, Words),
    /// `#E drop L`: behind it, the connection was dropped, by a SHUTDOWN or since more bytes waited
    /// for it than the limit.
    Drop(u64, Octets),
    /// `L bad F O`: the bytes at the server's or the client's end broke the protocol, by the fault
    /// F at the offset O.
    Bad {
        link: Octets,
        number: u64,
        offset: u64,
    },
    /// `#E close L`: the server closed the connection.
    Close(u64, Octets),
    /// `#E take L N`: N bytes were taken for the link.
    Take(u64, Octets, u64),
    /// `#E tick N`: the keys that were due at the moment N left.
    Tick(u64, u64),
    /// `L < TEXT`: the bytes that the client's end read.
    Read(Octets, Octets),
    /// `L fault N`: what the client read ended its link, by the client's refusal N.
    Fault(Octets, u64),
    /// `L end`: the client's end read an end.
    End(Octets),
    /// `X hit VALUE from P at W`: an answer from the cache, read by the entry P, and the answer at
    /// the point W of the history.
    Hit {
        client: Octets,
        value: Value,
        entry: u64,
        point: u64,
    },
    /// `X miss N`: the query is sent as command number N.
    Miss(Octets, u64),
    /// `X sent N`: another command is sent, as number N.
    Sent(Octets, u64),
    /// `X answer N VALUE`: the reply to command number N.
    Answer(Octets, u64, Value),
    /// `X wait N`: there is no reply to command number N yet.
    Wait(Octets, u64),
    /// `X down`: the client's link has ended.
    Down(Octets),
    /// `X not-ready`: the handshake is not answered yet.
    NotReady(Octets),
    /// `X holds WORD.. = VALUE from P`: the value of a query that is held, read by the entry P.
    Holds(Octets, Words, Value, u64),
    /// `X complete C`: up to the entry C the client has processed all that was sent to it.
    Complete(Octets, u64),
}

/// A list of lines.
#[derive(Drop)]
pub struct Lines {
    items: Vec<Line>,
}

impl Model for Lines {
    ghost use Rattle.std.specs.Prelude.{List};
    ghost use Rattle.std.specs.Coded.{codes};
    ghost use Rattle.resp_value.specs.TreeCoding.{tree_code};
    ghost use Rattle.script_text.specs.declared.line.Line.{Line};

    ghost Value = { List Line };

    ghost coded = { Prim.hlevel (codes, tree_code) };

    ghost view = { λ a. a.items.items };
}

impl Lines {
    ghost use Rattle.std.specs.Borrow.{sem};
    ghost use Rattle.script_text.specs.Lending.{lends_items};

    /// No line.
    pub fn new(alloc: Global) -> Lines
        ensures { result ≡ [] }
    {
        Lines {
            items: Vec::new(alloc),
        }
    }

    /// Puts a line after the others.
    pub fn push(&mut self, line: Line) -> Result<(), NoMemory>
        ensures ok { OnOk result (self.new ≡ self.old ++ line ∷ []) }
        ensures err { OnErr result (self.new ≡ self.old) }
    {
        self.items.push(line)?;
        Ok(())
    }

    /// Takes the last line back.
    pub fn pop(&mut self) -> Option<Line>
        ensures items { self.old ≡ self.new ++ option_to_list result }
        ensures some { IsSome result ↔ (0 < length self.old) }
    {
        self.items.pop()
    }

    /// The vector of the lines, for places that are taken before it is known what they are for.
    pub fn items_mut(&mut self) -> &mut Vec<Line>
        ensures* writes_back { sem 𝓛 (lends_items self.entry result) }
        ensures items { result.now.items ≡ self.old }
    {
        &mut self.items
    }

    /// The lines in order.
    pub fn as_slice(&self) -> &[Line]
        ensures { result.now ≡ self.now }
    {
        self.items.as_slice()
    }
}

pub fn append(out: &mut Vec<u8>, bytes: &[u8]) -> Result<(), NoMemory>
    ensures ok { OnOk result (out.new.items ≡ out.old.items ++ bytes.now) }
    ensures err { OnErr result (out.new.items ≡ out.old.items) }
{
    out.extend_from_slice(bytes)?;
    Ok(())
}

/// Appends a number in decimal. Where memory runs out nothing is appended.
pub fn put_number(number: u64, out: &mut Vec<u8>) -> Result<(), NoMemory>
    ensures ok { OnOk result (out.new.items ≡ out.old.items ++ decimal number) }
    ensures err { OnErr result (out.new.items ≡ out.old.items) }
{
    let digits = number.to_string(*out.allocator())?;
    append(out, digits.as_bytes())
}

fn put_entry(number: u64, what: &[u8], link: &Octets, out: &mut Vec<u8>) -> Result<(), NoMemory>
    ensures { OnOk result (out.new.items ≡ out.old.items ++ entry_text number what.now link.now) }
{
    append(out, b"#")?;
    put_number(number, out)?;
    append(out, what)?;
    append(out, link.as_slice())
}

fn put_number_of(name: &Octets, what: &[u8], number: u64, out: &mut Vec<u8>) -> Result<(), NoMemory>
    ensures { OnOk result (out.new.items ≡ out.old.items ++ number_text name.now what.now number) }
{
    append(out, name.as_slice())?;
    append(out, what)?;
    put_number(number, out)
}

fn put_named(name: &Octets, what: &[u8], out: &mut Vec<u8>) -> Result<(), NoMemory>
    ensures { OnOk result (out.new.items ≡ out.old.items ++ name.now ++ what.now) }
{
    append(out, name.as_slice())?;
    append(out, what)
}

pub fn put_words(words: &Words, out: &mut Vec<u8>) -> Result<(), NoMemory>
    ensures { OnOk result (out.new.items ≡ out.old.items ++ words_text words.now) }
{
    for word in words.as_slice() {
        append(out, b" ")?;
        put_printed(word.as_slice(), out)?;
    }
    Ok(())
}

pub fn put_shown(value: &Value, out: &mut Vec<u8>) -> Result<(), NoMemory>
    ensures { OnOk result (out.new.items ≡ out.old.items ++ value_text value.now) }
{
    let mut spelled = Vec::new(*out.allocator());
    put_value(Proto::Three, value, &mut spelled)?;
    put_printed(spelled.as_slice(), out)
}

fn put_last(before: &[u8], number: u64, out: &mut Vec<u8>) -> Result<(), NoMemory>
    ensures { OnOk result (out.new.items ≡ out.old.items ++ before.now ++ decimal number) }
{
    append(out, before)?;
    put_number(number, out)
}

fn put_entry_number(
    entry: u64,
    what: &[u8],
    link: &Octets,
    number: u64,
    out: &mut Vec<u8>,
) -> Result<(), NoMemory>
    ensures { OnOk result (out.new.items
        ≡ out.old.items ++ entry_text entry what.now link.now ++ codes " " ++ decimal number) }
{
    put_entry(entry, what, link, out)?;
    put_last(b" ", number, out)
}

fn put_hit(
    client: &Octets,
    value: &Value,
    entry: u64,
    point: u64,
    out: &mut Vec<u8>,
) -> Result<(), NoMemory>
    ensures { OnOk result (out.new.items
        ≡ out.old.items ++ unended_text (line.Hit client.now value.now entry point)) }
{
    put_named(client, b" hit ", out)?;
    put_shown(value, out)?;
    put_last(b" from ", entry, out)?;
    put_last(b" at ", point, out)
}

fn put_answer(
    client: &Octets,
    number: u64,
    value: &Value,
    out: &mut Vec<u8>,
) -> Result<(), NoMemory>
    ensures { OnOk result (out.new.items
        ≡ out.old.items ++ unended_text (line.Answer client.now number value.now)) }
{
    put_number_of(client, b" answer ", number, out)?;
    append(out, b" ")?;
    put_shown(value, out)
}

fn put_holds(
    client: &Octets,
    words: &Words,
    value: &Value,
    entry: u64,
    out: &mut Vec<u8>,
) -> Result<(), NoMemory>
    ensures { OnOk result (out.new.items
        ≡ out.old.items ++ unended_text (line.Holds client.now words.now value.now entry)) }
{
    put_named(client, b" holds", out)?;
    put_words(words, out)?;
    append(out, b" = ")?;
    put_shown(value, out)?;
    put_last(b" from ", entry, out)
}

fn put_text(line: &Line, out: &mut Vec<u8>) -> Result<(), NoMemory>
    ensures { OnOk result (out.new.items ≡ out.old.items ++ unended_text line.now) }
{
    match line {
        Line::Admit(entry, link, id) => put_entry_number(*entry, b" admit ", link, *id, out),
        Line::Run(entry, link, words) => {
            put_entry(*entry, b" run ", link, out)?;
            put_words(words, out)
        }
        Line::Bad {
            link,
            number,
            offset,
        } => {
            put_number_of(link, b" bad ", *number, out)?;
            put_last(b" ", *offset, out)
        }
        Line::Drop(entry, link) => put_entry(*entry, b" drop ", link, out),
        Line::Close(entry, link) => put_entry(*entry, b" close ", link, out),
        Line::Take(entry, link, count) => put_entry_number(*entry, b" take ", link, *count, out),
        Line::Tick(entry, moment) => {
            append(out, b"#")?;
            put_number(*entry, out)?;
            put_last(b" tick ", *moment, out)
        }
        Line::Read(link, bytes) => {
            put_named(link, b" < ", out)?;
            put_printed(bytes.as_slice(), out)
        }
        Line::Fault(link, number) => put_number_of(link, b" fault ", *number, out),
        Line::End(link) => put_named(link, b" end", out),
        Line::Hit {
            client,
            value,
            entry,
            point,
        } => put_hit(client, value, *entry, *point, out),
        Line::Miss(client, number) => put_number_of(client, b" miss ", *number, out),
        Line::Sent(client, number) => put_number_of(client, b" sent ", *number, out),
        Line::Answer(client, number, value) => put_answer(client, *number, value, out),
        Line::Wait(client, number) => put_number_of(client, b" wait ", *number, out),
        Line::Down(client) => put_named(client, b" down", out),
        Line::NotReady(client) => put_named(client, b" not-ready", out),
        Line::Holds(client, words, value, entry) => put_holds(client, words, value, *entry, out),
        Line::Complete(client, entries) => put_number_of(client, b" complete ", *entries, out),
    }
}

/// Appends a printed line with its LF. Words, values and the bytes that were read stand in their
/// printed form. Where memory runs out nothing is appended.
#[tactic(auto, unfolding(crate::specs::Printed::line_text))]
pub fn put_line(line: &Line, out: &mut Vec<u8>) -> Result<(), NoMemory>
    ensures ok { OnOk result (out.new.items ≡ out.old.items ++ line_text line.now) }
    ensures err { OnErr result (out.new.items ≡ out.old.items) }
{
    let mut text = Vec::new(*out.allocator());
    put_text(line, &mut text)?;
    text.push(b'\n')?;
    out.extend_from_slice(text.as_slice())?;
    Ok(())
}
