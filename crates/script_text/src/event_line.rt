//! The line of an event.
ghost use Rattle.std.specs.Prelude.{◌≡◌, ◌++◌, ◌∷◌, [], List, ℕ, OnOk, OnErr};
ghost use Rattle.std.specs.Fmt.{decimal};
ghost use Rattle.script_text.specs.Grammar.{amount_parts, caching_text, client_parts, event_text};
ghost use Rattle.script_text.specs.Grammar.{line_of, parts_text, prefix_parts, prefixes_in};
ghost use Rattle.script_text.specs.Grammar.{proto_text, shape_text};
ghost use Rattle.script_text.specs.Printed.{words_text};

use super::event::Event;
use super::line::{append, put_number, put_words};
use command_words::put_printed;
use resp_value::{NoMemory, Octets, Proto, Words};
use shared_cache::{Caching, ClientMode, Shape};

fn shape_text(shape: Shape) -> &'static [u8]
    ensures { result.now ≡ shape_text shape }
{
    match shape {
        Shape::Single => b"single",
        Shape::Pair => b"pair",
    }
}

fn proto_text(proto: Proto) -> &'static [u8]
    ensures { result.now ≡ proto_text proto }
{
    match proto {
        Proto::Two => b"2",
        Proto::Three => b"3",
    }
}

fn caching_text(caching: &Caching) -> &'static [u8]
    ensures { result.now ≡ caching_text caching.now }
{
    match caching {
        Caching::Default => b"default",
        Caching::OptIn => b"optin",
        Caching::OptOut => b"optout",
        Caching::Bcast(_) => b"bcast",
    }
}

fn put_part(part: &[u8], out: &mut Vec<u8>) -> Result<(), NoMemory>
    ensures { OnOk result (out.new.items ≡ out.old.items ++ 32 ∷ part.now) }
{
    append(out, b" ")?;
    append(out, part)
}

fn put_decimal(number: u64, out: &mut Vec<u8>) -> Result<(), NoMemory>
    ensures { OnOk result (out.new.items ≡ out.old.items ++ 32 ∷ decimal number) }
{
    append(out, b" ")?;
    put_number(number, out)
}

fn put_prefixes(prefixes: &Words, out: &mut Vec<u8>) -> Result<(), NoMemory>
    ensures { OnOk result (out.new.items
        ≡ out.old.items ++ parts_text (prefix_parts prefixes.now)) }
{
    for prefix in prefixes.as_slice() {
        append(out, b" prefix ")?;
        put_printed(prefix.as_slice(), out)?;
    }
    Ok(())
}

fn put_prefixes_in(caching: &Caching, out: &mut Vec<u8>) -> Result<(), NoMemory>
    ensures { OnOk result (out.new.items
        ≡ out.old.items ++ parts_text (prefix_parts (prefixes_in caching.now))) }
{
    match caching {
        Caching::Bcast(prefixes) => put_prefixes(prefixes, out),
        Caching::Default | Caching::OptIn | Caching::OptOut => Ok(()),
    }
}

fn put_mode(mode: &ClientMode, keys: u64, out: &mut Vec<u8>) -> Result<(), NoMemory>
    ensures { OnOk result (out.new.items
        ≡ out.old.items ++ parts_text (client_parts mode.now keys)) }
{
    put_part(shape_text(mode.shape), out)?;
    put_part(proto_text(mode.proto), out)?;
    put_part(caching_text(&mode.caching), out)?;
    put_decimal(keys, out)?;
    if mode.noloop {
        put_part(b"noloop", out)?;
    }
    put_prefixes_in(&mode.caching, out)
}

fn put_amount(amount: &Option<u64>, out: &mut Vec<u8>) -> Result<(), NoMemory>
    ensures { OnOk result (out.new.items ≡ out.old.items ++ parts_text (amount_parts amount.now)) }
{
    match amount {
        Some(count) => put_decimal(*count, out),
        None => Ok(()),
    }
}

fn put_kind(kind: &[u8], name: &Octets, out: &mut Vec<u8>) -> Result<(), NoMemory>
    ensures { OnOk result (out.new.items ≡ out.old.items ++ kind.now ++ name.now) }
{
    append(out, kind)?;
    append(out, name.as_slice())
}

fn put_move(
    kind: &[u8],
    link: &Octets,
    amount: &Option<u64>,
    out: &mut Vec<u8>,
) -> Result<(), NoMemory>
    ensures { OnOk result (out.new.items
        ≡ out.old.items ++ kind.now ++ link.now ++ parts_text (amount_parts amount.now)) }
{
    put_kind(kind, link, out)?;
    put_amount(amount, out)
}

fn put_request(kind: &[u8], name: &Octets, words: &Words, out: &mut Vec<u8>) -> Result<(), NoMemory>
    ensures { OnOk result (out.new.items
        ≡ out.old.items ++ kind.now ++ name.now ++ words_text words.now) }
{
    put_kind(kind, name, out)?;
    put_words(words, out)
}

fn put_unended(event: &Event, out: &mut Vec<u8>) -> Result<(), NoMemory>
    ensures { OnOk result (out.new.items ≡ out.old.items ++ line_of event.now) }
{
    match event {
        Event::Raw(link) => put_kind(b"raw ", link, out),
        Event::Say(link, words) => put_request(b"say ", link, words, out),
        Event::Bytes(link, bytes) => {
            put_kind(b"bytes ", link, out)?;
            append(out, b" ")?;
            put_printed(bytes.as_slice(), out)
        }
        Event::Client(client, mode, keys) => {
            put_kind(b"client ", client, out)?;
            put_mode(mode, *keys, out)
        }
        Event::Out(link, amount) => put_move(b"out ", link, amount, out),
        Event::Serve(link, amount) => put_move(b"serve ", link, amount, out),
        Event::Send(link, amount) => put_move(b"send ", link, amount, out),
        Event::Recv(link, amount) => put_move(b"recv ", link, amount, out),
        Event::Flow(link) => put_kind(b"flow ", link, out),
        Event::FlowAll => append(out, b"flow"),
        Event::Cut(link) => put_kind(b"cut ", link, out),
        Event::Now(moment) => {
            append(out, b"now")?;
            put_decimal(*moment, out)
        }
        Event::Tick => append(out, b"tick"),
        Event::Ask(client, query) => put_request(b"ask ", client, query.words(), out),
        Event::Do(client, words) => put_request(b"do ", client, words, out),
        Event::Poll(client, number) => {
            put_kind(b"poll ", client, out)?;
            put_decimal(*number, out)
        }
        Event::Show(client) => put_kind(b"show ", client, out),
    }
}

/// Appends the one line of an event with its LF; the name of a query stands in upper case. Where
/// the event is valid, `read_event` of the line without its LF answers the event. Where memory runs
/// out nothing is appended.
#[tactic(auto, unfolding(crate::specs::Grammar::event_text))]
pub fn put_event(event: &Event, out: &mut Vec<u8>) -> Result<(), NoMemory>
    ensures ok { OnOk result (out.new.items ≡ out.old.items ++ event_text event.now) }
    ensures err { OnErr result (out.new.items ≡ out.old.items) }
{
    let mut text = Vec::new(*out.allocator());
    put_unended(event, &mut text)?;
    text.push(b'\n')?;
    append(out, text.as_slice())
}
