//! A client over two links, over tables: each line is a call and its answer. A line that begins
//! with `side` is a call on the invalidation link.
ghost use Rattle.std.specs.Prelude.{◌≡◌, ◌<◌, IfOk, length};
ghost use Rattle.shared_cache.specs.declared.log.Shape.TheVariants.{Pair};
ghost use Rattle.shared_cache.specs.Laws.{IsCall};

use super::client::{number_of, parts_of, query, value_of};
use super::dialogues::bytes_of;
use super::modes::caching_of;
use command_words::Query;
use resp_stream::ValueReader;
use resp_value::{NoMemory, Octets, Proto, Value, Values, Words};
use shared_cache::{ClientCall, ClientMode, ClientRefusal, ClientReply, ClientState, Shape, Wire};
use std::alloc::Global;
use std::process::Abort;
use std::test::Fail;

fn array_of(alloc: Global, first: &[u8], second: &[u8], third: Value) -> Result<Value, NoMemory> {
    let mut values = Values::new(alloc);
    values.push(Value::Blob(Octets::from_slice(alloc, first)?))?;
    values.push(Value::Blob(Octets::from_slice(alloc, second)?))?;
    values.push(third)?;
    Ok(Value::Array(values))
}

const CHANNEL: &[u8] = b"__redis__:invalidate";

// A value that a table names.
fn value_named(alloc: Global, name: &str, rest: &str) -> Result<Value, NoMemory> {
    match name {
        "id" => Ok(Value::Number(7)),
        "subscribed" => array_of(alloc, b"subscribe", CHANNEL, Value::Number(1)),
        "message" => {
            let mut keys = Values::new(alloc);
            keys.push(Value::Blob(Octets::from_slice(alloc, rest.as_bytes())?))?;
            array_of(alloc, b"message", CHANNEL, Value::Array(keys))
        }
        "message-flush" => array_of(alloc, b"message", CHANNEL, Value::Null),
        "message-number" => array_of(alloc, b"message", CHANNEL, Value::Number(1)),
        _ => value_of(alloc, name, rest),
    }
}

// The value of these bytes, as it is read off a link.
fn value_read(alloc: Global, text: &str) -> Result<Value, Fail> {
    let mut reader = ValueReader::new(alloc);
    reader.feed(bytes_of(alloc, text)?.as_slice())?;
    match reader.next_value() {
        Ok(Some(value)) => Ok(value),
        _ => Err("no value".into()),
    }
}

// A table has a value by its name, or by its bytes, in which `~` is the end of a line.
fn value_in(alloc: Global, text: &str) -> Result<Value, Fail> {
    if text.contains("~") {
        return value_read(alloc, text);
    }
    let (name, rest) = text.split_once(" ").unwrap_or((text, ""));
    Ok(value_named(alloc, name, rest)?)
}

fn words_of(alloc: Global, text: &str) -> Result<Words, Fail>
    ensures { IfOk result (λ words. 0 < length words) }
{
    let mut words = Words::new(alloc);
    for word in text.split(" ") {
        words.push(Octets::from_slice(alloc, word.as_bytes())?)?;
    }
    if words.as_slice().is_empty() {
        return Err("no words".into());
    }
    Ok(words)
}

fn query_of(alloc: Global, text: &str) -> Result<Query, Fail> {
    let words = words_of(alloc, text)?;
    Ok(Query::read(alloc, &words)?.ok_or("no query")?)
}

fn side_call(alloc: Global, client: &ClientState, text: &str) -> Result<ClientCall, Fail>
    requires { client.now.setup.mode.shape ≡ Pair }
    ensures { IfOk result (λ c. IsCall client.now.setup.mode c) }
{
    let (name, rest) = text.split_once(" ").unwrap_or((text, ""));
    match name {
        "take" => Ok(ClientCall::TakeOut(Wire::Side, number_of(rest))),
        "end" => Ok(ClientCall::End(Wire::Side)),
        _ => Ok(ClientCall::Got(Wire::Side, value_in(alloc, text)?)),
    }
}

// `get` asks for a key, `ask` asks a query's words, and `send` sends words.
fn main_call(alloc: Global, client: &ClientState, text: &str) -> Result<ClientCall, Fail>
    ensures { IfOk result (λ c. IsCall client.now.setup.mode c) }
{
    let (name, rest) = text.split_once(" ").unwrap_or((text, ""));
    match name {
        "get" => Ok(ClientCall::Ask(query(alloc, rest)?)),
        "ask" => Ok(ClientCall::Ask(query_of(alloc, rest)?)),
        "send" => Ok(ClientCall::Send(words_of(alloc, rest)?)),
        "poll" => Ok(ClientCall::Poll(number_of(rest))),
        "take" => Ok(ClientCall::TakeOut(Wire::Main, number_of(rest))),
        "end" => Ok(ClientCall::End(Wire::Main)),
        _ => Ok(ClientCall::Got(Wire::Main, value_in(alloc, text)?)),
    }
}

// The call of a line on that client, which has both links.
fn call_of(alloc: Global, client: &ClientState, text: &str) -> Result<ClientCall, Fail>
    requires { client.now.setup.mode.shape ≡ Pair }
    ensures { IfOk result (λ c. IsCall client.now.setup.mode c) }
{
    match text.strip_prefix("side ") {
        Some(rest) => side_call(alloc, client, rest),
        None => main_call(alloc, client, text),
    }
}

// The name of a refusal of the invalidation link begins with `side`.
fn told(reply: &ClientReply) -> (&'static str, u64) {
    match reply {
        ClientReply::Refused(ClientRefusal::Down { wire: Wire::Side }) => ("side-down", 0),
        ClientReply::Refused(ClientRefusal::Unexpected { wire: Wire::Side }) => {
            ("side-unexpected", 0)
        }
        ClientReply::Refused(ClientRefusal::BadPush { wire: Wire::Side }) => ("side-bad-push", 0),
        ClientReply::Refused(ClientRefusal::SetupRefused { wire: Wire::Side }) => {
            ("side-setup-refused", 0)
        }
        _ => parts_of(reply),
    }
}

fn is_answered<R: Abort>(
    rt: &R,
    alloc: Global,
    client: &mut ClientState,
    line: &str,
) -> Result<(), Fail>
    requires { client.old.setup.mode.shape ≡ Pair }
    ensures { client.new.setup.mode.shape ≡ Pair }
{
    let (call, wanted) = line.split_once(": ").ok_or("a line without an answer")?;
    let (name, number) = wanted.split_once(" ").unwrap_or((wanted, "0"));
    let call = call_of(alloc, client, call)?;
    let reply = client.turn(call);
    let (is, of) = told(&reply);
    assert_eq!(rt; is, name, "{line}");
    assert_eq!(rt; of, number_of(number), "{line}");
    Ok(())
}

fn goes_out<R: Abort>(
    rt: &R,
    client: &mut ClientState,
    call: ClientCall,
    bytes: &[u8],
) -> Result<(), Fail>
    requires shape { client.old.setup.mode.shape ≡ Pair }
    requires call { IsCall client.old.setup.mode call }
    ensures { client.new.setup.mode.shape ≡ Pair }
{
    match client.turn(call) {
        ClientReply::Bytes(out) => assert_eq!(rt; out.as_slice(), bytes),
        _ => return Err("no bytes".into()),
    }
    Ok(())
}

fn holds<R: Abort>(rt: &R, client: &ClientState, wanted: u64) {
    let mut count = 0u64;
    for place in 0..10usize {
        if client.held(place).is_some() {
            count = count.saturating_add(1);
        }
    }
    assert_eq!(rt; count, wanted);
}

// Beside calls, `out` and `side out` tell the bytes that are to be taken out, and `holds` how many
// entries are held.
fn play_line<R: Abort>(
    rt: &R,
    alloc: Global,
    client: &mut ClientState,
    line: &str,
) -> Result<(), Fail>
    requires { client.old.setup.mode.shape ≡ Pair }
    ensures { client.new.setup.mode.shape ≡ Pair }
{
    if let Some(text) = line.strip_prefix("out: ") {
        let bytes = bytes_of(alloc, text)?;
        return goes_out(
            rt,
            client,
            ClientCall::TakeOut(Wire::Main, 1000),
            bytes.as_slice(),
        );
    }
    if let Some(text) = line.strip_prefix("side out: ") {
        let bytes = bytes_of(alloc, text)?;
        return goes_out(
            rt,
            client,
            ClientCall::TakeOut(Wire::Side, 1000),
            bytes.as_slice(),
        );
    }
    if let Some(count) = line.strip_prefix("holds: ") {
        holds(rt, client, number_of(count));
        return Ok(());
    }
    is_answered(rt, alloc, client, line)
}

fn play<R: Abort>(rt: &R, alloc: Global, client: &mut ClientState, table: &str) -> Result<(), Fail>
    requires { client.old.setup.mode.shape ≡ Pair }
    ensures { client.new.setup.mode.shape ≡ Pair }
{
    for line in table.lines() {
        play_line(rt, alloc, client, line)?;
    }
    Ok(())
}

fn proto_of(name: &str) -> Proto {
    match name {
        "two" => Proto::Two,
        _ => Proto::Three,
    }
}

fn pair_of(alloc: Global, proto: Proto, caching: &str) -> Result<ClientMode, NoMemory>
    ensures { IfOk result (λ m. m.shape ≡ Pair) }
{
    Ok(ClientMode {
        shape: Shape::Pair,
        proto,
        caching: caching_of(alloc, caching)?,
        noloop: caching.contains("noloop"),
    })
}

// A mode as a table names it: the protocol, what is cached, and `noloop` and prefixes behind it.
fn mode_of(alloc: Global, text: &str) -> Result<ClientMode, NoMemory>
    ensures { IfOk result (λ m. m.shape ≡ Pair) }
{
    let (proto, caching) = text.split_once(" ").unwrap_or((text, ""));
    pair_of(alloc, proto_of(proto), caching)
}

fn plays_new<R: Abort>(
    rt: &R,
    alloc: Global,
    mode: &str,
    log_max: u64,
    table: &str,
) -> Result<(), Fail>
    requires { 0 < log_max }
{
    let mut client = ClientState::new(alloc, mode_of(alloc, mode)?, 2, log_max)?;
    play(rt, alloc, &mut client, table)
}

/// Plays each of the tables, which an empty line parts, on a new client whose log holds so many
/// entries.
pub fn plays_within<R: Abort>(
    rt: &R,
    alloc: Global,
    mode: &str,
    log_max: u64,
    tables: &str,
) -> Result<(), Fail>
    requires { 0 < log_max }
{
    for table in tables.split("\n\n") {
        plays_new(rt, alloc, mode, log_max, table)?;
    }
    Ok(())
}

// What is got on each link until the tracking command is answered.
const TOLD_THREE: &str = "\
map: noted
side map: noted
side id: noted";

const TOLD_TWO: &str = "\
side id: noted
side subscribed: noted";

fn is_told<R: Abort>(
    rt: &R,
    alloc: Global,
    client: &mut ClientState,
    proto: Proto,
) -> Result<(), Fail>
    requires { client.old.setup.mode.shape ≡ Pair }
    ensures { client.new.setup.mode.shape ≡ Pair }
{
    match proto {
        Proto::Two => play(rt, alloc, client, TOLD_TWO),
        Proto::Three => play(rt, alloc, client, TOLD_THREE),
    }
}

fn puts_tracking<R: Abort>(
    rt: &R,
    alloc: Global,
    client: &mut ClientState,
    proto: Proto,
    tracking: &str,
) -> Result<(), Fail>
    requires { client.old.setup.mode.shape ≡ Pair }
    ensures { client.new.setup.mode.shape ≡ Pair }
{
    if proto == Proto::Three {
        let before = bytes_of(alloc, "*2~$5~HELLO~$1~3~")?;
        goes_out(
            rt,
            client,
            ClientCall::TakeOut(Wire::Main, 1000),
            before.as_slice(),
        )?;
    }
    is_told(rt, alloc, client, proto)?;
    let bytes = bytes_of(alloc, tracking)?;
    goes_out(
        rt,
        client,
        ClientCall::TakeOut(Wire::Main, 1000),
        bytes.as_slice(),
    )
}

/// Whether these bytes are the tracking command of the mode.
pub fn has_tracking<R: Abort>(
    rt: &R,
    alloc: Global,
    proto: Proto,
    caching: &str,
    tracking: &str,
) -> Result<(), Fail> {
    let mut client = ClientState::new(alloc, pair_of(alloc, proto, caching)?, 2, 100)?;
    puts_tracking(rt, alloc, &mut client, proto, tracking)
}

fn play_ready<R: Abort>(
    rt: &R,
    alloc: Global,
    client: &mut ClientState,
    proto: Proto,
    table: &str,
) -> Result<(), Fail>
    requires { client.old.setup.mode.shape ≡ Pair }
    ensures { client.new.setup.mode.shape ≡ Pair }
{
    is_told(rt, alloc, client, proto)?;
    let _ = client.turn(ClientCall::TakeOut(Wire::Main, 1000));
    play(rt, alloc, client, "simple OK: noted")?;
    play(rt, alloc, client, table)
}

fn plays_ready<R: Abort>(rt: &R, alloc: Global, mode: &str, table: &str) -> Result<(), Fail> {
    let mode = mode_of(alloc, mode)?;
    let proto = mode.proto;
    let mut client = ClientState::new(alloc, mode, 2, 100)?;
    play_ready(rt, alloc, &mut client, proto, table)
}

/// Plays each on a new client whose handshakes are answered, and whose bytes are taken out.
pub fn plays<R: Abort>(rt: &R, alloc: Global, mode: &str, tables: &str) -> Result<(), Fail> {
    for table in tables.split("\n\n") {
        plays_ready(rt, alloc, mode, table)?;
    }
    Ok(())
}
