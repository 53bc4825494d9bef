//! A client under its lock, with every key in its cache, and threads that ask it.
ghost use Rattle.std.specs.Prelude.{◌≡◌, ◌≤◌, ◌<◌, ◌*◌, ◌-◌, ℕ, max, IfOk, OnOk};
ghost use Rattle.std.specs.Thread.{IsSync};
ghost use Rattle.turn_lock.specs.Seats.{split_seat};
ghost use Rattle.turn_lock.specs.Own.{IsWithin};
ghost use Rattle.shared_cache.specs.ClientFields.{IsClientMode};
ghost use Rattle.script_bench.specs.Asks.{key_of, query_for, spread_of, IsKeyQuery, Asks};
ghost use Rattle.script_bench.specs.Filled.{content_is, client_for, GrowsBy, greeting};
ghost use Rattle.script_bench.specs.Filled.{answered, fetched, IsReady};

use command_words::Query;
use resp_value::{NoMemory, Octets, Pairs, Proto, Value, Words};
use shared_cache::{Caching, ClientMode, Shape, Wire};
use shared_client::{Asked, ClientSetup, SharedClient, ask, got, open, poll, take_out};
use std::alloc::Global;
use std::sync::Wait;
use std::thread::{Threads, join};
use turn_lock::{Seat, TurnLock};

/// Memory ran out, or the client refused a call.
#[derive(Drop)]
pub struct Unready;

impl From<NoMemory> for Unready {
    fn from(_: NoMemory) -> Self {
        Unready
    }
}

/// The key of that number, of 16 bytes.
pub fn key(alloc: Global, number: u64) -> Result<Vec<u8>, NoMemory>
    ensures { IfOk result (λ k. k.items ≡ key_of number) }
{
    let mut bytes = Vec::from_slice(alloc, b"key:")?;
    let mut rest = number;
    for _ in 0..12u64 {
        let digit = (rest % 10) as u8;
        bytes.push(b'0' + digit)?;
        rest /= 10;
    }
    Ok(bytes)
}

fn query(alloc: Global, number: u64) -> Result<Query, NoMemory>
    ensures { IfOk result (λ q. q ≡ query_for number) }
{
    let mut words = Words::new(alloc);
    words.push(Octets::from_slice(alloc, b"GET")?)?;
    words.push(Octets::from_vec(key(alloc, number)?))?;
    match Query::read(alloc, &words)? {
        Some(query) => Ok(query),
        None => unreachable!(),
    }
}

/// What each key has: 64 bytes.
pub fn content(alloc: Global) -> Result<Value, NoMemory>
    ensures { IfOk result (λ v. v ≡ content_is) }
{
    let bytes = b"0123456789abcdef0123456789abcdef0123456789abcdef0123456789abcdef";
    Ok(Value::Blob(Octets::from_slice(alloc, bytes)?))
}

/// Numbers below `keys`, far from one another.
pub fn spread(place: u64, keys: u64) -> u64
    requires { 0 < keys }
    ensures value { result ≡ spread_of place keys }
    ensures below { result < keys }
{
    place.wrapping_mul(2654435761) % keys
}

// What was sent goes out, its reply comes, and is handed out.
fn answer<R: Wait>(
    rt: &R,
    lock: &TurnLock<SharedClient>,
    seat: &mut Seat<SharedClient>,
    number: u64,
    value: Value,
) -> Result<(), Unready>
    requires lock { seat.old.lock ≡ lock.now }
    requires within { IsWithin seat.old }
    ensures { OnOk result (GrowsBy (answered number value) seat.old seat.new) }
{
    let Ok(Some(_)) = take_out(rt, lock, seat, Wire::Main) else {
        return Err(Unready);
    };
    let Ok(()) = got(rt, lock, seat, Wire::Main, value) else {
        return Err(Unready);
    };
    let Ok(Some(_)) = poll(rt, lock, seat, number) else {
        return Err(Unready);
    };
    Ok(())
}

// A miss of the key of that number, and its answer.
fn fill<R: Wait>(
    rt: &R,
    alloc: Global,
    lock: &TurnLock<SharedClient>,
    seat: &mut Seat<SharedClient>,
    key: u64,
) -> Result<(), Unready>
    requires lock { seat.old.lock ≡ lock.now }
    requires within { IsWithin seat.old }
    ensures { OnOk result ((number : ℕ) × GrowsBy (fetched key number) seat.old seat.new) }
{
    let query = query(alloc, key)?;
    let value = content(alloc)?;
    match ask(rt, lock, seat, query) {
        Ok(Asked::Sent { number }) => answer(rt, lock, seat, number, value),
        Ok(Asked::Hit { .. }) => Err(Unready),
        Err(_) => Err(Unready),
    }
}

// The handshake goes out, and is answered.
fn greet<R: Wait>(
    rt: &R,
    alloc: Global,
    lock: &TurnLock<SharedClient>,
    seat: &mut Seat<SharedClient>,
) -> Result<(), Unready>
    requires lock { seat.old.lock ≡ lock.now }
    requires within { IsWithin seat.old }
    ensures { OnOk result (GrowsBy greeting seat.old seat.new) }
{
    let accepted = Octets::from_slice(alloc, b"OK")?;
    let Ok(Some(_)) = take_out(rt, lock, seat, Wire::Main) else {
        return Err(Unready);
    };
    let Ok(()) = got(rt, lock, seat, Wire::Main, Value::Map(Pairs::new(alloc))) else {
        return Err(Unready);
    };
    match got(rt, lock, seat, Wire::Main, Value::Simple(accepted)) {
        Ok(()) => Ok(()),
        Err(_) => Err(Unready),
    }
}

fn setup(keys: u64) -> ClientSetup
    ensures setup { result ≡ client_for keys }
    ensures served { IsClientMode result.mode }
{
    ClientSetup {
        mode: ClientMode {
            shape: Shape::Single,
            proto: Proto::Three,
            caching: Caching::Default,
            noloop: false,
        },
        capacity: keys,
        log_max: 4_000_000_000,
    }
}

/// A client whose handshake is answered, and that was answered each key below that number.
pub fn ready_client<R: Wait>(
    rt: &R,
    alloc: Global,
    keys: u64,
) -> Result<(TurnLock<SharedClient>, Seat<SharedClient>), Unready>
    requires { (0 < keys) × (keys ≤ 1000000) }
    ensures { IfOk result (λ r. IsReady r.0 keys keys r.1) }
{
    let (lock, mut seat) = open(alloc, setup(keys))?;
    greet(rt, alloc, &lock, &mut seat)?;
    for key in 0..keys {
        fill(rt, alloc, &lock, &mut seat, key)?;
    }
    Ok((lock, seat))
}

/// A seat that asked, and how many of its queries were answered from the cache.
#[derive(Drop)]
pub struct Asking {
    pub seat: Seat<SharedClient>,
    pub hits: u64,
}

// Asks once; the answer is 1 for a hit.
fn ask_once<R: Wait>(
    rt: &R,
    lock: &TurnLock<SharedClient>,
    seat: &mut Seat<SharedClient>,
    query: Query,
) -> u64
    requires lock { seat.old.lock ≡ lock.now }
    requires within { IsWithin seat.old }
    ensures { Asks (λ q. q ≡ query) 1 result seat.old seat.new }
{
    match ask(rt, lock, seat, query) {
        Ok(Asked::Hit { .. }) => 1,
        Ok(Asked::Sent { .. }) => 0,
        Err(_) => 0,
    }
}

fn ask_often<R: Wait>(
    rt: &R,
    alloc: Global,
    lock: &TurnLock<SharedClient>,
    mut seat: Seat<SharedClient>,
    keys: u64,
    times: u64,
) -> Asking
    requires lock { seat.lock ≡ lock.now }
    requires within { IsWithin seat }
    requires keys { 0 < keys }
    ensures { Asks (IsKeyQuery keys) times result.hits seat result.seat }
{
    let mut hits = 0u64;
    for place in 0..times {
        let Ok(query) = query(alloc, spread(place, keys)) else {
            break;
        };
        hits = hits.saturating_add(ask_once(rt, lock, &mut seat, query));
    }
    Asking { seat, hits }
}

// A seat for another thread.
fn split_off(lock: &TurnLock<SharedClient>, seat: &mut Seat<SharedClient>) -> Seat<SharedClient>
    requires lock { seat.old.lock ≡ lock.now }
    requires within { IsWithin seat.old }
    requires parts { 2 ≤ seat.old.parts }
    ensures old { seat.new ≡ record seat.old { parts = seat.old.parts - 1 } }
    ensures new { result ≡ split_seat seat.old result.number 1 }
    ensures within { IsWithin seat.new × IsWithin result }
{
    lock.split(seat, 1)
}

/// So many threads ask, each so many times.
pub fn ask_in_threads<R: Threads + Wait + Sync>(
    rt: &R,
    alloc: Global,
    lock: &TurnLock<SharedClient>,
    mut seat: Seat<SharedClient>,
    keys: u64,
    times: u64,
    threads: u64,
) -> Asking
    requires lock { seat.lock ≡ lock.now }
    requires within { IsWithin seat }
    requires keys { 0 < keys }
    ensures { Asks (IsKeyQuery keys) (max threads 1 * times) result.hits seat result.seat }
{
    if threads <= 1 || seat.parts() < 2 {
        return ask_often(rt, alloc, lock, seat, keys, times);
    }
    let left = threads - 1;
    let other = split_off(lock, &mut seat);
    let (mine, others) = join(
        rt,
        || -> Asking
            requires { IsSync R.row × (other.lock ≡ lock.now) × IsWithin other × (0 < keys) }
            ensures { Asks (IsKeyQuery keys) times result.hits other result.seat }
        { ask_often(rt, alloc, lock, other, keys, times) },
        || -> Asking
            requires { IsSync R.row × (seat.lock ≡ lock.now) × IsWithin seat × (0 < keys) }
            ensures { Asks (IsKeyQuery keys) (max left 1 * times) result.hits seat result.seat }
        { ask_in_threads(rt, alloc, lock, seat, keys, times, left) },
    );
    let Asking { mut seat, hits } = mine;
    lock.join(&mut seat, others.seat);
    Asking {
        seat,
        hits: hits.saturating_add(others.hits),
    }
}
