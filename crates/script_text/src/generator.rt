//! Draws from a number, and the events that a step draws.
ghost use Rattle.std.specs.Prelude.{◌≡◌, ◌+◌, ◌<◌, ◌∷◌, [], None, List, ℕ, IfOk, OnOk, codes};
ghost use Rattle.std.specs.Prelude.{option_to_list};
ghost use Rattle.std.specs.Fmt.{decimal};
ghost use Rattle.script_text.specs.declared.event.Event.TheVariants as event;
ghost use Rattle.script_text.specs.Storm.{clock_behind, del_words, draw, get_words, lapsing_words};
ghost use Rattle.script_text.specs.Storm.{later, next_state, number_below, set_words, state_behind};
ghost use Rattle.script_text.specs.Storm.{step_at, storm_client, storm_key, storm_link};

use super::event::Event;
use command_words::Query;
use resp_value::{NoMemory, Octets, Words};
use std::alloc::Global;

const MULTIPLIER: u64 = 6_364_136_223_846_793_005;

const INCREMENT: u64 = 1_442_695_040_888_963_407;

/// A linear congruential generator of which the high bits are drawn, and the clock's value.
#[derive(Clone, Copy)]
pub struct Generator {
    pub state: u64,
    pub clock: u64,
}

/// The event of a step, and the one behind it where it has two.
#[derive(Drop)]
pub struct StepEvents {
    pub first: Event,
    pub second: Option<Event>,
}

fn client_name(number: u64) -> &'static [u8]
    ensures { result.now ≡ storm_client number }
{
    match number {
        0 => b"a",
        1 => b"b",
        2 => b"c",
        _ => b"d",
    }
}

fn link_name(number: u64) -> &'static [u8]
    ensures { result.now ≡ storm_link number }
{
    match number {
        0 => b"a.data",
        1 => b"b.inv",
        2 => b"b.data",
        3 => b"c.inv",
        4 => b"c.data",
        5 => b"d.data",
        _ => b"w",
    }
}

/// The client of that number.
pub fn client(alloc: Global, number: u64) -> Result<Octets, NoMemory>
    ensures { IfOk result (λ name. name ≡ storm_client number) }
{
    Octets::from_slice(alloc, client_name(number))
}

fn link(alloc: Global, number: u64) -> Result<Octets, NoMemory>
    ensures { IfOk result (λ name. name ≡ storm_link number) }
{
    Octets::from_slice(alloc, link_name(number))
}

/// The connection without a client.
pub fn writer(alloc: Global) -> Result<Octets, NoMemory>
    ensures { IfOk result (λ name. name ≡ codes "w") }
{
    Octets::from_slice(alloc, b"w")
}

fn decimal(alloc: Global, number: u64) -> Result<Octets, NoMemory>
    ensures { IfOk result (λ word. word ≡ decimal number) }
{
    let digits = number.to_string(alloc)?;
    Octets::from_slice(alloc, digits.as_bytes())
}

fn key(alloc: Global, number: u64) -> Result<Octets, NoMemory>
    ensures { IfOk result (λ word. word ≡ storm_key number) }
{
    let digits = number.to_string(alloc)?;
    let mut key = Octets::from_slice(alloc, b"k")?;
    key.append(digits.as_bytes())?;
    Ok(key)
}

fn words_of_key(alloc: Global, name: &[u8], number: u64) -> Result<Words, NoMemory>
    ensures { IfOk result (λ words. words ≡ name.now ∷ storm_key number ∷ []) }
{
    let mut words = Words::new(alloc);
    words.push(Octets::from_slice(alloc, name)?)?;
    words.push(key(alloc, number)?)?;
    Ok(words)
}

fn set_words(alloc: Global, key: u64, value: u64) -> Result<Words, NoMemory>
    ensures { IfOk result (λ words. words ≡ set_words key value) }
{
    let mut words = words_of_key(alloc, b"SET", key)?;
    words.push(decimal(alloc, value)?)?;
    Ok(words)
}

fn ask(alloc: Global, number: u64, key: u64) -> Result<Event, NoMemory>
    ensures { IfOk result (λ e. e ≡ event.Ask (storm_client number) (get_words key)) }
{
    let client = client(alloc, number)?;
    let words = words_of_key(alloc, b"GET", key)?;
    match Query::read(alloc, &words)? {
        Some(query) => Ok(Event::Ask(client, query)),
        None => unreachable!(),
    }
}

fn send_set(alloc: Global, number: u64, key: u64, value: u64) -> Result<Event, NoMemory>
    ensures { IfOk result (λ e. e ≡ event.Do (storm_client number) (set_words key value)) }
{
    let client = client(alloc, number)?;
    Ok(Event::Do(client, set_words(alloc, key, value)?))
}

fn say_set(alloc: Global, key: u64, value: u64) -> Result<Event, NoMemory>
    ensures { IfOk result (λ e. e ≡ event.Say (codes "w") (set_words key value)) }
{
    let writer = writer(alloc)?;
    Ok(Event::Say(writer, set_words(alloc, key, value)?))
}

fn say_lapsing(alloc: Global, key: u64, value: u64, life: u64) -> Result<Event, NoMemory>
    ensures { IfOk result (λ e. e ≡ event.Say (codes "w") (lapsing_words key value life)) }
{
    let writer = writer(alloc)?;
    let mut words = set_words(alloc, key, value)?;
    words.push(Octets::from_slice(alloc, b"PX")?)?;
    words.push(decimal(alloc, life)?)?;
    Ok(Event::Say(writer, words))
}

fn say_del(alloc: Global, key: u64) -> Result<Event, NoMemory>
    ensures { IfOk result (λ e. e ≡ event.Say (codes "w") (del_words key)) }
{
    let writer = writer(alloc)?;
    Ok(Event::Say(writer, words_of_key(alloc, b"DEL", key)?))
}

fn alone(first: Event) -> StepEvents
    ensures { result.first ∷ option_to_list result.second ≡ first ∷ [] }
{
    StepEvents {
        first,
        second: None,
    }
}

fn in_turn(first: Event, second: Event) -> StepEvents
    ensures { result.first ∷ option_to_list result.second ≡ first ∷ second ∷ [] }
{
    StepEvents {
        first,
        second: Some(second),
    }
}

fn out_and_serve(alloc: Global, number: u64) -> Result<StepEvents, NoMemory>
    ensures { IfOk result (λ step. step.first ∷ option_to_list step.second
        ≡ event.Out (storm_link number) None ∷ event.Serve (storm_link number) None ∷ []) }
{
    let (out, served) = (link(alloc, number)?, link(alloc, number)?);
    Ok(in_turn(Event::Out(out, None), Event::Serve(served, None)))
}

impl Generator {
    /// Draws a number below that one.
    #[tactic(auto, unfolding(crate::specs::Storm::next_state, crate::specs::Storm::number_below))]
    fn below(&mut self, count: u64) -> u64
        requires { 0 < count }
        ensures number { result ≡ number_below count (next_state self.old.state) }
        ensures small { result < count }
        ensures state { self.new.state ≡ next_state self.old.state }
        ensures clock { self.new.clock ≡ self.old.clock }
    {
        self.state = self.state.wrapping_mul(MULTIPLIER).wrapping_add(INCREMENT);
        (self.state >> 33) % count
    }

    /// Sets the clock on by a draw, and ticks.
    fn tick(&mut self) -> StepEvents
        ensures events { result.first ∷ option_to_list result.second
            ≡ event.Now (later self.old.clock (draw self.old.state 1 20)) ∷ event.Tick ∷ [] }
        ensures state { self.new.state ≡ next_state self.old.state }
        ensures clock { self.new.clock ≡ later self.old.clock (draw self.old.state 1 20) }
    {
        let more = self.below(20);
        self.clock = self.clock.saturating_add(more);
        in_turn(Event::Now(self.clock), Event::Tick)
    }

    /// Draws a step.
    #[tactic(auto, unfolding(crate::specs::Storm::step_at))]
    pub fn step(&mut self, alloc: Global) -> Result<StepEvents, NoMemory>
        ensures events { IfOk result (λ step. step.first ∷ option_to_list step.second
            ≡ (step_at self.old.state self.old.clock).events) }
        ensures state { OnOk result (self.new.state
            ≡ state_behind (step_at self.old.state self.old.clock).draws self.old.state) }
        ensures clock { OnOk result (self.new.clock
            ≡ clock_behind (step_at self.old.state self.old.clock).events self.old.clock) }
    {
        match self.below(16) {
            0..=5 => Ok(alone(ask(alloc, self.below(4), self.below(16))?)),
            6 => Ok(alone(send_set(alloc, self.below(4), self.below(16), self.below(100))?)),
            7 | 8 => Ok(alone(say_set(alloc, self.below(16), self.below(100))?)),
            9 => {
                let (key, value) = (self.below(16), self.below(100));
                Ok(alone(say_lapsing(alloc, key, value, 1 + self.below(50))?))
            }
            10 => Ok(alone(say_del(alloc, self.below(16))?)),
            11 => Ok(alone(Event::Flow(link(alloc, self.below(7))?))),
            12 => out_and_serve(alloc, self.below(7)),
            13 => Ok(alone(Event::Send(link(alloc, self.below(7))?, None))),
            14 => Ok(alone(Event::Recv(link(alloc, self.below(7))?, None))),
            _ => Ok(self.tick()),
        }
    }
}
