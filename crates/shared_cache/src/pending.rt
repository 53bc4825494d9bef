//! Replies that wait for their callers, by number.
ghost use Rattle.std.specs.Prelude.{◌≡◌, ◌+◌, ◌-◌, ◌<◌, ◌++◌, ◌∷◌, [], List, OnOk, OnErr};
ghost use Rattle.std.specs.Prelude.{◌≤◌, ◌^◌, length, slice_index_or, slice_set, take};
ghost use Rattle.shared_cache.specs.declared.entry.PendingReply.{PendingReply};
ghost use Rattle.shared_cache.specs.declared.entry.PendingReply.TheVariants as reply;
ghost use Rattle.shared_cache.specs.PendingReplies.{HandsOver};
ghost use Rattle.shared_cache.specs.ClientFields.{settled, waits_for, answered};
ghost use Rattle.shared_cache.specs.Log.{handshake_length, first_number};

use super::entry::PendingReply;
use super::handshake::handshake_length;
use super::lead::CachingWord;
use super::log::ClientMode;
use resp_value::{NoMemory, Value};
use std::alloc::Global;
use std::collections::VecDeque;
use std::marker::Model;
use std::mem;

// More cannot be counted; memory ends long before.
const MOST: usize = 4611686018427387904;

/// What a caller is handed.
#[derive(Drop)]
pub enum Handed {
    Waiting,
    There(Value),
    Gone,
}

/// Replies by number. Those at the front that were handed out are counted, and take no memory.
#[derive(Drop)]
pub struct PendingReplies {
    gone: usize,
    rest: VecDeque<PendingReply>,
}

impl Model for PendingReplies {
    ghost use Rattle.std.specs.Prelude.{List, ◌+◌, ◌++◌, ◌≤◌, ◌^◌, length, replicate};
    ghost use Rattle.std.specs.Coded.{codes};
    ghost use Rattle.resp_value.specs.TreeCoding.{tree_code};
    ghost use Rattle.shared_cache.specs.declared.entry.PendingReply.{PendingReply};
    ghost use Rattle.shared_cache.specs.declared.entry.PendingReply.TheVariants.{Gone};

    ghost Value = { List PendingReply };

    ghost coded = { Prim.hlevel (codes, tree_code) };

    ghost view = { λ r. replicate r.gone Gone ++ r.rest.items };

    ghost invariant = { λ r. r.gone + length r.rest.items ≤ 2 ^ 62 };
}

impl PendingReplies {
    /// No number.
    pub fn new(alloc: Global) -> PendingReplies
        ensures { result ≡ [] }
    {
        PendingReplies {
            gone: 0,
            rest: VecDeque::new(alloc),
        }
    }

    /// How many numbers there are.
    pub fn len(&self) -> usize
        ensures count { result ≡ length self.now }
        ensures within { result ≤ 2 ^ 62 }
    {
        self.gone + self.rest.len()
    }

    fn push(&mut self, reply: PendingReply) -> Result<(), NoMemory>
        ensures ok { OnOk result (self.new ≡ self.old ++ reply ∷ []) }
        ensures err { OnErr result (self.new ≡ self.old) }
    {
        if self.len() >= MOST {
            return Err(NoMemory);
        }
        match self.rest.push_back(reply) {
            Ok(()) => Ok(()),
            Err(_) => Err(NoMemory),
        }
    }

    /// The next number waits; the one of what goes before it is nobody's.
    pub fn add(&mut self, lead: Option<CachingWord>) -> Result<(), NoMemory>
        ensures ok { OnOk result (self.new ≡ self.old ++ waits_for lead) }
        ensures err { OnErr result (self.new ≡ self.old) }
    {
        let before = self.len();
        match lead {
            Some(_) => self.push(PendingReply::Gone)?,
            None => {}
        }
        match self.push(PendingReply::Waiting) {
            Ok(()) => Ok(()),
            Err(_) => {
                self.keep(before);
                Err(NoMemory)
            }
        }
    }

    /// The first numbers stay.
    pub fn keep(&mut self, most: usize)
        ensures { self.new ≡ take most self.old }
    {
        let gone = most.min(self.gone);
        self.gone = gone;
        self.rest.truncate(most - gone);
    }

    /// Hands a reply over, where it is there.
    pub fn hand_over(&mut self, place: usize) -> Handed
        requires { place < length self.old }
        ensures { HandsOver self.old place result self.new }
    {
        if place < self.gone {
            return Handed::Gone;
        }
        let handed = hand_over(&mut self.rest, place - self.gone);
        self.drop_front();
        handed
    }

    // Of what was handed out, the front is counted alone.
    fn drop_front(&mut self)
        ensures { self.new ≡ self.old }
    {
        while let Some(PendingReply::Gone) = self.rest.front() {
            let _ = self.rest.pop_front();
            self.gone += 1;
        }
    }

    // The reply of a number is there, where it is waited for.
    fn put(&mut self, place: usize, value: Value)
        requires { place < length self.old }
        ensures { self.new ≡ slice_set self.old place
            (answered value (slice_index_or self.old place reply.Gone)) }
    {
        if place < self.gone {
            return;
        }
        put(&mut self.rest, place - self.gone, value);
    }
}

fn hand_over(replies: &mut VecDeque<PendingReply>, place: usize) -> Handed
    requires { place < length replies.old.items }
    ensures { HandsOver replies.old.items place result replies.new.items }
{
    match &replies[place] {
        PendingReply::Waiting => return Handed::Waiting,
        PendingReply::Gone => return Handed::Gone,
        PendingReply::There(_) => {}
    }
    match mem::replace(&mut replies[place], PendingReply::Gone) {
        PendingReply::There(value) => Handed::There(value),
        _ => unreachable!(),
    }
}

fn put(replies: &mut VecDeque<PendingReply>, place: usize, value: Value)
    requires { place < length replies.old.items }
    ensures { replies.new.items ≡ slice_set replies.old.items place
        (answered value (slice_index_or replies.old.items place reply.Gone)) }
{
    match &replies[place] {
        PendingReply::Waiting => {}
        _ => return,
    }
    replies[place] = PendingReply::There(value);
}

/// Keeps the reply of that number for its caller, if it has one; the handshake's have none.
pub fn put_reply(mode: &ClientMode, pending: &mut PendingReplies, number: u64, value: Value)
    requires { handshake_length mode.now < number
        → number - first_number mode.now < length pending.old }
    ensures { pending.new ≡ settled mode.now number value pending.old }
{
    let before = handshake_length(mode);
    if number > before {
        pending.put((number - before - 1) as usize, value);
    }
}
