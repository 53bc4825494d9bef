//! Commands on their way out, and the keys that those name which a reply is waited for.
ghost use Rattle.std.specs.Prelude.{◌≡◌, ◌++◌, ◌∷◌, [], List, IfOk, OnOk, OnErr, map, take, drop};
ghost use Rattle.std.specs.Prelude.{length, option_copied, nat_lt, None, if◌then◌else◌};
ghost use Rattle.std.specs.List.{flat_map, slice_get};
ghost use Rattle.resp_value.specs.Spelling.{request_spelling};
ghost use Rattle.command_words.specs.Queries.{read, written};
ghost use Rattle.shared_cache.specs.declared.log.Shape.TheVariants.{Pair};
ghost use Rattle.shared_cache.specs.ClientFields.{waits_for, names_for, named_by, with_keys};
ghost use Rattle.shared_cache.specs.Held.{led_by};

use super::lead::{CachingWord, put_led};
use super::log::Shape;
use super::pending::PendingReplies;
use byte_queue::ByteQueue;
use command_words::{Command, WordFault, Written, keys_read, keys_written, read_command};
use resp_value::{NoMemory, Octets, Words};
use std::alloc::Global;
use std::collections::VecDeque;
use std::marker::Model;

fn push_all(keys: &[Octets], out: &mut Words) -> Result<(), NoMemory>
    ensures { OnOk result (out.new ≡ out.old ++ keys.now) }
{
    for key in keys {
        out.push(key.copy()?)?;
    }
    Ok(())
}

// The keys that the command reads or can change.
fn keys_named(alloc: Global, command: &Command) -> Result<Written, NoMemory>
    ensures { IfOk result (λ w. w ≡ with_keys (read command.now) (written command.now)) }
{
    match keys_written(alloc, command)? {
        Written::All => Ok(Written::All),
        Written::Keys(written) => {
            let mut keys = keys_read(alloc, command)?;
            push_all(written.as_slice(), &mut keys)?;
            Ok(Written::Keys(keys))
        }
    }
}

#[tactic(auto, unfolding(crate::specs::ClientFields::named_by))]
fn named_by(alloc: Global, words: &Words) -> Result<Written, NoMemory>
    ensures { IfOk result (λ w. w ≡ named_by words.now) }
{
    match read_command(alloc, words) {
        Ok(command) => keys_named(alloc, &command),
        Err(WordFault::NoMemory) => Err(NoMemory),
        Err(_) => Ok(Written::Keys(Words::new(alloc))),
    }
}

/// The keys that commands name whose replies are waited for, by number.
#[derive(Drop)]
pub struct NamedKeys {
    keys: VecDeque<Written>,
}

impl Model for NamedKeys {
    ghost use Rattle.std.specs.Prelude.{List};
    ghost use Rattle.command_words.specs.declared.written.Written.{Written};

    ghost Value = { List Written };

    ghost view = { λ n. n.keys.items };
}

impl NamedKeys {
    /// Of no command.
    pub fn new(alloc: Global) -> NamedKeys
        ensures { result ≡ [] }
    {
        NamedKeys {
            keys: VecDeque::new(alloc),
        }
    }

    /// How many commands wait for their replies.
    pub fn len(&self) -> usize
        ensures { result ≡ length self.now }
    {
        self.keys.len()
    }

    fn push(&mut self, keys: Written) -> Result<(), NoMemory>
        ensures ok { OnOk result (self.new ≡ self.old ++ keys ∷ []) }
        ensures err { OnErr result (self.new ≡ self.old) }
    {
        match self.keys.push_back(keys) {
            Ok(()) => Ok(()),
            Err(_) => Err(NoMemory),
        }
    }

    /// The first stay.
    pub fn shorten(&mut self, most: usize)
        ensures { self.new ≡ take most self.old }
    {
        self.keys.truncate(most);
    }

    /// The keys of the oldest command that waits for its reply, whose number this is. The first
    /// numbers, up to `before`, are the handshake's, which names none.
    pub fn for_number(&self, number: u64, before: u64) -> Option<&Written>
        ensures { option_copied result
            ≡ (if nat_lt before number then slice_get self.now 0 else None) }
    {
        if before < number {
            self.keys.front()
        } else {
            None
        }
    }

    /// The oldest, whose number this is, has its reply.
    pub fn drop_number(&mut self, number: u64, before: u64)
        ensures { self.new ≡ (if nat_lt before number then drop 1 self.old else self.old) }
    {
        if before < number {
            let _ = self.keys.pop_front();
        }
    }

    // Both go last, or neither does.
    fn push_two(&mut self, first: Written, second: Written) -> Result<(), NoMemory>
        ensures ok { OnOk result (self.new ≡ self.old ++ first ∷ second ∷ []) }
        ensures err { OnErr result (self.new ≡ self.old) }
    {
        let before = self.len();
        self.push(first)?;
        match self.push(second) {
            Ok(()) => Ok(()),
            Err(_) => {
                self.shorten(before);
                Err(NoMemory)
            }
        }
    }

    fn alloc(&self) -> Global {
        *self.keys.allocator()
    }

    #[tactic(auto, using(crate::proofs::NamedWords::names_led))]
    fn push_led(&mut self, lead: Option<CachingWord>, words: &Words) -> Result<(), NoMemory>
        ensures ok { OnOk result (self.new ≡ self.old ++ names_for Pair (led_by lead words.now)) }
        ensures err { OnErr result (self.new ≡ self.old) }
    {
        let alloc = self.alloc();
        let keys = named_by(alloc, words)?;
        match lead {
            Some(_) => self.push_two(Written::Keys(Words::new(alloc)), keys),
            None => self.push(keys),
        }
    }

    /// Of two links, the keys of a caller's command go last, behind the none of what goes before
    /// it.
    pub fn put(
        &mut self,
        shape: Shape,
        lead: Option<CachingWord>,
        words: &Words,
    ) -> Result<(), NoMemory>
        ensures ok { OnOk result (self.new ≡ self.old ++ names_for shape (led_by lead words.now)) }
        ensures err { OnErr result (self.new ≡ self.old) }
    {
        match shape {
            Shape::Single => Ok(()),
            Shape::Pair => self.push_led(lead, words),
        }
    }
}

/// A caller's command and what goes before it go onto the queue, its reply is waited for, and of
/// two links the keys that it names are kept until then.
pub fn enqueue(
    shape: Shape,
    lead: Option<CachingWord>,
    words: &Words,
    queued: &mut ByteQueue,
    pending: &mut PendingReplies,
    named: &mut NamedKeys,
) -> Result<(), NoMemory>
    ensures queued { OnOk result (queued.new ≡ queued.old
        ++ flat_map request_spelling (map (λ c. c.words) (led_by lead words.now))) }
    ensures pending { OnOk result (pending.new ≡ pending.old ++ waits_for lead) }
    ensures named { OnOk result
        (named.new ≡ named.old ++ names_for shape (led_by lead words.now)) }
    ensures err_queued { OnErr result (queued.new ≡ queued.old) }
    ensures err_pending { OnErr result (pending.new ≡ pending.old) }
    ensures err_named { OnErr result (named.new ≡ named.old) }
{
    let kept = named.len();
    named.put(shape, lead, words)?;
    match put_bytes(named.alloc(), lead, words, queued, pending) {
        Ok(()) => Ok(()),
        Err(_) => {
            named.shorten(kept);
            Err(NoMemory)
        }
    }
}

fn put_bytes(
    alloc: Global,
    lead: Option<CachingWord>,
    words: &Words,
    queued: &mut ByteQueue,
    pending: &mut PendingReplies,
) -> Result<(), NoMemory>
    ensures queued { OnOk result (queued.new ≡ queued.old
        ++ flat_map request_spelling (map (λ c. c.words) (led_by lead words.now))) }
    ensures pending { OnOk result (pending.new ≡ pending.old ++ waits_for lead) }
    ensures err_queued { OnErr result (queued.new ≡ queued.old) }
    ensures err_pending { OnErr result (pending.new ≡ pending.old) }
{
    let mut bytes = Vec::new(alloc);
    put_led(alloc, lead, words, &mut bytes)?;
    let before = queued.len();
    queued.add(&bytes)?;
    match pending.add(lead) {
        Ok(()) => Ok(()),
        Err(_) => {
            queued.keep(before);
            Err(NoMemory)
        }
    }
}
