//! Where in the history a client's answers stand: counted, where the definitions look at all of it.
ghost use Rattle.std.specs.Prelude.{◌≡◌, IfOk, Ok, max};
ghost use Rattle.command_words.specs.Words.{reading};
ghost use Rattle.resp_stream.specs.Stream.{begun};
ghost use Rattle.currency.specs.Points.{complete_on, names_key, reads_key, replied};
ghost use Rattle.world_run.specs.ClientMoves.{complete_at, ran_at};
ghost use Rattle.world_run.specs.Members.{client_of, seat};

use super::member::Member;
use command_words::{Command, WordFault, Written, keys_read, read_command, written_by};
use resp_value::{NoMemory, Words};
use server_links::ServerLinks;
use shared_cache::{Shape, Wire};
use std::alloc::Global;

fn is_read(alloc: Global, command: &Command, key: &[u8]) -> Result<bool, NoMemory>
    ensures { IfOk result (λ b. b ≡ reads_key (Ok command.now) key.now) }
{
    let keys = keys_read(alloc, command)?;
    Ok(Written::Keys(keys).names(key))
}

fn reads_key(alloc: Global, words: &Words, key: &[u8]) -> Result<bool, NoMemory>
    ensures { IfOk result (λ b. b ≡ reads_key (reading words.now) key.now) }
{
    match read_command(alloc, words) {
        Ok(command) => is_read(alloc, &command, key),
        Err(WordFault::NoMemory) => Err(NoMemory),
        Err(_) => Ok(false),
    }
}

/// Whether the command of these words reads the key or can change it.
fn names_key(alloc: Global, words: &Words, key: &[u8]) -> Result<bool, NoMemory>
    ensures { IfOk result (λ b. b ≡ names_key words.now key.now) }
{
    if reads_key(alloc, words, key)? {
        return Ok(true);
    }
    Ok(written_by(alloc, words)?.names(key))
}

impl Member {
    /// The entry that ran its command of that number, the first of which is 1; 0 before it ran.
    pub fn ran_at(&self, links: &ServerLinks, number: u64) -> Result<u64, NoMemory>
        ensures { IfOk result (λ n. n ≡ ran_at (seat links.now self.now begun) number) }
    {
        let entry = links.run_entry(self.main, number.saturating_sub(1) as usize)?;
        Ok(entry.unwrap_or(0))
    }

    /// How many entries of the history sent it nothing on this link that it has not processed yet.
    fn complete_on(&self, wire: Wire, links: &ServerLinks) -> Result<u64, NoMemory>
        ensures { IfOk result (λ c. c ≡ complete_on links.now.limits (client_of self.now) wire
            links.now.past self.now.state.past) }
    {
        if self.state.has_ended_on(wire) {
            return Ok(links.entries());
        }
        match links.sent_entry(self.place_on(wire), self.got_on(wire))? {
            Some(entry) => Ok(entry.saturating_sub(1)),
            None => Ok(links.entries()),
        }
    }

    /// How many entries of the history sent it nothing that it has not processed yet.
    pub fn complete(&self, links: &ServerLinks) -> Result<u64, NoMemory>
        ensures { IfOk result (λ c. c ≡ complete_at (seat links.now self.now begun)) }
    {
        let main = self.complete_on(Wire::Main, links)?;
        match self.shape {
            Shape::Single => Ok(main),
            Shape::Pair => Ok(main.min(self.complete_on(Wire::Side, links)?)),
        }
    }

    /// The greater of `least` and the entry of the last reply that it processed to a command that
    /// names the key. Replies stand in the order of their entries, so that only those past `least`
    /// are looked at, from the last on.
    pub fn replied_past(&self, links: &ServerLinks, key: &[u8], least: u64) -> Result<u64, NoMemory>
        ensures { IfOk result (λ w. w ≡ max least
            (replied (client_of self.now) links.now.past self.now.state.past key.now)) }
    {
        let mut left = self.state.replied() as usize;
        'replies: while left > 0 {
            left -= 1;
            let Some(entry) = links.run_entry(self.main, left)? else {
                continue;
            };
            if entry <= least {
                return Ok(least);
            }
            let Some(words) = links.run_words(self.main, left)? else {
                continue;
            };
            if names_key(self.alloc, words, key)? {
                return Ok(entry);
            }
        }
        Ok(least)
    }
}
