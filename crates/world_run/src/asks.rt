//! What a client is asked, and what is printed of its answers.
ghost use Rattle.std.specs.Prelude.{◌≡◌, ◌++◌, ◌∷◌, ◌<◌, [], IfOk, OnErr, OnOk, length};
ghost use Rattle.std.specs.Prelude.{ℕ, ◌≤◌, option_to_list};
ghost use Rattle.std.specs.List.{slice_get};
ghost use Rattle.resp_stream.specs.Stream.{Stream, begun};
ghost use Rattle.shared_cache.specs.HeldKeys.{seen};
ghost use Rattle.shared_cache.specs.Held.{held, held_in_place};
ghost use Rattle.shared_cache.specs.declared.log.ClientCall.TheVariants as call;
ghost use Rattle.shared_cache.specs.declared.log.ClientReply.TheVariants as reply;
ghost use Rattle.server_links.specs.Outcome.{Gives};
ghost use Rattle.world_run.specs.Counts.{held_of};
ghost use Rattle.world_run.specs.WorldState.{LinkEnd};
ghost use Rattle.world_run.specs.ClientMoves.{ask_lines, held_lines, listed_line, poll_lines};
ghost use Rattle.world_run.specs.ClientMoves.{refused_lines, send_lines, show, turn};
ghost use Rattle.world_run.specs.Members.{seat};

use super::member::Member;
use command_words::Query;
use resp_value::{NoMemory, Octets, Value, Words};
use script_text::{Line, Lines};
use server_links::{ServerLinks, WorldFault};
use shared_cache::{CacheEntry, ClientCall, ClientRefusal, ClientReply};

/// Puts a line after the others, if there is one.
pub fn put_line(lines: &mut Lines, line: Option<Line>) -> Result<(), NoMemory>
    ensures ok { OnOk result (lines.new ≡ lines.old ++ option_to_list line) }
    ensures err { OnErr result (lines.new ≡ lines.old) }
{
    match line {
        Some(line) => lines.push(line),
        None => Ok(()),
    }
}

/// The line of a refusal.
fn refused_line(name: &Octets, refusal: ClientRefusal) -> Result<Option<Line>, NoMemory>
    ensures { IfOk result (λ l. option_to_list l ≡ refused_lines name.now refusal) }
{
    match refusal {
        ClientRefusal::Down { .. } => Ok(Some(Line::Down(name.copy()?))),
        ClientRefusal::NotReady => Ok(Some(Line::NotReady(name.copy()?))),
        _ => Ok(None),
    }
}

impl Member {
    /// The line of an answer from the cache.
    fn hit_line(
        &self,
        links: &ServerLinks,
        query: &Query,
        value: Value,
        number: u64,
    ) -> Result<Line, NoMemory>
        ensures { IfOk result (λ l. l ∷ [] ≡ ask_lines (seat links.now self.now begun) query.now
            (reply.Hit value number)) }
    {
        let entry = self.ran_at(links, number)?;
        let complete = self.complete(links)?;
        let point = self.replied_past(links, query.key(), entry.max(complete))?;
        Ok(Line::Hit {
            client: self.name.copy()?,
            value,
            entry,
            point,
        })
    }

    /// The line of the answer to a query.
    fn ask_line(
        &self,
        links: &ServerLinks,
        query: &Query,
        reply: ClientReply,
    ) -> Result<Option<Line>, NoMemory>
        ensures { IfOk result (λ l. option_to_list l
            ≡ ask_lines (seat links.now self.now begun) query.now reply) }
    {
        match reply {
            ClientReply::Hit { value, number } => {
                Ok(Some(self.hit_line(links, query, value, number)?))
            }
            ClientReply::Sent { number } => Ok(Some(Line::Miss(self.name.copy()?, number))),
            ClientReply::Refused(refusal) => refused_line(&self.name, refusal),
            _ => Ok(None),
        }
    }

    /// A query: from the cache, or sent to the server.
    pub fn ask(
        &mut self,
        links: &ServerLinks,
        query: &Query,
        lines: &mut Lines,
    ) -> Result<(), WorldFault>
        ensures gives { (e : LinkEnd) (r : Stream)
            → Gives (turn (call.Ask query.now) e (seat links.now self.old r)) lines.old result
            (seat links.now self.new r) lines.new }
        ensures setup { self.new.state.setup ≡ self.old.state.setup }
    {
        let asked = query.copy()?;
        let reply = self.play(ClientCall::Ask(asked))?;
        let line = self.ask_line(links, query, reply)?;
        put_line(lines, line)?;
        Ok(())
    }

    /// The line of the answer to another command.
    fn send_line(&self, links: &ServerLinks, reply: ClientReply) -> Result<Option<Line>, NoMemory>
        ensures { IfOk result (λ l. option_to_list l
            ≡ send_lines (seat links.now self.now begun) reply) }
    {
        match reply {
            ClientReply::Sent { number } => Ok(Some(Line::Sent(self.name.copy()?, number))),
            ClientReply::Refused(refusal) => refused_line(&self.name, refusal),
            _ => Ok(None),
        }
    }

    /// Any other command.
    pub fn send(
        &mut self,
        links: &ServerLinks,
        words: &Words,
        lines: &mut Lines,
    ) -> Result<(), WorldFault>
        requires { 0 < length words.now }
        ensures gives { (e : LinkEnd) (r : Stream)
            → Gives (turn (call.Send words.now) e (seat links.now self.old r)) lines.old result
            (seat links.now self.new r) lines.new }
        ensures setup { self.new.state.setup ≡ self.old.state.setup }
    {
        let sent = words.copy()?;
        let reply = self.play(ClientCall::Send(sent))?;
        let line = self.send_line(links, reply)?;
        put_line(lines, line)?;
        Ok(())
    }

    /// The line of the answer for a number.
    fn poll_line(
        &self,
        links: &ServerLinks,
        number: u64,
        reply: ClientReply,
    ) -> Result<Option<Line>, NoMemory>
        ensures { IfOk result (λ l. option_to_list l
            ≡ poll_lines (seat links.now self.now begun) number reply) }
    {
        match reply {
            ClientReply::Answer { value } => {
                Ok(Some(Line::Answer(self.name.copy()?, number, value)))
            }
            ClientReply::NotYet => Ok(Some(Line::Wait(self.name.copy()?, number))),
            ClientReply::Refused(refusal) => refused_line(&self.name, refusal),
            _ => Ok(None),
        }
    }

    /// The reply to the command of that number, if it is there.
    pub fn poll(
        &mut self,
        links: &ServerLinks,
        number: u64,
        lines: &mut Lines,
    ) -> Result<(), WorldFault>
        ensures gives { (e : LinkEnd) (r : Stream)
            → Gives (turn (call.Poll number) e (seat links.now self.old r)) lines.old result
            (seat links.now self.new r) lines.new }
        ensures setup { self.new.state.setup ≡ self.old.state.setup }
    {
        let reply = self.play(ClientCall::Poll(number))?;
        let line = self.poll_line(links, number, reply)?;
        put_line(lines, line)?;
        Ok(())
    }

    /// The line of what is held at a place of all that it holds, if anything is.
    fn held_line(
        &self,
        links: &ServerLinks,
        entries: &[&CacheEntry],
        place: usize,
    ) -> Result<Option<Line>, NoMemory>
        requires { slice_get (seen entries.now) place
            ≡ held_in_place place (held self.now.state.setup self.now.state.past) }
        ensures { IfOk result (λ l. option_to_list l ≡ listed_line (seat links.now self.now begun)
            (held_in_place place (held self.now.state.setup self.now.state.past))) }
    {
        let Some(kept) = entries.get(place) else {
            return Ok(None);
        };
        let entry = self.ran_at(links, kept.number)?;
        let words = kept.query.words().copy()?;
        let value = kept.value.copy()?;
        Ok(Some(Line::Holds(self.name.copy()?, words, value, entry)))
    }

    /// The lines of what it holds, in order.
    fn put_held(&self, links: &ServerLinks, lines: &mut Lines) -> Result<(), NoMemory>
        ensures ok { OnOk result (lines.new ≡ lines.old ++ held_lines
            (length (held self.now.state.setup self.now.state.past))
            (seat links.now self.now begun)) }
        ensures err { OnErr result ((count : ℕ)
            × (count ≤ length (held self.now.state.setup self.now.state.past))
            × (lines.new ≡ lines.old ++ held_lines count (seat links.now self.now begun))) }
    {
        let entries = self.state.held_in_order()?;
        // no more are held than replies came
        for place in 0..self.state.replied() as usize {
            let Some(line) = self.held_line(links, entries.as_slice(), place)? else {
                return Ok(());
            };
            lines.push(line)?;
        }
        Ok(())
    }

    /// How many queries it holds.
    pub fn held(&self) -> Result<u64, NoMemory>
        ensures { IfOk result (λ n. n ≡ held_of self.now) }
    {
        Ok(self.state.held_in_order()?.len() as u64)
    }

    /// What it holds, and how far it has processed what was sent to it.
    pub fn show(&self, links: &ServerLinks, lines: &mut Lines) -> Result<(), WorldFault>
        ensures { (r : Stream) → Gives (show (seat links.now self.now r)) lines.old result
            (seat links.now self.now r) lines.new }
    {
        self.put_held(links, lines)?;
        let complete = self.complete(links)?;
        let line = Line::Complete(self.name.copy()?, complete);
        lines.push(line)?;
        Ok(())
    }
}
