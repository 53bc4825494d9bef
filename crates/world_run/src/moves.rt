//! What a client's end of a link does with bytes.
ghost use Rattle.std.specs.Prelude.{◌≡◌, ◌+◌, ◌<◌, ◌≤◌, List, Ok, IfOk, if◌then◌else◌, length};
ghost use Rattle.std.specs.Prelude.{option_to_list};
ghost use Rattle.resp_stream.specs.Parse.{parse_values};
ghost use Rattle.resp_stream.specs.Stream.{Stream};
ghost use Rattle.shared_cache.specs.declared.log.ClientCall.TheVariants as call;
ghost use Rattle.shared_cache.specs.Log.{HasWire, is_wire};
ghost use Rattle.script_text.specs.declared.line.Line.{Line};
ghost use Rattle.server_links.specs.LinkEvent.{Over, Put};
ghost use Rattle.server_links.specs.LinksState.{LinksState};
ghost use Rattle.server_links.specs.Moves.{stopped_at};
ghost use Rattle.server_links.specs.Outcome.{Gives, and_then};
ghost use Rattle.world_run.specs.WorldState.{MemberState};
ghost use Rattle.world_run.specs.ClientMoves.{bytes_of, ending_lines, flow, got, got_all};
ghost use Rattle.world_run.specs.ClientMoves.{got_lines, hang_up, hang_up_main, out, read};
ghost use Rattle.world_run.specs.ClientMoves.{read_values, receive, receive_bytes, receive_eof};
ghost use Rattle.world_run.specs.ClientMoves.{rest_read, stop, take_out, turn};
ghost use Rattle.world_run.specs.Members.{link_of, links_do, seat};
ghost use Rattle.world_run.specs.MemberTurns.{TurnGives};

use super::asks::put_line;
use super::link_end::LinkEnd;
use super::member::Member;
use super::playing::{refused_fault, turn};
use super::refusal_numbers::{BAD_PUSH, SETUP_REFUSED, UNEXPECTED};
use resp_stream::{FaultPlace, ValueReader};
use resp_value::{NoMemory, Octets, Value};
use script_text::{Line, Lines};
use server_links::{LinkMove, ServerLinks, WorldFault};
use shared_cache::{ClientCall, ClientRefusal, ClientReply, Wire};
use std::alloc::Global;

/// The bytes of an answer.
fn bytes_of(alloc: Global, reply: ClientReply) -> Octets
    ensures { result ≡ bytes_of reply }
{
    match reply {
        ClientReply::Bytes(bytes) => bytes,
        _ => Octets::from_vec(Vec::new(alloc)),
    }
}

/// The line of a refusal that ended the link.
fn ending_line(link: &Octets, refusal: ClientRefusal) -> Result<Option<Line>, NoMemory>
    ensures { IfOk result (λ l. option_to_list l ≡ ending_lines link.now refusal) }
{
    match refusal {
        ClientRefusal::Unexpected { .. } => Ok(Some(Line::Fault(link.copy()?, UNEXPECTED))),
        ClientRefusal::BadPush { .. } => Ok(Some(Line::Fault(link.copy()?, BAD_PUSH))),
        ClientRefusal::SetupRefused { .. } => { Ok(Some(Line::Fault(link.copy()?, SETUP_REFUSED))) }
        _ => Ok(None),
    }
}

/// How many values were got on a link, where one more is got on a link.
fn counted(count: usize, most: usize, wire: Wire, on: Wire) -> usize
    requires { count < most }
    ensures { result ≡ (if is_wire wire on then count + 1 else count) }
{
    match (wire, on) {
        (Wire::Main, Wire::Main) => count + 1,
        (Wire::Side, Wire::Side) => count + 1,
        (Wire::Main, Wire::Side) => count,
        (Wire::Side, Wire::Main) => count,
    }
}

impl Member {
    /// A turn by which it gets a value.
    fn take(&mut self, wire: Wire, value: Value) -> Result<ClientReply, WorldFault>
        requires { HasWire self.old.state.setup.mode.shape wire }
        ensures { TurnGives (call.Got wire value) self.old result self.new }
    {
        match turn(&mut self.state, ClientCall::Got(wire, value))? {
            ClientReply::Noted => {
                // fewer values were got before than its log has entries
                let entries = self.state.entries() as usize;
                let main = counted(self.got_main, entries, wire, Wire::Main);
                let side = counted(self.got_side, entries, wire, Wire::Side);
                self.got_main = main;
                self.got_side = side;
                Ok(ClientReply::Noted)
            }
            ClientReply::Refused(refusal) => match refused_fault(refusal) {
                Some(fault) => Err(fault),
                None => Ok(ClientReply::Refused(refusal)),
            },
            _ => unreachable!(),
        }
    }
}

impl LinkEnd {
    /// Bytes are put on the way up.
    fn put(
        &self,
        links: &mut ServerLinks,
        bytes: &[u8],
        lines: &mut Lines,
    ) -> Result<(), WorldFault>
        ensures gives { (m : MemberState) (r : Stream)
            → Gives (links_do (Put self.now.link bytes.now) (seat links.old m r)) lines.old result
            (seat links.new m r) lines.new }
        ensures limits { links.new.limits ≡ links.old.limits }
        ensures count { length links.new.links ≡ length links.old.links }
    {
        links.put(&self.link, bytes, lines)
    }

    /// Something moves over the link.
    fn over(
        &self,
        links: &mut ServerLinks,
        movement: LinkMove,
        lines: &mut Lines,
    ) -> Result<(), WorldFault>
        ensures gives { (m : MemberState) (r : Stream)
            → Gives (links_do (Over self.now.link movement) (seat links.old m r)) lines.old result
            (seat links.new m r) lines.new }
        ensures limits { links.new.limits ≡ links.old.limits }
        ensures count { length links.new.links ≡ length links.old.links }
    {
        links.play(&self.link, movement, lines)
    }

    /// The client puts so many of its bytes on the way up.
    fn take_out(
        &self,
        most: u64,
        links: &mut ServerLinks,
        member: &mut Member,
        lines: &mut Lines,
    ) -> Result<(), WorldFault>
        requires { HasWire member.old.state.setup.mode.shape self.now.wire }
        ensures gives { (r : Stream) → Gives (take_out most self.now (seat links.old member.old r))
            lines.old result (seat links.new member.new r) lines.new }
        ensures limits { links.new.limits ≡ links.old.limits }
        ensures count { length links.new.links ≡ length links.old.links }
        ensures setup { member.new.state.setup ≡ member.old.state.setup }
    {
        let reply = member.play(ClientCall::TakeOut(self.wire, most))?;
        let bytes = bytes_of(member.alloc, reply);
        self.put(links, bytes.as_slice(), lines)
    }

    /// The client puts so many of its bytes on the way up, or all.
    pub fn out(
        &self,
        count: Option<u64>,
        links: &mut ServerLinks,
        member: &mut Member,
        lines: &mut Lines,
    ) -> Result<(), WorldFault>
        requires { HasWire member.old.state.setup.mode.shape self.now.wire }
        ensures gives { (r : Stream) → Gives (out count self.now (seat links.old member.old r))
            lines.old result (seat links.new member.new r) lines.new }
        ensures limits { links.new.limits ≡ links.old.limits }
        ensures count { length links.new.links ≡ length links.old.links }
        ensures setup { member.new.state.setup ≡ member.old.state.setup }
    {
        let ended = member.state.has_ended_on(self.wire);
        match count {
            None if ended => Ok(()),
            None => self.take_out(u64::MAX, links, member, lines),
            Some(most) => {
                if ended || most > member.state.waiting_on(self.wire) as u64 {
                    return Err(WorldFault::NothingThere);
                }
                self.take_out(most, links, member, lines)
            }
        }
    }

    /// The client processes a value; one behind the end of the link is passed over.
    fn got(
        &self,
        value: Value,
        links: &ServerLinks,
        member: &mut Member,
        lines: &mut Lines,
    ) -> Result<(), WorldFault>
        requires { HasWire member.old.state.setup.mode.shape self.now.wire }
        ensures gives { (r : Stream) → Gives (got value self.now (seat links.now member.old r))
            lines.old result (seat links.now member.new r) lines.new }
        ensures setup { member.new.state.setup ≡ member.old.state.setup }
    {
        if member.state.has_ended_on(self.wire) {
            return Ok(());
        }
        let reply = member.take(self.wire, value)?;
        let line = self.got_line(reply)?;
        put_line(lines, line)?;
        Ok(())
    }

    /// The line of the answer to a value.
    fn got_line(&self, reply: ClientReply) -> Result<Option<Line>, NoMemory>
        ensures { IfOk result (λ l. option_to_list l ≡ got_lines self.now reply) }
    {
        match reply {
            ClientReply::Refused(refusal) => ending_line(&self.link, refusal),
            _ => Ok(None),
        }
    }

    /// The client processes each whole value that was read; what stops the reading, if anything.
    fn got_all(
        &self,
        links: &ServerLinks,
        member: &mut Member,
        reader: &mut ValueReader,
        lines: &mut Lines,
    ) -> Result<Option<FaultPlace>, WorldFault>
        requires { HasWire member.old.state.setup.mode.shape self.now.wire }
        ensures gives { Gives (and_then (got_all (parse_values reader.old).items self.now
            (seat links.now member.old reader.old)) (rest_read (parse_values reader.old).stream))
            lines.old result (seat links.now member.new reader.new) lines.new }
        ensures fault { IfOk result (λ f. f ≡ stopped_at (parse_values reader.old).fault) }
        ensures setup { member.new.state.setup ≡ member.old.state.setup }
    {
        'values: loop {
            match reader.next_value() {
                Ok(Some(value)) => self.got(value, links, member, lines)?,
                Ok(None) => return Ok(None),
                Err(fault) => {
                    return match fault.place() {
                        Some(place) => Ok(Some(place)),
                        None => Err(WorldFault::NoMemory),
                    };
                }
            }
        }
    }

    /// The link ends for the client.
    fn end(&self, member: &mut Member)
        requires { HasWire member.old.state.setup.mode.shape self.now.wire }
        ensures gives { (links : LinksState) (r : Stream) (lines : List Line)
            → Gives (turn (call.End self.now.wire) self.now (seat links member.old r)) lines
            (Ok (tt {0})) (seat links member.new r) lines }
        ensures setup { member.new.state.setup ≡ member.old.state.setup }
    {
        match turn(&mut member.state, ClientCall::End(self.wire)) {
            Ok(_) => {}
            // an end has its room from the start
            Err(_) => unreachable!(),
        }
    }

    /// A fault of the stream ends the link.
    fn stop(
        &self,
        fault: Option<FaultPlace>,
        links: &ServerLinks,
        member: &mut Member,
        lines: &mut Lines,
    ) -> Result<(), WorldFault>
        requires { HasWire member.old.state.setup.mode.shape self.now.wire }
        ensures gives { (r : Stream) → Gives (stop fault self.now (seat links.now member.old r))
            lines.old result (seat links.now member.new r) lines.new }
        ensures setup { member.new.state.setup ≡ member.old.state.setup }
    {
        let Some(FaultPlace { number, offset }) = fault else {
            return Ok(());
        };
        if member.state.has_ended_on(self.wire) {
            return Ok(());
        }
        lines.push(Line::Bad {
            link: self.link.copy()?,
            number,
            offset,
        })?;
        self.end(member);
        Ok(())
    }

    /// The client processes what was read.
    fn read_values(
        &self,
        links: &ServerLinks,
        member: &mut Member,
        reader: &mut ValueReader,
        lines: &mut Lines,
    ) -> Result<(), WorldFault>
        requires { HasWire member.old.state.setup.mode.shape self.now.wire }
        ensures gives { Gives (read_values self.now (seat links.now member.old reader.old))
            lines.old result (seat links.now member.new reader.new) lines.new }
        ensures setup { member.new.state.setup ≡ member.old.state.setup }
    {
        let fault = self.got_all(links, member, reader, lines)?;
        self.stop(fault, links, member, lines)
    }

    /// Where the client ended the link, it hangs up.
    fn hang_up(
        &self,
        links: &mut ServerLinks,
        member: &Member,
        lines: &mut Lines,
    ) -> Result<(), WorldFault>
        ensures gives { (r : Stream) → Gives (hang_up self.now (seat links.old member.now r))
            lines.old result (seat links.new member.now r) lines.new }
        ensures limits { links.new.limits ≡ links.old.limits }
        ensures count { length links.new.links ≡ length links.old.links }
    {
        if member.state.has_ended_on(self.wire) {
            return self.over(links, LinkMove::HangUp, lines);
        }
        Ok(())
    }

    /// So many bytes are read, and the client processes what they complete.
    fn receive_bytes(
        &self,
        count: u64,
        links: &mut ServerLinks,
        member: &mut Member,
        reader: &mut ValueReader,
        lines: &mut Lines,
    ) -> Result<(), WorldFault>
        requires wire { HasWire member.old.state.setup.mode.shape self.now.wire }
        requires there { count ≤ length (link_of self.now (seat links.old member.old
            reader.old)).down.bytes }
        ensures gives { Gives (receive_bytes count self.now (seat links.old member.old reader.old))
            lines.old result (seat links.new member.new reader.new) lines.new }
        ensures limits { links.new.limits ≡ links.old.limits }
        ensures count { length links.new.links ≡ length links.old.links }
        ensures setup { member.new.state.setup ≡ member.old.state.setup }
    {
        let there = &links.in_flight(self.place)[..count as usize];
        let copied = Octets::from_slice(member.alloc, there);
        self.over(links, LinkMove::Recv(Some(count)), lines)?;
        // where memory ran out for the copy, it ran out before the reader was fed
        let piece = copied?;
        reader.feed(piece.as_slice())?;
        self.read_values(links, member, reader, lines)?;
        self.hang_up(links, member, lines)
    }

    /// The EOF is read, where one follows.
    fn receive_eof(
        &self,
        links: &mut ServerLinks,
        member: &mut Member,
        lines: &mut Lines,
    ) -> Result<(), WorldFault>
        requires { HasWire member.old.state.setup.mode.shape self.now.wire }
        ensures gives { (r : Stream) → Gives (receive_eof self.now (seat links.old member.old r))
            lines.old result (seat links.new member.new r) lines.new }
        ensures limits { links.new.limits ≡ links.old.limits }
        ensures count { length links.new.links ≡ length links.old.links }
        ensures setup { member.new.state.setup ≡ member.old.state.setup }
    {
        let ends = links.ends_there(self.place);
        self.over(links, LinkMove::Recv(None), lines)?;
        if ends {
            self.end(member);
        }
        Ok(())
    }

    /// So many bytes are read and never an EOF, or all that is there.
    fn read(
        &self,
        count: Option<u64>,
        links: &mut ServerLinks,
        member: &mut Member,
        reader: &mut ValueReader,
        lines: &mut Lines,
    ) -> Result<(), WorldFault>
        requires { HasWire member.old.state.setup.mode.shape self.now.wire }
        ensures gives { Gives (read count self.now (seat links.old member.old reader.old))
            lines.old result (seat links.new member.new reader.new) lines.new }
        ensures limits { links.new.limits ≡ links.old.limits }
        ensures count { length links.new.links ≡ length links.old.links }
        ensures setup { member.new.state.setup ≡ member.old.state.setup }
    {
        let ended = member.state.has_ended_on(self.wire);
        let there = links.in_flight(self.place).len() as u64;
        match count {
            None if ended => Ok(()),
            None => {
                self.receive_bytes(there, links, member, reader, lines)?;
                self.receive_eof(links, member, lines)
            }
            Some(most) => {
                if ended || most > there {
                    return Err(WorldFault::NothingThere);
                }
                self.receive_bytes(most, links, member, reader, lines)
            }
        }
    }

    /// Where an end of this link ended the client's other, the client hangs up there.
    fn hang_up_main(
        &self,
        before: bool,
        links: &mut ServerLinks,
        member: &Member,
        lines: &mut Lines,
    ) -> Result<(), WorldFault>
        ensures gives { (r : Stream) → Gives (hang_up_main self.now.wire before
            (seat links.old member.now r)) lines.old result (seat links.new member.now r)
            lines.new }
        ensures limits { links.new.limits ≡ links.old.limits }
        ensures count { length links.new.links ≡ length links.old.links }
    {
        match self.wire {
            Wire::Main => Ok(()),
            Wire::Side => {
                if before || !member.state.has_ended() {
                    return Ok(());
                }
                links.play(&member.link, LinkMove::HangUp, lines)
            }
        }
    }

    /// So many bytes are read and processed and never an EOF, or all that is there.
    pub fn receive(
        &self,
        count: Option<u64>,
        links: &mut ServerLinks,
        member: &mut Member,
        reader: &mut ValueReader,
        lines: &mut Lines,
    ) -> Result<(), WorldFault>
        requires { HasWire member.old.state.setup.mode.shape self.now.wire }
        ensures gives { Gives (receive count self.now (seat links.old member.old reader.old))
            lines.old result (seat links.new member.new reader.new) lines.new }
        ensures limits { links.new.limits ≡ links.old.limits }
        ensures count { length links.new.links ≡ length links.old.links }
        ensures setup { member.new.state.setup ≡ member.old.state.setup }
    {
        let before = member.state.has_ended();
        self.read(count, links, member, reader, lines)?;
        self.hang_up_main(before, links, member, lines)
    }

    /// All that is there moves: out, serve, send, recv.
    pub fn flow(
        &self,
        links: &mut ServerLinks,
        member: &mut Member,
        reader: &mut ValueReader,
        lines: &mut Lines,
    ) -> Result<(), WorldFault>
        requires { HasWire member.old.state.setup.mode.shape self.now.wire }
        ensures gives { Gives (flow self.now (seat links.old member.old reader.old)) lines.old
            result (seat links.new member.new reader.new) lines.new }
        ensures limits { links.new.limits ≡ links.old.limits }
        ensures count { length links.new.links ≡ length links.old.links }
        ensures setup { member.new.state.setup ≡ member.old.state.setup }
    {
        self.out(None, links, member, lines)?;
        self.over(links, LinkMove::Serve(None), lines)?;
        self.over(links, LinkMove::Send(None), lines)?;
        self.receive(None, links, member, reader, lines)
    }
}
