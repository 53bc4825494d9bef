//! The client's end of a link: it puts bytes on the way up, and reads what was sent.
ghost use Rattle.std.specs.Prelude.{◌≡◌, ◌++◌, List, OnOk, OnErr};
ghost use Rattle.script_text.specs.declared.line.Line.{Line};
ghost use Rattle.server_links.specs.Moves.{eof_lines, read_lines, receive, receive_all, say};
ghost use Rattle.server_links.specs.Outcome.{Gives};
ghost use Rattle.server_links.specs.Session.{Session, with_link};

use super::fault::WorldFault;
use super::link::Link;
use resp_value::{NoMemory, Octets};
use script_text::{Line, Lines};
use std::alloc::Global;

impl Link {
    /// The client's end puts bytes on the way up.
    pub fn put(&mut self, bytes: &[u8]) -> Result<(), WorldFault>
        ensures { (s : Session) (lines : List Line) → Gives (say bytes.now (with_link s self.old))
            lines result (with_link s self.new) lines }
    {
        Ok(self.up.put(bytes)?)
    }

    /// The client's end reads so many bytes and never an EOF, or all that is there.
    pub fn receive(
        &mut self,
        alloc: Global,
        count: Option<u64>,
        lines: &mut Lines,
    ) -> Result<(), WorldFault>
        ensures { (s : Session) → Gives (receive count (with_link s self.old)) lines.old result
            (with_link s self.new) lines.new }
    {
        let Some(count) = count else {
            return self.receive_all(alloc, lines);
        };
        if count > self.down.bytes.len() as u64 {
            return Err(WorldFault::NothingThere);
        }
        let count = count as usize;
        put_read(
            alloc,
            &self.name,
            &self.down.bytes.as_slice()[..count],
            lines,
        )?;
        self.down.pass(count);
        Ok(())
    }

    /// The client's end reads all that is there, and then the EOF.
    pub fn receive_all(&mut self, alloc: Global, lines: &mut Lines) -> Result<(), WorldFault>
        ensures { (s : Session) → Gives (receive_all (with_link s self.old)) lines.old result
            (with_link s self.new) lines.new }
    {
        put_read(alloc, &self.name, self.down.bytes.as_slice(), lines)?;
        self.down.pass_all();
        if self.down.is_queued() {
            lines.push(Line::End(self.name.copy()?))?;
            self.down.pass_eof();
        }
        Ok(())
    }
}

/// The line of the bytes that were read, where there are some.
fn put_read(alloc: Global, link: &Octets, bytes: &[u8], lines: &mut Lines) -> Result<(), NoMemory>
    ensures ok { OnOk result (lines.new ≡ lines.old ++ read_lines link.now bytes.now) }
    ensures err { OnErr result (lines.new ≡ lines.old) }
{
    if bytes.is_empty() {
        return Ok(());
    }
    let bytes = Octets::from_slice(alloc, bytes)?;
    lines.push(Line::Read(link.copy()?, bytes))
}
