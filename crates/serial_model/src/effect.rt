//! What is told of an entry: all that the messages of a history follow from.
ghost use Rattle.std.specs.Prelude.{◌≡◌, IfOk};

use super::copies::copy_command;
use command_words::{Command, Signalled};
use resp_value::{NoMemory, Value, Words};

/// Which kind of entry it is.
#[derive(Clone, Copy, Debug, PartialEq, Eq)]
pub enum EntryKind {
    Admit,
    Run,
    Tick,
    /// A Take that gave so many bytes.
    Take(u64),
    Close,
}

/// The effect of one entry.
#[derive(Drop)]
pub struct Effect {
    /// The number of the entry.
    pub entry: u64,
    /// Its connection, 0 for a Tick.
    pub id: u64,
    /// The command that ran; none where the words were refused.
    pub command: Option<Command>,
    /// The keys that left at their deadline.
    pub expired: Words,
    pub reply: Option<Value>,
    /// What the command signals.
    pub signalled: Signalled,
    pub kind: EntryKind,
}

fn copy_signalled(signalled: &Signalled) -> Result<Signalled, NoMemory>
    ensures { IfOk result (λ s. s ≡ signalled.now) }
{
    match signalled {
        Signalled::Keys(keys) => Ok(Signalled::Keys(keys.copy()?)),
        Signalled::All => Ok(Signalled::All),
    }
}

impl Effect {
    /// An equal effect.
    pub fn copy(&self) -> Result<Effect, NoMemory>
        ensures { IfOk result (λ e. e ≡ self.now) }
    {
        let command = match &self.command {
            Some(command) => Some(copy_command(command)?),
            None => None,
        };
        let reply = match &self.reply {
            Some(reply) => Some(reply.copy()?),
            None => None,
        };
        Ok(Effect {
            entry: self.entry,
            id: self.id,
            command,
            expired: self.expired.copy()?,
            reply,
            signalled: copy_signalled(&self.signalled)?,
            kind: self.kind,
        })
    }
}
