//! What the server keeps of one connection.
ghost use Rattle.std.specs.Prelude.{◌≡◌, ◌<◌, ◌^◌, ◌&&◌, ◌++◌, true, false, OnOk, OnErr, IfOk};
ghost use Rattle.std.specs.Prelude.{IfSome, length, take, drop};
ghost use Rattle.serial_model.specs.Actions.{spelled};
ghost use Rattle.serial_model.specs.State as state;
ghost use Rattle.serial_model.specs.State.{keeps_bytes, may_take};
ghost use Rattle.serial_model.specs.declared.standing.Standing.TheVariants.{Quit};
ghost use Rattle.server_book.specs.Places.{HasNumber, bytes_in, fresh, has_quit, lost_one, shut};
ghost use Rattle.track_modes.specs.Commands.{spent_mode};
ghost use Rattle.track_modes.specs.ModeState as track;

use out_queue::OutQueue;
use resp_value::{NoMemory, Octets, Proto, Value};
use serial_model::Standing;
use std::alloc::Global;
use std::marker::Model;
use track_modes::{Mode, Tracking};

/// What a connection was sent and has not taken. One that was sent nothing has no queue.
#[derive(Drop)]
enum Queue {
    Nothing,
    Bytes(OutQueue),
}

/// What is kept of a connection until it is closed.
#[derive(Drop)]
struct Open {
    mode: Mode,
    queue: Queue,
    is_broken: bool,
}

/// A connection: how far it has ended and, until it is closed, what its own runs made of it, the
/// bytes that it was sent and has not taken, and whether its redirection is broken.
#[derive(Drop)]
pub struct Connection {
    standing: Standing,
    kept: Option<Box<Open>>,
}

impl Model for Connection {
    ghost use Rattle.server_book.specs.Places.{Connection, IsKept, shown};

    ghost Value = { Connection };

    ghost view = { λ c. shown c.standing c.kept };

    ghost invariant = { λ c. IsKept c.standing c.kept };
}

fn is_live(standing: Standing) -> bool
    ensures { result ≡ state.is_live standing }
{
    matches!(standing, Standing::Live)
}

fn is_tracking(mode: &Mode) -> bool
    ensures { result ≡ track.is_on mode.now.tracking }
{
    matches!(mode.tracking(), Tracking::On(_))
}

// The connection that its messages are redirected to.
fn target(mode: &Mode) -> Option<u64>
    ensures { result ≡ track.redirect_of mode.now.tracking }
{
    match mode.tracking() {
        Tracking::On(settings) => settings.redirect,
        Tracking::Off => None,
    }
}

fn is_noloop(mode: &Mode) -> bool
    ensures { result ≡ track.is_noloop mode.now.tracking }
{
    match mode.tracking() {
        Tracking::On(settings) => settings.noloop,
        Tracking::Off => false,
    }
}

impl Open {
    fn size(&self) -> usize
        ensures { result ≡ length (bytes_in self.now.queue) }
    {
        match &self.queue {
            Queue::Nothing => 0,
            Queue::Bytes(queue) => queue.size() as usize,
        }
    }

    #[tactic(auto, unfolding(serial_model::specs::Actions::spelled))]
    fn add_value(&mut self, alloc: Global, proto: Proto, value: &Value) -> Result<u64, NoMemory>
        ensures mode { self.new.mode ≡ self.old.mode }
        ensures broken { self.new.is_broken ≡ self.old.is_broken }
        ensures ok { OnOk result (bytes_in self.new.queue
            ≡ bytes_in self.old.queue ++ spelled proto value.now) }
        ensures count { IfOk result (λ n. n ≡ length (spelled proto value.now)) }
        ensures err { OnErr result (bytes_in self.new.queue ≡ bytes_in self.old.queue) }
    {
        match &mut self.queue {
            Queue::Nothing => {
                let mut queue = OutQueue::new(alloc);
                let count = queue.add_value(proto, value)?;
                self.queue = Queue::Bytes(queue);
                Ok(count)
            }
            Queue::Bytes(queue) => queue.add_value(proto, value),
        }
    }
}

impl Connection {
    /// One that was sent nothing.
    pub fn fresh(alloc: Global) -> Result<Connection, NoMemory>
        ensures { IfOk result (λ c. c ≡ fresh) }
    {
        let open = Open {
            mode: Mode::new(alloc),
            queue: Queue::Nothing,
            is_broken: false,
        };
        Ok(Connection {
            standing: Standing::Live,
            kept: Some(Box::new(alloc, open)?),
        })
    }

    /// One that is closed, which takes no memory.
    pub fn shut(quit: bool) -> Connection
        ensures { result ≡ shut quit }
    {
        let standing = if quit {
            Standing::QuitClosed
        } else {
            Standing::Gone
        };
        Connection {
            standing,
            kept: None,
        }
    }

    /// Whether it ended by its own QUIT.
    pub fn has_quit(&self) -> bool
        ensures { result ≡ has_quit self.now.standing }
    {
        matches!(self.standing, Standing::Quit | Standing::QuitClosed)
    }

    /// Whether it has not ended.
    pub fn is_live(&self) -> bool
        ensures { result ≡ state.is_live self.now.standing }
    {
        is_live(self.standing)
    }

    /// Whether it can still be closed.
    pub fn reads(&self) -> bool
        ensures { result ≡ keeps_bytes self.now.standing }
    {
        matches!(self.standing, Standing::Live | Standing::Quit)
    }

    /// Whether it can still take.
    pub fn gives(&self) -> bool
        ensures { result ≡ may_take self.now.standing }
    {
        !matches!(self.standing, Standing::Gone)
    }

    /// Whether it tracks and has not ended.
    pub fn tracks(&self) -> bool
        ensures { result ≡ (track.is_on self.now.mode.tracking && state.is_live self.now.standing) }
    {
        match &self.kept {
            Some(open) => is_tracking(&open.mode) && is_live(self.standing),
            None => false,
        }
    }

    /// The connection that its messages are redirected to.
    pub fn target(&self) -> Option<u64>
        ensures target { result ≡ track.redirect_of self.now.mode.tracking }
        ensures number { IfSome result (λ r. r < 2 ^ 63) }
    {
        match &self.kept {
            Some(open) => target(&open.mode),
            None => None,
        }
    }

    /// Whether a message was due to it, and that connection had ended.
    pub fn is_broken(&self) -> bool
        ensures { result ≡ self.now.is_broken }
    {
        match &self.kept {
            Some(open) => open.is_broken,
            None => false,
        }
    }

    pub fn mode(&self) -> &Mode
        requires { keeps_bytes self.now.standing ≡ true }
        ensures mode { result.now ≡ self.now.mode }
        ensures number { HasNumber result.now }
    {
        match &self.kept {
            Some(open) => &open.mode,
            None => unreachable!(),
        }
    }

    pub fn set_mode(&mut self, mode: Mode)
        requires open { keeps_bytes self.old.standing ≡ true }
        requires number { HasNumber mode }
        ensures { self.new ≡ record self.old { mode = mode } }
    {
        match &mut self.kept {
            Some(open) => open.mode = mode,
            None => unreachable!(),
        }
    }

    /// Its redirection is broken, where it can still be closed. It takes no memory.
    pub fn lose(&mut self)
        ensures { self.new ≡ lost_one self.old }
    {
        if !self.reads() {
            return;
        }
        match &mut self.kept {
            Some(open) => open.is_broken = true,
            None => unreachable!(),
        }
    }

    /// Its redirection is not broken any more. It takes no memory.
    pub fn mend(&mut self)
        requires { keeps_bytes self.old.standing ≡ true }
        ensures { self.new ≡ record self.old { is_broken = false } }
    {
        match &mut self.kept {
            Some(open) => open.is_broken = false,
            None => unreachable!(),
        }
    }

    /// What CLIENT CACHING said ends. It takes no memory.
    pub fn spend(&mut self)
        requires { keeps_bytes self.old.standing ≡ true }
        ensures { self.new ≡ record self.old { mode = spent_mode self.old.mode } }
    {
        match &mut self.kept {
            Some(open) => open.mode.spend(),
            None => unreachable!(),
        }
    }

    /// It ends by its own QUIT. What it has not taken can still be taken. It takes no memory.
    pub fn quit(&mut self)
        requires { keeps_bytes self.old.standing ≡ true }
        ensures { self.new ≡ record self.old { standing = Quit } }
    {
        self.standing = Standing::Quit;
    }

    /// Whether it tracks, and is told of no key that it changes itself.
    pub fn is_noloop(&self) -> bool
        ensures { result ≡ track.is_noloop self.now.mode.tracking }
    {
        match &self.kept {
            Some(open) => is_noloop(&open.mode),
            None => false,
        }
    }

    /// How many bytes it has not taken.
    pub fn size(&self) -> usize
        ensures { result ≡ length self.now.queue }
    {
        match &self.kept {
            Some(open) => open.size(),
            None => 0,
        }
    }

    /// The first bytes that it has not taken, at most so many.
    pub fn front(&self, alloc: Global, most: usize) -> Result<Octets, NoMemory>
        ensures { IfOk result (λ o. o ≡ take most self.now.queue) }
    {
        if let Some(open) = &self.kept {
            if let Queue::Bytes(queue) = &open.queue {
                return queue.front(most);
            }
        }
        Octets::from_slice(alloc, b"")
    }

    /// Drops the first bytes that it has not taken, at most so many. It takes no memory.
    pub fn advance(&mut self, most: usize)
        ensures { self.new ≡ record self.old { queue = drop most self.old.queue } }
    {
        if let Some(open) = &mut self.kept {
            if let Queue::Bytes(queue) = &mut open.queue {
                queue.advance(most);
            }
        }
    }

    /// Keeps the first bytes, at most so many, of those that it has not taken. It takes no memory.
    pub fn keep(&mut self, most: usize)
        ensures { self.new ≡ record self.old { queue = take most self.old.queue } }
    {
        if let Some(open) = &mut self.kept {
            if let Queue::Bytes(queue) = &mut open.queue {
                queue.keep(most);
            }
        }
    }

    /// A value goes behind the bytes that it has not taken, as it is spelled. It answers of how
    /// many bytes it is.
    pub fn add_value(&mut self, alloc: Global, proto: Proto, value: &Value) -> Result<u64, NoMemory>
        requires { keeps_bytes self.old.standing ≡ true }
        ensures ok { OnOk result (let message = spelled proto value.now in
            self.new ≡ record self.old { queue = self.old.queue ++ message }) }
        ensures count { IfOk result (λ n. n ≡ length (spelled proto value.now)) }
        ensures err { OnErr result (self.new ≡ self.old) }
    {
        match &mut self.kept {
            Some(open) => open.add_value(alloc, proto, value),
            None => unreachable!(),
        }
    }
}
