//! What is kept of one connection.
ghost use Rattle.std.specs.Prelude.{◌≡◌, ◌<◌, ◌^◌, IfSome};
ghost use Rattle.serial_model.specs.State as state;
ghost use Rattle.track_modes.specs.ModeState as track;
ghost use Rattle.past_effects.specs.Ends.{ends_one, left_of, settled_one};
ghost use Rattle.past_effects.specs.Seen.{HasNumber, admitted_one, gone, having, passes, taking};

use super::sendings::{Sent, waiting_with};
use serial_model::Standing;
use std::alloc::Global;
use std::marker::Model;
use track_modes::{Mode, Tracking};

/// A connection's mode, whether it has ended, and how many bytes wait for it.
#[derive(Drop)]
pub struct Connection {
    mode: Mode,
    standing: Standing,
    waiting: u64,
}

impl Model for Connection {
    ghost use Rattle.past_effects.specs.Seen.{HasNumber, Seen};

    ghost Value = { Seen };

    ghost view = { λ c. record { mode = c.mode; standing = c.standing; waiting = c.waiting } };

    ghost invariant = { λ c. HasNumber c.mode };
}

/// Why connections end by an action: one quits, all are stopped, or more bytes wait than the limit.
#[derive(Clone, Copy)]
pub struct Causes {
    pub quitter: Option<u64>,
    pub stops: bool,
    pub out_max: u64,
}

/// Whether the connection is the one that is passed over, or that quits.
pub fn passes(one: Option<u64>, id: u64) -> bool
    ensures { result ≡ passes one id }
{
    match one {
        Some(passed) => passed == id,
        None => false,
    }
}

impl Connection {
    /// As it is admitted.
    pub fn new(alloc: Global) -> Connection
        ensures { result ≡ admitted_one }
    {
        Connection {
            mode: Mode::new(alloc),
            standing: Standing::Live,
            waiting: 0,
        }
    }

    pub fn is_live(&self) -> bool
        ensures { result ≡ state.is_live self.now.standing }
    {
        matches!(self.standing, Standing::Live)
    }

    pub fn mode(&self) -> &Mode
        ensures mode { result.now ≡ self.now.mode }
        ensures number { HasNumber result.now }
    {
        &self.mode
    }

    pub fn set_mode(&mut self, mode: Mode)
        requires { HasNumber mode }
        ensures { self.new ≡ having mode self.old }
    {
        self.mode = mode;
    }

    /// The connection that its messages are redirected to.
    pub fn target(&self) -> Option<u64>
        ensures target { result ≡ track.redirect_of self.now.mode.tracking }
        ensures number { IfSome result (λ r. r < 2 ^ 63) }
    {
        match self.mode.tracking() {
            Tracking::On(settings) => settings.redirect,
            Tracking::Off => None,
        }
    }

    pub fn is_tracking(&self) -> bool
        ensures { result ≡ track.is_on self.now.mode.tracking }
    {
        matches!(self.mode.tracking(), Tracking::On(_))
    }

    pub fn is_noloop(&self) -> bool
        ensures { result ≡ track.is_noloop self.now.mode.tracking }
    {
        match self.mode.tracking() {
            Tracking::On(settings) => settings.noloop,
            Tracking::Off => false,
        }
    }

    /// How many bytes wait for it with those of these that are its own, where it does not end.
    fn left(&self, causes: Causes, id: u64, sent: &[Sent]) -> Option<u64>
        ensures { result ≡ left_of causes sent.now id self.now }
    {
        if passes(causes.quitter, id) || causes.stops {
            return None;
        }
        waiting_with(causes.out_max, self.waiting, id, sent)
    }

    /// Whether it ends by an action that sends these.
    pub fn ends(&self, causes: Causes, id: u64, sent: &[Sent]) -> bool
        ensures { result ≡ ends_one causes sent.now id self.now }
    {
        self.is_live() && self.left(causes, id, sent).is_none()
    }

    /// The action is over: it has ended, or what was sent to it waits.
    pub fn settle(&mut self, causes: Causes, id: u64, sent: &[Sent])
        ensures { self.new ≡ settled_one causes sent.now id self.old }
    {
        if !self.is_live() {
            return;
        }
        match self.left(causes, id, sent) {
            Some(waiting) => self.waiting = waiting,
            None => self.end(),
        }
    }

    /// It has ended.
    pub fn end(&mut self)
        ensures { self.new ≡ gone self.old }
    {
        self.standing = Standing::Gone;
        self.waiting = 0;
    }

    /// It took so many bytes.
    pub fn take(&mut self, count: u64)
        ensures { self.new ≡ taking count self.old }
    {
        self.waiting = self.waiting.saturating_sub(count);
    }
}
