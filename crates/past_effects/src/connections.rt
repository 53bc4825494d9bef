//! Connections by their ids, which are 1 to their number.
ghost use Rattle.std.specs.Prelude.{◌≡◌, ◌++◌, ◌∷◌, [], ◌<◌, ◌^◌, IfOk, IfSome, OnOk, length};
ghost use Rattle.std.specs.Prelude.{true};
ghost use Rattle.serial_model.specs.Actions.{peer_at, route_at};
ghost use Rattle.serial_model.specs.Tracking.{ids_where};
ghost use Rattle.track_modes.specs.ModeState.{redirect_of};
ghost use Rattle.past_effects.specs.Ends.{AreSettled, ended_ids};
ghost use Rattle.past_effects.specs.Seen.{HasNumber, admitted_one, changed, gone, having, is_there};
ghost use Rattle.past_effects.specs.Seen.{mode_at, on_at, passed_over, taking, tracks_at};

use super::connection::{Causes, Connection};
use super::sendings::Sent;
use redirect::{Route, route};
use resp_value::NoMemory;
use std::alloc::Global;
use std::marker::Model;
use track_modes::{Mode, Peer};

/// All connections that were admitted.
#[derive(Drop)]
pub struct Connections {
    alloc: Global,
    items: Vec<Connection>,
}

impl Model for Connections {
    ghost use Rattle.std.specs.Prelude.{List};
    ghost use Rattle.past_effects.specs.Seen.{Seen};

    ghost Value = { List Seen };

    ghost view = { λ c. c.items.items };
}

impl Connections {
    pub fn new(alloc: Global) -> Connections
        ensures { result ≡ [] }
    {
        Connections {
            alloc,
            items: Vec::new(alloc),
        }
    }

    pub fn admit(&mut self) -> Result<(), NoMemory>
        ensures { OnOk result (self.new ≡ self.old ++ admitted_one ∷ []) }
    {
        self.items.push(Connection::new(self.alloc))?;
        Ok(())
    }

    fn is_there(&self, id: u64) -> bool
        ensures { result ≡ is_there self.now id }
    {
        0 < id && id <= self.items.len() as u64
    }

    /// Whether the connection was admitted and has not ended. There are fewer than 2 ^ 63.
    pub fn is_live(&self, id: u64) -> bool
        ensures live { result ≡ on_at self.now id }
        ensures number { result ≡ true → id < 2 ^ 63 }
    {
        if !self.is_there(id) {
            return false;
        }
        self.items[(id - 1) as usize].is_live()
    }

    /// An equal mode; of one that was not admitted, that of a new one.
    pub fn mode(&self, id: u64) -> Result<Mode, NoMemory>
        ensures mode { IfOk result (λ m. m ≡ mode_at self.now id) }
        ensures number { IfOk result (λ m. HasNumber m) }
    {
        if !self.is_there(id) {
            return Ok(Mode::new(self.alloc));
        }
        self.items[(id - 1) as usize].mode().copy()
    }

    pub fn set_mode(&mut self, id: u64, mode: Mode)
        requires { HasNumber mode }
        ensures { self.new ≡ changed id (having mode) self.old }
    {
        if !self.is_there(id) {
            return;
        }
        let connection = &mut self.items[(id - 1) as usize];
        connection.set_mode(mode);
    }

    /// The connection that its messages are redirected to.
    pub fn target(&self, id: u64) -> Option<u64>
        ensures target { result ≡ redirect_of (mode_at self.now id).tracking }
        ensures number { IfSome result (λ r. r < 2 ^ 63) }
    {
        if !self.is_there(id) {
            return None;
        }
        self.items[(id - 1) as usize].target()
    }

    // What is known of the target of a redirection; of one that has ended, nothing.
    fn peer(&self, target: Option<u64>) -> Option<Peer>
        ensures { result ≡ peer_at (mode_at self.now) (on_at self.now) target }
    {
        match target {
            Some(id) => {
                if self.is_live(id) {
                    Some(self.items[(id - 1) as usize].mode().peer())
                } else {
                    None
                }
            }
            None => None,
        }
    }

    /// Where what the connection is told goes.
    pub fn route(&self, id: u64) -> Route
        ensures { result ≡ route_at (mode_at self.now) (on_at self.now) id }
    {
        if !self.is_there(id) {
            return Route::Nowhere;
        }
        let peer = self.peer(self.target(id));
        route(self.items[(id - 1) as usize].mode(), id, peer)
    }

    /// The connection itself, where it is told of no key that it changes.
    pub fn passed_over(&self, id: u64) -> Option<u64>
        ensures { result ≡ passed_over self.now id }
    {
        if self.is_there(id) && self.items[(id - 1) as usize].is_noloop() {
            Some(id)
        } else {
            None
        }
    }

    /// Those that track and have not ended, in order of their ids.
    pub fn tracking(&self) -> Result<Vec<u64>, NoMemory>
        ensures { IfOk result
            (λ ids. ids.items ≡ ids_where (tracks_at self.now) (length self.now)) }
    {
        let mut ids = Vec::new(self.alloc);
        for (place, connection) in self.items.iter().enumerate() {
            if connection.is_tracking() && connection.is_live() {
                ids.push(place as u64 + 1)?;
            }
        }
        Ok(ids)
    }

    /// Those that end by an action that sends these, in order of their ids.
    pub fn ending(&self, causes: Causes, sent: &[Sent]) -> Result<Vec<u64>, NoMemory>
        ensures { IfOk result (λ ids. ids.items ≡ ended_ids causes sent.now self.now) }
    {
        let mut ids = Vec::new(self.alloc);
        for (place, connection) in self.items.iter().enumerate() {
            if connection.ends(causes, place as u64 + 1, sent) {
                ids.push(place as u64 + 1)?;
            }
        }
        Ok(ids)
    }

    /// The action is over: those have ended, and what was sent to the others waits.
    pub fn settle(&mut self, causes: Causes, sent: &[Sent])
        ensures { AreSettled causes sent.now self.old self.new }
    {
        let mut place = 0;
        'places: while place < self.items.len() {
            let connection = &mut self.items[place];
            connection.settle(causes, place as u64 + 1, sent);
            place += 1;
        }
    }

    /// The connection has ended.
    pub fn end(&mut self, id: u64)
        ensures { self.new ≡ changed id gone self.old }
    {
        if !self.is_there(id) {
            return;
        }
        let connection = &mut self.items[(id - 1) as usize];
        connection.end();
    }

    /// The connection took so many bytes.
    pub fn take(&mut self, id: u64, count: u64)
        ensures { self.new ≡ changed id (taking count) self.old }
    {
        if !self.is_there(id) {
            return;
        }
        let connection = &mut self.items[(id - 1) as usize];
        connection.take(count);
    }
}
