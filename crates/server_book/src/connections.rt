//! What the server keeps of its connections, by their ids, and what it sends them.
ghost use Rattle.std.specs.Prelude.{◌≡◌, ◌++◌, ◌∷◌, [], ◌+◌, ◌^◌, ◌<◌, ◌≤◌, true, false, OnOk};
ghost use Rattle.std.specs.Prelude.{OnErr, IfOk, IfSome, Some, length, take, drop, option_map};
ghost use Rattle.std.specs.Prelude.{List, ℕ, Option};
ghost use Rattle.redirect.specs.Messages.{message_of, notice_of, push_of};
ghost use Rattle.resp_value.specs.declared.value.Proto.TheVariants.{Two, Three};
ghost use Rattle.serial_model.specs.Actions.{peer_at, route_at, spelled, to_one, way};
ghost use Rattle.serial_model.specs.Tracking.{has_id, told_to};
ghost use Rattle.server_book.specs.Connections.{IsId, IsOpen, ConnectionsState, connection_at};
ghost use Rattle.server_book.specs.Connections.{gives, is_there, is_live, reads, with_connection};
ghost use Rattle.server_book.specs.Endings.{ArePostedTo, IsWithin, ended_if, is_ending, is_past};
ghost use Rattle.server_book.specs.Places.{HasNumber, fresh, gone};
ghost use Rattle.server_book.specs.Sendings.{IsMessage, IsOpenRoute, before_posts, is_lost};
ghost use Rattle.server_book.specs.Sendings.{lost_marked, modes_in, passes, queued, size_of};
ghost use Rattle.server_book.specs.Sendings.{passed_over, told_keys, tracking_ids, unpassed};
ghost use Rattle.server_book.specs.Sendings.{end_posts, message_post, with_sendings};
ghost use Rattle.server_book.specs.Sendings.{with_told};
ghost use Rattle.track_modes.specs.Commands.{spent_mode};
ghost use Rattle.track_modes.specs.ModeState.{redirect_of};

use super::connection::Connection;
use super::ends::Ends;
use super::messages::{message_like, push_of};
use super::roster::Roster;
use redirect::{Route, notice, route};
use resp_value::{NoMemory, Octets, Proto, Value};
use serial_model::{Post, Posted};
use std::alloc::Global;
use std::marker::Model;
use track_modes::{Mode, Peer};

/// All connections that were admitted, and what the last turn sent them. Their ids are 1 to their
/// number.
#[derive(Drop)]
pub struct Connections {
    alloc: Global,
    items: Roster,
    posts: Vec<Post>,
    /// Those whose messages were due where the target of their redirection had ended, until the
    /// turn is settled.
    lost: Vec<u64>,
    /// Those that the last turn ended, though they did not quit.
    drops: Vec<u64>,
    /// How many have not ended. Room is kept for the end of each of them.
    live: usize,
}

impl Model for Connections {
    ghost use Rattle.std.specs.Prelude.{◌-◌, vec_capacity, vec_len};
    ghost use Rattle.server_book.specs.Connections.{ConnectionsState, HoldsPosts};

    ghost Value = { ConnectionsState };

    ghost view = { λ c. record {
      items = c.items;
      posts = c.posts.items;
      lost = c.lost.items;
      drops = c.drops.items;
    } };

    ghost invariant = { λ c.
        HoldsPosts c.items c.posts.items c.lost.items c.live
        (vec_capacity c.posts - vec_len c.posts) (vec_capacity c.drops - vec_len c.drops) };
}

fn size_of(what: Posted) -> u64
    ensures { result ≡ size_of what }
{
    match what {
        Posted::Message { length } => length,
        Posted::End => 0,
    }
}

// Whether the connection is the one that is passed over.
fn passes(but: Option<u64>, id: u64) -> bool
    ensures { result ≡ passes but id }
{
    match but {
        Some(passed) => passed == id,
        None => false,
    }
}

impl Connections {
    pub fn new(alloc: Global) -> Connections
        ensures { result ≡ record { items = []; posts = []; lost = []; drops = [] } }
    {
        Connections {
            alloc,
            items: Roster::new(alloc),
            posts: Vec::new(alloc),
            lost: Vec::new(alloc),
            drops: Vec::new(alloc),
            live: 0,
        }
    }

    pub fn count(&self) -> usize
        ensures count { result ≡ length self.now.items }
        ensures below { result < 2 ^ 63 }
    {
        self.items.len()
    }

    /// What the last turn sent, in order.
    pub fn posts(&self) -> &[Post]
        ensures { result.now ≡ self.now.posts }
    {
        self.posts.as_slice()
    }

    /// Those that the last turn ended, though they did not quit, in order of their ids.
    pub fn drops(&self) -> &[u64]
        ensures { result.now ≡ self.now.drops }
    {
        self.drops.as_slice()
    }

    /// A turn begins: nothing is sent yet, and nobody has ended by it.
    pub fn clear_posts(&mut self)
        ensures { self.new ≡ record self.old { posts = []; drops = [] } }
    {
        self.posts.clear();
        self.drops.clear();
    }

    // Whether a connection of this id was admitted.
    fn is_there(&self, id: u64) -> bool
        ensures { result ≡ is_there self.now.items id }
    {
        0 < id && id <= self.items.len() as u64
    }

    /// Whether a connection of this id was admitted and has not ended.
    pub fn is_live(&self, id: u64) -> bool
        ensures { result ≡ is_live self.now.items id }
    {
        if !self.is_there(id) {
            return false;
        }
        self.items.get((id - 1) as usize).is_live()
    }

    /// Whether it can still be closed.
    pub fn reads(&self, id: u64) -> bool
        ensures { result ≡ reads self.now.items id }
    {
        if !self.is_there(id) {
            return false;
        }
        self.items.get((id - 1) as usize).reads()
    }

    /// Whether it can still take.
    pub fn gives(&self, id: u64) -> bool
        ensures { result ≡ gives self.now.items id }
    {
        if !self.is_there(id) {
            return false;
        }
        self.items.get((id - 1) as usize).gives()
    }

    /// One more connection, with nothing to take.
    pub fn admit(&mut self) -> Result<(), NoMemory>
        ensures ok { OnOk result
            (self.new ≡ record self.old { items = self.old.items ++ fresh ∷ [] }) }
        ensures err { OnErr result (self.new ≡ self.old) }
    {
        // Room for its end, and for that of each of the others.
        self.posts.reserve(self.live + 1)?;
        self.drops.reserve(self.live + 1)?;
        self.items.push(Connection::fresh(self.alloc)?)?;
        self.live += 1;
        Ok(())
    }

    pub fn mode(&self, id: u64) -> &Mode
        requires { IsOpen self.now.items id }
        ensures mode { result.now ≡ (connection_at self.now.items id).mode }
        ensures number { HasNumber result.now }
    {
        self.items.get((id - 1) as usize).mode()
    }

    pub fn set_mode(&mut self, id: u64, mode: Mode)
        requires open { IsOpen self.old.items id }
        requires number { HasNumber mode }
        ensures { let c = connection_at self.old.items id in
            let items = with_connection self.old.items id (record c { mode = mode }) in
            self.new ≡ record self.old { items = items } }
    {
        let connection = self.items.open_mut((id - 1) as usize);
        connection.set_mode(mode);
    }

    /// The connection has this mode, and its redirection is not broken any more. It takes no
    /// memory.
    pub fn renew(&mut self, id: u64, mode: Mode)
        requires open { IsOpen self.old.items id }
        requires number { HasNumber mode }
        ensures { let c = connection_at self.old.items id in
            let renewed = record c { mode = mode; is_broken = false } in
            let items = with_connection self.old.items id renewed in
            self.new ≡ record self.old { items = items } }
    {
        let connection = self.items.open_mut((id - 1) as usize);
        connection.set_mode(mode);
        connection.mend();
    }

    /// What CLIENT CACHING said to the connection ends. It takes no memory.
    pub fn spend(&mut self, id: u64)
        requires { IsOpen self.old.items id }
        ensures { let c = connection_at self.old.items id in
            let spent = record c { mode = spent_mode c.mode } in
            let items = with_connection self.old.items id spent in
            self.new ≡ record self.old { items = items } }
    {
        let connection = self.items.open_mut((id - 1) as usize);
        connection.spend();
    }

    /// The connection itself where it is told of no key that it changes.
    pub fn passed_over(&self, id: u64) -> Option<u64>
        requires { IsId self.now.items id }
        ensures { result ≡ passed_over self.now.items id }
    {
        if self.items.get((id - 1) as usize).is_noloop() {
            Some(id)
        } else {
            None
        }
    }

    /// How many bytes the connection has not taken.
    pub fn waiting(&self, id: u64) -> usize
        requires { IsId self.now.items id }
        ensures { result ≡ length (connection_at self.now.items id).queue }
    {
        self.items.get((id - 1) as usize).size()
    }

    /// The first bytes that the connection has not taken, at most so many.
    pub fn front(&self, id: u64, most: usize) -> Result<Octets, NoMemory>
        requires { IsId self.now.items id }
        ensures { IfOk result (λ o. o ≡ take most (connection_at self.now.items id).queue) }
    {
        self.items.get((id - 1) as usize).front(self.alloc, most)
    }

    /// Drops the first bytes that the connection has not taken, at most so many.
    pub fn advance(&mut self, id: u64, most: usize)
        requires { IsId self.old.items id }
        ensures { let c = connection_at self.old.items id in
            let left = record c { queue = drop most c.queue } in
            let items = with_connection self.old.items id left in
            self.new ≡ record self.old { items = items } }
    {
        self.items.advance((id - 1) as usize, most);
    }

    /// Sends a value: its spelling goes behind the bytes that the connection has not taken.
    #[tactic(auto, unfolding(serial_model::specs::Actions::spelled))]
    pub fn send(&mut self, entry: u64, to: u64, proto: Proto, value: &Value) -> Result<(), NoMemory>
        requires { IsOpen self.old.items to }
        ensures ok { OnOk result (let message = spelled proto value.now in
            self.new ≡ record self.old {
              items = queued self.old.items to message;
              posts = self.old.posts ++ message_post entry to (length message) ∷ [];
            }) }
        ensures err { OnErr result (self.new ≡ self.old) }
    {
        self.posts.reserve(self.live + 1)?;
        let connection = self.items.open_mut((to - 1) as usize);
        let length = connection.add_value(self.alloc, proto, value)?;
        self.posts.push_reserved(Post {
            entry,
            id: to,
            what: Posted::Message { length },
        });
        Ok(())
    }

    /// Those that track and have not ended, in order of their ids.
    pub fn tracking(&self, alloc: Global) -> Result<Vec<u64>, NoMemory>
        ensures { IfOk result (λ ids. ids.items ≡ tracking_ids self.now.items) }
    {
        let mut ids = Vec::new(alloc);
        let places = self.items.places();
        for (nth, place) in places.iter().enumerate() {
            if self.items.get(*place).tracks() {
                ids.push(*place as u64 + 1)?;
            }
        }
        Ok(ids)
    }

    // What the sender of a message to a connection must know of it; of one that has ended, nothing.
    fn peer(&self, id: Option<u64>) -> Option<Peer>
        ensures { result ≡ peer_at (modes_in self.now.items) (is_live self.now.items) id }
    {
        match id {
            Some(id) => {
                if self.is_live(id) {
                    Some(self.items.get((id - 1) as usize).mode().peer())
                } else {
                    None
                }
            }
            None => None,
        }
    }

    // The connection that one that has not ended redirects its messages to.
    fn target(&self, id: u64) -> Option<u64>
        ensures target { result ≡ redirect_of (modes_in self.now.items id).tracking }
        ensures number { IfSome result (λ r. r < 2 ^ 63) }
    {
        if self.is_live(id) {
            self.items.get((id - 1) as usize).target()
        } else {
            None
        }
    }

    /// Whether the connection redirects its messages to one that has ended.
    pub fn is_lost(&self, id: u64) -> bool
        ensures { result ≡ is_lost self.now.items id }
    {
        match self.target(id) {
            Some(target) => !self.is_live(target),
            None => false,
        }
    }

    /// Whether the connection's redirection is known to be broken.
    pub fn is_broken(&self, id: u64) -> bool
        requires { IsId self.now.items id }
        ensures { result ≡ (connection_at self.now.items id).is_broken }
    {
        self.items.get((id - 1) as usize).is_broken()
    }

    /// Whether the connection was found lost, which is not settled yet.
    pub fn was_lost(&self, id: u64) -> bool
        ensures { result ≡ has_id id self.now.lost }
    {
        self.lost.as_slice().contains(&id)
    }

    // Where what the connection is told goes.
    fn route_of(&self, id: u64) -> Route
        ensures route { result
            ≡ route_at (modes_in self.now.items) (is_live self.now.items) id }
        ensures open { IsOpenRoute self.now.items result }
    {
        if !self.is_live(id) {
            return Route::Nowhere;
        }
        let mode = self.items.get((id - 1) as usize).mode();
        route(mode, id, self.peer(self.target(id)))
    }

    // Sends the message that names the keys that a push names, which is built where there is none.
    fn send_message(
        &mut self,
        entry: u64,
        to: u64,
        push: &Value,
        message: &mut Option<Value>,
    ) -> Result<(), NoMemory>
        requires { IsOpen self.old.items to }
        ensures ok { OnOk result ((keys : Option (List (List ℕ)))
            → push.now ≡ push_of keys → IsMessage keys message.old
            → (self.new ≡ with_sendings entry (to_one to Two (Some (message_of keys))) self.old)
            × IsMessage keys message.new) }
        ensures err { OnErr result (self.new ≡ self.old) }
    {
        let built = match message.take() {
            Some(built) => built,
            None => message_like(self.alloc, push)?,
        };
        self.send(entry, to, Proto::Two, &built)?;
        *message = Some(built);
        Ok(())
    }

    // Sends the notice that the target of a connection's redirection has ended.
    fn send_notice(&mut self, entry: u64, to: u64, id: u64) -> Result<(), NoMemory>
        requires { IsOpen self.old.items to }
        ensures ok { OnOk result (let target = redirect_of (modes_in self.old.items id).tracking in
            self.new
            ≡ with_sendings entry (to_one to Three (option_map notice_of target)) self.old) }
        ensures err { OnErr result (self.new ≡ self.old) }
    {
        match self.target(id) {
            Some(target) => {
                let notice = notice(self.alloc, target)?;
                self.send(entry, to, Proto::Three, &notice)
            }
            None => Ok(()),
        }
    }

    // Sends what a push says of a connection where that goes.
    fn send_by(
        &mut self,
        entry: u64,
        id: u64,
        push: &Value,
        message: &mut Option<Value>,
    ) -> Result<(), NoMemory>
        ensures ok { OnOk result ((keys : Option (List (List ℕ)))
            → push.now ≡ push_of keys → IsMessage keys message.old
            → (self.new ≡ with_sendings entry
            (way (modes_in self.old.items) (is_live self.old.items)
            (record { to = id; keys = keys })) self.old) × IsMessage keys message.new) }
        ensures err { OnErr result (self.new ≡ self.old) }
    {
        match self.route_of(id) {
            Route::Push(to) => self.send(entry, to, Proto::Three, push),
            Route::Message(to) => self.send_message(entry, to, push, message),
            Route::BrokenNotice(to) => self.send_notice(entry, to, id),
            Route::Nowhere => Ok(()),
        }
    }

    // Tells a connection what a push says. Where its target has ended that is noted.
    fn tell_to(
        &mut self,
        entry: u64,
        id: u64,
        push: &Value,
        message: &mut Option<Value>,
    ) -> Result<(), NoMemory>
        ensures ok { OnOk result ((keys : Option (List (List ℕ)))
            → push.now ≡ push_of keys → IsMessage keys message.old
            → (self.new ≡ with_told entry (record { to = id; keys = keys } ∷ []) self.old)
            × IsMessage keys message.new) }
        ensures err { OnErr result
            (before_posts self.new.posts self.new.items
            ≡ before_posts self.old.posts self.old.items) }
    {
        if self.is_lost(id) {
            self.lost.push(id)?;
        }
        self.send_by(entry, id, push, message)
    }

    // Tells a connection what a push says, unless it is passed over.
    fn tell_one(
        &mut self,
        entry: u64,
        but: Option<u64>,
        id: u64,
        push: &Value,
        message: &mut Option<Value>,
    ) -> Result<(), NoMemory>
        ensures ok { OnOk result ((keys : Option (List (List ℕ)))
            → push.now ≡ push_of keys → IsMessage keys message.old
            → (self.new ≡ with_told entry (unpassed but (told_to keys (id ∷ []))) self.old)
            × IsMessage keys message.new) }
        ensures err { OnErr result
            (before_posts self.new.posts self.new.items
            ≡ before_posts self.old.posts self.old.items) }
    {
        if passes(but, id) {
            return Ok(());
        }
        self.tell_to(entry, id, push, message)
    }

    /// Tells connections that a key is not what it was, or that no key is, each by its way; the one
    /// that is passed over is told nothing. Where memory runs out, some of them were told.
    pub fn tell(
        &mut self,
        alloc: Global,
        entry: u64,
        key: Option<&[u8]>,
        but: Option<u64>,
        to: &[u64],
    ) -> Result<(), NoMemory>
        ensures ok { OnOk result (let keys = told_keys (option_map (λ k. k.now) key.entry) in
            self.new ≡ with_told entry (unpassed but (told_to keys to.now)) self.old) }
        ensures err { OnErr result
            (before_posts self.new.posts self.new.items
            ≡ before_posts self.old.posts self.old.items) }
    {
        if to.is_empty() {
            return Ok(());
        }
        let push = push_of(alloc, key)?;
        self.tell_each(entry, &push, but, to)
    }

    /// Tells those of these connections that are not passed over what a push says, each by its way.
    /// Where memory runs out, some of them were told.
    pub fn tell_each(
        &mut self,
        entry: u64,
        push: &Value,
        but: Option<u64>,
        to: &[u64],
    ) -> Result<(), NoMemory>
        ensures ok { OnOk result ((keys : Option (List (List ℕ)))
            → push.now ≡ push_of keys
            → self.new ≡ with_told entry (unpassed but (told_to keys to.now)) self.old) }
        ensures err { OnErr result ((keys : Option (List (List ℕ)))
            → push.now ≡ push_of keys
            → before_posts self.new.posts self.new.items
            ≡ before_posts self.old.posts self.old.items) }
    {
        let mut message = None;
        for (place, id) in to.iter().enumerate() {
            self.tell_one(entry, but, *id, push, &mut message)?;
        }
        Ok(())
    }

    /// The redirections of those that were found lost are broken from now on. It takes no memory.
    pub fn mark_lost(&mut self)
        ensures { self.new ≡ lost_marked self.old }
    {
        'lost: while let Some(id) = self.lost.pop() {
            self.items.lose((id - 1) as usize);
        }
    }

    /// Takes back all that the turn sent, the last first, and forgets who was found lost. Nobody
    /// has ended by it. It takes no memory.
    pub fn take_back(&mut self)
        ensures { self.new ≡ record {
          items = before_posts self.old.posts self.old.items;
          posts = [];
          lost = [];
          drops = [];
        } }
    {
        self.lost.clear();
        self.drops.clear();
        'posts: while let Some(post) = self.posts.pop() {
            let place = (post.id - 1) as usize;
            let size = size_of(post.what) as usize;
            let held = self.items.get(place).size();
            let left = held.saturating_sub(size);
            self.items.keep(place, left);
        }
    }

    /// Closes the connection, and gives up what it has not taken. Its end is sent where it had not
    /// ended. It takes no memory.
    pub fn close(&mut self, entry: u64, id: u64)
        requires there { IsId self.old.items id }
        requires none { self.old.posts ≡ [] }
        ensures { let c = connection_at self.old.items id in
            self.new ≡ record self.old {
              items = with_connection self.old.items id (gone c);
              posts = end_posts entry id c.standing;
            } }
    {
        let place = (id - 1) as usize;
        let was_live = self.items.get(place).is_live();
        self.items.close(place);
        if was_live {
            self.live -= 1;
            self.posts.push_reserved(Post {
                entry,
                id,
                what: Posted::End,
            });
        }
    }

    // Whether more bytes wait for the connection than so many.
    fn is_past(&self, limit: u64, id: u64) -> bool
        requires { IsId self.now.items id }
        ensures { result ≡ is_past limit self.now.items id }
    {
        self.items.get((id - 1) as usize).size() as u64 > limit
    }

    // Whether the connection is one of those whom a turn ends.
    fn is_ending(&self, ends: Ends, id: u64) -> bool
        requires { IsId self.now.items id }
        ensures { result ≡ is_ending ends self.now.items id }
    {
        self.items.get((id - 1) as usize).is_live()
            && (ends.quits(id) || ends.stops || self.is_past(ends.limit, id))
    }

    /// Between which numbers those are whom a turn ends: their ids are past the first, and not past
    /// the second.
    pub fn ending_within(&self, ends: Ends) -> (u64, u64)
        requires by { ends.quits ≡ true → IsId self.now.items ends.by }
        requires posted { ArePostedTo ends.limit self.now.items self.now.posts }
        ensures { IsWithin ends self.now.items result.0 result.1 }
    {
        let count = self.items.len() as u64;
        if ends.stops {
            return (0, count);
        }
        let mut after = count;
        let mut last = 0;
        if ends.quits {
            after = ends.by - 1;
            last = ends.by;
        }
        for (place, post) in self.posts.iter().enumerate() {
            if self.is_past(ends.limit, post.id) {
                after = after.min(post.id - 1);
                last = last.max(post.id);
            }
        }
        (after, last.max(after))
    }

    /// Ends the connection where it is one of those whom a turn ends: its end is sent behind all
    /// else; one that quits keeps what it has not taken, and another is closed. Answers whether it
    /// ended. It takes no memory.
    pub fn end(&mut self, entry: u64, ends: Ends, id: u64) -> bool
        requires { IsId self.old.items id }
        ensures is { result ≡ is_ending ends self.old.items id }
        ensures ended { self.new ≡ ended_if result entry ends id self.old }
    {
        if !self.is_ending(ends, id) {
            return false;
        }
        let quits = ends.quits(id);
        self.items.end((id - 1) as usize, quits);
        self.live -= 1;
        self.posts.push_reserved(Post {
            entry,
            id,
            what: Posted::End,
        });
        if !quits {
            self.drops.push_reserved(id);
        }
        true
    }
}
