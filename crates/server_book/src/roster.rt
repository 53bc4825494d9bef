//! All connections that were admitted, of which those that are closed take a bit each.
ghost use Rattle.std.specs.Prelude.{◌≡◌, ◌++◌, ◌∷◌, [], ◌<◌, ◌^◌, true, OnOk, OnErr, length};
ghost use Rattle.std.specs.Prelude.{slice_index_or, slice_set, take, drop};
ghost use Rattle.std.specs.Borrow.{sem};
ghost use Rattle.std.specs.Option.{option_copied_mut};
ghost use Rattle.server_book.specs.Places.{ended_one, fresh, gone, lost_one};
ghost use Rattle.server_book.specs.Connections.{is_open};
ghost use Rattle.server_book.specs.Roster.{AreKept, IsAmong, IsGot, Rise};
ghost use Rattle.server_book.specs.Lending.{lends_open, lends_place};

use super::bits::{is_set, make_room, put};
use super::connection::Connection;
use resp_value::NoMemory;
use std::alloc::Global;
use std::marker::Model;

/// A list of connections by their places. A look-up is by halves among those that are kept.
#[derive(Drop)]
pub struct Roster {
    count: usize,
    /// The places of those that are kept, which rise, and these.
    places: Vec<usize>,
    kept: Vec<Connection>,
    /// Whether each of the others quit, a bit each.
    quits: Vec<u64>,
    /// What is seen of one that quit and is closed, and of another that is closed.
    quit: Connection,
    gone: Connection,
}

impl Model for Roster {
    ghost use Rattle.std.specs.Prelude.{◌≡◌, List, true, false};
    ghost use Rattle.server_book.specs.Places.{Connection, shut};
    ghost use Rattle.server_book.specs.Roster.{IsRoster, listed, seen};

    ghost Value = { List Connection };

    ghost view = { λ r. listed (seen r.places.items r.kept.items r.quits.items) 0 r.count };

    ghost invariant = { λ r.
        IsRoster r.count r.places.items r.kept.items r.quits.items
        × (r.quit ≡ shut true) × (r.gone ≡ shut false) };
}

// Where a place is among these.
fn among(places: &[usize], place: usize) -> Option<usize>
    requires { Rise places.now }
    ensures { IsAmong places.now place result }
{
    match places.binary_search(&place) {
        Ok(at) => Some(at),
        Err(_) => None,
    }
}

impl Roster {
    pub fn new(alloc: Global) -> Roster
        ensures { result ≡ [] }
    {
        Roster {
            count: 0,
            places: Vec::new(alloc),
            kept: Vec::new(alloc),
            quits: Vec::new(alloc),
            quit: Connection::shut(true),
            gone: Connection::shut(false),
        }
    }

    pub fn len(&self) -> usize
        ensures count { result ≡ length self.now }
        ensures below { result < 2 ^ 63 }
    {
        self.count
    }

    /// The connection at a place.
    pub fn get(&self, place: usize) -> &Connection
        requires { place < length self.now }
        ensures { result.now ≡ slice_index_or self.now place fresh }
    {
        match among(&self.places, place) {
            Some(at) => &self.kept[at],
            None => {
                if is_set(&self.quits, place) {
                    &self.quit
                } else {
                    &self.gone
                }
            }
        }
    }

    /// The places of those that are kept. Each that is not closed is.
    pub fn places(&self) -> &[usize]
        ensures kept { AreKept self.now result.now }
        ensures below { length self.now < 2 ^ 63 }
    {
        self.places.as_slice()
    }

    /// The connection at a place where it is kept.
    pub fn get_mut(&mut self, place: usize) -> Option<&mut Connection>
        requires { place < length self.old }
        ensures* writes_back { sem 𝓛 (lends_place self.entry place result) }
        ensures value { IsGot self.old place (option_copied_mut result) }
    {
        match among(&self.places, place) {
            Some(at) => Some(&mut self.kept[at]),
            None => None,
        }
    }

    /// The connection at a place that is not closed.
    pub fn open_mut(&mut self, place: usize) -> &mut Connection
        requires there { place < length self.old }
        requires open { is_open (slice_index_or self.old place fresh) ≡ true }
        ensures* writes_back { sem 𝓛 (lends_open self.entry place result) }
        ensures value { result.now ≡ slice_index_or self.old place fresh }
    {
        match self.get_mut(place) {
            Some(connection) => connection,
            None => unreachable!(),
        }
    }

    /// The connection's redirection is broken, where it is not closed. It takes no memory.
    pub fn lose(&mut self, place: usize)
        requires { place < length self.old }
        ensures { let c = slice_index_or self.old place fresh in
            self.new ≡ slice_set self.old place (lost_one c) }
    {
        match self.get_mut(place) {
            Some(connection) => connection.lose(),
            None => {}
        }
    }

    /// Drops the first bytes that the connection has not taken, at most so many. It takes
    /// no memory.
    pub fn advance(&mut self, place: usize, most: usize)
        requires { place < length self.old }
        ensures { let c = slice_index_or self.old place fresh in
            self.new ≡ slice_set self.old place (record c { queue = drop most c.queue }) }
    {
        match self.get_mut(place) {
            Some(connection) => connection.advance(most),
            None => {}
        }
    }

    /// Keeps the first bytes, at most so many, of those that it has not taken. It takes no memory.
    pub fn keep(&mut self, place: usize, most: usize)
        requires { place < length self.old }
        ensures { let c = slice_index_or self.old place fresh in
            self.new ≡ slice_set self.old place (record c { queue = take most c.queue }) }
    {
        match self.get_mut(place) {
            Some(connection) => connection.keep(most),
            None => {}
        }
    }

    /// One more connection.
    pub fn push(&mut self, connection: Connection) -> Result<(), NoMemory>
        ensures ok { OnOk result (self.new ≡ self.old ++ connection ∷ []) }
        ensures err { OnErr result (self.new ≡ self.old) }
    {
        if self.count as u64 >= i64::MAX as u64 {
            return Err(NoMemory);
        }
        make_room(&mut self.quits, self.count)?;
        self.places.reserve(1)?;
        self.kept.reserve(1)?;
        self.places.push_reserved(self.count);
        self.kept.push_reserved(connection);
        self.count += 1;
        Ok(())
    }

    /// The connection ends by a turn: one that quits keeps what it has not taken, and another is
    /// closed. It takes no memory.
    pub fn end(&mut self, place: usize, quits: bool)
        requires there { place < length self.old }
        requires open { is_open (slice_index_or self.old place fresh) ≡ true }
        ensures { let c = slice_index_or self.old place fresh in
            self.new ≡ slice_set self.old place (ended_one quits c) }
    {
        if quits {
            self.open_mut(place).quit();
        } else {
            self.close(place);
        }
    }

    /// The connection is closed, and gives up all else. It takes no memory.
    pub fn close(&mut self, place: usize)
        requires { place < length self.old }
        ensures { let c = slice_index_or self.old place fresh in
            self.new ≡ slice_set self.old place (gone c) }
    {
        match among(&self.places, place) {
            Some(at) => {
                let quit = self.kept.remove(at).has_quit();
                self.places.remove(at);
                put(&mut self.quits, place, quit);
            }
            None => {}
        }
    }
}
