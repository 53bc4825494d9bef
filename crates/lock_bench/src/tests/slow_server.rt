//! What turns post, by tables that are lists: the keys that are remembered in order of age, the
//! prefixes that are registered in byte order, and the deadlines beside what is stored. Each look
//! goes through all of a list.
use resp_value::{NoMemory, Octets, Words};
use serial_model::{Entry, Post, Posted};
use std::alloc::Global;
use std::cmp::Ordering;

/// What stands for a deadline where a key has none.
const NEVER: u64 = u64::MAX;

/// How long a push of a key of ten bytes or more is, beside the key, and how long that of a flush.
const PUSH: u64 = 32;

const FLUSH: u64 = 24;

#[derive(Clone, Copy)]
enum Sent {
    Reply,
    Push(u64),
    End,
}

#[derive(Clone, Copy)]
struct Peer {
    id: u64,
    is_on_three: bool,
    tracks: bool,
    is_broadcast: bool,
}

/// A prefix that a connection registered.
#[derive(Drop)]
struct Registration {
    prefix: Octets,
    id: u64,
}

#[derive(Drop)]
struct Row {
    key: Octets,
    holders: Vec<u64>,
}

#[derive(Drop)]
struct Stored {
    key: Octets,
    deadline: u64,
}

fn is(word: &Octets, text: &[u8]) -> bool {
    word.as_slice() == text
}

fn number_of(word: &Octets) -> u64 {
    let mut number = 0u64;
    for byte in word.as_slice() {
        let digit = byte.saturating_sub(b'0') as u64;
        number = number.saturating_mul(10).saturating_add(digit);
    }
    number
}

fn put_pushes(peers: &[Peer], row: &Row, sent: &mut Vec<(u64, Sent)>) -> Result<(), NoMemory> {
    let length = (row.key.as_slice().len() as u64).saturating_add(PUSH);
    for id in row.holders.iter() {
        if peers.iter().any(|peer| peer.id == *id && peer.is_on_three) {
            sent.push((*id, Sent::Push(length)))?;
        }
    }
    Ok(())
}

fn do_overlap(a: &[u8], b: &[u8]) -> bool {
    a.starts_with(b) || b.starts_with(a)
}

// Whether it stands before the prefix of a connection: in byte order, and then by the id.
fn stands_before(held: &Registration, prefix: &[u8], id: u64) -> bool {
    match held.prefix.as_slice().cmp(prefix) {
        Ordering::Less => true,
        Ordering::Equal => held.id < id,
        Ordering::Greater => false,
    }
}

// How long the push is of those keys that start with the prefix, if there are some.
fn size_under(prefix: &[u8], keys: &[Octets]) -> Option<u64> {
    let mut count = 0u64;
    let mut size = 0u64;
    for key in keys {
        if key.as_slice().starts_with(prefix) {
            count = count.saturating_add(1);
            let length = key.as_slice().len() as u64;
            size = size.saturating_add(length).saturating_add(7);
        }
    }
    match count {
        0 => None,
        1..=9 => Some(size.saturating_add(PUSH).saturating_sub(7)),
        _ => Some(size.saturating_add(PUSH).saturating_sub(6)),
    }
}

// Whether it comes before the one that is the first so far.
fn comes_before(stored: &Stored, first: Option<&Stored>) -> bool {
    match first {
        None => true,
        Some(first) => {
            stored.deadline < first.deadline
                || (stored.deadline == first.deadline
                    && stored.key.as_slice().cmp(first.key.as_slice()) == Ordering::Less)
        }
    }
}

fn first_due(stored: &[Stored], moment: u64) -> Result<Option<Octets>, NoMemory> {
    let mut first: Option<&Stored> = None;
    for held in stored {
        if held.deadline < moment && comes_before(held, first) {
            first = Some(held);
        }
    }
    match first {
        None => Ok(None),
        Some(held) => Ok(Some(held.key.copy()?)),
    }
}

/// A server by lists. It knows the commands of the schedule that is played on it.
#[derive(Drop)]
pub struct SlowServer {
    alloc: Global,
    table_max: usize,
    peers: Vec<Peer>,
    rows: Vec<Row>,
    registered: Vec<Registration>,
    changed: Vec<Octets>,
    stored: Vec<Stored>,
    sent: Vec<(u64, Sent)>,
}

impl SlowServer {
    pub fn new(alloc: Global, table_max: usize) -> SlowServer {
        SlowServer {
            alloc,
            table_max,
            peers: Vec::new(alloc),
            rows: Vec::new(alloc),
            registered: Vec::new(alloc),
            changed: Vec::new(alloc),
            stored: Vec::new(alloc),
            sent: Vec::new(alloc),
        }
    }

    /// Whether these are the posts of the last entry: to the same connections in the same order,
    /// and each push as long.
    pub fn is_posted(&self, posts: &[Post]) -> bool {
        let mut wanted = self.sent.iter();
        for post in posts {
            let is_same = match (wanted.next(), post.what) {
                (Some((id, Sent::Reply)), Posted::Message { .. }) => *id == post.id,
                (Some((id, Sent::Push(size))), Posted::Message { length }) => {
                    *id == post.id && *size == length
                }
                (Some((id, Sent::End)), Posted::End) => *id == post.id,
                _ => false,
            };
            if !is_same {
                return false;
            }
        }
        wanted.next().is_none()
    }

    /// How many pushes the last entry sent.
    pub fn pushes(&self) -> u64 {
        let pushes = self
            .sent
            .iter()
            .filter(|(_, what)| matches!(what, Sent::Push(_)));
        pushes.count() as u64
    }

    /// Plays the next entry of a history.
    pub fn play(&mut self, entry: &Entry) -> Result<(), NoMemory> {
        self.sent.clear();
        match entry {
            Entry::Admit { id } => {
                self.peers.push(Peer {
                    id: *id,
                    is_on_three: false,
                    tracks: false,
                    is_broadcast: false,
                })?;
                Ok(())
            }
            Entry::Run { id, words, moment } => {
                self.expire(*moment)?;
                self.sent.push((*id, Sent::Reply))?;
                self.run(*id, words, *moment)?;
                self.tell_prefixes()
            }
            Entry::Tick { moment } => self.expire(*moment),
            Entry::Take { .. } => Ok(()),
            Entry::Close { id } => {
                self.sent.push((*id, Sent::End))?;
                self.let_go(*id);
                self.peers.retain(|peer| peer.id != *id);
                Ok(())
            }
        }
    }

    fn run(&mut self, id: u64, words: &Words, moment: u64) -> Result<(), NoMemory> {
        match words.as_slice() {
            [name, keys @ ..] if is(name, b"GET") || is(name, b"MGET") => self.read(id, keys),
            [name, key, _] if is(name, b"SET") => self.write(key, NEVER),
            [name, key, _, _, life] if is(name, b"SET") => {
                self.write(key, moment.saturating_add(number_of(life)))
            }
            [name, key, _, other, _] if is(name, b"MSET") => {
                self.write(key, NEVER)?;
                self.write(other, NEVER)
            }
            [name, keys @ ..] if is(name, b"DEL") => self.delete(keys),
            [name, key, life] if is(name, b"EXPIRE") => {
                let life = number_of(life).saturating_mul(1000);
                self.limit_life(key, life, moment)
            }
            [name] if is(name, b"FLUSHDB") => self.flush(),
            [name, proto] if is(name, b"HELLO") => {
                self.set_proto(id, is(proto, b"3"));
                Ok(())
            }
            [name, _, word] if is(name, b"CLIENT") => {
                self.set_tracking(id, is(word, b"ON"));
                Ok(())
            }
            [name, _, _, _, prefixes @ ..] if is(name, b"CLIENT") => self.broadcast(id, prefixes),
            _ => Ok(()),
        }
    }

    fn set_proto(&mut self, id: u64, is_three: bool) {
        for peer in self.peers.iter_mut() {
            if peer.id == id {
                peer.is_on_three = is_three;
            }
        }
    }

    // Whether the connection tracks in the other way.
    fn is_other(&self, id: u64, is_broadcast: bool) -> bool {
        self.peers.iter().any(|peer| peer.id == id
            && peer.tracks
            && peer.is_broadcast != is_broadcast)
    }

    fn put_tracking(&mut self, id: u64, tracks: bool, is_broadcast: bool) {
        for peer in self.peers.iter_mut() {
            if peer.id == id {
                peer.tracks = tracks;
                peer.is_broadcast = is_broadcast;
            }
        }
    }

    fn set_tracking(&mut self, id: u64, tracks: bool) {
        if !tracks {
            self.put_tracking(id, false, false);
            self.let_go(id);
        } else if !self.is_other(id, false) {
            self.put_tracking(id, true, false);
        }
    }

    // Whether one of the prefixes overlaps one that the connection registered.
    fn is_overlapped(&self, id: u64, prefix: &[u8]) -> bool {
        self.registered.iter().any(|held| held.id == id
            && do_overlap(held.prefix.as_slice(), prefix))
    }

    fn register(&mut self, id: u64, prefix: &[u8]) -> Result<(), NoMemory> {
        let mut place = 0usize;
        for held in self.registered.iter() {
            if held.id == id && held.prefix.as_slice() == prefix {
                return Ok(());
            }
            if stands_before(held, prefix, id) {
                place = place.saturating_add(1);
            }
        }
        let prefix = Octets::from_slice(self.alloc, prefix)?;
        let place = place.min(self.registered.len());
        self.registered.insert(place, Registration { prefix, id })?;
        Ok(())
    }

    // BCAST with these options: none for the empty prefix, or the word PREFIX before each prefix.
    fn broadcast(&mut self, id: u64, options: &[Octets]) -> Result<(), NoMemory> {
        let mut is_refused = self.is_other(id, true);
        for (place, word) in options.iter().enumerate() {
            if place % 2 == 1 && self.is_overlapped(id, word.as_slice()) {
                is_refused = true;
            }
        }
        if is_refused {
            return Ok(());
        }
        self.put_tracking(id, true, true);
        if options.is_empty() {
            return self.register(id, b"");
        }
        for (place, word) in options.iter().enumerate() {
            if place % 2 == 1 {
                self.register(id, word.as_slice())?;
            }
        }
        Ok(())
    }

    // The connection holds no key any more, and has registered no prefix.
    fn let_go(&mut self, id: u64) {
        for row in self.rows.iter_mut() {
            row.holders.retain(|holder| *holder != id);
        }
        self.rows.retain(|row| !row.holders.is_empty());
        self.registered.retain(|held| held.id != id);
    }

    fn remember(&mut self, id: u64, key: &Octets) -> Result<(), NoMemory> {
        for row in self.rows.iter_mut() {
            if row.key.as_slice() == key.as_slice() {
                if !row.holders.contains(&id) {
                    row.holders.push(id)?;
                    row.holders.sort()?;
                }
                return Ok(());
            }
        }
        let mut holders = Vec::new(self.alloc);
        holders.push(id)?;
        let key = key.copy()?;
        self.rows.push(Row { key, holders })?;
        Ok(())
    }

    fn read(&mut self, id: u64, keys: &[Octets]) -> Result<(), NoMemory> {
        let remembers = self
            .peers
            .iter()
            .any(|peer| peer.id == id && peer.tracks && !peer.is_broadcast);
        if !remembers {
            return Ok(());
        }
        for key in keys {
            self.remember(id, key)?;
        }
        self.drop_oldest()
    }

    // The holders of the oldest keys past the limit are told.
    fn drop_oldest(&mut self) -> Result<(), NoMemory> {
        let over = self.rows.len().saturating_sub(self.table_max);
        for row in self.rows.iter().take(over) {
            put_pushes(&self.peers, row, &mut self.sent)?;
        }
        self.rows.reverse();
        self.rows.truncate(self.table_max);
        self.rows.reverse();
        Ok(())
    }

    // Those who registered prefixes of the keys that changed are told, by one push a prefix.
    fn tell_prefixes(&mut self) -> Result<(), NoMemory> {
        for held in self.registered.iter() {
            let size = size_under(held.prefix.as_slice(), self.changed.as_slice());
            let is_pushed = self
                .peers
                .iter()
                .any(|peer| peer.id == held.id && peer.is_on_three);
            if let Some(size) = size {
                if is_pushed {
                    self.sent.push((held.id, Sent::Push(size)))?;
                }
            }
        }
        self.changed.clear();
        Ok(())
    }

    // The holders of the key are told, and hold it no more.
    fn tell(&mut self, key: &[u8]) -> Result<(), NoMemory> {
        for row in self.rows.iter() {
            if row.key.as_slice() == key {
                put_pushes(&self.peers, row, &mut self.sent)?;
            }
        }
        self.rows.retain(|row| row.key.as_slice() != key);
        if !self.changed.iter().any(|other| other.as_slice() == key) {
            self.changed.push(Octets::from_slice(self.alloc, key)?)?;
        }
        Ok(())
    }

    fn remove(&mut self, key: &[u8]) {
        self.stored.retain(|held| held.key.as_slice() != key);
    }

    fn is_stored(&self, key: &[u8]) -> bool {
        self.stored.iter().any(|held| held.key.as_slice() == key)
    }

    fn write(&mut self, key: &Octets, deadline: u64) -> Result<(), NoMemory> {
        self.tell(key.as_slice())?;
        self.remove(key.as_slice());
        let key = key.copy()?;
        self.stored.push(Stored { key, deadline })?;
        Ok(())
    }

    fn delete(&mut self, keys: &[Octets]) -> Result<(), NoMemory> {
        for key in keys {
            if self.is_stored(key.as_slice()) {
                self.tell(key.as_slice())?;
                self.remove(key.as_slice());
            }
        }
        Ok(())
    }

    fn limit_life(&mut self, key: &Octets, life: u64, moment: u64) -> Result<(), NoMemory> {
        if !self.is_stored(key.as_slice()) {
            return Ok(());
        }
        if life > 0 {
            return self.write(key, moment.saturating_add(life));
        }
        self.tell(key.as_slice())?;
        self.remove(key.as_slice());
        Ok(())
    }

    fn flush(&mut self) -> Result<(), NoMemory> {
        for peer in self.peers.iter() {
            if peer.tracks && peer.is_on_three {
                self.sent.push((peer.id, Sent::Push(FLUSH)))?;
            }
        }
        self.rows.clear();
        self.stored.clear();
        Ok(())
    }

    // The keys that are due leave, the earliest first, and those whom they concern are told.
    fn expire(&mut self, moment: u64) -> Result<(), NoMemory> {
        for _ in 0..self.stored.len() {
            let Some(key) = first_due(&self.stored, moment)? else {
                return self.tell_prefixes();
            };
            self.tell(key.as_slice())?;
            self.remove(key.as_slice());
        }
        self.tell_prefixes()
    }
}
