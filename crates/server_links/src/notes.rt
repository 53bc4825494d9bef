//! At which entries each connection's commands ran, which entries sent it something, and the words
//! of those commands, where they are kept.
ghost use Rattle.std.specs.Prelude.{◌≡◌, ◌+◌, ◌-◌, ◌&&◌, [], true, Some, None, OnOk, OnErr};
ghost use Rattle.std.specs.Prelude.{if◌then◌else◌, slice_get};
ghost use Rattle.std.specs.Prelude.{List, ℕ, option_map};
ghost use Rattle.server_links.specs.Notes.{IsCopy, changed, has_trail, no_trail, noted_admit};
ghost use Rattle.server_links.specs.Notes.{noted_posts, trail_of, with_run, with_sent, with_words};

use resp_value::{NoMemory, Words};
use serial_model::Post;
use std::alloc::Global;
use std::marker::Model;

/// Of one connection, in order.
#[derive(Drop)]
struct Trail {
    runs: Vec<u64>,
    sent: Vec<u64>,
    words: Vec<Words>,
    keeps_words: bool,
}

impl Model for Trail {
    ghost use Rattle.server_links.specs.Notes.{TrailState};

    ghost Value = { TrailState };

    ghost view = { λ t. record {
      runs = t.runs.items;
      sent = t.sent.items;
      words = t.words.items;
      keeps_words = t.keeps_words;
    } };
}

impl Trail {
    fn new(alloc: Global) -> Trail
        ensures { result ≡ no_trail }
    {
        Trail {
            runs: Vec::new(alloc),
            sent: Vec::new(alloc),
            words: Vec::new(alloc),
            keeps_words: false,
        }
    }

    fn note_run(&mut self, entry: u64, words: Option<Words>) -> Result<(), NoMemory>
        ensures ok { OnOk result ((ws : List (List ℕ)) → IsCopy words ws
            → self.new ≡ with_run entry ws self.old) }
        ensures err { OnErr result (self.new ≡ self.old) }
    {
        self.runs.reserve(1)?;
        if self.keeps_words {
            self.words.reserve(1)?;
            self.words.push_reserved(words.ok_or(NoMemory)?);
        }
        self.runs.push_reserved(entry);
        Ok(())
    }

    // From its first command on; where one ran already, its words are not known.
    fn keep_words(&mut self)
        ensures { self.new ≡ with_words self.old }
    {
        if self.runs.is_empty() {
            self.words.clear();
            self.keeps_words = true;
        }
    }

    fn note_sent(&mut self, entry: u64) -> Result<(), NoMemory>
        ensures ok { OnOk result (self.new ≡ with_sent entry self.old) }
        ensures err { OnErr result (self.new ≡ self.old) }
    {
        self.sent.push(entry)?;
        Ok(())
    }
}

/// A turn can't be taken back: where memory runs out behind one, no note is whole any more.
#[derive(Drop)]
pub struct Notes {
    // the connection of the id n has the n-th
    trails: Vec<Trail>,
    whole: bool,
}

impl Model for Notes {
    ghost use Rattle.server_links.specs.Notes.{NotesState};

    ghost Value = { NotesState };

    ghost view = { λ n. record { trails = n.trails.items; whole = n.whole } };
}

impl Notes {
    pub fn new(alloc: Global) -> Notes
        ensures { result ≡ record { trails = []; whole = true } }
    {
        Notes {
            trails: Vec::new(alloc),
            whole: true,
        }
    }

    /// Whether nothing that was noted was lost.
    pub fn is_whole(&self) -> bool
        ensures { result ≡ self.now.whole }
    {
        self.whole
    }

    fn place(&self, id: u64) -> Option<usize>
        ensures { result ≡ (if has_trail id self.now.trails then Some (id - 1) else None) }
    {
        if id == 0 || id > self.trails.len() as u64 {
            return None;
        }
        Some((id - 1) as usize)
    }

    /// A connection was admitted.
    pub fn admit(&mut self, alloc: Global)
        ensures { self.new.whole ≡ true → (self.old.whole ≡ true)
            × (self.new.trails ≡ noted_admit self.old.trails) }
    {
        if self.trails.push(Trail::new(alloc)).is_err() {
            self.whole = false;
        }
    }

    /// Whether the words of its commands are kept.
    pub fn keeps_words(&self, id: u64) -> bool
        ensures { result
            ≡ (has_trail id self.now.trails && (trail_of id self.now.trails).keeps_words) }
    {
        match self.place(id) {
            Some(at) => self.trails[at].keeps_words,
            None => false,
        }
    }

    /// The words of its commands are kept, if none ran so far.
    pub fn keep_words(&mut self, id: u64)
        ensures whole { self.new.whole ≡ self.old.whole }
        ensures trails { self.new.trails ≡ changed with_words id self.old.trails }
    {
        if let Some(at) = self.place(id) {
            self.trails[at].keep_words();
        }
    }

    /// A command of a connection ran. Its words, where they were copied, may be kept.
    pub fn run(&mut self, id: u64, entry: u64, words: Option<Words>)
        ensures { self.new.whole ≡ true → (self.old.whole ≡ true)
            × ((ws : List (List ℕ)) → IsCopy words ws
            → self.new.trails ≡ changed (with_run entry ws) id self.old.trails) }
    {
        let Some(at) = self.place(id) else {
            return;
        };
        if self.trails[at].note_run(entry, words).is_err() {
            self.whole = false;
        }
    }

    fn sent(&mut self, id: u64, entry: u64)
        ensures { self.new.whole ≡ true → (self.old.whole ≡ true)
            × (self.new.trails ≡ changed (with_sent entry) id self.old.trails) }
    {
        let Some(at) = self.place(id) else {
            return;
        };
        if self.trails[at].note_sent(entry).is_err() {
            self.whole = false;
        }
    }

    /// These were sent.
    pub fn posts(&mut self, posts: &[Post])
        ensures { self.new.whole ≡ true → (self.old.whole ≡ true)
            × (self.new.trails ≡ noted_posts posts.now self.old.trails) }
    {
        for post in posts {
            self.sent(post.id, post.entry);
        }
    }

    /// At which entry the command of this number, counted from 0, of the connection of the id
    /// `at` + 1 ran.
    pub fn run_entry(&self, at: usize, number: usize) -> Option<u64>
        ensures { result ≡ slice_get (trail_of (at + 1) self.now.trails).runs number }
    {
        self.trails.get(at)?.runs.get(number).copied()
    }

    /// The words of the command of this number, counted from 0, of the connection of the id
    /// `at` + 1.
    pub fn run_words(&self, at: usize, number: usize) -> Option<&Words>
        ensures { option_map (λ w. w.now) result
            ≡ slice_get (trail_of (at + 1) self.now.trails).words number }
    {
        self.trails.get(at)?.words.get(number)
    }

    /// Which entry sent what was sent to it under this number, counted from 0.
    pub fn sent_entry(&self, at: usize, number: usize) -> Option<u64>
        ensures { result ≡ slice_get (trail_of (at + 1) self.now.trails).sent number }
    {
        self.trails.get(at)?.sent.get(number).copied()
    }
}
