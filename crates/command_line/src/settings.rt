//! What the words of each command settle.
ghost use Rattle.std.specs.Prelude.{◌≡◌, List, ℕ, IfOk, string_bytes};

use resp_value::{NoMemory, Proto};
use std::alloc::Global;
use std::marker::Model;

/// A text, which contracts see as its bytes.
#[derive(Debug, Drop)]
pub struct Text {
    string: String,
}

impl Model for Text {
    ghost use Rattle.std.specs.Prelude.{ℕ, List, string_bytes};

    ghost Value = { List ℕ };

    ghost view = { λ t. string_bytes t.string };
}

impl Text {
    pub fn copy_of(alloc: Global, text: &str) -> Result<Text, NoMemory>
        ensures { IfOk result (λ t. t ≡ text.now) }
    {
        let mut string = String::new(alloc);
        string.push_str(text)?;
        Ok(Text { string })
    }

    pub fn as_str(&self) -> &str
        ensures { result.now ≡ self.now }
    {
        self.string.as_str()
    }
}

/// The limits of a server's state, which `world` and `serve` take.
#[derive(Clone, Copy, Debug, PartialEq, Eq)]
pub struct LimitSettings {
    pub table_max: u64,
    pub out_max: u64,
    pub history_max: u64,
}

#[derive(Clone, Copy, Debug, PartialEq, Eq)]
pub struct StormSettings {
    pub number: u64,
    pub steps: u64,
}

#[derive(Clone, Copy, Debug, PartialEq, Eq)]
pub struct ServeSettings {
    pub port: u16,
    pub workers: u64,
    pub connections: u64,
    pub limits: LimitSettings,
}

/// Where a client connects.
#[derive(Debug, Drop)]
pub struct Connection {
    pub host: Text,
    pub port: u16,
}

/// How a client asks the server to track what it reads.
#[derive(Clone, Copy, Debug, PartialEq, Eq)]
pub enum Caching {
    Default,
    OptIn,
    OptOut,
    Bcast,
}

#[derive(Debug, Drop)]
pub struct ScriptSettings {
    pub connect: Connection,
    pub resp: Proto,
    pub caching: Caching,
    /// The prefix of the keys to hear of, where `caching` is `Bcast`. None is every key.
    pub prefix: Option<Text>,
    pub capacity: u64,
    pub noloop: bool,
    /// Whether invalidations come on a link of their own.
    pub redirect: bool,
}

/// What the words of a command line ask for.
#[derive(Debug, Drop)]
pub enum Asked {
    World(LimitSettings),
    Storm(StormSettings),
    Serve(ServeSettings),
    Script(ScriptSettings),
}
