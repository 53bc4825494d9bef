//! What a web page makes a browser send is told from what a Redis client sends.
ghost use Rattle.std.specs.Prelude.{◌≤◌};

/// What a line begins with that a web page makes a browser send: a method of HTTP whose request may
/// have a body, and the header that every request has before its body. No command has such a name.
const STARTS: &str = "POST |PUT |PATCH |DELETE |OPTIONS |HOST:";

/// How long they are at most.
const LONGEST: usize = 8;

/// What the bytes were taken for.
#[derive(Clone, Copy, PartialEq, Eq)]
enum Stage {
    /// Lines, so far, which may be those of a web request.
    Lines,
    /// Requests of Redis: a line began with `*`.
    Requests,
    Web,
}

/// Looks at the first bytes of a link, as they come, for a web request.
///
/// A browser reaches any port of the loopback address for any page, and the body of an HTTP request
/// is lines too, which the page writes. As a server of Redis does, this takes no line for a command
/// that a web request begins with. A line that begins with `*` begins requests whose blobs may hold
/// any bytes, so nothing behind it is looked at.
#[derive(Drop)]
pub struct WebGuard {
    stage: Stage,
    // The first bytes of the line, in upper case.
    start: [u8; LONGEST],
    count: usize,
    ghost in_range: { count ≤ 8 },
}

impl WebGuard {
    /// Before the first byte.
    pub fn new() -> Self {
        WebGuard {
            stage: Stage::Lines,
            start: [0; LONGEST],
            count: 0,
        }
    }

    /// One that refuses nothing.
    pub fn open() -> Self {
        WebGuard {
            stage: Stage::Requests,
            start: [0; LONGEST],
            count: 0,
        }
    }

    /// Whether the bytes so far, these the last, have a line of a web request.
    pub fn refuses(&mut self, bytes: &[u8]) -> bool {
        for byte in bytes {
            if self.stage != Stage::Lines {
                break;
            }
            self.look_at(*byte);
        }
        self.stage == Stage::Web
    }

    fn look_at(&mut self, byte: u8) {
        if byte == b'\n' {
            self.count = 0;
        } else if byte == b'*' && self.count == 0 {
            self.stage = Stage::Requests;
        } else if self.count < LONGEST {
            self.start[self.count] = byte.to_ascii_uppercase();
            self.count += 1;
            if self.begins_web_line() {
                self.stage = Stage::Web;
            }
        }
    }

    fn begins_web_line(&self) -> bool {
        let start = &self.start[..self.count];
        STARTS.split('|').any(|web| web.as_bytes() == start)
    }
}
