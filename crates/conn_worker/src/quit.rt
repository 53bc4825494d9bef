//! The request behind which a connection's are not read.
ghost use Rattle.std.specs.Prelude.{◌≡◌, ◌∷◌, []};
ghost use Rattle.serial_model.specs.History.{is_quit};

use resp_value::{Octets, Words};

// The words of QUIT are its name alone.
fn is_quit_alone(name: &Octets) -> bool
    ensures { result ≡ is_quit (name.now ∷ []) }
{
    name.as_slice().eq_ignore_ascii_case(b"quit")
}

/// Whether the words read as QUIT.
pub fn is_quit(words: &Words) -> bool
    ensures { result ≡ is_quit words.now }
{
    match words.as_slice() {
        [name] => is_quit_alone(name),
        _ => false,
    }
}
