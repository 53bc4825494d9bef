//! Names of commands and options, which are read without regard to the case of ASCII letters.
ghost use Rattle.std.specs.Prelude.{◌≡◌};
ghost use Rattle.std.specs.Bool.{OnTrue};
ghost use Rattle.std.specs.Str.{bytes_eq, str_to_ascii_lowercase};

use resp_value::Octets;

pub(crate) fn is_named(word: &Octets, name: &[u8]) -> bool
    ensures test { result
        ≡ bytes_eq (str_to_ascii_lowercase word.now) (str_to_ascii_lowercase name.now) }
    ensures same { OnTrue result
        (str_to_ascii_lowercase word.now ≡ str_to_ascii_lowercase name.now) }
{
    word.as_slice().eq_ignore_ascii_case(name)
}
