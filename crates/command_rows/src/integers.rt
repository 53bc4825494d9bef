//! The integers that values spell, and their sums.
ghost use Rattle.std.specs.Prelude.{◌≡◌, IfOk, option_map};
ghost use Rattle.std.specs.Fmt.{signed_decimal};
ghost use Rattle.command_words.specs.Effect.{number_in};
ghost use Rattle.command_rows.specs.Additions.{IsAddition};

use command_words::read_integer;
use itoa::Buffer;
use resp_value::{NoMemory, Octets};
use std::alloc::Global;

/// What INCRBY and HINCRBY find: a sum, a value that spells no integer, or a sum past 64 bits.
#[derive(Clone, Copy, Debug, PartialEq, Eq)]
pub enum Addition {
    Sum(i64),
    NoInteger,
    Overflow,
}

/// The number in shortest decimal.
pub fn decimal(alloc: Global, number: &i64) -> Result<Octets, NoMemory>
    ensures { IfOk result (λ o. o ≡ signed_decimal number.now) }
{
    let mut digits = Buffer::new();
    Octets::from_slice(alloc, digits.format(*number).as_bytes())
}

/// The sum of the integer that the value spells and this one; a missing value is 0.
pub fn add(value: Option<&Octets>, number: &i64) -> Addition
    ensures { IsAddition (number_in (option_map (λ o. o.now) value.entry)) number.now result }
{
    let had = match value {
        None => 0,
        Some(bytes) => match read_integer(bytes.as_slice()) {
            None => return Addition::NoInteger,
            Some(had) => had,
        },
    };
    match had.checked_add(*number) {
        None => Addition::Overflow,
        Some(sum) => Addition::Sum(sum),
    }
}
