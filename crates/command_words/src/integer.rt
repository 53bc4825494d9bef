//! Integers as words.
ghost use Rattle.std.specs.Prelude.{◌≡◌, ◌≤◌, ◌^◌, true, nat_le, if◌then◌else◌, neg_ℤ, pos};
ghost use Rattle.std.specs.Char.{is_ascii_digit};
ghost use Rattle.std.specs.List.{list_all};
ghost use Rattle.command_words.specs.Integers.{value_of, positive_of, integer_of};

fn are_digits(bytes: &[u8]) -> bool
    ensures { result ≡ list_all is_ascii_digit bytes.now }
{
    bytes.iter().all(|byte| byte.is_ascii_digit())
}

/// The number that digits spell, where it is within the limit.
fn value_within(digits: &[u8], limit: u64) -> Option<u64>
    requires digits { list_all is_ascii_digit digits.now ≡ true }
    requires limit { limit ≤ 2 ^ 63 }
    ensures { result ≡ (if nat_le (value_of 0 digits.now) limit
        then Some (value_of 0 digits.now)
        else None) }
{
    let mut number: u64 = 0;
    for digit in digits {
        // One more digit makes it greater than 2^63.
        if number > 922337203685477580 {
            return None;
        }
        number = number * 10 + u64::from(*digit - b'0');
    }
    if number <= limit { Some(number) } else { None }
}

fn positive_of(bytes: &[u8], limit: u64) -> Option<u64>
    requires { limit ≤ 2 ^ 63 }
    ensures { result ≡ positive_of limit bytes.now }
{
    match bytes {
        [first, ..] if *first >= b'1' && are_digits(bytes) => value_within(bytes, limit),
        _ => None,
    }
}

fn opposite(number: u64) -> i64
    requires { number ≤ 2 ^ 63 }
    ensures { result ≡ neg_ℤ (pos number) }
{
    if number == 0 {
        0
    } else {
        -((number - 1) as i64) - 1
    }
}

/// The number that a word spells: a minus or none, then 0 or digits that begin with 1 to 9, within
/// 64 bits with a sign; no minus before 0.
#[tactic(auto, unfolding(crate::specs::Integers::integer_of))]
pub fn read_integer(word: &[u8]) -> Option<i64>
    ensures { result ≡ integer_of word.now }
{
    match word {
        [b'-', digits @ ..] => {
            let number = positive_of(digits, 9223372036854775808)?;
            Some(opposite(number))
        }
        b"0" => Some(0),
        _ => {
            let number = positive_of(word, 9223372036854775807)?;
            Some(number as i64)
        }
    }
}
