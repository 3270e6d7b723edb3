//! Numbers as words: `0`, or digits of which the first is not 0.
#![tactic(auto)]

ghost use Rattle.std.specs.Prelude.{◌≡◌, ◌≤◌};
ghost use Rattle.std.specs.List.{list_all};
ghost use Rattle.std.specs.Str.Parse.{digits_value};
ghost use Rattle.numerals.specs.Numbers.{is_digit, is_number, number_of, AreFewDigits};

#[cfg(test)]
mod tests;

/// So many digits that each number of no more fits 64 bits.
pub const MOST_U64_DIGITS: usize = 19;

/// The number that a word of at most `most` digits is: `0`, or digits of which the first is not 0.
/// Every other word is no number, as the empty one or one with a sign. Reads the word at most twice,
/// and not at all where it has more than `most` bytes. Takes no memory.
pub fn number_of(word: &[u8], most: usize) -> Option<u64>
    requires { most ≤ MOST_U64_DIGITS }
    ensures { result ≡ number_of most word.now }
{
    if is_number(word, most) {
        Some(value_of(word))
    } else {
        None
    }
}

fn is_number(word: &[u8], most: usize) -> bool
    ensures { result ≡ is_number most word.now }
{
    match word {
        [] => false,
        [first, ..] => {
            word.len() <= most && (word.len() == 1 || *first != b'0') && are_digits(word)
        }
    }
}

fn are_digits(word: &[u8]) -> bool
    ensures { result ≡ list_all is_digit word.now }
{
    word.iter().all(|b| b.is_ascii_digit())
}

fn value_of(digits: &[u8]) -> u64
    requires { AreFewDigits digits.now }
    ensures { result ≡ digits_value 10 digits.now }
{
    let mut value = 0;
    for b in digits {
        value = value * 10 + u64::from(*b - b'0');
    }
    value
}
