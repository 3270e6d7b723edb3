//! The words of a line, from left to right, with their numbers.
ghost use Rattle.std.specs.Prelude.{◌≡◌, ℕ, ◌+◌, ◌^◌, ◌<◌, ◌≤◌, length};
ghost use Rattle.std.specs.List.{prefix_len, position_or_len};
ghost use Rattle.script_reader.specs.Words.{is_separator, behind_separators};

/// A word, and its number in the line, counted from 1.
#[derive(Clone, Copy, Debug)]
pub struct Word<'a> {
    pub bytes: &'a [u8],
    pub place: u32,
}

/// The words that a line has left, which the iterator borrows.
#[derive(Clone, Copy, Debug)]
pub struct Words<'a> {
    pub rest: &'a [u8],
    /// The number of the next word.
    pub place: u32,
    ghost numbered: { place + length rest.now < 2 ^ 32 },
}

impl<'a> Iterator for Words<'a> {
    type Item = Word<'a>;

    ghost use Rattle.std.specs.Prelude.{length};
    ghost use Rattle.std.specs.Iterator.{at_most};
    ghost use Rattle.script_reader.specs.Scan.{GivesWord};

    ghost next_gives = { GivesWord };

    ghost remaining = { λ s. at_most (length s.rest.now) };

    fn next(&mut self) -> Option<Word<'a>> {
        let words = behind_separators(self.rest);
        let (bytes, rest) = words.split_at(word_len(words));
        if bytes.is_empty() {
            return None;
        }
        let place = self.place;
        *self = Words {
            rest,
            place: place + 1,
        };
        Some(Word { bytes, place })
    }
}

fn is_separator(b: u8) -> bool
    ensures { result ≡ is_separator b }
{
    matches!(b, b'\t' | b'\r' | b' ')
}

/// What stands behind the separators that the bytes begin with.
fn behind_separators(bytes: &[u8]) -> &[u8]
    ensures { result.now ≡ behind_separators bytes.now }
{
    let count = separators_len(bytes);
    &bytes[count..]
}

/// How many separators the bytes begin with.
fn separators_len(bytes: &[u8]) -> usize
    ensures len { result ≡ prefix_len is_separator bytes.now }
    ensures within { result ≤ length bytes.now }
{
    bytes.iter().take_while(|b| is_separator(**b)).count()
}

/// How many bytes stand before the first separator.
fn word_len(bytes: &[u8]) -> usize
    ensures len { result ≡ position_or_len is_separator bytes.now }
    ensures within { result ≤ length bytes.now }
{
    bytes.iter().take_while(|b| !is_separator(**b)).count()
}
