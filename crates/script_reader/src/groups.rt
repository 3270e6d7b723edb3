//! The groups of a star's items: their shape, and their meaning.
ghost use Rattle.std.specs.Prelude.{◌≡◌, []};
ghost use Rattle.script_reader.specs.Scan.{words_left, is_misfit_after};
ghost use Rattle.script_reader.specs.Answer.{IsSetAnswer};
ghost use Rattle.script_reader.specs.Edges.{first_misfit, star_with_groups};

use crate::commands::{group_of, is_in, is_out};
use crate::items::{has_one_colon, set_item};
use crate::scan::Words;
use crate::{Group, LineError};
use graph_store::Star;

/// The number of the first word that cannot stand behind the vertex of a star.
pub fn first_misfit(words: Words<'_>) -> Option<u32>
    ensures { result ≡ first_misfit [] words.entry.place (words_left words.entry) }
{
    let mut has_out = false;
    let mut has_in = false;
    for word in words {
        if is_misfit(has_out, has_in, word.bytes) {
            return Some(word.place);
        }
        has_out |= is_out(word.bytes);
        has_in |= is_in(word.bytes);
    }
    None
}

/// Whether a word cannot stand where the words `out` and `in` stood before it, or did not.
fn is_misfit(has_out: bool, has_in: bool, word: &[u8]) -> bool
    ensures { result ≡ is_misfit_after has_out has_in word.now }
{
    match group_of(word) {
        Some(Group::Out) => has_out,
        Some(Group::In) => has_in,
        None => !(has_out || has_in) || !has_one_colon(word),
    }
}

/// Adds the items of the groups to the star.
pub fn set_groups(star: &mut Star, words: Words<'_>) -> Result<(), LineError>
    ensures { IsSetAnswer
        (star_with_groups star.old Group.Out words.entry.place (words_left words.entry)) result star.new }
{
    let mut group = Group::Out;
    for word in words {
        match group_of(word.bytes) {
            Some(next) => group = next,
            None => set_item(star, group, word)?,
        }
    }
    Ok(())
}
