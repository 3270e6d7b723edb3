//! Vertices, weights and the items of a star.
ghost use Rattle.std.specs.Prelude.{◌≡◌, ◌==◌, count_by, length, ◌<◌, ◌≤◌};
ghost use Rattle.std.specs.List.{before_first, after_first, position_or_len};
ghost use Rattle.script_reader.specs.Answer.{MeaningIs, IsSetAnswer, star_refused};
ghost use Rattle.script_reader.specs.Edges.{number_at, vertex_at, weight_at_word, is_colon, star_with_edge, star_with_item};

use crate::scan::Word;
use crate::{Group, LineError, MOST_DIGITS, code, refused};
use apsp_model::MOST_WEIGHT;
use graph_store::{Star, StarError};
use numerals::number_of;

/// The number that a word, or a part of it, is.
pub fn number_at(place: u32, bytes: &[u8]) -> Result<u64, LineError>
    ensures { MeaningIs (number_at place bytes.now) result }
{
    match number_of(bytes, MOST_DIGITS) {
        Some(number) => Ok(number),
        None => Err(refused(code::NUMBER, place)),
    }
}

/// The vertex that a word names, where n is the number of vertices.
pub fn vertex_at(n: u32, word: Word<'_>) -> Result<u32, LineError>
    ensures { MeaningIs (vertex_at n word.entry.place word.entry.bytes.now) result }
{
    let number = number_at(word.place, word.bytes)?;
    if number >= u64::from(n) {
        return Err(refused(code::VERTEX, word.place));
    }
    Ok(number as u32)
}

/// The weight that a word names.
pub fn weight_at(word: Word<'_>) -> Result<u32, LineError>
    ensures { MeaningIs (weight_at_word word.entry.place word.entry.bytes.now) result }
{
    let number = number_at(word.place, word.bytes)?;
    if number > u64::from(MOST_WEIGHT) {
        return Err(refused(code::WEIGHT, word.place));
    }
    Ok(number as u32)
}

/// Adds the edge of an item to the star. A refusal leaves the star unchanged.
pub fn set_item(star: &mut Star, group: Group, word: Word<'_>) -> Result<(), LineError>
    ensures { IsSetAnswer (star_with_item star.old group word.entry.place word.entry.bytes.now) result star.new }
{
    let (vertex, weight) = split_item(word.bytes);
    let u = number_at(word.place, vertex)?;
    let w = number_at(word.place, weight)?;
    set_edge(star, group, word.place, u, w)
}

/// What stands before the first colon, and behind it.
fn split_item(item: &[u8]) -> (&[u8], &[u8])
    ensures before { result.0.now ≡ before_first is_colon item.now }
    ensures behind { result.1.now ≡ after_first is_colon item.now }
{
    let count = before_colon_len(item);
    let (before, rest) = item.split_at(count);
    match rest {
        [] => (before, rest),
        [_, behind @ ..] => (before, behind),
    }
}

fn before_colon_len(item: &[u8]) -> usize
    ensures len { result ≡ position_or_len is_colon item.now }
    ensures within { result ≤ length item.now }
{
    item.iter().take_while(|b| **b != b':').count()
}

/// Whether there is exactly one colon.
pub fn has_one_colon(item: &[u8]) -> bool
    ensures { result ≡ (count_by is_colon item.now == 1) }
{
    item.iter().filter(|b| **b == b':').count() == 1
}

/// Adds the edge between the star's vertex and u.
fn set_edge(star: &mut Star, group: Group, place: u32, u: u64, w: u64) -> Result<(), LineError>
    ensures { IsSetAnswer (star_with_edge star.old group place u w) result star.new }
{
    let n = star.vertices();
    if u >= u64::from(n) {
        return Err(refused(code::VERTEX, place));
    }
    let set = match group {
        Group::Out => star.set_out(u as u32, w),
        Group::In => star.set_in(u as u32, w),
    };
    set.map_err(|error| star_refused(error, place))
}

/// A star's refusal of an edge, as that of the word.
fn star_refused(error: StarError, place: u32) -> LineError
    ensures { result ≡ star_refused error place }
{
    match error {
        StarError::Vertex => refused(code::VERTEX, place),
        StarError::SelfEdge => refused(code::SELF_EDGE, place),
        StarError::Repeat => refused(code::REPEAT, place),
        StarError::Weight => refused(code::WEIGHT, place),
        StarError::Memory => LineError::Memory,
    }
}
