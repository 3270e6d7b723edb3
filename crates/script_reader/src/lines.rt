//! The lines of each command: the shape of all its words first, and then the words from left to right.
ghost use Rattle.std.specs.Prelude.{◌≡◌, ℕ, IfOk};
ghost use Rattle.std.specs.Option.{ForSome};
ghost use Rattle.graph_store.specs.Making.{IsVertexCount};
ghost use Rattle.script_reader.specs.Scan.{words_left};
ghost use Rattle.script_reader.specs.Answer.{MeaningIs, IsOne, AreTwo, AreThree, IsRequired, IsAtEnd, IsListAnswer, IsSinceAnswer, bytes_of};
ghost use Rattle.script_reader.specs.Meaning.{vertex_count, vertices_line, grow_line, star_line, edge_line, cut_line, one_vertex, two_vertices, row_line, ecc_line, through_line, stats_line, report_line, age_line, cert_line, block_line, ask_line, since_word, since_at, end_line, line_with};
ghost use Rattle.script_reader.specs.Edges.{vertices_at};

use crate::commands::is_since;
use crate::groups::{first_misfit, set_groups};
use crate::items::{number_at, vertex_at, weight_at};
use crate::scan::{Word, Words};
use crate::{Command, Context, Line, LineError, VertexList, code, refused};
use apsp_model::MOST_VERTICES;
use graph_store::Star;
use std::alloc::Global;

/// The line of a command that can stand here, whose words behind it are left.
pub fn line_with(
    alloc: Global,
    command: Command,
    context: &Context,
    words: Words<'_>,
) -> Result<Line, LineError>
    requires place { words.place ≡ 2 }
    requires count { command ≡ Command.Star → IsVertexCount context.now.vertices }
    ensures { MeaningIs (line_with command context.now (words_left words.entry)) result }
{
    let n = context.vertices;
    match command {
        Command::Vertices => vertices_line(words),
        Command::Star => star_line(alloc, n, words),
        Command::Edge => edge_line(n, words),
        Command::Cut => cut_line(n, words),
        Command::Dist => {
            let (x, y) = two_vertices(n, words)?;
            Ok(Line::Dist { x, y })
        }
        Command::Path => {
            let (x, y) = two_vertices(n, words)?;
            Ok(Line::Path { x, y })
        }
        Command::Row => row_line(n, words),
        Command::Stats => stats_line(words),
        Command::Age => age_line(alloc, n, words),
        Command::Cert => cert_line(words),
        Command::Block => block_line(words),
        Command::Ask => ask_line(n, context.updates, words),
        Command::End => end_line(words),
        Command::Grow => grow_line(n, words),
        Command::Ecc => ecc_line(n, words),
        Command::Report => report_line(words),
        Command::Through => through_line(n, words),
    }
}

fn vertices_line(words: Words<'_>) -> Result<Line, LineError>
    requires { words.place ≡ 2 }
    ensures { MeaningIs (vertices_line (words_left words.entry)) result }
{
    let n = vertex_count(words)?;
    Ok(Line::Vertices(n))
}

/// Behind so many vertices.
fn grow_line(n: u32, words: Words<'_>) -> Result<Line, LineError>
    requires { words.place ≡ 2 }
    ensures { MeaningIs (grow_line n (words_left words.entry)) result }
{
    let count = vertex_count(words)?;
    if count <= n {
        return Err(refused(code::NOT_MORE, words.place));
    }
    Ok(Line::Grow(count))
}

/// The number of vertices that the word alone is.
fn vertex_count(words: Words<'_>) -> Result<u32, LineError>
    requires { words.place ≡ 2 }
    ensures { MeaningIs (vertex_count (words_left words.entry)) result }
{
    let word = one(words)?;
    let count = number_at(word.place, word.bytes)?;
    if count < 1 || count > u64::from(MOST_VERTICES) {
        return Err(refused(code::VERTEX, word.place));
    }
    Ok(count as u32)
}

fn star_line(alloc: Global, n: u32, mut words: Words<'_>) -> Result<Line, LineError>
    requires place { words.place ≡ 2 }
    requires count { IsVertexCount n }
    ensures { MeaningIs (star_line n (words_left words.entry)) result }
{
    let vertex = required(&mut words)?;
    if let Some(place) = first_misfit(words) {
        return Err(refused(code::SHAPE, place));
    }
    let v = vertex_at(n, vertex)?;
    let mut star = Star::new(alloc, n, v).map_err(|_| LineError::Memory)?;
    set_groups(&mut star, words)?;
    Ok(Line::Star(star))
}

fn edge_line(n: u32, words: Words<'_>) -> Result<Line, LineError>
    requires { words.place ≡ 2 }
    ensures { MeaningIs (edge_line n (words_left words.entry)) result }
{
    let (from, to, weight) = three(words)?;
    let u = vertex_at(n, from)?;
    let v = vertex_at(n, to)?;
    if u == v {
        return Err(refused(code::SELF_EDGE, to.place));
    }
    let w = weight_at(weight)?;
    Ok(Line::Edge { u, v, w })
}

fn cut_line(n: u32, words: Words<'_>) -> Result<Line, LineError>
    requires { words.place ≡ 2 }
    ensures { MeaningIs (cut_line n (words_left words.entry)) result }
{
    let (u, v) = two_vertices(n, words)?;
    if u == v {
        return Err(refused(code::SELF_EDGE, words.place + 1));
    }
    Ok(Line::Cut { u, v })
}

fn two_vertices(n: u32, words: Words<'_>) -> Result<(u32, u32), LineError>
    requires { words.place ≡ 2 }
    ensures { MeaningIs (two_vertices n (words_left words.entry)) result }
{
    let (first, second) = two(words)?;
    let x = vertex_at(n, first)?;
    let y = vertex_at(n, second)?;
    Ok((x, y))
}

fn row_line(n: u32, words: Words<'_>) -> Result<Line, LineError>
    requires { words.place ≡ 2 }
    ensures { MeaningIs (row_line n (words_left words.entry)) result }
{
    let x = one_vertex(n, words)?;
    Ok(Line::Row { x })
}

fn ecc_line(n: u32, words: Words<'_>) -> Result<Line, LineError>
    requires { words.place ≡ 2 }
    ensures { MeaningIs (ecc_line n (words_left words.entry)) result }
{
    let x = one_vertex(n, words)?;
    Ok(Line::Ecc { x })
}

fn through_line(n: u32, words: Words<'_>) -> Result<Line, LineError>
    requires { words.place ≡ 2 }
    ensures { MeaningIs (through_line n (words_left words.entry)) result }
{
    let v = one_vertex(n, words)?;
    Ok(Line::Through { v })
}

fn one_vertex(n: u32, words: Words<'_>) -> Result<u32, LineError>
    requires { words.place ≡ 2 }
    ensures { MeaningIs (one_vertex n (words_left words.entry)) result }
{
    let word = one(words)?;
    vertex_at(n, word)
}

fn stats_line(words: Words<'_>) -> Result<Line, LineError>
    requires { words.place ≡ 2 }
    ensures { MeaningIs (stats_line (words_left words.entry)) result }
{
    at_end(words)?;
    Ok(Line::Stats)
}

fn report_line(words: Words<'_>) -> Result<Line, LineError>
    requires { words.place ≡ 2 }
    ensures { MeaningIs (report_line (words_left words.entry)) result }
{
    at_end(words)?;
    Ok(Line::Report)
}

fn cert_line(words: Words<'_>) -> Result<Line, LineError>
    requires { words.place ≡ 2 }
    ensures { MeaningIs (cert_line (words_left words.entry)) result }
{
    at_end(words)?;
    Ok(Line::Cert)
}

fn age_line(alloc: Global, n: u32, words: Words<'_>) -> Result<Line, LineError>
    requires { words.place ≡ 2 }
    ensures { MeaningIs (age_line n (words_left words.entry)) result }
{
    let place = words.place;
    let items = vertices_at(alloc, n, words)?;
    if items.is_empty() {
        return Err(refused(code::SHAPE, place));
    }
    Ok(Line::Age(VertexList { items }))
}

fn block_line(words: Words<'_>) -> Result<Line, LineError>
    requires { words.place ≡ 2 }
    ensures { MeaningIs (block_line (words_left words.entry)) result }
{
    at_end(words)?;
    Ok(Line::Block)
}

fn end_line(words: Words<'_>) -> Result<Line, LineError>
    requires { words.place ≡ 2 }
    ensures { MeaningIs (end_line (words_left words.entry)) result }
{
    at_end(words)?;
    Ok(Line::End)
}

/// A question in a block that has accepted so many updates.
fn ask_line(n: u32, so_far: u32, mut words: Words<'_>) -> Result<Line, LineError>
    requires { words.place ≡ 2 }
    ensures { MeaningIs (ask_line n so_far (words_left words.entry)) result }
{
    let from = required(&mut words)?;
    let to = required(&mut words)?;
    let number = since_word(words)?;
    let x = vertex_at(n, from)?;
    let y = vertex_at(n, to)?;
    let since = since_at(so_far, number)?;
    Ok(Line::Ask { x, y, since })
}

/// The word of the number behind `since`, where that stands.
fn since_word(mut words: Words<'_>) -> Result<Option<Word<'_>>, LineError>
    requires { words.place ≡ 4 }
    ensures { IsSinceAnswer (since_word (words_left words.entry)) result }
{
    let Some(word) = words.next() else {
        return Ok(None);
    };
    if !is_since(word.bytes) {
        return Err(refused(code::SHAPE, word.place));
    }
    let number = one(words)?;
    Ok(Some(number))
}

/// How many updates a question asks for, where its block has so many so far: none where no word says.
fn since_at(so_far: u32, word: Option<Word<'_>>) -> Result<u32, LineError>
    requires { ForSome word (λ w. w.place ≡ 5) }
    ensures { MeaningIs (since_at so_far (bytes_of word.entry)) result }
{
    let Some(word) = word else {
        return Ok(0);
    };
    let number = number_at(word.place, word.bytes)?;
    if number > u64::from(so_far) {
        return Err(refused(code::SINCE, word.place));
    }
    Ok(number as u32)
}

/// The vertices that the words name.
fn vertices_at(alloc: Global, n: u32, words: Words<'_>) -> Result<Vec<u32>, LineError>
    ensures { IsListAnswer (vertices_at n words.entry.place (words_left words.entry)) result }
{
    let mut items = Vec::new(alloc);
    for word in words {
        let vertex = vertex_at(n, word)?;
        items.push(vertex).map_err(|_| LineError::Memory)?;
    }
    Ok(items)
}

/// The word alone that is left.
fn one(mut words: Words<'_>) -> Result<Word<'_>, LineError>
    ensures { IsOne words.entry result }
{
    let first = required(&mut words)?;
    at_end(words)?;
    Ok(first)
}

/// The two words that are left.
fn two(mut words: Words<'_>) -> Result<(Word<'_>, Word<'_>), LineError>
    ensures { AreTwo words.entry result }
{
    let first = required(&mut words)?;
    let second = required(&mut words)?;
    at_end(words)?;
    Ok((first, second))
}

/// The three words that are left.
fn three(mut words: Words<'_>) -> Result<(Word<'_>, Word<'_>, Word<'_>), LineError>
    ensures { AreThree words.entry result }
{
    let first = required(&mut words)?;
    let second = required(&mut words)?;
    let third = required(&mut words)?;
    at_end(words)?;
    Ok((first, second, third))
}

/// The next word, which has to stand.
fn required<'a>(words: &mut Words<'a>) -> Result<Word<'a>, LineError>
    ensures { IsRequired words.old result words.new }
{
    let place = words.place;
    match words.next() {
        Some(word) => Ok(word),
        None => Err(refused(code::SHAPE, place)),
    }
}

/// No further word may stand.
fn at_end(mut words: Words<'_>) -> Result<(), LineError>
    ensures { IsAtEnd words.entry result }
{
    match words.next() {
        Some(word) => Err(refused(code::SHAPE, word.place)),
        None => Ok(()),
    }
}
