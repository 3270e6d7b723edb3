//! The lines of a script: what each means, or why and where it is refused.
#![tactic(auto)]

ghost use Rattle.std.specs.Prelude.{◌≡◌, ◌≤◌, Bool, ℕ, IfOk};
ghost use Rattle.script_reader.specs.Scan.{words_left};
ghost use Rattle.script_reader.specs.Meaning.{line_of, line_of_words};
ghost use Rattle.script_reader.specs.Answer.{MeaningIs, FitsContext};

mod commands;
mod cutter;
mod groups;
mod items;
mod lines;
mod scan;
#[cfg(test)]
mod tests;

use apsp_model::MOST_VERTICES;
use commands::{command_of, is_comment, misplaced};
pub use cutter::{Cut, LineCutter};
use graph_store::Star;
use lines::line_with;
use scan::Words;
use std::alloc::Global;
use std::marker::Model;

/// The most bytes of a line, without its newline.
pub const MOST_LINE_BYTES: usize = 65536;

/// The most digits of a number.
pub const MOST_DIGITS: usize = 19;

/// The most updates of a block, and the most questions of one.
pub const MOST_IN_BLOCK: u32 = 65536;

/// The codes of refused lines.
pub mod code {
    /// No line `vertices` was accepted yet.
    pub const NO_VERTICES: u32 = 1;
    /// A line `vertices` was accepted already.
    pub const VERTICES_TWICE: u32 = 2;
    /// The first word is no command.
    pub const COMMAND: u32 = 3;
    /// The words do not have the form of the command.
    pub const SHAPE: u32 = 4;
    /// A word, or one side of an item, is no number where one has to stand.
    pub const NUMBER: u32 = 5;
    /// A vertex is not below the number of vertices, or that number is out of range.
    pub const VERTEX: u32 = 6;
    /// Both ends of an edge are the same.
    pub const SELF_EDGE: u32 = 7;
    /// The star lists the same edge a second time.
    pub const REPEAT: u32 = 8;
    /// A weight is out of range.
    pub const WEIGHT: u32 = 9;
    /// The line has more than `MOST_LINE_BYTES` bytes.
    pub const TOO_LONG: u32 = 10;
    /// The command is of blocks, and this mode has none.
    pub const NEEDS_LIVE: u32 = 11;
    /// The block has `MOST_IN_BLOCK` questions, or so many updates, and this were one more.
    pub const BLOCK_FULL: u32 = 12;
    /// A command that cannot stand in a block, or the end of the input in one.
    pub const OPEN_BLOCK: u32 = 13;
    /// A question asks for more updates than its block has accepted before it.
    pub const SINCE: u32 = 14;
    /// The new number of vertices is not above the present one.
    pub const NOT_MORE: u32 = 15;
    /// The command is one that this session does not serve.
    pub const NOT_SERVED: u32 = 16;
}

/// What a line's meaning depends on.
#[derive(Clone, Copy, Debug, PartialEq, Eq)]
pub struct Context {
    /// The number of vertices, and 0 before the line `vertices`.
    pub vertices: u32,
    /// Whether the mode has blocks.
    pub live: bool,
    /// Whether a block is open.
    pub inside: bool,
    /// How many updates the open block has accepted.
    pub updates: u32,
    /// How many questions the open block has accepted.
    pub asks: u32,
    /// Whether the session does not serve `age`.
    pub no_age: bool,
    /// Whether the session does not serve `grow`.
    pub no_grow: bool,
}

/// Why a line has no meaning.
#[derive(Clone, Copy, Debug, PartialEq, Eq)]
pub enum LineError {
    /// A code of `code`, and the number of the word where it comes, counted from 1. The place is 0
    /// where the whole line is meant.
    Refused { code: u32, place: u32 },
    /// Want of memory.
    Memory,
}

/// Vertices in the order in which a line lists them.
#[derive(Debug, Drop)]
pub struct VertexList {
    items: Vec<u32>,
}

impl Model for VertexList {
    ghost use Rattle.std.specs.Prelude.{List, ℕ};

    ghost Value = { List ℕ };

    ghost view = { λ v. v.items.items };
}

impl VertexList {
    /// The vertices.
    pub fn items(&self) -> &[u32]
        ensures { result.now ≡ self.now }
    {
        &self.items
    }
}

/// A line that was accepted.
#[derive(Debug, Drop)]
pub enum Line {
    Nothing,
    Vertices(u32),
    Star(Star),
    Edge { u: u32, v: u32, w: u32 },
    Cut { u: u32, v: u32 },
    Dist { x: u32, y: u32 },
    Path { x: u32, y: u32 },
    Row { x: u32 },
    Stats,
    Age(VertexList),
    Cert,
    Block,
    /// A question in a block, about the walks from x to y after at least so many of its updates.
    Ask { x: u32, y: u32, since: u32 },
    End,
    /// So many vertices, the new ones without edges.
    Grow(u32),
    /// How far the walks from x go, and how many vertices they reach.
    Ecc { x: u32 },
    /// Diameter, radius and centre.
    Report,
    /// How many least walks between other vertices have v in them.
    Through { v: u32 },
}

/// The first words that are commands.
#[derive(Clone, Copy, Debug, PartialEq, Eq)]
enum Command {
    Vertices,
    Star,
    Edge,
    Cut,
    Dist,
    Path,
    Row,
    Stats,
    Age,
    Cert,
    Block,
    Ask,
    End,
    Grow,
    Ecc,
    Report,
    Through,
}

/// The groups of a star's items: edges from its vertex, and edges to it.
#[derive(Clone, Copy, Debug, PartialEq, Eq)]
enum Group {
    Out,
    In,
}

/// The line that the bytes are, without its newline, or why and where it is refused. The bytes are
/// read once, or twice where the shape of a star is tested before its numbers. Memory is taken for
/// the star, or for the vertices of `age`, alone.
pub fn read_line(alloc: Global, bytes: &[u8], context: &Context) -> Result<Line, LineError>
    requires vertices { context.now.vertices ≤ MOST_VERTICES }
    ensures answer { MeaningIs (line_of context.now bytes.now) result }
    ensures fits { IfOk result (FitsContext context.now) }
{
    if bytes.len() > MOST_LINE_BYTES {
        return Err(refused(code::TOO_LONG, 0));
    }
    let words = Words {
        rest: bytes,
        place: 1,
    };
    line_of_words(alloc, words, context)
}

/// The line of all words.
fn line_of_words(alloc: Global, mut words: Words<'_>, context: &Context) -> Result<Line, LineError>
    requires place { words.place ≡ 1 }
    requires vertices { context.now.vertices ≤ MOST_VERTICES }
    ensures { MeaningIs (line_of_words context.now (words_left words.entry)) result }
{
    let Some(first) = words.next() else {
        return Ok(Line::Nothing);
    };
    if is_comment(first.bytes) {
        return Ok(Line::Nothing);
    }
    let Some(command) = command_of(first.bytes) else {
        return Err(refused(code::COMMAND, 1));
    };
    if let Some(code) = misplaced(context, command) {
        return Err(refused(code, 1));
    }
    line_with(alloc, command, context, words)
}

/// A refusal of a word or a line.
fn refused(code: u32, place: u32) -> LineError
    ensures { result ≡ LineError.Refused code place }
{
    LineError::Refused { code, place }
}
