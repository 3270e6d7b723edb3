//! The lines of a certificate that are no items.
ghost use Rattle.std.specs.Prelude.{◌≡◌, ◌+◌, ◌-◌, ◌*◌, ◌<◌, ◌≤◌, ◌^◌, IfOk, codes};
ghost use Rattle.graph_store.specs.Making.{IsVertexCount};
ghost use Rattle.certificate.specs.Reading.{line_at, fixed_line, named_line, title_line, vertices_head_line, count_line, head_of, closing_line};
ghost use Rattle.certificate.specs.Answer.{rest_behind, Gives};

use crate::cuts::{cut, number_behind};
use crate::{CertError, MOST_DIGITS};
use apsp_model::MOST_VERTICES;

/// The bytes that are left, and the number of the line that they begin with.
#[derive(Clone, Copy, Debug)]
pub struct Lines<'a> {
    pub bytes: &'a [u8],
    pub number: u32,
}

/// How the items of a certificate stand in its lines.
#[derive(Clone, Copy, Debug)]
pub enum Layout {
    /// Text 1: each item has a line.
    ByItem,
    /// Text 2: the items of one vertex have a line.
    ByVertex,
}

/// The layout, the number and the number of vertices, and the lines behind them.
#[derive(Clone, Copy, Debug)]
pub struct Head<'a> {
    pub layout: Layout,
    pub number: u64,
    pub vertices: u32,
    pub rest: Lines<'a>,
}

/// The next line, which a newline ends.
pub fn line_at(lines: Lines<'_>) -> Result<(&[u8], Lines<'_>), CertError>
    requires { lines.number + 1 < 2 ^ 32 }
    ensures line { Gives (λ x. (x.0.now, rest_behind x.1)) result (line_at (rest_behind lines.entry)) }
    ensures number { IfOk result (λ x. x.1.number ≡ lines.entry.number + 1) }
{
    match cut(b'\n', lines.bytes) {
        Some((line, bytes)) => Ok((
            line,
            Lines {
                bytes,
                number: lines.number + 1,
            },
        )),
        None => Err(CertError::Shape(lines.number)),
    }
}

/// The lines behind one that is this text.
fn fixed_line<'a>(text: &[u8], lines: Lines<'a>) -> Result<Lines<'a>, CertError>
    requires { lines.number + 1 < 2 ^ 32 }
    ensures line { Gives rest_behind result (fixed_line text.now (rest_behind lines.entry)) }
    ensures number { IfOk result (λ x. x.number ≡ lines.entry.number + 1) }
{
    let (line, rest) = line_at(lines)?;
    if line == text {
        Ok(rest)
    } else {
        Err(CertError::Shape(lines.number))
    }
}

/// The number of a line that has it behind this word.
fn named_line<'a>(word: &[u8], lines: Lines<'a>) -> Result<(u64, Lines<'a>), CertError>
    requires { lines.number + 1 < 2 ^ 32 }
    ensures line { Gives (λ x. (x.0, rest_behind x.1)) result (named_line word.now (rest_behind lines.entry)) }
    ensures digits { IfOk result (λ x. x.0 < 10 ^ MOST_DIGITS) }
    ensures number { IfOk result (λ x. x.1.number ≡ lines.entry.number + 1) }
{
    let (line, rest) = line_at(lines)?;
    match number_behind(word, line) {
        Some(number) => Ok((number, rest)),
        None => Err(CertError::Shape(lines.number)),
    }
}

/// The first line, which names the layout.
fn title_line(lines: Lines<'_>) -> Result<(Layout, Lines<'_>), CertError>
    requires { lines.number + 1 < 2 ^ 32 }
    ensures line { Gives (λ x. (x.0, rest_behind x.1)) result (title_line (rest_behind lines.entry)) }
    ensures number { IfOk result (λ x. x.1.number ≡ lines.entry.number + 1) }
{
    let by_item: &[u8] = b"apsp certificate 1";
    let by_vertex: &[u8] = b"apsp certificate 2";
    let (line, rest) = line_at(lines)?;
    if line == by_item {
        Ok((Layout::ByItem, rest))
    } else if line == by_vertex {
        Ok((Layout::ByVertex, rest))
    } else {
        Err(CertError::Shape(lines.number))
    }
}

fn vertices_line(lines: Lines<'_>) -> Result<(u32, Lines<'_>), CertError>
    requires { lines.number + 1 < 2 ^ 32 }
    ensures line { Gives (λ x. (x.0, rest_behind x.1)) result (vertices_head_line (rest_behind lines.entry)) }
    ensures number { IfOk result (λ x. x.1.number ≡ lines.entry.number + 1) }
    ensures vertices { IfOk result (λ x. IsVertexCount x.0) }
{
    let (n, rest) = named_line(b"vertices", lines)?;
    if n < 1 || n > u64::from(MOST_VERTICES) {
        return Err(CertError::Range(lines.number));
    }
    Ok((n as u32, rest))
}

/// A number of items to come, which is at most so many.
pub fn count_line<'a>(
    word: &[u8],
    most: u32,
    lines: Lines<'a>,
) -> Result<(u32, Lines<'a>), CertError>
    requires { lines.number + 1 < 2 ^ 32 }
    ensures line { Gives (λ x. (x.0, rest_behind x.1)) result (count_line word.now most (rest_behind lines.entry)) }
    ensures number { IfOk result (λ x. x.1.number ≡ lines.entry.number + 1) }
    ensures most { IfOk result (λ x. x.0 ≤ most) }
{
    let (count, rest) = named_line(word, lines)?;
    if count > u64::from(most) {
        return Err(CertError::Range(lines.number));
    }
    Ok((count as u32, rest))
}

/// The first three lines.
pub fn head_of(lines: Lines<'_>) -> Result<Head<'_>, CertError>
    requires { lines.number + 3 < 2 ^ 32 }
    ensures head { Gives (λ h. record {
      layout = h.layout;
      number = h.number;
      vertices = h.vertices;
      rest = rest_behind h.rest;
    }) result
        (head_of (rest_behind lines.entry)) }
    ensures number { IfOk result (λ h. h.rest.number ≡ lines.entry.number + 3) }
    ensures vertices { IfOk result (λ h. IsVertexCount h.vertices) }
    ensures digits { IfOk result (λ h. h.number < 10 ^ MOST_DIGITS) }
{
    let (layout, rest) = title_line(lines)?;
    let (number, rest) = named_line(b"number", rest)?;
    let (vertices, rest) = vertices_line(rest)?;
    Ok(Head {
        layout,
        number,
        vertices,
        rest,
    })
}

/// The line that ends the text.
pub fn end_line(lines: Lines<'_>) -> Result<(), CertError>
    requires { lines.number + 1 < 2 ^ 32 }
    ensures { Gives (λ _. tt) result (closing_line (rest_behind lines.entry)) }
{
    let rest = fixed_line(b"end", lines)?;
    if rest.bytes.is_empty() {
        Ok(())
    } else {
        Err(CertError::Shape(rest.number))
    }
}
