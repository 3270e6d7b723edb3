//! The lines of edges and of pairs.
ghost use Rattle.std.specs.Prelude.{◌≡◌, ◌+◌, ◌<◌, ◌^◌, IfOk, IsTrue};
ghost use Rattle.graph_store.specs.Making.{IsVertexCount};
ghost use Rattle.certificate.specs.Reading.{edge_in, pair_in, ends_fit, entry_fits, edge_fits, pair_fits, rises, item_line};
ghost use Rattle.certificate.specs.Answer.{rest_behind, Gives, edge_item, pair_item, IsPairWithin, IsEdgeWithin};

use crate::cuts::{five_numbers, three_numbers};
use crate::lines::{Lines, line_at};
use crate::{CertError, MOST_DIGITS};
use apsp_model::MOST_WEIGHT;
use version_face::Entry;

/// An edge, as a line states it.
#[derive(Clone, Copy, Debug)]
pub struct Edge {
    pub from: u32,
    pub to: u32,
    pub weight: u32,
}

/// The entry of a pair, as a line states it.
#[derive(Clone, Copy, Debug)]
pub struct Pair {
    pub from: u32,
    pub to: u32,
    pub entry: Entry,
}

/// The edge of the next line, where n is the number of vertices and the ends of the edge before it are
/// given.
pub fn edge_line<'a>(
    n: u32,
    before: Option<(u32, u32)>,
    lines: Lines<'a>,
) -> Result<(Edge, Lines<'a>), CertError>
    requires number { lines.number + 1 < 2 ^ 32 }
    requires count { IsVertexCount n }
    ensures line { Gives (λ x. (edge_item x.0, rest_behind x.1)) result
        (item_line edge_in (edge_fits n) before (rest_behind lines.entry)) }
    ensures number { IfOk result (λ x. x.1.number ≡ lines.entry.number + 1) }
    ensures fits { IfOk result (λ x. IsTrue (edge_fits n (edge_item x.0))) }
{
    let (line, rest) = line_at(lines)?;
    let Some(numbers) = three_numbers(b' ', line) else {
        return Err(CertError::Shape(lines.number));
    };
    let Some(edge) = edge_within(n, numbers) else {
        return Err(CertError::Range(lines.number));
    };
    if rises(before, edge.from, edge.to) {
        Ok((edge, rest))
    } else {
        Err(CertError::Order(lines.number))
    }
}

/// The entry of the next line, where n is the number of vertices and the pair before it is given.
pub fn pair_line<'a>(
    n: u32,
    before: Option<(u32, u32)>,
    lines: Lines<'a>,
) -> Result<(Pair, Lines<'a>), CertError>
    requires number { lines.number + 1 < 2 ^ 32 }
    requires count { IsVertexCount n }
    ensures line { Gives (λ x. (pair_item x.0, rest_behind x.1)) result
        (item_line pair_in (pair_fits n) before (rest_behind lines.entry)) }
    ensures number { IfOk result (λ x. x.1.number ≡ lines.entry.number + 1) }
    ensures fits { IfOk result (λ x. IsTrue (pair_fits n (pair_item x.0))) }
    ensures digits { IfOk result (λ x. x.0.entry.dist < 10 ^ MOST_DIGITS) }
{
    let (line, rest) = line_at(lines)?;
    let Some(numbers) = five_numbers(b' ', line) else {
        return Err(CertError::Shape(lines.number));
    };
    let Some(pair) = pair_within(n, numbers) else {
        return Err(CertError::Range(lines.number));
    };
    if rises(before, pair.from, pair.to) {
        Ok((pair, rest))
    } else {
        Err(CertError::Order(lines.number))
    }
}

/// The edge, if all its numbers are in range: its ends and its weight.
pub fn edge_within(n: u32, numbers: [u64; 3]) -> Option<Edge>
    ensures { IsEdgeWithin n numbers result }
{
    let [from, to, weight] = numbers;
    if !ends_fit(n, from, to) || weight > u64::from(MOST_WEIGHT) {
        return None;
    }
    Some(Edge {
        from: from as u32,
        to: to as u32,
        weight: weight as u32,
    })
}

/// The entry, if all its numbers are in range: the pair, the distance, the hops and the next vertex.
pub fn pair_within(n: u32, numbers: [u64; 5]) -> Option<Pair>
    requires { IsVertexCount n }
    ensures { IsPairWithin n numbers result }
{
    let [from, to, dist, hops, next] = numbers;
    if !ends_fit(n, from, to) || !entry_fits(n, from, hops, next) {
        return None;
    }
    Some(Pair {
        from: from as u32,
        to: to as u32,
        entry: Entry {
            dist,
            hops: hops as u32,
            next: next as u32,
        },
    })
}

/// Whether the ends are two different vertices.
fn ends_fit(n: u32, from: u64, to: u64) -> bool
    ensures { result ≡ ends_fit n (from, to) }
{
    from < u64::from(n) && to < u64::from(n) && from != to
}

/// Whether these are in range for the entry of a pair from this vertex.
fn entry_fits(n: u32, from: u64, hops: u64, next: u64) -> bool
    requires { IsVertexCount n }
    ensures { result ≡ entry_fits n from hops next }
{
    let hops_fit = hops >= 1 && hops <= u64::from(n) - 1;
    let next_fits = next < u64::from(n) && next != from;
    hops_fit && next_fits
}

/// Whether a pair stands above the one before it.
fn rises(before: Option<(u32, u32)>, from: u32, to: u32) -> bool
    ensures { result ≡ rises before (from, to) }
{
    match before {
        Some((x, y)) => x < from || (x == from && y < to),
        None => true,
    }
}
