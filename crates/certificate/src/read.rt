//! A certificate that is read.
ghost use Rattle.std.specs.Prelude.{◌≡◌, ◌+◌, ◌-◌, ◌*◌, ◌<◌, ◌≤◌, ◌^◌, IfOk, IsErrOf, codes, Ok, Option, None};
ghost use Rattle.std.specs.FinMap as map;
ghost use Rattle.apsp_model.specs.declared.TheConstants.{MOST_VERTICES};
ghost use Rattle.apsp_model.specs.Graph.{no_edges};
ghost use Rattle.apsp_model.specs.Stated.{Stated as Stated_model};
ghost use Rattle.graph_store.specs.Making.{IsVertexCount};
ghost use Rattle.certificate.specs.Grammar.{IsCertText};
ghost use Rattle.certificate.specs.Reading.{body_of, stated_by};
ghost use Rattle.certificate.specs.Answer.{rest_behind, GivesOrMemory, IsEarly, ReadsEdges, ReadsPairs, ReadsEdgeLines, ReadsPairLines};

use crate::groups::{edge_group, pair_group};
use crate::items::{edge_line, pair_line};
use crate::lines::{Head, Layout, Lines, count_line, end_line, head_of};
use crate::stated::Stated;
use crate::{CertError, MOST_DIGITS};
use std::alloc::Global;

/// What a certificate states. It takes memory once the line `vertices` has passed its tests, for two
/// cells for each pair of these vertices.
pub fn read_certificate(alloc: Global, bytes: &[u8]) -> Result<Stated, CertError>
    // What is read is in the grammar.
    ensures found { IfOk result (λ s. IsCertText s bytes.now) }
    // What is in the grammar is read, unless memory runs out.
    ensures only { (s : Stated_model) → IsCertText s bytes.now → GivesOrMemory (λ s. s) result (Ok s) }
    // Which line is the first at fault, and which test it fails.
    ensures exact { GivesOrMemory (λ s. s) result (stated_by bytes.now) }
    // No text makes it take memory by its first three lines alone.
    ensures early { IsEarly (stated_by bytes.now) → IsErrOf result CertError.Memory → ⊥ }
{
    read_text(alloc, bytes)
}

/// What a text states, or its first fault.
fn read_text(alloc: Global, bytes: &[u8]) -> Result<Stated, CertError>
    ensures exact { GivesOrMemory (λ s. s) result (stated_by bytes.now) }
    ensures early { IsEarly (stated_by bytes.now) → IsErrOf result CertError.Memory → ⊥ }
{
    let head = head_of(Lines { bytes, number: 1 })?;
    body_of(alloc, head)
}

/// What stands behind the head.
fn body_of(alloc: Global, head: Head<'_>) -> Result<Stated, CertError>
    requires number { head.rest.number ≤ 4 }
    requires count { IsVertexCount head.vertices }
    requires digits { head.number < 10 ^ MOST_DIGITS }
    ensures { GivesOrMemory (λ s. s) result
        (body_of (record {
          layout = head.entry.layout;
          number = head.entry.number;
          vertices = head.entry.vertices;
          rest = rest_behind head.entry.rest;
        })) }
{
    let mut stated = Stated::new(alloc, head.number, head.vertices)?;
    let rest = read_edges(&mut stated, head.layout, head.rest)?;
    let rest = read_pairs(&mut stated, head.layout, rest)?;
    end_line(rest)?;
    Ok(stated)
}

/// Reads the edges, and gives the lines behind them.
fn read_edges<'a>(
    stated: &mut Stated,
    layout: Layout,
    lines: Lines<'a>,
) -> Result<Lines<'a>, CertError>
    requires number { lines.number ≤ 4 }
    requires none { stated.old.graph ≡ no_edges stated.old.graph.vertices }
    ensures edges { ReadsEdges layout stated.old stated.new result (rest_behind lines.entry) }
    ensures number { IfOk result (λ r. r.number ≤ 5 + MOST_VERTICES * (MOST_VERTICES - 1)) }
{
    let n = stated.vertices();
    let (count, rest) = count_line(b"edges", n * (n - 1), lines)?;
    match layout {
        Layout::ByItem => edges_by_item(stated, count, rest),
        Layout::ByVertex => edges_by_vertex(stated, count, rest),
    }
}

/// Reads so many edges, each from a line of its own.
fn edges_by_item<'a>(
    stated: &mut Stated,
    count: u32,
    lines: Lines<'a>,
) -> Result<Lines<'a>, CertError>
    requires number { lines.number + count < 2 ^ 32 }
    requires none { stated.old.graph ≡ no_edges stated.old.graph.vertices }
    ensures edges { ReadsEdgeLines Layout.ByItem count stated.old stated.new result (rest_behind lines.entry) }
    ensures number { IfOk result (λ r. r.number ≤ lines.entry.number + count) }
{
    let n = stated.vertices();
    let mut rest = lines;
    let mut before = None;
    'edges: for _ in 0..count {
        let (edge, behind) = edge_line(n, before, rest)?;
        stated.put_edge(&edge);
        before = Some((edge.from, edge.to));
        rest = behind;
    }
    Ok(rest)
}

/// Reads so many edges, those from a vertex from a line.
fn edges_by_vertex<'a>(
    stated: &mut Stated,
    count: u32,
    lines: Lines<'a>,
) -> Result<Lines<'a>, CertError>
    requires number { lines.number + count < 2 ^ 32 }
    requires none { stated.old.graph ≡ no_edges stated.old.graph.vertices }
    ensures edges { ReadsEdgeLines Layout.ByVertex count stated.old stated.new result (rest_behind lines.entry) }
    ensures number { IfOk result (λ r. r.number ≤ lines.entry.number + count) }
{
    let mut rest = lines;
    let mut left = count;
    let mut before = None;
    'lines: for _ in 0..count {
        if left == 0 {
            return Ok(rest);
        }
        let group = edge_group(stated, left, before, rest)?;
        left -= group.count;
        before = Some(group.from);
        rest = group.rest;
    }
    Ok(rest)
}

/// Reads the pairs, and gives the lines behind them.
fn read_pairs<'a>(
    stated: &mut Stated,
    layout: Layout,
    lines: Lines<'a>,
) -> Result<Lines<'a>, CertError>
    requires number { lines.number ≤ 5 + MOST_VERTICES * (MOST_VERTICES - 1) }
    requires none { stated.old.entries ≡ map.empty }
    ensures pairs { ReadsPairs layout stated.old stated.new result (rest_behind lines.entry) }
    ensures number { IfOk result (λ r. r.number ≤ 6 + 2 * (MOST_VERTICES * (MOST_VERTICES - 1))) }
{
    let n = stated.vertices();
    let (count, rest) = count_line(b"pairs", n * (n - 1), lines)?;
    match layout {
        Layout::ByItem => pairs_by_item(stated, count, rest),
        Layout::ByVertex => pairs_by_vertex(stated, count, rest),
    }
}

/// Reads so many pairs, each from a line of its own.
fn pairs_by_item<'a>(
    stated: &mut Stated,
    count: u32,
    lines: Lines<'a>,
) -> Result<Lines<'a>, CertError>
    requires number { lines.number + count < 2 ^ 32 }
    requires none { stated.old.entries ≡ map.empty }
    ensures pairs { ReadsPairLines Layout.ByItem count stated.old stated.new result (rest_behind lines.entry) }
    ensures number { IfOk result (λ r. r.number ≤ lines.entry.number + count) }
{
    let n = stated.vertices();
    let mut rest = lines;
    let mut before = None;
    'pairs: for _ in 0..count {
        let (pair, behind) = pair_line(n, before, rest)?;
        stated.put_pair(&pair);
        before = Some((pair.from, pair.to));
        rest = behind;
    }
    Ok(rest)
}

/// Reads so many pairs, those from a vertex from a line.
fn pairs_by_vertex<'a>(
    stated: &mut Stated,
    count: u32,
    lines: Lines<'a>,
) -> Result<Lines<'a>, CertError>
    requires number { lines.number + count < 2 ^ 32 }
    requires none { stated.old.entries ≡ map.empty }
    ensures pairs { ReadsPairLines Layout.ByVertex count stated.old stated.new result (rest_behind lines.entry) }
    ensures number { IfOk result (λ r. r.number ≤ lines.entry.number + count) }
{
    let mut rest = lines;
    let mut left = count;
    let mut before = None;
    'lines: for _ in 0..count {
        if left == 0 {
            return Ok(rest);
        }
        let group = pair_group(stated, left, before, rest)?;
        left -= group.count;
        before = Some(group.from);
        rest = group.rest;
    }
    Ok(rest)
}
