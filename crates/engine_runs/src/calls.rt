//! Updates, mends and grows of an engine, by calls that say what does not fit.

ghost use Rattle.std.specs.Prelude.{◌≡◌, IfOk};
ghost use Rattle.graph_store.specs.Making.{IsVertexCount};

use apsp_io::OpenGate;
use apsp_model::MOST_VERTICES;
use graph_store::Star;
use history_engine::{Change, Engine};
use std::alloc::Global;
use std::marker::Sync;
use std::test::Fail;
use std::thread::Threads;

/// The ends of an edge, and its weight.
pub(crate) type Edge = (u32, u32, u64);

/// The star of v with these edges.
fn star_with(alloc: Global, n: u32, v: u32, edges: &[Edge]) -> Result<Star, Fail>
    requires count { IsVertexCount n }
    ensures vertices { IfOk result (λ s. s.vertices ≡ n) }
{
    let mut star = Star::new(alloc, n, v)?;
    'edges: for &edge in edges {
        put_edge(&mut star, edge)?;
    }
    Ok(star)
}

fn put_edge(star: &mut Star, edge: Edge) -> Result<(), Fail>
    ensures vertices { star.new.vertices ≡ star.old.vertices }
{
    let (from, to, weight) = edge;
    if from == star.vertex() {
        star.set_out(to, weight)?;
    } else {
        star.set_in(from, weight)?;
    }
    Ok(())
}

/// An update: the edges at v are these.
pub(crate) fn put<R: Threads + Sync>(
    rt: &R,
    alloc: Global,
    engine: &mut Engine,
    v: u32,
    edges: &[Edge],
) -> Result<Change, Fail> {
    if engine.number() >= 1 << 40 {
        return Err(Fail::from("too many updates"));
    }
    let star = star_with(alloc, engine.vertices(), v, edges)?;
    let change = engine.star(rt, &star, 1, &OpenGate)?;
    Ok(change)
}

/// There are n vertices.
pub(crate) fn grow(engine: &mut Engine, n: u32) -> Result<Change, Fail> {
    if engine.vertices() >= n || n > MOST_VERTICES || engine.number() >= 1 << 40 {
        return Err(Fail::from("no grow"));
    }
    let change = engine.grow(n)?;
    Ok(change)
}

/// The kept paths are made anew.
pub(crate) fn mend<R: Threads + Sync>(rt: &R, engine: &mut Engine) -> Result<Change, Fail> {
    if engine.steps() >= 1 << 62 {
        return Err(Fail::from("too many steps"));
    }
    let change = engine.mend(rt, 1, &OpenGate)?;
    Ok(change)
}
