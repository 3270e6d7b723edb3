//! Calls of an engine, each behind a look at its conditions.

use apsp_io::OpenGate;
use apsp_model::MOST_VERTICES;
use graph_store::Star;
use local_engine::{LocalChange, LocalEngine};
use std::alloc::Global;
use std::marker::Sync;
use std::test::Fail;
use std::thread::Threads;
use version_face::Version;

/// The ends of an edge, and its weight.
pub type Edge = (u32, u32, u64);

/// A vertex, and all edges that it has from then on.
pub type Update<'a> = (u32, &'a [Edge]);

/// The star of an update.
pub fn star_of(alloc: Global, n: u32, update: &Update<'_>) -> Result<Star, Fail> {
    let &(v, edges) = update;
    if n == 0 || n > MOST_VERTICES {
        return Err(Fail::from("no such star"));
    }
    let mut star = Star::new(alloc, n, v)?;
    for &(from, to, weight) in edges {
        if from == v {
            star.set_out(to, weight)?;
        } else {
            star.set_in(from, weight)?;
        }
    }
    Ok(star)
}

/// Makes an update.
pub fn put<R: Threads + Sync>(
    rt: &R,
    engine: &mut LocalEngine,
    star: &Star,
) -> Result<LocalChange, Fail> {
    if star.vertices() != engine.vertices() || engine.number() >= 1 << 40 {
        return Err(Fail::from("no such update"));
    }
    Ok(engine.star(rt, star, 1, &OpenGate)?)
}

/// An engine behind updates.
pub fn engine_behind<R: Threads + Sync>(
    rt: &R,
    alloc: Global,
    n: u32,
    updates: &[Update<'_>],
) -> Result<LocalEngine, Fail> {
    let mut engine = LocalEngine::new(alloc, n)?;
    for update in updates {
        let star = star_of(alloc, n, update)?;
        put(rt, &mut engine, &star)?;
    }
    Ok(engine)
}

/// How much an engine keeps.
pub fn counts(engine: &LocalEngine) -> Result<LocalChange, Fail> {
    if engine.is_spent() {
        return Err(Fail::from("spent"));
    }
    Ok(engine.counts())
}

/// Whether a list of so many vertices is kept.
pub fn is_kept(engine: &LocalEngine, list: &[u32]) -> Result<bool, Fail> {
    let n = engine.vertices();
    if list.is_empty() || engine.is_spent() || !list.iter().all(|&v| v < n) {
        return Err(Fail::from("no such list"));
    }
    Ok(engine.is_kept(list))
}

/// The version of an engine.
pub fn version_of(alloc: Global, engine: &LocalEngine) -> Result<Version, Fail> {
    let mut version = Version::new(alloc, engine.vertices())?;
    if engine.is_spent() || version.vertices() != engine.graph().vertices() {
        return Err(Fail::from("no version"));
    }
    version.refill(engine);
    Ok(version)
}

/// The vertices of the least walk from x to y, and none where there is no walk.
pub fn walk(alloc: Global, version: &Version, x: u32, y: u32) -> Result<Vec<u32>, Fail> {
    let n = version.vertices();
    if x >= n || y >= n {
        return Err(Fail::from("no such pair"));
    }
    Ok(version.walk(x, y).collect(alloc)?)
}
