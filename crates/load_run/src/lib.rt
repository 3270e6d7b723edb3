//! A run over generated input: stars that are drawn from a seed go through the engine, and what it
//! answers at the end is certified.
#![tactic(auto)]

ghost use Rattle.std.specs.Prelude.{◌≡◌, ◌≤◌, IfOk};
ghost use Rattle.apsp_model.specs.Limits.{IsWorkerCount};
ghost use Rattle.graph_store.specs.Making.{IsVertexCount};
ghost use Rattle.load_run.specs.Report.{IsReport};

mod certified;
mod distances;
mod draws;
#[cfg(test)]
mod tests;
mod text;
mod updates;

use apsp_io::Gate;
use apsp_model::Memory;
use certified::certify;
use distances::count_distances;
use graph_store::MakeError;
use history_engine::Engine;
use std::alloc::Global;
use std::marker::Sync;
use std::thread::Threads;
use updates::make_updates;
use version_face::Version;

/// What holds after the generated updates.
#[derive(Clone, Copy, Debug, PartialEq, Eq)]
pub struct LoadReport {
    /// The number of updates.
    pub updates: u64,
    /// The number of pairs of different vertices that have a walk.
    pub pairs: u64,
    /// The sum of the distances of these pairs.
    pub sum: u64,
    /// The number of kept paths with an edge.
    pub paths: u64,
    /// The number of historical paths with an edge.
    pub historical: u64,
}

/// Makes the updates that the seed draws on n vertices, without smoothing. The certificate of the last
/// version is written, read back and checked, and the distances are counted from it.
pub fn run_load<R: Threads + Sync, G: Gate>(
    rt: &R,
    alloc: Global,
    n: u32,
    seed: u64,
    workers: u32,
    gate: &G,
) -> Result<LoadReport, Memory>
    requires count { IsVertexCount n }
    requires workers { IsWorkerCount workers }
    ensures { IfOk result (IsReport n seed) }
{
    let Ok(mut engine) = Engine::new(alloc, n, false) else {
        return Err(Memory);
    };
    make_updates(rt, alloc, &mut engine, seed, workers, gate)?;
    let Ok(mut version) = Version::new(alloc, n) else {
        return Err(Memory);
    };
    engine.fill(&mut version);
    let stated = certify(alloc, &version)?;
    let distances = count_distances(&stated);
    let counts = engine.counts();
    Ok(LoadReport {
        updates: counts.updates,
        pairs: distances.pairs,
        sum: distances.sum,
        paths: counts.paths,
        historical: counts.historical,
    })
}
