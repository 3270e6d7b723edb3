//! The generated updates.

ghost use Rattle.std.specs.Prelude.{◌≡◌, ◌≤◌, OnOk, false, []};
ghost use Rattle.apsp_model.specs.Limits.{IsWorkerCount};
ghost use Rattle.history_engine.specs.Advance.{Stands};
ghost use Rattle.graph_store.specs.Making.{IsVertexCount};
ghost use Rattle.load_run.specs.Draws.{load_updates};

use crate::draws::{Draws, draw_star};
use apsp_io::Gate;
use apsp_model::Memory;
use history_engine::Engine;
use history_engine::laws::law_advance;
use std::alloc::Global;
use std::marker::Sync;
use std::thread::Threads;

/// Makes the updates that the seed draws, in an engine that made none.
pub fn make_updates<R: Threads + Sync, G: Gate>(
    rt: &R,
    alloc: Global,
    engine: &mut Engine,
    seed: u64,
    workers: u32,
    gate: &G,
) -> Result<(), Memory>
    requires fresh { Stands engine.old [] }
    requires plain { engine.old.smooth ≡ false }
    requires workers { IsWorkerCount workers }
    ensures stands { OnOk result (Stands engine.new (load_updates engine.old.opening seed)) }
    ensures opening { OnOk result (engine.new.opening ≡ engine.old.opening) }
    ensures present { OnOk result (engine.new.graph.vertices ≡ engine.old.opening) }
    ensures plain { OnOk result (engine.new.smooth ≡ false) }
{
    law_advance();
    let n = engine.vertices();
    let mut draws = Draws::new(seed);
    'updates: for _ in 0..2 * n {
        let next = draw_star(alloc, &mut draws, n)?;
        let Ok(_) = engine.star(rt, &next, workers, gate) else {
            return Err(Memory);
        };
    }
    Ok(())
}
