//! What updates are made with and blocks are run by.

ghost use Rattle.std.specs.Prelude.{◌≡◌, ◌<◌, IsSome, OnErr, OnOk, length};
ghost use Rattle.std.specs.Option.{ForSome};
ghost use Rattle.apsp_model.specs.declared.TheConstants.{MOST_UPDATES};
ghost use Rattle.block_run.specs.Run.{CanRun, HasRun};
ghost use Rattle.apsp_model.specs.Command.{Star_update};
ghost use Rattle.apsp_model.specs.Limits.{IsWorkerCount};
ghost use Rattle.history_engine.specs.Advance.{Advance};
ghost use Rattle.history_engine.specs.Answers.{IsSpentBy};

use crate::block::OpenBlock;
use crate::blocks::Blocks;
use apsp_io::Gate;
use block_run::BlockAnswers;
use graph_store::Star;
use history_engine::Engine;
use std::alloc::AllocError;
use std::marker::{Model, Sync};
use std::thread::Threads;

/// A number of workers that there may be.
#[derive(Drop)]
pub struct WorkerCount {
    count: u32,
}

impl Model for WorkerCount {
    ghost use Rattle.std.specs.Prelude.{ℕ};
    ghost use Rattle.apsp_model.specs.Limits.{IsWorkerCount};

    ghost Value = { ℕ };

    ghost view = { λ w. w.count };

    ghost invariant = { λ w. IsWorkerCount w.count };
}

impl WorkerCount {
    /// So many workers.
    pub fn new(count: u32) -> WorkerCount
        requires { IsWorkerCount count }
        ensures { result ≡ count }
    {
        WorkerCount { count }
    }

    /// How many workers these are.
    pub fn count(&self) -> u32
        ensures same { result ≡ self.now }
        ensures inside { IsWorkerCount result }
    {
        self.count
    }
}

/// What updates are made with: what starts workers, how many of them, and the gate that they pass; and
/// who runs blocks.
#[derive(Drop)]
pub struct Executor<'a, R, G, B> {
    pub rt: &'a R,
    pub workers: WorkerCount,
    pub gate: &'a G,
    pub blocks: &'a B,
}

impl<'a, R: Threads + Sync, G: Gate, B: Blocks> Executor<'a, R, G, B> {
    /// With so many workers.
    pub fn new(rt: &'a R, workers: u32, gate: &'a G, blocks: &'a B) -> Executor<'a, R, G, B>
        requires workers { IsWorkerCount workers }
        ensures workers { result.workers ≡ workers }
        ensures blocks { result.blocks.now ≡ blocks.now }
    {
        Executor {
            rt,
            workers: WorkerCount::new(workers),
            gate,
            blocks,
        }
    }

    /// Makes an update. Where memory ran out, now or in an earlier update, the engine is spent, and has the
    /// graph and the counts from before.
    pub fn update(&self, engine: &mut Engine, star: &Star) -> Result<(), AllocError>
        requires same { star.now.vertices ≡ engine.old.graph.vertices }
        requires few { length engine.old.vertices < MOST_UPDATES }
        ensures advance { OnOk result (Advance engine.old (Star_update star.now) engine.new) }
        ensures spent { OnErr result (IsSpentBy engine.old engine.new) }
        ensures same { engine.new.graph.vertices ≡ engine.old.graph.vertices }
    {
        match engine.star(self.rt, star, self.workers.count(), self.gate) {
            Ok(_) => Ok(()),
            Err(_) => Err(AllocError),
        }
    }

    /// How many readers a block has, and none where there are no blocks.
    pub fn readers(&self) -> Option<u32>
        ensures { result ≡ B.readers self.now.blocks.now }
    {
        self.blocks.readers()
    }

    /// Runs a block.
    pub fn run_block(
        &self,
        engine: &mut Engine,
        block: &OpenBlock,
    ) -> Result<BlockAnswers, AllocError>
        requires live { IsSome (B.readers self.now.blocks.now) }
        requires ready { B.ready self.now.blocks.now }
        requires can { CanRun engine.old block.now.plan block.now.asks }
        ensures ran { ForSome (B.readers self.now.blocks.now) (λ r.
            HasRun r engine.old block.now.plan block.now.asks result engine.new) }
        ensures vertices { engine.new.graph.vertices ≡ engine.old.graph.vertices }
    {
        match self.blocks.run_block(engine, block.plan(), block.asks()) {
            Ok(answers) => Ok(answers),
            Err(_) => Err(AllocError),
        }
    }
}
