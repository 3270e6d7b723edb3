//! Who runs blocks.

ghost use Rattle.std.specs.Prelude.{◌≡◌, ℕ, ⊤, Option, Some, None};
ghost use Rattle.std.specs.Option.{ForSome};
ghost use Rattle.block_run.specs.Run.{CanRun, HasRun};

use apsp_model::Memory;
use block_run::{Asks, BlockAnswers};
use graph_store::Plan;
use history_engine::Engine;

/// Who runs a block. A session is generic over it, so that a session without blocks waits for nobody.
pub trait Blocks {
    /// How many readers a block has, and none where there are no blocks.
    ghost readers: { Self → Option ℕ };

    /// What runs blocks may be called, and keeps its promise.
    ghost ready: { Self → Type 0 };

    /// How many readers a block has, and none where there are no blocks.
    fn readers(&self) -> Option<u32>
        ensures { result ≡ readers self.now };

    /// Runs a block: the engine takes its updates, and its questions are answered meanwhile. Nothing
    /// is promised where there are no blocks.
    fn run_block(
        &self,
        engine: &mut Engine,
        plan: &Plan,
        asks: &Asks,
    ) -> Result<BlockAnswers, Memory>
        requires ready { ready self.now }
        requires can { CanRun engine.old plan.now asks.now }
        ensures { ForSome (readers self.now) (λ r. HasRun r engine.old plan.now asks.now result engine.new) };
}

/// No blocks.
#[derive(Clone, Copy, Debug)]
pub struct NoBlocks;

impl Blocks for NoBlocks {
    ghost readers = { λ _. None };

    ghost ready = { λ _. ⊤ };

    fn readers(&self) -> Option<u32> {
        None
    }

    fn run_block(
        &self,
        _engine: &mut Engine,
        _plan: &Plan,
        _asks: &Asks,
    ) -> Result<BlockAnswers, Memory> {
        Err(Memory)
    }
}

/// Blocks that a closure runs with so many readers. What the closure may do besides, as to wait, is no
/// part of the signatures of a session.
#[derive(Drop)]
pub struct LiveBlocks<'a, F> {
    pub readers: u32,
    pub run: &'a F,
}

impl<'a, F: Fn(&mut Engine, &Plan, &Asks) -> Result<BlockAnswers, Memory>> LiveBlocks<'a, F> {
    /// With so many readers.
    pub fn new(readers: u32, run: &'a F) -> LiveBlocks<'a, F>
        ensures readers { result.readers ≡ readers }
        ensures run { result.run.now ≡ run.now }
    {
        LiveBlocks { readers, run }
    }
}

impl<'a, F: Fn(&mut Engine, &Plan, &Asks) -> Result<BlockAnswers, Memory>> Blocks
    for LiveBlocks<'a, F> {
    ghost readers = { λ b. Some b.readers };

    ghost ready = { λ b. (e : _) (p : _) (a : _) → CanRun e.now p.now a.now
        → F.pre b.run.now e p a
        × ((r : _) (e' : _) → F.post b.run.now e p a r e' → HasRun b.readers e.now p.now a.now r e'.now) };

    fn readers(&self) -> Option<u32> {
        Some(self.readers)
    }

    fn run_block(
        &self,
        engine: &mut Engine,
        plan: &Plan,
        asks: &Asks,
    ) -> Result<BlockAnswers, Memory> {
        (self.run)(engine, plan, asks)
    }
}
