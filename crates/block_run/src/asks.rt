//! Questions.

ghost use Rattle.std.specs.Prelude.{◌≡◌, [], ◌∷◌, ◌++◌, OnOk, OnErr};

use apsp_model::Memory;
use std::alloc::Global;
use std::marker::Model;

/// A question about the walks from x to y, after at least so many updates of the block.
#[derive(Clone, Copy, Debug, PartialEq, Eq)]
pub struct Ask {
    pub x: u32,
    pub y: u32,
    pub since: u32,
}

/// The questions of a block. Contracts see them as a list.
#[derive(Drop)]
pub struct Asks {
    items: Vec<Ask>,
}

impl Model for Asks {
    ghost use Rattle.std.specs.Prelude.{List};
    ghost use Rattle.block_run.specs.declared.asks.Ask.{Ask};

    ghost Value = { List Ask };

    ghost view = { λ a. a.items.items };
}

impl Asks {
    /// No questions. Takes no memory.
    pub fn new(alloc: Global) -> Asks
        ensures { result ≡ [] }
    {
        Asks {
            items: Vec::new(alloc),
        }
    }

    /// One question more, behind the others. Want of memory leaves them as they were.
    pub fn push(&mut self, x: u32, y: u32, since: u32) -> Result<(), Memory>
        ensures pushed { OnOk result (self.new ≡ self.old ++ record { x = x; y = y; since = since } ∷ []) }
        ensures unchanged { OnErr result (self.new ≡ self.old) }
    {
        self.items.push(Ask { x, y, since }).map_err(|_| Memory)
    }

    /// The questions in their order. Takes no memory.
    pub fn items(&self) -> &[Ask]
        ensures { result.now ≡ self.now }
    {
        &self.items
    }
}
