//! Answers.

ghost use Rattle.std.specs.Prelude.{◌≡◌, []};

use std::alloc::Global;
use std::marker::Model;

/// The vertices of a walk from its first to its last. Contracts see them as a list.
#[derive(Debug, Drop)]
pub struct VertexList {
    pub(crate) items: Vec<u32>,
}

impl Model for VertexList {
    ghost use Rattle.std.specs.Prelude.{List, ℕ};

    ghost Value = { List ℕ };

    ghost view = { λ v. v.items.items };
}

impl VertexList {
    /// The vertices. Takes no memory.
    pub fn items(&self) -> &[u32]
        ensures { result.now ≡ self.now }
    {
        &self.items
    }
}

/// The least walk from x to y in the graph of this number. Where there is none, the distance is
/// `NO_DISTANCE` of version_face, and the walk has no vertices.
#[derive(Debug, Drop)]
pub struct Answer {
    pub number: u64,
    pub x: u32,
    pub y: u32,
    pub dist: u64,
    pub walk: VertexList,
}

/// The answers to the questions of a block, in their order. Contracts see them as a list.
#[derive(Drop)]
pub struct BlockAnswers {
    pub(crate) items: Vec<Answer>,
}

impl Model for BlockAnswers {
    ghost use Rattle.std.specs.Prelude.{List};
    ghost use Rattle.block_run.specs.declared.answers.Answer.{Answer};

    ghost Value = { List Answer };

    ghost view = { λ a. a.items.items };
}

impl BlockAnswers {
    /// No answers. Takes no memory.
    pub fn none(alloc: Global) -> BlockAnswers
        ensures { result ≡ [] }
    {
        BlockAnswers {
            items: Vec::new(alloc),
        }
    }

    /// The answers. Takes no memory.
    pub fn answers(&self) -> &[Answer]
        ensures { result.now ≡ self.now }
    {
        &self.items
    }
}
