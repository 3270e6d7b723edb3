//! The engine as that from which a version is filled.

ghost use Rattle.std.specs.Prelude.{◌≡◌, length, false};

use crate::Engine;
use graph_store::Graph;
use version_face::{Answers, Entry, Version};

impl Answers for Engine {
    ghost use Rattle.std.specs.Prelude.{◌≡◌, ℕ, length, false};

    ghost graph = { λ e. e.graph };

    ghost stamp = { λ e. length e.vertices };

    ghost ready = { λ e. e.spent ≡ false };

    fn vertices(&self) -> u32 {
        self.graph().vertices()
    }

    fn number(&self) -> u64 {
        Engine::number(self)
    }

    fn weight(&self, u: u32, v: u32) -> Option<u32> {
        self.graph().weight(u, v)
    }

    fn copy_graph(&self, other: &mut Graph) {
        self.graph().copy_into(other);
    }

    fn entry(&self, x: u32, y: u32) -> Option<Entry> {
        let least = self.least(x, y)?;
        Some(Entry {
            dist: least.weight(),
            hops: least.hops(),
            next: least.second(),
        })
    }
}

impl Engine {
    /// Makes the version that of the present graph and number. It takes no memory, and O(n²) looks.
    pub fn fill(&self, version: &mut Version)
        requires not_spent { self.now.spent ≡ false }
        requires same { version.old.graph.vertices ≡ self.now.graph.vertices }
        ensures graph { version.new.graph ≡ self.now.graph }
        ensures number { version.new.number ≡ length self.now.vertices }
    {
        version.refill(self);
    }
}
