//! The times of the updates.

ghost use Rattle.std.specs.Prelude.{◌≡◌, ℕ, ◌+◌, ◌-◌, ◌^◌, ◌<◌, ◌≤◌, [], ◌∷◌, ◌++◌, length, Some, None, slice_get, slice_index, vec_len, IfOk, IfSome, OnOk, OnErr};
ghost use Rattle.apsp_model.specs.Command.{latest_at};
ghost use Rattle.history_engine.specs.Times.{IsLatestUpdate};

use apsp_model::Memory;
use std::alloc::Global;
use std::marker::Model;

/// The vertex of each update in order of time, none for a grow, and of each vertex the time of its
/// latest star.
#[derive(Drop)]
pub(crate) struct Timeline {
    vertices: Vec<Option<u32>>,
    // By vertex, and 0 where no star was at it.
    latest: Vec<usize>,
}

impl Model for Timeline {
    ghost use Rattle.std.specs.Prelude.{◌-◌, vec_len, vec_capacity};
    ghost use Rattle.history_engine.specs.Room.{Times};

    ghost Value = { Times };

    ghost use Rattle.history_engine.specs.Times.{IsTimeline};

    ghost view = { λ t. record {
      size = vec_len t.latest;
      vertices = t.vertices.items;
      room = vec_capacity t.vertices - vec_len t.vertices;
    } };

    ghost invariant = { IsTimeline };
}

impl Timeline {
    /// No updates of a graph with n vertices.
    pub(crate) fn new(alloc: Global, n: u32) -> Result<Timeline, Memory>
        ensures size { IfOk result (λ t. t.size ≡ n) }
        ensures vertices { IfOk result (λ t. t.vertices ≡ []) }
    {
        let latest = Vec::from_elem(alloc, 0, n as usize).map_err(|_| Memory)?;
        Ok(Timeline {
            vertices: Vec::new(alloc),
            latest,
        })
    }

    /// The number of updates.
    pub(crate) fn len(&self) -> usize
        ensures { result ≡ length self.now.vertices }
    {
        self.vertices.len()
    }

    /// Makes room for one more update.
    pub(crate) fn reserve(&mut self) -> Result<(), Memory>
        ensures room { OnOk result (1 ≤ self.new.room) }
        ensures size { self.new.size ≡ self.old.size }
        ensures vertices { self.new.vertices ≡ self.old.vertices }
    {
        self.vertices.reserve(1).map_err(|_| Memory)
    }

    /// Takes a star at v down as the latest update. Takes no memory.
    pub(crate) fn record(&mut self, v: u32)
        requires inside { v < self.old.size }
        requires room { 1 ≤ self.old.room }
        ensures size { self.new.size ≡ self.old.size }
        ensures vertices { self.new.vertices ≡ self.old.vertices ++ Some v ∷ [] }
    {
        self.vertices.push_reserved(Some(v));
        self.latest[v as usize] = self.vertices.len();
    }

    /// Takes a grow to n vertices down as the latest update. Want of memory changes nothing.
    pub(crate) fn grow(&mut self, alloc: Global, n: u32) -> Result<(), Memory>
        requires more { self.old.size ≤ n }
        ensures size { OnOk result (self.new.size ≡ n) }
        ensures vertices { OnOk result (self.new.vertices ≡ self.old.vertices ++ None ∷ []) }
        ensures same_size { OnErr result (self.new.size ≡ self.old.size) }
        ensures same_vertices { OnErr result (self.new.vertices ≡ self.old.vertices) }
    {
        self.vertices.reserve(1).map_err(|_| Memory)?;
        let latest = wider(alloc, &self.latest, n)?;
        self.latest = latest;
        self.vertices.push_reserved(None);
        Ok(())
    }

    /// The vertex of the cleaning step for a power of 2, where the present star, which is not taken
    /// down yet, is at v: that of the star so long ago, if none was at it later.
    pub(crate) fn cleaned(&self, v: u32, power: u32) -> Option<u32>
        requires inside { v < self.now.size }
        requires power { power < 64 }
        ensures cleaned { result ≡ latest_at (self.now.vertices ++ Some v ∷ []) (length self.now.vertices + 1 - 2 ^ power) }
        ensures inside { IfSome result (λ w. w < self.now.size) }
    {
        cleaned_vertex(&self.vertices, &self.latest, v, power)
    }
}

/// The latest times with those of more vertices, at which no star was.
fn wider(alloc: Global, latest: &[usize], n: u32) -> Result<Vec<usize>, Memory>
    requires more { length latest.now ≤ n }
    ensures size { IfOk result (λ w. vec_len w ≡ n) }
    ensures old { IfOk result (λ w. (v : ℕ) → v < length latest.now → slice_index w.items v ≡ slice_index latest.now v) }
    ensures new { IfOk result (λ w. (v : ℕ) → length latest.now ≤ v → slice_index w.items v ≡ 0) }
{
    let mut wide = Vec::from_elem(alloc, 0, n as usize).map_err(|_| Memory)?;
    'vertices: for (v, &time) in latest.iter().enumerate() {
        wide[v] = time;
    }
    Ok(wide)
}

fn cleaned_vertex(vertices: &[Option<u32>], latest: &[usize], v: u32, power: u32) -> Option<u32>
    requires power { power < 64 }
    requires times { (w : ℕ) → w < length latest.now → IsLatestUpdate vertices.now w (slice_index latest.now w) }
    requires inside { (s w : ℕ) → slice_get vertices.now s ≡ Some (Some w) → w < length latest.now }
    ensures cleaned { result ≡ latest_at (vertices.now ++ Some v ∷ []) (length vertices.now + 1 - 2 ^ power) }
    ensures inside { IfSome result (λ w. w < length latest.now) }
{
    let place = vertices.len().checked_sub(1usize << power)?;
    let cleaned = vertices[place]?;
    if cleaned != v && latest[cleaned as usize] == place + 1 {
        Some(cleaned)
    } else {
        None
    }
}
