//! The engine.

ghost use Rattle.std.specs.Prelude.{◌≡◌, ◌<◌, ◌≤◌, ◌+◌, ◌*◌, ◌^◌, ◌↔◌, ℕ, List, [], length, true, false, IfOk, OnOk, OnErr, MatchOption, All, Err};
ghost use Rattle.apsp_model.specs.Limits.{IsWorkerCount};
ghost use Rattle.apsp_model.specs.declared.TheConstants.{MOST_UPDATES, MOST_VERTICES};
ghost use Rattle.apsp_model.specs.Command.{Command, Star_update, Grow_update, Mend};
ghost use Rattle.apsp_model.specs.Counts.{CountsAre};
ghost use Rattle.apsp_model.specs.Kept.{IsKept, HasBirth};
ghost use Rattle.apsp_model.specs.Least.{HasNoWalk};
ghost use Rattle.apsp_model.specs.Paths.{IsKeptIn, HasBirthIn};
ghost use Rattle.graph_store.specs.Making.{IsVertexCount, IsMakeAnswer};
ghost use Rattle.history_engine.specs.Advance.{Advance, Stands};
ghost use Rattle.history_engine.specs.Answers.{IsChange, IsMendChange, IsSpentBy, AreCounts, numbers};
ghost use Rattle.history_engine.specs.Least.{IsLeastPath};
ghost use Rattle.history_engine.specs.Seen.{paths_of};
ghost use Rattle.history_engine.specs.declared.engine.EngineError.TheVariants as error;

use crate::least::Least;
use crate::mending::mend_step;
use crate::timeline::Timeline;
use crate::update::{Progress, Workers, update};
use apsp_io::Gate;
use apsp_model::Memory;
use book_widening::wider_book;
use graph_store::{Graph, MakeError, Star};
use path_book::Book;
use std::alloc::Global;
use std::marker::{Model, Sync};
use std::thread::Threads;

/// Why an update was not made.
#[derive(Clone, Copy, Debug, PartialEq, Eq)]
pub enum EngineError {
    /// Memory ran out in an earlier update or mend.
    Spent = 1,
    /// Want of memory.
    Memory,
}

/// What an update did.
#[derive(Clone, Copy, Debug, PartialEq, Eq)]
pub struct Change {
    /// Which update it was, from 1 on.
    pub number: u64,
    /// The number of steps that it made: one at its vertex, and the cleaning steps.
    pub steps: u64,
    /// The number of paths that its steps added.
    pub formed: u64,
    /// The number of paths that its steps took away.
    pub removed: u64,
}

/// How much an engine did and keeps.
#[derive(Clone, Copy, Debug, PartialEq, Eq)]
pub struct Counts {
    /// The number of updates.
    pub updates: u64,
    /// The number of steps that they made.
    pub steps: u64,
    /// The number of kept paths with an edge.
    pub paths: u64,
    /// The number of historical paths with an edge.
    pub historical: u64,
    /// The number of paths that the latest update added, and 0 before the first.
    pub formed: u64,
    /// The number of paths that the latest update took away, and 0 before the first.
    pub removed: u64,
}

/// A graph that changes one star at a time, with all its locally historical paths: the simple walks
/// all of whose proper parts have been least walks at least once since the latest step at one of
/// their vertices.
#[derive(Drop)]
pub struct Engine {
    alloc: Global,
    // The number of vertices at first.
    opening: u32,
    graph: Graph,
    // Room for the star that an update replaces.
    before: Star,
    book: Book,
    timeline: Timeline,
    smooth: bool,
    progress: Progress,
    spent: bool,
}

impl Model for Engine {
    ghost use Rattle.history_engine.specs.Seen.{EngineSeen, engine_seen_code};

    ghost Value = { EngineSeen };

    ghost coded = { engine_seen_code };

    ghost use Rattle.history_engine.specs.Layout.{seen_of, IsEngine};

    ghost view = { seen_of };

    ghost invariant = { IsEngine };
}

impl Engine {
    /// So many vertices, no edges, and no updates. With smoothing each update makes cleaning steps.
    /// O(n²).
    pub fn new(alloc: Global, n: u32, smooth: bool) -> Result<Engine, MakeError>
        ensures opening { IfOk result (λ e. e.opening ≡ n) }
        ensures smooth { IfOk result (λ e. e.smooth ≡ smooth) }
        ensures stands { IfOk result (λ e. Stands e []) }
        ensures answer { IsMakeAnswer n result }
    {
        let graph = Graph::new(alloc, n)?;
        let Ok(before) = Star::new(alloc, n, 0) else {
            return Err(MakeError::Memory);
        };
        let Ok(book) = Book::new(alloc, n) else {
            return Err(MakeError::Memory);
        };
        let Ok(timeline) = Timeline::new(alloc, n) else {
            return Err(MakeError::Memory);
        };
        Ok(Engine {
            alloc,
            opening: n,
            graph,
            before,
            book,
            timeline,
            smooth,
            progress: Progress {
                steps: 0,
                formed: 0,
                removed: 0,
            },
            spent: false,
        })
    }

    /// Replaces all edges at the star's vertex by those of the star, and brings the kept paths up to
    /// date. Several workers look for the paths through a vertex, and for the joins of a class, where
    /// there are very many of them; the number of workers changes no result.
    ///
    /// `Spent` changes nothing. After `Memory` the graph and the counts are those from before, and
    /// the engine is spent.
    ///
    /// Time: O(n) for each step; for each path that it adds as many comparisons as the logarithm of the
    /// paths of its pair; for each that it takes away a look at the paths of its pair and at the
    /// extensions of its two parts; and for each other path that a cleaning step finds at its vertex O(1).
    pub fn star<R: Threads + Sync, G: Gate>(
        &mut self,
        rt: &R,
        star: &Star,
        workers: u32,
        gate: &G,
    ) -> Result<Change, EngineError>
        requires same { star.now.vertices ≡ self.old.graph.vertices }
        requires few { length self.old.vertices < MOST_UPDATES }
        requires workers { IsWorkerCount workers }
        ensures advance { OnOk result (Advance self.old (Star_update star.now) self.new) }
        ensures change { IfOk result (IsChange self.old self.new) }
        ensures spent { (result ≡ Err error.Spent) ↔ (self.old.spent ≡ true) }
        ensures unchanged { result ≡ Err error.Spent → self.new ≡ self.old }
        ensures memory { result ≡ Err error.Memory → IsSpentBy self.old self.new }
    {
        if self.spent {
            return Err(EngineError::Spent);
        }
        let v = star.vertex();
        self.graph.star_into(v, &mut self.before);
        self.graph.apply(star);
        let by = Workers {
            rt,
            alloc: self.alloc,
            count: workers,
            gate,
        };
        let made = update(
            &by,
            &mut self.book,
            &self.graph,
            &mut self.timeline,
            self.smooth,
            v,
            self.progress.steps,
        );
        match made {
            Ok(progress) => {
                let steps = progress.steps - self.progress.steps;
                self.timeline.record(v);
                self.progress = progress;
                Ok(Change {
                    number: self.timeline.len() as u64,
                    steps,
                    formed: progress.formed,
                    removed: progress.removed,
                })
            }
            Err(Memory) => {
                self.graph.apply(&self.before);
                self.spent = true;
                Err(EngineError::Memory)
            }
        }
    }

    /// Adds vertices without edges, so that there are n. It is an update, with one step that forms and
    /// removes nothing. After a refusal the engine is as it was.
    pub fn grow(&mut self, n: u32) -> Result<Change, EngineError>
        requires more { self.old.graph.vertices < n }
        requires most { n ≤ MOST_VERTICES }
        requires few { length self.old.vertices < MOST_UPDATES }
        ensures advance { OnOk result (Advance self.old (Grow_update n) self.new) }
        ensures change { IfOk result (IsChange self.old self.new) }
        ensures nothing { IfOk result (λ c. (c.formed ≡ 0) × (c.removed ≡ 0)) }
        ensures spent { (result ≡ Err error.Spent) ↔ (self.old.spent ≡ true) }
        ensures unchanged { OnErr result (self.new ≡ self.old) }
    {
        if self.spent {
            return Err(EngineError::Spent);
        }
        let Ok(mut graph) = Graph::new(self.alloc, n) else {
            return Err(EngineError::Memory);
        };
        let Ok(before) = Star::new(self.alloc, n, 0) else {
            return Err(EngineError::Memory);
        };
        let Ok(book) = wider_book(self.alloc, &self.book, &self.graph, n) else {
            return Err(EngineError::Memory);
        };
        if self.timeline.grow(self.alloc, n).is_err() {
            return Err(EngineError::Memory);
        }
        self.graph.widen_into(&mut graph);
        self.graph = graph;
        self.before = before;
        self.book = book;
        self.progress = Progress {
            steps: self.progress.steps + 1,
            formed: 0,
            removed: 0,
        };
        Ok(Change {
            number: self.timeline.len() as u64,
            steps: 1,
            formed: 0,
            removed: 0,
        })
    }

    /// Makes the kept paths anew, and forgets all of the past: the historical paths are the least walks
    /// of the present graph then. It may be called whether or not the engine is spent, and makes it
    /// fit again.
    ///
    /// The `Change` has the number of updates, one step, and the kept paths with an edge as formed;
    /// what `counts` says of the latest update stays. After `Memory` the graph and the counts are those
    /// from before, and the engine is spent.
    pub fn mend<R: Threads + Sync, G: Gate>(
        &mut self,
        rt: &R,
        workers: u32,
        gate: &G,
    ) -> Result<Change, Memory>
        requires few { self.old.steps < 2 ^ 62 }
        requires workers { IsWorkerCount workers }
        ensures advance { OnOk result (Advance self.old Mend self.new) }
        ensures change { IfOk result (IsMendChange self.new) }
        ensures memory { OnErr result (IsSpentBy self.old self.new) }
    {
        let by = Workers {
            rt,
            alloc: self.alloc,
            count: workers,
            gate,
        };
        match mend_step(&by, &self.graph, self.progress.steps) {
            Ok(made) => {
                self.book = made.book;
                self.progress.steps += 1;
                self.spent = false;
                Ok(Change {
                    number: self.number(),
                    steps: 1,
                    formed: made.formed,
                    removed: 0,
                })
            }
            Err(Memory) => {
                self.spent = true;
                Err(Memory)
            }
        }
    }

    /// Whether memory ran out in an update or a mend. No reader takes memory, and all but `birth` are O(1).
    pub fn is_spent(&self) -> bool
        ensures { result ≡ self.now.spent }
    {
        self.spent
    }

    /// The number of vertices.
    pub fn vertices(&self) -> u32
        ensures vertices { result ≡ self.now.graph.vertices }
        ensures range { IsVertexCount result }
    {
        self.graph.vertices()
    }

    /// The number of updates.
    pub fn number(&self) -> u64
        ensures { result ≡ length self.now.vertices }
    {
        self.timeline.len() as u64
    }

    /// The number of steps, whether or not the engine is spent.
    pub fn steps(&self) -> u64
        ensures steps { result ≡ self.now.steps }
        ensures most { result ≤ 2 ^ 62 + 42 * length self.now.vertices }
    {
        self.progress.steps
    }

    /// The present graph.
    pub fn graph(&self) -> &Graph
        ensures graph { result.now ≡ self.now.graph }
    {
        &self.graph
    }

    /// The book of the kept paths.
    pub fn book(&self) -> &Book
        requires { self.now.spent ≡ false }
        ensures { result.now ≡ self.now.book }
    {
        &self.book
    }

    /// The least walk from x to y, and none exactly where there is no walk.
    pub fn least(&self, x: u32, y: u32) -> Option<Least<'_>>
        requires not_spent { self.now.spent ≡ false }
        requires from { x < self.now.graph.vertices }
        requires to { y < self.now.graph.vertices }
        ensures { MatchOption result (HasNoWalk self.now.graph x y) (IsLeastPath self.now x y) }
    {
        let id = self.book.least(x, y)?;
        Some(Least::new(&self.book, id))
    }

    /// How much the engine did and keeps.
    pub fn counts(&self) -> Counts
        requires { self.now.spent ≡ false }
        ensures seen { AreCounts self.now result }
        ensures counts { (commands : List Command) → Stands self.now commands
            → CountsAre self.now.opening self.now.smooth commands (numbers result) }
    {
        Counts {
            updates: self.number(),
            steps: self.progress.steps,
            paths: self.book.count_paths(),
            historical: self.book.count_historical(),
            formed: self.progress.formed,
            removed: self.progress.removed,
        }
    }

    /// The number of the step that added the kept path with these vertices, 0 where it is a single
    /// vertex, and none exactly where it is not kept. O(n) for each vertex of the list.
    pub fn birth(&self, list: &[u32]) -> Option<u64>
        requires not_spent { self.now.spent ≡ false }
        requires some { 0 < length list.now }
        requires inside { All (λ v. v < self.now.graph.vertices) list.now }
        ensures seen { MatchOption result (IsKeptIn (paths_of self.now) list.now → ⊥)
            (HasBirthIn (paths_of self.now) list.now) }
        ensures birth { (commands : List Command) → Stands self.now commands
            → MatchOption result (IsKept self.now.opening self.now.smooth commands list.now → ⊥)
            (HasBirth self.now.opening self.now.smooth commands list.now) }
    {
        self.book.birth_of(list)
    }
}
