//! The star of a vertex, as two rows of weights.

ghost use Rattle.std.specs.Prelude.{◌≡◌, ◌≢◌, ℕ, ◌<◌, ◌≤◌, length, IfOk, OnOk, OnErr, Option, Ok, Err};
ghost use Rattle.std.specs.FinMap as map;
ghost use Rattle.std.specs.Option.{ForSome};
ghost use Rattle.apsp_model.specs.Star.{IsStar};
ghost use Rattle.graph_store.specs.Making.{IsVertexCount, IsStarAnswer, no_star};
ghost use Rattle.graph_store.specs.Rows.{cell_at};
ghost use Rattle.graph_store.specs.Edges.{IsWeight, first_refusal, refusal_of, ok_unless, with_edge, with_maybe_edge};

use crate::graph::no_cells;
use apsp_model::MOST_WEIGHT;
use std::alloc::{AllocError, Global};
use std::marker::Model;

/// Why a star could not be made, or refuses an edge. The tests stand in this order.
#[derive(Clone, Copy, Debug, PartialEq, Eq)]
pub enum StarError {
    /// A vertex is not below the number of vertices.
    Vertex = 1,
    /// Both ends of the edge are the star's vertex.
    SelfEdge,
    /// The star has that edge already.
    Repeat,
    /// The weight is above `MOST_WEIGHT`.
    Weight,
    /// Want of memory.
    Memory,
}

impl From<AllocError> for StarError {
    ghost use Rattle.graph_store.specs.declared.star.StarError.TheVariants.{Memory};

    ghost from_gives = { λ _ e. e ≡ Memory };

    fn from(_e: AllocError) -> StarError {
        StarError::Memory
    }
}

/// All edges at one vertex: the weights of the edges from it, and of those to it, with a cell for
/// each vertex. The graph reads and writes its rows.
#[derive(Debug, Drop)]
pub struct Star {
    vertices: u32,
    pub(crate) vertex: u32,
    pub(crate) out: Vec<Option<u32>>,
    pub(crate) into: Vec<Option<u32>>,
}

impl Model for Star {
    ghost use Rattle.apsp_model.specs.Star.{Star as Star_model, star_code};
    ghost use Rattle.graph_store.specs.Rows.{star_of_rows, IsStarRows};

    ghost Value = { Star_model };

    ghost coded = { star_code };

    ghost view = { λ s. star_of_rows s.vertices s.vertex s.out.items s.into.items };

    ghost invariant = { λ s. IsStarRows s.vertices s.vertex s.out.items s.into.items };
}

impl Star {
    /// The star of v without edges, in a graph with n vertices.
    pub fn new(alloc: Global, n: u32, v: u32) -> Result<Star, StarError>
        requires { IsVertexCount n }
        ensures ok { IfOk result (λ s. s ≡ no_star n v) }
        ensures star { IfOk result IsStar }
        ensures answer { IsStarAnswer n v result }
    {
        if v >= n {
            return Err(StarError::Vertex);
        }
        let out = no_cells(alloc, n as usize)?;
        let into = no_cells(alloc, n as usize)?;
        Ok(Star {
            vertices: n,
            vertex: v,
            out,
            into,
        })
    }

    /// The number of vertices of the star's graph.
    pub fn vertices(&self) -> u32
        ensures vertices { result ≡ self.now.vertices }
        ensures star { IsStar self.now }
    {
        self.vertices
    }

    /// The vertex whose star it is.
    pub fn vertex(&self) -> u32
        ensures vertex { result ≡ self.now.vertex }
        ensures star { IsStar self.now }
    {
        self.vertex
    }

    /// The weight of the edge to u, if there is one.
    pub fn out_weight(&self, u: u32) -> Option<u32>
        requires { u < self.now.vertices }
        ensures weight { result ≡ map.get self.now.edges (self.now.vertex, u) }
        ensures star { IsStar self.now }
    {
        self.out[u as usize]
    }

    /// The weight of the edge from u, if there is one.
    pub fn in_weight(&self, u: u32) -> Option<u32>
        requires { u < self.now.vertices }
        ensures weight { result ≡ map.get self.now.edges (u, self.now.vertex) }
        ensures star { IsStar self.now }
    {
        self.into[u as usize]
    }

    /// Adds the edge to u. A refusal leaves the star unchanged, and want of memory never comes.
    pub fn set_out(&mut self, u: u32, w: u64) -> Result<(), StarError>
        ensures answer { result ≡ ok_unless tt (refusal_of self.old (self.old.vertex, u) u w) }
        ensures ok { OnOk result (self.new ≡ with_edge self.old (self.old.vertex, u) w) }
        ensures err { OnErr result (self.new ≡ self.old) }
        ensures star { IsStar self.new }
    {
        let weight = new_weight(self.vertex, &self.out, u, w)?;
        self.out[u as usize] = Some(weight);
        Ok(())
    }

    /// Adds the edge from u. A refusal leaves the star unchanged, and want of memory never comes.
    pub fn set_in(&mut self, u: u32, w: u64) -> Result<(), StarError>
        ensures answer { result ≡ ok_unless tt (refusal_of self.old (u, self.old.vertex) u w) }
        ensures ok { OnOk result (self.new ≡ with_edge self.old (u, self.old.vertex) w) }
        ensures err { OnErr result (self.new ≡ self.old) }
        ensures star { IsStar self.new }
    {
        let weight = new_weight(self.vertex, &self.into, u, w)?;
        self.into[u as usize] = Some(weight);
        Ok(())
    }

    /// Sets the edge to u, or takes it away.
    pub fn put_out(&mut self, u: u32, w: Option<u32>)
        requires inside { u < self.old.vertices }
        requires apart { u ≢ self.old.vertex }
        requires weight { ForSome w IsWeight }
        ensures after { self.new ≡ with_maybe_edge self.old (self.old.vertex, u) w }
        ensures star { IsStar self.new }
    {
        self.out[u as usize] = w;
    }
}

/// The weight of an edge between the star's vertex and u that its row hasn't got yet.
fn new_weight(vertex: u32, row: &[Option<u32>], u: u32, w: u64) -> Result<u32, StarError>
    ensures { result ≡ ok_unless w (first_refusal (length row.now) vertex (cell_at row.now u) u w) }
{
    if u as usize >= row.len() {
        return Err(StarError::Vertex);
    }
    if u == vertex {
        return Err(StarError::SelfEdge);
    }
    if row[u as usize].is_some() {
        return Err(StarError::Repeat);
    }
    if w > u64::from(MOST_WEIGHT) {
        return Err(StarError::Weight);
    }
    Ok(w as u32)
}
