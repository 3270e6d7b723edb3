//! What a certificate states, as two tables with a cell for each pair of vertices.
ghost use Rattle.std.specs.Prelude.{◌≡◌, ◌<◌, ◌*◌, ◌^◌, replicate, IfOk, IsTrue, None, option_map};
ghost use Rattle.std.specs.FinMap as map;
ghost use Rattle.apsp_model.specs.Graph.{weight_at, no_edges};
ghost use Rattle.apsp_model.specs.Stated.{entry_at};
ghost use Rattle.certificate.specs.Grammar.{IsWritable};
ghost use Rattle.graph_store.specs.Making.{IsVertexCount};
ghost use Rattle.version_face.specs.Entries.{stated};
ghost use Rattle.certificate.specs.Reading.{edge_fits, pair_fits};
ghost use Rattle.certificate.specs.Answer.{edge_item, pair_item};
ghost use Rattle.certificate.specs.Inside.{with_stated_edge, with_pair};

use crate::MOST_DIGITS;
use crate::items::{Edge, Pair};
use std::alloc::{AllocError, Global};
use std::marker::Model;
use version_face::Entry;

/// A number, a graph and an entry for some pairs of different vertices, each number in its range.
#[derive(Drop)]
pub struct Stated {
    number: u64,
    vertices: u32,
    weights: Vec<Option<u32>>,
    entries: Vec<Option<Entry>>,
}

impl Model for Stated {
    ghost use Rattle.apsp_model.specs.Stated.{Stated as Stated_model, stated_code};
    ghost use Rattle.certificate.specs.Inside.{stated_in, AreTables};

    ghost Value = { Stated_model };

    ghost coded = { stated_code };

    ghost view = { λ s. stated_in s.number s.vertices s.weights.items s.entries.items };

    ghost invariant = { λ s. AreTables s.number s.vertices s.weights.items s.entries.items };
}

impl Stated {
    /// No edges and no entries. It takes two cells for each pair of the n vertices.
    pub(crate) fn new(alloc: Global, number: u64, n: u32) -> Result<Stated, AllocError>
        requires count { IsVertexCount n }
        requires digits { number < 10 ^ MOST_DIGITS }
        ensures { IfOk result (λ s. s ≡ record { number = number; graph = no_edges n; entries = map.empty }) }
    {
        let count = n as usize * n as usize;
        Ok(Stated {
            number,
            vertices: n,
            weights: no_weights(alloc, count)?,
            entries: no_entries(alloc, count)?,
        })
    }

    /// Adds an edge.
    pub(crate) fn put_edge(&mut self, edge: &Edge)
        requires { IsTrue (edge_fits self.old.graph.vertices (edge_item edge.now)) }
        ensures { self.new ≡ with_stated_edge self.old (edge_item edge.now) }
    {
        let place = edge.from as usize * self.vertices as usize + edge.to as usize;
        self.weights[place] = Some(edge.weight);
    }

    /// Adds the entry of a pair.
    pub(crate) fn put_pair(&mut self, pair: &Pair)
        requires fits { IsTrue (pair_fits self.old.graph.vertices (pair_item pair.now)) }
        requires digits { pair.now.entry.dist < 10 ^ MOST_DIGITS }
        ensures { self.new ≡ with_pair self.old (pair_item pair.now) }
    {
        let place = pair.from as usize * self.vertices as usize + pair.to as usize;
        self.entries[place] = Some(pair.entry);
    }

    /// The number. It takes no memory, like the other readers.
    pub fn number(&self) -> u64
        ensures number { result ≡ self.now.number }
        ensures range { IsWritable self.now }
    {
        self.number
    }

    /// The number of vertices.
    pub fn vertices(&self) -> u32
        ensures vertices { result ≡ self.now.graph.vertices }
        ensures range { IsWritable self.now }
    {
        self.vertices
    }

    /// The weight of the edge from u to v, if there is one. One look-up.
    pub fn weight(&self, u: u32, v: u32) -> Option<u32>
        requires from { u < self.now.graph.vertices }
        requires to { v < self.now.graph.vertices }
        ensures weight { result ≡ weight_at self.now.graph u v }
        ensures range { IsWritable self.now }
    {
        self.weights[u as usize * self.vertices as usize + v as usize]
    }

    /// The entry of a pair, if there is one. For a vertex and itself it is 0, 0 and the vertex.
    pub fn entry(&self, x: u32, y: u32) -> Option<Entry>
        requires from { x < self.now.graph.vertices }
        requires to { y < self.now.graph.vertices }
        ensures entry { option_map stated result ≡ entry_at self.now x y }
        ensures range { IsWritable self.now }
    {
        let n = self.vertices as usize;
        if x == y {
            return Some(Entry {
                dist: 0,
                hops: 0,
                next: x,
            });
        }
        self.entries[x as usize * n + y as usize]
    }
}

fn no_weights(alloc: Global, count: usize) -> Result<Vec<Option<u32>>, AllocError>
    ensures { IfOk result (λ v. v.items ≡ replicate count None) }
{
    vec![in alloc; None; count]
}

fn no_entries(alloc: Global, count: usize) -> Result<Vec<Option<Entry>>, AllocError>
    ensures { IfOk result (λ v. v.items ≡ replicate count None) }
{
    vec![in alloc; None; count]
}
