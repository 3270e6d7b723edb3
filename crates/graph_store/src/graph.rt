//! The graph, as a table of weights.

ghost use Rattle.std.specs.Prelude.{◌≡◌, ◌<◌, ◌≤◌, ◌*◌, length, replicate, IfOk, Option, None};
ghost use Rattle.apsp_model.specs.Graph.{weight_at, no_edges, widened, IsGraph};
ghost use Rattle.apsp_model.specs.Star.{star_of, star_at, IsStar};
ghost use Rattle.graph_store.specs.Making.{IsMakeAnswer};
ghost use Rattle.graph_store.specs.Rows.{HasRow, HasColumn, HasStar, IsColumn, wide_cell, HasRowsUpto};

use crate::star::Star;
use apsp_model::MOST_VERTICES;
use std::alloc::{AllocError, Global};
use std::marker::Model;

/// Why a graph could not be made.
#[derive(Clone, Copy, Debug, PartialEq, Eq)]
pub enum MakeError {
    /// The number of vertices is outside 1 to `MOST_VERTICES`.
    Vertices = 1,
    /// Want of memory.
    Memory,
}

impl From<AllocError> for MakeError {
    ghost use Rattle.graph_store.specs.declared.graph.MakeError.TheVariants.{Memory};

    ghost from_gives = { λ _ e. e ≡ Memory };

    fn from(_e: AllocError) -> MakeError {
        MakeError::Memory
    }
}

/// A directed graph with weights, as its rows in one allocation: row u has a cell for each vertex v
/// with the weight of the edge from u to v.
#[derive(Debug, Drop)]
pub struct Graph {
    vertices: u32,
    cells: Vec<Option<u32>>,
}

impl Model for Graph {
    ghost use Rattle.apsp_model.specs.Graph.{Graph as Graph_model, graph_code};
    ghost use Rattle.graph_store.specs.Rows.{graph_of_rows, IsGraphRows};

    ghost Value = { Graph_model };

    ghost coded = { graph_code };

    ghost view = { λ g. graph_of_rows g.vertices g.cells.items };

    ghost invariant = { λ g. IsGraphRows g.vertices g.cells.items };
}

impl Graph {
    /// The graph with n vertices and no edges. It takes n² cells, and the number of vertices is
    /// tested before memory is taken.
    pub fn new(alloc: Global, n: u32) -> Result<Graph, MakeError>
        ensures ok { IfOk result (λ g. g ≡ no_edges n) }
        ensures graph { IfOk result IsGraph }
        ensures answer { IsMakeAnswer n result }
    {
        if n < 1 || n > MOST_VERTICES {
            return Err(MakeError::Vertices);
        }
        let cells = no_cells(alloc, n as usize * n as usize)?;
        Ok(Graph { vertices: n, cells })
    }

    /// The number of vertices.
    pub fn vertices(&self) -> u32
        ensures vertices { result ≡ self.now.vertices }
        ensures graph { IsGraph self.now }
    {
        self.vertices
    }

    /// The weight of the edge from u to v, if there is one. One look-up.
    pub fn weight(&self, u: u32, v: u32) -> Option<u32>
        requires from { u < self.now.vertices }
        requires to { v < self.now.vertices }
        ensures weight { result ≡ weight_at self.now u v }
        ensures graph { IsGraph self.now }
    {
        self.cells[u as usize * self.vertices as usize + v as usize]
    }

    /// Replaces all edges at the star's vertex by those of the star, in O(n).
    pub fn apply(&mut self, star: &Star)
        requires { star.now.vertices ≡ self.old.vertices }
        ensures after { self.new ≡ star_of self.old star.now }
        ensures graph { IsGraph self.new }
    {
        put_star(&mut self.cells, &star.out, &star.into, star.vertex as usize);
    }

    /// Makes the star that of v as it is now, in O(n).
    pub fn star_into(&self, v: u32, star: &mut Star)
        requires inside { v < self.now.vertices }
        requires same { star.old.vertices ≡ self.now.vertices }
        ensures star { star.new ≡ star_at self.now v }
        ensures is_star { IsStar star.new }
    {
        let n = self.vertices as usize;
        let row = v as usize * n;
        star.vertex = v;
        star.out.copy_from_slice(&self.cells[row..row + n]);
        take_column(&self.cells, v as usize, &mut star.into);
    }

    /// Makes the other graph equal to this one, in O(n²).
    pub fn copy_into(&self, other: &mut Graph)
        requires { other.old.vertices ≡ self.now.vertices }
        ensures copy { other.new ≡ self.now }
        ensures graph { IsGraph other.new }
    {
        other.cells.copy_from_slice(&self.cells);
    }

    /// Gives the other graph, which has at least as many vertices, exactly the edges of this one, in
    /// O(m²) for its m vertices.
    pub fn widen_into(&self, other: &mut Graph)
        requires { self.now.vertices ≤ other.old.vertices }
        ensures wider { other.new ≡ widened self.now other.old.vertices }
        ensures graph { IsGraph other.new }
    {
        let count = other.vertices as usize;
        put_rows(&mut other.cells, count, &self.cells, self.vertices as usize);
    }
}

/// So many cells, and no edge in any of them.
pub(crate) fn no_cells(alloc: Global, count: usize) -> Result<Vec<Option<u32>>, AllocError>
    ensures { IfOk result (λ v. v.items ≡ replicate count None) }
{
    vec![in alloc; None; count]
}

/// Writes the row of the cells with this number, and then their column with it.
fn put_star(cells: &mut [Option<u32>], row: &[Option<u32>], column: &[Option<u32>], number: usize)
    requires inside { number < length row.now }
    requires same { length column.now ≡ length row.now }
    requires size { length cells.old ≡ length row.now * length row.now }
    ensures { HasStar (length row.now) number row.now column.now cells.old cells.new }
{
    put_row(cells, row, number);
    put_column(cells, column, number);
}

/// Writes rows of n cells into a table of rows of m cells, and no edge into all its other cells.
fn put_rows(wide: &mut [Option<u32>], m: usize, rows: &[Option<u32>], n: usize)
    requires wide_size { length wide.old ≡ m * m }
    requires size { length rows.now ≡ n * n }
    requires fewer { n ≤ m }
    ensures { HasRowsUpto m n m 0 rows.now wide.new }
{
    'rows: for u in 0..m {
        'cells: for v in 0..m {
            wide[u * m + v] = cell_of(rows, n, u, v);
        }
    }
}

/// The cell of u and v in a table of rows of n cells, and no edge beyond it.
fn cell_of(rows: &[Option<u32>], n: usize, u: usize, v: usize) -> Option<u32>
    requires { length rows.now ≡ n * n }
    ensures { result ≡ wide_cell n rows.now u v }
{
    if u < n && v < n {
        rows[u * n + v]
    } else {
        None
    }
}

/// Writes the row of the cells with this number.
fn put_row(cells: &mut [Option<u32>], row: &[Option<u32>], number: usize)
    requires inside { number < length row.now }
    requires size { length cells.old ≡ length row.now * length row.now }
    ensures { HasRow (length row.now) number row.now cells.old cells.new }
{
    let start = number * row.len();
    cells[start..start + row.len()].copy_from_slice(row);
}

/// Writes the column of the cells with this number.
fn put_column(cells: &mut [Option<u32>], column: &[Option<u32>], number: usize)
    requires inside { number < length column.now }
    requires size { length cells.old ≡ length column.now * length column.now }
    ensures { HasColumn (length column.now) number (length column.now) column.now cells.old cells.new }
{
    let n = column.len();
    for (u, weight) in column.iter().enumerate() {
        cells[u * n + number] = *weight;
    }
}

/// Reads the column of the cells with this number.
fn take_column(cells: &[Option<u32>], number: usize, column: &mut [Option<u32>])
    requires inside { number < length column.old }
    requires size { length cells.now ≡ length column.old * length column.old }
    ensures { IsColumn (length column.old) number (length column.old) cells.now column.new }
{
    let n = column.len();
    for u in 0..n {
        column[u] = cells[u * n + number];
    }
}
