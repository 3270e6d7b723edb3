//! What is done before the first class.

ghost use Rattle.std.specs.Prelude.{◌≡◌, ℕ, ◌<◌, ◌∷◌, [], Some, OnOk, OnErr, Contains};
ghost use Rattle.apsp_model.specs.Graph.{weight_at};
ghost use Rattle.apsp_model.specs.Settled.{IsReady, AreSingles};
ghost use Rattle.apsp_model.specs.Walk.{IsOnceEach};
ghost use Rattle.path_arena.specs.Arena.{IsLive};
ghost use Rattle.path_book.specs.Book.{IsBook, IsNewList, kept_paths};
ghost use Rattle.fixup.specs.Starts.{IsEdgeFormed};
ghost use Rattle.fixup.specs.Growth.{HeadsAreHeld, EdgesAreFormed, RowsAreFormed, ExactlyTheseAreHeld};

use apsp_model::Memory;
use graph_store::Graph;
use path_arena::{Arena, PathId};
use path_book::Book;
use std::alloc::Global;
use weight_classes::Classes;

/// Keeps the edges at v.
pub(crate) fn form_edges(book: &mut Book, graph: &Graph, v: u32, birth: u64) -> Result<(), Memory>
    requires same { book.old.arena.vertices ≡ graph.now.vertices }
    requires inside { v < graph.now.vertices }
    requires ready { IsReady graph.now v (kept_paths book.old) }
    ensures formed { OnOk result
        (EdgesAreFormed graph.now v birth book.old graph.now.vertices graph.now.vertices book.new) }
    ensures lawful { OnErr result (IsBook book.new) }
{
    let n = graph.vertices();
    book.show_lawful();
    'edges: for u in 0..n {
        form_edge(book, graph, v, u, birth)?;
        form_edge(book, graph, u, v, birth)?;
    }
    Ok(())
}

/// Keeps all edges of the graph, row by row, in a book that keeps the single vertices alone.
pub(crate) fn form_rows(book: &mut Book, graph: &Graph, birth: u64) -> Result<(), Memory>
    requires same { book.old.arena.vertices ≡ graph.now.vertices }
    requires alone { AreSingles graph.now.vertices (kept_paths book.old) }
    ensures formed { OnOk result (RowsAreFormed graph.now birth book.old graph.now.vertices 0 book.new) }
    ensures lawful { OnErr result (IsBook book.new) }
{
    let n = graph.vertices();
    book.show_lawful();
    'rows: for u in 0..n {
        'edges: for v in 0..n {
            form_edge(book, graph, u, v, birth)?;
        }
    }
    Ok(())
}

/// Keeps an edge where the graph has it.
fn form_edge(book: &mut Book, graph: &Graph, from: u32, to: u32, birth: u64) -> Result<(), Memory>
    requires same { book.old.arena.vertices ≡ graph.now.vertices }
    requires begins { from < graph.now.vertices }
    requires ends { to < graph.now.vertices }
    requires new { (w : ℕ) → weight_at graph.now from to ≡ Some w → IsNewList book.old (from ∷ to ∷ []) }
    ensures formed { OnOk result (IsEdgeFormed graph.now book.old from to birth book.new) }
    ensures lawful { IsBook book.new }
    ensures vertices { OnOk result (book.new.arena.vertices ≡ book.old.arena.vertices) }
{
    book.show_lawful();
    if let Some(weight) = graph.weight(from, to) {
        book.form_edge(from, to, weight, birth)?;
    }
    Ok(())
}

/// Holds the least kept paths of the pairs that are not historical.
pub(crate) fn queue_heads(
    alloc: Global,
    book: &mut Book,
    classes: &mut Classes,
) -> Result<(), Memory>
    requires start { ExactlyTheseAreHeld book.old.arena [] classes.old }
    ensures same { book.new ≡ book.old }
    ensures queued { OnOk result (HeadsAreHeld book.old classes.new) }
{
    let mut heads = Vec::new(alloc);
    book.pending_leasts(&mut heads)?;
    hold_all(book.arena(), classes, &heads)
}

/// Holds these paths.
fn hold_all(arena: &Arena, classes: &mut Classes, heads: &[PathId]) -> Result<(), Memory>
    requires start { ExactlyTheseAreHeld arena.now [] classes.old }
    requires live { (id : ℕ) → Contains heads.now id → IsLive arena.now id }
    requires once { IsOnceEach heads.now }
    ensures held { OnOk result (ExactlyTheseAreHeld arena.now heads.now classes.new) }
{
    'heads: for &id in heads {
        classes.push(arena, id)?;
    }
    Ok(())
}
