//! The paths through a vertex are forgotten.

ghost use Rattle.std.specs.Prelude.{◌≡◌};
ghost use Rattle.apsp_model.specs.Graph.{Graph};
ghost use Rattle.apsp_model.specs.Star.{AgreeAway};
ghost use Rattle.apsp_model.specs.Settled.{IsCleaned, AreLocal, IsReady};
ghost use Rattle.path_book.specs.Book.{IsBook, kept_paths};
ghost use Rattle.path_book.specs.Through.{IsVictims};

use crate::listed::Victims;
use path_book::Book;

/// Forgets the listed paths, which are all the kept paths with an edge through the list's vertex.
/// What is left are the kept paths that avoid the vertex and the single vertices, each with its
/// weight, mark and birth. Where they were the local paths of a graph, what is left is what settling
/// starts from, in any graph that differs from that one at the vertex alone.
pub fn forget_all(book: &mut Book, list: &Victims)
    requires { IsVictims book.old list.now.vertex list.now.ids }
    ensures cleaned { IsCleaned list.now.vertex (kept_paths book.old) (kept_paths book.new) }
    ensures ready { (before graph : Graph) → AgreeAway list.now.vertex before graph
        → AreLocal before (kept_paths book.old) → IsReady graph list.now.vertex (kept_paths book.new) }
    ensures vertices { book.new.arena.vertices ≡ book.old.arena.vertices }
    ensures lawful { IsBook book.new }
{
    book.show_lawful();
    if list.ids().is_empty() {
        return;
    }
    book.forget_through(list.vertex(), list.ids());
}
