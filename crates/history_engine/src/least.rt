//! The least path of a pair.

ghost use Rattle.std.specs.Prelude.{◌≡◌};
ghost use Rattle.apsp_model.specs.Walk.{hops_of};
ghost use Rattle.path_arena.specs.Arena.{IsLive, list_of, weight_of_id};
ghost use Rattle.version_face.specs.Entries.{second_of};

use path_arena::{PathId, Vertices};
use path_book::Book;
use std::marker::Model;

/// The least walk of a pair of vertices, as the engine keeps it.
#[derive(Drop)]
pub struct Least<'a> {
    book: &'a Book,
    id: PathId,
}

impl<'a> Model for Least<'a> {
    ghost use Rattle.history_engine.specs.Least.{LeastPath, least_code};

    ghost Value = { LeastPath };

    ghost coded = { least_code };

    ghost view = { λ l. record { book = l.book.now; id = l.id } };

    ghost use Rattle.path_arena.specs.Arena.{IsLive};

    ghost invariant = { λ l. IsLive l.book.now.arena l.id };
}

impl<'a> Least<'a> {
    pub(crate) fn new(book: &'a Book, id: PathId) -> Least<'a>
        requires { IsLive book.now.arena id }
        ensures book { result.book ≡ book.now }
        ensures id { result.id ≡ id }
    {
        Least { book, id }
    }

    /// Its id in the engine's book. O(1), and takes no memory, like the other readers.
    pub fn id(&self) -> PathId
        ensures { result ≡ self.now.id }
    {
        self.id
    }

    /// Its weight.
    pub fn weight(&self) -> u64
        ensures { result ≡ weight_of_id self.now.book.arena self.now.id }
    {
        self.book.arena().weight(self.id)
    }

    /// Its number of edges.
    pub fn hops(&self) -> u32
        ensures { result ≡ hops_of (list_of self.now.book.arena self.now.id) }
    {
        self.book.arena().hops(self.id)
    }

    /// Its second vertex, and of a single vertex that vertex.
    #[tactic(auto, using(crate::proofs::Seconds::second_is))]
    pub(crate) fn second(&self) -> u32
        ensures { result ≡ second_of (list_of self.now.book.arena self.now.id) }
    {
        self.book.arena().second(self.id)
    }

    /// Its vertices, from the first to the last.
    pub fn vertices(&self) -> Vertices<'_>
        ensures { result ≡ list_of self.now.book.arena self.now.id }
    {
        self.book.arena().vertices(self.id)
    }
}
