//! The ids of one bucket.

ghost use Rattle.std.specs.Prelude.{◌≡◌, ◌==◌, ◌∷◌, ◌++◌, [], length, OnOk, OnErr};
ghost use Rattle.weight_classes.specs.Ids.{ids_in};

use apsp_model::Memory;
use path_arena::PathId;
use smallvec::SmallVec;
use std::alloc::Global;

/// Up to four ids stand in the list itself. With fewer it would be no smaller: the vector of a longer
/// list needs that room.
pub(crate) type List = SmallVec<PathId, 4>;

/// Ids of one weight and number of edges. Mostly there is one, which needs no list.
#[derive(Drop)]
pub(crate) enum Ids {
    Empty,
    One(PathId),
    Several(List),
}

impl Ids {
    pub(crate) fn len(&self) -> usize
        ensures { result ≡ length (ids_in self.now) }
    {
        match self {
            Ids::Empty => 0,
            Ids::One(_) => 1,
            Ids::Several(list) => list.len(),
        }
    }

    pub(crate) fn is_empty(&self) -> bool
        ensures { result ≡ (length (ids_in self.now) == 0) }
    {
        self.len() == 0
    }

    pub(crate) fn as_slice(&self) -> &[PathId]
        ensures { result.now ≡ ids_in self.now }
    {
        match self {
            Ids::Empty => &[],
            Ids::One(id) => std::slice::from_ref(id),
            Ids::Several(list) => list.as_slice(),
        }
    }

    /// Puts an id behind the others. Memory changes nothing.
    pub(crate) fn push(&mut self, alloc: Global, id: PathId) -> Result<(), Memory>
        ensures ok { OnOk result (ids_in self.new ≡ ids_in self.old ++ id ∷ []) }
        ensures err { OnErr result (self.new ≡ self.old) }
    {
        match self {
            Ids::Empty => *self = Ids::One(id),
            Ids::One(first) => *self = Ids::Several(two(alloc, *first, id)),
            Ids::Several(list) => list.push(id).map_err(|_| Memory)?,
        }
        Ok(())
    }
}

/// Both stand in the list itself.
fn two(alloc: Global, first: PathId, second: PathId) -> List
    ensures { result.items ≡ first ∷ second ∷ [] }
{
    let mut list = List::new(alloc);
    list.push_reserved(first);
    list.push_reserved(second);
    list
}
