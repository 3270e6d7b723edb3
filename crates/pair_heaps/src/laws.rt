//! A law of the definitions, the contract of a function that does nothing.

ghost use Rattle.path_arena.specs.Arena.{Arena};
ghost use Rattle.pair_heaps.specs.Heaps.{AgreeOnHeapIds, HeapsFit, Heaps};

/// Whether heaps fit an arena depends on nothing of it but its number of vertices, and the lists
/// and weights of the held ids.
pub fn law_fits()
    ensures { (h : Heaps) (a b : Arena) → HeapsFit h a → AgreeOnHeapIds h a b → HeapsFit h b }
{}
