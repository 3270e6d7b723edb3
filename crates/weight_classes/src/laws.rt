//! A law of the definitions, the contract of a function that does nothing.

ghost use Rattle.path_arena.specs.Arena.{Arena};
ghost use Rattle.weight_classes.specs.Classes.{AgreeOnRanks, Classes, ClassesFit};

/// Whether classes fit an arena depends on nothing of it but its number of vertices, and the weights
/// of the held ids, which are live.
pub fn law_fits()
    ensures { (c : Classes) (a b : Arena) → ClassesFit c a → AgreeOnRanks c a b → ClassesFit c b }
{}
