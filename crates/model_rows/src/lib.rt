//! Worked examples of the definitions: which lists are least, historical and kept, with which births
//! and counts, in small networks. Each is the contract of a function that does nothing; the networks
//! stand in `specs/Networks.antt`.
#![tactic(auto)]

ghost use Rattle.std.specs.Prelude.{◌≡◌, ℕ, ◌↔◌, Bool, true, false, List, [], ◌∷◌, Contains};
ghost use Rattle.apsp_model.specs.Command.{graph_of, Mend, Grow_update};
ghost use Rattle.apsp_model.specs.Counts.{CountsAre};
ghost use Rattle.apsp_model.specs.Kept.{HasBirth, IsHistorical, IsKept};
ghost use Rattle.apsp_model.specs.Least.{HasNoWalk, IsLeast};
ghost use Rattle.apsp_model.specs.Walk.{weight_of};
ghost use Rattle.model_rows.specs.Networks.{updates, two_stars, way_closed, diamond, shortcut, halves, there_and_back, one_edge, heaviest, weightless};

/// The edge 0 2 of weight 9 was least once. It stays historical when the way 0 1 2 of weight 7 appears, with its birth,
/// and the way is kept.
pub fn what_was_least_stays_historical()
    ensures least { IsLeast (graph_of 3 (updates 3 two_stars)) 0 2 (0 ∷ 1 ∷ 2 ∷ []) }
    ensures weight { weight_of (graph_of 3 (updates 3 two_stars)) (0 ∷ 1 ∷ 2 ∷ []) ≡ 7 }
    ensures kept { (p : List ℕ) → IsKept 3 false (updates 3 two_stars) p
        ↔ Contains
        ((2 ∷ []) ∷ (1 ∷ []) ∷ (0 ∷ []) ∷ (1 ∷ 2 ∷ []) ∷ (0 ∷ 2 ∷ []) ∷ (0 ∷ 1 ∷ []) ∷ (0 ∷ 1 ∷ 2 ∷ []) ∷ []) p }
    ensures stays { IsHistorical 3 false (updates 3 two_stars) (0 ∷ 2 ∷ []) }
    ensures birth { HasBirth 3 false (updates 3 two_stars) (0 ∷ 2 ∷ []) 1 }
    ensures counts { CountsAre 3 false (updates 3 two_stars)
        (record { updates = 2; steps = 2; paths = 4; historical = 4; formed = 3; removed = 1 }) }
{}

/// With smoothing the step at vertex 0 is made again, as step 3: the edge 0 2 is formed anew and is historical no
/// longer.
pub fn cleaning_drops_what_is_not_least()
    ensures dropped { ¬ IsHistorical 3 true (updates 3 two_stars) (0 ∷ 2 ∷ []) }
    ensures birth { HasBirth 3 true (updates 3 two_stars) (0 ∷ 2 ∷ []) 3 }
    ensures counts { CountsAre 3 true (updates 3 two_stars)
        (record { updates = 2; steps = 3; paths = 4; historical = 3; formed = 6; removed = 4 }) }
{}

/// Vertex 1 loses its edges; the edge 0 2 avoids it, is least again, and has the birth that it had.
pub fn a_path_that_no_step_touches_keeps_its_birth()
    ensures least { IsLeast (graph_of 3 (updates 3 way_closed)) 0 2 (0 ∷ 2 ∷ []) }
    ensures weight { weight_of (graph_of 3 (updates 3 way_closed)) (0 ∷ 2 ∷ []) ≡ 9 }
    ensures birth { HasBirth 3 false (updates 3 way_closed) (0 ∷ 2 ∷ []) 1 }
    ensures counts { CountsAre 3 false (updates 3 way_closed)
        (record { updates = 3; steps = 3; paths = 1; historical = 1; formed = 0; removed = 3 }) }
{}

/// Two ways from 0 to 3 have one weight and length: both are kept, and the lexicographically first one is least and
/// alone historical.
pub fn of_two_ways_the_first_list_is_least()
    ensures least { IsLeast (graph_of 4 (updates 4 diamond)) 0 3 (0 ∷ 1 ∷ 3 ∷ []) }
    ensures weight { weight_of (graph_of 4 (updates 4 diamond)) (0 ∷ 1 ∷ 3 ∷ []) ≡ 3 }
    ensures kept { (p : List ℕ) → IsKept 4 false (updates 4 diamond) p
        ↔ Contains
        ((3 ∷ []) ∷ (2 ∷ []) ∷ (1 ∷ []) ∷ (0 ∷ []) ∷ (2 ∷ 3 ∷ []) ∷ (1 ∷ 3 ∷ []) ∷ (0 ∷ 2 ∷ []) ∷ (0 ∷ 1 ∷ [])
        ∷ (0 ∷ 2 ∷ 3 ∷ []) ∷ (0 ∷ 1 ∷ 3 ∷ []) ∷ []) p }
    ensures other { ¬ IsHistorical 4 false (updates 4 diamond) (0 ∷ 2 ∷ 3 ∷ []) }
    ensures counts { CountsAre 4 false (updates 4 diamond)
        (record { updates = 2; steps = 2; paths = 6; historical = 5; formed = 4; removed = 0 }) }
{}

/// An edge of the weight of both ways is least, since it has fewer edges; paths through its ends are formed anew.
pub fn fewer_edges_come_first()
    ensures least { IsLeast (graph_of 4 (updates 4 shortcut)) 0 3 (0 ∷ 3 ∷ []) }
    ensures weight { weight_of (graph_of 4 (updates 4 shortcut)) (0 ∷ 3 ∷ []) ≡ 3 }
    ensures birth { HasBirth 4 false (updates 4 shortcut) (0 ∷ 1 ∷ 3 ∷ []) 3 }
    ensures counts { CountsAre 4 false (updates 4 shortcut)
        (record { updates = 3; steps = 3; paths = 7; historical = 5; formed = 5; removed = 4 }) }
{}

/// The edges 0 1 and 1 2 become least at once, and their join is kept once.
pub fn halves_of_one_weight_are_joined_once()
    ensures kept { (p : List ℕ) → IsKept 3 false (updates 3 halves) p
        ↔ Contains ((2 ∷ []) ∷ (1 ∷ []) ∷ (0 ∷ []) ∷ (1 ∷ 2 ∷ []) ∷ (0 ∷ 1 ∷ []) ∷ (0 ∷ 1 ∷ 2 ∷ []) ∷ []) p }
    ensures counts { CountsAre 3 false (updates 3 halves)
        (record { updates = 1; steps = 1; paths = 3; historical = 3; formed = 3; removed = 0 }) }
{}

/// The list 0 1 0 has a vertex twice, and is not kept.
pub fn there_and_back_is_never_kept()
    ensures kept { (p : List ℕ) → IsKept 2 false (updates 2 there_and_back) p
        ↔ Contains ((1 ∷ []) ∷ (0 ∷ []) ∷ (0 ∷ 1 ∷ []) ∷ (1 ∷ 0 ∷ []) ∷ []) p }
    ensures counts { CountsAre 2 false (updates 2 there_and_back)
        (record { updates = 1; steps = 1; paths = 2; historical = 2; formed = 2; removed = 0 }) }
{}

/// The second update has no cleaning step, because time 1 is not the latest update of vertex 0; the third has one, for
/// time 2.
pub fn only_latest_updates_are_cleaned()
    ensures birth { HasBirth 2 true (updates 2 one_edge) (0 ∷ 1 ∷ []) 4 }
    ensures counts { CountsAre 2 true (updates 2 one_edge)
        (record { updates = 3; steps = 4; paths = 1; historical = 1; formed = 2; removed = 2 }) }
{}

/// Two edges of the greatest weight make a walk of twice that weight; a vertex reaches itself with weight 0, and
/// nothing against the edges.
pub fn the_greatest_weights_add_up()
    ensures least { IsLeast (graph_of 3 (updates 3 heaviest)) 0 2 (0 ∷ 1 ∷ 2 ∷ []) }
    ensures weight { weight_of (graph_of 3 (updates 3 heaviest)) (0 ∷ 1 ∷ 2 ∷ []) ≡ 8589934590 }
    ensures itself { IsLeast (graph_of 3 (updates 3 heaviest)) 2 2 (2 ∷ []) }
    ensures nothing { weight_of (graph_of 3 (updates 3 heaviest)) (2 ∷ []) ≡ 0 }
    ensures none { HasNoWalk (graph_of 3 (updates 3 heaviest)) 2 0 }
{}

/// Where all weighs 0, the walk with fewer edges is least, and a cycle adds nothing: it is no path, and is not kept.
pub fn of_walks_of_weight_0_the_fewest_edges_are_least()
    ensures least { IsLeast (graph_of 3 (updates 3 weightless)) 0 2 (0 ∷ 2 ∷ []) }
    ensures weight { weight_of (graph_of 3 (updates 3 weightless)) (0 ∷ 1 ∷ 2 ∷ []) ≡ 0 }
    ensures cycle { IsLeast (graph_of 3 (updates 3 weightless)) 0 0 (0 ∷ []) }
    ensures kept { (p : List ℕ) → IsKept 3 false (updates 3 weightless) p
        ↔ Contains
        ((2 ∷ []) ∷ (1 ∷ []) ∷ (0 ∷ []) ∷ (1 ∷ 2 ∷ []) ∷ (0 ∷ 2 ∷ []) ∷ (0 ∷ 1 ∷ []) ∷ (1 ∷ 0 ∷ [])
        ∷ (0 ∷ 1 ∷ 2 ∷ []) ∷ (1 ∷ 0 ∷ 2 ∷ []) ∷ []) p }
    ensures birth { HasBirth 3 false (updates 3 weightless) (0 ∷ 2 ∷ []) 1 }
    ensures counts { CountsAre 3 false (updates 3 weightless)
        (record { updates = 2; steps = 2; paths = 6; historical = 4; formed = 5; removed = 0 }) }
{}

/// A mend forgets that the edge 0 2 was least once. All births are that of the mend, which is a step and no update, and
/// the counts of the latest update stand.
pub fn a_mend_forgets_what_was_least()
    ensures kept { (p : List ℕ) → IsKept 3 false (Mend ∷ updates 3 two_stars) p
        ↔ Contains
        ((2 ∷ []) ∷ (1 ∷ []) ∷ (0 ∷ []) ∷ (1 ∷ 2 ∷ []) ∷ (0 ∷ 2 ∷ []) ∷ (0 ∷ 1 ∷ []) ∷ (0 ∷ 1 ∷ 2 ∷ []) ∷ []) p }
    ensures forgotten { ¬ IsHistorical 3 false (Mend ∷ updates 3 two_stars) (0 ∷ 2 ∷ []) }
    ensures birth { HasBirth 3 false (Mend ∷ updates 3 two_stars) (0 ∷ 2 ∷ []) 3 }
    ensures counts { CountsAre 3 false (Mend ∷ updates 3 two_stars)
        (record { updates = 2; steps = 3; paths = 4; historical = 3; formed = 3; removed = 1 }) }
{}

/// A grow adds the single vertex 3, keeps each birth, and forms and removes nothing.
pub fn a_grow_keeps_births()
    ensures kept { (p : List ℕ) → IsKept 3 false (Grow_update 4 ∷ updates 3 two_stars) p
        ↔ Contains
        ((3 ∷ []) ∷ (2 ∷ []) ∷ (1 ∷ []) ∷ (0 ∷ []) ∷ (1 ∷ 2 ∷ []) ∷ (0 ∷ 2 ∷ []) ∷ (0 ∷ 1 ∷ []) ∷ (0 ∷ 1 ∷ 2 ∷ []) ∷ []) p }
    ensures stays { IsHistorical 3 false (Grow_update 4 ∷ updates 3 two_stars) (0 ∷ 2 ∷ []) }
    ensures birth { HasBirth 3 false (Grow_update 4 ∷ updates 3 two_stars) (0 ∷ 2 ∷ []) 1 }
    ensures counts { CountsAre 3 false (Grow_update 4 ∷ updates 3 two_stars)
        (record { updates = 3; steps = 3; paths = 4; historical = 4; formed = 0; removed = 0 }) }
{}

/// Before any update the single vertices are kept, with birth 0, and all counts are 0.
pub fn before_any_update()
    ensures birth { HasBirth 1 false [] (0 ∷ []) 0 }
    ensures counts { CountsAre 1 false []
        (record { updates = 0; steps = 0; paths = 0; historical = 0; formed = 0; removed = 0 }) }
{}
