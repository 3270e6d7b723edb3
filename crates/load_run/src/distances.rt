//! How many pairs have a walk, and how far they are.

ghost use Rattle.std.specs.Prelude.{◌≡◌, ◌<◌, ◌≤◌, ◌*◌, length};
ghost use Rattle.apsp_model.specs.declared.TheConstants.{MOST_VERTICES, MOST_WEIGHT};
ghost use Rattle.apsp_model.specs.Stated.{IsLawful};
ghost use Rattle.load_run.specs.Report.{DistancesAre};
ghost use Rattle.load_run.specs.Rows.{RowDistancesAre};

use certificate::Stated;

/// How many pairs of different vertices have a walk, and the sum of their distances.
#[derive(Clone, Copy)]
pub struct Distances {
    pub pairs: u64,
    pub sum: u64,
}

/// The distances that a lawful certificate states.
pub fn count_distances(stated: &Stated) -> Distances
    requires { IsLawful stated.now }
    ensures { DistancesAre stated.now result.pairs result.sum }
{
    let mut all = Distances { pairs: 0, sum: 0 };
    'rows: for x in 0..stated.vertices() {
        let row = row_distances(stated, x);
        all.pairs += row.pairs;
        all.sum += row.sum;
    }
    all
}

/// The distances from one vertex.
fn row_distances(stated: &Stated, x: u32) -> Distances
    requires lawful { IsLawful stated.now }
    requires from { x < stated.now.graph.vertices }
    ensures row { RowDistancesAre stated.now x stated.now.graph.vertices result.pairs result.sum }
{
    let mut row = Distances { pairs: 0, sum: 0 };
    'cells: for y in 0..stated.vertices() {
        if x != y {
            match stated.entry(x, y) {
                Some(entry) => {
                    row.pairs += 1;
                    row.sum += entry.dist;
                }
                None => {}
            }
        }
    }
    row
}
