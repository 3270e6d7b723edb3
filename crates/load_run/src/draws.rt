//! The generated input: numbers that are drawn one behind the other, and the stars that they make.

ghost use Rattle.std.specs.Prelude.{◌≡◌, ◌≢◌, ℕ, ◌<◌, ◌%◌, IfOk, OnOk, IfSome, None};
ghost use Rattle.std.specs.FinMap as map;
ghost use Rattle.graph_store.specs.Edges.{IsWeight, with_maybe_edge};
ghost use Rattle.graph_store.specs.Making.{IsVertexCount, no_star};
ghost use Rattle.load_run.specs.Draws.{draw, drawn, drawn_weight, drawn_star, draws_of_star};
ghost use Rattle.load_run.specs.Stars.{HasOut, HasBoth};

use apsp_model::Memory;
use graph_store::Star;
use std::alloc::Global;
use std::marker::Model;

/// Drawn numbers are below this one.
pub const MODULUS: u32 = 65537;

/// The most that a drawn edge weighs.
pub const MOST_DRAWN: u32 = 1000;

/// Where the sequence of drawn numbers stands.
#[derive(Drop)]
pub struct Draws {
    last: u32,
}

impl Model for Draws {
    ghost use Rattle.std.specs.Prelude.{ℕ, ◌<◌};
    ghost use Rattle.load_run.specs.declared.draws.TheConstants.{MODULUS};

    ghost Value = { ℕ };

    ghost view = { λ d. d.last };

    ghost invariant = { λ d. d.last < MODULUS };
}

impl Draws {
    /// Before the first number behind a seed.
    pub fn new(seed: u64) -> Draws
        ensures { result ≡ seed % MODULUS }
    {
        Draws {
            last: (seed % u64::from(MODULUS)) as u32,
        }
    }

    /// The next number.
    fn draw(&mut self) -> u32
        ensures drawn { result ≡ draw self.old }
        ensures place { self.new ≡ draw self.old }
    {
        self.last = (75 * self.last + 74) % MODULUS;
        self.last
    }

    /// The edge that the next number draws, if it draws one.
    fn weight(&mut self) -> Option<u32>
        ensures weight { result ≡ drawn_weight (draw self.old) }
        ensures place { self.new ≡ draw self.old }
        ensures range { IfSome result IsWeight }
    {
        let number = self.draw();
        if number % 2 == 0 {
            Some(1 + number / 2 % MOST_DRAWN)
        } else {
            None
        }
    }
}

/// The next star: its vertex is drawn, then an edge to each other vertex, then one from each.
pub fn draw_star(alloc: Global, draws: &mut Draws, n: u32) -> Result<Star, Memory>
    requires { IsVertexCount n }
    ensures star { IfOk result (λ s. s ≡ drawn_star n draws.old) }
    ensures place { OnOk result (draws.new ≡ drawn draws.old (draws_of_star n)) }
{
    let v = draws.draw() % n;
    let Ok(mut star) = Star::new(alloc, n, v) else {
        return Err(Memory);
    };
    draw_out(draws, &mut star);
    draw_in(draws, &mut star);
    Ok(star)
}

/// Draws an edge to each vertex but the star's own.
fn draw_out(draws: &mut Draws, star: &mut Star)
    requires { star.old ≡ no_star star.old.vertices star.old.vertex }
    ensures { HasOut star.old.vertices star.old.vertex draws.old star.old.vertices star.new draws.new }
{
    'out: for u in 0..star.vertices() {
        if u != star.vertex() {
            star.put_out(u, draws.weight());
        }
    }
}

/// Draws an edge from each vertex but the star's own, behind those to each.
fn draw_in(draws: &mut Draws, star: &mut Star)
    requires inside { star.old.vertex < star.old.vertices }
    requires some { (s : ℕ) × HasOut star.old.vertices star.old.vertex s star.old.vertices star.old draws.old }
    ensures { (s : ℕ) → HasOut star.old.vertices star.old.vertex s star.old.vertices star.old draws.old
        → HasBoth star.old.vertices star.old.vertex s star.old.vertices star.new draws.new }
{
    'into: for u in 0..star.vertices() {
        if u != star.vertex() {
            put_in(star, u, draws.weight());
        }
    }
}

/// Puts in the edge from u, of which there is none yet.
fn put_in(star: &mut Star, u: u32, weight: Option<u32>)
    requires inside { u < star.old.vertices }
    requires apart { u ≢ star.old.vertex }
    requires none { map.get star.old.edges (u, star.old.vertex) ≡ None }
    requires weight { IfSome weight IsWeight }
    ensures { star.new ≡ with_maybe_edge star.old (u, star.old.vertex) weight }
{
    match weight {
        Some(weight) => {
            let Ok(()) = star.set_in(u, u64::from(weight)) else {
                unreachable!()
            };
        }
        None => {}
    }
}
