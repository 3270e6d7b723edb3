//! The updates that are planned behind a graph.

ghost use Rattle.std.specs.Prelude.{◌≡◌, ◌<◌, ◌≤◌, ◌-◌, ◌^◌, [], Some, IfOk, OnOk, OnErr, slice_get};
ghost use Rattle.apsp_model.specs.declared.TheConstants.{MOST_UPDATES};
ghost use Rattle.apsp_model.specs.Star.{IsStar};
ghost use Rattle.graph_store.specs.Plan.{IsPlan, hi_of, with_star};

use crate::{Graph, Star};
use apsp_model::Memory;
use std::alloc::Global;
use std::marker::Model;

/// A graph with its number, `lo`, and the stars of the updates behind it in order. The number k,
/// from `lo` to `hi`, has the graph after the first k - lo of them.
#[derive(Debug, Drop)]
pub struct Plan {
    start: Graph,
    lo: u64,
    stars: Vec<Star>,
}

impl Model for Plan {
    ghost use Rattle.graph_store.specs.Plan.{Plan as Plan_model, IsPlan, plan_code};

    ghost Value = { Plan_model };

    ghost coded = { plan_code };

    ghost view = { λ p. record { start = p.start; lo = p.lo; stars = p.stars.items } };

    ghost invariant = { λ p. IsPlan (record { start = p.start; lo = p.lo; stars = p.stars.items }) };
}

impl Plan {
    /// No updates behind a copy of this graph, whose number is `lo`. It copies n² cells.
    pub fn new(alloc: Global, start: &Graph, lo: u64) -> Result<Plan, Memory>
        requires { lo < MOST_UPDATES }
        ensures plan { IfOk result (λ p. p ≡ record { start = start.now; lo = lo; stars = [] }) }
        ensures is_plan { IfOk result IsPlan }
    {
        let mut own = Graph::new(alloc, start.vertices()).map_err(|_| Memory)?;
        start.copy_into(&mut own);
        Ok(Plan {
            start: own,
            lo,
            stars: Vec::new(alloc),
        })
    }

    /// One update more, behind the others. Want of memory leaves the plan as it was.
    pub fn add(&mut self, star: Star) -> Result<(), Memory>
        requires same { star.vertices ≡ self.old.start.vertices }
        requires few { hi_of self.old < MOST_UPDATES }
        ensures added { OnOk result (self.new ≡ with_star self.old star) }
        ensures unchanged { OnErr result (self.new ≡ self.old) }
        ensures is_plan { IsPlan self.new }
    {
        let _vertices = star.vertices();
        self.stars.push(star).map_err(|_| Memory)
    }

    /// The number of the graph that the plan starts from.
    pub fn lo(&self) -> u64
        ensures lo { result ≡ self.now.lo }
        ensures is_plan { IsPlan self.now }
    {
        self.lo
    }

    /// The number after all updates.
    pub fn hi(&self) -> u64
        ensures hi { result ≡ hi_of self.now }
        ensures is_plan { IsPlan self.now }
    {
        self.lo + self.stars.len() as u64
    }

    /// The star of the update that leads to this number. One look-up.
    pub fn star(&self, number: u64) -> &Star
        requires above { self.now.lo < number }
        requires inside { number ≤ hi_of self.now }
        ensures star { slice_get self.now.stars (number - self.now.lo - 1) ≡ Some result.now }
        ensures is_plan { IsPlan self.now }
    {
        &self.stars[(number - self.lo - 1) as usize]
    }
}
