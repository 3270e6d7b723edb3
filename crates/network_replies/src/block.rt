//! A block that is open: its updates and its questions.

ghost use Rattle.std.specs.Prelude.{◌≡◌, ◌≢◌, ◌<◌, ◌^◌, ◌∷◌, ◌++◌, [], IfOk, OnOk, length};
ghost use Rattle.std.specs.Option.{ForSome};
ghost use Rattle.apsp_model.specs.declared.TheConstants.{MOST_UPDATES};
ghost use Rattle.graph_store.specs.Edges.{IsWeight};
ghost use Rattle.graph_store.specs.Plan.{hi_of, with_star};
ghost use Rattle.network_replies.specs.Blocks.{last_graph};
ghost use Rattle.network_replies.specs.EdgeStar.{star_with};

use block_run::Asks;
use graph_store::{Graph, Plan, Star};
use std::alloc::{AllocError, Global};
use std::marker::Model;

/// A block that is open. It keeps the graph after its updates, for `edge` and `cut`.
#[derive(Drop)]
pub struct OpenBlock {
    alloc: Global,
    plan: Plan,
    asks: Asks,
    last: Graph,
}

impl Model for OpenBlock {
    ghost use Rattle.network_replies.specs.Blocks.{Block, block_code};

    ghost Value = { Block };

    ghost coded = { block_code };

    ghost use Rattle.network_replies.specs.BlockInside.{HasLast};

    ghost view = { λ b. record { plan = b.plan; asks = b.asks } };

    ghost invariant = { HasLast };
}

impl OpenBlock {
    /// A block behind this graph, which has this number.
    pub fn new(alloc: Global, start: &Graph, lo: u64) -> Result<OpenBlock, AllocError>
        requires few { lo < MOST_UPDATES }
        ensures { IfOk result (λ b.
            b ≡ record { plan = record { start = start.now; lo = lo; stars = [] }; asks = [] }) }
    {
        let plan = Plan::new(alloc, start, lo).map_err(|_| AllocError)?;
        let mut last = Graph::new(alloc, start.vertices()).map_err(|_| AllocError)?;
        start.copy_into(&mut last);
        Ok(OpenBlock {
            alloc,
            plan,
            asks: Asks::new(alloc),
            last,
        })
    }

    /// The plan of its updates.
    pub fn plan(&self) -> &Plan
        ensures { result.now ≡ self.now.plan }
    {
        &self.plan
    }

    /// Its questions.
    pub fn asks(&self) -> &Asks
        ensures { result.now ≡ self.now.asks }
    {
        &self.asks
    }

    /// How many updates it has.
    pub fn count_updates(&self) -> u32
        requires few { length self.now.plan.stars < 2 ^ 32 }
        ensures { result ≡ length self.now.plan.stars }
    {
        (self.plan.hi() - self.plan.lo()) as u32
    }

    /// How many questions it has.
    pub fn count_asks(&self) -> u32
        requires few { length self.now.asks < 2 ^ 32 }
        ensures { result ≡ length self.now.asks }
    {
        self.asks.items().len() as u32
    }

    /// One update more.
    pub fn apply(&mut self, star: Star) -> Result<(), AllocError>
        requires same { star.vertices ≡ (last_graph self.old.plan).vertices }
        requires few { hi_of self.old.plan < MOST_UPDATES }
        ensures { OnOk result (self.new ≡ record self.old { plan = with_star self.old.plan star }) }
    {
        match self.plan.add(star) {
            Ok(()) => {
                self.last.apply(self.plan.star(self.plan.hi()));
                Ok(())
            }
            Err(_) => Err(AllocError),
        }
    }

    /// One update more: u has the star that it has after the block's updates, with the edge to v of
    /// this weight or without it.
    pub fn put_edge(&mut self, u: u32, v: u32, weight: Option<u32>) -> Result<(), AllocError>
        requires from { u < (last_graph self.old.plan).vertices }
        requires to { v < (last_graph self.old.plan).vertices }
        requires apart { u ≢ v }
        requires weight { ForSome weight IsWeight }
        requires few { hi_of self.old.plan < MOST_UPDATES }
        ensures { OnOk result (self.new ≡ record self.old {
          plan = with_star self.old.plan (star_with (last_graph self.old.plan) u v weight);
        }) }
    {
        let mut star = Star::new(self.alloc, self.last.vertices(), u).map_err(|_| AllocError)?;
        self.last.star_into(u, &mut star);
        star.put_out(v, weight);
        self.apply(star)
    }

    /// One question more.
    pub fn ask(&mut self, x: u32, y: u32, since: u32) -> Result<(), AllocError>
        ensures { OnOk result (self.new ≡ record self.old {
          asks = self.old.asks ++ record { x = x; y = y; since = since } ∷ [];
        }) }
    {
        self.asks.push(x, y, since).map_err(|_| AllocError)
    }
}
