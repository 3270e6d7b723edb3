//! How many slots a block has.

ghost use Rattle.std.specs.Prelude.{◌≡◌, ◌<◌, ◌≤◌, All, IfOk, length};
ghost use Rattle.apsp_model.specs.Limits.{IsSlotCount};
ghost use Rattle.block_run.specs.declared.asks.Ask.{Ask as Question};

use crate::passes::comes_to;
use apsp_io::{Gate, HELD, PUBLISHED, TASK};
use block_run::{Asks, live_block};
use graph_store::{Graph, Plan, Star};
use history_engine::Engine;
use std::alloc::Global;
use std::marker::Sync;
use std::sync::Wait;
use std::sync::atomic::Ordering::SeqCst;
use std::sync::atomic::{AtomicBool, AtomicU64};
use std::test::Fail;
use std::thread::Threads;

/// A gate at which the first update looks until the opening version is held, and the hold until two
/// versions are published meanwhile.
#[derive(Drop)]
struct Holding {
    holds: AtomicU64,
    publications: AtomicU64,
    saw_first: AtomicBool,
    saw_second: AtomicBool,
}

impl Holding {
    fn new() -> Holding {
        Holding {
            holds: AtomicU64::new(0),
            publications: AtomicU64::new(0),
            saw_first: AtomicBool::new(false),
            saw_second: AtomicBool::new(false),
        }
    }
}

impl Gate for Holding {
    fn pass(&self, _who: u32, what: u32) {
        if what == TASK {
            comes_to(&self.holds, 1);
        }
        if what == PUBLISHED {
            self.publications.fetch_add(1, SeqCst);
        }
        if what == HELD {
            self.holds.fetch_add(1, SeqCst);
            self.saw_first
                .store(comes_to(&self.publications, 1), SeqCst);
            self.saw_second
                .store(comes_to(&self.publications, 2), SeqCst);
        }
    }
}

/// The star of 0 with an edge to 1.
fn star_of(alloc: Global, weight: u64) -> Result<Star, Fail>
    ensures { IfOk result (λ s. s.vertices ≡ 2) }
{
    let mut star = Star::new(alloc, 2, 0)?;
    star.set_out(1, weight)?;
    Ok(star)
}

/// A plan of two updates.
fn plan_of_two(alloc: Global, start: &Graph) -> Result<Plan, Fail>
    requires two { start.now.vertices ≡ 2 }
    ensures start { IfOk result (λ p. p.start ≡ start.now) }
    ensures lo { IfOk result (λ p. p.lo ≡ 0) }
{
    let mut plan = Plan::new(alloc, start, 0)?;
    plan.add(star_of(alloc, 4)?)?;
    plan.add(star_of(alloc, 5)?)?;
    Ok(plan)
}

/// A question about the way from 0 to 1.
fn one_ask(alloc: Global) -> Result<Asks, Fail>
    ensures { IfOk result (λ asks. All (λ (a : Question). (a.x < 2) × (a.y < 2) × (a.since ≤ 0)) asks) }
{
    let mut asks = Asks::new(alloc);
    asks.push(0, 1, 0)?;
    Ok(asks)
}

/// Whether one and two versions were published beside a reader that holds the opening one, and the
/// number that it answered from.
fn published_beside<R: Threads + Wait + Sync>(
    rt: &R,
    alloc: Global,
    slots: u32,
) -> Result<(bool, bool, Option<u64>), Fail>
    requires { IsSlotCount slots }
{
    let gate = Holding::new();
    let mut engine = Engine::new(alloc, 2, false)?;
    let plan = plan_of_two(alloc, engine.graph())?;
    let asks = one_ask(alloc)?;
    let answers = live_block(rt, alloc, &mut engine, &plan, &asks, 1, slots, 1, &gate)?;
    let number = answers.answers().first().map(|a| a.number);
    Ok((
        gate.saw_first.load(SeqCst),
        gate.saw_second.load(SeqCst),
        number,
    ))
}

/// Beside a held version two slots leave room for one publication, and three for more.
#[test]
fn a_block_has_as_many_slots_as_it_is_given(rt: HostRuntime) -> Result<(), Fail> {
    for (slots, second) in [(2, false), (3, true)] {
        assert_eq!(rt;
            published_beside(&rt, rt.alloc(), slots)?,
            (true, second, Some(0)),
            "{slots} slots"
        );
    }
    Ok(())
}
