//! The publisher of a block.

ghost use Rattle.std.specs.Prelude.{◌≡◌, ◌+◌, ◌≤◌, OnOk};
ghost use Rattle.apsp_model.specs.Limits.{IsWorkerCount};
ghost use Rattle.version_pool.specs.Pooled.{IsPublisherOf};
ghost use Rattle.block_run.specs.Run.{AdvancesBy, IsCutOff};
ghost use Rattle.block_run.specs.Publishing.{CanPublish, IsNextOf};

use apsp_io::{Gate, PUBLISHED};
use apsp_model::Memory;
use graph_store::Plan;
use history_engine::Engine;
use pin_cells::Tally;
use std::marker::Sync;
use std::sync::Wait;
use std::sync::atomic::AtomicBool;
use std::sync::atomic::Ordering::SeqCst;
use std::thread;
use std::thread::Threads;
use version_pool::{Pool, Publisher};

/// Publishes what the engine answers now, as soon as a slot but the announced one is not held.
fn publish<R: Wait>(rt: &R, pool: &Pool<'_>, publisher: &mut Publisher, engine: &Engine)
    requires publisher { IsPublisherOf pool.now publisher.old }
    requires next { IsNextOf pool.now.plan publisher.old.mark.number engine.now }
    ensures publisher { IsPublisherOf pool.now publisher.new }
    ensures announced { publisher.new.mark.number ≡ publisher.old.mark.number + 1 }
{
    let mut tally = Tally::new();
    for _ in rt.forever() {
        if publisher.publish(pool, engine, &mut tally).is_ok() {
            return;
        }
        thread::yield_now();
    }
    unreachable!()
}

/// Takes the updates of the plan one after another, and publishes a version after each.
pub(crate) fn publish_all<R: Threads + Wait + Sync, G: Gate>(
    rt: &R,
    pool: &Pool<'_>,
    publisher: &mut Publisher,
    engine: &mut Engine,
    plan: &Plan,
    workers: u32,
    gate: &G,
) -> Result<(), Memory>
    requires can { CanPublish pool.now publisher.old engine.old plan.now }
    requires workers { IsWorkerCount workers }
    ensures taken { OnOk result (AdvancesBy engine.old plan.now.stars engine.new) }
    ensures cut_off { IsCutOff engine.old plan.now.stars engine.new }
{
    for number in plan.lo()..plan.hi() {
        match engine.star(rt, plan.star(number + 1), workers, gate) {
            Ok(_) => {
                publish(rt, pool, publisher, engine);
                gate.pass(0, PUBLISHED);
            }
            Err(_) => return Err(Memory),
        }
    }
    Ok(())
}

/// Takes the updates and publishes, and tells the readers where memory runs out.
pub(crate) fn publish_or_stop<R: Threads + Wait + Sync, G: Gate>(
    rt: &R,
    pool: &Pool<'_>,
    publisher: &mut Publisher,
    engine: &mut Engine,
    plan: &Plan,
    workers: u32,
    stop: &AtomicBool,
    gate: &G,
) -> Result<(), Memory>
    requires can { CanPublish pool.now publisher.old engine.old plan.now }
    requires workers { IsWorkerCount workers }
    ensures taken { OnOk result (AdvancesBy engine.old plan.now.stars engine.new) }
    ensures cut_off { IsCutOff engine.old plan.now.stars engine.new }
{
    let published = publish_all(rt, pool, publisher, engine, plan, workers, gate);
    if published.is_err() {
        stop.store(true, SeqCst);
    }
    published
}
