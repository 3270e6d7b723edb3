//! Who passes the gate in an update.

ghost use Rattle.std.specs.Prelude.{◌≡◌};
ghost use Rattle.apsp_model.specs.Limits.{IsWorkerCount};
ghost use Rattle.graph_store.specs.Making.{IsVertexCount};

use crate::passes::{CountingGate, Passed};
use graph_store::Star;
use history_engine::Engine;
use std::alloc::Global;
use std::marker::Sync;
use std::test::Fail;
use std::thread::Threads;

/// Edges of one weight between vertex 0 and each other one, there and back.
fn hub(alloc: Global, n: u32) -> Result<Star, Fail>
    requires count { IsVertexCount n }
{
    let mut star = Star::new(alloc, n, 0)?;
    for v in 1..n {
        star.set_out(v, 1)?;
        star.set_in(v, 1)?;
    }
    Ok(star)
}

/// What passes the gate in this update.
fn passed_in<R: Threads + Sync>(
    rt: &R,
    engine: &mut Engine,
    star: &Star,
    workers: u32,
    meeting: u64,
) -> Result<Passed, Fail>
    requires { IsWorkerCount workers }
{
    if star.vertices() != engine.vertices() || engine.number() >= 1 << 40 {
        return Err(Fail::from("no such update"));
    }
    let gate = CountingGate::new(meeting);
    engine.star(rt, star, workers, &gate)?;
    Ok(gate.passed())
}

/// What passes the gate while a hub is settled, and while it is cleaned away.
fn hub_comes_and_goes<R: Threads + Sync>(
    rt: &R,
    alloc: Global,
    n: u32,
    workers: u32,
    meeting: u64,
) -> Result<(Passed, Passed), Fail>
    requires { IsWorkerCount workers }
{
    let mut engine = Engine::new(alloc, n, false)?;
    let star = hub(alloc, engine.vertices())?;
    let settled = passed_in(rt, &mut engine, &star, workers, meeting)?;
    let star = Star::new(alloc, engine.vertices(), 0)?;
    let cleaned = passed_in(rt, &mut engine, &star, workers, 1)?;
    Ok((settled, cleaned))
}

/// Each winner of a settling passes the gate once: of a hub the edges, and then the joins. With 91
/// others the edges have 16,562 partners, so several workers list their joins, and all of them pass.
#[test]
fn each_winner_passes_the_gate(rt: HostRuntime) -> Result<(), Fail> {
    for (n, workers, meeting, count) in [
        (4, 1, 1, 12),
        (4, 2, 1, 12),
        (92, 1, 1, 8372),
        (92, 2, 2, 8372),
        (92, 3, 3, 8372),
    ] {
        let (passed, _) = hub_comes_and_goes(&rt, rt.alloc(), n, workers, meeting)?;
        let seen = (passed.count(), passed.workers, passed.else_passed);
        assert_eq!(rt;
            seen,
            (count, meeting, 0),
            "{n} vertices, {workers} workers"
        );
    }
    Ok(())
}

/// Each edge at the vertex of an update passes the gate once.
#[test]
fn each_edge_at_a_vertex_passes_the_gate(rt: HostRuntime) -> Result<(), Fail> {
    for (n, workers, count) in [(1, 1, 0), (4, 1, 6), (4, 2, 6)] {
        let (_, passed) = hub_comes_and_goes(&rt, rt.alloc(), n, workers, 1)?;
        let wanted = Passed {
            tasks: [count, 0, 0],
            workers: count.min(1),
            else_passed: 0,
        };
        assert_eq!(rt; passed, wanted, "{n} vertices, {workers} workers");
    }
    Ok(())
}
