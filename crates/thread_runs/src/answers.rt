//! Blocks over a network of three vertices.

ghost use Rattle.std.specs.Prelude.{◌≡◌, ◌<◌, ◌≤◌, All, IfOk, length};
ghost use Rattle.apsp_model.specs.Limits.{IsReaderCount};
ghost use Rattle.block_run.specs.declared.asks.Ask.{Ask as Question};

use apsp_io::{Gate, HELD, OpenGate, PUBLISHED, PairGate};
use block_run::{Answer, Ask, Asks, BlockAnswers, live_block};
use graph_store::{Graph, Plan, Star};
use history_engine::Engine;
use std::alloc::Global;
use std::marker::Sync;
use std::sync::Wait;
use std::sync::atomic::Ordering::SeqCst;
use std::sync::atomic::{AtomicBool, AtomicU64};
use std::test::Fail;
use std::thread::Threads;
use version_face::NO_DISTANCE;

/// How often a pass of a gate looks at most.
const TURNS: u64 = 100_000_000;

/// Of these questions those that fit a plan of two updates of three vertices.
fn asks_of(alloc: Global, wanted: &[(u32, u32, u32)]) -> Result<Asks, Fail>
    ensures { IfOk result (λ asks. All (λ (a : Question). (a.x < 3) × (a.y < 3) × (a.since ≤ 2)) asks) }
{
    let mut asks = Asks::new(alloc);
    'wanted: for &(x, y, since) in wanted {
        if x < 3 && y < 3 && since <= 2 {
            asks.push(x, y, since)?;
        }
    }
    Ok(asks)
}

/// The star of 0 with edges to 1 and 2.
fn first_star(alloc: Global) -> Result<Star, Fail>
    ensures { IfOk result (λ s. s.vertices ≡ 3) }
{
    let mut star = Star::new(alloc, 3, 0)?;
    star.set_out(1, 4)?;
    star.set_out(2, 9)?;
    Ok(star)
}

/// The star of 1 with an edge from 0 and one to 2.
fn second_star(alloc: Global) -> Result<Star, Fail>
    ensures { IfOk result (λ s. s.vertices ≡ 3) }
{
    let mut star = Star::new(alloc, 3, 1)?;
    star.set_out(2, 3)?;
    star.set_in(0, 4)?;
    Ok(star)
}

/// A plan of two updates: an edge from 0 to 2, and then a lighter way by 1.
fn plan_of_two(alloc: Global, start: &Graph) -> Result<Plan, Fail>
    requires three { start.now.vertices ≡ 3 }
    ensures start { IfOk result (λ p. p.start ≡ start.now) }
    ensures lo { IfOk result (λ p. p.lo ≡ 0) }
    ensures stars { IfOk result (λ p. length p.stars ≡ 2) }
{
    let mut plan = Plan::new(alloc, start, 0)?;
    plan.add(first_star(alloc)?)?;
    plan.add(second_star(alloc)?)?;
    Ok(plan)
}

/// Runs a block with two updates behind a network without edges.
fn run_two<R: Threads + Wait + Sync, G: Gate>(
    rt: &R,
    alloc: Global,
    asks: &Asks,
    readers: u32,
    gate: &G,
) -> Result<BlockAnswers, Fail>
    requires asks { All (λ (a : Question). (a.x < 3) × (a.y < 3) × (a.since ≤ 2)) asks.now }
    requires readers { IsReaderCount readers }
{
    let mut engine = Engine::new(alloc, 3, false)?;
    let plan = plan_of_two(alloc, engine.graph())?;
    let answers = live_block(rt, alloc, &mut engine, &plan, asks, readers, 4, 2, gate)?;
    Ok(answers)
}

/// The numbers of the answers.
fn numbers(alloc: Global, answers: &BlockAnswers) -> Result<Vec<u64>, Fail> {
    let numbers = answers.answers().iter().map(|a| a.number).collect(alloc)?;
    Ok(numbers)
}

#[test]
fn answers_after_two_updates(rt: HostRuntime) -> Result<(), Fail> {
    let alloc = rt.alloc();
    let asks = asks_of(
        alloc,
        &[(0, 2, 2), (2, 0, 2), (1, 1, 2), (0, 1, 2), (0, 2, 2)],
    )?;
    for readers in [1, 2, 7, 32] {
        let answers = run_two(&rt, alloc, &asks, readers, &OpenGate)?;
        let dists: Vec<u64> = answers.answers().iter().map(|a| a.dist).collect(alloc)?;
        assert_eq!(rt; dists.as_slice(), [7, NO_DISTANCE, 0, 4, 7].as_slice());
        assert_eq!(rt; numbers(alloc, &answers)?.as_slice(), [2; 5].as_slice());
        let ends: Vec<(u32, u32)> = answers.answers().iter().map(|a| (a.x, a.y)).collect(alloc)?;
        assert_eq!(rt;
            ends.as_slice(),
            [(0, 2), (2, 0), (1, 1), (0, 1), (0, 2)].as_slice()
        );
        let walks = answers.answers().iter().map(|a| a.walk.items().len());
        let lengths: Vec<usize> = walks.collect(alloc)?;
        assert_eq!(rt; lengths.as_slice(), [3, 0, 1, 2, 3].as_slice());
        if let Some(first) = answers.answers().first() {
            assert_eq!(rt; first.walk.items(), [0, 1, 2].as_slice());
        }
    }
    Ok(())
}

#[test]
fn answers_of_one_reader_do_not_fall(rt: HostRuntime) -> Result<(), Fail> {
    let alloc = rt.alloc();
    let asks = asks_of(
        alloc,
        &[(0, 2, 1), (0, 2, 0), (0, 2, 2), (0, 2, 0), (0, 2, 0)],
    )?;
    let answers = run_two(&rt, alloc, &asks, 1, &OpenGate)?;
    let numbers = numbers(alloc, &answers)?;
    assert_eq!(rt; numbers.len(), 5);
    assert!(rt; numbers.windows(2).all(|w| w[0] <= w[1]));
    for answer in answers.answers() {
        let wanted = match answer.number {
            0 => NO_DISTANCE,
            1 => 9,
            _ => 7,
        };
        assert_eq!(rt; answer.dist, wanted, "at {}", answer.number);
    }
    Ok(())
}

#[test]
fn a_block_without_updates(rt: HostRuntime) -> Result<(), Fail> {
    let alloc = rt.alloc();
    let mut engine = Engine::new(alloc, 2, false)?;
    let plan = Plan::new(alloc, engine.graph(), 0)?;
    let mut asks = Asks::new(alloc);
    asks.push(0, 1, 0)?;
    let answers = live_block(&rt, alloc, &mut engine, &plan, &asks, 3, 2, 1, &OpenGate)?;
    assert_eq!(rt; numbers(alloc, &answers)?.as_slice(), [0].as_slice());
    assert_eq!(rt; engine.number(), 0);
    Ok(())
}

#[test]
fn a_block_without_questions(rt: HostRuntime) -> Result<(), Fail> {
    let alloc = rt.alloc();
    let mut engine = Engine::new(alloc, 2, true)?;
    let mut plan = Plan::new(alloc, engine.graph(), 0)?;
    let mut star = Star::new(alloc, 2, 0)?;
    star.set_out(1, 5)?;
    plan.add(star)?;
    let asks = Asks::new(alloc);
    let answers = live_block(&rt, alloc, &mut engine, &plan, &asks, 2, 2, 1, &OpenGate)?;
    assert_eq!(rt; answers.answers().len(), 0);
    assert_eq!(rt; engine.number(), 1);
    assert!(rt; !engine.is_spent());
    Ok(())
}

#[test]
fn two_readers_meet(rt: HostRuntime) -> Result<(), Fail> {
    let alloc = rt.alloc();
    let asks = asks_of(alloc, &[(0, 2, 0), (0, 1, 0)])?;
    let gate = PairGate::new(HELD, TURNS);
    let answers = run_two(&rt, alloc, &asks, 2, &gate)?;
    assert_eq!(rt; answers.answers().len(), 2);
    assert!(rt; gate.met());
    Ok(())
}

/// A gate at which the first publication waits for a hold, and a hold for the second publication.
#[derive(Drop)]
struct Meeting {
    holds: AtomicU64,
    publications: AtomicU64,
    saw_hold: AtomicBool,
    saw_second: AtomicBool,
}

/// Whether the count comes to this number within so many looks.
fn comes_to(count: &AtomicU64, number: u64) -> bool {
    for _ in 0..TURNS {
        if count.load(SeqCst) >= number {
            return true;
        }
    }
    false
}

impl Gate for Meeting {
    fn pass(&self, _who: u32, what: u32) {
        if what == HELD {
            self.holds.fetch_add(1, SeqCst);
            self.saw_second
                .store(comes_to(&self.publications, 2), SeqCst);
        }
        if what == PUBLISHED && self.publications.fetch_add(1, SeqCst) == 0 {
            self.saw_hold.store(comes_to(&self.holds, 1), SeqCst);
        }
    }
}

#[test]
fn reader_beside_publisher(rt: HostRuntime) -> Result<(), Fail> {
    let alloc = rt.alloc();
    let asks = asks_of(alloc, &[(0, 2, 0)])?;
    let gate = Meeting {
        holds: AtomicU64::new(0),
        publications: AtomicU64::new(0),
        saw_hold: AtomicBool::new(false),
        saw_second: AtomicBool::new(false),
    };
    let answers = run_two(&rt, alloc, &asks, 1, &gate)?;
    assert!(rt; gate.saw_hold.load(SeqCst));
    assert!(rt; gate.saw_second.load(SeqCst));
    assert!(rt; answers.answers().iter().all(|a| a.number <= 1));
    Ok(())
}
