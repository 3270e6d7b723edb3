//! Versions of two vertices, published one after another while readers hold them.

ghost use Rattle.std.specs.Prelude.{◌≡◌, All, IfOk, IfSome};
ghost use Rattle.apsp_model.specs.Graph.{no_edges};
ghost use Rattle.graph_store.specs.Plan.{IsVersionOf};
ghost use Rattle.version_pool.specs.Pooled.{IsPublisherOf, IsReaderOf};

use super::*;
use apsp_model::{MOST_READERS, MOST_SLOTS};
use graph_store::{Graph, Plan, Star};
use pin_cells::Tally;
use std::alloc::Global;
use std::marker::Model;
use std::test::Fail;
use std::thread::{Threads, join};
use version_face::{Answers, Entry, NO_DISTANCE, Version};

/// The last number of the plan.
const LAST: u64 = 10;

/// A graph of two vertices, and its number.
#[derive(Drop)]
struct Pair {
    graph: Graph,
    number: u64,
}

impl Answers for Pair {
    ghost use Rattle.std.specs.Prelude.{◌≡◌};

    ghost graph = { λ p. p.graph };

    ghost stamp = { λ p. p.number };

    ghost ready = { λ p. p.graph.vertices ≡ 2 };

    fn vertices(&self) -> u32 {
        self.graph.vertices()
    }

    fn number(&self) -> u64 {
        self.number
    }

    fn weight(&self, u: u32, v: u32) -> Option<u32> {
        self.graph.weight(u, v)
    }

    fn copy_graph(&self, other: &mut Graph) {
        self.graph.copy_into(other);
    }

    #[tactic(auto, using(crate::proofs::Pairs::itself, crate::proofs::Pairs::edge, crate::proofs::Pairs::no_edge))]
    fn entry(&self, x: u32, y: u32) -> Option<Entry> {
        if x == y {
            return Some(Entry {
                dist: 0,
                hops: 0,
                next: x,
            });
        }
        let weight = self.graph.weight(x, y)?;
        Some(Entry {
            dist: weight as u64,
            hops: 1,
            next: y,
        })
    }
}

impl Pair {
    /// Makes the plan's next update, if there is one and the last one is announced.
    fn advance(&mut self, plan: &Plan, announced: u64)
        requires { IsVersionOf plan.now self.old.number self.old.graph }
        ensures { IsVersionOf plan.now self.new.number self.new.graph }
    {
        if self.number != announced {
            return;
        }
        if self.number == plan.hi() {
            return;
        }
        self.number += 1;
        self.graph.apply(plan.star(self.number));
    }
}

/// Each update gives the edge from 0 to 1 its number as weight.
fn updates(alloc: Global) -> Result<Plan, Fail>
    ensures lo { IfOk result (λ p. p.lo ≡ 0) }
    ensures start { IfOk result (λ p. p.start ≡ no_edges 2) }
{
    let mut plan = Plan::new(alloc, &Graph::new(alloc, 2)?, 0)?;
    for number in 0..LAST {
        let mut star = Star::new(alloc, 2, 0)?;
        star.set_out(1, number + 1)?;
        plan.add(star)?;
    }
    Ok(plan)
}

/// Who publishes the versions of a plan in a pool. Contracts see the pool.
#[derive(Drop)]
struct Writer<'a> {
    pool: &'a Pool<'a>,
    plan: &'a Plan,
    publisher: Publisher,
    present: Pair,
    tally: Tally,
}

impl<'a> Model for Writer<'a> {
    ghost use Rattle.std.specs.Prelude.{◌≡◌};
    ghost use Rattle.graph_store.specs.Plan.{IsVersionOf};
    ghost use Rattle.version_pool.specs.Pooled.{Pool as Pool_seen, pool_code, IsPublisherOf};

    ghost Value = { Pool_seen };

    ghost coded = { pool_code };

    ghost view = { λ w. w.pool.now };

    ghost invariant = { λ w. IsPublisherOf w.pool.now w.publisher × (w.pool.now.plan ≡ w.plan.now)
        × (w.plan.now.start.vertices ≡ 2) × IsVersionOf w.plan.now w.present.number w.present.graph };
}

impl<'a> Writer<'a> {
    fn new(
        alloc: Global,
        pool: &'a Pool<'a>,
        plan: &'a Plan,
        publisher: Publisher,
    ) -> Result<Writer<'a>, Fail>
        requires publisher { IsPublisherOf pool.now publisher }
        requires plan { pool.now.plan ≡ plan.now }
        requires lo { plan.now.lo ≡ 0 }
        requires start { plan.now.start ≡ no_edges 2 }
        ensures { IfOk result (λ w. w ≡ pool.entry.now) }
    {
        let present = Pair {
            graph: Graph::new(alloc, 2)?,
            number: 0,
        };
        Ok(Writer {
            pool,
            plan,
            publisher,
            present,
            tally: Tally::new(),
        })
    }

    /// Publishes the next number of the plan, if there is one and a slot for it.
    fn publish(&mut self) -> Option<Mark>
        ensures { self.new ≡ self.old }
    {
        let announced = self.publisher.announced();
        self.present.advance(self.plan, announced);
        if announced.checked_add(1) != Some(self.present.number) {
            return None;
        }
        self.publisher
            .publish(self.pool, &self.present, &mut self.tally)
            .ok()
    }

    /// Publishes as long as that goes, and gives the number that is announced then.
    fn publish_all(&mut self) -> u64
        ensures { self.new ≡ self.old }
    {
        for _ in 0..=LAST {
            if self.publish().is_none() {
                break;
            }
        }
        self.publisher.announced()
    }

    /// The mark of one publication, and the turns that were lost by then.
    fn published(&mut self) -> (Option<Mark>, u64)
        ensures { self.new ≡ self.old }
    {
        let mark = self.publish();
        (mark, self.tally.lost())
    }
}

/// Who holds versions of a pool. Contracts see the pool.
#[derive(Drop)]
struct Holder<'a> {
    pool: &'a Pool<'a>,
    reader: Reader,
    tally: Tally,
}

impl<'a> Model for Holder<'a> {
    ghost use Rattle.version_pool.specs.Pooled.{Pool as Pool_seen, pool_code, IsReaderOf};

    ghost Value = { Pool_seen };

    ghost coded = { pool_code };

    ghost view = { λ h. h.pool.now };

    ghost invariant = { λ h. IsReaderOf h.pool.now h.reader };
}

impl<'a> Holder<'a> {
    fn new(pool: &'a Pool<'a>, reader: Reader) -> Holder<'a>
        requires { IsReaderOf pool.now reader }
        ensures { result ≡ pool.entry.now }
    {
        Holder {
            pool,
            reader,
            tally: Tally::new(),
        }
    }

    /// One try.
    fn hold(&mut self) -> Option<Held<'a>>
        ensures { self.new ≡ self.old }
    {
        self.reader.try_hold(self.pool, &mut self.tally).ok()
    }

    /// What one try shows.
    fn show(&mut self) -> Option<(u64, u64)>
        ensures { self.new ≡ self.old }
    {
        let held = self.hold()?;
        let shows = shown(held.version());
        held.release();
        Some(shows)
    }

    /// Learns what is announced.
    fn learn(&mut self, from: &mut Writer<'a>)
        requires { self.old ≡ from.old }
    {
        let note = from.publisher.note(from.pool);
        self.reader.learn(self.pool, note);
    }
}

/// The number of a version, and the distance from 0 to 1 there.
fn shown(version: &Version) -> (u64, u64) {
    let dist = if version.vertices() == 2 {
        version.dist_row(0)[1]
    } else {
        0
    };
    (version.number(), dist)
}

/// A holder for the last of these readers.
fn take_holder<'a>(pool: &'a Pool<'a>, readers: &mut Vec<Reader>) -> Option<Holder<'a>>
    requires { All (IsReaderOf pool.now) readers.old.items }
    ensures left { All (IsReaderOf pool.entry.now) readers.new.items }
    ensures pool { IfSome result (λ h. h ≡ pool.entry.now) }
{
    let reader = readers.pop()?;
    Some(Holder::new(pool, reader))
}

/// A pool over this plan, in which the first number is announced.
fn pool_of<'p>(
    alloc: Global,
    slots: u32,
    readers: u32,
    plan: &'p Plan,
) -> Result<PoolParts<'p>, Fail>
    requires lo { plan.now.lo ≡ 0 }
    requires start { plan.now.start ≡ no_edges 2 }
    ensures plan { IfOk result (λ p. p.pool.plan ≡ plan.entry.now) }
    ensures publisher { IfOk result (λ p. IsPublisherOf p.pool p.publisher) }
    ensures own { IfOk result (λ p. All (IsReaderOf p.pool) p.readers.items) }
{
    if slots < 2 || slots > MOST_SLOTS || readers < 1 || readers > MOST_READERS {
        return Err("no such pool".into());
    }
    let first = Version::new(alloc, 2)?;
    let parts = Pool::new(alloc, slots, readers, plan, &first)?;
    Ok(parts)
}

/// What is announced while one reader holds the first number, with the turns that were lost by
/// then; what that hold shows; and what another reader holds after one more publication, which it
/// learned from a note.
#[derive(Clone, Copy, PartialEq, Eq, Debug)]
struct Meanwhile {
    announced: u64,
    lost: u64,
    held: (u64, u64),
    behind: Option<(u64, u64)>,
}

fn hold_the_first<'a>(
    writer: &mut Writer<'a>,
    early: &mut Holder<'a>,
    late: &mut Holder<'a>,
) -> Option<Meanwhile>
    requires { late.old ≡ writer.old }
{
    let hold = early.hold()?;
    let announced = writer.publish_all();
    let held = shown(hold.version());
    hold.release();
    let (_, lost) = writer.published();
    late.learn(writer);
    Some(Meanwhile {
        announced,
        lost,
        held,
        behind: late.show(),
    })
}

fn with_the_first_held(alloc: Global, slots: u32) -> Result<Option<Meanwhile>, Fail> {
    let plan = updates(alloc)?;
    let PoolParts {
        pool,
        publisher,
        mut readers,
    } = pool_of(alloc, slots, 2, &plan)?;
    let mut writer = Writer::new(alloc, &pool, &plan, publisher)?;
    let Some(mut late) = take_holder(&pool, &mut readers) else {
        return Ok(None);
    };
    let Some(mut early) = take_holder(&pool, &mut readers) else {
        return Ok(None);
    };
    Ok(hold_the_first(&mut writer, &mut early, &mut late))
}

#[test]
fn a_held_version_stays_while_others_are_published(rt: HostRuntime) -> Result<(), Fail> {
    for (slots, announced, lost, behind) in [(2, 1, 1, 2), (3, 10, 0, 10), (64, 10, 0, 10)] {
        let wanted = Meanwhile {
            announced,
            lost,
            held: (0, NO_DISTANCE),
            behind: Some((behind, behind)),
        };
        assert_eq!(rt;
            with_the_first_held(rt.alloc(), slots)?,
            Some(wanted),
            "{slots} slots"
        );
    }
    Ok(())
}

/// Four publications, each with the turns that were lost by then: the first reader holds the first
/// number during three of them, and the second reader number 1 from then on, which it shows at last.
#[derive(Clone, Copy, PartialEq, Eq, Debug)]
struct Occupied {
    first: (Option<Mark>, u64),
    second: (Option<Mark>, u64),
    third: (Option<Mark>, u64),
    announced: u64,
    fourth: (Option<Mark>, u64),
    held: (u64, u64),
}

fn occupy<'a>(
    writer: &mut Writer<'a>,
    early: &mut Holder<'a>,
    late: &mut Holder<'a>,
) -> Option<Occupied> {
    let oldest = early.hold()?;
    let first = writer.published();
    let Some(hold) = late.hold() else {
        oldest.release();
        return None;
    };
    let second = writer.published();
    let third = writer.published();
    let announced = writer.publisher.announced();
    oldest.release();
    let fourth = writer.published();
    let held = shown(hold.version());
    hold.release();
    Some(Occupied {
        first,
        second,
        third,
        announced,
        fourth,
        held,
    })
}

fn with_two_held(alloc: Global) -> Result<Option<Occupied>, Fail> {
    let plan = updates(alloc)?;
    let PoolParts {
        pool,
        publisher,
        mut readers,
    } = pool_of(alloc, 3, 2, &plan)?;
    let mut writer = Writer::new(alloc, &pool, &plan, publisher)?;
    let Some(mut late) = take_holder(&pool, &mut readers) else {
        return Ok(None);
    };
    let Some(mut early) = take_holder(&pool, &mut readers) else {
        return Ok(None);
    };
    Ok(occupy(&mut writer, &mut early, &mut late))
}

#[test]
fn the_highest_slot_that_nobody_holds_is_taken(rt: HostRuntime) -> Result<(), Fail> {
    let wanted = Occupied {
        first: (Some(Mark { number: 1, slot: 2 }), 0),
        second: (Some(Mark { number: 2, slot: 1 }), 0),
        third: (None, 2),
        announced: 2,
        fourth: (Some(Mark { number: 3, slot: 0 }), 3),
        held: (1, 1),
    };
    assert_eq!(rt; with_two_held(rt.alloc())?, Some(wanted));
    Ok(())
}

/// How many holds a reader got, and whether each showed a version of its own number that is not
/// older than the one before.
#[derive(Clone, Copy, PartialEq, Eq, Debug)]
struct Holds {
    count: u64,
    sound: bool,
}

/// Holds again and again, until it has the last number or has tried so often.
fn hold_often(mut holder: Holder<'_>, tries: u32) -> Holds {
    let mut holds = Holds {
        count: 0,
        sound: true,
    };
    let mut last = 0;
    for _ in 0..tries {
        let Some((number, dist)) = holder.show() else {
            continue;
        };
        let fits = if number == 0 {
            dist == NO_DISTANCE
        } else {
            dist == number
        };
        holds.count = holds.count.saturating_add(1);
        holds.sound &= fits && number >= last;
        last = number;
        if number == LAST {
            break;
        }
    }
    holds
}

/// What the publisher has announced at last, and what the reader beside it held.
fn beside<R: Threads + Sync>(rt: &R, mut writer: Writer<'_>, holder: Holder<'_>) -> (u64, Holds) {
    join(
        rt,
        move || writer.publish_all(),
        move || { hold_often(holder, 1_000_000) },
    )
}

/// What was announced and held beside each other, what another reader shows behind that, and the
/// turns that it lost.
fn shown_behind<R: Threads + Sync>(
    rt: &R,
    alloc: Global,
) -> Result<Option<(u64, Holds, Option<(u64, u64)>, u64)>, Fail> {
    let plan = updates(alloc)?;
    let PoolParts {
        pool,
        publisher,
        mut readers,
    } = pool_of(alloc, 3, 2, &plan)?;
    let writer = Writer::new(alloc, &pool, &plan, publisher)?;
    let Some(mut late) = take_holder(&pool, &mut readers) else {
        return Ok(None);
    };
    let Some(holder) = take_holder(&pool, &mut readers) else {
        return Ok(None);
    };
    let (announced, holds) = beside(rt, writer, holder);
    let behind = late.show();
    Ok(Some((announced, holds, behind, late.tally.lost())))
}

#[test]
fn a_reader_holds_versions_beside_the_publisher(rt: HostRuntime) -> Result<(), Fail> {
    // One reader pins one slot at a time, so there is always another one to claim.
    let Some((announced, holds, behind, lost)) = shown_behind(&rt, rt.alloc())? else {
        return Err("no reader".into());
    };
    assert_eq!(rt; announced, LAST);
    assert!(rt; holds.sound && holds.count > 0, "{holds:?}");
    assert_eq!(rt; (behind, lost), (Some((LAST, LAST)), 0));
    Ok(())
}

/// How many of the readers show this in one hold.
fn showing<'a>(pool: &'a Pool<'a>, mut readers: Vec<Reader>, wanted: (u64, u64)) -> u32
    requires { All (IsReaderOf pool.now) readers.items }
{
    let mut count = 0u32;
    for _ in 0..MOST_READERS {
        let Some(mut holder) = take_holder(pool, &mut readers) else {
            break;
        };
        if holder.show() == Some(wanted) {
            count = count.saturating_add(1);
        }
    }
    count
}

/// What the largest pool has announced at last, the turns that were lost, and how many of its
/// readers show the last number.
fn largest(alloc: Global) -> Result<(u64, u64, u32), Fail> {
    let plan = updates(alloc)?;
    let PoolParts {
        pool,
        publisher,
        readers,
    } = pool_of(alloc, MOST_SLOTS, MOST_READERS, &plan)?;
    let mut writer = Writer::new(alloc, &pool, &plan, publisher)?;
    let announced = writer.publish_all();
    let lost = writer.tally.lost();
    Ok((announced, lost, showing(&pool, readers, (LAST, LAST))))
}

#[test]
fn every_reader_of_the_largest_pool_shows_the_last_number(rt: HostRuntime) -> Result<(), Fail> {
    assert_eq!(rt; largest(rt.alloc())?, (LAST, 0, 32));
    Ok(())
}
