//! The pool, and how it is made.

ghost use Rattle.std.specs.Prelude.{◌≡◌, ◌≤◌, [], ◌+◌, ◌^◌, All, IfOk, vec_len};
ghost use Rattle.apsp_model.specs.Limits.{IsReaderCount, IsSlotCount};
ghost use Rattle.pin_cells.specs.Pinned.{IsOfPlan};
ghost use Rattle.version_pool.specs.Marks.{mark, view};
ghost use Rattle.version_pool.specs.Pooled.{IsPublisherOf, IsReaderOf, IsReaderAt};
ghost use Rattle.version_pool.specs.declared.word.Role.TheVariants.{Publisher as publishing};

use crate::publisher::Publisher;
use crate::reader::Reader;
use crate::word::{Board, Mark, Place, Word, board, enter};
use apsp_model::Memory;
use graph_store::Plan;
use pin_cells::Cells;
use std::alloc::{AllocError, Global};
use std::marker::Model;
use version_face::Version;

/// The slots, and the word that says which of them is announced. It borrows the plan whose versions
/// stand in the slots.
#[derive(Drop)]
pub struct Pool<'p> {
    pub(crate) board: Board,
    pub(crate) cells: Cells<'p>,
}

impl<'p> Model for Pool<'p> {
    ghost use Rattle.std.specs.Prelude.{◌≡◌, ◌^◌, ◌≤◌};
    ghost use Rattle.apsp_model.specs.declared.TheConstants.{MOST_UPDATES};
    ghost use Rattle.graph_store.specs.Plan.{hi_of};
    ghost use Rattle.version_pool.specs.Pooled.{Pool as Pool_seen, pool_code};

    ghost Value = { Pool_seen };

    ghost coded = { pool_code };

    ghost view = { λ p. record { id = p.board.shared.table_id; plan = p.cells.plan; slots = p.cells.slots } };

    ghost invariant = { λ p. (p.board.shared.table_id.words ≡ 1) × (hi_of p.cells.plan ≤ MOST_UPDATES) };
}

/// A new pool with its one publisher and its readers. Each of these is used with this pool alone.
#[derive(Drop)]
pub struct PoolParts<'p> {
    pub pool: Pool<'p>,
    pub publisher: Publisher,
    pub readers: Vec<Reader>,
}

impl<'p> Pool<'p> {
    /// The number `lo` of the plan is announced in slot 0, and each reader has seen it. It takes
    /// memory for two versions more than there are slots.
    pub fn new(
        alloc: Global,
        slots: u32,
        readers: u32,
        plan: &'p Plan,
        first: &Version,
    ) -> Result<PoolParts<'p>, Memory>
        requires slots { IsSlotCount slots }
        requires readers { IsReaderCount readers }
        requires first { IsOfPlan plan.now first.now }
        requires lo { first.now.number ≡ plan.now.lo }
        ensures plan { IfOk result (λ p. p.pool.plan ≡ plan.entry.now) }
        ensures slots { IfOk result (λ p. p.pool.slots ≡ slots) }
        ensures publisher { IfOk result (λ p. IsPublisherOf p.pool p.publisher) }
        ensures announced { IfOk result (λ p. p.publisher.mark ≡ mark plan.entry.now.lo 0) }
        ensures readers { IfOk result (λ p. vec_len p.readers ≡ readers) }
        ensures own { IfOk result (λ p. All (IsReaderOf p.pool) p.readers.items) }
        ensures seen { IfOk result (λ p. All (λ r. r.mark ≡ mark plan.entry.now.lo 0) p.readers.items) }
    {
        let lo = plan.lo();
        let cells = Cells::new(alloc, slots, plan, first)?;
        let mut spare = Version::new(alloc, first.vertices()).map_err(|_| Memory)?;
        first.copy_into(&mut spare);
        let (board, mut seat) = board(alloc, slots, lo).map_err(|_| Memory)?;
        let mark = Mark {
            number: lo,
            slot: 0,
        };
        let readers = readers_at(alloc, &board.shared, &mut seat, mark, readers).map_err(
            |_| Memory,
        )?;
        Ok(PoolParts {
            pool: Pool { board, cells },
            publisher: Publisher {
                seat,
                mark,
                spare: Some(spare),
            },
            readers,
        })
    }
}

/// So many readers, each of which has seen the mark that is announced.
fn readers_at(
    alloc: Global,
    word: &Word,
    seat: &mut Place,
    mark: Mark,
    count: u32,
) -> Result<Vec<Reader>, AllocError>
    requires word { (word.now.table_id.words ≡ 1) × (seat.old.table_id ≡ word.now.table_id) }
    requires publisher { (seat.old.me.0.role ≡ publishing) × (seat.old.me.0.mark ≡ mark) }
    requires slot { mark.slot + 1 ≤ seat.old.me.0.slots }
    ensures same { (seat.new.table_id ≡ seat.old.table_id) × (seat.new.me ≡ seat.old.me) }
    ensures count { IfOk result (λ all. vec_len all ≡ count) }
    ensures own { IfOk result (λ all. All (IsReaderAt word.now.table_id seat.old.me.0.slots) all.items) }
    ensures seen { IfOk result (λ all. All (λ r. r.mark ≡ mark) all.items) }
{
    let mut all = Vec::with_capacity(alloc, count as usize)?;
    for _ in 0..count {
        let seat = enter(word, seat);
        all.push(Reader { seat, mark })?;
    }
    Ok(all)
}
