ghost use Rattle.std.specs.Prelude.{◌≡◌, ◌⊎◌, ◌↔◌, ◌+◌, ◌≤◌, [], map, None, IfSome, IsSome, false, string_bytes};
ghost use Rattle.block_run.specs.Run.{CanRun, HasRun};
ghost use Rattle.command_line.specs.Words.{HasWorkers, mode_of};
ghost use Rattle.std.specs.Io.KnownBytes.{Appends};
ghost use Rattle.apsp_model.specs.Limits.{IsWorkerCount, IsReaderCount, IsSlotCount};
ghost use Rattle.apsp_io.specs.Streams.{Rose};
ghost use Rattle.network_replies.specs.Streams.{streams};
ghost use Rattle.apsp_service.specs.Session.{has_blocks};
ghost use Rattle.apsp_service.specs.Outcome.{status_after, ReadToEnd, IsStatus, IsAnswered, IsStoppedEarly, IsCutShort, IsCheck, IsLoad, IsLoadEnd, IsLoadStatus, TookMoreThan, TookAtMost, SaysTooMuch, SaysRefused, CompletesUnlessFailed};
ghost use Rattle.apsp_service.specs.Ending.{EndsAs};

use crate::check::check_input;
use crate::load::load;
use crate::run::{MOST_INPUT, run};
use crate::terms::Terms;
use apsp_io::{Gate, Sink, Source};
use apsp_model::Memory;
use block_run::{Asks, BlockAnswers, live_block};
use command_line::{Mode, read_words};
use graph_store::Plan;
use history_engine::Engine;
use network_replies::{Executor, LiveBlocks, NoBlocks, Stop};
use std::alloc::Global;
use std::marker::Sync;
use std::sync::Wait;
use std::thread::Threads;

/// Runs a mode without blocks. A script's lines are taken from the source, and the sink is given a reply
/// to each line that has one, as soon as the line is whole; the mode that checks takes the whole input
/// and gives one line, and the mode that generates its input takes nothing and gives one line. It waits
/// for nobody and returns.
///
/// The status is 0 where the input was read to its end and nothing was refused, and 1 where something
/// was. It is 3 or 4 where the source or the sink failed, 5 where memory ran out, and 6 where the
/// input has more than `MOST_INPUT` bytes.
pub fn script<S: Source, K: Sink, G: Gate, R: Threads + Sync>(
    rt: &R,
    alloc: Global,
    mode: &Mode,
    source: &mut S,
    sink: &mut K,
    gate: &G,
) -> u8
    requires workers { HasWorkers mode.now }
    requires no_blocks { has_blocks mode.now ≡ false }
    // Of a status: the session of the whole input gives it, or what failed has counted a fault.
    ensures answered { ReadToEnd result → IsAnswered mode.now
        (streams S.Source K.Sink source.old sink.old) (streams S.Source K.Sink source.new sink.new) result }
    ensures source_failed { result ≡ 3 → Rose (S.faults source.old) (S.faults source.new) }
    ensures sink_failed { result ≡ 4 → Rose (K.faults sink.old) (K.faults sink.new) }
    ensures too_much { result ≡ 6
        → IfSome (S.left source.old) (λ _. TookMoreThan MOST_INPUT (S.left source.old) (S.left source.new)) }
    ensures statuses { IsStatus result }

    // Which status comes: want of memory aside, and what fails.
    ensures says_too_much { TookMoreThan MOST_INPUT (S.left source.old) (S.left source.new)
        → SaysTooMuch result (K.faults sink.old) (K.faults sink.new) }
    ensures says_refused { SaysRefused mode.now
        (streams S.Source K.Sink source.old sink.old) (streams S.Source K.Sink source.new sink.new) result }
    ensures complete { CompletesUnlessFailed mode.now
        (streams S.Source K.Sink source.old sink.old) (streams S.Source K.Sink source.new sink.new) result }

    // What was written by a run that ended early.
    ensures stopped_early { (result ≡ 3) ⊎ (result ≡ 6) → IsStoppedEarly mode.now
        (streams S.Source K.Sink source.old sink.old) (streams S.Source K.Sink source.new sink.new) }
    ensures cut_short { (result ≡ 4) ⊎ (result ≡ 5) → IsCutShort mode.now
        (streams S.Source K.Sink source.old sink.old) (streams S.Source K.Sink source.new sink.new) }
    ensures nothing_written { IsCheck mode.now → (result ≡ 3) ⊎ ((result ≡ 5) ⊎ (result ≡ 6))
        → Appends (K.held sink.old) (K.held sink.new) [] }

    // The mode that generates its input.
    ensures load_statuses { IsLoad mode.now → IsLoadStatus result }
    ensures load_unread { IsLoad mode.now → source.new ≡ source.old }

    ensures takes { TookAtMost (MOST_INPUT + 1) (S.left source.old) (S.left source.new) }
    ensures source_later { S.faults source.old ≤ S.faults source.new }
    ensures sink_later { K.faults sink.old ≤ K.faults sink.new }
{
    status(run_as(rt, alloc, mode, source, sink, gate))
}

/// Runs a mode, and says whether something was refused.
fn run_as<S: Source, K: Sink, G: Gate, R: Threads + Sync>(
    rt: &R,
    alloc: Global,
    mode: &Mode,
    source: &mut S,
    sink: &mut K,
    gate: &G,
) -> Result<bool, Stop>
    requires workers { HasWorkers mode.now }
    requires no_blocks { has_blocks mode.now ≡ false }
    ensures ends { EndsAs mode.now result
        (streams S.Source K.Sink source.old sink.old) (streams S.Source K.Sink source.new sink.new) }
    ensures load { IsLoad mode.now → IsLoadEnd result }
    ensures load_unread { IsLoad mode.now → source.new ≡ source.old }
    ensures source_later { S.faults source.old ≤ S.faults source.new }
    ensures sink_later { K.faults sink.old ≤ K.faults sink.new }
{
    match mode {
        Mode::Run { workers, smooth } => {
            let blocks = NoBlocks;
            let executor = Executor::new(rt, *workers, gate, &blocks);
            run(alloc, &executor, terms(None, *smooth), source, sink)
        }
        Mode::Check => check_input(alloc, source, sink),
        Mode::Load { n, seed, workers } => load(rt, alloc, *n, *seed, *workers, sink, gate),
        Mode::Live { .. } => unreachable!(),
    }
}

/// All that the program does: runs the mode that the words of the command line give. The status is 2
/// where they give none, and nothing is read or written then; otherwise it is that of the mode. In the
/// mode with blocks it may wait: a block's readers wait for its updates.
pub fn top<S: Source, K: Sink, G: Gate, R: Threads + Wait + Sync>(
    rt: &R,
    alloc: Global,
    words: &[String],
    source: &mut S,
    sink: &mut K,
    gate: &G,
) -> u8
    // The words.
    ensures words { (result ≡ 2) ↔ (mode_of (map string_bytes words.now) ≡ None) }
    ensures source_untouched { result ≡ 2 → source.new ≡ source.old }
    ensures sink_untouched { result ≡ 2 → sink.new ≡ sink.old }

    // Of a status: the session of the whole input gives it, or what failed has counted a fault.
    ensures answered { IfSome (mode_of (map string_bytes words.now)) (λ mode. ReadToEnd result → IsAnswered mode
        (streams S.Source K.Sink source.old sink.old) (streams S.Source K.Sink source.new sink.new) result) }
    ensures source_failed { result ≡ 3 → Rose (S.faults source.old) (S.faults source.new) }
    ensures sink_failed { result ≡ 4 → Rose (K.faults sink.old) (K.faults sink.new) }
    ensures too_much { result ≡ 6
        → IfSome (S.left source.old) (λ _. TookMoreThan MOST_INPUT (S.left source.old) (S.left source.new)) }
    ensures statuses { IsSome (mode_of (map string_bytes words.now)) → IsStatus result }

    // Which status comes: want of memory aside, and what fails.
    ensures says_too_much { IsSome (mode_of (map string_bytes words.now))
        → TookMoreThan MOST_INPUT (S.left source.old) (S.left source.new)
        → SaysTooMuch result (K.faults sink.old) (K.faults sink.new) }
    ensures says_refused { IfSome (mode_of (map string_bytes words.now)) (λ mode. SaysRefused mode
        (streams S.Source K.Sink source.old sink.old) (streams S.Source K.Sink source.new sink.new) result) }
    ensures complete { IfSome (mode_of (map string_bytes words.now)) (λ mode. CompletesUnlessFailed mode
        (streams S.Source K.Sink source.old sink.old) (streams S.Source K.Sink source.new sink.new) result) }

    // What was written by a run that ended early.
    ensures stopped_early { IfSome (mode_of (map string_bytes words.now))
        (λ mode. (result ≡ 3) ⊎ (result ≡ 6) → IsStoppedEarly mode
        (streams S.Source K.Sink source.old sink.old) (streams S.Source K.Sink source.new sink.new)) }
    ensures cut_short { IfSome (mode_of (map string_bytes words.now))
        (λ mode. (result ≡ 4) ⊎ (result ≡ 5) → IsCutShort mode
        (streams S.Source K.Sink source.old sink.old) (streams S.Source K.Sink source.new sink.new)) }
    ensures nothing_written { IfSome (mode_of (map string_bytes words.now))
        (λ mode. IsCheck mode → (result ≡ 3) ⊎ ((result ≡ 5) ⊎ (result ≡ 6))
        → Appends (K.held sink.old) (K.held sink.new) []) }

    // The mode that generates its input.
    ensures load_statuses { IfSome (mode_of (map string_bytes words.now)) (λ mode. IsLoad mode → IsLoadStatus result) }
    ensures load_unread { IfSome (mode_of (map string_bytes words.now))
        (λ mode. IsLoad mode → source.new ≡ source.old) }

    ensures takes { TookAtMost (MOST_INPUT + 1) (S.left source.old) (S.left source.new) }
    ensures source_later { S.faults source.old ≤ S.faults source.new }
    ensures sink_later { K.faults sink.old ≤ K.faults sink.new }
{
    match read_words(words) {
        Some(
            Mode::Live {
                workers,
                readers,
                slots,
                smooth,
            },
        ) => {
            let run_one = |engine: &mut Engine, plan: &Plan, asks: &Asks| -> Result<
                BlockAnswers,
                Memory,
            >
                requires workers { IsWorkerCount workers }
                requires readers { IsReaderCount readers }
                requires slots { IsSlotCount slots }
                requires can { CanRun engine.old plan.now asks.now }
                ensures { HasRun readers engine.old plan.now asks.now result engine.new }
            { live_block(rt, alloc, engine, plan, asks, readers, slots, workers, gate) };
            let blocks = LiveBlocks::new(readers, &run_one);
            let executor = Executor::new(rt, workers, gate, &blocks);
            status(run(alloc, &executor, terms(Some(readers), smooth), source, sink))
        }
        Some(mode) => script(rt, alloc, &mode, source, sink, gate),
        None => 2,
    }
}

/// The terms of a mode that serves all commands, with so many readers of a block if it has blocks.
fn terms(readers: Option<u32>, smooth: bool) -> Terms
    ensures { result ≡ record { readers = readers; smooth = smooth; no_age = false; no_grow = false } }
{
    Terms {
        readers,
        smooth,
        no_age: false,
        no_grow: false,
    }
}

/// The status of a run that came to the end of its input, or stopped.
fn status(end: Result<bool, Stop>) -> u8
    ensures { result ≡ status_after end }
{
    match end {
        Ok(false) => 0,
        Ok(true) => 1,
        Err(Stop::Source) => 3,
        Err(Stop::Sink) => 4,
        Err(Stop::Memory) => 5,
        Err(Stop::Limit) => 6,
    }
}
