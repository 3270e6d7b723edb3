//! A run over generated input: nothing is read, and one line says what holds at its end.

ghost use Rattle.std.specs.Prelude.{◌≡◌, ◌≤◌, ◌++◌, OnOk, string_bytes};
ghost use Rattle.apsp_model.specs.Limits.{IsWorkerCount};
ghost use Rattle.command_line.specs.Words.{IsLoadSize};
ghost use Rattle.apsp_service.specs.Load.{load_text};
ghost use Rattle.apsp_service.specs.Outcome.{IsLoadEnd};
ghost use Rattle.apsp_service.specs.Ending.{EndsAs};
ghost use Rattle.network_replies.specs.Streams.{SourceSeen, sink_seen};
ghost use Rattle.command_line.specs.declared.words.Mode.TheVariants as mode;

use crate::session::give;
use apsp_io::{Gate, Sink};
use load_run::{LoadReport, run_load};
use network_replies::Stop;
use std::alloc::{AllocError, Global};
use std::fmt::Write;
use std::marker::Sync;
use std::thread::Threads;

/// Runs the input that the seed draws on n vertices, and gives the sink one line. Nothing is refused.
pub fn load<K: Sink, G: Gate, R: Threads + Sync>(
    rt: &R,
    alloc: Global,
    n: u32,
    seed: u64,
    workers: u32,
    sink: &mut K,
    gate: &G,
) -> Result<bool, Stop>
    requires size { IsLoadSize n }
    requires workers { IsWorkerCount workers }
    // No source is touched, whatever it has left.
    ensures ends { (source : SourceSeen) → EndsAs (mode.Load n seed workers) result
        (record { source = source; sink = sink_seen K.Sink sink.old })
        (record { source = source; sink = sink_seen K.Sink sink.new }) }
    ensures load { IsLoadEnd result }
    ensures later { K.faults sink.old ≤ K.faults sink.new }
{
    let report = run_load(rt, alloc, n, seed, workers, gate)?;
    let mut text = String::new(alloc);
    put_load(&mut text, n, seed, &report)?;
    give(sink, text.as_str())?;
    Ok(false)
}

/// Puts the line of a report behind the text.
fn put_load(text: &mut String, n: u32, seed: u64, report: &LoadReport) -> Result<(), AllocError>
    ensures { OnOk result (string_bytes text.new ≡ string_bytes text.old ++ load_text n seed report.now) }
{
    write!(
        text,
        "load {n} {seed} updates {} pairs {} sum {} paths {} historical {} certificate yes\n",
        report.updates, report.pairs, report.sum, report.paths, report.historical
    )
}
