//! A run that checks: the whole input is read as a certificate, and one line says what holds of it.

ghost use Rattle.std.specs.Prelude.{◌≡◌, ◌≤◌, [], ◌++◌, length, IfOk, OnOk, Ok, true, string_bytes};
ghost use Rattle.command_line.specs.declared.words.Mode.TheVariants as mode;
ghost use Rattle.cert_check.specs.Tests.{IsVerdict};
ghost use Rattle.apsp_service.specs.Check.{IsChecked, reason_text, verdict_text, verdict_status, fault_text};
ghost use Rattle.apsp_service.specs.Ending.{EndsAs, AllTaken, MoreEnds};
ghost use Rattle.apsp_service.specs.Outcome.{status_after};
ghost use Rattle.network_replies.specs.Streams.{source_seen, streams};

use crate::run::{MOST_INPUT, PIECE, take};
use crate::session::give;
use apsp_io::{Sink, Source};
use cert_check::{Reason, Verdict, check};
use certificate::{CertError, Stated, read_certificate};
use network_replies::Stop;
use std::alloc::{AllocError, Global};
use std::fmt::Write;

/// The number of each test that a line of a certificate may fail.
const SHAPE: u32 = 1;

const ORDER: u32 = 2;

const RANGE: u32 = 3;

/// Reads the input to its end, and gives the sink one line that says what holds of it. Says whether it
/// is no certificate, or none of the least walks of its graph.
pub fn check_input<S: Source, K: Sink>(
    alloc: Global,
    source: &mut S,
    sink: &mut K,
) -> Result<bool, Stop>
    ensures ends { EndsAs mode.Check result
        (streams S.Source K.Sink source.old sink.old) (streams S.Source K.Sink source.new sink.new) }
    ensures source_later { S.faults source.old ≤ S.faults source.new }
    ensures sink_later { K.faults sink.old ≤ K.faults sink.new }
{
    let bytes = take_all(alloc, source)?;
    let mut text = String::new(alloc);
    let refused = put_reply(alloc, &bytes, &mut text)?;
    give(sink, text.as_str())?;
    Ok(refused)
}

/// All bytes of the source.
fn take_all<S: Source>(alloc: Global, source: &mut S) -> Result<Vec<u8>, Stop>
    ensures ends { AllTaken result (source_seen S.Source source.old) (source_seen S.Source source.new) }
    ensures later { S.faults source.old ≤ S.faults source.new }
{
    let mut buffer = [0; PIECE];
    let mut bytes = Vec::new(alloc);
    loop {
        let count = take_more(source, &mut buffer, &mut bytes)?;
        if count == 0 {
            return Ok(bytes);
        }
    }
}

/// Puts one piece more behind the bytes. Says how many bytes it has, 0 at the end of the input.
fn take_more<S: Source>(
    source: &mut S,
    buffer: &mut [u8],
    bytes: &mut Vec<u8>,
) -> Result<usize, Stop>
    requires few { length bytes.old.items ≤ MOST_INPUT }
    requires room { length buffer.old ≡ PIECE }
    ensures ends { MoreEnds result (source_seen S.Source source.old) (source_seen S.Source source.new)
        bytes.old.items bytes.new.items }
    ensures later { S.faults source.old ≤ S.faults source.new }
{
    let room = PIECE.min(MOST_INPUT + 1 - bytes.len());
    let count = take(source, buffer, room)?;
    if bytes.len() + count > MOST_INPUT {
        return Err(Stop::Limit);
    }
    bytes.extend_from_slice(&buffer[..count])?;
    Ok(count)
}

/// Puts behind the text what holds of the bytes, and says whether that is a refusal.
fn put_reply(alloc: Global, bytes: &[u8], text: &mut String) -> Result<bool, AllocError>
    requires { string_bytes text.old ≡ [] }
    ensures { IfOk result (λ refused. IsChecked bytes.now (string_bytes text.new) (status_after (Ok refused))) }
{
    match read_certificate(alloc, bytes) {
        Ok(stated) => put_judgement(text, &stated),
        Err(CertError::Shape(line)) => put_refusal(text, SHAPE, line),
        Err(CertError::Order(line)) => put_refusal(text, ORDER, line),
        Err(CertError::Range(line)) => put_refusal(text, RANGE, line),
        Err(CertError::Memory) => Err(AllocError),
    }
}

/// Puts behind the text what holds of a stated value, and says whether it is not lawful.
fn put_judgement(text: &mut String, stated: &Stated) -> Result<bool, AllocError>
    ensures { IfOk result (λ refused. (verdict : Verdict) × IsVerdict stated.now verdict
        × (string_bytes text.new ≡ string_bytes text.old ++ verdict_text verdict)
        × (status_after (Ok refused) ≡ verdict_status verdict)) }
{
    let verdict = check(stated);
    put_verdict(text, verdict)?;
    Ok(matches!(&verdict, Verdict::No { .. }))
}

/// Puts the fault of a line behind the text, and says that this is a refusal.
fn put_refusal(text: &mut String, code: u32, line: u32) -> Result<bool, AllocError>
    ensures { IfOk result (λ refused. (string_bytes text.new ≡ string_bytes text.old ++ fault_text code line)
        × (refused ≡ true)) }
{
    put_fault(text, code, line)?;
    Ok(true)
}

/// What is said of a certificate.
fn put_verdict(text: &mut String, verdict: Verdict) -> Result<(), AllocError>
    ensures { OnOk result (string_bytes text.new ≡ string_bytes text.old ++ verdict_text verdict) }
{
    match verdict {
        Verdict::Yes(number) => write!(text, "certificate yes {number}\n"),
        Verdict::No { x, y, reason } => {
            write!(text, "certificate no {x} {y} {}\n", reason_word(reason))
        }
    }
}

/// What is said of a text that is no certificate: the test that its first line at fault fails, and the
/// number of that line.
fn put_fault(text: &mut String, code: u32, line: u32) -> Result<(), AllocError>
    ensures { OnOk result (string_bytes text.new ≡ string_bytes text.old ++ fault_text code line) }
{
    write!(text, "certificate error {code} at {line}\n")
}

/// The word for a failing test.
fn reason_word(reason: Reason) -> &'static str
    ensures { result.now ≡ reason_text reason }
{
    match reason {
        Reason::Step => "step",
        Reason::Smaller => "smaller",
        Reason::Missing => "missing",
    }
}
