ghost use Rattle.std.specs.Prelude.{◌≡◌, ◌+◌, ◌-◌, ◌≤◌, ◌↔◌, [], ◌++◌, take, drop, length, Contains, Some, None, IfOk, OnOk, OnErr, IfErr, IsErr, IsErrOf, IsTrue, IsSomeAnd, IfSome, ◌^◌, ◌<◌};
ghost use Rattle.std.specs.Io.{ReadsAtMost};
ghost use Rattle.std.specs.Io.KnownBytes.{ReadConsumes, Appends};
ghost use Rattle.apsp_io.specs.Streams.{next_count, Rose, GrowsByPrefix};
ghost use Rattle.apsp_io.specs.Memory.{Source as SourceState, Sink as SinkState, given, cutoff_at};

use crate::{Failed, GiveError, Sink, Source};
use std::alloc::Global;
use std::marker::Model;

/// A source over bytes in memory, which gives them in pieces and fails at the calls that are
/// listed.
#[derive(Drop)]
pub struct MemorySource {
    bytes: Vec<u8>,
    place: usize,
    piece: usize,
    failing: Vec<u64>,
    calls: u64,
    faults: u64,
}

impl Model for MemorySource {
    ghost use Rattle.std.specs.Prelude.{◌≤◌, drop, vec_len};
    ghost use Rattle.apsp_io.specs.Memory.{Source};

    ghost Value = { Source };

    ghost use Rattle.apsp_io.specs.MemoryInside.{IsLawfulSource};

    ghost view = { λ s. record {
      left = drop s.place s.bytes.items;
      piece = s.piece;
      failing = s.failing.items;
      calls = s.calls;
      faults = s.faults;
    } };

    ghost invariant = { IsLawfulSource };
}

impl MemorySource {
    /// The calls are counted from 1, and those whose number stands in `failing` fail. Each other
    /// call gives as many bytes as the least of `piece`, the room and what is left. Takes no
    /// memory.
    pub fn new(bytes: Vec<u8>, piece: usize, failing: Vec<u64>) -> Self
        requires { 1 ≤ piece }
        ensures { result
            ≡ record { left = bytes.items; piece = piece; failing = failing.items; calls = 0; faults = 0 } }
    {
        MemorySource {
            bytes,
            place: 0,
            piece,
            failing,
            calls: 0,
            faults: 0,
        }
    }
}

impl Source for MemorySource {
    ghost left = { λ s. Some s.left };

    ghost faults = { λ s. s.faults };

    fn take(&mut self, into: &mut [u8]) -> Result<usize, Failed>
        ensures bound { ReadsAtMost result into.new }
        ensures bytes { ReadConsumes (Some self.old.left) (Some self.new.left) result into.new }
        ensures later { self.old.faults ≤ self.new.faults }
        ensures failed { OnErr result (Rose self.old.faults self.new.faults) }

        ensures fails { IsErr result ↔ Contains self.old.failing (self.old.calls + 1) }
        ensures count { IfOk result (λ k. k ≡ given self.old into.old) }
        ensures into { IfOk result (λ k. into.new ≡ take k self.old.left ++ drop k into.old) }
        ensures ok { IfOk result
            (λ k. self.new ≡ record self.old { left = drop k self.old.left; calls = next_count self.old.calls }) }
        ensures err { OnErr result
            (self.new ≡ record self.old { calls = next_count self.old.calls; faults = self.old.faults + 1 }) }
        ensures err_into { OnErr result (into.new ≡ into.old) }
    {
        let fails = is_listed(&self.failing, self.calls);
        self.calls = self.calls.saturating_add(1);
        if fails {
            self.faults += 1;
            return Err(Failed);
        }
        let rest = &self.bytes[self.place..];
        let count = self.piece.min(into.len().min(rest.len()));
        into[..count].copy_from_slice(&rest[..count]);
        self.place += count;
        Ok(count)
    }
}

/// Whether the call after so many is one of those that fail. The count of calls stays at its last
/// value, and a call behind that has no number.
fn is_listed(failing: &[u64], calls: u64) -> bool
    ensures listed { IsTrue result ↔ Contains failing.now (calls + 1) }
    ensures numbered { IsTrue result → calls + 1 < 2 ^ 64 }
{
    calls
        .checked_add(1)
        .is_some_and(|number| failing.contains(&number))
}

/// The call of this number fails, and the sink then holds the first `kept` bytes of its piece, or
/// the whole piece if it is shorter.
#[derive(Clone, Copy, Debug, PartialEq, Eq)]
pub struct Cutoff {
    pub call: u64,
    pub kept: usize,
}

/// A sink that holds bytes in memory, and fails at the calls that are listed.
#[derive(Drop)]
pub struct MemorySink {
    failing: Vec<Cutoff>,
    held: Vec<u8>,
    calls: u64,
    faults: u64,
}

impl Model for MemorySink {
    ghost use Rattle.std.specs.Prelude.{◌≤◌};
    ghost use Rattle.apsp_io.specs.Memory.{Sink};

    ghost Value = { Sink };

    ghost view = { λ s. record { held = s.held.items; failing = s.failing.items; calls = s.calls; faults = s.faults } };

    ghost invariant = { λ s. s.faults ≤ s.calls };
}

impl MemorySink {
    /// The calls are counted from 1. Of several entries with one call the first counts. Takes no
    /// memory by itself.
    pub fn new(alloc: Global, failing: Vec<Cutoff>) -> Self
        ensures { result ≡ record { held = []; failing = failing.items; calls = 0; faults = 0 } }
    {
        MemorySink {
            failing,
            held: Vec::new(alloc),
            calls: 0,
            faults: 0,
        }
    }

    /// The bytes that it holds. Takes no memory.
    pub fn held(&self) -> &[u8]
        ensures { result.now ≡ self.now.held }
    {
        &self.held
    }
}

impl Sink for MemorySink {
    ghost held = { λ s. Some s.held };

    ghost faults = { λ s. s.faults };

    fn give(&mut self, piece: &[u8]) -> Result<(), GiveError>
        ensures given { OnOk result (Appends (Some self.old.held) (Some self.new.held) piece.now) }
        ensures part { IsErrOf result GiveError.Failed
            → GrowsByPrefix (Some self.old.held) (Some self.new.held) piece.now }
        ensures later { self.old.faults ≤ self.new.faults }
        ensures failed { IsErrOf result GiveError.Failed → Rose self.old.faults self.new.faults }
        ensures memory { IsErrOf result GiveError.Memory → Some self.new.held ≡ Some self.old.held }
        ensures memory_faults { IsErrOf result GiveError.Memory → self.new.faults ≡ self.old.faults }

        ensures gives { OnOk result (cutoff_at self.old.failing (self.old.calls + 1) ≡ None) }
        ensures fails { IsErrOf result GiveError.Failed → IsSomeAnd (cutoff_at self.old.failing (self.old.calls + 1))
            (λ cutoff. self.new ≡ record self.old {
              held = self.old.held ++ take cutoff.kept piece.now;
              calls = next_count self.old.calls;
              faults = self.old.faults + 1;
            }) }
        ensures ok { OnOk result
            (self.new ≡ record self.old { held = self.old.held ++ piece.now; calls = next_count self.old.calls }) }
        ensures nothing { IsErrOf result GiveError.Memory
            → self.new ≡ record self.old { calls = next_count self.old.calls } }
    {
        let cutoff = cutoff_after(&self.failing, self.calls);
        self.calls = self.calls.saturating_add(1);
        match cutoff {
            None => append(&mut self.held, piece),
            Some(cutoff) => {
                let kept = cutoff.kept.min(piece.len());
                append(&mut self.held, &piece[..kept])?;
                self.faults += 1;
                Err(GiveError::Failed)
            }
        }
    }
}

/// The first cutoff of the call after so many. The count of calls stays at its last value, and a
/// call behind that has no number.
fn cutoff_after(failing: &[Cutoff], calls: u64) -> Option<Cutoff>
    ensures first { result ≡ cutoff_at failing.now (calls + 1) }
    ensures numbered { IfSome result (λ cutoff. cutoff.call ≡ calls + 1) }
{
    let number = u128::from(calls) + 1;
    failing
        .iter()
        .copied()
        .find(|cutoff| u128::from(cutoff.call) == number)
}

/// Puts the piece behind what is held, or leaves it as it was.
fn append(held: &mut Vec<u8>, piece: &[u8]) -> Result<(), GiveError>
    ensures ok { OnOk result (held.new.items ≡ held.old.items ++ piece.now) }
    ensures err { OnErr result (held.new.items ≡ held.old.items) }
    ensures memory { IfErr result (λ e. e ≡ GiveError.Memory) }
{
    match held.extend_from_slice(piece) {
        Ok(()) => Ok(()),
        Err(_) => Err(GiveError::Memory),
    }
}
