//! What holds of the pool as a machine, whatever its readers and its publisher do.

ghost use Rattle.std.specs.Prelude.{◌≡◌, ℕ, ◌≤◌, true, List, Some, length, slice_get};
ghost use Rattle.version_pool.specs.Machine.{MachineState, MachinePin, Event, Steps, Runs, start, pin};
ghost use Rattle.version_pool.specs.Soundness.{IsSound, IsGranted, Rises};

/// What holds after every list of allowed events, from two slots on and for every number of
/// readers: no claimed or announced slot is written while somebody reads it, a pinned slot keeps
/// its content, and what a reader or a note has seen was announced. The numbers that a reader sees
/// do not fall. A granted pin has a number that was announced by then, that is no less than all
/// that its reader had seen, and no more than what the reader sees from then on.
pub fn law_pool()
    ensures sound { (lo slots readers : ℕ) (events : List Event) (s : MachineState) → 2 ≤ slots
        → Runs (start lo slots readers) events s
        → IsSound s }
    ensures rises { (lo slots readers : ℕ) (first later : List Event) (s t : MachineState) → 2 ≤ slots
        → Runs (start lo slots readers) first s → Runs s later t → Rises s t }
    ensures granted { (lo slots readers r : ℕ) (first later : List Event) (s t u : MachineState) (p : MachinePin)
        → 2 ≤ slots → Runs (start lo slots readers) first s → Steps s (pin r) t → Runs t later u
        → slice_get t.pins (length s.pins) ≡ Some p → p.granted ≡ true
        → IsGranted (start lo slots readers) first s r p.number u }
{}
