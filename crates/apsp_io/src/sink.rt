ghost use Rattle.std.specs.Prelude.{◌≡◌, ◌≤◌, List, ℕ, Option, OnOk, IsErrOf};
ghost use Rattle.std.specs.Io.KnownBytes.{Appends};
ghost use Rattle.apsp_io.specs.Streams.{Rose, GrowsByPrefix};

/// Why a sink did not take a piece: the sink failed, or memory ran out.
#[derive(Clone, Copy, Debug, PartialEq, Eq)]
pub enum GiveError {
    Failed,
    Memory,
}

/// Something that bytes are given to.
pub trait Sink {
    /// The bytes that it holds, where the sink tells them.
    ghost held: { Self → Option (List ℕ) };

    /// How often it failed: a count that does not fall, and stays at the last value of a `u64`.
    ghost faults: { Self → ℕ };

    /// Gives the whole piece. After a failure a prefix of the piece was taken, and after want of
    /// memory nothing was.
    fn give(&mut self, piece: &[u8]) -> Result<(), GiveError>
        ensures given { OnOk result (Appends (held self.old) (held self.new) piece.now) }
        ensures part { IsErrOf result GiveError.Failed → GrowsByPrefix (held self.old) (held self.new) piece.now }
        ensures later { faults self.old ≤ faults self.new }

        // It does not give up by itself.
        ensures failed { IsErrOf result GiveError.Failed → Rose (faults self.old) (faults self.new) }

        ensures memory { IsErrOf result GiveError.Memory → held self.new ≡ held self.old }
        ensures memory_faults { IsErrOf result GiveError.Memory → faults self.new ≡ faults self.old };
}
