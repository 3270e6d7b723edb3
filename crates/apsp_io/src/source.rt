ghost use Rattle.std.specs.Prelude.{◌≤◌, List, ℕ, Option, OnErr};
ghost use Rattle.std.specs.Io.{ReadsAtMost};
ghost use Rattle.std.specs.Io.KnownBytes.{ReadConsumes};
ghost use Rattle.apsp_io.specs.Streams.{Rose};

/// An object that was handed in failed.
#[derive(Clone, Copy, Debug, PartialEq, Eq)]
pub struct Failed;

/// Something that bytes are taken from.
pub trait Source {
    /// The bytes that are left, where the source tells them.
    ghost left: { Self → Option (List ℕ) };

    /// How often it failed: a count that does not fall, and stays at the last value of a `u64`.
    ghost faults: { Self → ℕ };

    /// Fills the front of `into` and says how many bytes it gave. Where `left` is told, these are
    /// the first that are left, which it loses. No bytes into a slice that is not empty mean the
    /// end of input. A failure leaves what is left as it was.
    fn take(&mut self, into: &mut [u8]) -> Result<usize, Failed>
        ensures bound { ReadsAtMost result into.new }
        ensures bytes { ReadConsumes (left self.old) (left self.new) result into.new }
        ensures later { faults self.old ≤ faults self.new }

        // It does not give up by itself.
        ensures failed { OnErr result (Rose (faults self.old) (faults self.new)) };
}
