//! The law of verdicts: the contract of a function that does nothing.

ghost use Rattle.std.specs.Prelude.{◌≡◌};
ghost use Rattle.apsp_model.specs.Stated.{Stated, IsInRange};
ghost use Rattle.cert_check.specs.declared.Verdict.{Verdict};
ghost use Rattle.cert_check.specs.Tests.{IsVerdict};

/// A stated value whose numbers are in range has exactly one verdict.
pub fn law_verdict()
    ensures some { (s : Stated) → IsInRange s → (v : Verdict) × IsVerdict s v }
    ensures one { (s : Stated) (v w : Verdict) → IsVerdict s v → IsVerdict s w → v ≡ w }
{}
