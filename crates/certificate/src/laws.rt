//! Laws of certificates, each the contract of a function that does nothing.

ghost use Rattle.std.specs.Prelude.{◌≡◌, ◌<◌, ◌^◌, ◌↔◌, ℕ, List, Ok, Err};
ghost use Rattle.apsp_model.specs.Graph.{IsGraph};
ghost use Rattle.apsp_model.specs.Stated.{Stated, IsLawful};
ghost use Rattle.version_face.specs.Seen.{VersionSeen};
ghost use Rattle.certificate.specs.Grammar.{IsCertText, IsWritable, first_line};
ghost use Rattle.certificate.specs.Giving.{IsStatedOf};
ghost use Rattle.certificate.specs.Reading.{stated_by};

use crate::{CertError, MOST_DIGITS};

/// A stated value has one text with the same first line, and a text states one value. What is read of a text is the value that it
/// states, and where it states none the fault is one of a line.
pub fn law_one_certificate()
    ensures text { (s : Stated) (a b : List ℕ) → IsCertText s a → IsCertText s b
        → first_line a ≡ first_line b → a ≡ b }
    ensures stated { (s t : Stated) (a : List ℕ) → IsCertText s a → IsCertText t a → s ≡ t }
    ensures read { (s : Stated) (a : List ℕ) → IsCertText s a ↔ (stated_by a ≡ Ok s) }
    ensures fault { (a : List ℕ) → stated_by a ≡ Err CertError.Memory → ⊥ }
{}

/// A version states exactly one value, which is lawful, and which can be written where the version's
/// number has few enough digits.
pub fn law_version()
    ensures some { (v : VersionSeen) → (s : Stated) × IsStatedOf v s }
    ensures one { (v : VersionSeen) (s t : Stated) → IsStatedOf v s → IsStatedOf v t → s ≡ t }
    ensures lawful { (v : VersionSeen) (s : Stated) → IsStatedOf v s → IsLawful s }
    ensures writable { (v : VersionSeen) (s : Stated) → IsGraph v.graph → v.number < 10 ^ MOST_DIGITS → IsStatedOf v s
        → IsWritable s }
{}
