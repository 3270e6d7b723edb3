//! The certificate of a version, written, read back and checked.

ghost use Rattle.std.specs.Prelude.{◌≡◌, ◌<◌, ◌^◌, IfOk};
ghost use Rattle.apsp_model.specs.Graph.{IsGraph};
ghost use Rattle.apsp_model.specs.Stated.{Stated as Stated_model, IsLawful};
ghost use Rattle.certificate.specs.Giving.{IsStatedOf};
ghost use Rattle.certificate.specs.Grammar.{text_of, IsCertText};

use crate::text::Text;
use apsp_io::GiveError;
use apsp_model::Memory;
use cert_check::{Verdict, check};
use certificate::laws::law_version;
use certificate::{CertError, MOST_DIGITS, Stated, read_certificate, write_certificate};
use std::alloc::Global;
use version_face::Version;

/// What the certificate of a version states, as it was read back. The checker says yes to it.
pub fn certify(alloc: Global, version: &Version) -> Result<Stated, Memory>
    requires { version.now.number < 10 ^ MOST_DIGITS }
    ensures stated { IfOk result (IsStatedOf version.now) }
    ensures lawful { IfOk result IsLawful }
{
    law_version();
    let text = written(alloc, version)?;
    let stated = read_back(alloc, version, &text)?;
    match check(&stated) {
        Verdict::Yes(_) => Ok(stated),
        // The least walks of a graph are lawful.
        Verdict::No { .. } => unreachable!(),
    }
}

/// The certificate of a version.
fn written(alloc: Global, version: &Version) -> Result<Text, Memory>
    requires { version.now.number < 10 ^ MOST_DIGITS }
    ensures text { IfOk result (λ t. (s : Stated_model) × IsStatedOf version.now s × (t ≡ text_of s)) }
{
    let mut text = Text::new(alloc);
    match write_certificate(version, &mut text) {
        Ok(()) => Ok(text),
        Err(GiveError::Memory) => Err(Memory),
        Err(GiveError::Failed) => unreachable!(),
    }
}

/// What the certificate of a version states.
fn read_back(alloc: Global, version: &Version, text: &Text) -> Result<Stated, Memory>
    requires digits { version.now.number < 10 ^ MOST_DIGITS }
    requires text { (s : Stated_model) × IsStatedOf version.now s × (text.now ≡ text_of s) }
    ensures { IfOk result (IsStatedOf version.now) }
{
    law_version();
    // The version's graph is a graph.
    let _vertices = version.vertices();
    match read_certificate(alloc, text.bytes()) {
        Ok(stated) => Ok(stated),
        Err(error) => match error {
            CertError::Memory => Err(Memory),
            // What is written is a text of the grammar.
            CertError::Shape(_) | CertError::Order(_) | CertError::Range(_) => unreachable!(),
        },
    }
}
