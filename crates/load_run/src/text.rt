//! A sink for the text of a certificate.

ghost use Rattle.std.specs.Prelude.{◌≡◌, [], Some};

use apsp_io::{GiveError, Sink};
use std::alloc::Global;
use std::marker::Model;

/// Bytes in memory. As a sink it never fails; it may want memory.
#[derive(Drop)]
pub struct Text {
    bytes: Vec<u8>,
}

impl Model for Text {
    ghost use Rattle.std.specs.Prelude.{ℕ, List};

    ghost Value = { List ℕ };

    ghost view = { λ t. t.bytes.items };
}

impl Text {
    pub fn new(alloc: Global) -> Text
        ensures { result ≡ [] }
    {
        Text {
            bytes: Vec::new(alloc),
        }
    }

    pub fn bytes(&self) -> &[u8]
        ensures { result.now ≡ self.now }
    {
        &self.bytes
    }
}

impl Sink for Text {
    ghost held = { λ t. Some t };

    ghost faults = { λ _. 0 };

    fn give(&mut self, piece: &[u8]) -> Result<(), GiveError> {
        match self.bytes.extend_from_slice(piece) {
            Ok(()) => Ok(()),
            Err(_) => Err(GiveError::Memory),
        }
    }
}
