//! Names of path records.

ghost use Rattle.std.specs.Prelude.{◌≡◌, ◌^◌, ◌<◌};

use std::marker::Model;

/// The name of one path record of an arena. Contracts see it as the record's key.
#[derive(Clone, Copy, Debug, PartialEq, Eq)]
pub struct PathId {
    key: u32,
}

impl Model for PathId {
    ghost use Rattle.std.specs.Prelude.{ℕ};

    ghost Value = { ℕ };

    ghost view = { λ id. id.key };

    ghost inverse = { λ key. record { key = key } };
}

/// Fills a place that no id has.
impl Default for PathId {
    fn default() -> PathId {
        PathId { key: 0 }
    }
}

impl PathId {
    /// The id of this key, which need not be that of a record.
    pub fn new(key: u32) -> PathId
        ensures { result ≡ key }
    {
        PathId { key }
    }

    /// The key of the record. Two ids are equal exactly where their keys are.
    pub fn key(self) -> usize
        ensures value { result ≡ self }
        ensures small { result < 2 ^ 32 }
    {
        self.key as usize
    }
}
