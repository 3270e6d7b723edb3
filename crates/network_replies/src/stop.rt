ghost use Rattle.std.specs.Prelude.{◌≡◌};
ghost use Rattle.network_replies.specs.Growing.{as_stop};

use apsp_io::GiveError;
use apsp_model::Memory;
use std::alloc::AllocError;

/// Why a session stops before the end of its input.
#[derive(Clone, Copy, Debug, PartialEq, Eq)]
pub enum Stop {
    /// The source failed.
    Source,
    /// The sink failed.
    Sink,
    /// Want of memory.
    Memory,
    /// The input has more bytes than are read.
    Limit,
}

impl From<Memory> for Stop {
    ghost use Rattle.std.specs.Prelude.{◌≡◌};
    ghost use Rattle.network_replies.specs.declared.stop.Stop.TheVariants as stop;

    ghost from_gives = { λ _ e. e ≡ stop.Memory };

    fn from(_: Memory) -> Stop {
        Stop::Memory
    }
}

impl From<AllocError> for Stop {
    ghost use Rattle.std.specs.Prelude.{◌≡◌};
    ghost use Rattle.network_replies.specs.declared.stop.Stop.TheVariants as stop;

    ghost from_gives = { λ _ e. e ≡ stop.Memory };

    fn from(_: AllocError) -> Stop {
        Stop::Memory
    }
}

/// A sink's answer, as that of a session.
pub fn given(answer: Result<(), GiveError>) -> Result<(), Stop>
    ensures { result ≡ as_stop answer }
{
    match answer {
        Ok(()) => Ok(()),
        Err(GiveError::Failed) => Err(Stop::Sink),
        Err(GiveError::Memory) => Err(Stop::Memory),
    }
}
