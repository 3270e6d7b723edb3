//! A law of what a block does to the engine: the contract of a function that does nothing.

ghost use Rattle.std.specs.Prelude.{List};
ghost use Rattle.apsp_model.specs.Command.{Command};
ghost use Rattle.apsp_model.specs.Star.{Star};
ghost use Rattle.history_engine.specs.Seen.{EngineSeen};
ghost use Rattle.history_engine.specs.Advance.{Stands};
ghost use Rattle.block_run.specs.Run.{IsCutOff, StandsForFront};

/// Where memory ran out in a block, the engine stands in outline for what it stood for before with the
/// first ones of the block's updates behind it: a mend makes it stand for that list with a mend behind it.
pub fn law_cut_off()
    ensures { (before after : EngineSeen) (stars : List Star) (commands : List Command) → IsCutOff before stars after
        → Stands before commands → StandsForFront after stars commands }
{}
