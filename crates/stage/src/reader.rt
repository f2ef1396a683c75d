ghost use Rattle.std.specs.Prelude.{◌≡◌};
ghost use Rattle.stage.specs.View.{open_trials};

use crate::state::Stage;

mod alphas;
mod cells;
pub mod fault;
mod partition;
mod segment;
mod skip;
mod start;
mod symbols;
mod vector;

/// The reader of one tile. The map and the source are lent to each call. It is a stage on which no trial is ever opened,
/// so that nothing is logged.
#[derive(Drop)]
pub struct Reader {
    stage: Stage,
    ghost closed: { open_trials stage.journal ≡ 0 },
}
