ghost use Rattle.std.specs.Prelude.{◌≡◌, ℕ, false, List, length, is_ok};
ghost use Rattle.av1.specs.declared.tile.Cell.{Cell};
ghost use Rattle.cdf.specs.declared.entry.Entry.{Entry};
ghost use Rattle.model.specs.Calls.{row_step};
ghost use Rattle.model.specs.Decisions.{stage};
ghost use Rattle.model.specs.Runs.{Lent};
ghost use Rattle.stage.specs.View.{world};

use crate::state::Stage;
use av1::Refusal;

impl Stage {
    /// Starts a row of superblocks: the contexts left of it are zero again. No trial may be open.
    pub fn reset_left_contexts(&mut self) -> Result<(), Refusal>
        ensures step { (memory : List Cell) (rooms : List Entry → ℕ) (l : Lent stage) (entries : List Entry) → (result, world self.new memory l entries) ≡ row_step (length memory) rooms (world self.old memory l entries) }
        ensures still { is_ok result ≡ false → self.new ≡ self.old }
    {
        if !self.journal.marks.is_empty() {
            return Err(Refusal::TrialOpen);
        }
        self.contexts.left = [0; 8];
        Ok(())
    }
}
