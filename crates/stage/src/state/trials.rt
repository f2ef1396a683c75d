ghost use Rattle.std.specs.Prelude.{◌≡◌, ℕ, ◌<◌, false, List, length, is_ok, OnOk};
ghost use Rattle.av1.specs.declared.tile.Cell.{Cell};
ghost use Rattle.cdf.specs.declared.entry.Entry.{Entry};
ghost use Rattle.model.specs.Calls.{open_step, keep_step};
ghost use Rattle.model.specs.Decisions.{stage};
ghost use Rattle.model.specs.Runs.{Lent};
ghost use Rattle.stage.specs.Questions.{innermost_asked};
ghost use Rattle.stage.specs.View.{open_trials, world};

use crate::state::{Journal, Stage};
use av1::Refusal;
use journal::{Counts, Mark};
use record::Sink;

impl Journal {
    // Whether the trial of this depth is the innermost one.
    pub(super) fn ask_innermost(&self, depth: usize) -> Result<(), Refusal>
        ensures answer { result ≡ innermost_asked (open_trials self.now) depth }
        ensures open { OnOk result (0 < open_trials self.now) }
    {
        if self.marks.is_empty() || depth != self.marks.len() {
            return Err(Refusal::NotInnermost);
        }
        Ok(())
    }
}

impl Stage {
    /// Opens a trial and answers its depth, for a caller that holds a trial as a number.
    pub fn open_at<S: Sink>(&mut self, sink: &S) -> Result<usize, Refusal>
        ensures step { (memory : List Cell) (rooms : List Entry → ℕ) (l : Lent stage) → (result, world self.new memory l (S.Sink.list sink.now)) ≡ open_step (length memory) rooms (world self.old memory l (S.Sink.list sink.now)) }
        ensures still { is_ok result ≡ false → self.new ≡ self.old }
    {
        if self.journal.marks.is_full() {
            return Err(Refusal::TooManyTrials);
        }
        self.journal.marks.push(Mark {
            used: self.journal.used,
            entries: sink.count(),
        });
        Ok(self.journal.marks.len())
    }

    /// Ends the trial of a depth, and keeps what was done in it.
    pub fn keep_at(&mut self, depth: usize) -> Result<(), Refusal>
        ensures step { (memory : List Cell) (rooms : List Entry → ℕ) (l : Lent stage) (entries : List Entry) → (result, world self.new memory l entries) ≡ keep_step (length memory) rooms depth (world self.old memory l entries) }
        ensures still { is_ok result ≡ false → self.new ≡ self.old }
    {
        self.journal.ask_innermost(depth)?;
        let _ = self.journal.marks.pop();
        if self.journal.marks.is_empty() {
            self.journal.used = Counts::default();
        }
        Ok(())
    }
}
