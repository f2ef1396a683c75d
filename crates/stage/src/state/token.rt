ghost use Rattle.std.specs.Prelude.{◌≡◌, ℕ, false, List, length, drop, is_ok, IfErr};
ghost use Rattle.av1.specs.declared.tile.Cell.{Cell};
ghost use Rattle.cdf.specs.declared.entry.Entry.{Entry};
ghost use Rattle.model.specs.Calls.{open_step, back_step, keep_step};
ghost use Rattle.model.specs.Decisions.{stage};
ghost use Rattle.model.specs.Runs.{Lent};
ghost use Rattle.stage.specs.View.{depth_of, kept_of, lanes, open_trials, units_of, world};

use crate::state::{Stage, Trial};
use av1::{Cell, Refusal};
use journal::Log;
use record::Sink;

impl Trial {
    /// How many trials were open right after this one was opened.
    pub fn depth(&self) -> usize
        ensures { result ≡ self.now.depth }
    {
        self.depth
    }
}

impl Stage {
    /// How many trials are open.
    pub fn trials(&self) -> usize
        ensures { result ≡ open_trials self.now.journal }
    {
        self.journal.marks.len()
    }

    /// Opens a trial.
    pub fn open<S: Sink>(&mut self, sink: &S) -> Result<Trial, Refusal>
        ensures step { (memory : List Cell) (rooms : List Entry → ℕ) (l : Lent stage) → (depth_of result, world self.new memory l (S.Sink.list sink.now)) ≡ open_step (length memory) rooms (world self.old memory l (S.Sink.list sink.now)) }
        ensures still { is_ok result ≡ false → self.new ≡ self.old }
    {
        let depth = self.open_at(sink)?;
        Ok(Trial { depth })
    }

    /// Takes a trial back: tables, contexts, map and sink are again what they were when it was opened, and it stays open.
    pub fn take_back<S: Sink>(
        &mut self,
        sink: &mut S,
        map: &mut [Cell],
        log: &Log<'_>,
        trial: &Trial,
    ) -> Result<(), Refusal>
        ensures step { (result, world self.new map.new (lanes log.now) (S.Sink.list sink.new)) ≡ back_step (length map.old) (S.Sink.rooms sink.old) trial.now.depth (world self.old map.old (lanes log.now) (S.Sink.list sink.old)) }
        ensures behind { drop (units_of self.old) map.new ≡ drop (units_of self.old) map.old }
        ensures rooms { S.Sink.rooms sink.new ≡ S.Sink.rooms sink.old }
        ensures still { is_ok result ≡ false → (sink.new ≡ sink.old) × (self.new ≡ self.old) × (map.new ≡ map.old) }
    {
        self.take_back_at(sink, map, log, trial.depth)
    }

    /// Ends a trial, and keeps what was done in it. A trial that is refused is handed back.
    pub fn keep(&mut self, trial: Trial) -> Result<(), (Refusal, Trial)>
        ensures step { (memory : List Cell) (rooms : List Entry → ℕ) (l : Lent stage) (entries : List Entry) → (kept_of result, world self.new memory l entries) ≡ keep_step (length memory) rooms trial.depth (world self.old memory l entries) }
        ensures handed { IfErr result (λ e. e.1 ≡ trial) }
        ensures still { is_ok result ≡ false → self.new ≡ self.old }
    {
        match self.keep_at(trial.depth) {
            Ok(()) => {
                let Trial { depth: _ } = trial;
                Ok(())
            }
            Err(why) => Err((why, trial)),
        }
    }
}
