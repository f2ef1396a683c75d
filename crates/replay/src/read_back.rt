ghost use Rattle.std.specs.Prelude.{◌≡◌, ℕ, ◌*◌, false, [], length, take, drop, is_ok, IfOk};
ghost use Rattle.cdf.specs.Lists.{Each};
ghost use Rattle.model.specs.Decisions.{stage as subject};
ghost use Rattle.model.specs.Runs.{reads};
ghost use Rattle.model.specs.Worked.{start};
ghost use Rattle.replay.specs.Books.{Stands};
ghost use Rattle.replay.specs.Reads.{reading_of, answered_first, state_read, ReadsBackTo};
ghost use Rattle.replay.specs.Runs.{stopped_by, write_asked};

use crate::book::Standing;
use crate::read::{ReadRun, read_calls};
use crate::write::ReplayError;
use av1::Cell;
use model::Question;
use packed::{PackedRecord, PackedSource};
use record::{Sink, WordRecord, WordSource};

/// A sink whose record can be read by a source of its own kind.
pub trait ReadBack: Sink {
    /// Puts a list of questions to a reader of the record, from its first entry on, as `read_calls` does.
    fn read_back(
        &self,
        columns: usize,
        rows: usize,
        last: u8,
        map: &mut [Cell],
        questions: &[Question],
        answers: &mut [Standing],
    ) -> Result<ReadRun, ReplayError>
        ensures asked { stopped_by result ≡ write_asked columns rows last (length map.old) (length questions.now) (length answers.old) }
        ensures read { IfOk result (λ r. (place : ℕ) × (reading_of (length questions.now) r.stop answers.new (state_read r.reader map.new) (Self.Sink.list self.now) place ≡ reads subject (length map.old) (start columns rows last) questions.now (Self.Sink.list self.now) 0) × ReadsBackTo (start columns rows last) (Self.Sink.list self.now) questions.now r.stop answers.new (state_read r.reader map.new) place) }
        ensures stands { IfOk result (λ r. Each Stands (take (answered_first (length questions.now) r.stop) answers.new)) }
        ensures behind { drop (columns * rows) map.new ≡ drop (columns * rows) map.old }
        ensures rest { IfOk result (λ r. drop (answered_first (length questions.now) r.stop) answers.new ≡ drop (answered_first (length questions.now) r.stop) answers.old) }
        ensures still { is_ok result ≡ false → (map.new ≡ map.old) × (answers.new ≡ answers.old) };
}

impl ReadBack for WordRecord {
    fn read_back(
        &self,
        columns: usize,
        rows: usize,
        last: u8,
        map: &mut [Cell],
        questions: &[Question],
        answers: &mut [Standing],
    ) -> Result<ReadRun, ReplayError> {
        let mut source = WordSource::new(self.entries());
        read_calls(columns, rows, last, &mut source, map, questions, answers)
    }
}

impl ReadBack for PackedRecord {
    fn read_back(
        &self,
        columns: usize,
        rows: usize,
        last: u8,
        map: &mut [Cell],
        questions: &[Question],
        answers: &mut [Standing],
    ) -> Result<ReadRun, ReplayError> {
        let Ok(mut source) = PackedSource::new(self.bytes()) else {
            unreachable!()
        };
        read_calls(columns, rows, last, &mut source, map, questions, answers)
    }
}
