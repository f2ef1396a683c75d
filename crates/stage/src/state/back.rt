ghost use Rattle.std.specs.Prelude.{◌≡◌, ◌*◌, false, List, length, drop, is_ok, IfOk};
ghost use Rattle.model.specs.Calls.{back_step};
ghost use Rattle.stage.specs.Questions.{back_asked, CanGoBack};
ghost use Rattle.stage.specs.View.{lanes, units_of, world};

use crate::state::Stage;
use av1::{Cell, Refusal};
use journal::{Log, Mark, undo, undo_spots};
use record::Sink;

impl Stage {
    // The mark that the trial of a depth goes back to, or the first question that is answered by no.
    fn ask_back(
        &self,
        entries: usize,
        memory: usize,
        log: &Log<'_>,
        depth: usize,
    ) -> Result<Mark, Refusal>
        ensures answer { result ≡ back_asked (units_of self.now) memory self.now.journal (lanes log.now) entries depth }
        ensures passed { IfOk result (λ m. CanGoBack (units_of self.now) memory self.now.journal (lanes log.now) entries m) }
    {
        self.tile.ask_map(memory)?;
        let journal = &self.journal;
        if journal.used.small > log.small.len()
            || journal.used.large > log.large.len()
            || journal.used.spots > log.spots.len()
        {
            return Err(Refusal::LogRoom);
        }
        journal.ask_innermost(depth)?;
        let mark = journal.marks.as_slice()[journal.marks.len() - 1];
        if entries < mark.entries {
            return Err(Refusal::EntriesGone);
        }
        Ok(mark)
    }

    /// Takes the trial of a depth back: tables, contexts, map and sink are again what they were when it was opened,
    /// and it stays open. A record of the lanes that names a place outside, or that would leave a table unlawful or a
    /// filler word not zero, is passed over.
    pub fn take_back_at<S: Sink>(
        &mut self,
        sink: &mut S,
        map: &mut [Cell],
        log: &Log<'_>,
        depth: usize,
    ) -> Result<(), Refusal>
        ensures step { (result, world self.new map.new (lanes log.now) (S.Sink.list sink.new)) ≡ back_step (length map.old) (S.Sink.rooms sink.old) depth (world self.old map.old (lanes log.now) (S.Sink.list sink.old)) }
        ensures behind { drop (units_of self.old) map.new ≡ drop (units_of self.old) map.old }
        ensures rooms { S.Sink.rooms sink.new ≡ S.Sink.rooms sink.old }
        ensures still { is_ok result ≡ false → (sink.new ≡ sink.old) × (self.new ≡ self.old) × (map.new ≡ map.old) }
    {
        let mark = self.ask_back(sink.count(), map.len(), log, depth)?;
        let units = self.tile.units();
        let _ = undo(
            log.small,
            mark.used.small,
            self.journal.used.small,
            &mut self.tables,
        );
        let _ = undo(
            log.large,
            mark.used.large,
            self.journal.used.large,
            &mut self.tables,
        );
        let _ = undo_spots(
            log.spots,
            mark.used.spots,
            self.journal.used.spots,
            &mut self.contexts.above,
            &mut self.contexts.left,
            &mut map[0..units],
        );
        let _ = sink.cut(mark.entries);
        self.journal.used = mark.used;
        Ok(())
    }
}
