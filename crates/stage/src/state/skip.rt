ghost use Rattle.std.specs.Prelude.{◌≡◌, true, false, List, length, drop, is_ok};
ghost use Rattle.model.specs.Calls.{decision_step};
ghost use Rattle.model.specs.declared.Question.TheVariants as question;
ghost use Rattle.stage.specs.Cells.{FlagSet};
ghost use Rattle.stage.specs.Lanes.{SameMemory};
ghost use Rattle.stage.specs.View.{world, lanes, units_of};

use crate::state::cells::Change;
use crate::state::{Stage, Table};
use av1::{BlockSize, Cell, Refusal, TileBlockOffset};
use journal::{Counts, Log};
use record::Sink;

// In this call and the others `behind`, `rooms`, `still` and `memory` relate the two ends of a call, so that no type can
// hold them.
impl Stage {
    /// Codes whether a block is skipped, and sets the flag in its cells inside the tile. Answers how many entries
    /// were written: one.
    pub fn write_skip<S: Sink>(
        &mut self,
        sink: &mut S,
        map: &mut [Cell],
        log: &mut Log<'_>,
        bo: TileBlockOffset,
        bsize: BlockSize,
        skip: bool,
    ) -> Result<usize, Refusal>
        ensures step { (result, world self.new map.new (lanes log.new) (S.Sink.list sink.new)) ≡ decision_step (length map.old) (S.Sink.rooms sink.old) (question.Skip bo.x bo.y bsize) skip (world self.old map.old (lanes log.old) (S.Sink.list sink.old)) }
        ensures cells { is_ok result ≡ true → FlagSet self.old.tile bo.x bo.y bsize skip map.old map.new }
        ensures behind { drop (units_of self.old) map.new ≡ drop (units_of self.old) map.old }
        ensures rooms { S.Sink.rooms sink.new ≡ S.Sink.rooms sink.old }
        ensures still { is_ok result ≡ false → (sink.new ≡ sink.old) × (self.new ≡ self.old) × (map.new ≡ map.old) }
        ensures memory { SameMemory log.new log.old }
    {
        let tile = self.tile;
        let block = tile.ask_block(map.len(), 64, bo, bsize)?;
        self.journal.ask_record(
            log,
            sink.room(),
            1,
            Counts {
                small: 1,
                large: 0,
                spots: block.height * block.width,
            },
        )?;
        let cells = &mut map[0..tile.units()];
        let ctx = tile.skip_context(cells, bo);
        self.symbol(
            sink,
            log,
            Table {
                first: 2 * ctx,
                n: 2,
            },
            skip as usize,
        );
        self.journal
            .set_block(cells, log.spots, tile.cols(), block, Change::Skip(skip));
        Ok(1)
    }
}
