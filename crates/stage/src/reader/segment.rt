ghost use Rattle.std.specs.Prelude.{◌≡◌, ◌≤◌, false, length, drop, is_ok};
ghost use Rattle.model.specs.declared.Question.TheVariants as question;
ghost use Rattle.model.specs.Decisions.{segment_tree};
ghost use Rattle.model.specs.Reading.{read_step};
ghost use Rattle.stage.specs.Faults.{seen};
ghost use Rattle.stage.specs.Reads.{point, Reads};
ghost use Rattle.stage.specs.View.{state_of, units_of};

use crate::reader::Reader;
use crate::reader::fault::{ReadError, ReadFault};
use crate::state::Table;
use crate::state::cells::Change;
use av1::{BlockSize, Cell, TileBlockOffset, neg_deinterleave};
use record::Source;

impl Reader {
    // Reads a segment near its prediction. That of a skipped block is the prediction, and has no symbol.
    fn decode_segment<Q: Source>(
        &mut self,
        source: &mut Q,
        number: usize,
        prediction: u8,
        skip: bool,
    ) -> Result<u8, ReadFault>
        requires number { number ≤ 2 }
        requires prediction { prediction ≤ self.old.stage.last }
        ensures reads { Reads (Q.Source.place source.old) (segment_tree skip number self.old.stage.last prediction) (point self.old.stage (Q.Source.list source.old) (Q.Source.place source.old)) (point self.new.stage (Q.Source.list source.new) (Q.Source.place source.new)) result }
        ensures still { is_ok result ≡ false → (self.new ≡ self.old) × (Q.Source.place source.new ≡ Q.Source.place source.old) }
    {
        if skip {
            return Ok(prediction);
        }
        let start = source.place();
        let saved = self.stage.tables;
        let table = Table {
            first: 30 + 8 * number,
            n: 8,
        };
        let s = self.read_entry(source, start, table)?;
        let Some(segment) = neg_deinterleave(s, prediction, self.stage.last + 1) else {
            self.go_back(source, saved, start);
            return Err(ReadFault::AboveLast {
                entry: 0,
                table: table.first,
                place: start,
            });
        };
        Ok(segment)
    }

    /// Reads the segment of a block, and sets it in the block's cells inside the tile. That of a skipped block is the
    /// prediction, and nothing is read.
    pub fn read_segmentation<Q: Source>(
        &mut self,
        source: &mut Q,
        map: &mut [Cell],
        bo: TileBlockOffset,
        bsize: BlockSize,
        skip: bool,
    ) -> Result<usize, ReadError>
        ensures step { (seen result, state_of self.new.stage map.new, Q.Source.place source.new) ≡ read_step (length map.old) (Q.Source.list source.old) (question.Segment bo.x bo.y bsize skip) (state_of self.old.stage map.old) (Q.Source.place source.old) }
        ensures behind { drop (units_of self.old.stage) map.new ≡ drop (units_of self.old.stage) map.old }
        ensures list { Q.Source.list source.new ≡ Q.Source.list source.old }
        ensures still { is_ok result ≡ false → (self.new ≡ self.old) × (map.new ≡ map.old) }
    {
        let tile = self.stage.tile;
        let block = tile.ask_block(map.len(), 64, bo, bsize)?;
        let cells = &map[0..tile.units()];
        let (prediction, number) = tile.get_segment_pred(cells, bo, self.stage.last);
        let segment = self.decode_segment(source, number, prediction, skip)?;
        self.set_cells(map, block, Change::Segment(segment));
        Ok(usize::from(segment))
    }
}
