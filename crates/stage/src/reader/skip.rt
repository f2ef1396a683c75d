ghost use Rattle.std.specs.Prelude.{◌≡◌, false, length, drop, is_ok};
ghost use Rattle.model.specs.declared.Question.TheVariants as question;
ghost use Rattle.model.specs.Reading.{read_step};
ghost use Rattle.stage.specs.Faults.{seen};
ghost use Rattle.stage.specs.View.{state_of, units_of};

use crate::reader::Reader;
use crate::reader::fault::ReadError;
use crate::state::Table;
use crate::state::cells::Change;
use av1::{BlockSize, Cell, TileBlockOffset};
use record::Source;

// In this call and the others `list`, `behind` and `still` relate the two ends of a call, so that no type can hold them.
impl Reader {
    /// Reads whether a block is skipped, and sets the flag in its cells inside the tile.
    pub fn read_skip<Q: Source>(
        &mut self,
        source: &mut Q,
        map: &mut [Cell],
        bo: TileBlockOffset,
        bsize: BlockSize,
    ) -> Result<bool, ReadError>
        ensures step { (seen result, state_of self.new.stage map.new, Q.Source.place source.new) ≡ read_step (length map.old) (Q.Source.list source.old) (question.Skip bo.x bo.y bsize) (state_of self.old.stage map.old) (Q.Source.place source.old) }
        ensures behind { drop (units_of self.old.stage) map.new ≡ drop (units_of self.old.stage) map.old }
        ensures list { Q.Source.list source.new ≡ Q.Source.list source.old }
        ensures still { is_ok result ≡ false → (self.new ≡ self.old) × (map.new ≡ map.old) }
    {
        let tile = self.stage.tile;
        let block = tile.ask_block(map.len(), 64, bo, bsize)?;
        let ctx = tile.skip_context(&map[0..tile.units()], bo);
        let start = source.place();
        let table = Table {
            first: 2 * ctx,
            n: 2,
        };
        let s = self.read_entry(source, start, table)?;
        let skip = s != 0;
        self.set_cells(map, block, Change::Skip(skip));
        Ok(skip)
    }
}
