ghost use Rattle.std.specs.Prelude.{◌≡◌, ◌≤◌, length, drop};
ghost use Rattle.av1.specs.Tiles.{Inside};
ghost use Rattle.stage.specs.Reads.{block_set};
ghost use Rattle.stage.specs.View.{state_of, units_of};

use crate::reader::Reader;
use crate::state::cells::Change;
use av1::{Block, Cell};

impl Reader {
    // Changes the cells of a block in the tile. No trial is open, so that no spot is logged.
    pub(super) fn set_cells(&mut self, map: &mut [Cell], block: Block, change: Change)
        requires mapped { units_of self.old.stage ≤ length map.old }
        requires inside { Inside self.old.stage.tile.cols self.old.stage.tile.rows block }
        ensures state { state_of self.new.stage map.new ≡ block_set change block (state_of self.old.stage map.old) }
        ensures behind { drop (units_of self.old.stage) map.new ≡ drop (units_of self.old.stage) map.old }
    {
        let tile = self.stage.tile;
        self.stage.journal.set_block(
            &mut map[0..tile.units()],
            &mut [],
            tile.cols(),
            block,
            change,
        );
    }
}
