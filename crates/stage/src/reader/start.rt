ghost use Rattle.std.specs.Prelude.{◌≡◌, ℕ, ◌*◌, false, List, length, is_ok, IfOk, if◌then◌else◌, Ok};
ghost use Rattle.av1.specs.declared.tile.Cell.{Cell};
ghost use Rattle.cdf.specs.declared.entry.Entry.{Entry};
ghost use Rattle.model.specs.declared.Question.TheVariants as question;
ghost use Rattle.model.specs.Decisions.{start_asked};
ghost use Rattle.model.specs.Reading.{read_step};
ghost use Rattle.model.specs.Worked.{start};
ghost use Rattle.stage.specs.Faults.{turned_by};
ghost use Rattle.stage.specs.View.{state_of, refused_by, cleared};

use crate::reader::Reader;
use crate::state::Stage;
use av1::{BlockSize, Cell, Refusal, TileBlockOffset};
use journal::Log;

impl Reader {
    /// Starts a tile of `columns` × `rows` units, of which `last` is the last active segment. The first
    /// columns × rows cells of the map are cleared; what lies behind them is never written.
    pub fn start(columns: usize, rows: usize, last: u8, map: &mut [Cell]) -> Result<Reader, Refusal>
        ensures asked { refused_by result ≡ start_asked columns rows last (length map.old) }
        ensures fresh { IfOk result (λ r. state_of r.stage map.new ≡ start columns rows last) }
        ensures map { map.new ≡ (if is_ok result then cleared (columns * rows) map.old else map.old) }
    {
        let stage = Stage::start(columns, rows, last, map)?;
        Ok(Reader { stage })
    }

    /// The words of the tables.
    pub fn words(&self) -> &[u16; 430]
        ensures { result.now ≡ self.now.stage.tables.words }
    {
        self.stage.words()
    }

    /// The context bytes above the tile.
    pub fn above(&self) -> &[u8; 512]
        ensures { result.now ≡ self.now.stage.contexts.above }
    {
        self.stage.above()
    }

    /// The context bytes left of the superblock.
    pub fn left(&self) -> &[u8; 8]
        ensures { result.now ≡ self.now.stage.contexts.left }
    {
        self.stage.left()
    }

    /// Leaves the bytes of `subsize`, into which the square `bsize` was split, in the contexts above and left of the
    /// square.
    pub fn update_partition_context(
        &mut self,
        bo: TileBlockOffset,
        subsize: BlockSize,
        bsize: BlockSize,
    ) -> Result<(), Refusal>
        ensures step { (memory : List Cell) (entries : List Entry) (place : ℕ) → (turned_by result, state_of self.new.stage memory, place) ≡ read_step (length memory) entries (question.ContextUpdate bo.x bo.y bsize subsize) (state_of self.old.stage memory) place }
        ensures still { is_ok result ≡ false → self.new ≡ self.old }
    {
        let mut log = Log {
            small: &mut [],
            large: &mut [],
            spots: &mut [],
        };
        self.stage
            .update_partition_context(&mut log, bo, subsize, bsize)
    }

    /// Starts a row of superblocks: the contexts left of it are zero again.
    pub fn reset_left_contexts(&mut self)
        ensures { (memory : List Cell) (entries : List Entry) (place : ℕ) → (Ok tt, state_of self.new.stage memory, place) ≡ read_step (length memory) entries question.RowStart (state_of self.old.stage memory) place }
    {
        let _ = self.stage.reset_left_contexts();
    }
}
