ghost use Rattle.std.specs.Prelude.{◌≡◌, ◌≤◌, false, List, length, is_ok};
ghost use Rattle.av1.specs.declared.tile.Cell.{Cell};
ghost use Rattle.av1.specs.Partitions.{number};
ghost use Rattle.model.specs.declared.Question.TheVariants as question;
ghost use Rattle.model.specs.Decisions.{edge_says, partition_tree};
ghost use Rattle.model.specs.Reading.{read_step};
ghost use Rattle.stage.specs.Faults.{seen_by};
ghost use Rattle.stage.specs.Reads.{mapped, point, Reads};
ghost use Rattle.stage.specs.View.{state_of, table_of};

use crate::reader::Reader;
use crate::reader::fault::{ReadError, ReadFault};
use crate::state::Table;
use crate::state::partition::partition_table;
use av1::{BlockSize, PartitionType, TileBlockOffset};
use cdf::Edge;
use record::Source;

// The partition of a symbol at an edge: SPLIT, or the other one that the edge allows.
fn partition_at_edge(other: PartitionType, s: u8) -> PartitionType
    ensures { number result ≡ edge_says (number other) s }
{
    if s == 0 {
        other
    } else {
        PartitionType::PARTITION_SPLIT
    }
}

impl Reader {
    // Reads a partition: by the table where the tile has rows and columns for both halves, at an edge by two symbols,
    // and at the corner by none.
    fn decode_partition<Q: Source>(
        &mut self,
        source: &mut Q,
        rows: bool,
        cols: bool,
        table: Table,
    ) -> Result<PartitionType, ReadFault>
        requires { table.n ≤ 10 }
        ensures reads { Reads (Q.Source.place source.old) (partition_tree rows cols (table_of table)) (point self.old.stage (Q.Source.list source.old) (Q.Source.place source.old)) (point self.new.stage (Q.Source.list source.new) (Q.Source.place source.new)) (mapped number result) }
        ensures still { is_ok result ≡ false → (self.new ≡ self.old) × (Q.Source.place source.new ≡ Q.Source.place source.old) }
    {
        let start = source.place();
        match (rows, cols) {
            (true, true) => {
                let s = self.read_entry(source, start, table)?;
                let Some(p) = PartitionType::from_number(usize::from(s)) else {
                    unreachable!()
                };
                Ok(p)
            }
            (false, true) => {
                let s = self.read_edge_entry(source, start, table, Edge::Bottom)?;
                Ok(partition_at_edge(PartitionType::PARTITION_HORZ, s))
            }
            (true, false) => {
                let s = self.read_edge_entry(source, start, table, Edge::Right)?;
                Ok(partition_at_edge(PartitionType::PARTITION_VERT, s))
            }
            (false, false) => Ok(PartitionType::PARTITION_SPLIT),
        }
    }

    /// Reads how a square block is split. Where the tile ends inside both halves of the block no symbol is read, and it is
    /// PARTITION_SPLIT.
    pub fn read_partition<Q: Source>(
        &mut self,
        source: &mut Q,
        bo: TileBlockOffset,
        bsize: BlockSize,
    ) -> Result<PartitionType, ReadError>
        ensures step { (memory : List Cell) → (seen_by number result, state_of self.new.stage memory, Q.Source.place source.new) ≡ read_step (length memory) (Q.Source.list source.old) (question.Partition bo.x bo.y bsize) (state_of self.old.stage memory) (Q.Source.place source.old) }
        ensures list { Q.Source.list source.new ≡ Q.Source.list source.old }
        ensures still { is_ok result ≡ false → self.new ≡ self.old }
    {
        let tile = self.stage.tile;
        tile.ask_square(64, bo, bsize)?;
        let rows = tile.has_rows(bo.y, bsize);
        let cols = tile.has_cols(bo.x, bsize);
        let level = bsize.width_log2() - 3;
        let ctx = self.stage.contexts.partition_plane_context(bo, level);
        let table = partition_table(level, ctx);
        let p = self.decode_partition(source, rows, cols, table)?;
        Ok(p)
    }
}
