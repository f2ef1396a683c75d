ghost use Rattle.std.specs.Prelude.{◌≡◌, ℕ, ◌+◌, ◌<◌, ◌≤◌, Bool, true, false, cond, ◌&&◌, List, length, is_ok, ◌==◌};
ghost use mir.Val.{bool_byte};
ghost use Rattle.av1.specs.declared.tile.Cell.{Cell};
ghost use Rattle.av1.specs.Partitions.{number};
ghost use Rattle.av1.specs.Sizes.{splits, level};
ghost use Rattle.cdf.specs.Entries.{edge_symbols};
ghost use Rattle.cdf.specs.Words.{table};
ghost use Rattle.model.specs.declared.Question.TheVariants as question;
ghost use Rattle.model.specs.Calls.{decision_step, symbol_step, symbol_steps};
ghost use Rattle.model.specs.Coders as coder;
ghost use Rattle.model.specs.Decisions.{stage, partition_allowed, partition_path, partition_table, partition_tree};
ghost use Rattle.model.specs.Runs.{Lent};
ghost use Rattle.stage.specs.Lanes.{SameMemory};
ghost use Rattle.stage.specs.Questions.{need};
ghost use Rattle.stage.specs.Partitions.{context_at, entries_at, small_at, large_at};
ghost use Rattle.stage.specs.View.{lanes, open_trials, table_of, world};

use crate::state::symbols::put_entry;
use crate::state::{Contexts, Stage, Table};
use av1::{BlockSize, PartitionType, Refusal, TileBlockOffset};
use cdf::Edge;
use journal::{Counts, Log};
use record::Sink;

impl Contexts {
    // The context of a square of side 8 × 2^`level`: whether the blocks left and above are smaller.
    pub(crate) fn partition_plane_context(&self, bo: TileBlockOffset, level: usize) -> usize
        requires inside { bo.x < 1024 }
        requires level { level ≤ 3 }
        ensures value { result ≡ context_at self.now.above self.now.left bo.x bo.y level }
        ensures most { result ≤ 3 }
    {
        let above = (self.above[bo.x / 2] >> level) % 2;
        let left = (self.left[bo.y % 16 / 2] >> level) % 2;
        2 * left as usize + above as usize
    }
}

// The table of a square of side 8 × 2^`level` in a context.
pub(crate) fn partition_table(level: usize, ctx: usize) -> Table
    requires { (level ≤ 3) × (ctx ≤ 3) }
    ensures { table_of result ≡ partition_table level ctx }
{
    if level == 0 {
        return Table {
            first: 6 + 4 * ctx,
            n: 4,
        };
    }
    Table {
        first: 86 + 10 * (4 * (level - 1) + ctx),
        n: 10,
    }
}

// `rows` and `cols` are the standard's hasRows and hasCols; the model's definitions take them one by one, and one value of
// both would be taken apart in each clause.

// Whether a partition can be coded by a table of `n` symbols, where the block's lower half has rows and its right
// half columns in the tile as told.
fn is_allowed(rows: bool, cols: bool, n: usize, p: PartitionType) -> bool
    ensures { (first : ℕ) → result ≡ partition_allowed rows cols (table first n) (number p) }
{
    match (rows, cols) {
        (true, true) => p.number() < n,
        (false, true) => p == PartitionType::PARTITION_SPLIT || p == PartitionType::PARTITION_HORZ,
        (true, false) => p == PartitionType::PARTITION_SPLIT || p == PartitionType::PARTITION_VERT,
        (false, false) => p == PartitionType::PARTITION_SPLIT,
    }
}

// The symbol of a partition at an edge: whether it is SPLIT.
fn symbol_at_edge(p: PartitionType) -> usize
    ensures value { result ≡ bool_byte (number p == 3) }
    ensures most { result < 2 }
{
    usize::from(p == PartitionType::PARTITION_SPLIT)
}

// How many entries a partition has, and undo records in the lanes of small and large windows.
fn records(rows: bool, cols: bool, n: usize) -> (usize, Counts)
    ensures entries { result.0 ≡ entries_at rows cols }
    ensures need { result.1 ≡ need (small_at rows cols n) (large_at rows cols n) 0 }
{
    let window = usize::from(rows && cols);
    let (small, large) = if n <= 4 { (window, 0) } else { (0, window) };
    let need = Counts {
        small,
        large,
        spots: 0,
    };
    (usize::from(rows || cols), need)
}

impl Stage {
    // Codes symbol `s` at an edge. The table that it is summed from does not adapt.
    fn edge_symbol<S: Sink>(&self, sink: &mut S, table: Table, edge: Edge, s: usize)
        requires symbol { s < 2 }
        requires room { 0 < S.Sink.rooms sink.old (S.Sink.list sink.old) }
        ensures step { (memory : List Cell) (l : Lent stage) → world self.now memory l (S.Sink.list sink.new) ≡ symbol_step (coder.edge (table_of table) (edge_symbols edge)) s (world self.now memory l (S.Sink.list sink.old)) }
        ensures rooms { S.Sink.rooms sink.new ≡ S.Sink.rooms sink.old }
    {
        let Some(entry) = self.tables.edge_symbol(table.first, table.n, edge, s) else {
            unreachable!()
        };
        put_entry(sink, entry);
    }

    // Codes a partition: by the table where the tile has rows and columns for both halves, at an edge by two symbols,
    // and at the corner by none.
    fn code_partition<S: Sink>(
        &mut self,
        sink: &mut S,
        log: &mut Log<'_>,
        rows: bool,
        cols: bool,
        table: Table,
        p: PartitionType,
    )
        requires allowed { partition_allowed rows cols (table_of table) (number p) ≡ true }
        requires room { entries_at rows cols ≤ S.Sink.rooms sink.old (S.Sink.list sink.old) }
        requires small { 0 < open_trials self.old.journal → self.old.journal.used.small + small_at rows cols table.n ≤ length log.old.small.now }
        requires large { 0 < open_trials self.old.journal → self.old.journal.used.large + large_at rows cols table.n ≤ length log.old.large.now }
        ensures step { (memory : List Cell) → world self.new memory (lanes log.new) (S.Sink.list sink.new) ≡ symbol_steps (partition_tree rows cols (table_of table)) (partition_path rows cols (number p)) (world self.old memory (lanes log.old) (S.Sink.list sink.old)) }
        ensures rooms { S.Sink.rooms sink.new ≡ S.Sink.rooms sink.old }
        ensures memory { SameMemory log.new log.old }
    {
        match (rows, cols) {
            (true, true) => self.symbol(sink, log, table, p.number()),
            (false, true) => self.edge_symbol(sink, table, Edge::Bottom, symbol_at_edge(p)),
            (true, false) => self.edge_symbol(sink, table, Edge::Right, symbol_at_edge(p)),
            (false, false) => {}
        }
    }

    /// Codes how a square block is split. Answers how many entries were written: one, or none where the tile ends
    /// inside both halves of the block and only PARTITION_SPLIT is possible.
    pub fn write_partition<S: Sink>(
        &mut self,
        sink: &mut S,
        log: &mut Log<'_>,
        bo: TileBlockOffset,
        bsize: BlockSize,
        p: PartitionType,
    ) -> Result<usize, Refusal>
        ensures step { (memory : List Cell) → (result, world self.new memory (lanes log.new) (S.Sink.list sink.new)) ≡ decision_step (length memory) (S.Sink.rooms sink.old) (question.Partition bo.x bo.y bsize) (number p) (world self.old memory (lanes log.old) (S.Sink.list sink.old)) }
        ensures rooms { S.Sink.rooms sink.new ≡ S.Sink.rooms sink.old }
        ensures still { is_ok result ≡ false → (sink.new ≡ sink.old) × (self.new ≡ self.old) }
        ensures memory { SameMemory log.new log.old }
    {
        let tile = self.tile;
        tile.ask_square(64, bo, bsize)?;
        let rows = tile.has_rows(bo.y, bsize);
        let cols = tile.has_cols(bo.x, bsize);
        let level = bsize.width_log2() - 3;
        let ctx = self.contexts.partition_plane_context(bo, level);
        let table = partition_table(level, ctx);
        if !is_allowed(rows, cols, table.n, p) {
            return Err(Refusal::Partition);
        }
        let (entries, need) = records(rows, cols, table.n);
        self.journal.ask_record(log, sink.room(), entries, need)?;
        self.code_partition(sink, log, rows, cols, table, p);
        Ok(entries)
    }
}
