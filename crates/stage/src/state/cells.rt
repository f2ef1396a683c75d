ghost use Rattle.std.specs.Prelude.{◌≡◌, ℕ, ◌+◌, ◌*◌, ◌<◌, ◌≤◌, [], ◌∷◌, length, nat_lt};
ghost use Rattle.cdf.specs.Lists.{from};
ghost use Rattle.model.specs.Calls.{log_if};
ghost use Rattle.model.specs.Decisions.{block_cells};
ghost use Rattle.stage.specs.Cells.{changed, logged_cells, change_one, change_each};
ghost use Rattle.stage.specs.Lanes.{OnlySpots};
ghost use Rattle.stage.specs.View.{lane, marks_of, open_trials};

use crate::state::Journal;
use crate::state::symbols::log_record;
use av1::{Block, Cell};
use journal::Spot;

// What a decision sets in each cell of its block. Data and not a closure, since the contracts speak of it, and the
// project wants a loop over cells here.
#[derive(Clone, Copy)]
pub(crate) enum Change {
    Skip(bool),
    Segment(u8),
}

fn change_cell(cell: &mut Cell, change: Change)
    ensures { cell.new ≡ changed change cell.old }
{
    match change {
        Change::Skip(skip) => cell.skip = skip,
        Change::Segment(segment) => cell.segment = segment,
    }
}

impl Journal {
    // Logs what a cell or a context byte was, while a trial is open. Whether one is, `logs`, is asked once for many.
    pub(super) fn log_spot(&mut self, spots: &mut [Spot], logs: bool, was: Spot)
        requires logs { logs ≡ nat_lt 0 (open_trials self.old) }
        requires room { 0 < open_trials self.old → self.old.used.spots < length spots.old }
        ensures lane { lane spots.new self.new.used.spots ≡ log_if (marks_of self.old) (lane spots.old self.old.used.spots) (was ∷ []) }
        ensures kept { OnlySpots self.new self.old }
        ensures used { self.new.used.spots ≤ self.old.used.spots + 1 }
    {
        if logs {
            log_record(spots, &mut self.used.spots, was);
        }
    }

    // Changes a cell, and logs what it was. `few` stands here and twice below, for the 32 bits of a place: a type around
    // the lent cells would be taken apart at each of them.
    fn set_cell(
        &mut self,
        cells: &mut [Cell],
        spots: &mut [Spot],
        logs: bool,
        at: usize,
        change: Change,
    )
        requires logs { logs ≡ nat_lt 0 (open_trials self.old) }
        requires inside { at < length cells.old }
        requires few { length cells.old ≤ 1048576 }
        requires room { 0 < open_trials self.old → self.old.used.spots < length spots.old }
        ensures cells { logged_cells cells.new spots.new self.new.used.spots ≡ change_one (marks_of self.old) change at (logged_cells cells.old spots.old self.old.used.spots) }
        ensures kept { OnlySpots self.new self.old }
        ensures used { self.new.used.spots ≤ self.old.used.spots + 1 }
    {
        let was = cells[at];
        self.log_spot(spots, logs, Spot::Cell { at: at as u32, was });
        change_cell(&mut cells[at], change);
    }

    // Changes `width` cells from `first` on.
    fn set_row(
        &mut self,
        cells: &mut [Cell],
        spots: &mut [Spot],
        first: usize,
        width: usize,
        change: Change,
    )
        requires inside { first + width ≤ length cells.old }
        requires few { length cells.old ≤ 1048576 }
        requires room { 0 < open_trials self.old → self.old.used.spots + width ≤ length spots.old }
        ensures cells { logged_cells cells.new spots.new self.new.used.spots ≡ change_each (marks_of self.old) change (from first width) (logged_cells cells.old spots.old self.old.used.spots) }
        ensures kept { OnlySpots self.new self.old }
        ensures used { self.new.used.spots ≤ self.old.used.spots + width }
    {
        let logs = !self.marks.is_empty();
        // by places, not items: the place is what is logged
        for at in first..first + width {
            self.set_cell(cells, spots, logs, at, change);
        }
    }

    // Changes the cells of a block in a tile of `columns` columns.
    pub(crate) fn set_block(
        &mut self,
        cells: &mut [Cell],
        spots: &mut [Spot],
        columns: usize,
        block: Block,
        change: Change,
    )
        requires inside { (k : ℕ) → k < block.height → block.from + k * columns + block.width ≤ length cells.old }
        requires few { length cells.old ≤ 1048576 }
        requires room { 0 < open_trials self.old → self.old.used.spots + block.height * block.width ≤ length spots.old }
        ensures cells { logged_cells cells.new spots.new self.new.used.spots ≡ change_each (marks_of self.old) change (block_cells columns block.width block.from block.height) (logged_cells cells.old spots.old self.old.used.spots) }
        ensures kept { OnlySpots self.new self.old }
    {
        for k in 0..block.height {
            self.set_row(cells, spots, block.from + k * columns, block.width, change);
        }
    }
}
