ghost use Rattle.std.specs.Prelude.{◌≡◌, ◌≤◌, min};
ghost use Rattle.av1.specs.Segments.{prev, same, natural, segment_context, segment_prediction, near_segments};
ghost use Rattle.av1.specs.Tiles.{cell_of, above_of, left_of, above_left_of, flag_of, skip_context};

use crate::tile::{Cell, Tile, TileBlockOffset};

// Neighbours that may be absent are taken by let-else, as the project asks.

// 1 for a cell that is there and skipped.
fn skip_flag(cell: Option<Cell>) -> usize
    ensures value { result ≡ flag_of cell }
    ensures most { result ≤ 1 }
{
    let Some(cell) = cell else {
        return 0;
    };
    usize::from(cell.skip)
}

// Whether two neighbours have one segment; two absent ones do.
fn same_segment(a: Option<Cell>, b: Option<Cell>) -> bool
    ensures { result ≡ same (prev a) (prev b) }
{
    a.map(|cell| cell.segment) == b.map(|cell| cell.segment)
}

// The number of a segment's table, by how many of the neighbours have one segment.
fn segment_context(above_left: Option<Cell>, above: Option<Cell>, left: Option<Cell>) -> usize
    ensures value { result ≡ segment_context (prev above_left) (prev above) (prev left) }
    ensures most { result ≤ 2 }
{
    if above_left.is_none() {
        return 0;
    }
    let up = same_segment(above_left, above);
    let beside = same_segment(above_left, left);
    if up && beside {
        2
    } else if up || beside || same_segment(above, left) {
        1
    } else {
        0
    }
}

// The segment that the neighbours foretell.
fn segment_prediction(above_left: Option<Cell>, above: Option<Cell>, left: Option<Cell>) -> u8
    ensures { result ≡ natural (segment_prediction (prev above_left) (prev above) (prev left)) }
{
    let Some(up) = above else {
        let Some(beside) = left else {
            return 0;
        };
        return beside.segment;
    };
    let Some(beside) = left else {
        return up.segment;
    };
    if same_segment(above_left, above) {
        up.segment
    } else {
        beside.segment
    }
}

// A neighbour outside the tile is absent.
impl Tile {
    /// The cell of a unit.
    pub fn cell_of(&self, cells: &[Cell], bo: TileBlockOffset) -> Option<Cell>
        ensures { result ≡ cell_of self.now.cols self.now.rows cells.now bo.x bo.y }
    {
        if bo.x >= self.cols || bo.y >= self.rows {
            return None;
        }
        cells.get(bo.y * self.cols + bo.x).copied()
    }

    pub fn above_of(&self, cells: &[Cell], bo: TileBlockOffset) -> Option<Cell>
        ensures { result ≡ above_of self.now.cols self.now.rows cells.now bo.x bo.y }
    {
        let y = bo.y.checked_sub(1)?;
        self.cell_of(cells, TileBlockOffset { y, ..bo })
    }

    pub fn left_of(&self, cells: &[Cell], bo: TileBlockOffset) -> Option<Cell>
        ensures { result ≡ left_of self.now.cols self.now.rows cells.now bo.x bo.y }
    {
        let x = bo.x.checked_sub(1)?;
        self.cell_of(cells, TileBlockOffset { x, ..bo })
    }

    pub fn above_left_of(&self, cells: &[Cell], bo: TileBlockOffset) -> Option<Cell>
        ensures { result ≡ above_left_of self.now.cols self.now.rows cells.now bo.x bo.y }
    {
        let x = bo.x.checked_sub(1)?;
        let y = bo.y.checked_sub(1)?;
        self.cell_of(cells, TileBlockOffset { x, y })
    }

    /// How many of the cells above and left are skipped.
    pub fn skip_context(&self, cells: &[Cell], bo: TileBlockOffset) -> usize
        ensures value { result ≡ skip_context self.now.cols self.now.rows cells.now bo.x bo.y }
        ensures most { result ≤ 2 }
    {
        skip_flag(self.above_of(cells, bo)) + skip_flag(self.left_of(cells, bo))
    }

    /// The prediction of a segment, at most `last`, and the number of its table.
    // The project needs the pair.
    pub fn get_segment_pred(&self, cells: &[Cell], bo: TileBlockOffset, last: u8) -> (u8, usize)
        ensures prediction { result.0 ≡ min (natural (near_segments self.now.cols self.now.rows cells.now segment_prediction bo.x bo.y)) last }
        ensures number { result.1 ≡ near_segments self.now.cols self.now.rows cells.now segment_context bo.x bo.y }
        ensures most { result.1 ≤ 2 }
    {
        let above_left = self.above_left_of(cells, bo);
        let above = self.above_of(cells, bo);
        let left = self.left_of(cells, bo);
        let prediction = segment_prediction(above_left, above, left);
        (
            prediction.min(last),
            segment_context(above_left, above, left),
        )
    }
}
