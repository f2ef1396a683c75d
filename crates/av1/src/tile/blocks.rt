ghost use Rattle.std.specs.Prelude.{◌≡◌, ◌*◌, ◌≤◌, IfOk, OnOk};
ghost use Rattle.av1.specs.Refusals.{verdict};
ghost use Rattle.av1.specs.Sides.{side};
ghost use Rattle.av1.specs.Tiles.{sides_asked, map_asked, placed, block_asked, square_asked, has_rows, has_columns, Inside, Placed};

use crate::refusal::Refusal;
use crate::size::BlockSize;
use crate::tile::{Block, Tile, TileBlockOffset};

// Sides are even, in 2..=1024.
fn is_side(n: usize) -> bool
    ensures { result ≡ side n }
{
    n % 2 == 0 && (2..=1024).contains(&n)
}

impl Tile {
    /// A tile of `cols` × `rows` units.
    pub fn new(cols: usize, rows: usize) -> Result<Tile, Refusal>
        ensures asked { verdict result ≡ sides_asked cols rows }
        ensures made { IfOk result (λ t. (t.cols ≡ cols) × (t.rows ≡ rows)) }
    {
        if !is_side(cols) || !is_side(rows) {
            return Err(Refusal::TileSize);
        }
        Ok(Tile { cols, rows })
    }

    pub fn cols(&self) -> usize
        ensures { result ≡ self.now.cols }
    {
        self.cols
    }

    pub fn rows(&self) -> usize
        ensures { result ≡ self.now.rows }
    {
        self.rows
    }

    /// How many units the tile has, and so how many cells its map.
    pub fn units(&self) -> usize
        ensures value { result ≡ self.now.cols * self.now.rows }
        ensures most { result ≤ 1048576 }
    {
        self.cols * self.rows
    }

    /// Whether the map's memory, of `memory` cells, is enough.
    pub fn ask_map(&self, memory: usize) -> Result<(), Refusal>
        ensures { result ≡ map_asked self.now.cols self.now.rows memory }
    {
        if memory < self.units() {
            return Err(Refusal::MapMemory);
        }
        Ok(())
    }

    /// The cells of a block at a position, which has to lie in the tile, at multiples of the block's sides.
    #[inline(always)]
    #[tactic(auto, using(crate::proofs::Placing::inside_block))]
    pub fn place(&self, bo: TileBlockOffset, bsize: BlockSize) -> Result<Block, Refusal>
        ensures answer { result ≡ placed self.now.cols self.now.rows bo.x bo.y bsize }
        ensures inside { IfOk result (λ b. Inside self.now.cols self.now.rows b) }
    {
        let width = bsize.width_mi();
        let height = bsize.height_mi();
        if bo.x >= self.cols || bo.y >= self.rows || bo.x % width != 0 || bo.y % height != 0 {
            return Err(Refusal::Position);
        }
        Ok(Block {
            from: bo.y * self.cols + bo.x,
            width: width.min(self.cols - bo.x),
            height: height.min(self.rows - bo.y),
        })
    }

    /// The cells of a block that a decision sets: the map's memory has to be enough, neither side longer than
    /// `longest` pixels, and the position has to fit.
    #[inline(always)]
    pub fn ask_block(
        &self,
        memory: usize,
        longest: usize,
        bo: TileBlockOffset,
        bsize: BlockSize,
    ) -> Result<Block, Refusal>
        ensures answer { result ≡ block_asked self.now.cols self.now.rows memory longest bo.x bo.y bsize }
        ensures inside { IfOk result (λ b. Inside self.now.cols self.now.rows b) }
        ensures mapped { OnOk result (self.now.cols * self.now.rows ≤ memory) }
    {
        self.ask_map(memory)?;
        if !bsize.has_no_side_above(longest) {
            return Err(Refusal::BlockSize);
        }
        self.place(bo, bsize)
    }

    /// Whether a partition may split the block: a square of `largest` pixels at most, at a position that fits.
    pub fn ask_square(
        &self,
        largest: usize,
        bo: TileBlockOffset,
        bsize: BlockSize,
    ) -> Result<(), Refusal>
        ensures answer { result ≡ square_asked self.now.cols self.now.rows largest bo.x bo.y bsize }
        ensures placed { OnOk result (Placed self.now.cols self.now.rows largest bo.x bo.y bsize) }
    {
        if !bsize.splits(largest) {
            return Err(Refusal::BlockSize);
        }
        self.place(bo, bsize)?;
        Ok(())
    }

    // The standard's two conditions, a line each: one function of side, place and half would be no plainer.

    /// Whether the lower half of a block at row `y` has rows in the tile.
    pub fn has_rows(&self, y: usize, bsize: BlockSize) -> bool
        ensures { result ≡ has_rows self.now.rows y bsize }
    {
        bsize.height_mi() / 2 < self.rows.saturating_sub(y)
    }

    /// Whether the right half of a block at column `x` has columns in the tile.
    pub fn has_cols(&self, x: usize, bsize: BlockSize) -> bool
        ensures { result ≡ has_columns self.now.cols x bsize }
    {
        bsize.width_mi() / 2 < self.cols.saturating_sub(x)
    }
}
