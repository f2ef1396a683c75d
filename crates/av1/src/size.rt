ghost use Rattle.std.specs.Prelude.{◌≡◌, ◌<◌, ◌≤◌, map};
ghost use Rattle.av1.specs.Sizes.{width_log2, height_log2, width, height, width_mi, height_mi, square, fits_in, no_side_above, splits, above_byte, left_byte, context_bytes, all_sizes};

/// The sizes of a block, in the order of the standard's numbers.
#[derive(Clone, Copy, PartialEq, Debug)]
pub enum BlockSize {
    BLOCK_4X4,
    BLOCK_4X8,
    BLOCK_8X4,
    BLOCK_8X8,
    BLOCK_8X16,
    BLOCK_16X8,
    BLOCK_16X16,
    BLOCK_16X32,
    BLOCK_32X16,
    BLOCK_32X32,
    BLOCK_32X64,
    BLOCK_64X32,
    BLOCK_64X64,
    BLOCK_64X128,
    BLOCK_128X64,
    BLOCK_128X128,
    BLOCK_4X16,
    BLOCK_16X4,
    BLOCK_8X32,
    BLOCK_32X8,
    BLOCK_16X64,
    BLOCK_64X16,
}

// The logarithms of the sides of each size, width and height: looked up, since callers ask often.
const SIDES_LOG2: [[u8; 2]; 22] = [
    [2, 2],
    [2, 3],
    [3, 2],
    [3, 3],
    [3, 4],
    [4, 3],
    [4, 4],
    [4, 5],
    [5, 4],
    [5, 5],
    [5, 6],
    [6, 5],
    [6, 6],
    [6, 7],
    [7, 6],
    [7, 7],
    [2, 4],
    [4, 2],
    [3, 5],
    [5, 3],
    [4, 6],
    [6, 4],
];

// The context bytes of each size, above and left: a set bit j says that the side is below 8 × 2^j pixels.
// The project needs the table as it is.
const partition_context_lookup: [[u8; 2]; 22] = [
    [31, 31],
    [31, 30],
    [30, 31],
    [30, 30],
    [30, 28],
    [28, 30],
    [28, 28],
    [28, 24],
    [24, 28],
    [24, 24],
    [24, 16],
    [16, 24],
    [16, 16],
    [16, 0],
    [0, 16],
    [0, 0],
    [31, 28],
    [28, 31],
    [30, 24],
    [24, 30],
    [28, 16],
    [16, 28],
];

/// The whole table is the rule of the bytes, at every size in order.
pub fn lookup_follows_the_rule()
    ensures { partition_context_lookup ≡ map context_bytes all_sizes }
{}

// A block's two sides have a function each, as in rav1e: callers and contracts read one at a time.
impl BlockSize {
    pub fn width_log2(self) -> usize
        ensures { result ≡ width_log2 self }
    {
        usize::from(SIDES_LOG2[self as usize][0])
    }

    pub fn height_log2(self) -> usize
        ensures { result ≡ height_log2 self }
    {
        usize::from(SIDES_LOG2[self as usize][1])
    }

    /// The width in pixels.
    pub fn width(self) -> usize
        ensures { result ≡ width self }
    {
        1 << self.width_log2()
    }

    /// The height in pixels.
    pub fn height(self) -> usize
        ensures { result ≡ height self }
    {
        1 << self.height_log2()
    }

    /// The width in units of 4 pixels.
    pub fn width_mi(self) -> usize
        ensures value { result ≡ width_mi self }
        ensures range { (0 < result) × (result ≤ 32) }
    {
        self.width() >> 2
    }

    /// The height in units of 4 pixels.
    pub fn height_mi(self) -> usize
        ensures value { result ≡ height_mi self }
        ensures range { (0 < result) × (result ≤ 32) }
    {
        self.height() >> 2
    }

    pub fn is_sqr(self) -> bool
        ensures { result ≡ square self }
    {
        self.width_log2() == self.height_log2()
    }

    /// Whether the block is neither wider nor higher than `other`.
    // The project needs a named comparison: of two sizes each may have the longer side.
    pub fn fits_in(self, other: BlockSize) -> bool
        ensures { result ≡ fits_in self other }
    {
        self.width() <= other.width() && self.height() <= other.height()
    }

    /// Whether neither side is longer than `side` pixels.
    pub fn has_no_side_above(self, side: usize) -> bool
        ensures { result ≡ no_side_above side self }
    {
        self.width() <= side && self.height() <= side
    }

    /// Whether a partition may split the block: a square of 8 pixels at least and `largest` at most.
    pub fn splits(self, largest: usize) -> bool
        ensures { result ≡ splits largest self }
    {
        self.is_sqr() && (8..=largest).contains(&self.width())
    }

    /// The bytes that the block leaves in the contexts above and left.
    pub fn context_bytes(self) -> (u8, u8)
        ensures { result ≡ (above_byte self, left_byte self) }
    {
        let [above, left] = partition_context_lookup[self as usize];
        (above, left)
    }
}
