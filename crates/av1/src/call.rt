use crate::mv::MvSubpelPrecision;
use crate::partition::PartitionType;
use crate::size::BlockSize;
use crate::tile::TileBlockOffset;

/// A call of a stage: its kind and all values that the caller passes, memory aside. A trial is named by its depth.
#[derive(Clone, Copy, PartialEq, Debug)]
pub enum Call {
    Partition {
        bo: TileBlockOffset,
        bsize: BlockSize,
        partition: PartitionType,
    },
    Skip {
        bo: TileBlockOffset,
        bsize: BlockSize,
        skip: bool,
    },
    /// `segment` is `None` where the block is skipped.
    Segment {
        bo: TileBlockOffset,
        bsize: BlockSize,
        segment: Option<usize>,
    },
    Alphas {
        u: i32,
        v: i32,
    },
    Vector {
        row: i32,
        col: i32,
        precision: MvSubpelPrecision,
    },
    ContextUpdate {
        bo: TileBlockOffset,
        bsize: BlockSize,
        subsize: BlockSize,
    },
    RowStart,
    Open,
    TakeBack {
        depth: usize,
    },
    Keep {
        depth: usize,
    },
}

/// What an allowed call answers.
#[derive(Clone, Copy, PartialEq, Debug)]
pub enum Answer {
    /// How many entries a partition, a skip flag, alphas or a vector wrote.
    Wrote(usize),
    /// How many entries a segment wrote, and the segment.
    Segmented { count: usize, segment: usize },
    /// A context update or a row start is made, a trial taken back or kept.
    Done,
    /// The depth of the trial that was opened.
    Opened(usize),
}
