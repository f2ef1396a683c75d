ghost use Rattle.std.specs.Prelude.{◌≡◌, ℕ, List, MatchOption, ◌≢◌, Some};
ghost use Rattle.av1.specs.Sizes.{all_sizes};
ghost use Rattle.script.specs.Names.{size_name, partition_name, precision_name, flag_name, partitions, precisions, flags, among, size_found, partition_found, precision_found, flag_found};
ghost use Rattle.script.specs.declared.fault.Fault.{Fault};
ghost use Rattle.script.specs.declared.fault.Fault.TheVariants as no;

use crate::fault::Fault;
use av1::{BlockSize, MvSubpelPrecision, PartitionType};

/// A value that a script writes by its name.
pub trait Named: Copy + 'static {
    ghost name: { Self → List ℕ };

    ghost all: { List Self };

    /// What is wrong with a word that is no name.
    const UNKNOWN: Fault;

    ghost UNKNOWN: { Fault };

    fn name(self) -> &'static str
        ensures { result.now ≡ name self };

    /// Every value.
    fn all() -> &'static [Self]
        ensures { result.now ≡ all };

    /// The value that has this name.
    fn from_name(word: &str) -> Option<Self>
        ensures value { result ≡ among name all word.now }
        ensures names { MatchOption result ((x : Self) → word.now ≢ name x) (λ x. word.now ≡ name x) }
    {
        Self::all().iter().copied().find(|x| word == x.name())
    }

    // No value is missing, and no two have one name.
    ghost found: { (x : Self) → among name all (name x) ≡ Some x };
}

const SIZES: [BlockSize; 22] = [
    BlockSize::BLOCK_4X4,
    BlockSize::BLOCK_4X8,
    BlockSize::BLOCK_8X4,
    BlockSize::BLOCK_8X8,
    BlockSize::BLOCK_8X16,
    BlockSize::BLOCK_16X8,
    BlockSize::BLOCK_16X16,
    BlockSize::BLOCK_16X32,
    BlockSize::BLOCK_32X16,
    BlockSize::BLOCK_32X32,
    BlockSize::BLOCK_32X64,
    BlockSize::BLOCK_64X32,
    BlockSize::BLOCK_64X64,
    BlockSize::BLOCK_64X128,
    BlockSize::BLOCK_128X64,
    BlockSize::BLOCK_128X128,
    BlockSize::BLOCK_4X16,
    BlockSize::BLOCK_16X4,
    BlockSize::BLOCK_8X32,
    BlockSize::BLOCK_32X8,
    BlockSize::BLOCK_16X64,
    BlockSize::BLOCK_64X16,
];

// Looked up by a match: a search calls a comparison for each name, and took two to three times as long.
fn parse_size(word: &str) -> Option<BlockSize>
    ensures { MatchOption result ((size : BlockSize) → word.now ≢ size_name size) (λ size. word.now ≡ size_name size) }
{
    match word {
        "4X4" => Some(BlockSize::BLOCK_4X4),
        "4X8" => Some(BlockSize::BLOCK_4X8),
        "8X4" => Some(BlockSize::BLOCK_8X4),
        "8X8" => Some(BlockSize::BLOCK_8X8),
        "8X16" => Some(BlockSize::BLOCK_8X16),
        "16X8" => Some(BlockSize::BLOCK_16X8),
        "16X16" => Some(BlockSize::BLOCK_16X16),
        "16X32" => Some(BlockSize::BLOCK_16X32),
        "32X16" => Some(BlockSize::BLOCK_32X16),
        "32X32" => Some(BlockSize::BLOCK_32X32),
        "32X64" => Some(BlockSize::BLOCK_32X64),
        "64X32" => Some(BlockSize::BLOCK_64X32),
        "64X64" => Some(BlockSize::BLOCK_64X64),
        "64X128" => Some(BlockSize::BLOCK_64X128),
        "128X64" => Some(BlockSize::BLOCK_128X64),
        "128X128" => Some(BlockSize::BLOCK_128X128),
        "4X16" => Some(BlockSize::BLOCK_4X16),
        "16X4" => Some(BlockSize::BLOCK_16X4),
        "8X32" => Some(BlockSize::BLOCK_8X32),
        "32X8" => Some(BlockSize::BLOCK_32X8),
        "16X64" => Some(BlockSize::BLOCK_16X64),
        "64X16" => Some(BlockSize::BLOCK_64X16),
        _ => None,
    }
}

/// The name of a size: its width and height in pixels, as `64X32`.
impl Named for BlockSize {
    ghost name = { size_name };

    ghost all = { all_sizes };

    const UNKNOWN: Fault = Fault::UnknownSize;

    ghost UNKNOWN = { no.UnknownSize };

    ghost found = { size_found };

    fn name(self) -> &'static str {
        match self {
            BlockSize::BLOCK_4X4 => "4X4",
            BlockSize::BLOCK_4X8 => "4X8",
            BlockSize::BLOCK_8X4 => "8X4",
            BlockSize::BLOCK_8X8 => "8X8",
            BlockSize::BLOCK_8X16 => "8X16",
            BlockSize::BLOCK_16X8 => "16X8",
            BlockSize::BLOCK_16X16 => "16X16",
            BlockSize::BLOCK_16X32 => "16X32",
            BlockSize::BLOCK_32X16 => "32X16",
            BlockSize::BLOCK_32X32 => "32X32",
            BlockSize::BLOCK_32X64 => "32X64",
            BlockSize::BLOCK_64X32 => "64X32",
            BlockSize::BLOCK_64X64 => "64X64",
            BlockSize::BLOCK_64X128 => "64X128",
            BlockSize::BLOCK_128X64 => "128X64",
            BlockSize::BLOCK_128X128 => "128X128",
            BlockSize::BLOCK_4X16 => "4X16",
            BlockSize::BLOCK_16X4 => "16X4",
            BlockSize::BLOCK_8X32 => "8X32",
            BlockSize::BLOCK_32X8 => "32X8",
            BlockSize::BLOCK_16X64 => "16X64",
            BlockSize::BLOCK_64X16 => "64X16",
        }
    }

    fn all() -> &'static [BlockSize] {
        &SIZES
    }

    fn from_name(word: &str) -> Option<BlockSize> {
        parse_size(word)
    }
}

const PARTITIONS: [PartitionType; 10] = [
    PartitionType::PARTITION_NONE,
    PartitionType::PARTITION_HORZ,
    PartitionType::PARTITION_VERT,
    PartitionType::PARTITION_SPLIT,
    PartitionType::PARTITION_HORZ_A,
    PartitionType::PARTITION_HORZ_B,
    PartitionType::PARTITION_VERT_A,
    PartitionType::PARTITION_VERT_B,
    PartitionType::PARTITION_HORZ_4,
    PartitionType::PARTITION_VERT_4,
];

// The same of partitions.
fn parse_partition(word: &str) -> Option<PartitionType>
    ensures { MatchOption result ((partition : PartitionType) → word.now ≢ partition_name partition) (λ partition. word.now ≡ partition_name partition) }
{
    match word {
        "NONE" => Some(PartitionType::PARTITION_NONE),
        "HORZ" => Some(PartitionType::PARTITION_HORZ),
        "VERT" => Some(PartitionType::PARTITION_VERT),
        "SPLIT" => Some(PartitionType::PARTITION_SPLIT),
        "HORZ_A" => Some(PartitionType::PARTITION_HORZ_A),
        "HORZ_B" => Some(PartitionType::PARTITION_HORZ_B),
        "VERT_A" => Some(PartitionType::PARTITION_VERT_A),
        "VERT_B" => Some(PartitionType::PARTITION_VERT_B),
        "HORZ_4" => Some(PartitionType::PARTITION_HORZ_4),
        "VERT_4" => Some(PartitionType::PARTITION_VERT_4),
        _ => None,
    }
}

/// The standard's name of a partition, without `PARTITION_`.
impl Named for PartitionType {
    ghost name = { partition_name };

    ghost all = { partitions };

    const UNKNOWN: Fault = Fault::UnknownPartition;

    ghost UNKNOWN = { no.UnknownPartition };

    ghost found = { partition_found };

    fn name(self) -> &'static str {
        match self {
            PartitionType::PARTITION_NONE => "NONE",
            PartitionType::PARTITION_HORZ => "HORZ",
            PartitionType::PARTITION_VERT => "VERT",
            PartitionType::PARTITION_SPLIT => "SPLIT",
            PartitionType::PARTITION_HORZ_A => "HORZ_A",
            PartitionType::PARTITION_HORZ_B => "HORZ_B",
            PartitionType::PARTITION_VERT_A => "VERT_A",
            PartitionType::PARTITION_VERT_B => "VERT_B",
            PartitionType::PARTITION_HORZ_4 => "HORZ_4",
            PartitionType::PARTITION_VERT_4 => "VERT_4",
        }
    }

    fn all() -> &'static [PartitionType] {
        &PARTITIONS
    }

    fn from_name(word: &str) -> Option<PartitionType> {
        parse_partition(word)
    }
}

// The same of precisions.
fn parse_precision(word: &str) -> Option<MvSubpelPrecision>
    ensures { MatchOption result ((precision : MvSubpelPrecision) → word.now ≢ precision_name precision) (λ precision. word.now ≡ precision_name precision) }
{
    match word {
        "NONE" => Some(MvSubpelPrecision::MV_SUBPEL_NONE),
        "LOW" => Some(MvSubpelPrecision::MV_SUBPEL_LOW_PRECISION),
        "HIGH" => Some(MvSubpelPrecision::MV_SUBPEL_HIGH_PRECISION),
        _ => None,
    }
}

impl Named for MvSubpelPrecision {
    ghost name = { precision_name };

    ghost all = { precisions };

    const UNKNOWN: Fault = Fault::UnknownPrecision;

    ghost UNKNOWN = { no.UnknownPrecision };

    ghost found = { precision_found };

    fn name(self) -> &'static str {
        match self {
            MvSubpelPrecision::MV_SUBPEL_NONE => "NONE",
            MvSubpelPrecision::MV_SUBPEL_LOW_PRECISION => "LOW",
            MvSubpelPrecision::MV_SUBPEL_HIGH_PRECISION => "HIGH",
        }
    }

    fn all() -> &'static [MvSubpelPrecision] {
        &[
            MvSubpelPrecision::MV_SUBPEL_NONE,
            MvSubpelPrecision::MV_SUBPEL_LOW_PRECISION,
            MvSubpelPrecision::MV_SUBPEL_HIGH_PRECISION,
        ]
    }

    fn from_name(word: &str) -> Option<MvSubpelPrecision> {
        parse_precision(word)
    }
}

/// A flag is 0 or 1.
impl Named for bool {
    ghost name = { flag_name };

    ghost all = { flags };

    const UNKNOWN: Fault = Fault::NotAFlag;

    ghost UNKNOWN = { no.NotAFlag };

    ghost found = { flag_found };

    fn name(self) -> &'static str {
        if self { "1" } else { "0" }
    }

    fn all() -> &'static [bool] {
        &[false, true]
    }
}
