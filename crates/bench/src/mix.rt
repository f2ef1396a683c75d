ghost use Rattle.std.specs.Prelude.{◌<◌};

use crate::memory::Memory;
use crate::random::Random;
use crate::timing::{Piece, refused};
use av1::mv::join_component;
use av1::{Answer, BlockSize, Call, MvSubpelPrecision, PartitionType, Refusal, TileBlockOffset};
use journal::Log;
use record::Sink;
use replay::make_call;
use stage::Stage;
use std::alloc::{AllocError, Global};

const CALLS: usize = 3000;

const SQUARES: [BlockSize; 4] = [
    BlockSize::BLOCK_8X8,
    BlockSize::BLOCK_16X16,
    BlockSize::BLOCK_32X32,
    BlockSize::BLOCK_64X64,
];

const SIZES: [BlockSize; 10] = [
    BlockSize::BLOCK_4X4,
    BlockSize::BLOCK_4X8,
    BlockSize::BLOCK_8X4,
    BlockSize::BLOCK_8X8,
    BlockSize::BLOCK_8X16,
    BlockSize::BLOCK_16X8,
    BlockSize::BLOCK_16X16,
    BlockSize::BLOCK_16X32,
    BlockSize::BLOCK_32X16,
    BlockSize::BLOCK_32X32,
];

const PRECISIONS: [MvSubpelPrecision; 3] = [
    MvSubpelPrecision::MV_SUBPEL_NONE,
    MvSubpelPrecision::MV_SUBPEL_LOW_PRECISION,
    MvSubpelPrecision::MV_SUBPEL_HIGH_PRECISION,
];

// A place of a block of this size in a tile of 64 × 64 units.
fn place(random: &mut Random, bsize: BlockSize) -> TileBlockOffset {
    let width = bsize.width_mi();
    let height = bsize.height_mi();
    TileBlockOffset {
        x: width * random.below(64 / width),
        y: height * random.below(64 / height),
    }
}

fn partition(random: &mut Random) -> Call {
    let bsize = random.pick(&SQUARES);
    let bo = place(random, bsize);
    let kinds = if bsize == BlockSize::BLOCK_8X8 { 4 } else { 10 };
    let partition = PartitionType::from_number(random.below(kinds)).unwrap_or(
        PartitionType::PARTITION_NONE,
    );
    Call::Partition {
        bo,
        bsize,
        partition,
    }
}

fn skip(random: &mut Random) -> Call {
    let bsize = random.pick(&SIZES);
    let bo = place(random, bsize);
    let skip = random.below(2) == 1;
    Call::Skip { bo, bsize, skip }
}

fn segment(random: &mut Random) -> Call {
    let bsize = random.pick(&SIZES);
    let bo = place(random, bsize);
    let segment = Some(random.below(8));
    Call::Segment { bo, bsize, segment }
}

fn skipped_segment(random: &mut Random) -> Call {
    let bsize = random.pick(&SIZES);
    let bo = place(random, bsize);
    Call::Segment {
        bo,
        bsize,
        segment: None,
    }
}

fn alphas(random: &mut Random) -> Call {
    let u = random.below(33) as i32 - 16;
    let v = random.below(33) as i32 - 16;
    // Both may not be zero.
    let u = if u == 0 && v == 0 { 1 } else { u };
    Call::Alphas { u, v }
}

// What components are multiples of.
fn step(precision: MvSubpelPrecision) -> usize
    ensures { 0 < result }
{
    match precision {
        MvSubpelPrecision::MV_SUBPEL_NONE => 8,
        MvSubpelPrecision::MV_SUBPEL_LOW_PRECISION => 2,
        MvSubpelPrecision::MV_SUBPEL_HIGH_PRECISION => 1,
    }
}

// A component that fits the precision, more often a small one.
fn component(random: &mut Random, precision: MvSubpelPrecision) -> i32 {
    let step = step(precision);
    let most = 1 << random.below(12);
    let magnitude = random.below(most + 1) / step * step;
    join_component(random.below(2) as u32, magnitude as u32).unwrap_or(0)
}

fn vector(random: &mut Random) -> Call {
    let precision = random.pick(&PRECISIONS);
    let row = component(random, precision);
    let col = component(random, precision);
    Call::Vector {
        row,
        col,
        precision,
    }
}

fn context_update(random: &mut Random) -> Call {
    let bsize = random.pick(&SQUARES);
    let bo = place(random, bsize);
    let part = random.pick(&SIZES);
    let subsize = if part.fits_in(bsize) { part } else { bsize };
    Call::ContextUpdate { bo, bsize, subsize }
}

// A call of a kind by lot. Of 20, 4 are partitions.
fn call(random: &mut Random) -> Call {
    match random.below(20) {
        0..=3 => partition(random),
        4..=7 => skip(random),
        8..=10 => segment(random),
        11 => skipped_segment(random),
        12..=13 => alphas(random),
        14..=16 => vector(random),
        17..=18 => context_update(random),
        _ => Call::RowStart,
    }
}

/// The calls: always the same, all of them allowed.
pub(crate) fn calls(heap: Global) -> Result<Vec<Call>, AllocError> {
    let mut random = Random::new();
    let mut calls = Vec::with_capacity(heap, CALLS)?;
    for _ in 0..CALLS {
        calls.push(call(&mut random))?;
    }
    Ok(calls)
}

/// A list of calls of all kinds in a tile of 64 × 64 units, with no trial open. A round starts the tile and the record
/// anew.
#[derive(Drop)]
pub struct Mix {
    pub calls: Vec<Call>,
    pub stage: Stage,
    pub memory: Memory,
}

impl Mix {
    pub(crate) fn new(heap: Global) -> anyhow::Result<Mix> {
        let mut memory = Memory::new(heap, 4096, 65_536)?;
        let stage = Stage::start(64, 64, 7, &mut memory.map).map_err(refused)?;
        Ok(Mix {
            calls: calls(heap)?,
            stage,
            memory,
        })
    }
}

impl Piece for Mix {
    fn round(&mut self) -> Result<usize, Refusal> {
        self.memory.sink.cut(0)?;
        self.stage = Stage::start(64, 64, 7, &mut self.memory.map)?;
        let mut log = Log {
            small: &mut self.memory.small,
            large: &mut self.memory.large,
            spots: &mut self.memory.spots,
        };
        for call in &self.calls {
            let _ = make_call(
                &mut self.stage,
                &mut self.memory.sink,
                &mut self.memory.map,
                &mut log,
                *call,
            )?;
        }
        Ok(self.calls.len())
    }
}
