use crate::memory::Memory;
use crate::timing::{Piece, refused};
use av1::{BlockSize, Refusal, TileBlockOffset};
use journal::Log;
use record::Sink;
use stage::Stage;
use std::alloc::Global;

/// Trials in a tile of 16 × 16 units. Each is opened, has the skip flags of the 64 blocks of 8X8, row by row, and is taken
/// back and ended.
#[derive(Drop)]
pub struct Trials {
    pub stage: Stage,
    pub memory: Memory,
    /// How many trials a round has.
    pub trials: usize,
}

impl Trials {
    pub(crate) fn new(heap: Global, trials: usize) -> anyhow::Result<Trials> {
        let mut memory = Memory::new(heap, 256, 64)?;
        let stage = Stage::start(16, 16, 7, &mut memory.map).map_err(refused)?;
        Ok(Trials {
            stage,
            memory,
            trials,
        })
    }

    /// The decisions of a trial: block `i` is skipped where 7 × i plus the trial's number is a multiple of 3.
    pub(crate) fn decide(&mut self, trial: usize) -> Result<(), Refusal> {
        let mut log = Log {
            small: &mut self.memory.small,
            large: &mut self.memory.large,
            spots: &mut self.memory.spots,
        };
        for i in 0..64 {
            let _ = self.stage.write_skip(
                &mut self.memory.sink,
                &mut self.memory.map,
                &mut log,
                TileBlockOffset {
                    x: 2 * (i % 8),
                    y: 2 * (i / 8),
                },
                BlockSize::BLOCK_8X8,
                (7 * i + trial % 3) % 3 == 0,
            )?;
        }
        Ok(())
    }

    /// Takes a trial back, and ends it.
    pub(crate) fn undo(&mut self, depth: usize) -> Result<(), Refusal> {
        let log = Log {
            small: &mut self.memory.small,
            large: &mut self.memory.large,
            spots: &mut self.memory.spots,
        };
        self.stage
            .take_back_at(&mut self.memory.sink, &mut self.memory.map, &log, depth)?;
        self.stage.keep_at(depth)
    }
}

impl Piece for Trials {
    fn round(&mut self) -> Result<usize, Refusal> {
        let mut decisions = 0usize;
        for trial in 0..self.trials {
            let depth = self.stage.open_at(&self.memory.sink)?;
            self.decide(trial)?;
            decisions = decisions.saturating_add(self.memory.sink.count());
            self.undo(depth)?;
        }
        Ok(decisions)
    }
}
