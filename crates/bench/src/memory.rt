use av1::Cell;
use journal::{Log, Spot, Window};
use record::WordRecord;
use std::alloc::{AllocError, Global};

/// What is lent to a stage: a map, the lanes, and a sink. It is all written once, before anything is timed.
#[derive(Drop)]
pub struct Memory {
    pub map: Vec<Cell>,
    pub small: Vec<Window<4>>,
    pub large: Vec<Window<16>>,
    pub spots: Vec<Spot>,
    pub sink: WordRecord,
}

impl Memory {
    /// Memory for a tile of so many units and a record of so many entries. Each lane has 4,096 places.
    pub(crate) fn new(heap: Global, units: usize, places: usize) -> Result<Memory, AllocError> {
        let cell = Cell {
            skip: false,
            segment: 0,
        };
        let small = Window {
            first: 0,
            words: [0; 4],
        };
        let large = Window {
            first: 0,
            words: [0; 16],
        };
        let spot = Spot::Left { at: 0, was: 0 };
        Ok(Memory {
            map: vec![in heap; cell; units]?,
            small: vec![in heap; small; 4096]?,
            large: vec![in heap; large; 4096]?,
            spots: vec![in heap; spot; 4096]?,
            sink: WordRecord::new(heap, places)?,
        })
    }
}
