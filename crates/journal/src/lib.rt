//! What a trial logs so that it can be taken back: undo records, the lanes that hold them, and the marks of open trials.
#![tactic(auto)]

pub mod spots;
pub mod walk;
pub mod windows;

pub use crate::spots::{Places, undo_spots};
pub use crate::walk::{UndoRecord, undo};
use av1::Cell;

/// What `W` words from word `first` on were before a symbol adapted a table among them.
#[derive(Clone, Copy, PartialEq, Debug)]
pub struct Window<const W: usize> {
    pub first: u16,
    pub words: [u16; W],
}

/// What a cell or a context byte was before it was set.
#[derive(Clone, Copy, PartialEq, Debug)]
pub enum Spot {
    Cell { at: u32, was: Cell },
    Above { at: u16, was: u8 },
    Left { at: u8, was: u8 },
}

/// A number of undo records for each lane.
#[derive(Clone, Copy, PartialEq, Debug, Default)]
pub struct Counts {
    pub small: usize,
    pub large: usize,
    pub spots: usize,
}

/// The moment at which a trial was opened: the records in use in each lane, and the entries in the sink.
#[derive(Clone, Copy, PartialEq, Debug, Default)]
pub struct Mark {
    pub used: Counts,
    pub entries: usize,
}

/// The lanes, in memory that the caller lends: windows of tables of up to 4 symbols, of larger tables, and spots.
#[derive(Drop)]
pub struct Log<'a> {
    pub small: &'a mut [Window<4>],
    pub large: &'a mut [Window<16>],
    pub spots: &'a mut [Spot],
}
