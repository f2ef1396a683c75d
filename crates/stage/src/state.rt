ghost use Rattle.std.specs.Prelude.{◌≡◌, ◌≤◌, true, length};
ghost use Rattle.cdf.specs.Layout.{in_layout};
ghost use Rattle.cdf.specs.Words.{table};

use arrayvec::ArrayVec;
use av1::Tile;
use cdf::Tables;
use journal::{Counts, Mark};

mod alphas;
mod back;
mod bytes;
pub(crate) mod cells;
pub(crate) mod partition;
mod questions;
mod rows;
mod segment;
mod skip;
mod start;
mod symbols;
mod token;
mod trials;
mod update;
pub(crate) mod vector;

pub use crate::state::start::ask_start;

/// The partition contexts, a byte for 8 pixels: above the tile, and left of the superblock.
#[derive(Drop)]
pub(crate) struct Contexts {
    above: [u8; 512],
    left: [u8; 8],
}

/// The moments at which the open trials were opened, the innermost last, and the undo records in use in each lane. The
/// lanes themselves are the caller's memory, lent to each call.
#[derive(Drop)]
pub(crate) struct Journal {
    marks: ArrayVec<Mark, 16>,
    used: Counts,
}

/// A table of the layout: its first word, and its number of symbols.
#[derive(Clone, Copy)]
pub(crate) struct Table {
    pub(crate) first: usize,
    pub(crate) n: usize,
    ghost there: { in_layout (table first n) ≡ true },
}

/// An open trial. It carries its depth alone, and can be neither copied nor let go: `Stage::keep` ends it.
pub struct Trial {
    depth: usize,
}

/// The stage of one tile. The map, the lanes of undo records and the sink are lent to each call.
#[derive(Drop)]
pub struct Stage {
    pub(crate) tile: Tile,
    pub(crate) last: u8,
    pub(crate) tables: Tables,
    pub(crate) contexts: Contexts,
    pub(crate) journal: Journal,
    ghost ends: { last ≤ 7 },
    ghost few: { length journal.marks.items ≤ 16 },
    ghost over: { length contexts.above ≡ 512 },
    ghost beside: { length contexts.left ≡ 8 },
    ghost quiet: { (length journal.marks.items ≡ 0 → (journal.used.small ≡ 0) × (journal.used.large ≡ 0) × (journal.used.spots ≡ 0)) },
}
