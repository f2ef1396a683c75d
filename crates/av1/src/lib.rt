//! The AV1 standard's vocabulary: block sizes, partitions, chroma alphas, vector components, the tile with its cells and their neighbours, the calls of a stage with their answers and the refusals of every call.
#![tactic(auto)]

pub mod call;
pub mod cfl;
pub mod mv;
pub mod partition;
pub mod refusal;
pub mod segment;
pub mod size;
pub mod tile;

pub use crate::call::{Answer, Call};
pub use crate::cfl::{CFLParams, CFLSign};
pub use crate::mv::MvSubpelPrecision;
pub use crate::partition::PartitionType;
pub use crate::refusal::Refusal;
pub use crate::segment::{neg_deinterleave, neg_interleave};
pub use crate::size::BlockSize;
pub use crate::tile::{Block, Cell, Tile, TileBlockOffset};
