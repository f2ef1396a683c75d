//! The writing stage of a tile: block decisions become entries in a sink, and the tables, contexts and map follow. And
//! its reader, which turns the entries of a source back into decisions.
#![tactic(auto)]

pub mod reader;
pub mod state;

pub use crate::reader::Reader;
pub use crate::reader::fault::{ReadError, ReadFault, SymbolFault};
pub use crate::state::{Stage, Trial, ask_start};

#[cfg(test)]
mod tests;
