//! Scripts of calls: their text, the lines that a run prints, and the digest of a state.
#![tactic(auto)]

pub mod digest;
pub mod fault;
mod head;
pub mod name;
pub mod parse;
pub mod report;
pub mod statement;
pub mod word;
mod words;
pub mod written;

pub use crate::digest::Digest;
pub use crate::fault::{Fault, ScriptError};
pub use crate::name::Named;
pub use crate::parse::{Line, Script};
pub use crate::report::{
    Answered, Compared, Decided, Recorded, StartRefused, State, Stop, Stopped, SymbolPlace,
};
pub use crate::statement::SinkKind;
pub use crate::word::Word;
pub use crate::written::Written;

#[cfg(test)]
mod tests;
