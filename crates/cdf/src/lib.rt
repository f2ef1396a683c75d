//! The tables of cumulative values that symbols are coded by: 430 words, their layout, and how a symbol adapts its table.
#![tactic(auto)]

ghost use Rattle.cdf.specs.Layout.{OneLayout};
ghost use Rattle.cdf.specs.Limits.{LawfulByLimits};

pub mod adapt;
pub mod entry;
mod layout;
mod limits;
pub mod start;
pub mod tables;

pub use crate::adapt::update_cdf;
pub use crate::entry::Entry;
pub use crate::tables::Tables;
pub use crate::tables::edges::Edge;

/// The sizes word by word list the 70 tables and no others, and the limits word by word say what is lawful.
#[tactic(auto, using(crate::proofs::Layouts::one_layout, crate::proofs::WordByWord::lawful_by_limits))]
pub fn layout_is_one()
    ensures tables { OneLayout }
    ensures limits { LawfulByLimits }
{}
