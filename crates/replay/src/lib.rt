//! Whole lists of calls, made one after the other, and what holds of any such list.
#![tactic(auto)]

ghost use Rattle.replay.specs.Questions.{FirstNoTold, QuestionsRise};

pub mod book;
pub mod call;
pub mod read;
pub mod read_back;
pub mod round;
pub mod write;

pub use crate::book::{Book, Standing};
pub use crate::call::make_call;
pub use crate::read::{ReadRun, read_call, read_calls};
pub use crate::read_back::ReadBack;
pub use crate::round::{Round, RoundError, write_and_read};
pub use crate::write::{ReplayError, write_calls};

/// Of a call's questions, asked by rising numbers, the first that is answered by no is told by its number.
pub fn first_no_is_told()
    ensures told { FirstNoTold }
    ensures rise { QuestionsRise }
{}

#[cfg(test)]
mod damage;
#[cfg(test)]
mod tests;
