//! Records of entries: what every sink and every source promises, and the word record with its source.
#![tactic(auto)]

pub mod sink;
pub mod source;
pub mod word;
pub mod word_source;

pub use crate::sink::Sink;
pub use crate::source::{Source, SourceFault};
pub use crate::word::WordRecord;
pub use crate::word_source::WordSource;
pub use cdf::Entry;
