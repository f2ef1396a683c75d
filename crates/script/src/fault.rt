ghost use Rattle.std.specs.Prelude.{◌≡◌, Some};
ghost use Rattle.script.specs.declared.fault.ScriptError.TheVariants.{Memory};
ghost use Rattle.script.specs.Faults.{fault_text, error_text, Faulty};

use std::alloc::{AllocError, AllocFailed, Global};
use std::fmt;

/// What is wrong with a line of a script.
#[derive(Clone, Copy, PartialEq, Debug)]
pub enum Fault {
    /// The first word of a line is no word of a script.
    UnknownWord,
    /// The line ends where a word has to follow.
    MissingWord,
    /// A word follows where the line has to end.
    ExtraWord,
    NotANumber,
    /// A number is too far from zero for its kind.
    NumberTooLarge,
    NegativeNumber,
    UnknownSize,
    UnknownPartition,
    UnknownPrecision,
    /// A flag is 0 or 1.
    NotAFlag,
    UnknownSink,
    /// The tile's line comes before every other one.
    NoTile,
    SecondTile,
    SecondSink,
    SecondLog,
    /// The lines of the sink and of the lanes come before the first call.
    Late,
}

impl Fault {
    /// What is wrong, in words: text that is there without memory or a writer.
    pub fn text(self) -> &'static str
        ensures { result.now ≡ fault_text self }
    {
        match self {
            Fault::UnknownWord => "unknown word",
            Fault::MissingWord => "missing word after",
            Fault::ExtraWord => "word too much:",
            Fault::NotANumber => "not a number:",
            Fault::NumberTooLarge => "number too large:",
            Fault::NegativeNumber => "negative number",
            Fault::UnknownSize => "unknown size",
            Fault::UnknownPartition => "unknown partition",
            Fault::UnknownPrecision => "unknown precision",
            Fault::NotAFlag => "neither 0 nor 1:",
            Fault::UnknownSink => "unknown sink",
            Fault::NoTile => "no tile line before",
            Fault::SecondTile => "second tile line:",
            Fault::SecondSink => "second sink line:",
            Fault::SecondLog => "second log line:",
            Fault::Late => "after the first call:",
        }
    }
}

impl fmt::Display for Fault {
    ghost output = { λ f. Some (fault_text f) };

    fn fmt<W: fmt::Write>(&self, f: &mut fmt::Formatter<W>) -> fmt::Result {
        f.write_str(self.text())
    }
}

/// Why a script is not read.
#[derive(Debug, Drop)]
pub enum ScriptError {
    Memory,
    /// The number of the line, counted from 1, what is wrong, and at which word.
    Line {
        line: usize,
        fault: Fault,
        word: String,
    },
}

impl ScriptError {
    /// The fault of a line at a word, or that there is no memory to say so.
    pub fn at(heap: Global, line: usize, fault: Fault, word: &str) -> ScriptError
        ensures { Faulty line fault word.now result }
    {
        String::from_str(heap, word).map_or(
            ScriptError::Memory,
            |word| ScriptError::Line { line, fault, word },
        )
    }
}

impl From<AllocError> for ScriptError {
    ghost from_gives = { λ _ r. r ≡ Memory };

    fn from(_e: AllocError) -> ScriptError {
        ScriptError::Memory
    }
}

impl<T: Drop> From<AllocFailed<T>> for ScriptError {
    ghost from_gives = { λ _ r. r ≡ Memory };

    fn from(_e: AllocFailed<T>) -> ScriptError {
        ScriptError::Memory
    }
}

impl fmt::Display for ScriptError {
    ghost output = { λ e. Some (error_text e) };

    fn fmt<W: fmt::Write>(&self, f: &mut fmt::Formatter<W>) -> fmt::Result {
        match self {
            ScriptError::Memory => f.write_str("out of memory"),
            ScriptError::Line { line, fault, word } => {
                write!(f, "line {line}: {fault} '{word}'")
            }
        }
    }
}
