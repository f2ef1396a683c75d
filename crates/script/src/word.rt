ghost use Rattle.std.specs.Prelude.{◌≡◌, ℕ, List, Result};
ghost use Rattle.script.specs.Names.{read_name};
ghost use Rattle.script.specs.Numbers.{numeral, negative, read_number, read_integer, read_id};
ghost use Rattle.script.specs.declared.fault.Fault.{Fault};

use crate::fault::Fault;
use crate::name::Named;

/// What a word of a script can be read as.
pub trait Word {
    ghost read_as: { List ℕ → Result Self Fault };

    /// What the word says, or what is wrong with it.
    fn read(word: &str) -> Result<Self, Fault>
        ensures { result ≡ read_as word.now };
}

impl<T: Named> Word for T {
    ghost read_as = { read_name T.name T.all T.UNKNOWN };

    fn read(word: &str) -> Result<T, Fault> {
        T::from_name(word).ok_or(T::UNKNOWN)
    }
}

/// Whether a word is one decimal digit or more, and nothing else.
fn is_numeral(word: &str) -> bool
    ensures { result ≡ numeral word.now }
{
    !word.is_empty() && word.bytes().all(|byte| byte.is_ascii_digit())
}

/// Whether a word is a minus before a numeral.
fn is_negative(word: &str) -> bool
    ensures { result ≡ negative word.now }
{
    word.strip_prefix('-').is_some_and(is_numeral)
}

/// The number that a numeral writes.
impl Word for usize {
    ghost read_as = { read_number };

    fn read(word: &str) -> Result<usize, Fault> {
        if is_numeral(word) {
            word.parse::<usize>().map_err(|_| Fault::NumberTooLarge)
        } else if is_negative(word) {
            Err(Fault::NegativeNumber)
        } else {
            Err(Fault::NotANumber)
        }
    }
}

/// The number that a numeral writes, with or without a minus before it.
impl Word for i32 {
    ghost read_as = { read_integer };

    fn read(word: &str) -> Result<i32, Fault> {
        if is_numeral(word) || is_negative(word) {
            word.parse::<i32>().map_err(|_| Fault::NumberTooLarge)
        } else {
            Err(Fault::NotANumber)
        }
    }
}

/// A segment, or none where the block is skipped.
impl Word for Option<usize> {
    ghost read_as = { read_id };

    fn read(word: &str) -> Result<Option<usize>, Fault> {
        match word {
            "skipped" => Ok(None),
            _ => usize::read(word).map(Some),
        }
    }
}
