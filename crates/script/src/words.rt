ghost use Rattle.std.specs.Prelude.{◌≡◌, ◌<◌, ◌≤◌, true, false, length, drop, take, slice_index, All};
ghost use Rattle.std.specs.Option.{option_map};
ghost use Rattle.script.specs.Splits.{blank, ends_word, unread, words_of};
ghost use Rattle.script.specs.Statements.{first, wanted, end_at};

use crate::fault::Fault;
use crate::word::Word;

// Words are separated by spaces and tabs; a carriage return counts as one of these. Bytes are compared, not characters, so
// that none has to be decoded.
fn is_blank(byte: u8) -> bool
    ensures { result ≡ blank byte }
{
    byte == b' ' || byte == b'\t' || byte == b'\r'
}

// How many blanks a text begins with.
fn count_blanks(text: &str) -> usize
    ensures within { result ≤ length text.now }
    ensures blanks { All (λ b. blank b ≡ true) (take result text.now) }
    ensures dark { result < length text.now → blank (slice_index text.now result) ≡ false }
{
    text.bytes()
        .position(|byte| !is_blank(byte))
        .unwrap_or(text.len())
}

// How long the word is that a text begins with. A comment ends it too.
fn word_len(text: &str) -> usize
    ensures within { result ≤ length text.now }
    ensures word { All (λ b. ends_word b ≡ false) (take result text.now) }
    ensures end { result < length text.now → ends_word (slice_index text.now result) ≡ true }
{
    text.bytes()
        .position(|byte| byte == b'#' || is_blank(byte))
        .unwrap_or(text.len())
}

/// The words of a line that are not read yet, and the last one that was.
#[derive(Drop)]
pub(crate) struct Words<'a> {
    rest: &'a str,
    last: &'a str,
}

impl<'a> Words<'a> {
    /// The words of a line, up to its comment.
    pub(crate) fn new(line: &'a str) -> Words<'a>
        ensures { unread result.rest ≡ words_of line.now }
    {
        Words {
            rest: line,
            last: "",
        }
    }

    /// The word that was read last.
    pub(crate) fn last(&self) -> &'a str
        ensures { result.now ≡ self.now.last.now }
    {
        self.last
    }

    /// The next word.
    pub(crate) fn next_word(&mut self) -> Option<&'a str>
        ensures value { option_map (λ x. x.now) result ≡ first (unread self.old.rest) }
        ensures after { unread self.new.rest ≡ drop 1 (unread self.old.rest) }
    {
        let (_, text) = self.rest.split_at(count_blanks(self.rest));
        let (word, rest) = text.split_at(word_len(text));
        self.rest = rest;
        if word.is_empty() {
            return None;
        }
        self.last = word;
        Some(word)
    }

    /// The next word, read as what has to be there.
    pub(crate) fn read<T: Word>(&mut self) -> Result<T, Fault>
        ensures value { result ≡ wanted T.read_as (first (unread self.old.rest)) }
        ensures after { unread self.new.rest ≡ drop 1 (unread self.old.rest) }
    {
        T::read(self.next_word().ok_or(Fault::MissingWord)?)
    }

    /// Asks that the line ends here.
    pub(crate) fn end(&mut self) -> Result<(), Fault>
        ensures { result ≡ end_at (unread self.old.rest) }
    {
        match self.next_word() {
            Some(_) => Err(Fault::ExtraWord),
            None => Ok(()),
        }
    }
}
