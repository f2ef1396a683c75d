ghost use Rattle.std.specs.Prelude.{◌≡◌, ℕ, ◌+◌, ◌++◌, [], ◌∷◌, length, take, IfOk, OnErr, OnOk, is_ok, true};
ghost use Rattle.model.specs.Decisions.{stage as subject};
ghost use Rattle.model.specs.Runs.{cut, empty_book, noted, take_back};
ghost use Rattle.replay.specs.Books.{book, in_book, kept, Room};
ghost use Rattle.replay.specs.Calls.{asking};
ghost use Rattle.replay.specs.Runs.{told_of};

use av1::{Answer, Call, Refusal};
use std::alloc::{AllocError, Global};

/// A call that stands, and the segment that it answered: 0 where it is none of a segment.
#[derive(Clone, Copy, PartialEq, Debug)]
pub struct Standing {
    pub call: Call,
    pub segment: usize,
}

/// The book of the calls that stand: those that were accepted, and not taken back.
#[derive(Drop)]
pub struct Book {
    standing: Vec<Standing>,
    // how many calls stood when each open trial was opened, the innermost last
    numbers: Vec<usize>,
}

impl Book {
    /// The book before any call, with room for so many.
    pub fn with_capacity(heap: Global, calls: usize) -> Result<Book, AllocError>
        ensures empty { IfOk result (λ b. book b ≡ empty_book subject) }
        ensures room { IfOk result (λ b. Room calls b) }
    {
        let standing = Vec::with_capacity(heap, calls)?;
        let numbers = Vec::with_capacity(heap, calls)?;
        Ok(Book { standing, numbers })
    }

    /// The book before any call.
    pub fn new(heap: Global) -> Book
        ensures { book result ≡ empty_book subject }
    {
        Book {
            standing: Vec::new(heap),
            numbers: Vec::new(heap),
        }
    }

    // The calls since the innermost trial was opened go; the number at which it was opened stays.
    fn cut(&mut self)
        ensures cut { book self.new ≡ cut (book self.old) (take_back 0) }
        ensures kept { in_book self.new ≡ take (length (in_book self.new)) (in_book self.old) }
        ensures room { (n : ℕ) → Room (n + 1) self.old → Room n self.new }
    {
        if let Some(number) = self.numbers.last() {
            self.standing.truncate(*number);
        }
    }

    /// Takes down a call and what it answered. While as many calls were taken down as the book has room for, it does.
    pub fn note(&mut self, call: Call, answer: Result<Answer, Refusal>) -> Result<(), AllocError>
        ensures noted { OnOk result (book self.new ≡ noted (book self.old) (asking call) (told_of call answer)) }
        ensures kept { OnOk result (in_book self.new ≡ take (length (in_book self.new)) (in_book self.old ++ kept call answer ∷ [])) }
        ensures still { OnErr result (book self.new ≡ book self.old) }
        ensures room { (n : ℕ) → Room (n + 1) self.old → (is_ok result ≡ true) × Room n self.new }
    {
        match (call, answer) {
            (Call::Open, Ok(Answer::Opened(_))) => self.numbers.push(self.standing.len())?,
            (Call::TakeBack { .. }, Ok(Answer::Done)) => self.cut(),
            (Call::Keep { .. }, Ok(Answer::Done)) => {
                let _ = self.numbers.pop();
            }
            (Call::Open | Call::TakeBack { .. } | Call::Keep { .. }, _) => {}
            (_, Ok(Answer::Wrote(_))) => self.standing.push(Standing { call, segment: 0 })?,
            (_, Ok(Answer::Segmented { segment, .. })) => {
                self.standing.push(Standing { call, segment })?;
            }
            (Call::ContextUpdate { .. } | Call::RowStart, Ok(Answer::Done)) => {
                self.standing.push(Standing { call, segment: 0 })?;
            }
            _ => {}
        }
        Ok(())
    }

    /// The calls that stand, in order.
    pub fn standing(&self) -> &[Standing]
        ensures { result.now ≡ in_book self.now }
    {
        self.standing.as_slice()
    }
}
