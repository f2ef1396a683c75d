ghost use Rattle.std.specs.Prelude.{◌≡◌, ◌-◌, ◌≤◌, min, true, [], length, is_ok, IfOk, vec_len, vec_capacity};
ghost use Rattle.std.proofs.Common.{arith};
ghost use Rattle.std.proofs.lemmas.List.{length_push};

use crate::sink::Sink;
use av1::Refusal;
use cdf::Entry;
use std::alloc::{AllocError, Global};

/// A record with a fixed number of places, one for an entry.
#[derive(Drop)]
pub struct WordRecord {
    entries: Vec<Entry>,
    places: usize,
    ghost within: { vec_len entries ≤ places },
    ghost reserved: { places ≤ vec_capacity entries },
    ghost most: { places ≤ 16777216 },
}

impl WordRecord {
    /// An empty record of `places` places, of which at most 16,777,216 are used, in memory for just so many. With no
    /// place none is asked for, so that it cannot fail.
    pub fn new(heap: Global, places: usize) -> Result<WordRecord, AllocError>
        ensures made { IfOk result (λ w. (w.entries.items ≡ []) × (w.places ≡ min places 16777216)) }
        ensures memory { IfOk result (λ w. vec_capacity w.entries ≡ w.places) }
        ensures without { places ≡ 0 → is_ok result ≡ true }
    {
        let places = places.min(16_777_216);
        let entries = Vec::with_capacity(heap, places)?;
        Ok(WordRecord { entries, places })
    }

    /// The entries, the oldest first.
    pub fn entries(&self) -> &[Entry]
        ensures { result.now ≡ self.now.entries.items }
    {
        self.entries.as_slice()
    }
}

impl Sink for WordRecord {
    ghost list = { λ w. w.entries.items };

    ghost rooms = { λ w l. w.places - length l };

    ghost laws = { record { falls = λ s l e h. omega (arith, length_push l e); bounded = λ s. omega arith } };

    fn count(&self) -> usize {
        self.entries.len()
    }

    fn room(&self) -> usize {
        self.places - self.entries.len()
    }

    fn entry(&self, i: usize) -> Result<Entry, Refusal> {
        self.entries.get(i).copied().ok_or(Refusal::NoSuchEntry)
    }

    fn put(&mut self, e: Entry) -> Result<(), Refusal> {
        if !e.is_entry() {
            return Err(Refusal::NotAnEntry);
        }
        if self.entries.len() >= self.places {
            return Err(Refusal::RecordFull);
        }
        self.entries.push_reserved(e);
        Ok(())
    }

    fn cut(&mut self, n: usize) -> Result<(), Refusal> {
        if n > self.entries.len() {
            return Err(Refusal::NoSuchEntry);
        }
        self.entries.truncate(n);
        Ok(())
    }
}
