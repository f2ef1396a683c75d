ghost use Rattle.std.specs.Prelude.{◌≡◌, ◌≤◌, length};
ghost use Rattle.std.proofs.Common.{arith};

use crate::source::{Source, SourceFault};
use av1::Refusal;
use cdf::Entry;

/// Entries one after the other, as a word record has them.
#[derive(Drop)]
pub struct WordSource<'a> {
    entries: &'a [Entry],
    place: usize,
    ghost inside: { place ≤ length entries.now },
}

impl<'a> WordSource<'a> {
    /// A source of these entries, at the first one.
    pub fn new(entries: &'a [Entry]) -> WordSource<'a>
        ensures { (result.entries.now ≡ entries.now) × (result.place ≡ 0) }
    {
        WordSource { entries, place: 0 }
    }
}

impl Source for WordSource<'_> {
    ghost list = { λ s. s.entries.now };

    ghost place = { λ s. s.place };

    ghost laws = { record { inside = λ s. omega arith } };

    fn place(&self) -> usize {
        self.place
    }

    fn next(&mut self, table: &[u16]) -> Result<u8, SourceFault> {
        let place = self.place;
        let entry = self
            .entries
            .get(place)
            .ok_or(SourceFault::NoNextEntry { place })?;
        if !entry.fits(table) {
            return Err(SourceFault::EntryUnfit { place });
        }
        self.place += 1;
        Ok(entry.s)
    }

    fn back(&mut self, p: usize) -> Result<(), Refusal> {
        if p > self.place {
            return Err(Refusal::NoSuchEntry);
        }
        self.place = p;
        Ok(())
    }
}
