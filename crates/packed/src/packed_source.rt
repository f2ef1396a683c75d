ghost use Rattle.std.specs.Prelude.{◌≡◌, ◌-◌, ◌≤◌, true, List, length, take, is_ok, MatchResult};
ghost use Rattle.std.specs.List.{list_all};
ghost use Rattle.cdf.specs.declared.entry.Entry.{Entry};
ghost use Rattle.cdf.specs.Entries.{is_entry};
ghost use Rattle.packed.specs.Packing.{packed, unpacked, BeginsAt, Whole, Refused};

use crate::read::{count_entries, split_entry};
use av1::Refusal;
use record::{Source, SourceFault};

/// The entries of packed bytes, one after the other.
#[derive(Drop)]
pub struct PackedSource<'a> {
    bytes: &'a [u8],
    // The byte at which the next entry begins.
    offset: usize,
    place: usize,
    ghost whole: { Whole bytes.now },
    ghost here: { BeginsAt bytes.now place offset },
    ghost within: { offset ≤ length bytes.now },
}

impl<'a> PackedSource<'a> {
    /// A source of these bytes, at the first entry, if they are packed entries.
    pub fn new(bytes: &'a [u8]) -> Result<PackedSource<'a>, Refusal>
        ensures value { MatchResult result (λ s. (s.bytes.now ≡ bytes.now) × (s.place ≡ 0) × Whole bytes.now) (Refused bytes.now) }
        ensures packings { (l : List Entry) → list_all is_entry l ≡ true → bytes.now ≡ packed l → is_ok result ≡ true }
    {
        count_entries(bytes)?;
        Ok(PackedSource {
            bytes,
            offset: 0,
            place: 0,
        })
    }
}

// Where the last `n` entries of packed bytes begin. The last byte of each number, and no other, is below 128.
fn start_of_last(bytes: &[u8], n: usize) -> usize
    requires whole { Whole bytes.now }
    requires inside { n ≤ length (unpacked bytes.now) }
    ensures { BeginsAt bytes.now (length (unpacked bytes.now) - n) result }
{
    let mut numbers = 4 * n;
    let mut front = bytes;
    while let Some((byte, rest)) = front.split_last() {
        if *byte < 128 {
            if numbers == 0 {
                return front.len();
            }
            numbers -= 1;
        }
        front = rest;
    }
    0
}

impl Source for PackedSource<'_> {
    ghost list = { λ s. unpacked s.bytes.now };

    ghost place = { λ s. s.place };

    ghost laws = { record { inside = λ s. s.here.inside } };

    fn place(&self) -> usize {
        self.place
    }

    fn next(&mut self, table: &[u16]) -> Result<u8, SourceFault> {
        let place = self.place;
        let Some((entry, rest)) = split_entry(&self.bytes[self.offset..]) else {
            return Err(SourceFault::NoNextEntry { place });
        };
        if !entry.fits(table) {
            return Err(SourceFault::EntryUnfit { place });
        }
        self.offset = self.bytes.len() - rest.len();
        self.place += 1;
        Ok(entry.s)
    }

    fn back(&mut self, p: usize) -> Result<(), Refusal> {
        if p > self.place {
            return Err(Refusal::NoSuchEntry);
        }
        self.offset = start_of_last(&self.bytes[..self.offset], self.place - p);
        self.place = p;
        Ok(())
    }
}
