ghost use Rattle.std.specs.Prelude.{◌≡◌, ◌-◌, ◌*◌, ◌/◌, ◌≤◌, min, true, [], length, take, cond, nat_le, Some, None, is_ok, IfOk, IfSome, vec_len, vec_capacity};
ghost use Rattle.packed.specs.Packing.{packed, unpacked, ends_from, Whole};
ghost use Rattle.std.proofs.Common.{arith};
ghost use Rattle.packed.specs.Laws.{packed_laws};

use crate::read::split_entry;
use crate::write::push_entry;
use av1::Refusal;
use cdf::Entry;
use record::Sink;
use std::alloc::{AllocError, Global};

/// A record of packed entries, in a fixed number of bytes.
#[derive(Drop)]
pub struct PackedRecord {
    bytes: Vec<u8>,
    // The byte behind each entry, so that `entry` and `cut` take the same time wherever they look.
    ends: Vec<u32>,
    places: usize,
    ghost whole: { Whole bytes.items },
    ghost ends_there: { ends.items ≡ ends_from 0 (unpacked bytes.items) },
    ghost within: { vec_len bytes ≤ places },
    ghost reserved: { (places ≤ vec_capacity bytes) × (places / 4 ≤ vec_capacity ends) },
    ghost most: { places ≤ 67108864 },
}

impl PackedRecord {
    /// An empty record of `places` bytes, of which at most 67,108,864 are used, in memory for just so many and for the
    /// ends of as many entries as they can hold. With no place none is asked for, so that it cannot fail.
    pub fn new(heap: Global, places: usize) -> Result<PackedRecord, AllocError>
        ensures made { IfOk result (λ p. (p.bytes.items ≡ []) × (p.places ≡ min places 67108864)) }
        ensures memory { IfOk result (λ p. (vec_capacity p.bytes ≡ p.places) × (vec_capacity p.ends ≡ p.places / 4)) }
        ensures without { places ≡ 0 → is_ok result ≡ true }
    {
        let places = places.min(67_108_864);
        let bytes = Vec::with_capacity(heap, places)?;
        let ends = Vec::with_capacity(heap, places / 4)?;
        Ok(PackedRecord {
            bytes,
            ends,
            places,
        })
    }

    /// The entries, packed.
    pub fn bytes(&self) -> &[u8]
        ensures value { result.now ≡ self.now.bytes.items }
        ensures whole { Whole result.now }
    {
        self.bytes.as_slice()
    }

    // Where the first `n` entries end, if there are so many.
    fn end(&self, n: usize) -> Option<usize>
        ensures value { result ≡ cond (nat_le n (length (unpacked self.now.bytes.items))) (Some (length (packed (take n (unpacked self.now.bytes.items))))) None }
        ensures inside { IfSome result (λ at. at ≤ vec_len self.now.bytes) }
    {
        match n.checked_sub(1) {
            None => Some(0),
            Some(last) => Some(*self.ends.get(last)? as usize),
        }
    }
}

impl Sink for PackedRecord {
    ghost list = { λ p. unpacked p.bytes.items };

    ghost rooms = { λ p l. (p.places - length (packed l)) / 8 };

    ghost laws = { packed_laws (λ p. p.bytes.items) (λ p. p.places) (λ p. p.whole) (λ p. omega arith) (λ p. p.most) };

    fn count(&self) -> usize {
        self.ends.len()
    }

    fn room(&self) -> usize {
        (self.places - self.bytes.len()) / 8
    }

    fn entry(&self, i: usize) -> Result<Entry, Refusal> {
        let start = self.end(i).ok_or(Refusal::NoSuchEntry)?;
        let (entry, _) = split_entry(&self.bytes[start..]).ok_or(Refusal::NoSuchEntry)?;
        Ok(entry)
    }

    fn put(&mut self, e: Entry) -> Result<(), Refusal> {
        if !e.is_entry() {
            return Err(Refusal::NotAnEntry);
        }
        if self.places - self.bytes.len() < 8 {
            return Err(Refusal::RecordFull);
        }
        push_entry(&mut self.bytes, e);
        self.ends.push_reserved(self.bytes.len() as u32);
        Ok(())
    }

    fn cut(&mut self, n: usize) -> Result<(), Refusal> {
        let end = self.end(n).ok_or(Refusal::NoSuchEntry)?;
        self.bytes.truncate(end);
        self.ends.truncate(n);
        Ok(())
    }
}
