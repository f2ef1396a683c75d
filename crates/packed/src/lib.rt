//! Records packed into bytes: how entries are packed, the packed record, and the source over packed bytes.
#![tactic(auto)]

ghost use Rattle.std.specs.Prelude.{◌≡◌, ℕ, ◌≤◌, true, List, length};
ghost use Rattle.std.specs.List.{list_all};
ghost use Rattle.cdf.specs.declared.entry.Entry.{Entry};
ghost use Rattle.cdf.specs.Entries.{is_entry};
ghost use Rattle.packed.specs.Packing.{packed_entry, packed, unpacked, Whole, FailsAt, Worked};

pub mod packed_record;
pub mod packed_source;
pub mod read;
pub mod write;

pub use crate::packed_record::PackedRecord;
pub use crate::packed_source::PackedSource;
pub use crate::read::{count_entries, split_entry};
pub use crate::write::{pack, packed_bytes, packed_len};

/// Packed entries read back as they were, whole bytes are packed again as they were, and the two are the same bytes.
// That a packed source answers as a word source over the same entries needs no law of its own: the contracts of both are
// the same equations in the list and the place.
pub fn packing_reads_back()
    ensures entries { (l : List Entry) → list_all is_entry l ≡ true → unpacked (packed l) ≡ l }
    ensures bytes { (bs : List ℕ) → Whole bs → packed (unpacked bs) ≡ bs }
    ensures whole { (l : List Entry) → list_all is_entry l ≡ true → Whole (packed l) }
{}

/// An entry takes 4 to 8 bytes.
pub fn entries_take_four_to_eight_bytes()
    ensures { (e : Entry) → is_entry e ≡ true → (4 ≤ length (packed_entry e)) × (length (packed_entry e) ≤ 8) }
{}

/// Bytes fail at one place at most, and whole bytes at none.
pub fn bytes_fail_once()
    ensures once { (bs : List ℕ) (at other : ℕ) → FailsAt bs at → FailsAt bs other → at ≡ other }
    ensures never { (bs : List ℕ) (at : ℕ) → Whole bs → ¬ FailsAt bs at }
{}

/// The worked examples of packing hold.
pub fn worked_examples()
    ensures { Worked }
{}

#[cfg(test)]
mod tests;
