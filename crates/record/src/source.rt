ghost use Rattle.std.specs.Prelude.{◌≡◌, ℕ, false, List, is_ok};
ghost use Rattle.cdf.specs.declared.entry.Entry.{Entry};
ghost use Rattle.record.specs.Sources.{refusal_of, place_of, next_answer, next_place, back_answer, back_place, SourceLaws};

use av1::Refusal;

/// Why a source gives no symbol. Each tells the place at which the source stands.
#[derive(Clone, Copy, PartialEq, Debug)]
pub enum SourceFault {
    /// There is no next entry.
    NoNextEntry { place: usize },
    /// The next entry is not one of the table.
    EntryUnfit { place: usize },
}

impl SourceFault {
    /// The refusal that it is.
    pub fn refusal(self) -> Refusal
        ensures { result ≡ refusal_of self }
    {
        match self {
            SourceFault::NoNextEntry { .. } => Refusal::NoNextEntry,
            SourceFault::EntryUnfit { .. } => Refusal::EntryUnfit,
        }
    }

    /// The place that it tells.
    pub fn place(self) -> usize
        ensures { result ≡ place_of self }
    {
        match self {
            SourceFault::NoNextEntry { place } | SourceFault::EntryUnfit { place } => place,
        }
    }
}

/// A list of entries, and a place in it, from 0 up to the end of the list.
pub trait Source {
    /// The entries, the first one first.
    ghost list: { Self → List Entry };

    /// The number of the next entry.
    ghost place: { Self → ℕ };

    /// What every source owes: its place lies in the list, or at its end.
    ghost laws: { SourceLaws list place };

    /// The number of the next entry.
    fn place(&self) -> usize
        ensures { result ≡ place self.now };

    /// The symbol of the next entry, where that is one of the table's. The place then moves on by one.
    fn next(&mut self, table: &[u16]) -> Result<u8, SourceFault>
        ensures answer { result ≡ next_answer (list self.old) (place self.old) table.now }
        ensures list { list self.new ≡ list self.old }
        ensures place { place self.new ≡ next_place (list self.old) (place self.old) table.now }
        ensures still { is_ok result ≡ false → self.new ≡ self.old };

    /// Goes back to entry `p`.
    fn back(&mut self, p: usize) -> Result<(), Refusal>
        ensures answer { result ≡ back_answer (place self.old) p }
        ensures list { list self.new ≡ list self.old }
        ensures place { place self.new ≡ back_place (place self.old) p }
        ensures still { is_ok result ≡ false → self.new ≡ self.old };
}
