ghost use Rattle.std.specs.Prelude.{◌≡◌};
ghost use Rattle.av1.specs.Refusals.{number};

/// Why a call is refused. The first question that is answered by no is the refusal, and nothing has changed then.
#[derive(Clone, Copy, PartialEq, Debug)]
pub enum Refusal {
    /// Columns and rows have to be even, in 2..=1024.
    TileSize,
    /// The last active segment is at most 7.
    LastSegment,
    /// The map's memory has at least columns × rows cells.
    MapMemory,
    /// The size, and the sub-size of a context update, has to be allowed.
    BlockSize,
    /// The position lies in the tile, at multiples of the block's width and height.
    Position,
    /// The partition is one of the table's, and allowed at this edge.
    Partition,
    /// A segment is at most the last active one.
    Segment,
    /// Alphas lie in -16..=16, and are not both 0.
    Alphas,
    /// Components lie in -16384..=16384.
    VectorRange,
    /// Components fit the precision.
    VectorPrecision,
    /// The sink has room for the entries.
    Room,
    /// The lanes have room for the undo records.
    LogRoom,
    /// Fewer than 16 trials are open.
    TooManyTrials,
    /// The trial is the innermost one.
    NotInnermost,
    /// The sink has as many entries as when the trial was opened.
    EntriesGone,
    /// No trial is open.
    TrialOpen,
    /// The record has room left.
    RecordFull,
    /// An entry's number is below the count, a cut's at most the count, a place to go back to at most the place.
    NoSuchEntry,
    /// There is a next entry.
    NoNextEntry,
    /// The entry fits its table.
    EntryUnfit,
    /// A segment's symbol is at most the last active segment.
    SymbolAboveLast,
    /// What is put into a record is an entry.
    NotAnEntry,
    /// Packed bytes are whole entries; `byte` is where the first entry begins that is none.
    NotPacked { byte: usize },
}

impl Refusal {
    /// The number under which the refusal is known.
    pub fn number(self) -> u8
        ensures { result ≡ number self }
    {
        // No plainer by `as`, which a variant with data rules out, nor by `From`, which would hold this match.
        match self {
            Refusal::TileSize => 1,
            Refusal::LastSegment => 2,
            Refusal::MapMemory => 3,
            Refusal::BlockSize => 4,
            Refusal::Position => 5,
            Refusal::Partition => 6,
            Refusal::Segment => 7,
            Refusal::Alphas => 8,
            Refusal::VectorRange => 9,
            Refusal::VectorPrecision => 10,
            Refusal::Room => 11,
            Refusal::LogRoom => 12,
            Refusal::TooManyTrials => 13,
            Refusal::NotInnermost => 14,
            Refusal::EntriesGone => 15,
            Refusal::TrialOpen => 16,
            Refusal::RecordFull => 17,
            Refusal::NoSuchEntry => 18,
            Refusal::NoNextEntry => 19,
            Refusal::EntryUnfit => 20,
            Refusal::SymbolAboveLast => 21,
            Refusal::NotAnEntry | Refusal::NotPacked { .. } => 22,
        }
    }
}
