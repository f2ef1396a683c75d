ghost use Rattle.std.specs.Prelude.{◌≡◌};
ghost use Rattle.record.specs.Sources.{refusal_of};
ghost use Rattle.stage.specs.declared.reader.fault.ReadError.TheVariants.{Refused, Fault};
ghost use Rattle.stage.specs.declared.reader.fault.ReadFault.TheVariants.{Symbol};
ghost use Rattle.stage.specs.Faults.{fault_of, stop_of, why_of, number};

use av1::Refusal;
use record::SourceFault;

/// Why a symbol is not read: the source's fault, and the first word of the table, at an edge of the one that was summed.
#[derive(Clone, Copy, PartialEq, Debug)]
pub struct SymbolFault {
    pub source: SourceFault,
    pub table: usize,
}

/// Why the symbols of a decision are not read. Each tells the number of the entry in its decision, from 0.
#[derive(Clone, Copy, PartialEq, Debug)]
pub enum ReadFault {
    /// A symbol is not read.
    Symbol {
        symbol: SymbolFault,
        entry: usize,
    },
    /// A segment's symbol is above the last active segment; with the first word of its table, and its place in the source.
    AboveLast {
        entry: usize,
        table: usize,
        place: usize,
    },
}

/// Why a decision is not read: a question is answered by no, or a symbol is refused.
#[derive(Clone, Copy, PartialEq, Debug)]
pub enum ReadError {
    Refused(Refusal),
    Fault(ReadFault),
}

impl From<(SourceFault, usize)> for SymbolFault {
    ghost from_gives = { λ f r. r ≡ record { source = f.0; table = f.1 } };

    fn from((source, table): (SourceFault, usize)) -> SymbolFault {
        SymbolFault { source, table }
    }
}

impl From<(SymbolFault, usize)> for ReadFault {
    ghost from_gives = { λ f r. r ≡ Symbol f.0 f.1 };

    fn from((symbol, entry): (SymbolFault, usize)) -> ReadFault {
        ReadFault::Symbol { symbol, entry }
    }
}

impl From<Refusal> for ReadError {
    ghost from_gives = { λ why r. r ≡ Refused why };

    fn from(why: Refusal) -> ReadError {
        ReadError::Refused(why)
    }
}

impl From<ReadFault> for ReadError {
    ghost from_gives = { λ f r. r ≡ Fault f };

    fn from(fault: ReadFault) -> ReadError {
        ReadError::Fault(fault)
    }
}

impl SymbolFault {
    /// The refusal that it is.
    pub fn refusal(self) -> Refusal
        ensures { result ≡ refusal_of self.source }
    {
        self.source.refusal()
    }
}

impl ReadFault {
    /// The refusal that it is.
    pub fn refusal(self) -> Refusal
        ensures { result ≡ (fault_of self).why }
    {
        match self {
            ReadFault::Symbol { symbol, .. } => symbol.refusal(),
            ReadFault::AboveLast { .. } => Refusal::SymbolAboveLast,
        }
    }

    /// The number of the entry in its decision.
    pub fn entry(self) -> usize
        ensures { result ≡ (fault_of self).entry }
    {
        match self {
            ReadFault::Symbol { entry, .. } | ReadFault::AboveLast { entry, .. } => entry,
        }
    }

    /// The first word of the symbol's table.
    pub fn table(self) -> usize
        ensures { result ≡ (fault_of self).table }
    {
        match self {
            ReadFault::Symbol { symbol, .. } => symbol.table,
            ReadFault::AboveLast { table, .. } => table,
        }
    }

    /// The place of the entry in the source.
    pub fn place(self) -> usize
        ensures { result ≡ (fault_of self).place }
    {
        match self {
            ReadFault::Symbol { symbol, .. } => symbol.source.place(),
            ReadFault::AboveLast { place, .. } => place,
        }
    }
}

impl ReadError {
    /// The refusal that it is.
    pub fn refusal(self) -> Refusal
        ensures { result ≡ why_of (stop_of self) }
    {
        match self {
            ReadError::Refused(why) => why,
            ReadError::Fault(fault) => fault.refusal(),
        }
    }

    /// The number under which its refusal is known.
    pub fn number(self) -> u8
        ensures { result ≡ number self }
    {
        self.refusal().number()
    }
}
