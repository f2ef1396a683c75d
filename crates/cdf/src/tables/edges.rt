ghost use Rattle.std.specs.Prelude.{◌≡◌, true, IfSome};
ghost use Rattle.cdf.specs.Entries.{is_entry, edge_symbols, edge_table_if, edge_entry_if};
ghost use Rattle.cdf.specs.Layout.{descends};
ghost use Rattle.cdf.specs.Words.{table};

use crate::entry::Entry;
use crate::tables::Tables;
use crate::tables::cdf::Cdf;

/// The edge of the tile that a block reaches over. A partition is then coded by two symbols: 1 for SPLIT, and 0 for
/// HORZ at the bottom, for VERT at the right.
#[derive(Clone, Copy, PartialEq, Eq, Debug)]
pub enum Edge {
    Bottom,
    Right,
}

impl Edge {
    // The partitions that are like a SPLIT at this edge.
    pub(super) fn symbols(self) -> [usize; 6]
        ensures { result ≡ edge_symbols self }
    {
        match self {
            Edge::Bottom => [2, 3, 4, 6, 7, 9],
            Edge::Right => [1, 3, 4, 5, 6, 8],
        }
    }
}

impl Tables {
    /// The table of two symbols at an edge: its value is the sum of the widths, in the table of `n` symbols at word
    /// `first`, of the partitions that are like a SPLIT. It is stored nowhere. None where the layout has no such table.
    pub fn edge_table(&self, first: usize, n: usize, edge: Edge) -> Option<[u16; 2]>
        ensures table { result ≡ edge_table_if self.now.words (table first n) edge }
        ensures lawful { IfSome result (λ t. descends 32768 t ≡ true) }
    {
        let split = self.cdf(first, n)?.gather(edge);
        Some([split, 0])
    }

    /// The entry of symbol `s` at an edge, of a table of two symbols that is summed from the table of `n` symbols at
    /// word `first`, which does not adapt. None where the layout has no such table or `s` is above 1.
    pub fn edge_symbol(&self, first: usize, n: usize, edge: Edge, s: usize) -> Option<Entry>
        ensures entry { result ≡ edge_entry_if self.now.words (table first n) edge s }
        ensures lawful { IfSome result (λ e. is_entry e ≡ true) }
    {
        // asked before any width is summed
        if s >= 2 {
            return None;
        }
        let words = self.edge_table(first, n, edge)?;
        Cdf { words: &words }.entry(s)
    }
}
