ghost use Rattle.std.specs.Prelude.{◌≡◌, ◌+◌, ◌≤◌, true, length, IfSome, is_some};
ghost use Rattle.cdf.specs.Entries.{is_entry, edge_symbols, entry_in};
ghost use Rattle.cdf.specs.Layout.{in_layout, descends};
ghost use Rattle.cdf.specs.Words.{table, words_of, width_of, widths};

use crate::entry::{Entry, around};
use crate::layout::has_table;
use crate::tables::Tables;
use crate::tables::edges::Edge;

// The words of one table: values that do not rise, and then the counter.
#[derive(Clone, Copy)]
pub(super) struct Cdf<'a> {
    pub(super) words: &'a [u16],
    ghost lawful: { descends 32768 words.now ≡ true },
    ghost least: { 2 ≤ length words.now },
    ghost most: { length words.now ≤ 16 },
}

impl Cdf<'_> {
    // The entry of symbol `s`, None where the table has no such symbol.
    pub(super) fn entry(&self, s: usize) -> Option<Entry>
        ensures entry { result ≡ entry_in self.now.words.now s }
        ensures lawful { IfSome result (λ e. is_entry e ≡ true) }
    {
        let n = self.words.len();
        if s >= n {
            return None;
        }
        let (fl, fh) = around(self.words, s);
        Some(Entry {
            s: s as u8,
            n: n as u8,
            fl,
            fh,
        })
    }

    // The width of a symbol, 0 of one that the table has not.
    fn width(&self, s: usize) -> u16
        ensures { result ≡ width_of (length self.now.words.now) self.now.words.now s }
    {
        if s >= self.words.len() {
            return 0;
        }
        let (fl, fh) = around(self.words, s);
        fl - fh
    }

    // The sum of the widths of the symbols that are like a SPLIT.
    pub(super) fn gather(&self, edge: Edge) -> u16
        ensures value { result ≡ widths (length self.now.words.now) self.now.words.now (edge_symbols edge) }
        ensures most { result ≤ 32768 }
    {
        edge.symbols().iter().map(|&s| self.width(s)).sum()
    }
}

impl Tables {
    // The table of `n` symbols at word `first`, where the layout has it.
    pub(super) fn cdf(&self, first: usize, n: usize) -> Option<Cdf<'_>>
        ensures listed { is_some result ≡ in_layout (table first n) }
        ensures words { IfSome result (λ c. c.words.now ≡ words_of self.now.words (table first n)) }
        ensures inside { IfSome result (λ c. (first + n ≤ 430) × (length c.words.now ≡ n)) }
    {
        if !has_table(first, n) {
            return None;
        }
        Some(Cdf {
            words: &self.words[first..first + n],
        })
    }
}
