ghost use Rattle.std.specs.Prelude.{◌≡◌, true, ◌&&◌, IfSome, if◌then◌else◌, nat_lt};
ghost use Rattle.cdf.specs.Entries.{is_entry, entry_if};
ghost use Rattle.cdf.specs.Layout.{in_layout};
ghost use Rattle.cdf.specs.Start.{start_words};
ghost use Rattle.cdf.specs.Words.{table, updated};

use crate::adapt::update_cdf;
use crate::entry::Entry;
use crate::start::start_words;
use crate::tables::Tables;

impl Tables {
    /// The tables at the start of a tile.
    pub fn start() -> Tables
        ensures { result.words ≡ start_words }
    {
        Tables {
            words: start_words(),
        }
    }

    /// The 430 words.
    pub fn words(&self) -> &[u16; 430]
        ensures { result.now ≡ self.now.words }
    {
        &self.words
    }

    /// The entry of symbol `s` of the table of `n` symbols at word `first`, which adapts to the symbol.
    /// None, and nothing changes, where the layout has no such table or the table no such symbol.
    pub fn symbol_with_update(&mut self, first: usize, n: usize, s: usize) -> Option<Entry>
        ensures entry { result ≡ entry_if self.old.words (table first n) s }
        ensures lawful { IfSome result (λ e. is_entry e ≡ true) }
        ensures words { self.new.words ≡ (if in_layout (table first n) && nat_lt s n then updated self.old.words (table first n) s else self.old.words) }
    {
        let entry = self.cdf(first, n)?.entry(s)?;
        update_cdf(&mut self.words[first..first + n], s);
        Some(entry)
    }
}
