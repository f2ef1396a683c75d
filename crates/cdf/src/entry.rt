ghost use Rattle.std.specs.Prelude.{◌≡◌, ◌<◌, length};
ghost use Rattle.cdf.specs.Entries.{is_entry, entry_fits};
ghost use Rattle.cdf.specs.Words.{fl_at, fh_at};

/// A coded symbol: symbol `s` of `n`, with the values of its table before and behind it.
#[derive(Clone, Copy, PartialEq, Eq, Debug)]
pub struct Entry {
    pub s: u8,
    pub n: u8,
    pub fl: u16,
    pub fh: u16,
}

// The values around symbol `s` of a table, which has the symbol.
pub(crate) fn around(table: &[u16], s: usize) -> (u16, u16)
    requires { s < length table.now }
    ensures { (result.0 ≡ fl_at table.now s) × (result.1 ≡ fh_at (length table.now) table.now s) }
{
    let before = table[s.saturating_sub(1)];
    let here = table[s];
    let fl = if s == 0 { 32768 } else { before };
    let fh = if s + 1 == table.len() { 0 } else { here };
    (fl, fh)
}

impl Entry {
    /// Whether `s` is below `n`, `n` in 2..=16, and `fh` ≤ `fl` ≤ 32768.
    pub fn is_entry(self) -> bool
        ensures { result ≡ is_entry self }
    {
        self.s < self.n && (2..=16).contains(&self.n) && self.fh <= self.fl && self.fl <= 32768
    }

    /// Whether this is the entry of a symbol of a table, as the table stands.
    pub fn fits(self, table: &[u16]) -> bool
        ensures { result ≡ entry_fits table.now self }
    {
        let s = usize::from(self.s);
        s < table.len()
            && usize::from(self.n) == table.len()
            && (self.fl, self.fh) == around(table, s)
    }
}
