ghost use Rattle.std.specs.Prelude.{◌≡◌, ◌<◌, ◌++◌, true, List, length, is_ok, MatchOption, MatchResult};
ghost use Rattle.std.specs.List.{list_all};
ghost use Rattle.cdf.specs.declared.entry.Entry.{Entry};
ghost use Rattle.cdf.specs.Entries.{is_entry};
ghost use Rattle.packed.specs.Packing.{groups, packed_entry, packed, unpacked, NoNumber, NoEntry, Whole, Refused};

use av1::Refusal;
use cdf::Entry;

/// The number at the front of some bytes, in its shortest form, and the bytes behind it.
fn split_number(bytes: &[u8]) -> Option<(u16, &[u8])>
    ensures { MatchOption result (NoNumber bytes.now) (λ x. (x.0 < 65536) × (bytes.now ≡ groups x.0 ++ x.1.now)) }
{
    match bytes {
        [a, rest @ ..] if *a < 128 => Some((u16::from(*a), rest)),
        [a, b, rest @ ..] if (1..128).contains(b) => {
            Some((u16::from(*a) - 128 + u16::from(*b) * 128, rest))
        }
        [a, b, c, rest @ ..] if *b >= 128 && (1..4).contains(c) => {
            let low = u16::from(*a) - 128 + (u16::from(*b) - 128) * 128;
            Some((low + u16::from(*c) * 16384, rest))
        }
        _ => None,
    }
}

/// The entry at the front of some bytes, and the bytes behind it. All that reads packed bytes reads them by this.
pub fn split_entry(bytes: &[u8]) -> Option<(Entry, &[u8])>
    ensures { MatchOption result (NoEntry bytes.now) (λ x. (is_entry x.0 ≡ true) × (bytes.now ≡ packed_entry x.0 ++ x.1.now)) }
{
    let (s, rest) = split_number(bytes)?;
    let (n, rest) = split_number(rest)?;
    let (fl, rest) = split_number(rest)?;
    let (fh, rest) = split_number(rest)?;
    let s = u8::try_from(s).ok()?;
    let n = u8::try_from(n).ok()?;
    let entry = Entry { s, n, fl, fh };
    entry.is_entry().then_some((entry, rest))
}

/// How many entries some bytes are, or where the first one begins that is none.
pub fn count_entries(bytes: &[u8]) -> Result<usize, Refusal>
    ensures value { MatchResult result (λ k. Whole bytes.now × (k ≡ length (unpacked bytes.now))) (Refused bytes.now) }
    ensures packings { (l : List Entry) → list_all is_entry l ≡ true → bytes.now ≡ packed l → is_ok result ≡ true }
{
    let mut rest = bytes;
    let mut count = 0;
    while !rest.is_empty() {
        let Some((_, behind)) = split_entry(rest) else {
            let byte = bytes.len() - rest.len();
            return Err(Refusal::NotPacked { byte });
        };
        rest = behind;
        count += 1;
    }
    Ok(count)
}
