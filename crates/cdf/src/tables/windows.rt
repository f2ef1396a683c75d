ghost use Rattle.std.specs.Prelude.{◌≡◌, ◌+◌, ◌≤◌, length};
ghost use Rattle.std.proofs.lemmas.List.Edits.{sets};
ghost use Rattle.cdf.specs.Layout.{lawful, SoundWords};
ghost use Rattle.cdf.specs.Limits.{word_before};
ghost use Rattle.cdf.specs.Windows.{put_window};

use crate::limits::word_fits;
use crate::tables::Tables;

// Whether the words stay lawful with a window put in: only the window and the word behind it can be at fault.
fn window_fits(words: &[u16], first: usize, window: &[u16]) -> bool
    requires inside { first + length window.now ≤ 430 }
    requires sound { SoundWords words.now }
    ensures { result ≡ lawful (sets words.now first window.now) }
{
    // the first word of all is held to no word before it
    let mut before = words[first.saturating_sub(1)];
    for (i, &word) in window.iter().enumerate() {
        if !word_fits(first + i, before, word) {
            return false;
        }
        before = word;
    }
    let behind = first + window.len();
    words
        .get(behind)
        .is_none_or(|&word| word_fits(behind, before, word))
}

impl Tables {
    /// Puts words back from word `first` on. They are passed over where they would reach past the last word, or leave
    /// a table unlawful or a filler word not zero.
    pub fn put_back(&mut self, first: usize, words: &[u16])
        ensures { self.new.words ≡ put_window first words.now self.old.words }
    {
        let end = first.saturating_add(words.len());
        if end <= self.words.len() && window_fits(&self.words, first, words) {
            self.words[first..end].copy_from_slice(words);
        }
    }
}
