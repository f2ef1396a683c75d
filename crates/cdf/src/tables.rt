ghost use Rattle.std.specs.Prelude.{◌≡◌, true, length};
ghost use Rattle.cdf.specs.Layout.{lawful};

mod cdf;
pub mod edges;
mod symbols;
mod windows;

/// The 430 words, in which every table is lawful and every filler word is zero.
#[derive(Clone, Copy)]
pub struct Tables {
    words: [u16; 430],
    ghost long: { length words ≡ 430 },
    ghost fits: { lawful words ≡ true },
}
