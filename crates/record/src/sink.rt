ghost use Rattle.std.specs.Prelude.{◌≡◌, ℕ, false, List, length, is_ok};
ghost use Rattle.cdf.specs.declared.entry.Entry.{Entry};
ghost use Rattle.record.specs.Sinks.{entry_answer, put_answer, put_list, cut_answer, cut_list, SinkLaws};

use av1::Refusal;
use cdf::Entry;

/// Anything that keeps a list of entries and has a room, which depends on the list alone.
pub trait Sink {
    /// The entries, the oldest first.
    ghost list: { Self → List Entry };

    /// The room at each list.
    ghost rooms: { Self → List Entry → ℕ };

    /// What every sink owes: a put lowers the room by at most one, and count plus room is at most 16,777,216.
    ghost laws: { SinkLaws list rooms };

    /// How many entries there are.
    fn count(&self) -> usize
        ensures { result ≡ length (list self.now) };

    /// How many puts are sure to succeed.
    fn room(&self) -> usize
        ensures { result ≡ rooms self.now (list self.now) };

    /// Entry `i`, from 0.
    fn entry(&self, i: usize) -> Result<Entry, Refusal>
        ensures { result ≡ entry_answer (list self.now) i };

    /// Appends an entry.
    fn put(&mut self, e: Entry) -> Result<(), Refusal>
        ensures answer { result ≡ put_answer e (rooms self.old (list self.old)) }
        ensures list { list self.new ≡ put_list e (rooms self.old (list self.old)) (list self.old) }
        ensures rooms { rooms self.new ≡ rooms self.old }
        ensures still { is_ok result ≡ false → self.new ≡ self.old };

    /// Keeps the first `n` entries.
    fn cut(&mut self, n: usize) -> Result<(), Refusal>
        ensures answer { result ≡ cut_answer (list self.old) n }
        ensures list { list self.new ≡ cut_list (list self.old) n }
        ensures rooms { rooms self.new ≡ rooms self.old }
        ensures still { is_ok result ≡ false → self.new ≡ self.old };
}
