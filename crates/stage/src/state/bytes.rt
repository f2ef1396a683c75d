ghost use Rattle.std.specs.Prelude.{◌≡◌, ℕ, ◌+◌, ◌<◌, ◌≤◌, List, length};
ghost use Rattle.cdf.specs.Lists.{from};
ghost use Rattle.stage.specs.Contexts.{side_length, spot_of, logged_bytes, set_bytes};
ghost use Rattle.stage.specs.Lanes.{OnlySpots};
ghost use Rattle.stage.specs.View.{marks_of, open_trials};

use crate::state::Journal;
use journal::Spot;

// Whose bytes: those above the tile, or those left of the superblock. Data and not a closure, since the contracts speak
// of it.
#[derive(Clone, Copy)]
pub(crate) enum Side {
    Above,
    Left,
}

fn spot_of(side: Side, at: usize, was: u8) -> Spot
    requires { at < side_length side }
    ensures { result ≡ spot_of side at was }
{
    match side {
        Side::Above => Spot::Above { at: at as u16, was },
        Side::Left => Spot::Left { at: at as u8, was },
    }
}

impl Journal {
    // Sets `count` bytes of a side from `first` on, and logs what they were.
    pub(super) fn set_bytes(
        &mut self,
        bytes: &mut [u8],
        spots: &mut [Spot],
        side: Side,
        first: usize,
        count: usize,
        byte: u8,
    )
        requires inside { first + count ≤ length bytes.old }
        requires all { length bytes.old ≡ side_length side }
        requires room { 0 < open_trials self.old → self.old.used.spots + count ≤ length spots.old }
        ensures bytes { logged_bytes bytes.new spots.new self.new.used.spots ≡ set_bytes (marks_of self.old) side byte (from first count) (logged_bytes bytes.old spots.old self.old.used.spots) }
        ensures kept { OnlySpots self.new self.old }
        ensures used { self.new.used.spots ≤ self.old.used.spots + count }
    {
        let logs = !self.marks.is_empty();
        // by places, not items: the place is what is logged
        for at in first..first + count {
            self.log_spot(spots, logs, spot_of(side, at, bytes[at]));
            bytes[at] = byte;
        }
    }
}
