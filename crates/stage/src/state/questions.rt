ghost use Rattle.std.specs.Prelude.{◌≡◌, ◌+◌, ◌<◌, ◌≤◌, OnOk, nat_le};
ghost use Rattle.stage.specs.Questions.{LanesFit, record_asked};
ghost use Rattle.stage.specs.View.{lanes};

use crate::state::Journal;
use av1::Refusal;
use journal::{Counts, Log};

// Whether a lane of `len` places takes `more` records behind the `used` ones.
fn fits(used: usize, more: usize, len: usize) -> bool
    ensures { result ≡ nat_le (used + more) len }
{
    used <= len && more <= len - used
}

impl Journal {
    // Whether the sink's room is enough for the entries of a call and, while a trial is open, the lanes for its undo
    // records.
    pub(super) fn ask_record(
        &self,
        log: &Log<'_>,
        room: usize,
        entries: usize,
        need: Counts,
    ) -> Result<(), Refusal>
        ensures answer { result ≡ record_asked self.now (lanes log.now) room entries need }
        ensures room { OnOk result (entries ≤ room) }
        ensures lanes { OnOk result (LanesFit self.now (lanes log.now) need) }
    {
        if room < entries {
            return Err(Refusal::Room);
        }
        if self.marks.is_empty()
            || (fits(self.used.small, need.small, log.small.len())
                && fits(self.used.large, need.large, log.large.len())
                && fits(self.used.spots, need.spots, log.spots.len()))
        {
            Ok(())
        } else {
            Err(Refusal::LogRoom)
        }
    }
}
