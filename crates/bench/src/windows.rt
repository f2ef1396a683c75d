ghost use Rattle.std.specs.Prelude.{◌+◌, ◌≤◌};

use crate::timing::Piece;
use av1::Refusal;
use cdf::Tables;
use journal::{Window, undo};

// The words from word `first` on, as a symbol's undo record has them.
fn window(tables: &Tables, first: usize) -> Window<4>
    requires { first + 4 ≤ 430 }
{
    let mut words = [0; 4];
    words.copy_from_slice(&tables.words()[first..first + 4]);
    Window {
        first: first as u16,
        words,
    }
}

/// The work of a log alone, without questions, map and record: 64 symbols by the three skip tables in turn, each with its
/// undo record, and then all records are put back.
#[derive(Drop)]
pub struct Windows {
    pub tables: Tables,
    lane: [Window<4>; 64],
    /// How often this is done in a round.
    times: usize,
}

impl Windows {
    pub(crate) fn new(times: usize) -> Windows {
        let none = Window {
            first: 0,
            words: [0; 4],
        };
        Windows {
            tables: Tables::start(),
            lane: [none; 64],
            times,
        }
    }

    /// Symbol `i` is 1 where 7 × i plus the time's number is a multiple of 3.
    pub(crate) fn log(&mut self, time: usize) {
        for i in 0..64 {
            let first = 2 * (i % 3);
            let symbol = usize::from((7 * i + time % 3) % 3 == 0);
            self.lane[i] = window(&self.tables, first);
            let _ = self.tables.symbol_with_update(first, 2, symbol);
        }
    }

    /// Puts the records back: how many they are.
    pub(crate) fn undo(&mut self) -> usize {
        undo(&self.lane, 0, 64, &mut self.tables)
    }
}

impl Piece for Windows {
    fn round(&mut self) -> Result<usize, Refusal> {
        let mut records = 0usize;
        for time in 0..self.times {
            self.log(time);
            records = records.saturating_add(self.undo());
        }
        Ok(records)
    }
}
