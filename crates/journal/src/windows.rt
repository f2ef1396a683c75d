ghost use Rattle.journal.specs.Windows.{put_tables, HoldsWindow, ApartWindow, window_laws};

use crate::Window;
use crate::walk::UndoRecord;
use cdf::Tables;

/// A window is passed over where it would reach past the last word, or leave a table unlawful or a filler word not zero.
impl<const W: usize> UndoRecord<Tables> for Window<W> {
    ghost restored = { put_tables };

    ghost holds = { HoldsWindow };

    ghost apart = { ApartWindow };

    ghost laws = { window_laws };

    fn put_back(&self, target: &mut Tables) {
        target.put_back(self.first as usize, &self.words);
    }
}
