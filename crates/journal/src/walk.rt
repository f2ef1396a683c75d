ghost use Rattle.std.specs.Prelude.{◌≡◌, length};
ghost use Rattle.journal.specs.Walks.{visited, undone, Logged, Restoring};

/// What a spot of a target was before it was changed.
pub trait UndoRecord<T>: Copy {
    /// The target with the record put back; the target as it is where the record is passed over.
    ghost restored: { Self → T → T };

    /// The record holds what the target has at its spot.
    ghost holds: { Self → T → Type 0 };

    /// The two targets differ at the spot at most.
    ghost apart: { Self → T → T → Type 0 };

    /// A put-back restores its own spot, and no other.
    ghost laws: { Restoring restored holds apart };

    fn put_back(&self, target: &mut T)
        ensures { target.new ≡ restored self.now target.old };
}

/// Puts back the records of a lane from number `from` to before `upto`, as far as the lane goes, the newest first, and
/// answers how many they are. What was logged since a state, put back, gives that state.
pub fn undo<T, R: UndoRecord<T>>(lane: &[R], from: usize, upto: usize, target: &mut T) -> usize
    ensures state { target.new ≡ undone R.UndoRecord.restored (visited from upto lane.now) target.old }
    ensures count { result ≡ length (visited from upto lane.now) }
    ensures back { (t : T) → Logged R.UndoRecord.holds R.UndoRecord.apart (visited from upto lane.now) t target.old → target.new ≡ t }
{
    let end = upto.min(lane.len());
    let records = &lane[from.min(end)..end];
    for record in records.iter().rev() {
        record.put_back(target);
    }
    records.len()
}
