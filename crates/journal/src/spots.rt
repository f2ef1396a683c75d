ghost use Rattle.std.specs.Prelude.{◌≡◌, length};
ghost use Rattle.journal.specs.Walks.{visited, undone};
ghost use Rattle.journal.specs.Spots.{area, put_below, put_area, put_places, HoldsSpot, ApartSpot, spot_laws};

use crate::Spot;
use crate::walk::{UndoRecord, undo};
use av1::Cell;

/// What spots lie in: the context bytes above and to the left, and the cells of the tile, no more.
#[derive(Drop)]
pub struct Places<'a> {
    pub above: &'a mut [u8; 512],
    pub left: &'a mut [u8; 8],
    pub cells: &'a mut [Cell],
}

// Sets an item, where its number is below the length.
fn set_inside<T: Copy>(items: &mut [T], at: usize, item: T)
    ensures { items.new ≡ put_below (length items.old) at item items.old }
{
    if at < items.len() {
        items[at] = item;
    }
}

/// A spot is passed over where its number is not below the number of cells, or of the context bytes.
impl<'a> UndoRecord<Places<'a>> for Spot {
    ghost restored = { put_places };

    ghost holds = { HoldsSpot };

    ghost apart = { ApartSpot };

    ghost laws = { spot_laws };

    fn put_back(&self, target: &mut Places<'a>) {
        match *self {
            Spot::Cell { at, was } => set_inside(target.cells, at as usize, was),
            Spot::Above { at, was } => set_inside(target.above, at as usize, was),
            Spot::Left { at, was } => set_inside(target.left, at as usize, was),
        }
    }
}

/// Puts back the spots of a lane as `undo` does, into bytes and cells that are lent one by one.
// Not one `Places`: each caller would then have to prove that the references in it still name the memory they did.
pub fn undo_spots(
    lane: &[Spot],
    from: usize,
    upto: usize,
    above: &mut [u8; 512],
    left: &mut [u8; 8],
    cells: &mut [Cell],
) -> usize
    ensures state { area above.new left.new cells.new ≡ undone put_area (visited from upto lane.now) (area above.old left.old cells.old) }
    ensures count { result ≡ length (visited from upto lane.now) }
{
    let mut places = Places { above, left, cells };
    undo(lane, from, upto, &mut places)
}
