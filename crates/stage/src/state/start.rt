ghost use Rattle.std.specs.Prelude.{◌≡◌, ◌*◌, ◌≤◌, false, [], length, replicate, is_ok, IfOk, if◌then◌else◌};
ghost use Rattle.model.specs.Decisions.{stage, start_asked};
ghost use Rattle.model.specs.Runs.{fresh, Lent};
ghost use Rattle.model.specs.Worked.{start};
ghost use Rattle.stage.specs.Questions.{need};
ghost use Rattle.stage.specs.View.{world, refused_by, cleared};

use crate::state::{Contexts, Journal, Stage};
use arrayvec::ArrayVec;
use av1::{Cell, Refusal, Tile};
use cdf::Tables;
use journal::Counts;

fn clear_cells(map: &mut [Cell], n: usize)
    requires { n ≤ length map.old }
    ensures { map.new ≡ cleared n map.old }
{
    map[0..n].fill(Cell {
        skip: false,
        segment: 0,
    });
}

impl Contexts {
    fn start() -> Contexts
        ensures { (result.above ≡ replicate 512 0) × (result.left ≡ replicate 8 0) }
    {
        Contexts {
            above: [0; 512],
            left: [0; 8],
        }
    }
}

impl Journal {
    // No trial is open, and no record in use.
    fn start() -> Journal
        ensures marks { result.marks.items ≡ [] }
        ensures used { result.used ≡ need 0 0 0 }
    {
        Journal {
            marks: ArrayVec::new(),
            used: Counts::default(),
        }
    }
}

/// The tile of a start, or the first question that is answered by no. Columns, rows and the last segment go one by one, as
/// each is asked for; what is allowed is a `Tile`.
pub fn ask_start(columns: usize, rows: usize, last: u8, memory: usize) -> Result<Tile, Refusal>
    ensures asked { refused_by result ≡ start_asked columns rows last memory }
    ensures made { IfOk result (λ t. (t.cols ≡ columns) × (t.rows ≡ rows) × (last ≤ 7) × (columns * rows ≤ memory)) }
{
    let tile = Tile::new(columns, rows)?;
    if last > 7 {
        return Err(Refusal::LastSegment);
    }
    tile.ask_map(memory)?;
    Ok(tile)
}

impl Stage {
    /// Starts a tile of `columns` × `rows` units, of which `last` is the last active segment. The first
    /// columns × rows cells of the map are cleared; what lies behind them is never written.
    pub fn start(columns: usize, rows: usize, last: u8, map: &mut [Cell]) -> Result<Stage, Refusal>
        ensures asked { refused_by result ≡ start_asked columns rows last (length map.old) }
        ensures fresh { IfOk result (λ s. (l : Lent stage) → world s map.new l [] ≡ fresh stage (start columns rows last) l) }
        ensures map { map.new ≡ (if is_ok result then cleared (columns * rows) map.old else map.old) }
    {
        let tile = ask_start(columns, rows, last, map.len())?;
        clear_cells(map, tile.units());
        Ok(Stage {
            tile,
            last,
            tables: Tables::start(),
            contexts: Contexts::start(),
            journal: Journal::start(),
        })
    }

    /// The words of the tables.
    pub fn words(&self) -> &[u16; 430]
        ensures { result.now ≡ self.now.tables.words }
    {
        self.tables.words()
    }

    /// The context bytes above the tile.
    pub fn above(&self) -> &[u8; 512]
        ensures { result.now ≡ self.now.contexts.above }
    {
        &self.contexts.above
    }

    /// The context bytes left of the superblock.
    pub fn left(&self) -> &[u8; 8]
        ensures { result.now ≡ self.now.contexts.left }
    {
        &self.contexts.left
    }
}
