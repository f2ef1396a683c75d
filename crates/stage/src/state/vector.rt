ghost use Rattle.std.specs.Prelude.{◌≡◌, ℕ, ◌+◌, ◌*◌, ◌%◌, ◌<◌, ◌≤◌, true, false, List, length, is_ok};
ghost use Rattle.av1.specs.declared.tile.Cell.{Cell};
ghost use Rattle.av1.specs.Vectors.{magnitude, nonzero};
ghost use Rattle.cdf.specs.Layout.{in_layout};
ghost use Rattle.cdf.specs.Words.{table};
ghost use Rattle.model.specs.Calls.{decision_step};
ghost use Rattle.model.specs.declared.Question.TheVariants as question;
ghost use Rattle.model.specs.Vector.{bits_tree, bits_of, integer_tree, integer_path, fraction_tree, fraction_path, high_tree, high_path, class_width, Fits, step_of, present, component_if, path_if};
ghost use Rattle.stage.specs.Coding.{moment, RoomFor, Coded};
ghost use Rattle.stage.specs.Lanes.{SameMemory};
ghost use Rattle.stage.specs.View.{world, lanes, table_of};
ghost use Rattle.stage.specs.Vectors.{Component, integer_count, fraction_count, high_count, fraction_first, high_first, offset_count, offset_tree, offset_path, component_count};

use crate::state::{Stage, Table};
use av1::mv::{get_mv_class, split_component};
use av1::{MvSubpelPrecision, Refusal};
use journal::{Counts, Log};
use record::Sink;

// How many symbols code the fraction, and how many the high bit.
fn fraction_symbols(precision: MvSubpelPrecision) -> usize
    ensures { result ≡ fraction_count precision }
{
    usize::from(precision != MvSubpelPrecision::MV_SUBPEL_NONE)
}

fn high_symbols(precision: MvSubpelPrecision) -> usize
    ensures { result ≡ high_count precision }
{
    usize::from(precision == MvSubpelPrecision::MV_SUBPEL_HIGH_PRECISION)
}

// How many symbols code a component of this magnitude, beside its class.
fn component_symbols(mag: u32, precision: MvSubpelPrecision) -> usize
    ensures value { result ≡ component_count precision mag }
    ensures most { result ≤ 13 }
{
    if mag == 0 {
        return 0;
    }
    let (class, _) = get_mv_class(mag - 1);
    let whole = if class == 0 { 1 } else { class };
    1 + (whole + (fraction_symbols(precision) + high_symbols(precision)))
}

// What the components are multiples of.
fn mv_step(precision: MvSubpelPrecision) -> u32
    ensures value { result ≡ step_of precision }
    ensures some { 0 < result }
{
    match precision {
        MvSubpelPrecision::MV_SUBPEL_NONE => 8,
        MvSubpelPrecision::MV_SUBPEL_LOW_PRECISION => 2,
        MvSubpelPrecision::MV_SUBPEL_HIGH_PRECISION => 1,
    }
}

// The tables of a component, which begin at word `base`.
#[derive(Clone, Copy)]
pub(crate) struct NMVComponent {
    pub(crate) base: usize,
    ghost one: { Component base },
}

impl NMVComponent {
    // The table of the integer part in class 0.
    pub(crate) fn class0(self) -> Table
        ensures { table_of result ≡ table (self.base + 6) 2 }
    {
        Table {
            first: self.base + 6,
            n: 2,
        }
    }

    // The table of the fraction.
    pub(crate) fn fraction(self, class: usize, d: u32) -> Table
        requires { class ≡ 0 → d < 2 }
        ensures { table_of result ≡ table (fraction_first self.base class d) 4 }
    {
        let first = if class == 0 {
            self.base + 28 + 4 * d as usize
        } else {
            self.base + 36
        };
        Table { first, n: 4 }
    }

    // The table of the high bit.
    pub(crate) fn high(self, class: usize) -> Table
        ensures { table_of result ≡ table (high_first self.base class) 2 }
    {
        let first = if class == 0 {
            self.base + 2
        } else {
            self.base + 4
        };
        Table { first, n: 2 }
    }
}

impl Stage {
    // Codes `n` bits, the lowest first, each by a table of its own from word `first` on.
    fn code_bits<S: Sink>(
        &mut self,
        sink: &mut S,
        log: &mut Log<'_>,
        first: usize,
        n: usize,
        bits: u32,
    )
        requires tables { (k : ℕ) → k < n → in_layout (table (first + 2 * k) 2) ≡ true }
        requires inside { (first + 2 * n ≤ 430) × (n < 32) }
        requires room { RoomFor n 0 (moment self.old log.old (S.Sink.rooms sink.old) (S.Sink.list sink.old)) }
        ensures { Coded (bits_tree first n) (bits_of n bits) n 0 (moment self.old log.old (S.Sink.rooms sink.old) (S.Sink.list sink.old)) (moment self.new log.new (S.Sink.rooms sink.new) (S.Sink.list sink.new)) }
    {
        for i in 0..n {
            let bit = (bits >> i) % 2;
            self.symbol(
                sink,
                log,
                Table {
                    first: first + 2 * i,
                    n: 2,
                },
                bit as usize,
            );
        }
    }

    // Codes the integer part: one symbol in class 0, else as many bits as the class says.
    fn code_integer<S: Sink>(
        &mut self,
        sink: &mut S,
        log: &mut Log<'_>,
        tables: NMVComponent,
        class: usize,
        d: u32,
    )
        requires class { class < 11 }
        requires low { class ≡ 0 → d < 2 }
        requires room { RoomFor (integer_count class) 0 (moment self.old log.old (S.Sink.rooms sink.old) (S.Sink.list sink.old)) }
        ensures { Coded (integer_tree tables.base class) (integer_path class d) (integer_count class) 0 (moment self.old log.old (S.Sink.rooms sink.old) (S.Sink.list sink.old)) (moment self.new log.new (S.Sink.rooms sink.new) (S.Sink.list sink.new)) }
    {
        if class == 0 {
            self.symbol(sink, log, tables.class0(), d as usize);
        } else {
            self.code_bits(sink, log, tables.base + 8, class, d);
        }
    }

    // Codes the fraction, unless the precision has none. Not one function with the next and with `code_scale`: its contract
    // would have to be told the syntax and the path.
    fn code_fraction<S: Sink>(
        &mut self,
        sink: &mut S,
        log: &mut Log<'_>,
        tables: NMVComponent,
        precision: MvSubpelPrecision,
        class: usize,
        d: u32,
        fr: u32,
    )
        requires low { class ≡ 0 → d < 2 }
        requires symbol { fr < 4 }
        requires room { RoomFor (fraction_count precision) 0 (moment self.old log.old (S.Sink.rooms sink.old) (S.Sink.list sink.old)) }
        ensures { Coded (fraction_tree tables.base precision class d) (fraction_path precision fr) (fraction_count precision) 0 (moment self.old log.old (S.Sink.rooms sink.old) (S.Sink.list sink.old)) (moment self.new log.new (S.Sink.rooms sink.new) (S.Sink.list sink.new)) }
    {
        if fraction_symbols(precision) == 0 {
            return;
        }
        self.symbol(sink, log, tables.fraction(class, d), fr as usize);
    }

    // Codes the high bit, if the precision has one.
    fn code_high<S: Sink>(
        &mut self,
        sink: &mut S,
        log: &mut Log<'_>,
        tables: NMVComponent,
        precision: MvSubpelPrecision,
        class: usize,
        hp: u32,
    )
        requires symbol { hp < 2 }
        requires room { RoomFor (high_count precision) 0 (moment self.old log.old (S.Sink.rooms sink.old) (S.Sink.list sink.old)) }
        ensures { Coded (high_tree tables.base precision class) (high_path precision hp) (high_count precision) 0 (moment self.old log.old (S.Sink.rooms sink.old) (S.Sink.list sink.old)) (moment self.new log.new (S.Sink.rooms sink.new) (S.Sink.list sink.new)) }
    {
        if high_symbols(precision) == 0 {
            return;
        }
        self.symbol(sink, log, tables.high(class), hp as usize);
    }

    // Codes an offset in its class: the integer part, the fraction and the high bit.
    fn code_offset<S: Sink>(
        &mut self,
        sink: &mut S,
        log: &mut Log<'_>,
        tables: NMVComponent,
        precision: MvSubpelPrecision,
        class: usize,
        offset: u32,
    )
        requires class { class < 11 }
        requires offset { offset < class_width class }
        requires fine { Fits precision offset }
        requires room { RoomFor (offset_count precision class) 0 (moment self.old log.old (S.Sink.rooms sink.old) (S.Sink.list sink.old)) }
        ensures { (sign : ℕ) → Coded (offset_tree tables.base precision sign class) (offset_path precision class offset) (offset_count precision class) 0 (moment self.old log.old (S.Sink.rooms sink.old) (S.Sink.list sink.old)) (moment self.new log.new (S.Sink.rooms sink.new) (S.Sink.list sink.new)) }
    {
        let d = offset >> 3;
        let fr = (offset >> 1) % 4;
        let hp = offset % 2;
        self.code_integer(sink, log, tables, class, d);
        self.code_fraction(sink, log, tables, precision, class, d, fr);
        self.code_high(sink, log, tables, precision, class, hp);
    }

    // Codes a component by its tables: its sign, the class of its magnitude less one, and the offset
    // there. One that is zero has no symbols.
    fn encode_mv_component<S: Sink>(
        &mut self,
        sink: &mut S,
        log: &mut Log<'_>,
        tables: NMVComponent,
        comp: i32,
        precision: MvSubpelPrecision,
    )
        requires range { magnitude comp ≤ 16384 }
        requires fine { magnitude comp % step_of precision ≡ 0 }
        requires room { RoomFor (component_count precision (magnitude comp)) (nonzero comp) (moment self.old log.old (S.Sink.rooms sink.old) (S.Sink.list sink.old)) }
        ensures { Coded (component_if (present comp) tables.base precision) (path_if precision comp) (component_count precision (magnitude comp)) (nonzero comp) (moment self.old log.old (S.Sink.rooms sink.old) (S.Sink.list sink.old)) (moment self.new log.new (S.Sink.rooms sink.new) (S.Sink.list sink.new)) }
    {
        let Some((sign, mag)) = split_component(comp) else {
            unreachable!()
        };
        if mag == 0 {
            return;
        }
        let (class, offset) = get_mv_class(mag - 1);
        self.symbol(
            sink,
            log,
            Table {
                first: tables.base,
                n: 2,
            },
            sign as usize,
        );
        self.symbol(
            sink,
            log,
            Table {
                first: tables.base + 40,
                n: 11,
            },
            class,
        );
        self.code_offset(sink, log, tables, precision, class, offset);
    }

    /// Codes a vector by its difference from the predicted one: its joint, then the row and the column where they are
    /// not zero. Each lies in -16384..=16384, and is as coarse as the precision: whole pixels are multiples of 8,
    /// quarters of 2. Answers how many entries were written.
    pub fn write_mv<S: Sink>(
        &mut self,
        sink: &mut S,
        log: &mut Log<'_>,
        row: i32,
        col: i32,
        precision: MvSubpelPrecision,
    ) -> Result<usize, Refusal>
        ensures step { (memory : List Cell) → (result, world self.new memory (lanes log.new) (S.Sink.list sink.new)) ≡ decision_step (length memory) (S.Sink.rooms sink.old) (question.Vector precision) (row, col) (world self.old memory (lanes log.old) (S.Sink.list sink.old)) }
        ensures rooms { S.Sink.rooms sink.new ≡ S.Sink.rooms sink.old }
        ensures still { is_ok result ≡ false → (sink.new ≡ sink.old) × (self.new ≡ self.old) }
        ensures memory { SameMemory log.new log.old }
    {
        let (_, high) = split_component(row).ok_or(Refusal::VectorRange)?;
        let (_, wide) = split_component(col).ok_or(Refusal::VectorRange)?;
        let step = mv_step(precision);
        if high % step != 0 || wide % step != 0 {
            return Err(Refusal::VectorPrecision);
        }
        let small = 1 + (component_symbols(high, precision) + component_symbols(wide, precision));
        let rows = (high != 0) as usize;
        let cols = (wide != 0) as usize;
        let large = rows + cols;
        self.journal.ask_record(
            log,
            sink.room(),
            small + large,
            Counts {
                small: small,
                large: large,
                spots: 0,
            },
        )?;
        self.symbol(sink, log, Table { first: 302, n: 4 }, 2 * rows + cols);
        self.encode_mv_component(sink, log, NMVComponent { base: 318 }, row, precision);
        self.encode_mv_component(sink, log, NMVComponent { base: 374 }, col, precision);
        Ok(small + large)
    }
}
