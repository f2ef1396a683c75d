//! What the block decisions of a tile mean as symbols, and the laws over whole runs of calls.
//! Only the types are code; each theorem is the contract of a function that does nothing.
#![tactic(auto)]

ghost use Rattle.std.specs.Prelude.{ℕ, Bool, ℤ};
ghost use Rattle.model.specs.Calls.{BySteps, StepsThen, SkippedAlike};
ghost use Rattle.model.specs.Decisions.{stage, TreesInLayout};
ghost use Rattle.model.specs.Facts.{AcceptedLeads, JointNames, SignFirst, SignsJoined, SkipSet, SegmentSet, SpotsInside, Counted, ReadsSound, ContextBits, Faults, ShortRun};
ghost use Rattle.model.specs.Reading.{ReadsByStep};
ghost use Rattle.model.specs.Runs.{NoTrace, ReadsRecord, TellsRunsApart, RefusedAlike, NonePassed};
ghost use Rattle.model.specs.Tree.{TellsApart, ReadsBack, ReadThen, ReadBy};
ghost use Rattle.model.specs.Vector.{ComponentLeads};
ghost use Rattle.model.specs.Worked.{Worked, StartsSound};

use av1::{BlockSize, MvSubpelPrecision};

/// A call's kind and all values that the caller passes, memory and the decision aside.
// x and y stand apart here, since the definitions of the model speak of each alone.
#[derive(Clone, Copy)]
pub enum Question {
    Partition {
        x: usize,
        y: usize,
        bsize: BlockSize,
    },
    Skip {
        x: usize,
        y: usize,
        bsize: BlockSize,
    },
    Segment {
        x: usize,
        y: usize,
        bsize: BlockSize,
        skip: bool,
    },
    Alphas,
    Vector {
        precision: MvSubpelPrecision,
    },
    ContextUpdate {
        x: usize,
        y: usize,
        bsize: BlockSize,
        subsize: BlockSize,
    },
    RowStart,
}

/// Different decisions of one question have symbols that differ, whatever the question's syntax.
pub fn decisions_told_apart()
    ensures numbers { TellsApart ℕ }
    ensures flags { TellsApart Bool }
    ensures pairs { TellsApart (ℤ × ℤ) }
{}

/// What is written for a decision is read as that decision, whatever the question's syntax.
pub fn decisions_read_back()
    ensures numbers { ReadsBack ℕ }
    ensures flags { ReadsBack Bool }
    ensures pairs { ReadsBack (ℤ × ℤ) }
{}

/// A decision is its symbols, one after the other, and then the cells or context bytes that it sets.
pub fn decisions_go_by_steps()
    ensures by_steps { BySteps }
    ensures steps_then { StepsThen ℤ (ℤ × ℤ) }
    ensures read_then { ReadThen ℤ (ℤ × ℤ) }
    ensures read_by { ReadBy ℤ (ℤ × ℤ) }
{}

/// A decision writes an entry for each symbol of its path; that is what room is asked for.
pub fn entries_counted()
    ensures { Counted }
{}

/// Every table that a syntax may name is one of the layout, and every cell or byte that a decision sets lies inside.
pub fn everything_inside()
    ensures trees_in_layout { TreesInLayout }
    ensures spots_inside { SpotsInside }
{}

/// A skip flag or a segment is set in each cell of its block inside the tile, and nothing else is.
pub fn decisions_set_their_block()
    ensures skip_set { SkipSet }
    ensures segment_set { SegmentSet }
{}

/// A context bit says that the neighbour is narrower, or lower, than the block.
pub fn context_bits_compare_sizes()
    ensures { ContextBits }
{}

/// A component's symbols lead to it.
pub fn component_leads()
    ensures { ComponentLeads }
{}

/// The writer's symbols of every decision that the questions accept lead to that decision.
pub fn accepted_decisions_lead()
    ensures { AcceptedLeads }
{}

/// A vector's joint names the components that are not zero, a component's first symbol is its sign, and the first
/// symbol of alphas has both their signs.
pub fn first_symbols()
    ensures joint { JointNames }
    ensures sign { SignFirst }
    ensures signs { SignsJoined }
{}

/// A skipped segment carries no number.
pub fn skipped_segment_has_no_number()
    ensures { SkippedAlike }
{}

/// A read of any entries keeps a state sound, and its faults tell what they should.
pub fn reads_keep_sound()
    ensures reads_sound { ReadsSound }
    ensures faults { Faults }
{}

/// Reading a list of questions is reading each of them, one after the other.
pub fn reads_go_by_step()
    ensures { ReadsByStep }
{}

/// A call is refused exactly where the questions say no, and leaves everything as it was.
pub fn refused_where_asked()
    ensures { RefusedAlike stage }
{}

/// What was taken back leaves no trace.
pub fn no_trace()
    ensures { NoTrace stage }
{}

/// In lanes that nobody else writes, taking back passes over no window.
pub fn none_passed_over()
    ensures { NonePassed stage }
{}

/// The record of a run reads back as its standing decisions.
pub fn record_reads_back()
    ensures { ReadsRecord stage }
{}

/// Two runs whose standing calls differ in a decision differ in a symbol.
pub fn runs_told_apart()
    ensures { TellsRunsApart stage }
{}

/// The worked examples hold, a start is sound, and a short run with a trial goes as it should.
pub fn worked_examples()
    ensures worked { Worked }
    ensures starts_sound { StartsSound }
    ensures short_run { ShortRun }
{}
