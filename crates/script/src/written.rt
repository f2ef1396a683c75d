ghost use Rattle.std.specs.Prelude.{◌≡◌};
ghost use Rattle.script.specs.Names.{call_name, written_name};
ghost use Rattle.script.specs.Statements.{call_of};

use av1::Call;

/// A call as a line writes it. A trial is named by its depth; where the depth is left out, the innermost one is meant.
#[derive(Clone, Copy, PartialEq, Debug)]
pub enum Written {
    Call(Call),
    TakeBackInnermost,
    KeepInnermost,
}

impl Written {
    /// The call that is made where so many trials are open. With none open it names the depth 0, which no trial has.
    pub fn call(self, trials: usize) -> Call
        ensures { result ≡ call_of trials self }
    {
        match self {
            Written::Call(call) => call,
            Written::TakeBackInnermost => Call::TakeBack { depth: trials },
            Written::KeepInnermost => Call::Keep { depth: trials },
        }
    }

    /// The word that the line begins with.
    pub fn word(self) -> &'static str
        ensures { result.now ≡ written_name self }
    {
        match self {
            Written::Call(call) => call_word(call),
            Written::TakeBackInnermost => "back",
            Written::KeepInnermost => "keep",
        }
    }
}

/// The word that the line of a call begins with.
// Text and no `Display`: a fault keeps the word as text, and a writer would only be asked for it again.
pub fn call_word(call: Call) -> &'static str
    ensures { result.now ≡ call_name call }
{
    match call {
        Call::Partition { .. } => "partition",
        Call::Skip { .. } => "skip",
        Call::Segment { .. } => "segment",
        Call::Alphas { .. } => "alphas",
        Call::Vector { .. } => "vector",
        Call::ContextUpdate { .. } => "context",
        Call::RowStart => "row",
        Call::Open => "open",
        Call::TakeBack { .. } => "back",
        Call::Keep { .. } => "keep",
    }
}
