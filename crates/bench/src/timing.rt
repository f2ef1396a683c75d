use anyhow::anyhow;
use av1::Refusal;
use std::fmt;
use std::time::Instant;

/// Work that is timed.
pub trait Piece {
    /// Does the work once: how many calls that were.
    fn round(&mut self) -> Result<usize, Refusal>;
}

/// A refusal as an error, where none may come.
pub(crate) fn refused(why: Refusal) -> anyhow::Error {
    anyhow!("refused {}", why.number())
}

/// The time of a call, in hundredths of a nanosecond.
#[derive(Clone, Copy)]
pub struct PerCall(u128);

impl fmt::Display for PerCall {
    fn fmt<W: fmt::Write>(&self, f: &mut fmt::Formatter<W>) -> fmt::Result {
        write!(f, "{}.{:02}", self.0 / 100, self.0 % 100)
    }
}

/// The time of a call in the fastest of so many rounds, behind one that is not timed.
pub(crate) fn best<P: Piece>(
    rt: &HostRuntime,
    rounds: usize,
    piece: &mut P,
) -> anyhow::Result<PerCall> {
    let calls = piece.round().map_err(refused)?;
    let mut least = u128::MAX;
    for _ in 0..rounds {
        let start = Instant::now(rt)?;
        let _ = piece.round().map_err(refused)?;
        least = least.min(start.elapsed(rt)?.as_nanos());
    }
    Ok(PerCall(least.saturating_mul(100) / (calls.max(1) as u128)))
}
