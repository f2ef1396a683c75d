ghost use Rattle.std.specs.Prelude.{◌≡◌, length};
ghost use Rattle.cdf.specs.Words.{moved, counted, adapted, LawfulTable};

// A value after a symbol: one before the symbol gains a share of what it lacks, any other loses a share of itself.
#[tactic(auto, using(crate::proofs::Adapting::shifted))]
fn moved(v: u16, before: bool, rate: u32) -> u16
    ensures { result ≡ moved rate before v }
{
    let gained = v + 32768u16.saturating_sub(v).unbounded_shr(rate);
    let lost = v - v.unbounded_shr(rate);
    if before { gained } else { lost }
}

// A counter after a symbol.
fn counted(count: u16) -> u16
    ensures { result ≡ counted count }
{
    if count < 32 { count + 1 } else { count }
}

/// Adapts a table to the symbol `val`: the values before it gain, the others lose, and the counter rises up to 32.
/// The higher the counter, the smaller the change.
pub fn update_cdf(cdf: &mut [u16], val: usize)
    ensures words { cdf.new ≡ adapted (length cdf.old) cdf.old val }
    ensures lawful { LawfulTable cdf.old → LawfulTable cdf.new }
{
    let n = cdf.len();
    let Some(&count) = cdf.last() else {
        return;
    };
    let rate = 3 + (n >> 1).min(2) as u32 + u32::from(count >> 4);
    // the counter too, which is set behind the loop: a whole table is moved in few steps
    for (i, v) in cdf.iter_mut().enumerate() {
        *v = moved(*v, i < val, rate);
    }
    cdf[n - 1] = counted(count);
}
