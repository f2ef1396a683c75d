ghost use Rattle.std.specs.Prelude.{◌≡◌, ◌≤◌, ◌&&◌, if◌then◌else◌, Some, None, nat_lt};
ghost use Rattle.av1.specs.Segments.{interleaved, deinterleaved, SegmentBack, SegmentWithin, SegmentExact};

/// The symbol of segment `x` with prediction `r`, of `max` segments: the nearer the segment, the smaller the symbol.
pub fn neg_interleave(x: u8, r: u8, max: u8) -> Option<u8>
    ensures { result ≡ (if nat_lt x max then Some (interleaved x r max) else None) }
{
    if x >= max {
        return None;
    }
    if r == 0 {
        return Some(x);
    }
    if r >= max - 1 {
        return Some(max - x - 1);
    }
    let distance = x.abs_diff(r);
    if r < max - r {
        if distance > r {
            return Some(x);
        }
    } else if distance >= max - r {
        return Some(max - x - 1);
    }
    if x > r {
        Some(2 * distance - 1)
    } else {
        Some(2 * distance)
    }
}

/// The segment of symbol `d` with prediction `r`, of `max` segments.
pub fn neg_deinterleave(d: u8, r: u8, max: u8) -> Option<u8>
    ensures { result ≡ (if nat_lt d max && nat_lt r max then Some (deinterleaved d r max) else None) }
{
    if d >= max || r >= max {
        return None;
    }
    if r == 0 {
        return Some(d);
    }
    if r >= max - 1 {
        return Some(max - d - 1);
    }
    if r < max - r {
        if d > 2 * r {
            return Some(d);
        }
    } else if d > 2 * (max - r - 1) {
        return Some(max - d - 1);
    }
    if d % 2 == 1 {
        Some(r + (d + 1) / 2)
    } else {
        Some(r - d / 2)
    }
}

/// For any number of segments the inverse undoes the interleaving, and symbols and segments are below that number.
#[tactic(auto, using(crate::proofs::Segments::segment_back, std::proofs::lemmas::Bool::Decides::nat_tests))]
pub fn segments_read_back()
    ensures segment_back { SegmentBack }
    ensures segment_within { SegmentWithin }
{}

/// A symbol above the last segment is exactly one that the inverse puts outside the segments.
#[tactic(auto, using(std::proofs::lemmas::Bool::Decides::nat_tests))]
pub fn symbols_above_the_last()
    ensures { SegmentExact }
{}
