ghost use Rattle.std.specs.Prelude.{◌≡◌, ◌+◌, ◌*◌, ◌^◌, ◌<◌, ◌≤◌, max, ◌&&◌, IfSome, if◌then◌else◌, Some, None, nat_le, nat_lt};
ghost use Rattle.av1.specs.Vectors.{magnitude, sign_bit, signed, joined, class_base, class_of, offset_of, JoinUndoesSplit};

/// How fine a motion vector is: whole pixels, quarters or eighths of one.
#[derive(Clone, Copy, PartialEq, Debug)]
pub enum MvSubpelPrecision {
    MV_SUBPEL_NONE,
    MV_SUBPEL_LOW_PRECISION,
    MV_SUBPEL_HIGH_PRECISION,
}

// Where a class begins.
#[tactic(auto, using(crate::proofs::Classes::base_shifted))]
fn mv_class_base(mv_class: usize) -> u32
    requires { mv_class ≤ 10 }
    ensures { result ≡ class_base mv_class }
{
    if mv_class != 0 {
        2 << (mv_class + 2)
    } else {
        0
    }
}

// The whole part of the logarithm, and 0 for 0.
fn log_in_base_2(n: u32) -> u8
    ensures low { 2 ^ result ≤ max n 1 }
    ensures high { n < 2 * 2 ^ result }
    ensures most { result < 32 }
{
    n.max(1).ilog2() as u8
}

/// The class of a magnitude less one, and its offset there. The last class has no end.
// The project needs the pair.
#[tactic(auto, using(crate::proofs::Classes::class_is, crate::proofs::Classes::base_below))]
pub fn get_mv_class(z: u32) -> (usize, u32)
    ensures class { result.0 ≡ class_of z }
    ensures offset { result.1 ≡ offset_of z }
    ensures most { result.0 ≤ 10 }
{
    let c = log_in_base_2(z >> 3).min(10) as usize;
    let offset = z - mv_class_base(c);
    (c, offset)
}

/// The sign and the magnitude of a component, which lies in -16384..=16384.
// The project needs components as i32, split into these two.
pub fn split_component(comp: i32) -> Option<(u32, u32)>
    ensures value { result ≡ (if nat_le (magnitude comp) 16384 then Some (sign_bit comp, magnitude comp) else None) }
    ensures within { IfSome result (λ s. (s.0 < 2) × (s.1 ≤ 16384)) }
{
    let mag = comp.unsigned_abs();
    if mag > 16384 {
        return None;
    }
    Some((u32::from(comp < 0), mag))
}

/// The component that has this sign and magnitude.
// The sign stays a number: a bool would ask more of callers.
pub fn join_component(sign: u32, mag: u32) -> Option<i32>
    ensures { result ≡ (if nat_le sign 1 && nat_le mag 16384 then Some (joined sign mag) else None) }
{
    if mag > 16384 {
        return None;
    }
    match sign {
        0 => Some(mag as i32),
        1 => Some(-(mag as i32)),
        _ => None,
    }
}

/// The component of this sign whose magnitude less one has this class and this offset there.
pub fn component_at(sign: u32, class: usize, offset: u32) -> Option<i32>
    ensures { result ≡ (if nat_le sign 1 && (nat_le class 10 && nat_lt (class_base class + offset) 16384) then Some (signed sign (class_base class + offset)) else None) }
{
    if class > 10 || offset >= 16384 {
        return None;
    }
    join_component(sign, mv_class_base(class) + offset + 1)
}

/// Joining undoes splitting.
pub fn join_undoes_split()
    ensures { JoinUndoesSplit }
{}
