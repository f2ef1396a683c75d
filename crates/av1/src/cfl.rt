ghost use Rattle.std.specs.Prelude.{◌≡◌, ◌+◌, ◌/◌, ◌%◌, ◌<◌, ◌≤◌, IsTrue, [], ◌∷◌, is_some, IfSome, All, if◌then◌else◌, None, nat_eq, nat_lt};
ghost use Rattle.av1.specs.Alphas.{sign_of, sign_number, alpha_context, alpha_at, alphas_allowed, joint_sign, coded_alpha};
ghost use Rattle.av1.specs.Vectors.{magnitude, nonzero};

use std::cmp::Ordering;

/// The sign of an alpha.
#[derive(Clone, Copy, PartialEq, Debug)]
pub enum CFLSign {
    CFL_SIGN_ZERO,
    CFL_SIGN_NEG,
    CFL_SIGN_POS,
}

impl CFLSign {
    pub fn from_alpha(a: i32) -> CFLSign
        ensures { sign_number result ≡ sign_of a }
    {
        match a.cmp(&0) {
            Ordering::Less => CFLSign::CFL_SIGN_NEG,
            Ordering::Equal => CFLSign::CFL_SIGN_ZERO,
            Ordering::Greater => CFLSign::CFL_SIGN_POS,
        }
    }

    /// The standard's number.
    pub fn number(self) -> usize
        ensures value { result ≡ sign_number self }
        ensures most { result < 3 }
    {
        self as usize
    }

    /// The sign of this number.
    pub fn from_number(number: usize) -> Option<CFLSign>
        ensures listed { is_some result ≡ nat_lt number 3 }
        ensures number { IfSome result (λ s. sign_number s ≡ number) }
    {
        match number {
            0 => Some(CFLSign::CFL_SIGN_ZERO),
            1 => Some(CFLSign::CFL_SIGN_NEG),
            2 => Some(CFLSign::CFL_SIGN_POS),
            _ => None,
        }
    }

    /// The signs of u and v that a joint sign has.
    pub fn from_joint(joint: usize) -> Option<(CFLSign, CFLSign)>
        ensures listed { is_some result ≡ nat_lt joint 8 }
        ensures signs { IfSome result (λ s. (sign_number s.0 ≡ (joint + 1) / 3) × (sign_number s.1 ≡ (joint + 1) % 3)) }
    {
        if joint >= 8 {
            return None;
        }
        let u = CFLSign::from_number((joint + 1) / 3)?;
        let v = CFLSign::from_number((joint + 1) % 3)?;
        Some((u, v))
    }

    /// The context of an alpha of this sign beside one of the other; a zero has none.
    pub fn context(self, other: CFLSign) -> Option<usize>
        ensures value { result ≡ alpha_context (sign_number self) (sign_number other) }
        ensures within { IfSome result (λ c. c < 6) }
    {
        let sign = self.number().checked_sub(1)?;
        Some(3 * sign + other.number())
    }

    /// The alpha of this sign whose magnitude is one more than `symbol`.
    pub fn alpha(self, symbol: u8) -> i32
        ensures { result ≡ alpha_at (sign_number self) symbol }
    {
        match self {
            CFLSign::CFL_SIGN_ZERO => 0,
            CFLSign::CFL_SIGN_NEG => -1 - i32::from(symbol),
            CFLSign::CFL_SIGN_POS => 1 + i32::from(symbol),
        }
    }
}

/// Two chroma alphas in -16..=16, not both zero.
#[derive(Clone, Copy)]
pub struct CFLParams {
    u: i32,
    v: i32,
    ghost allowed: { IsTrue (alphas_allowed (u, v)) },
}

// The context and the symbol of an alpha beside the other.
fn coded(alpha: i32, other: i32) -> Option<(usize, usize)>
    ensures value { result ≡ coded_alpha alpha other }
    ensures within { IfSome result (λ s. (s.0 < 6) × (s.1 < magnitude alpha)) }
{
    let context = CFLSign::from_alpha(alpha).context(CFLSign::from_alpha(other))?;
    Some((context, alpha.unsigned_abs() as usize - 1))
}

impl CFLParams {
    pub fn from_alpha(u: i32, v: i32) -> Option<CFLParams>
        ensures allowed { is_some result ≡ alphas_allowed (u, v) }
        ensures made { IfSome result (λ p. (p.u ≡ u) × (p.v ≡ v)) }
    {
        if u.unsigned_abs() > 16 || v.unsigned_abs() > 16 || (u == 0 && v == 0) {
            return None;
        }
        Some(CFLParams { u, v })
    }

    /// The symbol of both signs.
    pub fn joint_sign(self) -> usize
        ensures value { result ≡ joint_sign (self.u, self.v) }
        ensures most { result < 8 }
    {
        CFLSign::from_alpha(self.u).number() * 3 + CFLSign::from_alpha(self.v).number() - 1
    }

    /// How many of the alphas are not zero.
    pub fn count_scales(self) -> usize
        ensures value { result ≡ nonzero self.u + nonzero self.v }
        ensures range { (0 < result) × (result ≤ 2) }
    {
        usize::from(self.u != 0) + usize::from(self.v != 0)
    }

    /// The context and the symbol of alpha u, for 0, or v, for 1; a zero has none, and neither has another number.
    pub fn scale(self, uv: usize) -> Option<(usize, usize)>
        ensures value { result ≡ (if nat_eq uv 0 then coded_alpha self.u self.v else (if nat_eq uv 1 then coded_alpha self.v self.u else None)) }
        ensures within { IfSome result (λ s. (s.0 < 6) × (s.1 < 16)) }
    {
        match uv {
            0 => coded(self.u, self.v),
            1 => coded(self.v, self.u),
            _ => None,
        }
    }

    /// The context and the symbol of alpha u and of alpha v; a zero has none.
    pub fn scales(self) -> [Option<(usize, usize)>; 2]
        ensures value { result ≡ coded_alpha self.u self.v ∷ coded_alpha self.v self.u ∷ [] }
        ensures within { All (λ o. IfSome o (λ s. (s.0 < 6) × (s.1 < 16))) result }
    {
        [coded(self.u, self.v), coded(self.v, self.u)]
    }
}
