ghost use Rattle.std.specs.Prelude.{◌<◌, length};

/// Numbers that look random, the same ones at each start, so that other programs can make them too: x is
/// 6364136223846793005 × x + 1442695040888963407 modulo 2^64, from 1 on, and a number below n is (x >> 33) % n.
#[derive(Drop)]
pub struct Random {
    state: u64,
}

impl Random {
    pub(crate) fn new() -> Random {
        Random { state: 1 }
    }

    /// The next number, below `n`.
    pub(crate) fn below(&mut self, n: usize) -> usize
        requires { 0 < n }
        ensures { result < n }
    {
        self.state = self
            .state
            .wrapping_mul(6_364_136_223_846_793_005)
            .wrapping_add(1_442_695_040_888_963_407);
        (self.state >> 33) as usize % n
    }

    /// One of these items.
    pub(crate) fn pick<T: Copy>(&mut self, items: &[T]) -> T
        requires { 0 < length items.now }
    {
        items[self.below(items.len())]
    }
}
