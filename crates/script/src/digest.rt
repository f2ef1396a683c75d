ghost use Rattle.std.specs.Prelude.{◌≡◌, ℕ, ◌/◌, ◌%◌, List, [], ◌∷◌, ◌++◌};
ghost use Rattle.script.specs.Digests.{offset, step, steps, Digests};

const OFFSET: u64 = 0xcbf2_9ce4_8422_2325;

const PRIME: u64 = 0x0000_0100_0000_01b3;

/// The 64-bit FNV-1a hash of bytes that come one by one.
#[derive(Clone, Copy, Debug)]
pub struct Digest {
    hash: u64,
}

/// The hash of some bytes and one byte more, from the hash of those bytes.
pub fn fnv1a(hash: u64, byte: u8) -> u64
    ensures { result ≡ step hash byte }
{
    (hash ^ u64::from(byte)).wrapping_mul(PRIME)
}

impl Digest {
    /// The digest of no bytes.
    pub fn new() -> Digest
        ensures value { result.hash ≡ offset }
        ensures digests { Digests result.hash [] }
    {
        Digest { hash: OFFSET }
    }

    /// Takes one byte more.
    pub fn byte(&mut self, byte: u8)
        ensures after { self.new.hash ≡ step self.old.hash byte }
        ensures digests { (bs : List ℕ) → Digests self.old.hash bs → Digests self.new.hash (bs ++ byte ∷ []) }
    {
        self.hash = fnv1a(self.hash, byte);
    }

    /// Takes the two bytes of a word, the low one first.
    pub fn word(&mut self, word: u16)
        ensures after { self.new.hash ≡ step (step self.old.hash (word % 256)) (word / 256) }
        ensures digests { (bs : List ℕ) → Digests self.old.hash bs → Digests self.new.hash ((bs ++ (word % 256) ∷ []) ++ (word / 256) ∷ []) }
    {
        self.bytes(&word.to_le_bytes());
    }

    /// Takes the bytes of a slice in order.
    pub fn bytes(&mut self, bytes: &[u8])
        ensures after { self.new.hash ≡ steps self.old.hash bytes.now }
        ensures digests { (bs : List ℕ) → Digests self.old.hash bs → Digests self.new.hash (bs ++ bytes.now) }
    {
        self.hash = bytes.iter().copied().fold(self.hash, fnv1a);
    }

    /// The hash of the bytes so far.
    pub fn value(&self) -> u64
        ensures { result ≡ self.now.hash }
    {
        self.hash
    }
}
