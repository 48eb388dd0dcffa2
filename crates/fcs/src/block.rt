// Thirty-two bytes a turn: four words that stand for the register, the first to leave it first.
ghost use Rattle.std.specs.Prelude.{◌≡◌};
ghost use Rattle.fcs.specs.Fcs.{fcs_from};
ghost use Rattle.fcs.specs.Word.{reduced, four};

use crate::reduce::fold;

// The four words, `a` the first to leave the register and `d` the last.
#[derive(Clone, Copy)]
pub(crate) struct Block {
    pub a: u64,
    pub b: u64,
    pub c: u64,
    pub d: u64,
}

// The register before the first byte.
pub(crate) const EMPTY: Block = Block {
    a: 0,
    b: 0,
    c: 0,
    d: 0,
};

impl Block {
    // 256 bits leave, and 256 stay, by the multiple x^256 + x^192 + x^80 + 1 of the generator: `a`, `p`, `q` and `l` say where it is
    // taken.
    fn folded(self) -> Block
        ensures { four result.a result.b result.c result.d ≡ reduced 256 (four self.a self.b self.c self.d) }
    {
        let Block { a, b, c, d } = self;
        let p = a ^ b;
        let m = p ^ c;
        let q = m ^ (a << 48);
        let l = m ^ d ^ (a >> 16) ^ (b << 48);
        Block {
            a: a ^ l ^ (p >> 16) ^ (q << 48),
            b: p ^ (q >> 16) ^ (l << 48),
            c: q ^ (l >> 16),
            d: l,
        }
    }

    // Thirty-two bytes into the register.
    pub(crate) fn with_bytes(self, bytes: &[u8; 32]) -> Block
        ensures { four result.a result.b result.c result.d ≡ fcs_from (four self.a self.b self.c self.d) bytes.now }
    {
        let Block { a, b, c, d } = self.folded();
        let (words, _) = bytes.as_chunks::<8>();
        Block {
            a: a ^ u64::from_le_bytes(words[0]),
            b: b ^ u64::from_le_bytes(words[1]),
            c: c ^ u64::from_le_bytes(words[2]),
            d: d ^ u64::from_le_bytes(words[3]),
        }
    }

    // One word for the four, each folded into the next.
    pub(crate) fn one_word(self) -> u64
        ensures { reduced 64 result ≡ four self.a self.b self.c self.d }
    {
        fold(fold(fold(self.a) ^ self.b) ^ self.c) ^ self.d
    }
}
