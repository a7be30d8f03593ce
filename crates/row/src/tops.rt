// The top bits of stored longwords, by six flags in which Q and X are negated: a word takes one load of them.
ghost use Rattle.std.specs.Prelude.{◌≡◌, ◌+◌, ◌/◌, ◌%◌, ◌^◌, ◌<◌, eqb, if◌then◌else◌};
ghost use Rattle.row.specs.model.Tops.{Tops};

use reply::{Q_BIT, X_BIT};

// Q and X of a clean answer.
const BOTH: u32 = Q_BIT + X_BIT;

// The same four, whatever the other flags.
const TOPS: [u32; 64] = [
    BOTH, X_BIT, Q_BIT, 0, BOTH, X_BIT, Q_BIT, 0, BOTH, X_BIT, Q_BIT, 0, BOTH, X_BIT, Q_BIT, 0,
    BOTH, X_BIT, Q_BIT, 0, BOTH, X_BIT, Q_BIT, 0, BOTH, X_BIT, Q_BIT, 0, BOTH, X_BIT, Q_BIT, 0,
    BOTH, X_BIT, Q_BIT, 0, BOTH, X_BIT, Q_BIT, 0, BOTH, X_BIT, Q_BIT, 0, BOTH, X_BIT, Q_BIT, 0,
    BOTH, X_BIT, Q_BIT, 0, BOTH, X_BIT, Q_BIT, 0, BOTH, X_BIT, Q_BIT, 0, BOTH, X_BIT, Q_BIT, 0,
];

// The table, lent to whoever reads words. With TOPS in the function that reads a word, a read takes 2.5 instructions more a word.
#[derive(Clone, Copy)]
pub struct TopBits {
    pub tops: [u32; 64],
    pub ghost right: { Tops tops },
}

impl TopBits {
    // By the flags of an answer.
    pub fn of(&self, flags: u8) -> u32
        requires { flags < 64 }
        ensures { result ≡ (if eqb (flags / 2 % 2) 1 then 2 ^ 30 else 0) + (if eqb (flags % 2) 1 then 2 ^ 31 else 0) }
    {
        self.tops[usize::from(flags ^ 3)]
    }
}

pub fn top_bits() -> TopBits
    ensures { Tops result.tops }
{
    TopBits { tops: TOPS }
}
