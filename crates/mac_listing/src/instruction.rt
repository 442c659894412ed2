/// An instruction of a machine with one accumulator. Words of memory have addresses from 0; numbers of bits are those of a shift.
#[derive(Clone, Copy)]
pub enum Op {
    /// The accumulator becomes 0.
    Clear,
    /// It becomes the word.
    Load { a: usize },
    /// The word becomes it.
    Store { a: usize },
    /// `c * (M[a] * 2^k)` is added to it.
    Mac { a: usize, c: i128, k: u32 },
    /// `c * 2^k` is added to it.
    Con { c: i128, k: u32 },
    /// The word is added to it.
    AddM { a: usize },
    /// It is multiplied by `2^k`.
    Shl { k: u32 },
    /// It is divided by `2^k`, rounded down.
    Shr { k: u32 },
    /// It changes its sign.
    Neg,
    /// It becomes 0 where it is below 0.
    Low,
    /// It becomes `c` where it is above `c`.
    Cap { c: i128 },
}
