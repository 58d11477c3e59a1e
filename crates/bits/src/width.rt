//! How wide a chunk may be.
ghost use Rattle.std.specs.Prelude.{◌≡◌};
ghost use Rattle.bits.specs.Packed.{bits_of};

/// A width that a chunk may have. None crosses from one word of 32 bits into the next.
#[derive(Clone, Copy, PartialEq, Eq, Debug)]
pub enum Width {
    /// 1 bit.
    One = 1,
    /// 2 bits.
    Two = 2,
    /// 4 bits.
    Four = 4,
    /// 8 bits.
    Eight = 8,
    /// 16 bits.
    Sixteen = 16,
}

/// How many bits a chunk has: 1, 2, 4, 8 or 16.
impl From<Width> for u32 {
    ghost from_gives = { λ width bits. bits ≡ bits_of width };

    fn from(width: Width) -> u32 {
        width as u32
    }
}
