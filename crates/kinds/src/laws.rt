//! What it is to be a kind of entry, and what it is for a kind's entries to join.
ghost use Rattle.std.specs.Prelude.{◌≡◌, ℕ, ◌^◌, ◌<◌, ◌≤◌, MatchOption, ◌≢◌};

/// A kind of entry.
///
/// Every entry has a number of `WIDTH` bits. The number denotes that entry and no other, and no
/// other number denotes it; a number may denote no entry of the kind.
pub trait Kind: Copy {
    /// How many bits a number of this kind has, 1 to 32.
    const WIDTH: u32;

    /// The number by which this kind is known, 0 to 255.
    const CODE: u8;

    // how many bits a number has: the constant of that name, as a contract cites it
    ghost WIDTH: { ℕ };

    // the kind number: the constant of that name, as a contract cites it
    ghost CODE: { ℕ };

    // the number of an entry
    ghost number: { Self → ℕ };

    /// The number of this entry.
    fn number(self) -> u32
        ensures { result ≡ number self };

    /// The one entry that `n` denotes; `None` exactly when it denotes none.
    fn from_number(n: u32) -> Option<Self>
        ensures { MatchOption result ((e : Self) → number e ≢ n) (λ e. number e ≡ n) };

    ghost narrow: { (1 ≤ WIDTH) × (WIDTH ≤ 32) };

    ghost coded: { CODE < 256 };

    ghost fits: { (e : Self) → number e < 2 ^ WIDTH };

    ghost distinct: { (d e : Self) → number d ≡ number e → d ≡ e };
}

/// A kind whose entries join. They form a commutative group.
pub trait Reckoned: Kind {
    // the entry that changes no other
    ghost zero: { Self };

    // two entries in one
    ghost join: { Self → Self → Self };

    // the entry that takes another back
    ghost inverse: { Self → Self };

    /// The entry that changes no entry it is joined with.
    fn zero() -> Self
        ensures { result ≡ zero };

    /// This entry and `other` in one.
    fn join(self, other: Self) -> Self
        ensures { result ≡ join self other };

    /// The entry that, joined with this one, is zero.
    fn inverse(self) -> Self
        ensures { result ≡ inverse self };

    ghost associative: { (a b c : Self) → join (join a b) c ≡ join a (join b c) };

    ghost commutative: { (a b : Self) → join a b ≡ join b a };

    ghost left: { (a : Self) → join zero a ≡ a };

    ghost right: { (a : Self) → join a zero ≡ a };

    ghost cancels: { (a : Self) → join a (inverse a) ≡ zero };
}
