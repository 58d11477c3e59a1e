//! Whole numbers as people write them: no plus, no leading zero, no minus zero.
#![tactic(auto)]

ghost use Rattle.std.specs.Prelude.{◌≡◌, ℕ, suc, ◌+◌, ◌*◌, ◌^◌, ◌<◌, ◌≤◌, ◌∷◌, length, ℤ, decimal, MatchBool, MatchOption, ◌≢◌, slice_index};
ghost use Rattle.std.specs.Char.{digit_value};
ghost use Rattle.std.specs.Fmt.{signed_decimal};
ghost use Rattle.std.specs.Int.Signed.{mag};

/// The number below 2^32 whose decimal digits `text` is; `None` exactly when it is those of none.
#[tactic(auto, using(crate::proofs::Spelled::all_digits, crate::proofs::Spelled::not_large))]
pub fn read_unsigned(text: &[u8]) -> Option<u32>
    ensures { MatchOption result ((n : ℕ) → n < 2 ^ 32 → decimal n ≢ text.now) (λ n. decimal n ≡ text.now) }
{
    if !well_begun(text) {
        return None;
    }
    let mut n: u32 = 0;
    for b in text {
        n = with_digit(n, *b)?;
    }
    Some(n)
}

/// The signed 32-bit number whose decimal digits, after a minus if it is negative, `text` is;
/// `None` exactly when it is those of none.
pub fn read_signed(text: &[u8]) -> Option<i32>
    ensures { MatchOption result ((z : ℤ) → mag z < 2 ^ 31 → signed_decimal z ≢ text.now) (λ z. signed_decimal z ≡ text.now) }
{
    // by rule the minus and the digits are told by char literals
    match text {
        [first, digits @ ..] if char::from(*first) == '-' => negative(digits),
        _ => positive(text),
    }
}

// The number of 31 bits whose decimal digits `text` is.
#[tactic(auto, using(std::proofs::lemmas::Fmt::decimal_injective))]
fn positive(text: &[u8]) -> Option<i32>
    ensures { MatchOption result ((n : ℕ) → n < 2 ^ 31 → decimal n ≢ text.now) (λ z. signed_decimal z ≡ text.now) }
{
    i32::try_from(read_unsigned(text)?).ok()
}

// The opposite of the number whose decimal digits `digits` is, if that is 1 to 2^31.
#[tactic(auto, using(std::proofs::lemmas::Fmt::decimal_injective))]
fn negative(digits: &[u8]) -> Option<i32>
    ensures { MatchOption result ((n : ℕ) → n < 2 ^ 31 → decimal (suc n) ≢ digits.now) (λ z. signed_decimal z ≡ 45 ∷ digits.now) }
{
    let n = read_unsigned(digits)?;
    if n == 0 {
        None
    } else {
        i32::try_from(-i64::from(n)).ok()
    }
}

// Whether there is something, and no zero in front of more.
#[tactic(auto, using(crate::proofs::Spelled::not_empty, crate::proofs::Spelled::no_lead))]
fn well_begun(text: &[u8]) -> bool
    ensures { MatchBool result ((0 < length text.now) × (1 < length text.now → slice_index text.now 0 ≢ 48)) ((n : ℕ) → n < 2 ^ 32 → decimal n ≢ text.now) }
{
    match text {
        [] => false,
        [_] => true,
        [first, _, ..] => char::from(*first) != '0',
    }
}

// The number that `n` becomes with one more digit behind it, if `b` is a digit and it fits.
fn with_digit(n: u32, b: u8) -> Option<u32>
    ensures { MatchOption result (digit_value b < 10 → 2 ^ 32 ≤ n * 10 + digit_value b) (λ m. (digit_value b < 10) × (m ≡ n * 10 + digit_value b) × (m < 2 ^ 32)) }
{
    match char::from(b) {
        '0'..='9' => u32::try_from(u64::from(n) * 10 + u64::from(b - b'0')).ok(),
        _ => None,
    }
}
