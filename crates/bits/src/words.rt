//! Words of 32 bits.
ghost use Rattle.std.specs.Prelude.{◌≡◌, ℕ, ◌%◌, ◌^◌, ◌<◌, slice_index};

// The word of a place, and zero past the last. It also tells its caller that every word has 32 bits.
pub(crate) fn word_at(words: &[u32], i: usize) -> u32
    ensures word { result ≡ slice_index words.now i }
    ensures narrow { (k : ℕ) → slice_index words.now k < 2 ^ 32 }
{
    words.get(i).copied().unwrap_or(0)
}

// The lowest `n` bits of a word.
pub(crate) fn lowest(word: u32, n: u32) -> u32
    requires { n < 32 }
    ensures { result ≡ word % 2 ^ n }
{
    word & ((1 << n) - 1)
}
