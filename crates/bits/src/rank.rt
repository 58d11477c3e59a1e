//! Counting ones by a directory.
ghost use Rattle.std.specs.Prelude.{◌≡◌, ◌*◌, ◌/◌, ◌^◌, ◌<◌, ◌≤◌, length, sum_by, count_ones, slice_index};
ghost use Rattle.bits.specs.Packed.{number_of};
ghost use Rattle.bits.specs.Ranks.{ones_before as rank};

use crate::words::{lowest, word_at};

/// How many of the first `place` bits of a part are ones. The directory has a word for every 256 bits
/// begun, which says how many ones there are before those 256; where the word for this place is
/// right, so is the answer, and at most nine words are read.
#[tactic(auto, using(crate::proofs::Counting::ones_between, crate::proofs::Counting::ones_part, crate::proofs::Counting::ones_few))]
pub fn ones_before(bits: &[u32], directory: &[u32], place: usize) -> u32
    ensures { place < 2 ^ 32 → slice_index directory.now (place / 256) ≡ rank (number_of bits.now) (256 * (place / 256)) → result ≡ rank (number_of bits.now) place }
{
    let group = place / 256;
    let counted = word_at(directory, group);
    let len = bits.len();
    let whole = ones_in(&bits[(group * 8).min(len)..(place / 32).min(len)]);
    let last = lowest(word_at(bits, place / 32), (place % 32) as u32);
    counted.wrapping_add(whole).wrapping_add(last.count_ones())
}

// How many ones the words of a group have.
fn ones_in(words: &[u32]) -> u32
    requires { length words.now ≤ 8 }
    ensures { result ≡ sum_by count_ones words.now }
{
    words.iter().map(|word| word.count_ones()).sum()
}
