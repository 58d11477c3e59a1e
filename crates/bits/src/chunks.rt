//! Reading and writing one chunk.
ghost use Rattle.std.specs.Prelude.{◌≡◌, ◌+◌, ◌*◌, ◌/◌, ◌%◌, ◌^◌, ◌<◌, ◌≤◌, length, MatchBool};
ghost use Rattle.bits.specs.Packed.{Put, bits_of, digit, number_of};

use crate::width::Width;
use crate::words::{lowest, word_at};

// Where a chunk stands: in which word of a part, how far up in it, and how many bits of it.
#[derive(Clone, Copy)]
struct Place {
    word: usize,
    shift: u32,
    bits: u32,
    ghost within: { shift + bits ≤ 32 },
    ghost wide: { 0 < bits },
    ghost narrow: { bits ≤ 16 },
}

impl Place {
    // The place of chunk `t`.
    fn of(width: Width, t: usize) -> Place
        ensures bits { result.bits ≡ bits_of width }
        ensures first { 32 * result.word + result.shift ≡ result.bits * t }
    {
        let bits = u32::from(width);
        let each = 32 / bits as usize;
        Place {
            word: t / each,
            shift: (t % each) as u32 * bits,
            bits,
        }
    }

    // The chunk that a word has there.
    fn read(self, word: u32) -> u32
        ensures { result ≡ word / 2 ^ self.shift % 2 ^ self.bits }
    {
        lowest(word >> self.shift, self.bits)
    }

    // A word with the lowest bits of `x` there.
    #[tactic(auto, using(crate::proofs::Replacing::replaced))]
    fn put(self, word: u32, x: u32) -> u32
        ensures { result + word / 2 ^ self.shift % 2 ^ self.bits * 2 ^ self.shift ≡ word + x % 2 ^ self.bits * 2 ^ self.shift }
    {
        let old = self.read(word);
        let new = lowest(x, self.bits);
        word - (old << self.shift) + (new << self.shift)
    }
}

/// Chunk `t` of a part, chunks counted from 0: zero past the last.
#[tactic(auto, using(crate::proofs::Packing::chunk_digit))]
pub fn read_chunk(words: &[u32], width: Width, t: usize) -> u32
    ensures { result ≡ digit (bits_of width) t (number_of words.now) }
{
    let place = Place::of(width, t);
    place.read(word_at(words, place.word))
}

/// Puts the lowest bits of `x` in the place of chunk `t` of a part, chunks counted from 0, and leaves
/// every other chunk as it was. Answers whether the part has that chunk; if not, nothing is written.
// a `bool`, since nothing stands beside it that an `Option` would hold
pub fn write_chunk(words: &mut [u32], width: Width, t: usize, x: u32) -> bool
    ensures written { MatchBool result (Put (bits_of width) t x words.old words.new) (words.new ≡ words.old) }
    ensures within { MatchBool result (bits_of width * t < 32 * length words.old) (32 * length words.old ≤ bits_of width * t) }
{
    let place = Place::of(width, t);
    // Not by `get_mut`, which was tried: its contract says nothing of what the words are afterwards.
    if place.word >= words.len() {
        return false;
    }
    words[place.word] = place.put(word_at(words, place.word), x);
    true
}
