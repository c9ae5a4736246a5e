// The writer of grammar files: document 02, request (i), and refusals 13, 16 and 14.
#![tactic(auto)]

ghost use Rattle.std.specs.Prelude.{◌≡◌, [], ◌∷◌, ◌+◌, ◌*◌, ◌≤◌, ◌<◌, length};
ghost use Rattle.base.specs.Telling.{Tells};
ghost use Rattle.base.specs.Written.{written};
ghost use Rattle.grammar.specs.Buffers.{cleared, filled};
ghost use Rattle.grammar.specs.Refusals.{outcome_of};
ghost use Rattle.grammar.specs.Writing.{
  FileWritten,
  WordCount,
  blocks_for,
  blocks_of,
  bytes_of,
  first_blocks,
};

use block::{BLOCK_BYTES, BLOCK_WORDS, CHECK, FIRST_WORD, USE_COUNT};
use grammar::Refusal;

// Eleven full blocks.
const MOST_WORDS: usize = 2783;

// Writes the file of the words into the buffer, behind which it is zero; or gives the first refusal of 13, 16 and 14 that applies, and the
// whole buffer is zero. The words are not checked. The buffer is cleared first, so that no refusal can leave an old byte in it, and what a
// block does not use is zero.
pub fn write(words: &[u16], bytes: &mut [u8]) -> Result<usize, Refusal>
    ensures { FileWritten words.now (length bytes.old) (outcome_of result) bytes.new }
{
    base::fill_from(bytes, 0, 0);
    if !count_right(words.len()) {
        return Err(Refusal::BadCount);
    }
    if shape::unit_one(words) {
        return Err(Refusal::Hundredths);
    }
    let blocks = blocks_for(words.len());
    let size = BLOCK_BYTES * blocks;
    if bytes.len() < size {
        return Err(Refusal::ShortBytes);
    }
    write_blocks(words, blocks, bytes);
    Ok(size)
}

// Refusal 13: there are words, and not more than eleven blocks hold.
fn count_right(count: usize) -> bool
    ensures { Tells (WordCount count) result }
{
    count != 0 && count <= MOST_WORDS
}

// How many blocks so many words take: there is no empty last block.
fn blocks_for(count: usize) -> usize
    requires { count ≤ 2783 }
    ensures { result ≡ blocks_for count }
{
    count.div_ceil(BLOCK_WORDS)
}

// Writes the blocks into a cleared buffer, in order.
fn write_blocks(words: &[u16], blocks: usize, bytes: &mut [u8])
    requires blocks_value { blocks ≡ blocks_for (length words.now) }
    requires blocks_bound { blocks ≤ 11 }
    requires blocks_in_bounds { 512 * blocks ≤ length bytes.old }
    requires bytes_value { bytes.old ≡ cleared (length bytes.old) }
    ensures { bytes.new ≡ filled (length bytes.old) (blocks_of words.now) }
{
    for k in 0..blocks {
        write_block(words, k, bytes);
    }
}

// Writes block k behind those before it, where all is zero: number, use count and words, then the check of these. Kept: `as` for k and
// the use count, which fit: `try_from` would be a failure that cannot come.
fn write_block(words: &[u16], k: usize, bytes: &mut [u8])
    requires k_bound { k < 11 }
    requires k_in_bounds { 253 * k ≤ length words.now }
    requires k_in_bounds_2 { 512 * k + 512 ≤ length bytes.old }
    requires bytes_value { bytes.old ≡ filled (length bytes.old) (first_blocks words.now k) }
    ensures { bytes.new ≡ filled (length bytes.old) (first_blocks words.now (k + 1)) }
{
    let start = BLOCK_BYTES * k;
    let rest = &words[BLOCK_WORDS * k..];
    let used = rest.len().min(BLOCK_WORDS);
    put_pair(bytes, start, k as u16);
    put_pair(bytes, start + USE_COUNT, used as u16);
    put_words(&rest[..used], bytes, start + FIRST_WORD);
    let check = block::check_of(&bytes[start..start + FIRST_WORD + 2 * used]);
    put_pair(bytes, start + CHECK, check);
}

// Writes the words from a byte on.
fn put_words(words: &[u16], bytes: &mut [u8], at: usize)
    requires { at + 2 * length words.now ≤ length bytes.old }
    ensures { bytes.new ≡ written bytes.old at (bytes_of words.now) }
{
    for (i, &word) in words.iter().enumerate() {
        put_pair(bytes, at + 2 * i, word);
    }
}

// Writes a word as two bytes, the lower first.
fn put_pair(bytes: &mut [u8], at: usize, word: u16)
    requires { at + 1 < length bytes.old }
    ensures { bytes.new ≡ written bytes.old at (bytes_of (word ∷ [])) }
{
    let [low, high] = word.to_le_bytes();
    bytes[at] = low;
    bytes[at + 1] = high;
}
