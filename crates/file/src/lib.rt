// The reader of grammar files: document 01, "The grammar file", and refusals 1 to 4.
#![tactic(auto)]

ghost use Rattle.std.specs.Prelude.{◌≡◌, ◌+◌, ◌*◌, ◌≤◌, ◌<◌, length};
ghost use Rattle.base.specs.Telling.{Tells};
ghost use Rattle.grammar.specs.File.{
  BlockFields,
  EachBlock,
  FileRead,
  FileSize,
  UseCount,
  block_count,
  file_words,
  pair_at,
  words_used,
};
ghost use Rattle.base.specs.Written.{begun, written};
ghost use Rattle.grammar.specs.Theory.Files.{CheckRight, block_words};
ghost use Rattle.grammar.specs.Refusals.{outcome_of};
ghost use Rattle.file.specs.Answer.{AllZero, FieldsRight, UnusedZero};

use block::{BLOCK_BYTES, BLOCK_WORDS, CHECK, FIRST_WORD, USE_COUNT};
use grammar::Refusal;

// Eleven blocks.
const LARGEST_FILE: usize = 5632;

// Reads the file's words into the buffer, behind which it is zero; or gives the lowest refusal of 1 to 4 that applies,
// and the whole buffer is zero. The buffer is cleared first, so that no refusal can leave an old word in it.
pub fn read(bytes: &[u8], words: &mut [u16]) -> Result<usize, Refusal>
    ensures { FileRead bytes.now (length words.old) (outcome_of result) words.new }
{
    base::fill_from(words, 0, 0);
    if !size_right(bytes.len()) {
        return Err(Refusal::BadSize);
    }
    if !checks_right(bytes) {
        return Err(Refusal::BadCheck);
    }
    if !blocks_right(bytes) {
        return Err(Refusal::BadBlock);
    }
    let count = word_count(bytes);
    if words.len() < count {
        return Err(Refusal::ShortWords);
    }
    copy_blocks(bytes, words);
    Ok(count)
}

// ---- Refusal 1

// The file is not empty, a multiple of 512, and not over 5,632 bytes.
fn size_right(size: usize) -> bool
    ensures { Tells (FileSize size) result }
{
    size != 0 && size % BLOCK_BYTES == 0 && size <= LARGEST_FILE
}

// ---- Refusal 2

// Every block's check, in one pass: no byte is summed twice.
fn checks_right(bytes: &[u8]) -> bool
    ensures { Tells (EachBlock bytes.now (CheckRight bytes.now)) result }
{
    bytes.chunks_exact(BLOCK_BYTES).all(check_right)
}

// The check of a block stands in its last two bytes.
fn check_right(block: &[u8]) -> bool
    requires { length block.now ≡ 512 }
    ensures { Tells (CheckRight block.now 0) result }
{
    pair(block, CHECK) == block::check_of(&block[..CHECK])
}

// ---- Refusal 3

// Every block's number, use count and unused words, in one pass.
fn blocks_right(bytes: &[u8]) -> bool
    ensures { Tells (EachBlock bytes.now (BlockFields bytes.now)) result }
{
    let count = bytes.len() / BLOCK_BYTES;
    bytes
        .chunks_exact(BLOCK_BYTES)
        .enumerate()
        .all(|(k, block)| fields_right(block, k, count))
}

// Block number, use count and unused words of a block that is block k of so many.
fn fields_right(block: &[u8], k: usize, count: usize) -> bool
    requires block_size { length block.now ≡ 512 }
    requires k_bound { k < count }
    ensures { Tells (FieldsRight count k block.now) result }
{
    let used = number(block, USE_COUNT);
    number(block, 0) == k && use_count_right(count, k, used) && unused_zero(block, used)
}

// Exactly 253 in every block but the last, 1 to 253 there.
fn use_count_right(count: usize, k: usize, used: usize) -> bool
    requires { k < count }
    ensures { Tells (UseCount count k used) result }
{
    if k + 1 < count {
        return used == BLOCK_WORDS;
    }
    used != 0 && used <= BLOCK_WORDS
}

// The words of a block behind the used ones.
fn unused_zero(block: &[u8], used: usize) -> bool
    requires block_size { length block.now ≡ 512 }
    requires used_bound { used ≤ 253 }
    ensures { Tells (UnusedZero block.now 0 used) result }
{
    all_zero(&block[FIRST_WORD + 2 * used..CHECK])
}

// Every byte is zero. They are joined into one that is tested behind the loop: a loop that is never left early is compiled to take
// many bytes at a time.
fn all_zero(bytes: &[u8]) -> bool
    ensures { Tells (AllZero bytes.now) result }
{
    let mut all: u8 = 0;
    for &byte in bytes {
        all |= byte;
    }
    all == 0
}

// ---- Refusal 4, and the words

// How many words a file has whose blocks are right: every block but the last is full.
fn word_count(bytes: &[u8]) -> usize
    requires bytes_nonzero { 0 < block_count bytes.now }
    requires each_block { EachBlock bytes.now (BlockFields bytes.now) }
    ensures { result ≡ length (file_words bytes.now) }
{
    let last = bytes.len() / BLOCK_BYTES - 1;
    BLOCK_WORDS * last + number(bytes, BLOCK_BYTES * last + USE_COUNT)
}

// Copies the used words of every block to the front of the buffer, in order.
fn copy_blocks(bytes: &[u8], words: &mut [u16])
    requires each_block { EachBlock bytes.now (BlockFields bytes.now) }
    requires bytes_in_bounds { length (file_words bytes.now) ≤ length words.old }
    ensures { words.new ≡ begun words.old (file_words bytes.now) }
{
    let mut at = 0;
    for block in bytes.chunks_exact(BLOCK_BYTES) {
        at = copy_block(block, words, at);
    }
}

// Copies the used words of a block to the place `at` of the buffer, and gives the place behind them. Kept: an index, for a proof knows no
// element of a slice that `iter_mut` was called on.
fn copy_block(block: &[u8], words: &mut [u16], at: usize) -> usize
    requires block_size { length block.now ≡ 512 }
    requires used_bound { words_used block.now 0 ≤ 253 }
    requires used_in_bounds { at + words_used block.now 0 ≤ length words.old }
    ensures value { result ≡ at + words_used block.now 0 }
    ensures words_after { words.new ≡ written words.old at (block_words block.now 0) }
{
    let used = number(block, USE_COUNT);
    for i in 0..used {
        words[at + i] = pair(block, FIRST_WORD + 2 * i);
    }
    at + used
}

// ---- Numbers of two bytes

// The little endian number of two bytes, as a word.
fn pair(bytes: &[u8], at: usize) -> u16
    requires { at + 1 < length bytes.now }
    ensures { result ≡ pair_at bytes.now at }
{
    u16::from_le_bytes([bytes[at], bytes[at + 1]])
}

// The same, to count with.
fn number(bytes: &[u8], at: usize) -> usize
    requires { at + 1 < length bytes.now }
    ensures { result ≡ pair_at bytes.now at }
{
    usize::from(pair(bytes, at))
}
