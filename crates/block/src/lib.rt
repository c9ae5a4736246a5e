// The form of a block of the grammar file, which reader and writer share: document 01, "The grammar file". A block's number stands in
// its first two bytes.
#![tactic(auto)]

ghost use Rattle.std.specs.Prelude.{◌≡◌, ◌+◌, ◌*◌, ◌%◌, ◌≤◌, ◌<◌, length};
ghost use Rattle.grammar.specs.File.{weighted_sum};

pub const BLOCK_BYTES: usize = 512;

// Where a block's use count stands.
pub const USE_COUNT: usize = 2;

// Where a block's words begin, and how many it has.
pub const FIRST_WORD: usize = 4;

pub const BLOCK_WORDS: usize = 253;

// Where a block's check stands: it is of all bytes before it.
pub const CHECK: usize = 510;

const MODULUS: u32 = 65521;

// The check over the first bytes of a block. Those behind them add nothing where they are zero.
pub fn check_of(bytes: &[u8]) -> u16
    requires { length bytes.now ≤ 510 }
    ensures { result ≡ weighted_sum bytes.now 0 (length bytes.now) % 65521 }
{
    (weighted_sum(bytes) % MODULUS) as u16
}

// The sum over those bytes. It is at most 510 * 510 * 255, so a u32 holds it before the modulus.
fn weighted_sum(bytes: &[u8]) -> u32
    requires { length bytes.now ≤ 510 }
    ensures { result ≡ weighted_sum bytes.now 0 (length bytes.now) }
{
    let mut sum: u32 = 0;
    for (i, &byte) in bytes.iter().enumerate() {
        sum += weighted(i, byte);
    }
    sum
}

// (i + 1) x byte i.
fn weighted(i: usize, byte: u8) -> u32
    requires { i < 510 }
    ensures value { result ≡ (i + 1) * byte }
    ensures upper_bound { result ≤ 130050 }
{
    (i as u32 + 1) * u32::from(byte)
}
