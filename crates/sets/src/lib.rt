// Sets of numbers below 64 as the bits of a u64. What they hold is `member` of specs/Bits.antt; specs/Laws.antt says of
// `with` and `union` what they hold, and that they never make the number smaller.
// Each of these compiles to an instruction or two.
#![tactic(auto)]

ghost use Rattle.std.specs.Prelude.{◌≡◌, true, ◌≤◌, ◌<◌};
ghost use Rattle.sets.specs.Bits.{member};
ghost use Rattle.base.specs.Telling.{Tells};
ghost use Rattle.sets.specs.Operations.{
  with,
  union,
  without,
  Below,
  Beyond,
  Greatest,
  Least,
  Shared,
};

// Number i is in the set.
pub fn has(s: u64, i: u16) -> bool
    requires { i < 64 }
    ensures { result ≡ member s i }
{
    (s >> i) % 2 == 1
}

// The set, and i.
pub fn with(s: u64, i: u16) -> u64
    requires { i < 64 }
    ensures { result ≡ with s i }
{
    s | (1u64 << i)
}

// What is in one of them.
pub fn union(a: u64, b: u64) -> u64
    ensures { result ≡ union a b }
{
    a | b
}

// Something is in both.
pub fn shared(a: u64, b: u64) -> bool
    ensures { Tells (Shared a b) result }
{
    (a & b) != 0
}

// The least number of a set that has some.
pub fn least(s: u64) -> u16
    requires { 0 < s }
    ensures { Least s result }
{
    u64::trailing_zeros(s) as u16
}

// The greatest number of a set that has some.
pub fn greatest(s: u64) -> u16
    requires { 0 < s }
    ensures { Greatest s result }
{
    63 - u64::leading_zeros(s) as u16
}

// The set without i, which is in it.
pub fn without(s: u64, i: u16) -> u64
    requires i_bound { i < 64 }
    requires i_value { member s i ≡ true }
    ensures { result ≡ without s i }
{
    s - (1u64 << i)
}

// What is in a and not in b.
pub fn beyond(a: u64, b: u64) -> u64
    ensures { Beyond a b result }
{
    a & !b
}

// The numbers below n.
pub fn below(n: usize) -> u64
    requires n_nonzero { 0 < n }
    requires n_bound { n ≤ 64 }
    ensures { Below n result }
{
    18446744073709551615 >> (64 - n)
}
