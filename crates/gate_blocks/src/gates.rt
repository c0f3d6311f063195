//! The gates of loudness, as steps over a count and a sum.
ghost use Rattle.std.specs.Prelude.{◌≡◌, ◌≤◌, ◌<◌, ◌+◌, ◌*◌, ◌^◌, ◌&&◌, ◌++◌, ℕ, IsTrue, List, [], filter, length, nat_lt, All};
ghost use Rattle.lib_base.specs.declared.limits.TheConstants.{BLOCK_SEGMENTS, GREATEST_ENERGY};
ghost use Rattle.sound_model.specs.Loudness.{is_audible, is_near};
ghost use Rattle.gate_blocks.specs.Bounds.{AreBlocks, IsTallyOf};

use lib_base::FULL_POWER;

/// How many blocks passed a gate, and the sum of their energies.
///
/// The two passes of the gates add to one: `add_audible` what is above -70 LUFS, then `add_near`
/// what is above the mean of that less 10 LU. Blocks of many lists are gated as those of one by
/// adding list after list.
#[derive(Clone, Copy, Debug)]
pub struct Tally {
    pub count: u64,
    pub sum: u128,
    ghost few: { count ≤ 2 ^ 25 },
    ghost some_each: { count ≤ sum },
    ghost within: { sum ≤ count * (BLOCK_SEGMENTS * GREATEST_ENERGY) },
}

impl Tally {
    /// Of no block.
    pub fn new() -> Tally
        ensures { IsTallyOf [] result.count result.sum }
    {
        Tally { count: 0, sum: 0 }
    }

    /// Adds those of the blocks that are above the absolute threshold, -70 LUFS.
    pub fn add_audible(&mut self, blocks: &[u128])
        requires within { All (λ z. z ≤ BLOCK_SEGMENTS * GREATEST_ENERGY) blocks.now }
        requires room { self.old.count + length blocks.now ≤ 2 ^ 25 }
        ensures tally { (before : List ℕ) → IsTallyOf before self.old.count self.old.sum
            → IsTallyOf (before ++ filter is_audible blocks.now) self.new.count self.new.sum }
        ensures count { self.new.count ≤ self.old.count + length blocks.now }
    {
        *self = both(*self, audible_of(blocks));
    }

    /// Adds those of the blocks that pass both gates: above the absolute threshold, and above the
    /// relative one, which is the mean of the blocks that `audible` counts less 10 LU.
    pub fn add_near(&mut self, blocks: &[u128], audible: Tally)
        requires within { All (λ z. z ≤ BLOCK_SEGMENTS * GREATEST_ENERGY) blocks.now }
        requires room { self.old.count + length blocks.now ≤ 2 ^ 25 }
        ensures tally { (counted before : List ℕ) → IsTallyOf counted audible.count audible.sum
            → IsTallyOf before self.old.count self.old.sum
            → IsTallyOf (before ++ filter (is_near counted) (filter is_audible blocks.now)) self.new.count self.new.sum }
        ensures count { self.new.count ≤ self.old.count + length blocks.now }
    {
        *self = both(*self, near_of(blocks, audible));
    }
}

/// The tally of the blocks of two.
fn both(one: Tally, other: Tally) -> Tally
    requires { one.count + other.count ≤ 2 ^ 25 }
    ensures count { result.count ≡ one.count + other.count }
    ensures tally { (xs ys : List ℕ) → IsTallyOf xs one.count one.sum → IsTallyOf ys other.count other.sum
        → IsTallyOf (xs ++ ys) result.count result.sum }
{
    Tally {
        count: one.count + other.count,
        sum: one.sum + other.sum,
    }
}

/// Tallies the blocks above the absolute threshold, -70 LUFS.
fn audible_of(blocks: &[u128]) -> Tally
    requires { AreBlocks blocks.now }
    ensures tally { IsTallyOf (filter is_audible blocks.now) result.count result.sum }
    ensures few { result.count ≤ length blocks.now }
{
    let mut count = 0;
    let mut sum = 0;
    for energy in blocks {
        if is_audible_block(*energy) {
            count += 1;
            sum += *energy;
        }
    }
    Tally { count, sum }
}

/// Tallies those of them that are above the relative threshold, the mean of what `audible` counts
/// less 10 LU.
fn near_of(blocks: &[u128], audible: Tally) -> Tally
    requires { AreBlocks blocks.now }
    ensures tally { (counted : List ℕ) → IsTallyOf counted audible.count audible.sum
        → IsTallyOf (filter (is_near counted) (filter is_audible blocks.now)) result.count result.sum }
    ensures few { result.count ≤ length blocks.now }
{
    let mut count = 0;
    let mut sum = 0;
    for energy in blocks {
        if passes_both(*energy, audible) {
            count += 1;
            sum += *energy;
        }
    }
    Tally { count, sum }
}

fn passes_both(energy: u128, audible: Tally) -> bool
    requires { energy ≤ BLOCK_SEGMENTS * GREATEST_ENERGY }
    ensures value { result ≡ (is_audible energy && nat_lt audible.sum (10 * audible.count * energy)) }
    ensures positive { IsTrue result → 0 < energy }
{
    is_audible_block(energy) && 10 * u128::from(audible.count) * energy > audible.sum
}

fn is_audible_block(energy: u128) -> bool
    requires { energy ≤ BLOCK_SEGMENTS * GREATEST_ENERGY }
    ensures value { result ≡ is_audible energy }
    ensures positive { IsTrue result → 0 < energy }
{
    1_250_000_000 * energy > 24 * FULL_POWER
}
