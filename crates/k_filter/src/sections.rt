//! The next output of each of the two sections.
ghost use Rattle.std.specs.Prelude.{◌≡◌, ◌≤◌, ◌<◌, ◌^◌, ◌*◌, ℤ, pos, neg_ℤ, ◌*ℤ◌, ◌+ℤ◌, ◌-ℤ◌, unsigned_abs};
ghost use Rattle.sound_model.specs.Weighted.{next_output, shelf, high_pass};
ghost use Rattle.k_filter.specs.Bounds.{HasSmallProducts};

use crate::rounding::{difference, held_output, product, sum, whole_units};

/// The last two values of a list, 0 before its first one.
#[derive(Clone, Copy, Debug)]
pub struct Recent {
    pub last: i64,
    pub before: i64,
}

impl Recent {
    /// These values, with one more behind them.
    #[inline(always)]
    pub fn then(self, value: i64) -> Recent
        ensures last { result.last ≡ value }
        ensures before { result.before ≡ self.last }
    {
        Recent {
            last: value,
            before: self.last,
        }
    }
}

/// The next output of the first section, the pre-filter: a high shelf.
#[inline(always)]
pub fn shelf_output(input: i64, inputs: Recent, outputs: Recent) -> i64
    requires input { unsigned_abs input ≤ 2 ^ 39 }
    requires last_input { unsigned_abs inputs.last ≤ 2 ^ 39 }
    requires input_before { unsigned_abs inputs.before ≤ 2 ^ 39 }
    requires last_output { unsigned_abs outputs.last ≤ 2 ^ 50 }
    requires output_before { unsigned_abs outputs.before ≤ 2 ^ 50 }
    ensures value { result
        ≡ next_output shelf input inputs.last inputs.before outputs.last outputs.before }
    ensures products { HasSmallProducts shelf input inputs.last inputs.before outputs.last outputs.before }
    ensures small { unsigned_abs result ≤ 2 ^ 50 }
{
    held_output(whole_units(shelf_sum(input, inputs, outputs)))
}

/// The next output of the second section, the RLB filter: a high pass.
///
/// Its first three coefficients are whole, and the other two nearly are, so all that is whole is
/// added up apart, and only the rest is a sum in units of 10^-14.
#[inline(always)]
pub fn high_pass_output(input: i64, inputs: Recent, outputs: Recent) -> i64
    requires input { unsigned_abs input ≤ 2 ^ 50 }
    requires last_input { unsigned_abs inputs.last ≤ 2 ^ 50 }
    requires input_before { unsigned_abs inputs.before ≤ 2 ^ 50 }
    requires last_output { unsigned_abs outputs.last ≤ 2 ^ 50 }
    requires output_before { unsigned_abs outputs.before ≤ 2 ^ 50 }
    ensures value { result
        ≡ next_output high_pass input inputs.last inputs.before outputs.last outputs.before }
    ensures products { HasSmallProducts high_pass input inputs.last inputs.before outputs.last outputs.before }
    ensures small { unsigned_abs result ≤ 2 ^ 50 }
{
    let whole = high_pass_whole(input, inputs, outputs);
    held_output(added(whole, whole_units(high_pass_rest(outputs))))
}

/// What the second section adds up in whole units.
#[inline(always)]
fn high_pass_whole(input: i64, inputs: Recent, outputs: Recent) -> i64
    requires input { unsigned_abs input ≤ 2 ^ 50 }
    requires last_input { unsigned_abs inputs.last ≤ 2 ^ 50 }
    requires input_before { unsigned_abs inputs.before ≤ 2 ^ 50 }
    requires last_output { unsigned_abs outputs.last ≤ 2 ^ 50 }
    requires output_before { unsigned_abs outputs.before ≤ 2 ^ 50 }
    ensures value { result ≡ ((input -ℤ inputs.last) -ℤ (inputs.last -ℤ inputs.before))
        +ℤ (outputs.last +ℤ (outputs.last -ℤ outputs.before)) }
    ensures small { unsigned_abs result ≤ 7 * 2 ^ 50 }
{
    added(curve(input, inputs), straight(outputs))
}

/// How much the inputs' change changes.
#[inline(always)]
fn curve(input: i64, inputs: Recent) -> i64
    requires input { unsigned_abs input ≤ 2 ^ 50 }
    requires last_input { unsigned_abs inputs.last ≤ 2 ^ 50 }
    requires input_before { unsigned_abs inputs.before ≤ 2 ^ 50 }
    ensures value { result ≡ (input -ℤ inputs.last) -ℤ (inputs.last -ℤ inputs.before) }
    ensures small { unsigned_abs result ≤ 4 * 2 ^ 50 }
{
    change(
        change(input, inputs.last),
        change(inputs.last, inputs.before),
    )
}

/// The output that would come next in a straight line.
#[inline(always)]
fn straight(outputs: Recent) -> i64
    requires last_output { unsigned_abs outputs.last ≤ 2 ^ 50 }
    requires output_before { unsigned_abs outputs.before ≤ 2 ^ 50 }
    ensures value { result ≡ outputs.last +ℤ (outputs.last -ℤ outputs.before) }
    ensures small { unsigned_abs result ≤ 3 * 2 ^ 50 }
{
    added(outputs.last, change(outputs.last, outputs.before))
}

#[inline(always)]
fn added(whole: i64, units: i64) -> i64
    requires whole { unsigned_abs whole ≤ 7 * 2 ^ 50 }
    requires units { unsigned_abs units < 2 ^ 52 }
    ensures { result ≡ whole +ℤ units }
{
    whole + units
}

#[inline(always)]
fn change(new: i64, old: i64) -> i64
    requires new { unsigned_abs new ≤ 2 ^ 52 }
    requires old { unsigned_abs old ≤ 2 ^ 52 }
    ensures { result ≡ new -ℤ old }
{
    new - old
}

/// What the second section adds up beyond whole units, with half a unit.
#[inline(always)]
fn high_pass_rest(outputs: Recent) -> i128
    requires last_output { unsigned_abs outputs.last ≤ 2 ^ 50 }
    requires output_before { unsigned_abs outputs.before ≤ 2 ^ 50 }
    ensures value { result ≡ (neg_ℤ (pos 995254516602) *ℤ outputs.last)
        +ℤ ((pos 992774963379 *ℤ outputs.before) +ℤ pos (5 * 10 ^ 13)) }
    ensures small { unsigned_abs result < 2 ^ 98 }
{
    let before = sum(product(992_774_963_379, outputs.before), 50_000_000_000_000);
    sum(product(-995_254_516_602, outputs.last), before)
}

/// The five products of the first section, with half a unit.
///
/// What comes of the last output is added last, since the next sample waits for it.
#[inline(always)]
fn shelf_sum(input: i64, inputs: Recent, outputs: Recent) -> i128
    requires input { unsigned_abs input ≤ 2 ^ 39 }
    requires last_input { unsigned_abs inputs.last ≤ 2 ^ 39 }
    requires input_before { unsigned_abs inputs.before ≤ 2 ^ 39 }
    requires last_output { unsigned_abs outputs.last ≤ 2 ^ 50 }
    requires output_before { unsigned_abs outputs.before ≤ 2 ^ 50 }
    ensures value { result
        ≡ (shelf.b0 *ℤ input) +ℤ (shelf.b1 *ℤ inputs.last) +ℤ (shelf.b2 *ℤ inputs.before)
        +ℤ (neg_ℤ shelf.a2 *ℤ outputs.before +ℤ pos (5 * 10 ^ 13)) +ℤ (neg_ℤ shelf.a1 *ℤ outputs.last) }
    ensures small { unsigned_abs result < 2 ^ 98 }
{
    let early = sum(shelf_forward(input, inputs), shelf_before(outputs.before));
    sum(early, shelf_last(outputs.last))
}

/// What the last output adds.
#[inline(always)]
fn shelf_last(output: i64) -> i128
    requires { unsigned_abs output ≤ 2 ^ 50 }
    ensures value { result ≡ neg_ℤ shelf.a1 *ℤ output }
    ensures small { unsigned_abs result < 169065929318242 * 2 ^ 50 }
{
    product(169_065_929_318_241, output)
}

/// What the output before it adds, with half a unit.
#[inline(always)]
fn shelf_before(output: i64) -> i128
    requires { unsigned_abs output ≤ 2 ^ 50 }
    ensures value { result ≡ neg_ℤ shelf.a2 *ℤ output +ℤ pos (5 * 10 ^ 13) }
    ensures small { unsigned_abs result < 73248077421586 * 2 ^ 50 }
{
    sum(product(-73_248_077_421_585, output), 50_000_000_000_000)
}

/// What the three inputs add.
#[inline(always)]
fn shelf_forward(input: i64, inputs: Recent) -> i128
    requires input { unsigned_abs input ≤ 2 ^ 39 }
    requires last_input { unsigned_abs inputs.last ≤ 2 ^ 39 }
    requires input_before { unsigned_abs inputs.before ≤ 2 ^ 39 }
    ensures value { result
        ≡ (shelf.b0 *ℤ input) +ℤ (shelf.b1 *ℤ inputs.last) +ℤ (shelf.b2 *ℤ inputs.before) }
    ensures small { unsigned_abs result < 2 ^ 89 }
{
    let newest = product(153_512_485_958_697, input);
    let both = sum(newest, product(-269_169_618_940_638, inputs.last));
    sum(both, product(119_839_281_085_285, inputs.before))
}
