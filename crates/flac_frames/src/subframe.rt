//! A subframe: the samples of one channel (RFC 9639 section 9.2).
ghost use Rattle.std.specs.Prelude.{◌≡◌, ◌≤◌, ◌<◌, ◌+◌, ◌-◌, ◌^◌, ℕ, ℤ, Bool, pos, ◌*ℤ◌, List, length, map, take, replicate, All, Ok, IfOk, IsOkAnd, OnOk};
ghost use Rattle.bit_codec.specs.Reader.{left, source};
ghost use Rattle.lib_base.specs.Sounds.{IsSample};
ghost use Rattle.file_model.specs.declared.flac_rules.FlacRule.TheVariants.{OutOfRange};
ghost use Rattle.file_model.specs.Outcomes.{Gives, Finds};
ghost use Rattle.file_model.specs.Subframe.{fixed, linear, coding_of, order_of, Coded, subframe_head_at, predictor_at, content_at, subframe_at, IsSpelledBy, Channel};
ghost use Rattle.flac_frames.specs.Answers.{Comes};
ghost use Rattle.flac_frames.specs.declared.subframe.Predictor.TheVariants as by;
ghost use Rattle.flac_frames.specs.Subframes.{coding_as, HasRoom, weights_in, coded_by, AreWeights, IsReady, Restores, Spelled, head_with, head_with_some};

use crate::frame::GREATEST_BLOCK;
use crate::residual::{read_residuals, read_samples};
use crate::rules::holds;
use bit_codec::BitReader;
use file_model::FlacRule;
use flac_predict::{restore_fixed, restore_linear};

/// The weights that a linear predictor can have.
const MOST_WEIGHTS: usize = 32;

/// How a channel is coded; a predictor with its order.
#[derive(Clone, Copy)]
enum Coding {
    Constant,
    Verbatim,
    Fixed(usize),
    Linear(usize),
}

/// The head of a subframe.
#[derive(Clone, Copy)]
struct Head {
    coding: Coding,
    /// The bits that are 0 in each sample, and are not coded.
    wasted: u32,
}

/// A linear predictor.
#[derive(Clone, Copy)]
struct Weights {
    /// The first `order` are its weights.
    weights: [i32; MOST_WEIGHTS],
    order: usize,
    shift: u32,
}

/// How samples come of the numbers that are coded.
#[derive(Clone, Copy)]
enum Predictor {
    /// Each number is a sample.
    Plain,
    Fixed(usize),
    Linear(Weights),
}

/// Reads the samples of a channel of so many bits.
pub(crate) fn read_channel(
    reader: &mut BitReader,
    depth: u32,
    out: &mut [i32],
) -> Result<(), FlacRule>
    requires low { 1 ≤ depth }
    requires high { depth ≤ 25 }
    requires block { length out.old ≤ GREATEST_BLOCK }
    ensures comes { Comes (λ _. (out.new, left reader.new))
        (Channel (length out.old) depth (left reader.old)) result }
    ensures within { OnOk result (All (IsSample depth) out.new) }
    ensures later { OnOk result (length (left reader.new) ≤ length (left reader.old)) }
    ensures whole { source reader.new ≡ source reader.old }
{
    match read_head(reader, out.len(), depth) {
        Ok(head) => read_coded(reader, head.coding, head.wasted, depth, out),
        Err(rule) => Err(rule),
    }
}

/// Skips a channel of so many bits: its numbers are read into the cells, and no sample is restored.
pub(crate) fn skip_channel(
    reader: &mut BitReader,
    depth: u32,
    cells: &mut [i32],
) -> Result<(), FlacRule>
    requires low { 1 ≤ depth }
    requires high { depth ≤ 25 }
    requires block { length cells.old ≤ GREATEST_BLOCK }
    ensures { (coded : Coded) (rest : List Bool)
        → subframe_at (length cells.old) depth (left reader.old) ≡ Ok (coded, rest)
        → IsOkAnd result (λ _. left reader.new ≡ rest) }
{
    match read_head(reader, cells.len(), depth) {
        Ok(head) => skip_coded(reader, head.coding, head.wasted, depth, cells),
        Err(rule) => Err(rule),
    }
}

/// Skips a channel of so many bits, behind the head of its subframe.
fn skip_coded(
    reader: &mut BitReader,
    coding: Coding,
    wasted: u32,
    depth: u32,
    cells: &mut [i32],
) -> Result<(), FlacRule>
    requires wasted { wasted < depth }
    requires high { depth ≤ 25 }
    requires room { HasRoom (length cells.old) coding }
    requires block { length cells.old ≤ GREATEST_BLOCK }
    ensures { (coded : Coded) (rest : List Bool)
        → content_at (coding_as coding) (length cells.old) (depth - wasted) wasted
        (left reader.old) ≡ Ok (coded, rest) → IsOkAnd result (λ _. left reader.new ≡ rest) }
{
    match read_content(reader, coding, depth - wasted, cells) {
        Ok(_) => Ok(()),
        Err(rule) => Err(rule),
    }
}

/// Reads the samples of a channel of so many bits, behind the head of its subframe.
fn read_coded(
    reader: &mut BitReader,
    coding: Coding,
    wasted: u32,
    depth: u32,
    out: &mut [i32],
) -> Result<(), FlacRule>
    requires wasted { wasted < depth }
    requires high { depth ≤ 25 }
    requires room { HasRoom (length out.old) coding }
    requires block { length out.old ≤ GREATEST_BLOCK }
    ensures comes { let content = content_at (coding_as coding) (length out.old) (depth - wasted)
        wasted (left reader.old) in
        Comes (λ _. (out.new, left reader.new)) (Spelled depth content) result }
    ensures within { OnOk result (All (IsSample depth) out.new) }
    ensures later { OnOk result (length (left reader.new) ≤ length (left reader.old)) }
    ensures whole { source reader.new ≡ source reader.old }
{
    match read_content(reader, coding, depth - wasted, out) {
        Ok(predictor) => restore_all(&predictor, wasted, depth, out),
        Err(rule) => Err(rule),
    }
}

/// Restores the samples of a channel from the numbers that are coded for them.
fn restore_all(
    predictor: &Predictor,
    wasted: u32,
    depth: u32,
    out: &mut [i32],
) -> Result<(), FlacRule>
    requires wasted { wasted < depth }
    requires high { depth ≤ 25 }
    requires ready { IsReady (depth - wasted) predictor.now out.old }
    ensures comes { Comes (λ _. out.new)
        (Finds (IsSpelledBy depth (coded_by predictor.now out.old wasted)) OutOfRange) result }
    ensures within { OnOk result (All (IsSample depth) out.new) }
{
    match restore(predictor, depth - wasted, out) {
        Ok(()) => {
            shift_back(out, wasted, depth);
            Ok(())
        }
        Err(rule) => Err(rule),
    }
}

/// Reads how a block of so many samples of so many bits is coded.
#[tactic(auto, using(crate::proofs::Wholes::field_shorter), unfolding(file_model::specs::Subframe::subframe_head_at, crate::specs::Subframes::head_with))]
fn read_head(reader: &mut BitReader, block: usize, depth: u32) -> Result<Head, FlacRule>
    requires { 1 ≤ depth }
    ensures gives { Gives (λ head. ((coding_as head.coding, head.wasted), left reader.new)) result
        (subframe_head_at block depth (left reader.old)) }
    ensures room { IfOk result (λ head. HasRoom block head.coding) }
    ensures wasted { IfOk result (λ head. head.wasted < depth) }
    ensures later { OnOk result (length (left reader.new) ≤ length (left reader.old)) }
    ensures whole { source reader.new ≡ source reader.old }
{
    let first = reader.take(1)?;
    holds(first == 0, FlacRule::SubframeBit)?;
    let name = reader.take(6)?;
    let coding = coding_of(name)?;
    holds(order_of(coding) <= block, FlacRule::PredictorOrder)?;
    read_wasted(reader, coding, depth)
}

/// The way to code a channel that a type names.
fn coding_of(name: u32) -> Result<Coding, FlacRule>
    requires { name < 64 }
    ensures gives { Gives coding_as result (coding_of name) }
    ensures room { IfOk result (λ coding. (block : ℕ) → order_of (coding_as coding) ≤ block
        → HasRoom block coding) }
{
    let name = name as usize;
    match name {
        0 => Ok(Coding::Constant),
        1 => Ok(Coding::Verbatim),
        8..=12 => Ok(Coding::Fixed(name - 8)),
        32..=63 => Ok(Coding::Linear(name - 31)),
        _ => Err(FlacRule::ReservedSubframe),
    }
}

/// The samples of the warm-up.
fn order_of(coding: Coding) -> usize
    ensures { result ≡ order_of (coding_as coding) }
{
    match coding {
        Coding::Constant | Coding::Verbatim => 0,
        Coding::Fixed(order) | Coding::Linear(order) => order,
    }
}

/// Reads the number of wasted bits, fewer than a sample has.
fn read_wasted(reader: &mut BitReader, coding: Coding, depth: u32) -> Result<Head, FlacRule>
    requires { 1 ≤ depth }
    ensures gives { Gives (λ head. ((coding_as head.coding, head.wasted), left reader.new)) result
        (head_with depth (coding_as coding) (left reader.old)) }
    ensures coding { IfOk result (λ head. head.coding ≡ coding) }
    ensures wasted { IfOk result (λ head. head.wasted < depth) }
    ensures later { OnOk result (length (left reader.new) ≤ length (left reader.old)) }
    ensures whole { source reader.new ≡ source reader.old }
{
    match reader.take(1) {
        Ok(0) => Ok(Head { coding, wasted: 0 }),
        Ok(_) => read_some_wasted(reader, coding, depth),
        Err(fault) => Err(fault.into()),
    }
}

/// Reads the number of wasted bits where there are some: one more than a unary count.
fn read_some_wasted(reader: &mut BitReader, coding: Coding, depth: u32) -> Result<Head, FlacRule>
    requires { 1 ≤ depth }
    ensures gives { Gives (λ head. ((coding_as head.coding, head.wasted), left reader.new)) result
        (head_with_some depth (coding_as coding) (left reader.old)) }
    ensures coding { IfOk result (λ head. head.coding ≡ coding) }
    ensures wasted { IfOk result (λ head. head.wasted < depth) }
    ensures later { OnOk result (length (left reader.new) ≤ length (left reader.old)) }
    ensures whole { source reader.new ≡ source reader.old }
{
    match reader.unary() {
        Ok(less) if less >= u64::from(depth - 1) => Err(FlacRule::WastedBits),
        Ok(less) => Ok(Head {
            coding,
            wasted: less as u32 + 1,
        }),
        Err(fault) => Err(fault.into()),
    }
}

/// Reads the numbers that are coded for samples of so many bits.
#[tactic(auto, using(crate::proofs::Residuals::signed_shorter), unfolding(file_model::specs::Subframe::content_at))]
fn read_content(
    reader: &mut BitReader,
    coding: Coding,
    depth: u32,
    out: &mut [i32],
) -> Result<Predictor, FlacRule>
    requires low { 1 ≤ depth }
    requires high { depth ≤ 32 }
    requires room { HasRoom (length out.old) coding }
    requires block { length out.old ≤ GREATEST_BLOCK }
    ensures gives { (wasted : ℕ) → Gives
        (λ predictor. (coded_by predictor out.new wasted, left reader.new)) result
        (content_at (coding_as coding) (length out.old) depth wasted (left reader.old)) }
    ensures ready { IfOk result (λ predictor. IsReady depth predictor out.new) }
    ensures later { OnOk result (length (left reader.new) ≤ length (left reader.old)) }
    ensures whole { source reader.new ≡ source reader.old }
{
    match coding {
        Coding::Constant => {
            let sample = reader.signed(depth)?;
            fill(out, sample);
            Ok(Predictor::Plain)
        }
        Coding::Verbatim => {
            read_samples(reader, depth, out)?;
            Ok(Predictor::Plain)
        }
        Coding::Fixed(order) => {
            read_fixed(reader, order, depth, out)?;
            Ok(Predictor::Fixed(order))
        }
        Coding::Linear(order) => Ok(Predictor::Linear(read_linear(reader, order, depth, out)?)),
    }
}

/// Makes each sample the same.
fn fill(out: &mut [i32], sample: i32)
    ensures { out.new ≡ replicate (length out.old) sample }
{
    out.fill(sample);
}

/// Reads the warm-up and the residuals of a fixed predictor.
#[tactic(auto, unfolding(file_model::specs::Subframe::content_at))]
fn read_fixed(
    reader: &mut BitReader,
    order: usize,
    depth: u32,
    out: &mut [i32],
) -> Result<(), FlacRule>
    requires high { depth ≤ 32 }
    requires room { order ≤ length out.old }
    requires block { length out.old ≤ GREATEST_BLOCK }
    ensures gives { (wasted : ℕ) → Gives
        (λ _. (coded_by (by.Fixed order) out.new wasted, left reader.new)) result
        (content_at (fixed order) (length out.old) depth wasted (left reader.old)) }
    ensures warm_up { OnOk result (All (IsSample depth) (take order out.new)) }
    ensures later { OnOk result (length (left reader.new) ≤ length (left reader.old)) }
    ensures whole { source reader.new ≡ source reader.old }
{
    let (warm_up, residuals) = out.split_at_mut(order);
    read_samples(reader, depth, warm_up)?;
    read_residuals(reader, order, residuals)
}

/// Reads a linear predictor, its warm-up and its residuals.
#[tactic(auto, unfolding(file_model::specs::Subframe::content_at))]
fn read_linear(
    reader: &mut BitReader,
    order: usize,
    depth: u32,
    out: &mut [i32],
) -> Result<Weights, FlacRule>
    requires high { depth ≤ 32 }
    requires some { 1 ≤ order }
    requires few { order ≤ 32 }
    requires room { order ≤ length out.old }
    requires block { length out.old ≤ GREATEST_BLOCK }
    ensures gives { (wasted : ℕ) → Gives
        (λ linear. (coded_by (by.Linear linear) out.new wasted, left reader.new)) result
        (content_at (linear order) (length out.old) depth wasted (left reader.old)) }
    ensures order { IfOk result (λ linear. linear.order ≡ order) }
    ensures weights { IfOk result AreWeights }
    ensures warm_up { OnOk result (All (IsSample depth) (take order out.new)) }
    ensures later { OnOk result (length (left reader.new) ≤ length (left reader.old)) }
    ensures whole { source reader.new ≡ source reader.old }
{
    let (warm_up, residuals) = out.split_at_mut(order);
    read_samples(reader, depth, warm_up)?;
    let linear = read_predictor(reader, order)?;
    read_residuals(reader, order, residuals)?;
    Ok(linear)
}

/// Reads the shift and so many weights.
#[tactic(auto, using(crate::proofs::Wholes::field_shorter, crate::proofs::Residuals::signed_shorter), unfolding(file_model::specs::Subframe::predictor_at))]
fn read_predictor(reader: &mut BitReader, order: usize) -> Result<Weights, FlacRule>
    requires some { 1 ≤ order }
    requires few { order ≤ 32 }
    ensures gives { Gives (λ linear. ((linear.shift, weights_in linear), left reader.new)) result
        (predictor_at order (left reader.old)) }
    ensures order { IfOk result (λ linear. linear.order ≡ order) }
    ensures later { OnOk result (length (left reader.new) ≤ length (left reader.old)) }
    ensures whole { source reader.new ≡ source reader.old }
{
    let precision = reader.take(4)?;
    holds(precision != 15, FlacRule::ForbiddenPrecision)?;
    let shift = reader.signed(5)?;
    holds(shift >= 0, FlacRule::NegativeShift)?;
    let mut weights = [0; MOST_WEIGHTS];
    read_samples(reader, precision + 1, weights.split_at_mut(order).0)?;
    Ok(Weights {
        weights,
        order,
        shift: shift as u32,
    })
}

/// Restores samples within the depth from the numbers that are coded for them.
fn restore(predictor: &Predictor, depth: u32, out: &mut [i32]) -> Result<(), FlacRule>
    requires low { 1 ≤ depth }
    requires high { depth ≤ 25 }
    requires ready { IsReady depth predictor.now out.old }
    ensures { Comes (λ _. out.new) (Restores predictor.now depth out.old) result }
{
    match predictor {
        Predictor::Plain => Ok(()),
        Predictor::Fixed(order) => {
            restore_fixed(*order, out, depth).map_err(|_| FlacRule::OutOfRange)
        },
        Predictor::Linear(linear) => {
            let weights = linear.weights.split_at(linear.order).0;
            restore_linear(weights, linear.shift, out, depth).map_err(|_| FlacRule::OutOfRange)
        }
    }
}

/// Puts the wasted bits behind samples whose depth counted without them.
fn shift_back(out: &mut [i32], wasted: u32, depth: u32)
    requires wasted { wasted < depth }
    requires depth { depth ≤ 25 }
    requires within { All (IsSample (depth - wasted)) out.old }
    ensures shifted { out.new ≡ map (λ s. s *ℤ pos (2 ^ wasted)) out.old }
    ensures within { All (IsSample depth) out.new }
{
    if wasted == 0 {
        return;
    }
    for place in 0..out.len() {
        out[place] = shifted(out[place], wasted, depth);
    }
}

/// A sample with so many bits of 0 behind it.
#[inline(always)]
fn shifted(sample: i32, wasted: u32, depth: u32) -> i32
    requires wasted { wasted < depth }
    requires depth { depth ≤ 25 }
    requires within { IsSample (depth - wasted) sample }
    ensures value { result ≡ sample *ℤ pos (2 ^ wasted) }
    ensures within { IsSample depth result }
{
    narrowed(product(sample, power(wasted)), depth)
}

/// A power of 2.
#[inline(always)]
fn power(wasted: u32) -> u32
    requires { wasted ≤ 24 }
    ensures value { result ≡ 2 ^ wasted }
    ensures small { result ≤ 2 ^ 24 }
{
    1 << wasted
}

/// A sample by a factor.
#[inline(always)]
fn product(sample: i32, factor: u32) -> i64
    requires sample { IsSample 25 sample }
    requires factor { factor ≤ 2 ^ 24 }
    ensures { result ≡ sample *ℤ pos factor }
{
    i64::from(sample) * i64::from(factor)
}

/// A value that is a sample.
#[inline(always)]
fn narrowed(value: i64, depth: u32) -> i32
    requires depth { depth ≤ 25 }
    requires within { IsSample depth value }
    ensures { result ≡ value }
{
    value as i32
}
