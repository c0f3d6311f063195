//! Samples as they are, and residuals (RFC 9639 sections 9.2.3 and 9.2.7).
ghost use Rattle.std.specs.Prelude.{◌≡◌, ◌≤◌, ◌<◌, ◌+◌, ◌-◌, ◌*◌, ◌^◌, List, length, take, OnOk};
ghost use Rattle.bit_codec.specs.Reader.{left, source};
ghost use Rattle.lib_base.specs.Sounds.{part};
ghost use Rattle.file_model.specs.Outcomes.{Gives, times_at};
ghost use Rattle.file_model.specs.Subframe.{unfolded, residual_at, partition_at, partitions_at, residuals_at, samples_at};

use crate::frame::GREATEST_BLOCK;
use crate::rules::holds;
use bit_codec::BitReader;
use file_model::FlacRule;

/// Reads samples of so many bits, as they are.
pub(crate) fn read_samples(
    reader: &mut BitReader,
    depth: u32,
    out: &mut [i32],
) -> Result<(), FlacRule>
    requires { depth ≤ 32 }
    ensures gives { Gives (λ _. (out.new, left reader.new)) result
        (samples_at depth (length out.old) (left reader.old)) }
    ensures later { OnOk result (length (left reader.new) ≤ length (left reader.old)) }
    ensures whole { source reader.new ≡ source reader.old }
{
    for place in 0..out.len() {
        match reader.signed(depth) {
            Ok(sample) => out[place] = sample,
            Err(fault) => return Err(fault.into()),
        }
    }
    Ok(())
}

/// Reads the residuals behind a warm-up of so many samples: equal parts of the block, of which the
/// first is shorter by the warm-up.
#[tactic(auto, using(crate::proofs::Wholes::field_shorter), unfolding(file_model::specs::Subframe::residuals_at))]
pub(crate) fn read_residuals(
    reader: &mut BitReader,
    warm_up: usize,
    out: &mut [i32],
) -> Result<(), FlacRule>
    requires { warm_up + length out.old ≤ GREATEST_BLOCK }
    ensures gives { Gives (λ _. (out.new, left reader.new)) result
        (residuals_at (warm_up + length out.old) warm_up (left reader.old)) }
    ensures later { OnOk result (length (left reader.new) ≤ length (left reader.old)) }
    ensures whole { source reader.new ≡ source reader.old }
{
    let block = warm_up + out.len();
    let method = reader.take(2)?;
    holds(method < 2, FlacRule::OtherPartitions)?;
    let power = reader.take(4)?;
    let partitions = 1usize << power;
    let size = block / partitions;
    holds(
        block % partitions == 0 && warm_up <= size,
        FlacRule::OtherPartitions,
    )?;
    let (first, others) = out.split_at_mut(size - warm_up);
    read_partition(reader, 4 + method, first)?;
    read_partitions(reader, 4 + method, size, partitions - 1, others)
}

/// Reads so many partitions, each of that many residuals.
fn read_partitions(
    reader: &mut BitReader,
    parameter_bits: u32,
    size: usize,
    many: usize,
    out: &mut [i32],
) -> Result<(), FlacRule>
    requires some { 4 ≤ parameter_bits }
    requires few { parameter_bits ≤ 5 }
    requires filled { length out.old ≡ many * size }
    requires block { length out.old ≤ GREATEST_BLOCK }
    ensures gives { Gives (λ _. (out.new, left reader.new)) result
        (partitions_at parameter_bits size many (left reader.old)) }
    ensures later { OnOk result (length (left reader.new) ≤ length (left reader.old)) }
    ensures whole { source reader.new ≡ source reader.old }
{
    for index in 0..many {
        match read_partition_at(reader, parameter_bits, index * size, size, out) {
            Ok(()) => {}
            Err(rule) => return Err(rule),
        }
    }
    Ok(())
}

/// Reads a partition of so many residuals to a place.
#[tactic(auto, using(crate::proofs::Residuals::behind_given))]
fn read_partition_at(
    reader: &mut BitReader,
    parameter_bits: u32,
    place: usize,
    size: usize,
    out: &mut [i32],
) -> Result<(), FlacRule>
    requires some { 4 ≤ parameter_bits }
    requires few { parameter_bits ≤ 5 }
    requires inside { place + size ≤ length out.old }
    ensures gives { Gives (λ _. (part out.new place size, left reader.new)) result
        (partition_at parameter_bits size (left reader.old)) }
    ensures before { take place out.new ≡ take place out.old }
    ensures later { OnOk result (length (left reader.new) ≤ length (left reader.old)) }
    ensures whole { source reader.new ≡ source reader.old }
{
    let (_, behind) = out.split_at_mut(place);
    match read_first_partition(reader, parameter_bits, size, behind) {
        Ok(()) => Ok(()),
        Err(rule) => Err(rule),
    }
}

/// Reads a partition of so many residuals to the start.
#[tactic(auto, using(crate::proofs::Residuals::front_given))]
fn read_first_partition(
    reader: &mut BitReader,
    parameter_bits: u32,
    size: usize,
    out: &mut [i32],
) -> Result<(), FlacRule>
    requires some { 4 ≤ parameter_bits }
    requires few { parameter_bits ≤ 5 }
    requires inside { size ≤ length out.old }
    ensures gives { Gives (λ _. (take size out.new, left reader.new)) result
        (partition_at parameter_bits size (left reader.old)) }
    ensures later { OnOk result (length (left reader.new) ≤ length (left reader.old)) }
    ensures whole { source reader.new ≡ source reader.old }
{
    let (partition, _) = out.split_at_mut(size);
    match read_partition(reader, parameter_bits, partition) {
        Ok(()) => Ok(()),
        Err(rule) => Err(rule),
    }
}

/// Reads a partition, whose parameter has so many bits.
#[tactic(auto, using(crate::proofs::Wholes::field_shorter), unfolding(file_model::specs::Subframe::partition_at))]
fn read_partition(
    reader: &mut BitReader,
    parameter_bits: u32,
    out: &mut [i32],
) -> Result<(), FlacRule>
    requires some { 4 ≤ parameter_bits }
    requires few { parameter_bits ≤ 5 }
    ensures gives { Gives (λ _. (out.new, left reader.new)) result
        (partition_at parameter_bits (length out.old) (left reader.old)) }
    ensures later { OnOk result (length (left reader.new) ≤ length (left reader.old)) }
    ensures whole { source reader.new ≡ source reader.old }
{
    let parameter = reader.take(parameter_bits)?;
    if parameter == (1 << parameter_bits) - 1 {
        let width = reader.take(5)?;
        read_samples(reader, width, out)
    } else {
        read_rice_coded(reader, parameter, out)
    }
}

/// Reads residuals in Rice code.
fn read_rice_coded(reader: &mut BitReader, low: u32, out: &mut [i32]) -> Result<(), FlacRule>
    requires { low ≤ 30 }
    ensures gives { Gives (λ _. (out.new, left reader.new)) result
        (times_at (residual_at low) (length out.old) (left reader.old)) }
    ensures later { OnOk result (length (left reader.new) ≤ length (left reader.old)) }
    ensures whole { source reader.new ≡ source reader.old }
{
    for place in 0..out.len() {
        match read_residual(reader, low) {
            Ok(residual) => out[place] = residual,
            Err(rule) => return Err(rule),
        }
    }
    Ok(())
}

/// Reads a residual in Rice code with so many low bits.
#[inline(always)]
fn read_residual(reader: &mut BitReader, low: u32) -> Result<i32, FlacRule>
    requires { low ≤ 30 }
    ensures gives { Gives (λ residual. (residual, left reader.new)) result
        (residual_at low (left reader.old)) }
    ensures later { OnOk result (length (left reader.new) ≤ length (left reader.old)) }
    ensures whole { source reader.new ≡ source reader.old }
{
    match reader.rice(low) {
        // the least number that is out of range is odd, and stands for -2^31
        Ok(folded) if folded >= u64::from(u32::MAX) => Err(FlacRule::OutOfRange),
        Ok(folded) => Ok(unfolded(folded as u32)),
        Err(fault) => Err(fault.into()),
    }
}

/// The number that was folded into one with no sign.
#[inline(always)]
fn unfolded(folded: u32) -> i32
    requires { folded < 2 ^ 32 - 1 }
    ensures { result ≡ unfolded folded }
{
    let half = (folded / 2) as i32;
    if folded % 2 == 0 { half } else { -1 - half }
}
