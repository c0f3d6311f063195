//! Rice values and checks.
ghost use Rattle.std.specs.Prelude.{◌≤◌};

use crate::noise::noise;
use anyhow::{Result, bail};
use bit_codec::{BitFault, BitReader, crc16};
use std::alloc::{AllocError, Global};

/// How many bytes a round has.
const BYTES: usize = 65_536;

/// Reads Rice values from noise so many times. Half of the values have a quotient of 0, a quarter
/// one of 1, and so on.
pub fn rice(alloc: Global, low: u32, values: u32, rounds: u32) -> Result<u64>
    requires { low ≤ 30 }
{
    let bytes = noise_bytes(alloc)?;
    let mut checksum = 0;
    'rounds: for _ in 0..rounds {
        checksum = match rice_round(bytes.as_slice(), low, values) {
            Ok(checksum) => checksum,
            Err(_) => bail!("the bits end"),
        };
    }
    Ok(checksum)
}

fn rice_round(bytes: &[u8], low: u32, values: u32) -> Result<u64, BitFault>
    requires { low ≤ 30 }
{
    let mut reader = BitReader::at(bytes, 0);
    let mut checksum = 0u64;
    'values: for _ in 0..values {
        let value = match reader.rice(low) {
            Ok(value) => value,
            Err(fault) => return Err(fault),
        };
        checksum = checksum.wrapping_mul(31).wrapping_add(value);
    }
    Ok(checksum)
}

/// Checks noise so many times.
pub fn frame_check(alloc: Global, rounds: u32) -> Result<u64> {
    let bytes = noise_bytes(alloc)?;
    let mut check = 0;
    'rounds: for _ in 0..rounds {
        check = crc16(bytes.as_slice());
    }
    Ok(u64::from(check))
}

/// The upper bytes of a round of numbers.
fn noise_bytes(alloc: Global) -> Result<Vec<u8>, AllocError> {
    let mut bytes = Vec::new(alloc);
    let numbers = noise(alloc, BYTES)?;
    for number in numbers.as_slice() {
        let [_, high, _, _] = number.to_le_bytes();
        bytes.push(high)?;
    }
    Ok(bytes)
}
