//! Energies as the bytes of a row.
ghost use Rattle.std.specs.Prelude.{◌≡◌, ◌≢◌, ◌↔◌, ◌%◌, length, map, IfOk, IsErrOf, OnOk, OnErr};
ghost use Rattle.keeper_store.specs.EnergyBytes.{row_bytes, spelled, energies_in, AreEnergies, HasTooGreat};

use lib_base::{Bytes, Energies, GREATEST_ENERGY, Memory};
use std::alloc::{AllocError, Global};

/// Why the bytes of a row give no energies.
#[derive(Clone, Copy, Debug, PartialEq, Eq)]
pub enum RowFault {
    /// Their count is no multiple of 11.
    Length,
    /// One of the numbers is greater than an energy may be.
    TooGreat,
    /// Want of memory.
    Memory,
}

/// The energies that the bytes of a row hold, 11 bytes each, the highest first.
pub fn energies_of(alloc: Global, bytes: &[u8]) -> Result<Energies, RowFault>
    ensures energies { IfOk result (λ energies. energies ≡ energies_in bytes.now) }
    ensures within { IfOk result (λ energies. AreEnergies energies) }
    ensures length { IsErrOf result RowFault.Length ↔ (length bytes.now % 11 ≢ 0) }
    ensures too_great { IsErrOf result RowFault.TooGreat
        ↔ ((length bytes.now % 11 ≡ 0) × HasTooGreat (energies_in bytes.now)) }
{
    let (pieces, rest) = bytes.as_chunks::<11>();
    if !rest.is_empty() {
        return Err(RowFault::Length);
    }
    if let Err(fault) = check_energies(pieces) {
        return Err(fault);
    }
    match pieces.iter().map(|piece| spelled(*piece)).collect(alloc) {
        Ok(energies) => Ok(Energies::of(energies)),
        Err(AllocError) => Err(RowFault::Memory),
    }
}

/// Refuses pieces of which one spells a number that is greater than an energy may be.
fn check_energies(pieces: &[[u8; 11]]) -> Result<(), RowFault>
    ensures ok { OnOk result (AreEnergies (map spelled pieces.now)) }
    ensures err { OnErr result (HasTooGreat (map spelled pieces.now)) }
    ensures fault { OnErr result (result ≡ Err RowFault.TooGreat) }
{
    if pieces.iter().any(|piece| spelled(*piece) > GREATEST_ENERGY) {
        return Err(RowFault::TooGreat);
    }
    Ok(())
}

/// The bytes of a row of energies, 11 bytes each, the highest first.
pub fn bytes_of(alloc: Global, energies: &[u128]) -> Result<Bytes, Memory>
    requires { AreEnergies energies.now }
    ensures bytes { IfOk result (λ bytes. bytes ≡ row_bytes energies.now) }
    ensures whole { IfOk result (λ bytes. length bytes % 11 ≡ 0) }
    ensures read_back { IfOk result (λ bytes. energies_in bytes ≡ energies.now) }
{
    let mut bytes = Vec::new(alloc);
    for energy in energies {
        bytes.extend_from_slice(energy.to_be_bytes().split_at(5).1)?;
    }
    Ok(Bytes::of(bytes))
}

/// The number that 11 bytes spell, the highest first.
fn spelled(bytes: [u8; 11]) -> u128
    ensures { result ≡ spelled bytes }
{
    let [a, b, c, d, e, f, g, h, i, j, k] = bytes;
    u128::from_be_bytes([0, 0, 0, 0, 0, a, b, c, d, e, f, g, h, i, j, k])
}
