//! Energies as the bytes of a row, tested where they lie.
ghost use Rattle.std.specs.Prelude.{◌≡◌, nat_le};
ghost use Rattle.std.specs.List.{list_all};
ghost use Rattle.keeper_store.specs.EnergyBytes.{spelled};
ghost use Rattle.library_model.specs.RowRules.{are_energies_of};

use lib_base::{GREATEST_ENERGY, SEGMENT_FRAMES};

/// Whether the bytes are energies, 11 bytes each and none too great, of as many segments as the
/// frames make.
#[tactic(auto, using(crate::proofs::EnergyTests::all_spelled))]
pub(crate) fn are_energies_of(frames: u64, bytes: &[u8]) -> bool
    ensures { result ≡ are_energies_of frames bytes.now }
{
    let (pieces, rest) = bytes.as_chunks::<11>();
    if !rest.is_empty() {
        return false;
    }
    if !are_energies(pieces) {
        return false;
    }
    pieces.len() as u64 == frames / SEGMENT_FRAMES as u64
}

fn are_energies(pieces: &[[u8; 11]]) -> bool
    ensures { result ≡ list_all (λ piece. nat_le (spelled piece) GREATEST_ENERGY) pieces.now }
{
    pieces
        .iter()
        .all(|piece| spelled(*piece) <= GREATEST_ENERGY)
}

/// The number that 11 bytes spell, the highest first.
fn spelled(bytes: [u8; 11]) -> u128
    ensures { result ≡ spelled bytes }
{
    let [a, b, c, d, e, f, g, h, i, j, k] = bytes;
    u128::from_be_bytes([0, 0, 0, 0, 0, a, b, c, d, e, f, g, h, i, j, k])
}
