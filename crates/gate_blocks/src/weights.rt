//! Channels added by their weights.
ghost use Rattle.std.specs.Prelude.{◌≡◌, ◌≤◌, ◌<◌, ◌+◌, ◌*◌, length, slice_index, EachIndex};
ghost use Rattle.lib_base.specs.declared.limits.TheConstants.{GREATEST_ENERGY, MOST_CHANNELS};
ghost use Rattle.sound_model.specs.Segments.{weights};

/// The weight of a channel, in hundredths: none for low frequencies, 1.41 for a channel at the back
/// (BS.1770-4 Annex 1 table 3). The channels stand in their order in a file: left, right, center,
/// low frequencies, and those at the back last.
pub fn weight(channels: usize, channel: usize) -> u128
    requires some { 1 ≤ channels }
    requires six { channels ≤ MOST_CHANNELS }
    requires channel { channel < channels }
    ensures { result ≡ slice_index (weights channels) channel }
{
    match (channels, channel) {
        (6, 3) => 0,
        (4, 2..=3) | (5, 3..=4) | (6, 4..=5) => 141,
        _ => 100,
    }
}

/// Adds the energies of one channel, each times the weight.
pub fn add_weighted(total: &mut [u128], one: &[u128], weight: u128)
    requires lengths { length total.old ≡ length one.now }
    requires within { EachIndex total.old (λ j.
        slice_index total.old j + weight * slice_index one.now j ≤ GREATEST_ENERGY) }
    ensures sums { EachIndex total.old (λ j.
        slice_index total.new j ≡ slice_index total.old j + weight * slice_index one.now j) }
{
    for (place, energy) in one.iter().enumerate() {
        total[place] += weight * *energy;
    }
}
