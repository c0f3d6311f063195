//! The samples before a place, and the sizes at it.
ghost use Rattle.std.specs.Prelude.{◌≡◌, ◌≤◌, ◌<◌, ◌+◌, ◌-◌, ◌*◌, ◌^◌, ℕ, ℤ, pos, ◌*ℤ◌, List, [], ◌∷◌, length, take, replicate, All, unsigned_abs, nat_le, IsTrue};
ghost use Rattle.std.specs.List.{list_all};
ghost use Rattle.true_peak.specs.Windows.{dot, size_after};

/// The taps of the first two phases, in 8192ths; those of the other two are the same backwards.
const FIRST_PHASE: [i64; 12] = [
    14, 90, -161, 272, -487, 1125, 7964, -838, 390, -218, 122, -68,
];

const SECOND_PHASE: [i64; 12] = [
    -239, 240, -424, 730, -1364, 3810, 6388, -1641, 832, -477, 271, -155,
];

const THIRD_PHASE: [i64; 12] = [
    -155, 271, -477, 832, -1641, 6388, 3810, -1364, 730, -424, 240, -239,
];

const FOURTH_PHASE: [i64; 12] = [
    -68, 122, -218, 390, -838, 7964, 1125, -487, 272, -161, 90, 14,
];

/// The eleven samples before a place, the newest first, scaled to 24 bits.
#[derive(Clone, Copy, Debug)]
pub struct History {
    pub before: [i64; 11],
    ghost within: { All (λ v. unsigned_abs v ≤ 2 ^ 23) before },
}

impl History {
    /// What is before the first place.
    pub fn silent() -> History
        ensures { result.before ≡ replicate 11 (pos 0) }
    {
        History { before: [0; 11] }
    }

    /// What is before the next place.
    #[inline(always)]
    pub fn after(self, value: i64) -> History
        requires { unsigned_abs value ≤ 2 ^ 23 }
        ensures { result.before ≡ value ∷ take 10 self.before }
    {
        let [a, b, c, d, e, f, g, h, i, j, _] = self.before;
        History {
            before: [value, a, b, c, d, e, f, g, h, i, j],
        }
    }

    /// The greatest size at a place: of the four phases' values, and of the sample itself.
    #[inline(always)]
    pub fn size(self, value: i64) -> u64
        requires { unsigned_abs value ≤ 2 ^ 23 }
        ensures { result ≡ size_after value self.before }
    {
        let window = self.window(value);
        let outer = phase_size(&FIRST_PHASE, &window).max(phase_size(&SECOND_PHASE, &window));
        let inner = phase_size(&THIRD_PHASE, &window).max(phase_size(&FOURTH_PHASE, &window));
        (8192 * value.unsigned_abs()).max(outer.max(inner))
    }

    /// The sample at a place, and those before it.
    #[inline(always)]
    fn window(self, value: i64) -> [i64; 12]
        requires { unsigned_abs value ≤ 2 ^ 23 }
        ensures window { result ≡ value ∷ self.before }
        ensures within { All (λ v. unsigned_abs v ≤ 2 ^ 23) result }
    {
        let [a, b, c, d, e, f, g, h, i, j, k] = self.before;
        [value, a, b, c, d, e, f, g, h, i, j, k]
    }
}

/// The size of a phase's value.
#[inline(always)]
fn phase_size(taps: &[i64; 12], window: &[i64; 12]) -> u64
    requires taps { IsTrue (list_all (λ t. nat_le (unsigned_abs t) (2 ^ 13)) taps.now) }
    requires window { All (λ v. unsigned_abs v ≤ 2 ^ 23) window.now }
    ensures { result ≡ unsigned_abs (dot taps.now window.now) }
{
    let mut total = 0i64;
    for k in 0..12 {
        total += product(taps[k], window[k]);
    }
    total.unsigned_abs()
}

/// A sample by a tap.
#[inline(always)]
fn product(tap: i64, value: i64) -> i64
    requires tap { unsigned_abs tap ≤ 2 ^ 13 }
    requires value { unsigned_abs value ≤ 2 ^ 23 }
    ensures value { result ≡ tap *ℤ value }
    ensures small { unsigned_abs result ≤ 2 ^ 36 }
{
    tap * value
}
