//! Where a register lies.

ghost use Rattle.std.specs.Prelude.{◌≡◌, ℕ, ◌+◌, ◌^◌, ◌<◌, ◌≤◌, List, [], length, get_or};
ghost use Rattle.vg_bits.specs.Range.{range};
ghost use Rattle.vg_pmean.specs.Extent.{IsLaid, bits_at, place_in, registers_in, total, widths_of};

/// Where a register lies in the bits of a frame.
#[derive(Clone, Copy, Drop)]
pub(crate) struct Extent {
    pub(crate) start: usize,
    pub(crate) width: usize,
}

impl Extent {
    /// Where so many bits from a bit on lie, but those past the end.
    pub(crate) fn part(self, low: u128, width: u128) -> Extent
        requires { self.start + self.width < 2 ^ 64 }
        ensures within { result.start + result.width ≤ self.start + self.width }
        ensures most { result.width ≤ width }
        ensures is { (l : List ℕ) → self.start + self.width ≤ length l →
            bits_at l result ≡ range low width (bits_at l self) }
    {
        let skipped = low.min(self.width as u128) as usize;
        let left = self.width - skipped;
        Extent {
            start: self.start + skipped,
            width: width.min(left as u128) as usize,
        }
    }
}

/// Where the register of this number lies. One that is not there has no bits.
pub(crate) fn place_of(places: &[Extent], register: usize) -> Extent
    ensures { result ≡ place_in places.now register }
{
    match places.get(register) {
        Some(place) => *place,
        None => Extent { start: 0, width: 0 },
    }
}

/// Where so many bits of a register from a bit on lie, which have to be inside.
pub(crate) fn target(places: &[Extent], register: usize, low: u128, width: u128) -> Extent
    requires laid { IsLaid 0 places.now }
    requires small { total (widths_of places.now) < 2 ^ 64 }
    requires inside { low + width ≤ (place_in places.now register).width }
    ensures is { result ≡
        record { start = (place_in places.now register).start + low; width = width } }
    ensures within { result.start + result.width ≤ total (widths_of places.now) }
{
    let place = place_of(places, register);
    Extent {
        start: place.start + low as usize,
        width: width as usize,
    }
}

/// Where so many bits of a register from a bit on lie, but those past its end.
pub(crate) fn source(places: &[Extent], register: usize, low: u128, width: u128) -> Extent
    requires laid { IsLaid 0 places.now }
    requires small { total (widths_of places.now) < 2 ^ 64 }
    ensures within { result.start + result.width ≤ total (widths_of places.now) }
    ensures most { result.width ≤ width }
    ensures is { (l : List ℕ) → total (widths_of places.now) ≤ length l →
        bits_at l result ≡ range low width (get_or (registers_in l places.now) register []) }
{
    place_of(places, register).part(low, width)
}
