//! Numbers as bytes, the lowest first.

ghost use Rattle.std.specs.Prelude.{◌≡◌, ◌≤◌, ◌<◌, ◌^◌, length};
ghost use Rattle.vg_base.specs.Bits.{number, bytes};

/// The number of at most eight bytes.
#[tactic(auto, unfolding(vg_base::specs::Bits::number))]
pub(crate) fn number(from: &[u8]) -> u64
    requires { length from.now ≤ 8 }
    ensures value { result ≡ number from.now }
    ensures below { result < 256 ^ length from.now }
{
    match from {
        [] => 0,
        [first, others @ ..] => *first as u64 + 256 * number(others),
    }
}

/// Writes the lowest bytes of a number, as many as there is room for, and 0 for those above the
/// eighth.
#[tactic(auto, unfolding(vg_base::specs::Bits::bytes))]
pub(crate) fn write_number(to: &mut [u8], number: u64)
    ensures { to.new ≡ bytes (length to.old) number }
{
    let mut rest = number;
    'bytes: for byte in to.iter_mut() {
        *byte = (rest % 256) as u8;
        rest /= 256;
    }
}
