//! Where the pointers of a trial point.

ghost use Rattle.std.specs.Prelude.{◌≡◌, ◌<◌, ◌^◌, All};
ghost use Rattle.vg_trial.specs.TrialKernel.{places};

/// The places of `d`, `p` and `q` in the memory of the trial of this number, in bytes from its
/// start: 0, and at most 640 and 1920.
pub fn trial_places(number: u32) -> [u64; 3]
    ensures value { result ≡ places number }
    ensures near { All (λ place. place < 2 ^ 64) (places number) }
{
    let groups = u64::from(1 + number % 40);
    [0, 16 * groups, 48 * groups]
}
