//! How far pointers move.

ghost use Rattle.std.specs.Prelude.{◌≡◌, true, length};
ghost use Rattle.vg_loop_laws.specs.Inputs.{StayNear};
ghost use Rattle.vg_loop_laws.specs.Loops.{turns_asked};
ghost use Rattle.vg_loops.specs.Near.{stay_near};

/// How many turns the arguments ask for, where the parameter of this number among the integers says
/// it; 0 where it is missing. Takes no memory.
pub fn turns_asked(times: u32, args: &[u64]) -> u64
    ensures { result ≡ turns_asked times args.now }
{
    match args.get(times as usize) {
        Some(count) => *count,
        None => 0,
    }
}

/// Whether there is a place for each step, below 2^64 after so many turns too.
fn stays(steps: &[u32], turns: u64, places: &[u64]) -> bool
    ensures { result ≡ stay_near steps.now turns places.now }
{
    match steps {
        [] => match places {
            [] => true,
            [_, ..] => false,
        },
        [step, behind @ ..] => match places {
            [] => false,
            [place, others @ ..] => {
                let moved = *place as u128 + turns as u128 * *step as u128;
                moved <= u64::MAX as u128 && stays(behind, turns, others)
            }
        },
    }
}

/// Whether there are as many places as steps, and each place is below 2^64, as a run asks, after so
/// many turns too: with so many times its step, which is 0 for a pointer that stands still. Takes
/// no memory.
pub fn stay_near(steps: &[u32], turns: u64, places: &[u64]) -> bool
    ensures exact { result ≡ stay_near steps.now turns places.now }
    ensures near { result ≡ true → StayNear steps.now turns places.now }
    ensures long { result ≡ true → length places.now ≡ length steps.now }
{
    stays(steps, turns, places)
}
