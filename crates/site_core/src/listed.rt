// Calls that fail by a list of their numbers.
ghost use Rattle.std.specs.Prelude.{◌≡◌, ◌⊎◌, ◌↔◌, ◌+◌, ◌-◌, ◌^◌, ◌≤◌, min, Contains, IsTrue, MatchBool};
ghost use Rattle.site_core.specs.Counts.{Rose};

pub(crate) fn is_listed(numbers: &[usize], number: u64) -> bool
    ensures { IsTrue result ↔ Contains numbers.now number }
{
    numbers.iter().any(|listed| *listed as u64 == number)
}

// Counts a call, and says whether it fails: since its number is listed, or since no more calls can be counted.
pub(crate) fn fails_by_list(numbers: &[usize], calls: &mut u64, faults: &mut u64) -> bool
    ensures exactly { IsTrue result ↔ (Contains numbers.now (calls.old + 1) ⊎ (calls.old ≡ 2 ^ 64 - 1)) }
    ensures calls { calls.new ≡ min (calls.old + 1) (2 ^ 64 - 1) }
    ensures faults { MatchBool result (Rose faults.old faults.new × (faults.old ≤ faults.new)) (faults.new ≡ faults.old) }
{
    let fails = *calls == u64::MAX || is_listed(numbers, *calls + 1);
    *calls = calls.saturating_add(1);
    if fails {
        *faults = faults.saturating_add(1);
    }
    fails
}
