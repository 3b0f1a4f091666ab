// The most merits that a run of each kind works out, p variables being enabled.
ghost use Rattle.std.specs.Prelude.{◌≡◌, ◌+◌, ◌*◌, ◌≤◌, max};
ghost use Rattle.runs.specs.Rows.{damped_bound};

pub fn damped_bound(limit: u64, p: u64) -> u64
    requires { (limit ≤ 1000) × (p ≤ 8) }
    ensures { result ≡ damped_bound limit p }
{
    1 + limit * (2 * p + 10)
}

pub fn multi_start_bound(trials: u64, limit: u64, p: u64) -> u64
    requires { (trials ≤ 1000) × (limit ≤ 1000) × (p ≤ 8) }
    ensures { result ≡ (1 + trials) * damped_bound limit p }
{
    (1 + trials) * damped_bound(limit, p)
}

pub fn annealing_bound(cycles: u64, steps: u64, p: u64) -> u64
    requires { (cycles ≤ 1000) × (steps ≤ 1000) × (p ≤ 8) }
    ensures { result ≡ 1 + cycles * steps + 1 + 25 * (2 * p + 10) }
{
    1 + cycles * steps + 1 + 25 * (2 * p + 10)
}

// A counter stays below its limit, or below 1 where that is 0.
pub fn at_least_one(n: u64) -> u64
    ensures { result ≡ max n 1 }
{
    n.max(1)
}
