//! How far the bytes that a steal moves are above the work that it moves.
ghost use Rattle.std.specs.Prelude.{◌≡◌, ◌≤◌, ◌^◌};
ghost use Rattle.cluster_rules.specs.Policies.{level};

/// The least n with `bytes < 2^n * (work + 1)`.
pub fn level(bytes: u64, work: u64) -> u32
    requires bytes { bytes ≤ 2 ^ 45 }
    requires work { work ≤ 2 ^ 46 }
    ensures { result ≡ level bytes work }
{
    let mut moved = work + 1;
    for n in 0..64 {
        if bytes < moved {
            return n;
        }
        moved *= 2;
    }
    64
}
