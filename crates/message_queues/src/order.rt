//! The order of askers, and of what is under way.
ghost use Rattle.std.specs.Prelude.{◌≡◌};
ghost use Rattle.cluster_rules.specs.World.{same_asker as is_same_asker, asker_before as is_asker_before};

use cluster_msgs::Asker;

/// Whether both are the same asker.
pub fn same_asker(left: Asker, right: Asker) -> bool
    ensures { result ≡ is_same_asker left right }
{
    match (left, right) {
        (Asker::Worker(v), Asker::Worker(w)) => v == w,
        (Asker::Client(c), Asker::Client(d)) => c == d,
        _ => false,
    }
}

/// Whether the left asker comes before the right one: workers before clients, then by number.
pub fn asker_before(left: Asker, right: Asker) -> bool
    ensures { result ≡ is_asker_before left right }
{
    match (left, right) {
        (Asker::Worker(v), Asker::Worker(w)) => v < w,
        (Asker::Client(c), Asker::Client(d)) => c < d,
        (Asker::Worker(_), Asker::Client(_)) => true,
        (Asker::Client(_), Asker::Worker(_)) => false,
    }
}
