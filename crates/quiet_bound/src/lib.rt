//! How many events there can be while nothing fails and nobody asks for more: the bound's formula.
//!
//! `cluster_rules` stands below, with the definition `quiet_bound`, `cluster_world`, with the world that it is of, and
//! `quiet_laws`, with the law that no quiet list of events is longer. It carries *quiet termination* for a world that runs.
#![tactic(auto)]

ghost use Rattle.std.specs.Prelude.{◌≡◌, ◌≢◌, ◌+◌, ◌*◌, ◌-◌, ◌^◌, ◌≤◌, ◌<◌, nat_le, max, min};
ghost use Rattle.cluster_msgs.specs.Shape.{key_count, edge_count};
ghost use Rattle.cluster_rules.specs.World.{IsJob, quiet_bound, rest_of, rest, worker_count};
ghost use Rattle.cluster_world.specs.Worlds.{world as world_of, setting, running, IsMade};
ghost use Rattle.cluster_world.specs.declared.state.Course.TheVariants.{Starved};
ghost use Rattle.quiet_laws.specs.Quiet.{QuietlyEnds};

use cluster_msgs::JobSpec;
use cluster_world::World;

/// The bound of a world, in events: 2^128 - 1 stands for every larger one, and for where 2^64 - 1 messages or more are
/// under way. Once memory ran out it is the bound with nothing under way. It takes no memory.
///
/// Of a world that legal events of a job made, a list of progress events has at most as many members as the formula says, and
/// one that can't be made longer leaves no client that waits for a key, or no worker that is alive and connected.
pub fn rest<J: JobSpec>(world: &World<J>) -> u128
    ensures bound { world.now.course ≢ Starved → result ≡ rest (world_of world.now) }
    ensures starved { world.now.course ≡ Starved → let s = setting world.now in
        result ≡ min (quiet_bound (max 1 s.clients) 0 (worker_count (world_of world.now)) (key_count s.shape) (edge_count s.shape)) (2 ^ 128 - 1) }
    ensures quiet { let job = running J.operation world.now in IsJob job → IsMade J.operation world.now → QuietlyEnds job (world_of world.now) }
{
    let shape = world.shape();
    quiet_events(
        world.clients(),
        world.under_way(),
        world.workers(),
        shape.keys(),
        shape.edges(),
    )
}

/// The bound for so many clients, messages under way, workers, keys and edges, in events:
/// `32 * C * (M+1)^2 * (W+1)^2 * (K+E+1)^3`, with at least one client.
///
/// Its greatest number, 2^128 - 1, stands for every larger one, and is also the answer where the messages are 2^64 - 1,
/// which stands for more. It takes no memory.
pub fn quiet_events(clients: u32, under_way: u64, workers: u64, keys: u32, edges: u32) -> u128
    ensures { result ≡ rest_of (nat_le (2 ^ 64 - 1) under_way) (quiet_bound (max 1 clients) under_way workers keys edges) }
{
    if under_way == u64::MAX {
        return u128::MAX;
    }
    let graph = u128::from(keys) + u128::from(edges) + 1;
    formula(
        u128::from(clients.max(1)),
        u128::from(under_way) + 1,
        u128::from(workers) + 1,
        graph,
    )
}

/// The formula over counts that are each at least one, or the greatest number where it is larger.
fn formula(clients: u128, messages: u128, workers: u128, graph: u128) -> u128
    requires clients { (1 ≤ clients) × (clients < 2 ^ 32) }
    requires messages { 1 ≤ messages }
    requires workers { 1 ≤ workers }
    requires graph { 1 ≤ graph }
    ensures { result ≡ min (((32 * clients) * (messages ^ 2)) * ((workers ^ 2) * (graph ^ 3))) (2 ^ 128 - 1) }
{
    let asked = times(32 * clients, square(messages));
    times(asked, times(square(workers), cube(graph)))
}

/// The product, or the greatest number where it is larger.
fn times(left: u128, right: u128) -> u128
    ensures { result ≡ min (left * right) (2 ^ 128 - 1) }
{
    left.saturating_mul(right)
}

/// The second power, or the greatest number where it is larger.
fn square(base: u128) -> u128
    ensures { result ≡ min (base ^ 2) (2 ^ 128 - 1) }
{
    base.saturating_mul(base)
}

/// The third power, or the greatest number where it is larger.
fn cube(base: u128) -> u128
    requires { 1 ≤ base }
    ensures { result ≡ min (base ^ 3) (2 ^ 128 - 1) }
{
    square(base).saturating_mul(base)
}
