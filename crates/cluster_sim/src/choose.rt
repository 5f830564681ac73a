//! What comes next, by the rules in their order.
ghost use Rattle.std.specs.Prelude.{◌≡◌, ◌<◌, ◌≤◌, ◌^◌, ◌%◌, ℕ, None, length, drop, slice_get, IsTrue};
ghost use Rattle.cluster_msgs.specs.Shape.{key_count};
ghost use Rattle.cluster_rules.specs.Client.{ClientFacts};
ghost use Rattle.cluster_rules.specs.World.{shape_of};
ghost use Rattle.cluster_rules.specs.Enabled.{progress};
ghost use Rattle.cluster_rules.specs.Draw.{Plan, next, next_by as after_script, scripted, unscripted, turn, evicts_now, balances_now, is_time};
ghost use Rattle.cluster_world.specs.Worlds.{world as world_of};
ghost use Rattle.cluster_world.specs.declared.state.Course.TheVariants.{Going};
ghost use Rattle.cluster_sim.specs.Plans.{plan_of, IsPlan};
ghost use Rattle.cluster_sim.specs.Seen.{IsSeen};
ghost use Rattle.cluster_sim.specs.Standing.{sim_of, next_by, HasTurn, IsStanding};
ghost use Rattle.cluster_sim.specs.Passing.{IsChoice};

use crate::choice::{Choice, Kind};
use crate::ended::end_of;
use crate::plan::SimPlan;
use crate::position::Standing;
use crate::script::next_item;
use crate::seen::Seen;
use cluster_msgs::{Event, JobSpec, KeyList};
use cluster_world::World;

/// An eviction may come at each turn that this divides, and a steal at each that the other does.
const EVICT_EVERY: u64 = 32;

const BALANCE_EVERY: u64 = 8;

/// What comes next where the simulation stands so, and `word` is the word of its turn. The rules say the same where a turn is
/// left for what moves.
pub fn choose<J: JobSpec>(
    world: &World<J>,
    plan: &SimPlan,
    wanted: &KeyList,
    standing: &Standing,
    seen: &Seen,
    word: u32,
) -> Choice
    requires going { world.now.course ≡ Going }
    requires plan { IsPlan (plan_of plan.now) }
    requires standing { IsStanding (plan_of plan.now) wanted.now (world_of world.now) standing.now }
    requires seen { IsSeen wanted.now ((world_of world.now).clients 1) seen.now }
    ensures next { (words : ℕ → ℕ) (budget : ℕ) → words standing.now.turns ≡ word → HasTurn (world_of world.now) budget →
        next_by plan.now.script result ≡ next words (plan_of plan.now) (sim_of (plan_of plan.now) (world_of world.now) standing.now budget) }
    ensures kind { IsChoice ((world_of world.now).clients 1) (key_count (shape_of (world_of world.now))) (length plan.now.script) standing.now result }
{
    match end_of(seen, wanted) {
        Some(end) => Choice::Over {
            failure: end.failure,
        },
        None => go_on(world, plan, standing, word),
    }
}

/// What comes where the client still waits: the script's next event, if one is due.
fn go_on<J: JobSpec>(world: &World<J>, plan: &SimPlan, standing: &Standing, word: u32) -> Choice
    requires going { world.now.course ≡ Going }
    requires passed { standing.now.passed ≤ length plan.now.script }
    requires threads { (1 ≤ plan.now.threads) × (plan.now.threads ≤ 16) }
    requires numbers { (world_of world.now).sched.last_worker < 1024 }
    ensures next { (words : ℕ → ℕ) (budget : ℕ) → words standing.now.turns ≡ word → HasTurn (world_of world.now) budget →
        next_by plan.now.script result ≡ after_script words (sim_of (plan_of plan.now) (world_of world.now) standing.now budget) None
        (scripted plan.now.threads (world_of world.now) (drop standing.now.passed plan.now.script)) }
    ensures kind { (c : ClientFacts) → IsChoice c (key_count (shape_of (world_of world.now))) (length plan.now.script) standing.now result }
{
    match next_item(world, plan, standing.passed) {
        Some(step) => Choice::Make {
            event: step.event,
            kind: Kind::Scripted {
                passed: step.passed,
            },
        },
        None => unscripted(world, standing, word),
    }
}

/// What comes where no item of the script does.
fn unscripted<J: JobSpec>(world: &World<J>, standing: &Standing, word: u32) -> Choice
    requires going { world.now.course ≡ Going }
    ensures next { (p : Plan) (words : ℕ → ℕ) (budget : ℕ) → words standing.now.turns ≡ word → HasTurn (world_of world.now) budget →
        next_by p.script result ≡ unscripted words (sim_of p (world_of world.now) standing.now budget) }
    ensures kind { (c : ClientFacts) (items : ℕ) → IsChoice c (key_count (shape_of (world_of world.now))) items standing.now result }
{
    if is_evicting(world, standing) {
        Choice::Make {
            event: Event::Evict,
            kind: Kind::Evicts,
        }
    } else if is_balancing(world, standing) {
        Choice::Make {
            event: Event::Balance,
            kind: Kind::Balances,
        }
    } else {
        turn(world, standing, word)
    }
}

/// A turn, if something moves.
fn turn<J: JobSpec>(world: &World<J>, standing: &Standing, word: u32) -> Choice
    requires going { world.now.course ≡ Going }
    ensures next { (p : Plan) (words : ℕ → ℕ) (budget : ℕ) → words standing.now.turns ≡ word → HasTurn (world_of world.now) budget →
        next_by p.script result ≡ turn words (sim_of p (world_of world.now) standing.now budget) }
    ensures kind { (c : ClientFacts) (keys items : ℕ) → IsChoice c keys items standing.now result }
{
    match draw(world, word) {
        Some(event) => Choice::Make {
            event,
            kind: Kind::Drawn,
        },
        None => Choice::Still,
    }
}

/// Whether an eviction comes.
fn is_evicting<J: JobSpec>(world: &World<J>, standing: &Standing) -> bool
    requires going { world.now.course ≡ Going }
    ensures now { (p : Plan) (budget : ℕ) → result ≡ evicts_now (sim_of p (world_of world.now) standing.now budget) }
    ensures some { IsTrue result → (standing.now.evicts < key_count (shape_of (world_of world.now))) × (key_count (shape_of (world_of world.now)) < 2 ^ 32) }
{
    let keys = world.shape().keys();
    if is_due(
        EVICT_EVERY,
        standing.turns,
        standing.evicts,
        standing.evicted_at,
        keys,
    ) {
        world.enabled(&Event::Evict)
    } else {
        false
    }
}

/// Whether a steal comes.
fn is_balancing<J: JobSpec>(world: &World<J>, standing: &Standing) -> bool
    requires going { world.now.course ≡ Going }
    ensures now { (p : Plan) (budget : ℕ) → result ≡ balances_now (sim_of p (world_of world.now) standing.now budget) }
    ensures some { IsTrue result → (standing.now.balances < key_count (shape_of (world_of world.now))) × (key_count (shape_of (world_of world.now)) < 2 ^ 32) }
{
    let keys = world.shape().keys();
    if is_due(
        BALANCE_EVERY,
        standing.turns,
        standing.balances,
        standing.balanced_at,
        keys,
    ) {
        world.enabled(&Event::Balance)
    } else {
        false
    }
}

/// Whether this is a turn of those for an event that was made so many times, fewer than there are keys, and not at it yet.
fn is_due(every: u64, turns: u64, made: u32, made_at: u64, keys: u32) -> bool
    requires { 1 ≤ every }
    ensures due { result ≡ is_time every turns made made_at keys }
    ensures few { IsTrue result → made < keys }
{
    let turn = (turns % every == 0) & !(turns == 0);
    let few = !(turns == made_at) & (made < keys);
    turn & few
}

/// One of the enabled progress events, by a word of the generator.
fn draw<J: JobSpec>(world: &World<J>, word: u32) -> Option<Event>
    requires going { world.now.course ≡ Going }
    ensures { result ≡ slice_get (progress (world_of world.now)) (word % length (progress (world_of world.now))) }
{
    let count = world.progress_count();
    if count == 0 {
        return None;
    }
    world.progress(u64::from(word) % count)
}
