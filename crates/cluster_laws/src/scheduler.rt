//! Laws of the scheduler. Each is the contract of a function with an empty body.
ghost use Rattle.std.specs.Prelude.{◌≡◌, ℕ, Bool, List, ◌<◌, ◌≤◌, ◌^◌, ◌*◌, ◌+◌};
ghost use Rattle.std.specs.Prelude.{true, false, cond, Some, not, ◌++◌, [], ◌&&◌, ◌||◌, is_some};
ghost use Rattle.std.specs.List.{list_any, Contains};
ghost use Rattle.cluster_msgs.specs.Shape.{IsShape};
ghost use Rattle.cluster_msgs.specs.declared.cores.Steal.{Steal};
ghost use Rattle.cluster_msgs.specs.declared.cores.SchedEvent.{SchedEvent};
ghost use Rattle.cluster_rules.specs.Sched.{Facts as SchedFacts, Setting, sched_opening, IsSound, keys, workers, deps, held, erred, wanted, known, need, open_key, blame, blame_step, tasks, occupancy, bytes_held};
ghost use Rattle.cluster_rules.specs.Choice.{IsLeastOf, is_before, least_by, better};
ghost use Rattle.cluster_rules.specs.Policies.{candidates, place_rank, place, steal_choices, steal_rank, next_steal, next_drop, IsStealChoice, IsDropOf, level};
ghost use Rattle.cluster_rules.specs.Frame.{IsSettling};
ghost use Rattle.cluster_laws.specs.Order.{Ascends, IsToldBefore, task_key};
ghost use Rattle.cluster_rules.specs.SchedTable.{change, sched_takes};
ghost use Rattle.cluster_rules.specs.SchedStep.{sched_step, settle, down_messages, client_messages, to_clients, mail, free_message, lost_keys, task_messages};
ghost use Rattle.cluster_laws.specs.Settled.{IsSettled};
ghost use Rattle.cluster_laws.specs.Losses.{AreFew};
ghost use Rattle.cluster_rules.specs.Runs.{loses};
ghost use Rattle.cluster_laws.specs.Attempts.{AttemptsEndForACause};
ghost use Rattle.cluster_rules.specs.Derived.{IsBelow, below, is_in, err, reach, err_step, reach_step};

/// A key is erred exactly where its own facts and its dependencies say so.
pub fn erred_by_dependencies()
    ensures { (deps : ℕ → List ℕ) (held bad : ℕ → Bool) → IsBelow deps → (k : ℕ) →
        err deps held bad k ≡ err_step deps held bad (err deps held bad) k }
{}

/// A key is reached exactly where it is a start or a dependent that passes is reached.
pub fn reached_from_dependents()
    ensures { (deps : ℕ → List ℕ) (n : ℕ) (start pass : ℕ → Bool) → IsBelow deps → (k : ℕ) →
        reach deps n start pass k ≡ reach_step deps n start pass (reach deps n start pass) k }
{}

/// What is sent is what the stages of settling say, and what joined is what the event says.
pub fn messages_of_an_event()
    ensures { (f : SchedFacts) (e : SchedEvent) → sched_takes f e ≡ true → let t = settle f (change f e) in
        ((sched_step f e).down ≡ down_messages t) × ((sched_step f e).clients ≡ client_messages t) × ((sched_step f e).joined ≡ t.changed.joined) }
{}

/// A key is erred where it is not held, and it is bad or a dependency is erred.
pub fn erred_unfolds()
    ensures { (f : SchedFacts) → IsSound f → (k : ℕ) → erred f k ≡ (not (held f k) && (f.bad k || list_any (erred f) (deps f k))) }
{}

/// A key is known where it is wanted or a dependent is known.
pub fn known_unfolds()
    ensures { (f : SchedFacts) → IsSound f → (k : ℕ) → known f k ≡ (wanted f k || list_any (λ j. is_in k (deps f j) && known f j) (below (keys f))) }
{}

/// A key is needed where it is wanted, or a dependent is needed, not held and not erred.
pub fn need_unfolds()
    ensures { (f : SchedFacts) → IsSound f → (k : ℕ) → need f k ≡ (wanted f k || list_any (λ j. is_in k (deps f j) && (open_key f j && need f j)) (below (keys f))) }
{}

/// An erred key is blamed on itself where it is bad, else on what its least erred dependency is blamed on.
pub fn blame_unfolds()
    ensures { (f : SchedFacts) → IsSound f → (k : ℕ) → blame f k ≡ blame_step f (blame f) k }
{}

/// An erred key, and no other, has a blame.
pub fn erred_keys_are_blamed()
    ensures { (f : SchedFacts) → IsSound f → (k : ℕ) → is_some (blame f k) ≡ erred f k }
{}

/// The key is placed on the candidate with the least rank. It has no place exactly where it has no candidate.
pub fn placed_on_the_least_candidate()
    ensures { (f : SchedFacts) (k : ℕ) → IsLeastOf (place_rank f k) (candidates f k) (place f k) }
{}

/// The choice with the least rank is stolen. Nothing is stolen exactly where there is no choice.
pub fn stolen_by_the_least_choice()
    ensures { (f : SchedFacts) → IsLeastOf (steal_rank f) (steal_choices f) (next_steal f) }
{}

/// The choices of a steal are all steals that may be made.
pub fn choices_of_a_steal()
    ensures only { (f : SchedFacts) (c : Steal) → Contains (steal_choices f) c → IsStealChoice f c }
    ensures all { (f : SchedFacts) → IsSound f → (c : Steal) → IsStealChoice f c → Contains (steal_choices f) c }
{}

/// The least key that may be dropped goes, at the first of those of its holders that hold most. Nothing is dropped
/// exactly where no key may be.
pub fn dropped_at_the_most_loaded_holder()
    ensures { (f : SchedFacts) → IsDropOf f (next_drop f) }
{}

/// After an event's own change nothing comes but new places under new attempts, and the counts of messages.
pub fn settling_only_drops_and_places()
    ensures { (f : SchedFacts) (e : SchedEvent) → IsSettling (change f e).facts (sched_step f e).facts }
{}

/// The level of a steal is the least power of two that lets the bytes to be moved stand against the work.
pub fn level_is_the_least()
    ensures enough { (bytes work : ℕ) → bytes < 2 ^ 63 → bytes < 2 ^ level bytes work * (work + 1) }
    ensures least { (bytes work n : ℕ) → n < level bytes work → 2 ^ n * (work + 1) ≤ bytes }
{}

/// The messages to workers stand by ascending worker. Those of a connected worker are one message with all keys that it
/// lost, ascending, if any; then its new tasks, ascending; then its answers. A worker that is not connected gets none.
/// Messages to clients stand by ascending client, then key.
pub fn messages_stand_in_order()
    ensures workers { (f : SchedFacts) (e : SchedEvent) → Ascends (λ m n. m.0 ≤ n.0) (sched_step f e).down }
    ensures own { (f : SchedFacts) (e : SchedEvent) (w : ℕ) → let t = settle f (change f e) in is_in w (workers t.placed) ≡ true →
        mail w (sched_step f e).down ≡ mail w (free_message w (lost_keys t w)) ++ (mail w (task_messages t.placed t.before.counter w) ++ t.changed.answer t.placed w) }
    ensures others { (f : SchedFacts) (e : SchedEvent) (w : ℕ) → is_in w (workers (settle f (change f e)).placed) ≡ false → mail w (sched_step f e).down ≡ [] }
    ensures lost { (f : SchedFacts) (e : SchedEvent) (w : ℕ) → Ascends (λ j k. j < k) (lost_keys (settle f (change f e)) w) }
    ensures tasks { (f : SchedFacts) (since w : ℕ) → Ascends (λ m n. task_key m.1 < task_key n.1) (task_messages f since w) }
    ensures clients { (f : SchedFacts) (e : SchedEvent) → Ascends IsToldBefore (to_clients (settle f (change f e))) }
{}

/// The opening facts are in range, and each event that is taken keeps them so.
pub fn facts_stay_in_range()
    ensures opening { (c : Setting) → IsShape c.shape → c.clients ≤ 16 → (1 ≤ c.saturation) × (c.saturation ≤ 1000) → IsSound (sched_opening c) }
    ensures event { (f : SchedFacts) → IsSound f → (e : SchedEvent) → sched_takes f e ≡ true → IsSound (sched_step f e).facts }
{}

/// The member with the least rank of two lists that are joined is the lesser of theirs, the first of two equal ones.
pub fn least_of_joined_lists()
    ensures { (rank : ℕ → List ℕ) (xs ys : List ℕ) → least_by rank (xs ++ ys) ≡ better (λ y z. is_before (rank y) (rank z)) (least_by rank xs) (least_by rank ys) }
{}

/// The work and the bytes at a worker are bounded by the largest work and block of all keys, and fit 64 bits.
pub fn sums_fit()
    ensures tasks { (f : SchedFacts) (w : ℕ) → IsSound f → tasks f w ≤ 32768 }
    ensures occupancy { (f : SchedFacts) (w : ℕ) → IsSound f → occupancy f w ≤ 2 ^ 61 }
    ensures bytes { (f : SchedFacts) (w : ℕ) → IsSound f → bytes_held f w ≤ 2 ^ 42 }
{}

/// A key loses each worker at most once: its losses and the workers that are connected are no more than ever joined.
pub fn losses_are_few()
    ensures opening { (c : Setting) → AreFew (sched_opening c) }
    ensures event { (f : SchedFacts) → IsSound f → (e : SchedEvent) → sched_takes f e ≡ true → AreFew f → AreFew (sched_step f e).facts }
{}

/// The opening facts have settled, and each event that is taken leaves facts that have settled, whoever sent it.
pub fn facts_stay_settled()
    ensures opening { (c : Setting) → IsSettled (sched_opening c) }
    ensures event { (f : SchedFacts) → IsSound f → IsSettled f → (e : SchedEvent) → sched_takes f e ≡ true → IsSettled (sched_step f e).facts }
{}

/// An event that is taken leaves each key its worker and its attempt, unless it ends the attempt: it counts the attempt's
/// finish or its error, or that the worker gave it up unstarted; it takes that the worker leaves; or it sends the worker a
/// free-keys with the key.
pub fn attempts_end_for_a_cause()
    ensures { (f : SchedFacts) (e : SchedEvent) → IsSound f → sched_takes f e ≡ true → AttemptsEndForACause f e (sched_step f e).facts }
{}

/// After an event a key that is known has one loss more where the event took that its worker leaves, and a key that is
/// not known has none.
pub fn losses_of_an_event()
    ensures { (f : SchedFacts) (e : SchedEvent) (k : ℕ) → (sched_step f e).facts.losses k ≡
        cond (known (sched_step f e).facts k) (cond (loses f k (Some e)) (f.losses k + 1) (f.losses k)) 0 }
{}
