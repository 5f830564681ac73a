//! Laws of the blocks that a cluster makes, keeps, sends and hands to a client: each is the value of its key. A world speaks
//! of keys alone; here it has its blocks besides: each event moves them, and an operation runs on what its worker holds.
ghost use Rattle.std.specs.Prelude.{◌≡◌, ◌↔◌, ℕ, true, List, Option, Some, is_some};
ghost use Rattle.cluster_msgs.specs.Shape.{IsShape, deps_of};
ghost use Rattle.cluster_msgs.specs.Values.{val};
ghost use Rattle.cluster_msgs.specs.declared.events.Event.{Event};
ghost use Rattle.cluster_rules.specs.Sched.{Setting};
ghost use Rattle.cluster_rules.specs.Runs.{legal, reached, WasKilled};
ghost use Rattle.cluster_laws.specs.Blocks.{job_of, setting_of, opening_cluster};
ghost use Rattle.cluster_laws.specs.Moves.{cluster_run, LegalWithBlocks};
ghost use Rattle.cluster_laws.specs.AreValues.{AreValues, IsBlamed};

use cluster_msgs::JobSpec;

/// After each legal list of events each block is the value of its key: at workers and clients, under way, and as input
/// of a running operation. So the outcome of each operation is that of the definition, and the lists that are legal are
/// the same whether outcomes are made by real operations or are read from the values.
pub fn blocks_are_values<B>()
    ensures values { (s : Setting) (op : ℕ → List B → Option B) → IsShape s.shape → (es : List Event) → legal (job_of s op) es →
        AreValues (deps_of s.shape) (val (deps_of s.shape) op) (cluster_run op (opening_cluster s op) es) }
    ensures world { (s : Setting) (op : ℕ → List B → Option B) → IsShape s.shape → (es : List Event) → legal (job_of s op) es →
        (cluster_run op (opening_cluster s op) es).world ≡ reached (job_of s op) es }
    ensures legal { (s : Setting) (op : ℕ → List B → Option B) → IsShape s.shape → (es : List Event) →
        LegalWithBlocks op (opening_cluster s op) es ↔ legal (job_of s op) es }
{}

/// For any job: by any legal list of events, each block that a client got is the value of its key, it has one for each
/// key that it counts as got, and each failure that it was told of is blamed on a key in the cone of its key that is
/// faulty, or that was killed at some place in the list.
pub fn clients_get_values<J: JobSpec>(job: &J)
    ensures got { IsShape (J.graph job.now) → (clients saturation : ℕ) (allowed : Option ℕ) → let s = setting_of (J.graph job.now) clients saturation allowed in
        (es : List Event) → legal (job_of s (J.operation job.now)) es → (c k : ℕ) (b : J.Block) →
        (cluster_run (J.operation job.now) (opening_cluster s (J.operation job.now)) es).blocks.got c k ≡ Some b →
        val (deps_of (J.graph job.now)) (J.operation job.now) k ≡ Some b }
    ensures all { IsShape (J.graph job.now) → (clients saturation : ℕ) (allowed : Option ℕ) → let s = setting_of (J.graph job.now) clients saturation allowed in
        (es : List Event) → legal (job_of s (J.operation job.now)) es → (c k : ℕ) →
        ((reached (job_of s (J.operation job.now)) es).clients c).got k ≡ true →
        is_some ((cluster_run (J.operation job.now) (opening_cluster s (J.operation job.now)) es).blocks.got c k) ≡ true }
    ensures failed { IsShape (J.graph job.now) → (clients saturation : ℕ) (allowed : Option ℕ) → let s = setting_of (J.graph job.now) clients saturation allowed in
        (es : List Event) → legal (job_of s (J.operation job.now)) es → (c k b : ℕ) →
        ((reached (job_of s (J.operation job.now)) es).clients c).failed k ≡ Some b →
        IsBlamed (WasKilled (job_of s (J.operation job.now)) es) (deps_of (J.graph job.now)) (val (deps_of (J.graph job.now)) (J.operation job.now)) k b }
{}
