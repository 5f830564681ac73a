//! Laws of the world. Each is a function with an empty body.
ghost use Rattle.std.specs.Prelude.{◌≡◌, ◌&&◌, not, is_some, ◌∷◌, ℕ, true, false, List, Some, None, slice_get};
ghost use Rattle.cluster_msgs.specs.declared.messages.Down.{Down};
ghost use Rattle.cluster_msgs.specs.declared.messages.Up.{Up};
ghost use Rattle.cluster_msgs.specs.declared.messages.ToClient.{ToClient};
ghost use Rattle.cluster_msgs.specs.declared.messages.FromClient.{FromClient};
ghost use Rattle.cluster_msgs.specs.declared.events.Asker.TheVariants.{Worker, Client};
ghost use Rattle.cluster_msgs.specs.declared.events.Event.{Event};
ghost use Rattle.cluster_msgs.specs.declared.events.Event.TheVariants.{Want, Release, Join, Lose, SeeLoss, Suspect, DeliverDown, DeliverUp, DeliverToClient, DeliverFromClient, Start, Finish, SendGather, ServeGather, ArriveGather, FailGather, Balance, Evict, Replicate, Spill, LoseSpilled};
ghost use Rattle.cluster_msgs.specs.declared.events.Asker.{Asker};
ghost use Rattle.cluster_msgs.specs.declared.cores.SchedEvent.TheVariants.{Join as JoinSched, Balance as BalanceSched, Evict as EvictSched, Replicate as ReplicateSched};
ghost use Rattle.cluster_rules.specs.SchedTable.{sched_takes, up_keys};
ghost use Rattle.cluster_rules.specs.Functions.{put};
ghost use Rattle.cluster_rules.specs.Sched.{is_above};
ghost use Rattle.cluster_rules.specs.Worker.{has_any, would_start, WorkerFacts};
ghost use Rattle.cluster_rules.specs.World.{Job, World, opening, is_connected, is_client, is_asker, open_ask, parcel_of};
ghost use Rattle.std.specs.List.{AllByRecursion};
ghost use Rattle.cluster_msgs.specs.Shape.{Shape, IsShape};
ghost use Rattle.cluster_msgs.specs.declared.cores.WorkerEvent.TheVariants.{Down as Told};
ghost use Rattle.cluster_rules.specs.Inside.{AreKeys, down_keys, IsInsideWorker, IsInsideWorld};
ghost use Rattle.cluster_rules.specs.Runs.{legal, reached, losses_from, killed, WasKilled};
ghost use Rattle.cluster_msgs.specs.declared.cores.WorkerEvent.{WorkerEvent};
ghost use Rattle.cluster_rules.specs.WorkerStep.{worker_step, worker_takes};
ghost use Rattle.cluster_laws.specs.Truth.{IsTrueWorker, IsTrueEvent, IsTrueUp, IsTrueWorld, IsBlame};
ghost use Rattle.cluster_rules.specs.WorldStep.{world_step, sends};
ghost use Rattle.cluster_rules.specs.Enabled.{enabled, progress, are_named, may_ask};
ghost use Rattle.cluster_laws.specs.WorldFrame.{OnlyScheduler, OnlyWorker, OnlyClient, NothingMoves};

/// Each progress event is enabled, and where there is none, no event that would make progress is enabled.
pub fn progress_is_what_moves()
    ensures enabled { (w : World) (n : ℕ) (e : Event) → slice_get (progress w) n ≡ Some e → enabled w e ≡ true }
    ensures none { (w : World) → has_any (progress w) ≡ false → NothingMoves w }
{}

/// Balance, Evict and Replicate, a worker that is suspected, and a client's message are the scheduler's alone. A delivery takes the
/// first message of its link.
pub fn the_schedulers_events()
    ensures suspect { (j : Job) (w : World) (i : ℕ) → OnlyScheduler w (world_step j w (Suspect i)) }
    ensures balance { (j : Job) (w : World) → OnlyScheduler w (world_step j w Balance) }
    ensures evict { (j : Job) (w : World) → OnlyScheduler w (world_step j w Evict) }
    ensures replicate { (j : Job) (w : World) (k i : ℕ) → OnlyScheduler w (world_step j w (Replicate k i)) }
    ensures from_client { (j : Job) (w : World) (c : ℕ) (m : FromClient) (ms : List FromClient) → w.from_client c ≡ m ∷ ms →
        OnlyScheduler (record w { from_client = put w.from_client c ms }) (world_step j w (DeliverFromClient c)) }
    ensures up { (j : Job) (w : World) (i : ℕ) (m : Up) (ms : List Up) → w.up i ≡ m ∷ ms → is_connected w i ≡ true →
        OnlyScheduler (record w { up = put w.up i ms }) (world_step j w (DeliverUp i)) }
    ensures dropped { (j : Job) (w : World) (i : ℕ) (m : Up) (ms : List Up) → w.up i ≡ m ∷ ms → is_connected w i ≡ false →
        world_step j w (DeliverUp i) ≡ record w { up = put w.up i ms } }
{}

/// What a worker does is its own: the scheduler, the clients and the other workers stay.
pub fn a_workers_events()
    ensures start { (j : Job) (w : World) (i : ℕ) → OnlyWorker i w (world_step j w (Start i)) }
    ensures finish { (j : Job) (w : World) (i k : ℕ) → OnlyWorker i w (world_step j w (Finish i k)) }
    ensures lose_spilled { (j : Job) (w : World) (i k : ℕ) → OnlyWorker i w (world_step j w (LoseSpilled i k)) }
    ensures spill { (j : Job) (w : World) (i k : ℕ) → OnlyWorker i w (world_step j w (Spill i k)) }
    ensures send { (j : Job) (w : World) (i p : ℕ) → OnlyWorker i w (world_step j w (SendGather (Worker i) p)) }
    ensures fail { (j : Job) (w : World) (i p : ℕ) → OnlyWorker i w (world_step j w (FailGather (Worker i) p)) }
    ensures down { (j : Job) (w : World) (i : ℕ) (m : Down) (ms : List Down) → w.down i ≡ m ∷ ms →
        OnlyWorker i (record w { down = put w.down i ms }) (world_step j w (DeliverDown i)) }
{}

/// What a client does is its own.
pub fn a_clients_events()
    ensures want { (j : Job) (w : World) (c : ℕ) (ks : List ℕ) → OnlyClient c w (world_step j w (Want c ks)) }
    ensures release { (j : Job) (w : World) (c : ℕ) (ks : List ℕ) → OnlyClient c w (world_step j w (Release c ks)) }
    ensures send { (j : Job) (w : World) (c p : ℕ) → OnlyClient c w (world_step j w (SendGather (Client c) p)) }
    ensures fail { (j : Job) (w : World) (c p : ℕ) → OnlyClient c w (world_step j w (FailGather (Client c) p)) }
    ensures to_client { (j : Job) (w : World) (c : ℕ) (m : ToClient) (ms : List ToClient) → w.to_client c ≡ m ∷ ms →
        OnlyClient c (record w { to_client = put w.to_client c ms }) (world_step j w (DeliverToClient c)) }
{}

/// Where each event is enabled.
#[tactic(auto, unfolding(cluster_rules::specs::Enabled::enabled))]
pub fn where_events_are_enabled()
    ensures want { (w : World) (c : ℕ) (ks : List ℕ) → enabled w (Want c ks) ≡ (is_client w c && are_named w ks) }
    ensures release { (w : World) (c : ℕ) (ks : List ℕ) → enabled w (Release c ks) ≡ (is_client w c && are_named w ks) }
    ensures join { (w : World) (threads : ℕ) → enabled w (Join threads) ≡ sched_takes w.sched (JoinSched threads) }
    ensures lose { (w : World) (i : ℕ) → enabled w (Lose i) ≡ w.alive i }
    ensures see_loss { (w : World) (i : ℕ) → enabled w (SeeLoss i) ≡ (not (w.alive i) && is_connected w i) }
    ensures suspect { (w : World) (i : ℕ) → enabled w (Suspect i) ≡ is_connected w i }
    ensures down { (w : World) (i : ℕ) → enabled w (DeliverDown i) ≡ (w.alive i && has_any (w.down i)) }
    ensures up { (w : World) (i : ℕ) → enabled w (DeliverUp i) ≡ has_any (w.up i) }
    ensures to_client { (w : World) (c : ℕ) → enabled w (DeliverToClient c) ≡ has_any (w.to_client c) }
    ensures from_client { (w : World) (c : ℕ) → enabled w (DeliverFromClient c) ≡ has_any (w.from_client c) }
    ensures start { (w : World) (i : ℕ) → enabled w (Start i) ≡ (w.alive i && is_some (would_start (w.workers i))) }
    ensures finish { (w : World) (i k : ℕ) → enabled w (Finish i k) ≡ (w.alive i && (w.workers i).running k) }
    ensures send { (w : World) (a : Asker) (p : ℕ) → enabled w (SendGather a p) ≡ (is_asker w a && may_ask w a p) }
    ensures serve { (w : World) (a : Asker) (p n : ℕ) → enabled w (ServeGather p a n) ≡ (w.alive p && is_some (parcel_of a p n w.requests)) }
    ensures arrive { (w : World) (a : Asker) (p n : ℕ) → enabled w (ArriveGather a p n) ≡ (is_asker w a && is_some (parcel_of a p n w.answers)) }
    ensures fail { (w : World) (a : Asker) (p : ℕ) → enabled w (FailGather a p) ≡ (is_asker w a && is_some (open_ask w a p)) }
    ensures balance { (w : World) → enabled w Balance ≡ sched_takes w.sched BalanceSched }
    ensures evict { (w : World) → enabled w Evict ≡ sched_takes w.sched EvictSched }
    ensures replicate { (w : World) (k i : ℕ) → enabled w (Replicate k i) ≡ sched_takes w.sched (ReplicateSched k i) }
    ensures spill { (w : World) (i k : ℕ) → enabled w (Spill i k) ≡ (w.alive i && ((w.workers i).mem k && not (w.spilled i k))) }
    ensures lose_spilled { (w : World) (i k : ℕ) → enabled w (LoseSpilled i k) ≡ (w.alive i && w.spilled i k) }
{}

/// An event of a worker that goes by the job keeps what is true of its blocks, and reports errors of faulty keys alone.
pub fn a_workers_blocks_are_true()
    ensures { (j : Job) (w : WorkerFacts) (e : WorkerEvent) → worker_takes w e ≡ true → IsTrueEvent j e → IsTrueWorker j w →
        IsTrueWorker j (worker_step w e).facts × AllByRecursion (IsTrueUp j) (sends (worker_step w e).out) }
{}

/// After each legal list of events of a job whose graph is one, each block that a client got is of a key with a value,
/// and each failure that it was told is blamed on a key in the cone of its key that is faulty, or that was killed at some
/// place in the list.
pub fn values_of_legal_lists()
    ensures world { (j : Job) → IsShape j.setting.shape → (es : List Event) → legal j es → IsTrueWorld (WasKilled j es) j (reached j es) }
    ensures got { (j : Job) → IsShape j.setting.shape → (es : List Event) → legal j es → (c k : ℕ) →
        ((reached j es).clients c).got k ≡ true → j.zero k ≡ false }
    ensures failed { (j : Job) → IsShape j.setting.shape → (es : List Event) → legal j es → (c k b : ℕ) →
        ((reached j es).clients c).failed k ≡ Some b → IsBlame (WasKilled j es) j k b }
{}

/// The scheduler's losses of a key are as many as the list of events tells, whatever the list. So where no number is
/// allowed nothing is ever killed.
pub fn losses_are_counted()
    ensures losses { (j : Job) (es : List Event) (k : ℕ) → (reached j es).sched.losses k ≡ losses_from j (opening j) 0 es k }
    ensures killed { (j : Job) (es : List Event) (k : ℕ) → killed j es k ≡ is_above j.setting.allowed ((reached j es).sched.losses k) }
    ensures unbounded { (j : Job) (es : List Event) (k : ℕ) → j.setting.allowed ≡ None → WasKilled j es k → ⊥ }
{}

/// A worker that is told of keys of the graph alone names no other key.
pub fn a_workers_keys_are_there()
    ensures { (g : Shape) (w : WorkerFacts) (m : Down) → AreKeys g (down_keys m) → IsInsideWorker g w →
        IsInsideWorker g (worker_step w (Told m)).facts × AllByRecursion (λ u. AreKeys g (up_keys u)) (sends (worker_step w (Told m)).out) }
{}

/// After each legal list of events nothing in the world names a key that isn't there, so that whoever is handed what is
/// enabled takes it.
pub fn nothing_names_a_missing_key()
    ensures { (j : Job) → IsShape j.setting.shape → (es : List Event) → legal j es → IsInsideWorld j.setting.shape (reached j es) }
{}
