//! Workers that join and leave.
ghost use Rattle.std.specs.Prelude.{◌≡◌, ◌∷◌, [], true, false, Some, None, cond, nat_le};
ghost use Rattle.cluster_msgs.specs.declared.messages.Down.TheVariants.{ComputeTask};
ghost use Rattle.cluster_msgs.specs.declared.messages.Up.TheVariants.{StealResponse};
ghost use Rattle.cluster_msgs.specs.declared.messages.ToClient.TheVariants.{LostData};
ghost use Rattle.cluster_msgs.specs.declared.messages.FromClient.TheVariants.{Want};
ghost use Rattle.cluster_msgs.specs.declared.cores.SchedEvent.TheVariants.{Join, Leave, FromWorker, FromClient};
ghost use Rattle.cluster_rules.specs.Sched.{sched_opening};
ghost use Rattle.cluster_rules.specs.SchedTable.{sched_takes};
ghost use Rattle.cluster_rules.specs.SchedStep.{sched_step};
ghost use Rattle.cluster_rows.specs.Talk.{said, after, table, facts_of};
ghost use Rattle.cluster_rows.specs.SchedWorlds.{three_keys, one_key, chain, busy, busy_one, busy_two, to_busy, when_busy, may_when_busy, asked, to_asked, when_asked};

/// How the two worlds come about that most rows start from.
pub fn where_the_rows_start()
    ensures busy { table (after (sched_opening chain) to_busy) ≡ busy }
    ensures asked { table (after (sched_opening three_keys) to_asked) ≡ asked }
{}

/// A worker that joins gets the next number. Where nothing waits for a worker, nothing is sent.
pub fn a_worker_joins()
    ensures { let s = when_busy (Join 2) in (s.joined ≡ 3 ∷ []) × (s.down ≡ []) × (s.clients ≡ []) × (s.facts.threads 3 ≡ Some 2) × (s.facts.last_worker ≡ 3) }
{}

/// A queued key goes to the worker that joins, as long as that worker isn't full.
pub fn a_worker_joins_where_keys_are_queued()
    ensures { let s = sched_step (after (sched_opening three_keys) (FromClient 1 (Want (0 ∷ 1 ∷ 2 ∷ [])) ∷ [])) (Join 1) in
        (s.down ≡ (1, ComputeTask 0 1 []) ∷ (1, ComputeTask 1 2 []) ∷ []) × (s.facts.on 2 ≡ None) × (s.joined ≡ 1 ∷ []) }
{}

/// A worker has 1 to 16 threads, at most 64 are connected, and none gets a number above 1024.
pub fn a_worker_that_may_not_join()
    ensures threads { (may_when_busy (Join 0) ≡ false) × (may_when_busy (Join 1) ≡ true) × (may_when_busy (Join 16) ≡ true) × (may_when_busy (Join 17) ≡ false) }
    ensures connected { (sched_takes (record (sched_opening one_key) { threads = λ w. cond (nat_le w 63) (Some 1) None; last_worker = 63 }) (Join 1) ≡ true)
        × (sched_takes (record (sched_opening one_key) { threads = λ w. cond (nat_le w 64) (Some 1) None; last_worker = 64 }) (Join 1) ≡ false) }
    ensures numbers { (sched_takes (record (sched_opening one_key) { last_worker = 1023 }) (Join 1) ≡ true)
        × (sched_takes (record (sched_opening one_key) { last_worker = 1024 }) (Join 1) ≡ false) }
{}

/// The key of a worker that leaves goes to another, and the worker that left gets nothing.
pub fn a_worker_leaves_its_task()
    ensures { let s = when_busy (Leave 2) in (s.down ≡ (1, ComputeTask 2 5 []) ∷ []) × (s.clients ≡ [])
        × (table s.facts ≡ record busy {
          workers = record busy_one { sent = 3 } ∷ record busy_two { threads = None } ∷ [];
          on = None ∷ Some (1, 4) ∷ Some (1, 5) ∷ [];
          losses = 0 ∷ 0 ∷ 1 ∷ [];
          counter = 6;
        }) }
{}

/// What a worker that leaves held and was given goes. A key that depends on what it held waits again.
pub fn a_worker_leaves_its_block()
    ensures { let s = when_busy (Leave 1) in (s.down ≡ (2, ComputeTask 0 5 []) ∷ []) × (s.clients ≡ [])
        × (table s.facts ≡ record busy {
          workers = record busy_one { threads = None; has = None ∷ None ∷ None ∷ [] } ∷ record busy_two { sent = 2 } ∷ [];
          on = Some (2, 5) ∷ None ∷ Some (2, 2) ∷ [];
          losses = 0 ∷ 1 ∷ 0 ∷ [];
          counter = 6;
        }) }
{}

/// Only a connected worker leaves.
pub fn a_worker_that_may_not_leave()
    ensures { (may_when_busy (Leave 0) ≡ false) × (may_when_busy (Leave 1) ≡ true) × (may_when_busy (Leave 2) ≡ true) × (may_when_busy (Leave 3) ≡ false) }
{}

/// A steal stays where its thief leaves. A yes then finds nobody to give the key to, and the key is placed anew.
pub fn a_thief_leaves()
    ensures stays { let s = when_asked (Leave 2) in (s.facts.steal 0 ≡ Some (2, false)) × (s.facts.on 0 ≡ Some (1, 1)) × (s.down ≡ []) × (s.clients ≡ (1, LostData 2) ∷ []) }
    ensures anew { said (facts_of three_keys asked) (Leave 2 ∷ FromWorker 1 (StealResponse 3 0 1 true) ∷ []) ≡ ([], (1, LostData 2) ∷ []) ∷ ((1, ComputeTask 0 5 []) ∷ [], []) ∷ [] }
{}

/// Where the victim leaves, the steal of its key goes with it.
pub fn a_victim_leaves()
    ensures { let s = when_asked (Leave 1) in (s.facts.steal 0 ≡ None) × (s.down ≡ (2, ComputeTask 0 5 []) ∷ (2, ComputeTask 1 6 []) ∷ []) }
{}
