//! Losses of keys, and copies that a worker is asked to get.
ghost use Rattle.std.specs.Prelude.{◌≡◌, ◌∷◌, [], true, false, Some, None};
ghost use Rattle.cluster_msgs.specs.declared.messages.Down.TheVariants.{AcquireReplicas, ComputeTask};
ghost use Rattle.cluster_msgs.specs.declared.messages.ToClient.TheVariants.{ClientTaskErred};
ghost use Rattle.cluster_msgs.specs.declared.messages.FromClient.TheVariants.{Want, Release};
ghost use Rattle.cluster_msgs.specs.declared.cores.Phase.TheVariants.{Erred, Released};
ghost use Rattle.cluster_msgs.specs.declared.cores.SchedEvent.TheVariants.{Join, Leave, FromClient, Replicate};
ghost use Rattle.cluster_rules.specs.Sched.{phase};
ghost use Rattle.cluster_rules.specs.SchedTable.{sched_takes};
ghost use Rattle.cluster_rules.specs.SchedStep.{sched_step};
ghost use Rattle.cluster_rows.specs.Talk.{said, after, table};
ghost use Rattle.cluster_rows.specs.SchedWorlds.{busy, busy_one, busy_two, busy_allowing, when_busy, may_when_busy};

/// A worker leaves: the key that was assigned to it lost a worker, and the one that it held did not. Where none is
/// allowed the key is an error now, and its client is told so; what it depends on is no longer needed.
pub fn a_loss_too_many()
    ensures none { let s = sched_step (busy_allowing (Some 0)) (Leave 1) in (s.down ≡ []) × (s.clients ≡ (1, ClientTaskErred 1 1) ∷ [])
        × (table s.facts ≡ record busy {
          workers = record busy_one { threads = None; has = None ∷ None ∷ None ∷ [] } ∷ busy_two ∷ [];
          on = None ∷ None ∷ Some (2, 2) ∷ [];
          bad = false ∷ true ∷ false ∷ [];
          losses = 0 ∷ 1 ∷ 0 ∷ [];
        }) }
    ensures phases { let f = after (busy_allowing (Some 0)) (Leave 1 ∷ []) in (phase f 0 ≡ Released) × (phase f 1 ≡ Erred) }
    ensures one { let s = sched_step (busy_allowing (Some 1)) (Leave 1) in (s.down ≡ (2, ComputeTask 0 5 []) ∷ []) × (s.clients ≡ [])
        × (s.facts.bad 1 ≡ false) × (s.facts.losses 0 ≡ 0) × (s.facts.losses 1 ≡ 1) }
{}

/// Each loss counts while the key is known, and the first above what is allowed is the last.
pub fn losses_add_up()
    ensures second { let f = after (busy_allowing (Some 1)) (Leave 2 ∷ Leave 1 ∷ []) in (table f).losses ≡ 0 ∷ 1 ∷ 2 ∷ [] }
    ensures bad { let f = after (busy_allowing (Some 1)) (Leave 2 ∷ Leave 1 ∷ []) in (table f).bad ≡ false ∷ false ∷ true ∷ [] }
    ensures no_more { let f = after (busy_allowing (Some 1)) (Leave 2 ∷ Leave 1 ∷ Join 1 ∷ Leave 3 ∷ []) in (table f).losses ≡ 1 ∷ 1 ∷ 2 ∷ [] }
    ensures unbounded { let f = after (busy_allowing None) (Leave 2 ∷ Leave 1 ∷ []) in ((table f).losses ≡ 0 ∷ 1 ∷ 2 ∷ []) × ((table f).bad ≡ false ∷ false ∷ false ∷ []) }
{}

/// What is no longer known is no error and has no losses; wanted again, it starts anew.
pub fn losses_go_with_the_key()
    ensures gone { let f = after (busy_allowing (Some 0)) (Leave 1 ∷ FromClient 1 (Release (1 ∷ [])) ∷ []) in (f.bad 1 ≡ false) × (f.losses 1 ≡ 0) }
    ensures anew { said (busy_allowing (Some 0)) (Leave 1 ∷ FromClient 1 (Release (1 ∷ [])) ∷ FromClient 1 (Want (1 ∷ [])) ∷ []) ≡
        ([], (1, ClientTaskErred 1 1) ∷ []) ∷ ([], []) ∷ ((2, ComputeTask 0 5 []) ∷ [], []) ∷ [] }
    ensures other { let f = after (busy_allowing (Some 0)) (Leave 2 ∷ FromClient 1 (Release (1 ∷ [])) ∷ []) in (f.bad 2 ≡ true) × (f.losses 2 ≡ 1) }
{}

/// A worker is asked to get a copy of a held key, and from whom. Nothing else changes.
pub fn a_copy_is_asked_for()
    ensures { let s = when_busy (Replicate 0 2) in (s.down ≡ (2, AcquireReplicas ((0, (1, 3) ∷ []) ∷ [])) ∷ []) × (s.clients ≡ []) × (s.joined ≡ [])
        × (table s.facts ≡ record busy { workers = busy_one ∷ record busy_two { sent = 2 } ∷ [] }) }
{}

/// Only a key that is there and held is copied, to a connected worker that doesn't hold it.
pub fn a_copy_that_may_not_be_asked_for()
    ensures may { may_when_busy (Replicate 0 2) ≡ true }
    ensures holder { may_when_busy (Replicate 0 1) ≡ false }
    ensures not_held { (may_when_busy (Replicate 1 2) ≡ false) × (may_when_busy (Replicate 2 1) ≡ false) }
    ensures not_there { (may_when_busy (Replicate 3 2) ≡ false) × (may_when_busy (Replicate 0 3) ≡ false) × (may_when_busy (Replicate 0 0) ≡ false) }
    ensures left { sched_takes (after (busy_allowing None) (Leave 2 ∷ [])) (Replicate 0 2) ≡ false }
{}
