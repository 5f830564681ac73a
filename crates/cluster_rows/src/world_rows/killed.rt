//! Keys whose workers left too often, and copies under way.
ghost use Rattle.std.specs.Prelude.{◌≡◌, ◌∷◌, ◌++◌, [], true, false, Some, None};
ghost use Rattle.cluster_msgs.specs.declared.messages.Up.TheVariants.{AddKeys};
ghost use Rattle.cluster_msgs.specs.declared.messages.ToClient.TheVariants.{ClientTaskErred};
ghost use Rattle.cluster_msgs.specs.declared.events.Event.TheVariants.{DeliverDown, DeliverUp, DeliverToClient, Lose, Replicate, SeeLoss};
ghost use Rattle.cluster_rules.specs.World.{opening};
ghost use Rattle.cluster_rules.specs.Runs.{reached, killed};
ghost use Rattle.cluster_rules.specs.Draw.{opening_events, Served};
ghost use Rattle.cluster_rows.specs.WorkerTalk.{two_keys, three_keys};
ghost use Rattle.cluster_rows.specs.SmallWorlds.{plain_job, bounded_job, plan, play_all, can, client_served, suspected_at_one, suspected_start, done_by_two, both_made, copied, then_enabled};

/// A worker is suspected while the second of two keys is assigned to it, and no loss is allowed: the client is told of
/// that key, after six turns.
pub fn no_loss_is_allowed()
    ensures told { play_all 30 (bounded_job (Some 0) two_keys) (λ t. 0) suspected_at_one (1 ∷ []) ≡ (suspected_start ++ DeliverToClient 1 ∷ [], Some (Served 6 (Some 1))) }
    ensures any_word { play_all 30 (bounded_job (Some 0) two_keys) (λ t. 1) suspected_at_one (1 ∷ []) ≡ (suspected_start ++ DeliverToClient 1 ∷ [], Some (Served 6 (Some 1))) }
    ensures counted { let w = reached (bounded_job (Some 0) two_keys) (opening_events (plan 2) (1 ∷ []) ++ suspected_start) in
        (w.sched.losses 0 ≡ 0) × (w.sched.losses 1 ≡ 1) × (w.sched.bad 1 ≡ true) × (w.to_client 1 ≡ ClientTaskErred 1 1 ∷ []) }
    ensures killed { (killed (bounded_job (Some 0) two_keys) (opening_events (plan 2) (1 ∷ []) ++ suspected_start) 1 ≡ true)
        × (killed (bounded_job (Some 0) two_keys) (opening_events (plan 2) (1 ∷ []) ++ suspected_start) 0 ≡ false) }
{}

/// Where one is allowed the other worker does both keys, in seventeen turns or eighteen.
pub fn one_loss_is_allowed()
    ensures eighteen { play_all 30 (bounded_job (Some 1) two_keys) (λ t. 0) suspected_at_one (1 ∷ []) ≡
        (suspected_start ++ done_by_two ++ DeliverDown 2 ∷ client_served 2, Some (Served 18 None)) }
    ensures seventeen { play_all 30 (bounded_job (Some 1) two_keys) (λ t. 1) suspected_at_one (1 ∷ []) ≡
        (suspected_start ++ done_by_two ++ client_served 2, Some (Served 17 None)) }
    ensures counted { let w = reached (bounded_job (Some 1) two_keys) (opening_events (plan 2) (1 ∷ []) ++ suspected_start ++ done_by_two) in (w.sched.losses 1 ≡ 1) × (w.sched.bad 1 ≡ false) }
    ensures not_killed { killed (bounded_job (Some 1) two_keys) (opening_events (plan 2) (1 ∷ []) ++ suspected_start) 1 ≡ false }
{}

/// A worker that is asked for a copy gathers the block and says so, and is counted as a holder then.
pub fn a_copy_is_gathered()
    ensures may { then_enabled (plain_job three_keys) both_made (Replicate 0 2) ≡ true }
    ensures holder { then_enabled (plain_job three_keys) both_made (Replicate 0 1) ≡ false }
    ensures not_held { then_enabled (plain_job three_keys) both_made (Replicate 2 2) ≡ false }
    ensures legal { can (plain_job three_keys) (opening (plain_job three_keys)) (copied ++ DeliverUp 2 ∷ []) ≡ true }
    ensures said { let w = reached (plain_job three_keys) copied in ((w.workers 2).mem 0 ≡ true) × (w.up 2 ≡ AddKeys 2 (0 ∷ []) ∷ []) × (w.sched.has 2 0 ≡ None) }
    ensures counted { let w = reached (plain_job three_keys) (copied ++ DeliverUp 2 ∷ []) in (w.sched.has 2 0 ≡ Some 6) × (w.up 2 ≡ []) × (w.down 2 ≡ []) }
    ensures again { then_enabled (plain_job three_keys) (copied ++ DeliverUp 2 ∷ []) (Replicate 0 2) ≡ false }
{}

/// The only holder is lost before the copy is counted: the new holder is freed of it, and the key is made again.
pub fn a_copy_that_comes_too_late()
    ensures freed { let w = reached (plain_job three_keys) (copied ++ Lose 1 ∷ SeeLoss 1 ∷ DeliverUp 2 ∷ []) in (w.sched.has 2 0 ≡ None) × (w.sched.on 0 ≡ Some (2, 6)) }
{}
