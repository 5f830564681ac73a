//! A steal that is refused and one that is confirmed, from the opening world to the thief's finish.
ghost use Rattle.std.specs.Prelude.{◌≡◌, ◌∷◌, ◌++◌, [], true, false, Some, None};
ghost use Rattle.cluster_msgs.specs.declared.messages.Down.TheVariants.{ComputeTask, StealRequest};
ghost use Rattle.cluster_msgs.specs.declared.messages.Up.TheVariants.{StealResponse};
ghost use Rattle.cluster_msgs.specs.declared.messages.ToClient.TheVariants.{KeyInMemory};
ghost use Rattle.cluster_msgs.specs.declared.cores.WState.TheVariants.{Memory, Executing, Ready, Forgotten};
ghost use Rattle.cluster_msgs.specs.declared.events.Event.TheVariants.{DeliverDown, DeliverUp, DeliverToClient, Start, Finish, Balance};
ghost use Rattle.cluster_rules.specs.World.{opening};
ghost use Rattle.cluster_rules.specs.Enabled.{progress};
ghost use Rattle.cluster_rules.specs.Runs.{reached};
ghost use Rattle.cluster_rows.specs.SmallWorlds.{plain_job, can, then_enabled, three_alone, one_runs, one_refuses, one_yields, stolen, stolen_and_made, starts, states_at};

/// The worker that is asked for the key that it runs says no, and the scheduler notes it.
pub fn a_running_key_is_refused()
    ensures runs { states_at (plain_job three_alone) one_runs 1 ≡ Executing ∷ Ready ∷ Forgotten ∷ [] }
    ensures told { (reached (plain_job three_alone) one_runs).to_client 1 ≡ KeyInMemory 2 ((2, 4) ∷ []) ∷ [] }
    ensures request { (reached (plain_job three_alone) (one_runs ++ Balance ∷ [])).down 1 ≡ StealRequest 0 1 ∷ [] }
    ensures no { (reached (plain_job three_alone) one_refuses).up 1 ≡ StealResponse 3 0 1 false ∷ [] }
    ensures still_runs { states_at (plain_job three_alone) one_refuses 1 ≡ Executing ∷ Ready ∷ Forgotten ∷ [] }
    ensures noted { let w = reached (plain_job three_alone) (one_refuses ++ DeliverUp 1 ∷ []) in
        (w.sched.on 0 ≡ Some (1, 1)) × (w.sched.steal 0 ≡ Some (2, true)) × (w.up 1 ≡ []) × (w.down 1 ≡ []) × (w.down 2 ≡ []) }
    ensures next { (reached (plain_job three_alone) (one_refuses ++ DeliverUp 1 ∷ Balance ∷ [])).down 1 ≡ StealRequest 1 2 ∷ [] }
{}

/// Asked for its other key, which is ready, it says yes and gives it up; the thief gets it under a new attempt.
pub fn a_ready_key_is_given_up()
    ensures yes { (reached (plain_job three_alone) one_yields).up 1 ≡ StealResponse 4 1 2 true ∷ [] }
    ensures gone { states_at (plain_job three_alone) one_yields 1 ≡ Executing ∷ Forgotten ∷ Forgotten ∷ [] }
    ensures counted { let w = reached (plain_job three_alone) stolen in
        (w.sched.on 0 ≡ Some (1, 1)) × (w.sched.on 1 ≡ Some (2, 5)) × (w.sched.steal 0 ≡ Some (2, true)) × (w.sched.steal 1 ≡ None) × (w.sched.counter ≡ 6) }
    ensures given { (reached (plain_job three_alone) stolen).down 2 ≡ ComputeTask 1 5 [] ∷ [] }
    ensures moves { progress (reached (plain_job three_alone) stolen) ≡ DeliverDown 2 ∷ DeliverToClient 1 ∷ Finish 1 0 ∷ [] }
    ensures taken { states_at (plain_job three_alone) (stolen ++ DeliverDown 2 ∷ []) 2 ≡ Forgotten ∷ Ready ∷ Memory ∷ [] }
{}

/// The attempt that was given up is never started: of each key one attempt is, the stolen one by the thief.
pub fn what_was_given_up_is_never_started()
    ensures legal { can (plain_job three_alone) (opening (plain_job three_alone)) stolen_and_made ≡ true }
    ensures started { starts (plain_job three_alone) (opening (plain_job three_alone)) stolen_and_made ≡ (2, (2, 3)) ∷ (1, (0, 1)) ∷ (2, (1, 5)) ∷ [] }
    ensures not_by_the_victim { then_enabled (plain_job three_alone) (one_yields ++ Finish 1 0 ∷ []) (Start 1) ≡ false }
    ensures held { let w = reached (plain_job three_alone) stolen_and_made in
        (w.sched.has 2 1 ≡ Some 6) × (w.sched.has 1 0 ≡ Some 7) × (w.sched.on 1 ≡ None) × (w.sched.steal 0 ≡ None) × (w.sched.finishes ≡ 3) }
{}
