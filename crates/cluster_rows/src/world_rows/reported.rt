//! Reports in which each count differs from none.
ghost use Rattle.std.specs.Prelude.{◌≡◌, ◌∷◌, ◌++◌, [], true};
ghost use Rattle.cluster_msgs.specs.declared.events.Asker.TheVariants.{Client};
ghost use Rattle.cluster_msgs.specs.declared.events.Event.TheVariants.{Suspect, DeliverUp, DeliverToClient, Finish, SendGather};
ghost use Rattle.cluster_rules.specs.World.{opening};
ghost use Rattle.cluster_rows.specs.WorkerTalk.{one_key, three_keys};
ghost use Rattle.cluster_rows.specs.SmallWorlds.{plain_job, can, report_of, one_started, third_made, three_alone, stolen, stolen_and_made, unheard_yes};

/// A no and a yes count as such; the thief's start counts once the thief makes it.
pub fn answers_to_steals_are_counted()
    ensures answered { report_of (plain_job three_alone) stolen ≡
        record { keys = 3; edges = 0; started = 2; workers = (1, 1) ∷ (2, 1) ∷ []; gathers = 0; confirmed = 1; refused = 1; losses = 0 } }
    ensures made { report_of (plain_job three_alone) stolen_and_made ≡
        record { keys = 3; edges = 0; started = 3; workers = (1, 1) ∷ (2, 2) ∷ []; gathers = 0; confirmed = 1; refused = 1; losses = 0 } }
{}

/// A gather that a worker sent counts, and a client's doesn't.
pub fn gathers_of_workers_are_counted()
    ensures workers { report_of (plain_job three_keys) third_made ≡
        record { keys = 3; edges = 2; started = 3; workers = (1, 2) ∷ (2, 1) ∷ []; gathers = 1; confirmed = 0; refused = 0; losses = 0 } }
    ensures clients { report_of (plain_job three_keys) (third_made ++ DeliverToClient 1 ∷ SendGather (Client 1) 2 ∷ []) ≡
        record { keys = 3; edges = 2; started = 3; workers = (1, 2) ∷ (2, 1) ∷ []; gathers = 1; confirmed = 0; refused = 0; losses = 0 } }
    ensures legal { can (plain_job three_keys) (opening (plain_job three_keys)) (third_made ++ DeliverToClient 1 ∷ SendGather (Client 1) 2 ∷ []) ≡ true }
{}

/// A suspicion is a loss. The yes of a suspected worker is dropped and counts here all the same, and a finish that was
/// dropped doesn't.
pub fn suspicions_and_unheard_answers_are_counted()
    ensures answer { report_of (plain_job three_alone) unheard_yes ≡
        record { keys = 3; edges = 0; started = 1; workers = (1, 0) ∷ (2, 1) ∷ []; gathers = 0; confirmed = 1; refused = 0; losses = 1 } }
    ensures legal { can (plain_job three_alone) (opening (plain_job three_alone)) unheard_yes ≡ true }
    ensures finish { report_of (plain_job one_key) (one_started ++ Suspect 1 ∷ Finish 1 0 ∷ DeliverUp 1 ∷ []) ≡
        record { keys = 1; edges = 0; started = 1; workers = (1, 1) ∷ (2, 0) ∷ []; gathers = 0; confirmed = 0; refused = 0; losses = 1 } }
{}
