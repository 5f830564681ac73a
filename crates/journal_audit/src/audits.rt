//! Whether a journal is a legal list of events.
ghost use Rattle.std.specs.Prelude.{◌≡◌, ◌≤◌, ◌⊎◌, ◌++◌, ◌∷◌, [], List, ℕ, true, false, Err, IfErr, IfOk};
ghost use Rattle.cluster_msgs.specs.declared.events.Entry.{Entry as AnyEntry};
ghost use Rattle.cluster_laws.specs.Blocks.{job_of, setting_of};
ghost use Rattle.cluster_rules.specs.World.{Job};
ghost use Rattle.cluster_world.specs.Worlds.{running};
ghost use Rattle.cluster_world.specs.declared.errors.StepError.TheVariants as error;
ghost use Rattle.cluster_world.specs.declared.state.Course.TheVariants.{Going};
ghost use Rattle.journal_audit.specs.Audits.{IsAuditOf, IsLegalBut, IsLegalJournal, DiffersAt};
ghost use Rattle.journal_audit.specs.Replays.{FailsBy, GoesOn, HasReplayed};

use crate::merges::Journal;
use crate::reports::report;
use crate::same::same_taken;
use crate::verdict::Audit;
use cluster_msgs::{Entry, GraphShape, JobSpec};
use cluster_world::{StepError, World};
use std::alloc::Global;

// Whether the world takes an entry: its event is enabled there, and the message that was kept is the one that it takes.
fn takes<J: JobSpec>(world: &mut World<J>, entry: &Entry) -> Result<bool, StepError>
    requires going { world.old.course ≡ Going }
    ensures on { IfOk result (λ took. took ≡ true → GoesOn J.feed_tells world.old world.new) }
    ensures took { IfOk result (λ took. took ≡ true → J.feed_tells world.old.job world.old.feed →
        (es : List AnyEntry) → HasReplayed J.operation es world.old → HasReplayed J.operation (es ++ entry.now ∷ []) world.new) }
    ensures refused { IfOk result (λ took. took ≡ false →
        (es : List AnyEntry) → HasReplayed J.operation es world.old → IsLegalJournal (running J.operation world.old) (es ++ entry.now ∷ []) → ⊥) }
    ensures fails { FailsBy J.fault_count world.old.feed result }
    ensures counts { IfOk result (λ took. J.fault_count world.new.feed ≡ J.fault_count world.old.feed) }
    ensures job { world.new.job ≡ world.old.job }
{
    if !same_taken(world.message(&entry.event), entry.message.as_ref()) {
        return Ok(false);
    }
    match world.step(&entry.event) {
        Ok(()) => Ok(true),
        Err(StepError::NotEnabled) => Ok(false),
        Err(StepError::Feed) => Err(StepError::Feed),
        Err(StepError::Stopped | StepError::Spent | StepError::OutOfMemory) => {
            Err(StepError::OutOfMemory)
        }
    }
}

// The stamp of the first entry that the world doesn't take, if there is one.
fn first_wrong<J: JobSpec>(
    world: &mut World<J>,
    entries: &[Entry],
) -> Result<Option<u64>, StepError>
    requires going { world.old.course ≡ Going }
    ensures wrong { IfOk result (λ wrong. J.feed_tells world.old.job world.old.feed → HasReplayed J.operation [] world.old →
        IsLegalBut (running J.operation world.old) entries.now wrong) }
    ensures job { world.new.job ≡ world.old.job }
    ensures fails { FailsBy J.fault_count world.old.feed result }
{
    for entry in entries {
        if !takes(world, entry)? {
            return Ok(Some(entry.stamp));
        }
    }
    Ok(None)
}

// What the audit of a journal says, of which this is the first entry that isn't legal, if there is one.
fn said(
    alloc: Global,
    shape: &GraphShape,
    journal: &Journal,
    wrong: Result<Option<u64>, StepError>,
) -> Result<Audit, StepError>
    ensures audit { IfOk result (λ a. (j : Job) → j.setting.shape ≡ shape.now → IfOk wrong (IsLegalBut j journal.now) → IsAuditOf j journal.now a) }
    ensures fails { IfErr result (λ e. (wrong ≡ Err e) ⊎ (e ≡ error.OutOfMemory)) }
{
    match wrong {
        Ok(None) => match report(alloc, shape, journal) {
            Ok(report) => Ok(Audit::Agrees(report)),
            Err(_) => Err(StepError::OutOfMemory),
        },
        Ok(Some(stamp)) => Ok(Audit::Differs { stamp }),
        Err(failed) => Err(failed),
    }
}

/// Whether a journal is a legal list of the events of a job's world, with so many clients, this saturation and what losses are allowed: each event
/// is enabled in the world that the earlier ones leave, and the message that was kept is the one that it takes there. Else it tells the first entry
/// of which that isn't so.
///
/// Where the feed tells what it holds, each operation that ends does so as the job says.
///
/// # Errors
/// `Feed` only where the feed's count of faults rose, and `OutOfMemory` where no memory is left, or the journal has more entries than a world takes
/// events; no other.
pub fn audit<J: JobSpec>(
    alloc: Global,
    job: J,
    feed: J::Feed,
    clients: u32,
    saturation: u32,
    allowed: Option<u32>,
    journal: &Journal,
) -> Result<Audit, StepError>
    requires clients { clients ≤ 16 }
    requires saturation { (1 ≤ saturation) × (saturation ≤ 1000) }
    requires feed { J.feed_fits job feed }
    ensures audit { IfOk result (λ a. J.feed_tells job feed →
        IsAuditOf (job_of (setting_of (J.graph job) clients saturation allowed) (J.operation job)) journal.now a) }
    ensures fails { FailsBy J.fault_count feed result }
{
    let Ok(mut world) = World::new(alloc, job, feed, clients, saturation, allowed) else {
        return Err(StepError::OutOfMemory);
    };
    let wrong = first_wrong(&mut world, journal.as_slice());
    let said = said(alloc, world.shape(), journal, wrong);
    // the world is let go once, where that is proved
    let _feed = world.into_feed();
    said
}

/// No journal is legal and differs, and none differs at two stamps: so an audit agrees exactly where the journal is legal, and else differs exactly
/// at the first entry that isn't.
pub fn one_audit()
    ensures legal { (j : Job) (es : List AnyEntry) (stamp : ℕ) → IsLegalJournal j es → DiffersAt j es stamp → ⊥ }
    ensures first { (j : Job) (es : List AnyEntry) (s t : ℕ) → DiffersAt j es s → DiffersAt j es t → s ≡ t }
{}
