//! The entries of all histories as one list.
ghost use Rattle.std.specs.Prelude.{◌≡◌, ◌++◌, List, length, map, IfOk, OnOk};
ghost use Rattle.std.specs.List.{flat_map};
ghost use Rattle.cluster_msgs.specs.declared.events.Entry.{Entry as AnyEntry};
ghost use Rattle.journal_audit.specs.Merges.{IsMerge};

use cluster_msgs::{Entry, History};
use std::alloc::{AllocError, Global};
use std::marker::Model;

/// Entries of many histories, of which a clause sees the list.
#[derive(Drop)]
pub struct Journal {
    entries: Vec<Entry>,
}

impl Model for Journal {
    ghost use Rattle.std.specs.Prelude.{List};
    ghost use Rattle.cluster_msgs.specs.declared.events.Entry.{Entry as AnyEntry};

    ghost Value = { List AnyEntry };

    ghost view = { λ j. j.entries.items };
}

impl Journal {
    /// How many entries there are.
    pub fn len(&self) -> usize
        ensures { result ≡ length self.now }
    {
        self.entries.len()
    }

    pub fn as_slice(&self) -> &[Entry]
        ensures { result.now ≡ self.now }
    {
        self.entries.as_slice()
    }
}

/// The entries of all histories, by their stamps, which ascend. Those of equal stamps stand in the order of the
/// histories, and those of one history in the order in which it has them.
///
/// It takes the histories, since a copy of their entries would need as much memory again: what an entry has is moved,
/// and only the row of the entries is laid out anew. What a history had no room for is left out.
///
/// # Errors
/// Where no memory is left; the histories are then dropped.
pub fn merge(alloc: Global, histories: Vec<History>) -> Result<Journal, AllocError>
    ensures { IfOk result (λ j. IsMerge (map (λ h. h.entries) histories.items) j) }
{
    let mut entries = joined(alloc, histories)?;
    entries.sort_by_key(|entry| entry.stamp)?;
    Ok(Journal { entries })
}

// The entries of the histories, end to end.
fn joined(alloc: Global, histories: Vec<History>) -> Result<Vec<Entry>, AllocError>
    ensures { IfOk result (λ all. all.items ≡ flat_map (λ h. h.entries) histories.items) }
{
    let mut all = Vec::new(alloc);
    for history in histories {
        add(&mut all, history)?;
    }
    Ok(all)
}

// Appends the entries of a history.
fn add(all: &mut Vec<Entry>, history: History) -> Result<(), AllocError>
    ensures { OnOk result (all.new.items ≡ all.old.items ++ history.entries) }
{
    let mut entries = history.entries.into_vec();
    all.append(&mut entries)
}

/// There is one list of the entries of lists by their stamps.
pub fn one_merge()
    ensures { (lists : List (List AnyEntry)) (xs ys : List AnyEntry) → IsMerge lists xs → IsMerge lists ys → xs ≡ ys }
{}
