//! The trait of a disk for blocks, with what it tells and with a count of its faults.
ghost use Rattle.std.specs.Prelude.{◌≡◌, IfOk, OnOk, None};
ghost use Rattle.io_edge.specs.Cause.{HasCause};
ghost use Rattle.io_edge.specs.Disk.{DiskView, HoldsAt, KeepsAll, KeepsOthers, ReadsAt};

use crate::Failed;

/// A place that holds bytes under keys. It may tell what it holds; a real one tells the count of its faults alone.
///
/// No call takes memory, but a `put`, which fails with a raised count where it finds none.
pub trait SpillDisk: Send + Sync + Drop {
    /// What it tells.
    ghost view: { Self → DiskView };

    /// Holds these bytes under the key from now on, in place of those that it held there.
    ///
    /// # Errors
    /// `Failed` only where the count of faults rose. What it holds under the key is left open then.
    fn put(&mut self, key: u32, bytes: &[u8]) -> Result<(), Failed>
        ensures tells { (view self.new).tells ≡ (view self.old).tells }
        ensures held { OnOk result (HoldsAt (view self.new) key bytes.now) }
        ensures others { KeepsOthers key (view self.old) (view self.new) }
        ensures kept { OnOk result ((view self.new).faults ≡ (view self.old).faults) }
        ensures cause { HasCause (view self.old).faults (view self.new).faults result };

    /// Answers how many bytes it holds under the key, and puts the front of them into the buffer, as many as fit. What
    /// the buffer holds past those is left open.
    ///
    /// # Errors
    /// `Failed` only where the count of faults rose.
    fn get(&mut self, key: u32, buf: &mut [u8]) -> Result<usize, Failed>
        ensures tells { (view self.new).tells ≡ (view self.old).tells }
        ensures same { KeepsAll (view self.old) (view self.new) }
        ensures read { IfOk result (ReadsAt (view self.old) key buf.old buf.new) }
        ensures kept { OnOk result ((view self.new).faults ≡ (view self.old).faults) }
        ensures cause { HasCause (view self.old).faults (view self.new).faults result };

    /// Holds nothing under the key from now on.
    ///
    /// # Errors
    /// `Failed` only where the count of faults rose. What it holds under the key is left open then.
    fn delete(&mut self, key: u32) -> Result<(), Failed>
        ensures tells { (view self.new).tells ≡ (view self.old).tells }
        ensures gone { OnOk result ((view self.new).held key ≡ None) }
        ensures others { KeepsOthers key (view self.old) (view self.new) }
        ensures kept { OnOk result ((view self.new).faults ≡ (view self.old).faults) }
        ensures cause { HasCause (view self.old).faults (view self.new).faults result };

    /// How often a call has failed. It never falls, and stands still at its type's end.
    fn faults(&self) -> u64
        ensures { result ≡ (view self.now).faults };
}
