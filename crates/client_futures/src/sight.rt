//! What a driver saw of a client's keys.
ghost use Rattle.std.specs.Prelude.{◌≡◌, ◌<◌, ℕ, true, false, Some, None, IfOk, IfSome, IfNone, OnSome};
ghost use Rattle.std.specs.Arc.{arc_value};
ghost use Rattle.cluster_msgs.specs.declared.cores.End.TheVariants.{Got, Erred};
ghost use Rattle.client_futures.specs.Seen.{Lends, LetsGo, NoneErred, Notes};
ghost use Rattle.client_futures.specs.Sighted.{seen_of};

use cluster_msgs::End;
use std::alloc::{AllocError, Global};
use std::sync::Arc;

/// What was seen of a key.
#[derive(Drop)]
enum Sighted<B> {
    Open,
    Got(Arc<B>),
    Erred(u32),
}

/// What a driver saw of a client's keys: how each ended, the blocks that it lends, and whether the run is over. A driver that keeps one answers from it as
/// a `Rounds`.
#[derive(Drop)]
pub struct Sight<B> {
    row: Vec<Sighted<B>>,
    erred: bool,
    over: bool,
    ghost flagged: { erred ≡ false → NoneErred (seen_of row.items over) },
}

impl<B: Drop> Sight<B> {
    ghost use Rattle.client_futures.specs.Sights.{sight_seen};

    /// Nothing was seen, there is no room for any key, and the run goes on.
    pub fn blind(alloc: Global) -> Sight<B>
        ensures ends { (k : ℕ) → (sight_seen result).ends k ≡ None }
        ensures over { (sight_seen result).over ≡ false }
    {
        Sight {
            row: Vec::new(alloc),
            erred: false,
            over: false,
        }
    }

    /// Nothing was seen of so many keys, and the run goes on.
    ///
    /// # Errors
    /// Where no memory is left.
    pub fn new(alloc: Global, keys: u32) -> Result<Sight<B>, AllocError>
        ensures ends { IfOk result (λ sight. (k : ℕ) → (sight_seen sight).ends k ≡ None) }
        ensures over { IfOk result (λ sight. (sight_seen sight).over ≡ false) }
    {
        let mut row = Vec::with_capacity(alloc, keys as usize)?;
        for _ in 0..keys {
            row.push(Sighted::Open)?;
        }
        Ok(Sight {
            row,
            erred: false,
            over: false,
        })
    }

    /// How a key was seen to end.
    pub fn end(&self, key: u32) -> Option<End>
        ensures { result ≡ (sight_seen self.now).ends key }
    {
        match self.row.get(key as usize) {
            Some(Sighted::Got(_)) => Some(End::Got),
            Some(Sighted::Erred(blame)) => Some(End::Erred { blame: *blame }),
            _ => None,
        }
    }

    /// Whether a key may have failed.
    pub fn may_err(&self) -> bool
        ensures { result ≡ false → NoneErred (sight_seen self.now) }
    {
        self.erred
    }

    /// Whether the run was seen to be over.
    pub fn is_over(&self) -> bool
        ensures { result ≡ (sight_seen self.now).over }
    {
        self.over
    }

    /// Lends the block of a key that is got: `None` exactly where the key isn't got. A block that can be shared no more is let go.
    pub fn take(&mut self, key: u32) -> Option<Arc<B>>
        ensures lent { IfSome result (λ block. Lends (sight_seen self.old) key (arc_value block)) }
        ensures same { OnSome result (sight_seen self.new ≡ sight_seen self.old) }
        ensures none { IfNone result (LetsGo key (sight_seen self.old) (sight_seen self.new)) }
    {
        let shared = match self.row.get(key as usize) {
            Some(Sighted::Got(block)) => Arc::try_clone(block),
            _ => return None,
        };
        match shared {
            Ok(block) => Some(block),
            Err(_) => {
                self.row[key as usize] = Sighted::Open;
                None
            }
        }
    }

    /// Notes the block of a key that was got. Whether there is room for the key; else nothing changes.
    pub fn note_got(&mut self, key: u32, block: Arc<B>) -> bool
        ensures noted { result ≡ true → Notes key (Some Got) (Some (arc_value block)) (sight_seen self.old) (sight_seen self.new) }
        ensures beyond { result ≡ false → sight_seen self.new ≡ sight_seen self.old }
    {
        let at = key as usize;
        if at >= self.row.len() {
            return false;
        }
        self.row[at] = Sighted::Got(block);
        true
    }

    /// Notes that a key failed, and which key is to blame. Whether there is room for the key; else nothing changes.
    pub fn note_erred(&mut self, key: u32, blame: u32) -> bool
        ensures noted { result ≡ true → Notes key (Some (Erred blame)) None (sight_seen self.old) (sight_seen self.new) }
        ensures beyond { result ≡ false → sight_seen self.new ≡ sight_seen self.old }
    {
        let at = key as usize;
        if at >= self.row.len() {
            return false;
        }
        self.erred = true;
        self.row[at] = Sighted::Erred(blame);
        true
    }

    /// Notes that the run is over.
    pub fn note_over(&mut self)
        ensures { sight_seen self.new ≡ record (sight_seen self.old) { over = true } }
    {
        self.over = true;
    }
}
