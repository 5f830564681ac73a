//! The shape of a graph of tasks.
ghost use Rattle.std.specs.Prelude.{◌≡◌, ◌∷◌, ◌++◌, ◌<◌, ◌≤◌, ◌+◌, ◌^◌, ◌↔◌, [], length, IfOk, OnOk, OnErr, IsTrue};
ghost use Rattle.std.specs.List.{AllByRecursion};
ghost use Rattle.std.specs.List.Sorted.{IsStrictlyIncreasing};
ghost use Rattle.cluster_msgs.specs.Stored.{rows_of, IsMadeOf};
ghost use Rattle.cluster_msgs.specs.Shape.{Shape, IsShape, Follows, key_count, edge_count, deps_of, work_of, nbytes_of, pushed};

use crate::lists::KeyList;
use std::alloc::{AllocError, AllocFailed, Global};
use std::marker::Model;
use std::sync::Arc;
use thiserror::Error;

/// One key of a graph: its dependencies, its work and the bytes of its block.
#[derive(Drop)]
pub struct GraphRow {
    pub deps: KeyList,
    pub work: u64,
    pub nbytes: u64,
}

/// Why rows are no graph.
#[derive(Clone, Copy, Debug, Error)]
pub enum RowsError {
    #[error("key {key} passes a limit, or its dependencies don't ascend below it")]
    Unfit { key: u32 },
    #[error("out of memory")]
    OutOfMemory,
}

impl<T: Drop> From<AllocFailed<T>> for RowsError {
    ghost use Rattle.std.specs.Prelude.{◌≡◌};
    ghost use Rattle.cluster_msgs.specs.declared.shape.RowsError.TheVariants.{OutOfMemory};

    ghost from_gives = { λ _ e. e ≡ OutOfMemory };

    fn from(_error: AllocFailed<T>) -> RowsError {
        RowsError::OutOfMemory
    }
}

impl GraphRow {
    fn copy(&self) -> Result<GraphRow, AllocError>
        ensures { IfOk result (λ copy. copy ≡ self.now) }
    {
        Ok(GraphRow {
            deps: self.deps.copy()?,
            work: self.work,
            nbytes: self.nbytes,
        })
    }
}

// The rows that copies of a graph share. There are none before the first key, so that a new graph takes no memory.
type SharedRows = Option<Arc<Vec<GraphRow>>>;

fn members(rows: &SharedRows) -> &[GraphRow]
    ensures { result.now ≡ rows_of rows.now }
{
    match rows {
        None => &[],
        Some(shared) => shared.as_slice(),
    }
}

fn copied(alloc: Global, rows: &[GraphRow]) -> Result<Vec<GraphRow>, AllocError>
    ensures { IfOk result (λ copy. copy.items ≡ rows.now) }
{
    let mut copy = Vec::with_capacity(alloc, rows.len())?;
    for row in rows {
        copy.push(row.copy()?)?;
    }
    Ok(copy)
}

fn is_rising(keys: &[u32]) -> bool
    ensures { IsTrue result ↔ IsStrictlyIncreasing keys.now }
{
    for at in 1..keys.len() {
        if keys[at - 1] >= keys[at] {
            return false;
        }
    }
    true
}

// Whether the key of this number can have the row, in a graph of as many keys and so many dependencies.
fn follows(key: usize, edges: u32, row: &GraphRow) -> bool
    ensures { (g : Shape) → key_count g ≡ key → edge_count g ≡ edges → IsTrue result ↔ Follows g row.now.deps row.now.work row.now.nbytes }
{
    let deps = row.deps.as_slice();
    let is_small = key < 32768
        && edges as usize + deps.len() <= 262144
        && row.work <= 1 << 46
        && row.nbytes <= 1 << 27;
    is_small && is_rising(deps) && deps.iter().all(|dep| (*dep as usize) < key)
}

// Adds a row: in place where nobody else has the rows, and else to a copy.
fn add(alloc: Global, rows: &mut SharedRows, row: GraphRow) -> Result<(), AllocError>
    ensures ok { OnOk result (rows_of rows.new ≡ rows_of rows.old ++ row ∷ []) }
    ensures err { OnErr result (rows_of rows.new ≡ rows_of rows.old) }
{
    if let Some(shared) = rows {
        if let Some(own) = Arc::get_mut(shared) {
            return Ok(own.push(row)?);
        }
    }
    let mut own = copied(alloc, members(rows))?;
    own.push(row)?;
    *rows = Some(Arc::new(alloc, own)?);
    Ok(())
}

/// What is known of each key beside its operation: its dependencies, its work and the bytes of its block.
///
/// Keys are the numbers below their count. There are at most 32,768, with at most 262,144 dependencies in all. A key's
/// dependencies are smaller than it. Work is in bytes, at most 2^46 a key, and a block has at most 2^27 bytes.
#[derive(Drop)]
pub struct GraphShape {
    alloc: Global,
    rows: SharedRows,
    edge_total: u32,
}

impl Model for GraphShape {
    ghost use Rattle.cluster_msgs.specs.Shape.{Shape};
    ghost use Rattle.cluster_msgs.specs.Stored.{IsStored, rows_of, told};

    ghost Value = { Shape };

    ghost view = { λ s. told (rows_of s.rows) };

    ghost invariant = { IsStored };
}

impl GraphShape {
    /// The graph without keys.
    pub fn new(alloc: Global) -> GraphShape
        ensures { result ≡ record { deps = []; work = []; nbytes = [] } }
    {
        GraphShape {
            alloc,
            rows: None,
            edge_total: 0,
        }
    }

    /// The graph of these rows, one a key.
    ///
    /// # Errors
    /// `Unfit` exactly where a row can't follow those before it: its dependencies don't ascend strictly or aren't below
    /// it, or a limit is passed; it names the first. `OutOfMemory` where no memory is left.
    pub fn from_rows(alloc: Global, rows: Vec<GraphRow>) -> Result<GraphShape, RowsError>
        ensures { IsMadeOf rows.items result }
    {
        let mut edge_total = 0;
        for (key, row) in rows.iter().enumerate() {
            if !follows(key, edge_total, row) {
                return Err(RowsError::Unfit { key: key as u32 });
            }
            edge_total += row.deps.len() as u32;
        }
        let rows = Some(Arc::new(alloc, rows)?);
        Ok(GraphShape {
            alloc,
            rows,
            edge_total,
        })
    }

    /// The bounds of a graph, which each has: dependencies ascend strictly and are below their key, and no limit is
    /// passed.
    pub fn sound(&self)
        ensures { IsShape self.now }
    {
        let _rows = &self.rows;
    }

    /// Adds the next key with its dependencies, its work and the bytes of its block.
    ///
    /// # Errors
    /// Where no memory is left; the graph is then as before.
    pub fn push(&mut self, deps: &KeyList, work: u64, nbytes: u64) -> Result<(), AllocError>
        requires room { key_count self.old < 32768 }
        requires edges { edge_count self.old + length deps.now ≤ 262144 }
        requires rising { IsStrictlyIncreasing deps.now }
        requires below { AllByRecursion (λ d. d < key_count self.old) deps.now }
        requires light { work ≤ 2 ^ 46 }
        requires small { nbytes ≤ 2 ^ 27 }
        ensures ok { OnOk result (self.new ≡ pushed self.old deps.now work nbytes) }
        ensures err { OnErr result (self.new ≡ self.old) }
    {
        let row = GraphRow {
            deps: deps.copy()?,
            work,
            nbytes,
        };
        let more = deps.len() as u32;
        add(self.alloc, &mut self.rows, row)?;
        self.edge_total += more;
        Ok(())
    }

    /// An equal graph, which shares its rows with this one.
    ///
    /// # Errors
    /// Where no memory is left.
    pub fn copy(&self) -> Result<GraphShape, AllocError>
        ensures { IfOk result (λ copy. copy ≡ self.now) }
    {
        let rows = match &self.rows {
            None => None,
            Some(shared) => Some(Arc::try_clone(shared)?),
        };
        Ok(GraphShape {
            alloc: self.alloc,
            rows,
            edge_total: self.edge_total,
        })
    }

    /// The number of keys. They are 0 and the numbers up to it.
    pub fn keys(&self) -> u32
        ensures { result ≡ key_count self.now }
    {
        members(&self.rows).len() as u32
    }

    /// The number of dependencies of all keys together.
    pub fn edges(&self) -> u32
        ensures { result ≡ edge_count self.now }
    {
        self.edge_total
    }

    /// The dependencies of a key, ascending.
    pub fn deps(&self, key: u32) -> &[u32]
        requires { key < key_count self.now }
        ensures { result.now ≡ deps_of self.now key }
    {
        members(&self.rows)[key as usize].deps.as_slice()
    }

    /// The work of a key, in bytes.
    pub fn work(&self, key: u32) -> u64
        requires { key < key_count self.now }
        ensures { result ≡ work_of self.now key }
    {
        members(&self.rows)[key as usize].work
    }

    /// The bytes of a key's block.
    pub fn nbytes(&self, key: u32) -> u64
        requires { key < key_count self.now }
        ensures { result ≡ nbytes_of self.now key }
    {
        members(&self.rows)[key as usize].nbytes
    }
}
