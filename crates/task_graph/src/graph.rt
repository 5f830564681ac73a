//! Tasks, and graphs of them.
ghost use Rattle.std.specs.Prelude.{◌≡◌, ◌<◌, ◌≤◌, ◌^◌, ◌∷◌, ◌++◌, [], length, map, IfOk, OnOk, OnErr};
ghost use Rattle.cluster_msgs.specs.Dags.{IsEarlier};
ghost use Rattle.cluster_msgs.specs.Shape.{IsShape, Follows, deps_of, edge_count};
ghost use Rattle.task_graph.specs.Graphs.{shape_of};
ghost use Rattle.task_graph.specs.Pushes.{first_bad, limit_passed, refusal, row_of, IsPushed};

use crate::limit::Quantity;
use block_kernels::Spec;
use cluster_msgs::{GraphRow, GraphShape, KeyList, RowsError};
use std::alloc::{AllocError, Global};
use std::marker::Model;
use thiserror::Error;

/// An operation on the blocks of earlier keys, with its cost and the bytes of its block.
#[derive(Drop)]
pub struct Task {
    /// What is made of the blocks of the dependencies. The inputs stand in the order of `deps`.
    pub spec: Spec,
    /// The keys whose blocks are used, ascending.
    pub deps: KeyList,
    /// The bytes of the block and of those it is made of.
    pub work: u64,
    /// The bytes of the block.
    pub nbytes: u64,
}

/// Why a task isn't taken as the next key of a graph.
#[derive(Clone, Copy, Debug, Error)]
pub enum PushError {
    /// The first dependency that isn't below the new key, or isn't above the one before it.
    #[error("dependency {dep} isn't below its key, or doesn't ascend")]
    BadDep { dep: u32 },
    /// The first limit that the graph would pass: keys, then dependencies, then the bytes of the block.
    #[error("the graph would be too large")]
    Limit { quantity: Quantity },
    #[error("out of memory")]
    OutOfMemory,
}

impl From<AllocError> for PushError {
    ghost use Rattle.std.specs.Prelude.{◌≡◌};
    ghost use Rattle.task_graph.specs.declared.graph.PushError.TheVariants.{OutOfMemory};

    ghost from_gives = { λ _ e. e ≡ OutOfMemory };

    fn from(_error: AllocError) -> PushError {
        PushError::OutOfMemory
    }
}

/// Tasks, of which each uses earlier ones alone. Its keys are the numbers below their count.
///
/// There are at most 32,768 keys, with at most 262,144 dependencies in all. A key's dependencies ascend and are smaller
/// than it. Work is in bytes, at most 2^46 a key, and a block has at most 2^27 bytes.
#[derive(Drop)]
pub struct Graph {
    alloc: Global,
    tasks: Vec<Task>,
    edge_total: u32,
}

impl Model for Graph {
    ghost use Rattle.std.specs.Prelude.{List};
    ghost use Rattle.task_graph.specs.declared.graph.Task.{Task};

    ghost Value = { List Task };

    ghost use Rattle.task_graph.specs.Stored.{IsStored};

    ghost view = { λ g. g.tasks.items };

    ghost invariant = { IsStored };
}

impl Graph {
    /// The graph without keys. No memory.
    pub fn new(alloc: Global) -> Graph
        ensures { result ≡ [] }
    {
        Graph {
            alloc,
            tasks: Vec::new(alloc),
            edge_total: 0,
        }
    }

    /// Adds the next key, and tells its number.
    ///
    /// # Errors
    /// `BadDep` exactly where a dependency isn't below the new number or isn't above the one before it, the first such.
    /// Else `Limit` exactly where a limit would be passed, the first of keys, dependencies and the bytes of the block.
    /// Else `OutOfMemory` where no memory is left. The graph is then as before.
    pub fn push(&mut self, task: Task) -> Result<u32, PushError>
        requires { task.work ≤ 2 ^ 46 }
        ensures { IsPushed self.old task result self.new }
    {
        match refused(self.keys(), self.edge_total, &task) {
            Some(error) => Err(error),
            None => Ok(self.add(task)?),
        }
    }

    // Adds a key that can come next.
    fn add(&mut self, task: Task) -> Result<u32, AllocError>
        requires { Follows (shape_of self.old) task.deps task.work task.nbytes }
        ensures key { IfOk result (λ key. key ≡ length self.old) }
        ensures ok { OnOk result (self.new ≡ self.old ++ task ∷ []) }
        ensures err { OnErr result (self.new ≡ self.old) }
    {
        let key = self.keys();
        let edges = task.deps.len() as u32;
        self.tasks.push(task)?;
        self.edge_total += edges;
        Ok(key)
    }

    /// The bounds of a graph, which each has.
    pub fn sound(&self)
        ensures { IsShape (shape_of self.now) }
    {
        let _tasks = &self.tasks;
    }

    /// The number of keys. No memory.
    pub fn keys(&self) -> u32
        ensures { result ≡ length self.now }
    {
        self.tasks.len() as u32
    }

    /// The number of dependencies of all keys together. No memory.
    pub fn edges(&self) -> u32
        ensures { result ≡ edge_count (shape_of self.now) }
    {
        self.edge_total
    }

    /// The tasks, that of key 0 first. No memory.
    pub fn tasks(&self) -> &[Task]
        ensures { result.now ≡ self.now }
    {
        self.tasks.as_slice()
    }

    /// Where the graph takes its memory.
    pub fn allocator(&self) -> Global {
        self.alloc
    }

    /// The graph as the cluster sees it.
    ///
    /// # Errors
    /// Where no memory is left.
    pub fn shape(&self) -> Result<GraphShape, AllocError>
        ensures { IfOk result (λ shape. shape ≡ shape_of self.now) }
    {
        let rows = rows(self.alloc, self.tasks.as_slice())?;
        match GraphShape::from_rows(self.alloc, rows) {
            Ok(shape) => Ok(shape),
            Err(RowsError::OutOfMemory) => Err(AllocError),
            Err(RowsError::Unfit { .. }) => unreachable!(),
        }
    }
}

impl Graph {
    // The graph of these tasks, with so many dependencies in all.
    pub(crate) fn from_tasks(alloc: Global, tasks: Vec<Task>, edge_total: u32) -> Graph
        requires shape { IsShape (shape_of tasks.items) }
        requires edges { edge_total ≡ edge_count (shape_of tasks.items) }
        ensures { result ≡ tasks.items }
    {
        Graph {
            alloc,
            tasks,
            edge_total,
        }
    }

    // What follows of the bounds.
    pub(crate) fn settled(&self)
        ensures earlier { IsEarlier (deps_of (shape_of self.now)) }
        ensures few { length self.now ≤ 32768 }
    {
        let _tasks = &self.tasks;
    }

    // The tasks, and where they take their memory.
    pub(crate) fn into_tasks(self) -> (Global, Vec<Task>)
        ensures tasks { result.1.items ≡ self }
        ensures shape { IsShape (shape_of self) }
    {
        let Graph { alloc, tasks, .. } = self;
        (alloc, tasks)
    }
}

// The first dependency that a key of this number can't have at its place.
fn bad_dependency(key: u32, deps: &[u32]) -> Option<u32>
    ensures { result ≡ first_bad key 0 deps.now }
{
    let mut least = 0;
    for dep in deps {
        if *dep < least {
            return Some(*dep);
        }
        if *dep >= key {
            return Some(*dep);
        }
        least = *dep + 1;
    }
    None
}

// The first limit that a graph of so many keys and dependencies passes with this task.
fn passed(keys: u32, edges: u32, task: &Task) -> Option<Quantity>
    ensures { result ≡ limit_passed keys edges task.now }
{
    let deps = task.deps.as_slice();
    if keys > 32767 {
        Some(Quantity::Keys)
    } else if edges as usize + deps.len() > 262144 {
        Some(Quantity::Edges)
    } else if task.nbytes > 1 << 27 {
        Some(Quantity::BlockBytes)
    } else {
        None
    }
}

fn refused(keys: u32, edges: u32, task: &Task) -> Option<PushError>
    ensures { result ≡ refusal keys edges task.now }
{
    if let Some(dep) = bad_dependency(keys, task.deps.as_slice()) {
        return Some(PushError::BadDep { dep });
    }
    match passed(keys, edges, task) {
        Some(quantity) => Some(PushError::Limit { quantity }),
        None => None,
    }
}

fn row(task: &Task) -> Result<GraphRow, AllocError>
    ensures { IfOk result (λ row. row ≡ row_of task.now) }
{
    Ok(GraphRow {
        deps: task.deps.copy()?,
        work: task.work,
        nbytes: task.nbytes,
    })
}

fn rows(alloc: Global, tasks: &[Task]) -> Result<Vec<GraphRow>, AllocError>
    ensures { IfOk result (λ rows. rows.items ≡ map row_of tasks.now) }
{
    let mut rows = Vec::with_capacity(alloc, tasks.len())?;
    for task in tasks {
        rows.push(row(task)?)?;
    }
    Ok(rows)
}

// The dependencies of a key.
pub(crate) fn deps_at(tasks: &[Task], key: u32) -> &[u32]
    requires { key < length tasks.now }
    ensures { result.now ≡ deps_of (shape_of tasks.now) key }
{
    tasks[key as usize].deps.as_slice()
}
