//! The last use of each key's block.
ghost use Rattle.std.specs.Prelude.{◌<◌, length, IfOk};
ghost use Rattle.std.specs.List.{All};
ghost use Rattle.cluster_msgs.specs.Shape.{key_count, deps_of};
ghost use Rattle.graph_run.specs.Uses.{AreLastUses};
ghost use Rattle.graph_run.specs.Writes.{IsWritten};

use cluster_msgs::GraphShape;
use std::alloc::{AllocError, Global};

/// Of each key the greatest one that depends on it, or the key itself where none does.
///
/// # Errors
/// Where no memory is left.
pub fn last_uses(alloc: Global, graph: &GraphShape) -> Result<Vec<u32>, AllocError>
    ensures { IfOk result (λ last. AreLastUses (deps_of graph.now) (key_count graph.now) last.items) }
{
    graph.sound();
    let keys = graph.keys();
    let mut last = Vec::with_capacity(alloc, keys as usize)?;
    for key in 0..keys {
        mark(last.as_mut_slice(), graph.deps(key), key);
        last.push(key)?;
    }
    Ok(last)
}

// This key is the last so far that uses each of its dependencies.
fn mark(last: &mut [u32], deps: &[u32], key: u32)
    requires { All (λ d. d < length last.old) deps.now }
    ensures { IsWritten (λ d. Unit {0}) 0 key deps.now last.old last.new }
{
    for dep in deps {
        last[*dep as usize] = key;
    }
}
