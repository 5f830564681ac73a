//! Laws about new numbers. Each is a function with an empty body.
ghost use Rattle.std.specs.Prelude.{◌≡◌, ◌<◌, ℕ, ℤ, List, length, get_or, Contains};
ghost use Rattle.std.specs.List.{AllByRecursion};
ghost use Rattle.cluster_msgs.specs.Dags.{IsEarlier};
ghost use Rattle.cluster_msgs.specs.Shape.{deps_of};
ghost use Rattle.task_graph.specs.declared.graph.Task.{Task};
ghost use Rattle.task_graph.specs.Graphs.{shape_of, value};
ghost use Rattle.task_graph.specs.Numberings.{AreFit, IsNumbering};
ghost use Rattle.task_graph.specs.Orders.{depth_first, kept, renumbered};

/// A kept key has under its new number the value that it had under its old one, whatever the inputs hold. The tasks'
/// operations name places among their dependencies, and these are named once each.
pub fn values_are_kept()
    ensures { (files : ℕ → List ℕ → ℤ) (tasks : List Task) (order : List ℕ) → IsEarlier (deps_of (shape_of tasks)) → AreFit tasks → IsNumbering tasks order →
        (j : ℕ) → j < length order → value files (renumbered tasks order) j ≡ value files tasks (get_or order j 0) }
{}

/// Operations that name places among their dependencies still do under new numbers.
pub fn places_still_fit()
    ensures { (tasks : List Task) (order : List ℕ) → AreFit tasks → AreFit (renumbered tasks order) }
{}

/// The depth-first order of wanted keys has each of them, stands each key behind all that it depends on, and once.
pub fn depth_first_is_numbering()
    ensures numbering { (tasks : List Task) (wanted : List ℕ) → IsEarlier (deps_of (shape_of tasks)) → AllByRecursion (λ k. k < length tasks) wanted →
        IsNumbering tasks (depth_first tasks wanted) }
    ensures wanted { (tasks : List Task) (wanted : List ℕ) → IsEarlier (deps_of (shape_of tasks)) → AllByRecursion (λ k. k < length tasks) wanted →
        (k : ℕ) → Contains wanted k → Contains (depth_first tasks wanted) k }
{}

/// So do the kept keys in their old order.
pub fn kept_is_numbering()
    ensures { (tasks : List Task) (wanted : List ℕ) → IsEarlier (deps_of (shape_of tasks)) → IsNumbering tasks (kept tasks wanted) }
{}
