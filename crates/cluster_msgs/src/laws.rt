//! Laws about the values of keys and the keys at fault. Each is a function with an empty body.
ghost use Rattle.std.specs.Prelude.{◌≡◌, ◌≤◌, ◌==◌, ◌||◌, ℕ, Bool, true, List, Option, Some, None, map, Contains, option_and_then};
ghost use Rattle.std.specs.List.{list_any};
ghost use Rattle.cluster_msgs.specs.Dags.{IsEarlier};
ghost use Rattle.cluster_msgs.specs.Values.{all_of, val, cone, faulty};

/// The value of a key is its operation over the values of its dependencies, if all have one.
pub fn value_by_operation<V>()
    ensures { (deps : ℕ → List ℕ) (op : ℕ → List V → Option V) → IsEarlier deps → (k : ℕ) →
        val deps op k ≡ option_and_then (op k) (all_of (map (val deps op) (deps k))) }
{}

/// A key has no value where a dependency has none.
pub fn bad_after_bad<V>()
    ensures { (deps : ℕ → List ℕ) (op : ℕ → List V → Option V) → IsEarlier deps → (k d : ℕ) →
        Contains (deps k) d → val deps op d ≡ None → val deps op k ≡ None }
{}

/// Where all dependencies have values, the key's value is what its operation gives, and it is faulty where that is
/// nothing.
pub fn value_of_values<V>()
    ensures { (deps : ℕ → List ℕ) (op : ℕ → List V → Option V) → IsEarlier deps → (k : ℕ) (vs : List V) →
        all_of (map (val deps op) (deps k)) ≡ Some vs →
        (val deps op k ≡ op k vs) × (op k vs ≡ None → faulty deps (val deps op) k ≡ true) }
{}

/// A faulty key's dependencies have values, of which its operation makes nothing.
pub fn faulty_operation<V>()
    ensures { (deps : ℕ → List ℕ) (op : ℕ → List V → Option V) → IsEarlier deps → (k : ℕ) →
        faulty deps (val deps op) k ≡ true →
        (vs : List V) × (all_of (map (val deps op) (deps k)) ≡ Some vs) × (op k vs ≡ None) }
{}

/// A key without a value has a faulty key in its cone. So where no key of a cone is faulty, its key has a value.
pub fn fault_below_bad<V>()
    ensures { (deps : ℕ → List ℕ) (op : ℕ → List V → Option V) → IsEarlier deps → (k : ℕ) →
        val deps op k ≡ None →
        (j : ℕ) × (cone deps k j ≡ true) × (faulty deps (val deps op) j ≡ true) }
{}

/// A faulty key in a cone leaves its key without a value.
pub fn bad_above_fault<V>()
    ensures { (deps : ℕ → List ℕ) (op : ℕ → List V → Option V) → IsEarlier deps → (k j : ℕ) →
        cone deps k j ≡ true → faulty deps (val deps op) j ≡ true → val deps op k ≡ None }
{}

/// A key is in the cone of k where it is k or in the cone of a dependency of k.
pub fn cone_by_dependencies()
    ensures { (deps : ℕ → List ℕ) → IsEarlier deps → (k j : ℕ) →
        cone deps k j ≡ ((k == j) || list_any (λ d. cone deps d j) (deps k)) }
{}

/// A cone has its key, and with a key all dependencies of it.
pub fn cone_is_closed()
    ensures itself { (deps : ℕ → List ℕ) → IsEarlier deps → (k : ℕ) → cone deps k k ≡ true }
    ensures dependencies { (deps : ℕ → List ℕ) → IsEarlier deps → (k j d : ℕ) →
        cone deps k j ≡ true → Contains (deps j) d → cone deps k d ≡ true }
{}

/// A cone is in each set that has its key and with a key all dependencies of it.
pub fn cone_is_least()
    ensures { (deps : ℕ → List ℕ) → IsEarlier deps → (set : ℕ → Bool) (k : ℕ) → set k ≡ true →
        ((j d : ℕ) → set j ≡ true → Contains (deps j) d → set d ≡ true) →
        (j : ℕ) → cone deps k j ≡ true → set j ≡ true }
{}

/// No key of a cone is above its key.
pub fn cone_is_below()
    ensures { (deps : ℕ → List ℕ) → IsEarlier deps → (k j : ℕ) → cone deps k j ≡ true → j ≤ k }
{}
