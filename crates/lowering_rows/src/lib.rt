//! Rows of lowering, computed: what small jobs are lowered to.
//!
//! `lowering_laws` stands below, with the definitions; nothing stands above. Each row is the contract of a function with an
//! empty body, with values that an outside reference gives, and the numbers of keys and edges before culling.
#![tactic(auto)]

ghost use Rattle.std.specs.Prelude.{◌≡◌, [], ◌∷◌, length, Some, None};
ghost use Rattle.task_graph.specs.declared.limit.Quantity.TheVariants.{BlockBytes};
ghost use Rattle.lowering_laws.specs.Lowered.{lowering, lowered, limit_of};
ghost use Rattle.lowering_rows.specs.Rows.{edges, filled_line, added_number, added_number_graph, culled_division, culled_division_graph, empty_slice, empty_slice_graph, backward_slice, backward_slice_graph, slice_of_nothing, slice_of_nothing_graph, product, product_graph, tree_of_ten, tree_of_ten_graph, chunks_of_a_choice, chunks_of_a_choice_graph, joined_arrays, joined_arrays_graph, rechunked_array, rechunked_array_graph, four_blocks, four_blocks_graph};

/// `input a "a.npy" shape (3) chunks (2)`
/// `let b = a + 1`
/// `save b "out.npy"`
pub fn added_number_is_lowered()
    ensures graph { lowered added_number (2 ∷ []) ≡ added_number_graph }
    ensures keys { length (lowering added_number).tasks ≡ 5 }
    ensures dependencies { edges (lowering added_number).tasks ≡ 2 }
{}

/// `input x "x.npy" shape (4) chunks (2)`
/// `input d "d.npy" shape (4) chunks (2)`
/// `let q = x // d`
/// `let r = q[2:4]`
/// `save r "o.npy"`
pub fn culled_division_is_lowered()
    ensures graph { lowered culled_division (3 ∷ []) ≡ culled_division_graph }
    ensures keys { length (lowering culled_division).tasks ≡ 7 }
    ensures dependencies { edges (lowering culled_division).tasks ≡ 5 }
{}

/// `input x "x.npy" shape (4) chunks (2)`
/// `input d "d.npy" shape (4) chunks (2)`
/// `let q = x // d`
/// `let r = q[5:2]`
/// `save r "o.npy"`
pub fn empty_slice_is_lowered()
    ensures graph { lowered empty_slice (3 ∷ []) ≡ empty_slice_graph }
    ensures keys { length (lowering empty_slice).tasks ≡ 7 }
    ensures dependencies { edges (lowering empty_slice).tasks ≡ 5 }
{}

/// `input x "x.npy" shape (5) chunks (2)`
/// `let r = x[::-2]`
/// `save r "o.npy"`
pub fn backward_slice_is_lowered()
    ensures graph { lowered backward_slice (1 ∷ []) ≡ backward_slice_graph }
    ensures keys { length (lowering backward_slice).tasks ≡ 6 }
    ensures dependencies { edges (lowering backward_slice).tasks ≡ 3 }
{}

/// `input x "x.npy" shape (5) chunks (2)`
/// `let r = x[5:2]`
/// `save r "o.npy"`
pub fn slice_of_nothing_is_lowered()
    ensures graph { lowered slice_of_nothing (1 ∷ []) ≡ slice_of_nothing_graph }
    ensures keys { length (lowering slice_of_nothing).tasks ≡ 4 }
    ensures dependencies { edges (lowering slice_of_nothing).tasks ≡ 1 }
{}

/// `input a "a.npy" shape (2, 3) chunks (1, 2)`
/// `input b "b.npy" shape (3, 2) chunks (2, 1)`
/// `let c = tensordot(a, b, (1), (0))`
/// `save c "o.npy"`
pub fn product_is_lowered()
    ensures graph { lowered product (2 ∷ []) ≡ product_graph }
    ensures keys { length (lowering product).tasks ≡ 20 }
    ensures dependencies { edges (lowering product).tasks ≡ 24 }
{}

/// `let s = sum(ramp((10), 0, 1, (1)))`
/// `save s "o.npy"`
pub fn tree_of_ten_is_lowered()
    ensures graph { lowered tree_of_ten (1 ∷ []) ≡ tree_of_ten_graph }
    ensures keys { length (lowering tree_of_ten).tasks ≡ 24 }
    ensures dependencies { edges (lowering tree_of_ten).tasks ≡ 23 }
{}

/// `let x = ramp((6), 0, 1, (2))`
/// `let w = where(ramp((6), 0, 1, (3)), x, x)`
/// `save w "o.npy"`
pub fn chunks_of_a_choice_is_lowered()
    ensures graph { lowered chunks_of_a_choice (2 ∷ []) ≡ chunks_of_a_choice_graph }
    ensures keys { length (lowering chunks_of_a_choice).tasks ≡ 21 }
    ensures dependencies { edges (lowering chunks_of_a_choice).tasks ≡ 24 }
{}

/// `let a = concatenate([full((0, 3), 1, (1, 1)), ramp((2, 3), 0, 1, (1, (2, 1)))], axis=0)`
/// `save a "o.npy"`
pub fn joined_arrays_is_lowered()
    ensures graph { lowered joined_arrays (2 ∷ []) ≡ joined_arrays_graph }
    ensures keys { length (lowering joined_arrays).tasks ≡ 19 }
    ensures dependencies { edges (lowering joined_arrays).tasks ≡ 12 }
{}

/// `let b = rechunk(ramp((3), 0, 1, (1)), ((1, 2)))`
/// `save b "o.npy"`
pub fn rechunked_array_is_lowered()
    ensures graph { lowered rechunked_array (1 ∷ []) ≡ rechunked_array_graph }
    ensures keys { length (lowering rechunked_array).tasks ≡ 5 }
    ensures dependencies { edges (lowering rechunked_array).tasks ≡ 3 }
{}

/// `let a = ramp((1024, 1024), 0, 1, (512, 512))`
/// `let s = sum(a + a.T, axis=(0))`
/// `save s "o.npy"`
pub fn four_blocks_is_lowered()
    ensures graph { lowered four_blocks (3 ∷ []) ≡ four_blocks_graph }
    ensures keys { length (lowering four_blocks).tasks ≡ 18 }
    ensures dependencies { edges (lowering four_blocks).tasks ≡ 20 }
{}

/// A block of 2^24 elements has 2^27 bytes and is accepted; one of an element more passes the limit.
pub fn large_blocks_are_refused()
    ensures largest { limit_of (filled_line 16777216) ≡ None }
    ensures larger { limit_of (filled_line 16777217) ≡ Some BlockBytes }
{}
