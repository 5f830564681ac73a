//! The evaluation of array expressions over inputs that are files.
//!
//! It stands on the evaluation by formulas of `plain_eval`, on the needed regions of `input_regions`, and on the files of
//! `npy_codec` and `npy_region`. It carries that `plain_block` gives exactly the elements that the definition `elem` says of
//! what the files hold, or the first place at which nothing stands; that of each input the region that is needed is read,
//! and no more; and that it is refused for short data exactly where such a region ends past its file.
#![tactic(auto)]

mod block;
mod inputs;
mod placing;

pub use block::plain_block;
pub use plain_eval::PlainOutcome;
