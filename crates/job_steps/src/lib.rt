//! What is to be done for a job's text, step by step, and where the text is refused.
//!
//! [`read_steps`] reads a text to its end, or to its first place that is no job's. Each step is an action of the grammar with the
//! token at which it stands, in the order in which they are complete: operands before their operator, left before right. So what a
//! reader of the steps refuses stands before what the grammar refuses behind them, and the first refusal of all is the first of the
//! text. `IsRead` of `specs/Steps.antt` says which steps and which end a text has.
//!
//! Below it stand the tokens (`job_tokens`) and the grammar (`job_grammar`). Above it stands the meaning of the steps.
#![tactic(auto)]

pub mod reader;
pub mod step;

pub use reader::read_steps;
pub use step::{Ending, Step, Steps};
