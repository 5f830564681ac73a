//! The words of the commands `run`, `sim`, `plain` and `gen`: a job's name, options, a script, and the number of a simulation.
//!
//! The tokens' digits (`job_tokens`), the items of a script (`cluster_msgs`) and `clap` stand below. The program's top call
//! stands above. It carries a part of *part correctness*: which words ask for a command, and for which one. Its definitions are
//! in `specs/`: `Numbers`, `Apps`, `Given`, `Scripts`, `Walks`, and `Words`, which puts them together.
#![tactic(auto)]

mod apps;
mod fail;
pub mod generate;
mod given;
mod items;
mod numbers;
pub mod plain;
pub mod run;
mod script;
pub mod settings;
pub mod sim;
mod walk;

pub use fail::WordsFail;
pub use generate::{GenWords, read_gen};
pub use plain::{PlainWords, read_plain};
pub use run::{RunWords, read_run};
pub use settings::RunSettings;
pub use sim::{Settings, SimWords, read_sim};
