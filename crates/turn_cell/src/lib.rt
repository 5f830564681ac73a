//! A state that threads take in turns, with a history of what was done to it; rows of such cells; and a ticker, whose numbers are drawn once each.
#![tactic(auto)]

mod cell;
mod kept;
mod made;
mod one;
mod row;
mod rule;
mod stamps;
mod ticker;

pub use cell::{Busy, OutOfMemory, Pass, Turn, TurnCell};
pub use kept::{Act, Kept};
pub use made::Made;
pub use row::{Cells, Home, Passes, Places};
pub use rule::View;
pub use stamps::Stamps;
pub use ticker::{Amount, Drawn, Seat, Ticker};
