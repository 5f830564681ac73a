//! The right to draw stamps.
ghost use Rattle.std.specs.Prelude.{◌≡◌, ◌-◌, ◌/◌, ◌^◌, [], IfOk, OnOk, OnErr};
ghost use Rattle.std.specs.Arc.{arc_value};
ghost use Rattle.turn_cell.specs.Ticks.{drawn, Drew};

use crate::ticker::{Seat, Ticker};
use std::alloc::{AllocError, Global};
use std::sync::Arc;

/// A seat of a ticker together with its ticker, which all that were split from one share.
#[derive(Drop)]
pub struct Stamps {
    ticker: Arc<Ticker>,
    pub seat: Seat,
    ghost own: { seat.seat.table_id ≡ (arc_value ticker).table.shared.table_id },
}

impl Stamps {
    /// A new ticker, with all 2^63 rights to draw.
    ///
    /// # Errors
    /// Where there is no memory.
    pub fn new(alloc: Global) -> Result<Stamps, AllocError>
        ensures { IfOk result (λ s. s.seat.seat.me.0 ≡ drawn [] (2 ^ 63)) }
    {
        let Ok((ticker, seat)) = Ticker::new(alloc) else {
            return Err(AllocError);
        };
        let Ok(ticker) = Arc::new(alloc, ticker) else {
            return Err(AllocError);
        };
        Ok(Stamps { ticker, seat })
    }

    /// Half of the rights, rounded down, for the same ticker.
    ///
    /// # Errors
    /// Where the count of those who share the ticker is full. The rights stay where they are.
    pub fn split(&mut self) -> Result<Stamps, AllocError>
        ensures given { IfOk result (λ s. s.seat.seat.me.0 ≡ drawn [] (self.old.seat.seat.me.0.rights / 2)) }
        ensures table { IfOk result (λ s. s.seat.seat.table_id ≡ self.old.seat.seat.table_id) }
        ensures same { self.new.seat.seat.table_id ≡ self.old.seat.seat.table_id }
        ensures numbers { self.new.seat.seat.me.0.drawn ≡ self.old.seat.seat.me.0.drawn }
        ensures kept { OnOk result (self.new.seat.seat.me.0.rights ≡ self.old.seat.seat.me.0.rights - self.old.seat.seat.me.0.rights / 2) }
        ensures err { OnErr result (self.new.seat.seat.me.0 ≡ self.old.seat.seat.me.0) }
    {
        let ticker = Arc::try_clone(&self.ticker)?;
        let rights = self.seat.rights() / 2;
        let seat = self.ticker.split(&mut self.seat, rights);
        Ok(Stamps { ticker, seat })
    }

    /// A number below 2^63 that nobody else draws, for one right. `None` exactly where no right is left.
    pub fn draw(&mut self) -> Option<u64>
        ensures same { self.new.seat.seat.table_id ≡ self.old.seat.seat.table_id }
        ensures drew { Drew self.old.seat.seat.me.0 result self.new.seat.seat.me.0 }
    {
        self.ticker.draw(&mut self.seat)
    }
}
