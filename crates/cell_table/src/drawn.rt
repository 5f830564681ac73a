//! Two seats of a ticker.

use std::alloc::Global;
use std::io;
use turn_cell::{Seat, Ticker};

fn print_draw<R: Print>(rt: &R, drawn: Option<u64>) -> io::Result<()> {
    match drawn {
        Some(number) => println!(rt; "drew {number}"),
        None => println!(rt; "no right left"),
    }
}

/// Draws from a seat with so many rights until none is left, and in between from the one that it was split from.
pub fn play<R: Print>(rt: &R, alloc: Global, rights: u32) -> io::Result<()> {
    let Ok((ticker, mut seat)) = Ticker::new(alloc) else {
        return println!(rt; "no memory");
    };
    let mut other = ticker.split(&mut seat, rights as u64);
    for _ in 0..rights {
        print_draw(rt, ticker.draw(&mut seat))?;
        print_draw(rt, ticker.draw(&mut other))?;
    }
    print_draw(rt, ticker.draw(&mut other))?;
    ticker.join(&mut seat, other);
    print_draw(rt, ticker.draw(&mut seat))
}
