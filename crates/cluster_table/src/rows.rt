//! Stories of the rows and the grids in which facts are kept.
//!
//! The first line of a story is `grid WIDTH`. After each change all members are printed.
ghost use Rattle.std.specs.Prelude.{◌≡◌};
ghost use Rattle.fact_rows.specs.Rows.{width};

use crate::page::Page;
use crate::words::Words;
use fact_rows::{Grid, Row};
use std::alloc::{AllocError, Global};

// So many rows are printed, and so many members of each.
const SHOWN: u32 = 4;

// A grid with its width.
#[derive(Drop)]
struct Sheet {
    wide: u32,
    grid: Grid<Option<u64>>,
    ghost fits: { width grid ≡ wide },
}

impl Sheet {
    // One more row, a copy of one without members.
    fn push(&mut self, alloc: Global) -> Result<(), AllocError> {
        let row = Row::filled(alloc, self.wide as usize, None)?;
        self.grid.push(row.copy(alloc)?)
    }

    fn set(&mut self, words: &mut Words<'_>) {
        let (row, key, number) = (words.small(), words.small(), words.number());
        if (row as usize) < self.grid.rows() && key < self.wide {
            self.grid.set(row, key, Some(number));
        } else {
            words.mark_ill();
        }
    }

    fn clear(&mut self, words: &mut Words<'_>) {
        let row = words.small();
        if (row as usize) < self.grid.rows() {
            self.grid.fill_row(row, None);
        } else {
            words.mark_ill();
        }
    }

    // Only the members of one key stay.
    fn keep(&mut self, alloc: Global, key: u32) -> Result<(), AllocError> {
        let mut mask = Row::filled(alloc, self.wide as usize, false)?;
        if (key as usize) < mask.len() {
            mask.set(key, true);
        }
        self.grid.keep(&mask, None);
        Ok(())
    }

    // Carries out `push`, `set ROW KEY NUMBER`, `clear ROW` or `keep KEY`.
    fn change(&mut self, words: &mut Words<'_>) {
        let alloc = words.alloc();
        match words.word() {
            "push" => words.note(self.push(alloc)),
            "set" => self.set(words),
            "clear" => self.clear(words),
            "keep" => {
                let key = words.small();
                words.note(self.keep(alloc, key));
            }
            _ => words.mark_ill(),
        }
    }
}

fn print_row(page: &mut Page, grid: &Grid<Option<u64>>, row: u32) {
    for key in 0..SHOWN {
        match grid.read(row, key) {
            Some(number) => page.item(" ", number),
            None => page.put(" -"),
        }
    }
    page.put(";");
}

// Each row, also with the places behind its end.
fn print_grid(page: &mut Page, grid: &Grid<Option<u64>>) {
    page.item("  ", grid.rows());
    page.put(" rows:");
    for row in 0..SHOWN {
        print_row(page, grid, row);
    }
    page.put("\n");
}

fn play_line(page: &mut Page, sheet: &mut Sheet, words: &mut Words<'_>) {
    sheet.change(words);
    match words.fault() {
        Some(fault) => page.fault(fault),
        None => print_grid(page, &sheet.grid),
    }
}

fn play_lines(page: &mut Page, alloc: Global, sheet: &mut Sheet, events: &str) {
    for line in events.lines() {
        page.line(line);
        play_line(page, sheet, &mut Words::of(alloc, line));
    }
}

/// Plays a story of a grid.
pub fn play(page: &mut Page, words: &mut Words<'_>, events: &str) {
    let wide = words.small();
    let grid = Grid::empty(words.alloc(), wide);
    match words.fault() {
        Some(fault) => page.fault(fault),
        None => play_lines(page, words.alloc(), &mut Sheet { wide, grid }, events),
    }
}
