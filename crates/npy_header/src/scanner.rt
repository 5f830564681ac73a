//! What is kept of a header while it is read.
ghost use Rattle.std.specs.Prelude.{◌≡◌, ◌+◌, ◌-◌, ◌*◌, OnOk};
ghost use Rattle.npy_header.specs.Scans.{after_action, fields_of, fresh};
ghost use Rattle.npy_header.specs.Reading.{cap, after_byte_capped, after_actions};

use crate::fields::HeaderFields;
use std::alloc::{AllocError, Global};
use std::marker::Model;

/// The number that was begun last, the text that was begun last, and the fields.
///
/// A number above 2^64-1 is kept as 2^64-1.
#[derive(Drop)]
pub(crate) struct Scanner {
    last: u8,
    number: u64,
    text: Vec<u8>,
    descr: Vec<u8>,
    fortran: bool,
    shape: Vec<u64>,
}

impl Model for Scanner {
    ghost use Rattle.npy_header.specs.Scans.{Scan};

    ghost Value = { Scan };

    ghost view = { λ s. record { last = s.last; number = s.number; text = s.text.items; descr = s.descr.items; fortran = s.fortran; shape = s.shape.items } };
}

// The number with a further digit, where it fits.
fn with_digit(number: u64, byte: u8) -> u64
    ensures { result ≡ cap (10 * number + (byte - 48)) }
{
    let digit = u64::from(byte.saturating_sub(48));
    number.saturating_mul(10).saturating_add(digit)
}

impl Scanner {
    pub(crate) fn new(alloc: Global) -> Self
        ensures { result ≡ fresh }
    {
        Scanner {
            last: 0,
            number: 0,
            text: Vec::new(alloc),
            descr: Vec::new(alloc),
            fortran: false,
            shape: Vec::new(alloc),
        }
    }

    pub(crate) fn byte(&mut self, byte: u8) -> Result<(), AllocError>
        ensures { OnOk result (self.new ≡ after_byte_capped byte self.old) }
    {
        self.text.push(byte)?;
        self.number = with_digit(self.number, byte);
        self.last = byte;
        Ok(())
    }

    // The actions are numbered as in `tools/header_rows.py`.
    fn action(&mut self, action: u16) -> Result<(), AllocError>
        ensures { OnOk result (self.new ≡ after_action action self.old) }
    {
        match action {
            0 => self.number = u64::from(self.last.saturating_sub(48)),
            1 => self.text.clear(),
            2 => self.descr = self.text.clone()?,
            3 => self.fortran = true,
            4 => self.fortran = false,
            5 => self.shape.clear(),
            _ => self.shape.push(self.number)?,
        }
        Ok(())
    }

    pub(crate) fn actions(&mut self, actions: &[u16]) -> Result<(), AllocError>
        ensures { OnOk result (self.new ≡ after_actions actions.now self.old) }
    {
        for action in actions {
            self.action(*action)?;
        }
        Ok(())
    }

    /// Takes no memory.
    pub(crate) fn into_fields(self) -> HeaderFields
        ensures { result ≡ fields_of self }
    {
        let Scanner {
            last: _,
            number: _,
            text: _,
            descr,
            fortran,
            shape,
        } = self;
        HeaderFields::new(descr, fortran, shape)
    }
}
