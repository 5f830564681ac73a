//! The gate of the program itself.
use crate::{Gate, Point};

/// The gate that does nothing.
#[derive(Clone, Copy, Default)]
pub struct RealGate;

impl Gate for RealGate {
    fn at(&self, _point: Point) {}
}
