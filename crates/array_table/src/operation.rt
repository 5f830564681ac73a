//! The operations that numbers stand for.
ghost use Rattle.std.specs.Prelude.{◌<◌, IfSome};
ghost use Rattle.array_expr.specs.Node.{NamesNodes};

use crate::row::Row;
use array_expr::{Binary, Fold, NodeId, Op};
use nd_shape::{Part, Parts};

fn binary(number: u64) -> Binary {
    match number {
        0 => Binary::Add,
        1 => Binary::Sub,
        2 => Binary::Mul,
        3 => Binary::FloorDiv,
        4 => Binary::Rem,
        5 => Binary::Minimum,
        _ => Binary::Maximum,
    }
}

fn fold(number: u64) -> Fold {
    match number {
        0 => Fold::Sum,
        1 => Fold::Prod,
        2 => Fold::Min,
        _ => Fold::Max,
    }
}

// 0 and an index, or 1 and three that may be left out.
fn part(row: &mut Row) -> Part {
    if row.natural() == 0 {
        Part::At(row.number())
    } else {
        Part::Range(row.maybe(), row.maybe(), row.maybe())
    }
}

fn slice(row: &mut Row, of: NodeId, count: u32) -> Option<Op>
    requires { of < count }
    ensures { IfSome result (λ op. NamesNodes op count) }
{
    let mut parts = Parts::new(row.alloc());
    for _ in 0..row.natural().min(64) {
        parts.push(part(row)).ok()?;
    }
    Some(Op::Slice { of, parts })
}

fn concatenate(row: &mut Row, count: u32) -> Option<Op>
    requires { 0 < count }
    ensures { IfSome result (λ op. NamesNodes op count) }
{
    let axis = row.natural();
    let of = row.nodes(count)?;
    Some(Op::Concatenate { of, axis })
}

fn reduce(row: &mut Row, count: u32) -> Option<Op>
    requires { 0 < count }
    ensures { IfSome result (λ op. NamesNodes op count) }
{
    let fold = fold(row.natural());
    let of = row.node(count);
    let split = row.natural();
    let axes = if row.natural() == 0 {
        None
    } else {
        Some(row.dims())
    };
    Some(Op::Reduce {
        fold,
        of,
        axes,
        split,
    })
}

fn tensordot(row: &mut Row, count: u32) -> Option<Op>
    requires { 0 < count }
    ensures { IfSome result (λ op. NamesNodes op count) }
{
    let left = row.node(count);
    let right = row.node(count);
    let left_axes = row.dims();
    let right_axes = row.dims();
    Some(Op::Tensordot {
        left,
        right,
        left_axes,
        right_axes,
    })
}

fn elementwise(row: &mut Row, count: u32) -> Option<Op>
    requires { 0 < count }
    ensures { IfSome result (λ op. NamesNodes op count) }
{
    let op = binary(row.natural());
    let left = row.node(count);
    let right = row.node(count);
    Some(Op::Elementwise { op, left, right })
}

fn choice(row: &mut Row, count: u32) -> Option<Op>
    requires { 0 < count }
    ensures { IfSome result (λ op. NamesNodes op count) }
{
    let cond = row.node(count);
    let yes = row.node(count);
    let no = row.node(count);
    Some(Op::Where { cond, yes, no })
}

// The operations that begin with one node.
fn of_one(number: u64, row: &mut Row, count: u32) -> Option<Op>
    requires { 0 < count }
    ensures { IfSome result (λ op. NamesNodes op count) }
{
    let of = row.node(count);
    match number {
        2 => Some(Op::Negate { of }),
        5 => slice(row, of, count),
        6 => Some(Op::Transpose {
            of,
            axes: row.dims(),
        }),
        7 => Some(Op::Rechunk {
            of,
            chunks: row.specs(),
        }),
        _ => None,
    }
}

// The operations on nodes.
fn of_nodes(number: u64, row: &mut Row, count: u32) -> Option<Op>
    requires { 0 < count }
    ensures { IfSome result (λ op. NamesNodes op count) }
{
    match number {
        3 => elementwise(row, count),
        4 => choice(row, count),
        8 => concatenate(row, count),
        9 => reduce(row, count),
        10 => tensordot(row, count),
        _ => of_one(number, row, count),
    }
}

fn full(row: &mut Row, count: u32) -> Op
    ensures { NamesNodes result count }
{
    let value = row.number();
    let dims = row.dims();
    let chunks = row.specs();
    Op::Full {
        dims,
        value,
        chunks,
    }
}

fn ramp(row: &mut Row, count: u32) -> Op
    ensures { NamesNodes result count }
{
    let start = row.number();
    let step = row.number();
    let dims = row.dims();
    let chunks = row.specs();
    Op::Ramp {
        dims,
        start,
        step,
        chunks,
    }
}

fn input(row: &mut Row, count: u32) -> Op
    ensures { NamesNodes result count }
{
    let dims = row.dims();
    let chunks = row.specs();
    Op::Input { dims, chunks }
}

/// The operation that the next numbers stand for, on some of so many nodes.
pub fn operation(row: &mut Row, count: u32) -> Option<Op>
    ensures { IfSome result (λ op. NamesNodes op count) }
{
    let number = row.natural();
    match number {
        0 => Some(full(row, count)),
        1 => Some(ramp(row, count)),
        11 => Some(input(row, count)),
        _ if 0 < count => of_nodes(number, row, count),
        _ => None,
    }
}
