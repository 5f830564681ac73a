//! The operations that are asked for, as operations over the nodes before them.
ghost use Rattle.std.specs.Prelude.{◌≡◌, ◌<◌, length, IfOk};
ghost use Rattle.job_script.specs.Earlier.{NamesEarlier};
ghost use Rattle.array_expr.specs.Node.{NamesNodes};
ghost use Rattle.job_text.specs.Nodes.{axes_down, op_of};

use array_expr::{Expr, Op};
use job_script::Asked;
use nd_shape::Axes;
use std::alloc::{AllocError, Global};

// The axes 0 to n - 1, the last one first.
fn axes_down(alloc: Global, n: usize) -> Result<Axes, AllocError>
    ensures { IfOk result (λ axes. axes ≡ axes_down n) }
{
    let mut axes = Axes::new(alloc);
    for k in 0..n {
        axes.push((n - 1 - k) as u64)?;
    }
    Ok(axes)
}

// The operation that is asked for, over these nodes.
pub(crate) fn op_of(alloc: Global, expr: &Expr, asked: Asked) -> Result<Op, AllocError>
    requires { NamesEarlier asked (length expr.now) }
    ensures op { IfOk result (λ op. op ≡ op_of expr.now asked) }
    ensures names { IfOk result (λ op. NamesNodes op (length expr.now)) }
{
    match asked {
        Asked::Op(op) => Ok(op),
        Asked::ReverseAxes(of) => {
            let axes = axes_down(alloc, expr.shape_of(of).dims().len())?;
            Ok(Op::Transpose { of, axes })
        }
    }
}
