//! The inputs of a job, opened, and their heads read.
ghost use Rattle.std.specs.Prelude.{◌≡◌, ◌≤◌, ◌++◌, [], ◌∷◌, length, cond, map, IfOk, IfErr, OnOk};
ghost use Rattle.io_edge.specs.Given.{OnGiven};
ghost use Rattle.io_edge.specs.View.{Opens, OnlyReads, Shows, raised_by};
ghost use Rattle.array_expr.specs.Elem.{is_input};
ghost use Rattle.job_run.specs.Inputs.{FitInputs, InputsFit};
ghost use Rattle.job_run.specs.Jobs.{plan_of};
ghost use Rattle.job_run.specs.Loading.{HaveHeadsNamed, AreHeads};
ghost use Rattle.job_run.specs.Plan.{IsRunnable, input_shapes};
ghost use Rattle.job_run.specs.Runs.{ReadCause};

use crate::ends::Ended;
use crate::load::read_heads;
use array_expr::{Node, Op};
use io_edge::{OpenFault, Site};
use job_plan::Job;
use nd_shape::Shape;
use npy_codec::Head;
use std::alloc::{AllocError, Global};

/// Whether an operation is an input.
pub fn is_input(op: &Op) -> bool
    ensures { result ≡ is_input op.now }
{
    matches!(op, Op::Input { .. })
}

// One more shape, if the node is an input.
fn push_shape(shapes: &mut Vec<Shape>, node: &Node) -> Result<(), AllocError>
    ensures { OnOk result (shapes.new.items ≡ shapes.old.items ++ cond (is_input node.now.op) (node.now.shape ∷ []) []) }
{
    if is_input(&node.op) {
        let shape = node.shape.copy(*shapes.allocator())?;
        shapes.push(shape)?;
    }
    Ok(())
}

// The shapes that the inputs are declared to have.
fn declared_shapes(alloc: Global, nodes: &[Node]) -> Result<Vec<Shape>, AllocError>
    ensures { IfOk result (λ v. v.items ≡ input_shapes nodes.now) }
{
    let mut shapes = Vec::new(alloc);
    for node in nodes {
        push_shape(&mut shapes, node)?;
    }
    Ok(shapes)
}

/// The open files of a job's inputs, and the head of each.
#[derive(Drop)]
pub struct Inputs<I> {
    pub store: I,
    pub heads: Vec<Head>,
}

/// Opens all inputs of a job by one call and reads their heads, or tells why that fails. Where it succeeds each input is as
/// declared, and all of its data is there: what the site tells of it, and whatever it holds that gave what was read.
pub fn open_inputs<S: Site>(alloc: Global, site: &mut S, job: &Job) -> Result<Inputs<S::In>, Ended>
    requires runs { IsRunnable (plan_of job.now) }
    ensures opens { Opens (plan_of job.now).inputs (S.view site.old).files (S.view site.new).files }
    ensures opened { OnOk result ((S.view site.new).files.opened ≡ raised_by (plan_of job.now).inputs (S.view site.old).files.opened) }
    ensures fit { OnOk result (InputsFit (plan_of job.now) (S.view site.old).files) }
    ensures heads { IfOk result (λ i. AreHeads (input_shapes job.now.expr) (S.In.files i.store) i.heads.items) }
    ensures count { IfOk result (λ i. length i.heads.items ≡ length (input_shapes job.now.expr)) }
    ensures shows { IfOk result (λ i. Shows (plan_of job.now).inputs (S.view site.old).files (S.view site.new).files (S.In.files i.store)) }
    ensures fresh { IfOk result (λ i. S.In.count i.store ≡ 0) }
    ensures named { IfOk result (λ i. S.In.names i.store ≡ (plan_of job.now).inputs) }
    ensures given { IfOk result (λ i. OnGiven (S.In.gave i.store) (λ holds. FitInputs (plan_of job.now) (map holds (plan_of job.now).inputs))) }
    ensures given_heads { IfOk result (λ i. OnGiven (S.In.gave i.store) (HaveHeadsNamed (plan_of job.now).inputs i.heads.items)) }
    ensures only { OnlyReads (S.view site.old) (S.view site.new) }
    ensures later { (S.view site.old).read_faults ≤ (S.view site.new).read_faults }
    ensures cause { IfErr result (λ e. ReadCause (plan_of job.now) (S.view site.old) (S.view site.new) e) }
{
    let shapes = declared_shapes(alloc, job.expr.nodes())?;
    let mut store = match site.store(alloc, job.inputs.as_slice()) {
        Ok(store) => store,
        Err(OpenFault::Failed) => return Err(Ended::ReadFault),
        Err(OpenFault::OutOfMemory) => return Err(Ended::OutOfMemory),
    };
    match read_heads(alloc, &mut store, &shapes) {
        Ok(heads) => Ok(Inputs { store, heads }),
        Err(end) => {
            site.give_store(store);
            Err(end)
        }
    }
}
