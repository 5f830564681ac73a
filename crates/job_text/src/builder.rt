//! Adds the operations that a text asks for to an expression.
ghost use Rattle.std.specs.Prelude.{◌≡◌, ◌∷◌, ◌++◌, [], length, IfOk, IfErr, OnOk, OnErr};
ghost use Rattle.array_expr.specs.Node.{Adds};
ghost use Rattle.job_text.specs.Nodes.{op_of, RefusesAsked};
ghost use Rattle.job_script.specs.Earlier.{NamesEarlier, AreEarlier};
ghost use Rattle.job_text.specs.Cursors.{Stands};
ghost use Rattle.job_text.specs.Jobs.{IsShort, span_at, RefusesPlaced, IsBuilt, RefusesOne};

use crate::cursor::Cursor;
use crate::error::{JobError, JobKind, kind_of_node};
use crate::operands::op_of;
use array_expr::{Expr, Span, Spans};
use job_script::{Asked, Placed};
use job_tokens::place_of;
use std::alloc::Global;

// The line and the column of a byte.
pub(crate) fn span_at(text: &[u8], at: usize) -> Span
    requires { IsShort text.now }
    ensures { result ≡ span_at text.now at }
{
    let place = place_of(text, at.min(text.len()));
    Span {
        line: place.line,
        column: place.column,
    }
}

fn add_node(alloc: Global, expr: &mut Expr, asked: Asked) -> Result<(), JobKind>
    requires { NamesEarlier asked (length expr.old) }
    ensures ok { OnOk result (Adds expr.old (op_of expr.old asked) expr.new) }
    ensures err { IfErr result (λ kind. RefusesAsked expr.old (op_of expr.old asked) kind) }
    ensures unchanged { OnErr result (expr.new ≡ expr.old) }
{
    let op = op_of(alloc, expr, asked)?;
    match expr.add_node(op) {
        Ok(_) => Ok(()),
        Err(e) => Err(kind_of_node(e)),
    }
}

// Adds an operation with its place, or says where and why it is refused.
pub(crate) fn add_placed(
    alloc: Global,
    text: &[u8],
    cursor: &mut Cursor,
    expr: &mut Expr,
    spans: &mut Spans,
    placed: Placed,
) -> Result<(), JobError>
    requires short { IsShort text.now }
    requires stands { Stands text.now cursor.old }
    requires names { NamesEarlier placed.asked (length expr.old) }
    ensures nodes { OnOk result (Adds expr.old (op_of expr.old placed.asked) expr.new) }
    ensures spans { OnOk result (spans.new ≡ spans.old ++ span_at text.now placed.at ∷ []) }
    ensures err { IfErr result (RefusesPlaced text.now expr.old placed) }
    ensures stands { Stands text.now cursor.new }
{
    let Placed { asked, at } = placed;
    let span = cursor.span_at(text, at);
    match add_node(alloc, expr, asked) {
        Ok(()) => {
            spans.push(span)?;
            Ok(())
        }
        Err(kind) => Err(JobError {
            line: span.line,
            column: span.column,
            kind,
        }),
    }
}

/// An expression with the places of its nodes.
#[derive(Drop)]
pub(crate) struct Built {
    pub(crate) expr: Expr,
    pub(crate) spans: Spans,
}

// Adds all operations, or says where and why the first of them is refused.
pub(crate) fn build(alloc: Global, text: &[u8], asked: Vec<Placed>) -> Result<Built, JobError>
    requires short { IsShort text.now }
    requires earlier { AreEarlier asked.items }
    ensures ok { IfOk result (λ b. IsBuilt text.now asked.items b.expr b.spans) }
    ensures err { IfErr result (RefusesOne text.now asked.items) }
{
    let mut expr = Expr::new(alloc);
    let mut spans = Spans::new(alloc);
    let mut cursor = Cursor::new();
    for placed in asked {
        add_placed(alloc, text, &mut cursor, &mut expr, &mut spans, placed)?;
    }
    Ok(Built { expr, spans })
}
