//! A text's steps, done one after another.
ghost use Rattle.std.specs.Prelude.{◌≡◌, ◌<◌, ◌≤◌, ◌^◌, not, nat_eq, length, Ok, OnOk, IfOk, IfErr};
ghost use Rattle.job_script.specs.declared.asked.Fault.TheVariants.{Refused};
ghost use Rattle.job_script.specs.declared.asked.Why.TheVariants.{Number};
ghost use Rattle.job_script.specs.Words.{number_at};
ghost use Rattle.job_script.specs.Follows.{RefusedAs};
ghost use Rattle.job_script.specs.Drafts.{empty_draft, with_given, with_mark, with_scoped, asking, asking_op, with_number, named_let, literal, combine, negate, slice, reduce, choose, transpose, rechunk, concatenate, tensordot, full, ramp, input, refer, enter};
ghost use Rattle.job_script.specs.Arguments.{given_after, given_with};
ghost use Rattle.job_script.specs.Scopes.{begun};
ghost use Rattle.job_grammar.specs.declared.action.Action.TheVariants.{Literal, NegativeLiteral, ReverseAxes, Refer, SaveFile, Negative, OpenParts};
ghost use Rattle.job_script.specs.Meanings.{after};

use crate::arguments::Arguments;
use crate::asked::{Asked, Fault, Placed, Refusal, Why};
use crate::named::Named;
use crate::operands::Operands;
use crate::scope::Scope;
use crate::words::{below_zero, binary, fold, token_bytes, token_file, token_number};
use array_expr::{NodeId, NodeIds, Op};
use job_grammar::Action;
use job_tokens::Token;
use nd_shape::{Dims, Specs};
use std::alloc::{AllocError, Global};
use std::marker::Model;

/// The most nodes, and the most parentheses, calls and lists that are open at once.
const NODES: usize = 65536;

const OPEN: u32 = 127;

/// What a text has asked for so far.
#[derive(Drop)]
pub(crate) struct Draft {
    alloc: Global,
    arguments: Arguments,
    operands: Operands,
    scope: Scope,
    asked: Vec<Placed>,
}

impl Model for Draft {
    ghost use Rattle.job_script.specs.Drafts.{empty_draft, with_given, with_mark, with_scoped, asking, asking_op, with_number, named_let, literal, combine, negate, slice, reduce, choose, transpose, rechunk, concatenate, tensordot, full, ramp, input, refer, enter};
    ghost use Rattle.job_script.specs.Arguments.{given_after, given_with};
    ghost use Rattle.job_script.specs.Scopes.{begun};
    ghost use Rattle.job_grammar.specs.declared.action.Action.TheVariants.{Literal, NegativeLiteral, ReverseAxes, Refer, SaveFile, Negative, OpenParts};
    ghost use Rattle.job_script.specs.Drafts.{Drafted};

    ghost Value = { Drafted };

    ghost view = { λ d. record { given = d.arguments; waiting = d.operands; scoped = d.scope; asked = d.asked.items } };
}

fn refusal(at: usize, why: Why) -> Fault
    ensures { result ≡ Refused (record { at = at; why = why }) }
{
    Fault::Refused(Refusal { at, why })
}

// A number of at most 2^63 - 1.
fn plain_number(text: &[u8], token: Token) -> Result<u64, Fault>
    ensures ok { IfOk result (λ n. (n ≡ number_at text.now token) × (n < 2 ^ 63)) }
    ensures err { IfErr result (λ e. (e ≡ Refused (record { at = token.start; why = Number })) × (2 ^ 63 ≤ number_at text.now token)) }
{
    let number = token_number(text, token);
    if number >= 1 << 63 {
        return Err(refusal(token.start, Why::Number));
    }
    Ok(number)
}

// A number of at most 2^63, behind a minus sign.
fn negative_number(text: &[u8], token: Token) -> Result<u64, Fault>
    ensures ok { IfOk result (λ n. (n ≡ number_at text.now token) × (n ≤ 2 ^ 63)) }
    ensures err { IfErr result (λ e. (e ≡ Refused (record { at = token.start; why = Number })) × (2 ^ 63 < number_at text.now token)) }
{
    let number = token_number(text, token);
    if number > 1 << 63 {
        return Err(refusal(token.start, Why::Number));
    }
    Ok(number)
}

impl Draft {
    pub(crate) fn new(alloc: Global) -> Self
        ensures { result ≡ empty_draft }
    {
        Draft {
            alloc,
            arguments: Arguments::new(alloc),
            operands: Operands::new(alloc),
            scope: Scope::new(alloc),
            asked: Vec::new(alloc),
        }
    }

    fn ask(&mut self, asked: Asked, at: usize) -> Result<(), Fault>
        ensures ok { OnOk result ((asking asked at self.old) ≡ Ok self.new) }
        ensures err { IfErr result (λ e. RefusedAs e (asking asked at self.old) (self.new.asked ≡ self.old.asked)) }
    {
        let count = self.asked.len();
        if count >= NODES {
            return Err(refusal(at, Why::Nodes));
        }
        self.asked.push(Placed { asked, at })?;
        self.operands.push(NodeId::new(count as u32))?;
        Ok(())
    }

    // ---- operations

    fn combine(&mut self) -> Result<(), Fault>
        ensures ok { OnOk result ((combine self.old) ≡ Ok self.new) }
        ensures err { IfErr result (λ e. RefusedAs e (combine self.old) (self.new.asked ≡ self.old.asked)) }
    {
        let mark = self.operands.pop_mark();
        let right = self.operands.pop();
        let left = self.operands.pop();
        let op = binary(mark.kind);
        self.ask(Asked::Op(Op::Elementwise { op, left, right }), mark.start)
    }

    fn negate(&mut self) -> Result<(), Fault>
        ensures ok { OnOk result ((negate self.old) ≡ Ok self.new) }
        ensures err { IfErr result (λ e. RefusedAs e (negate self.old) (self.new.asked ≡ self.old.asked)) }
    {
        let mark = self.operands.pop_mark();
        let of = self.operands.pop();
        self.ask(Asked::Op(Op::Negate { of }), mark.start)
    }

    fn slice(&mut self) -> Result<(), Fault>
        ensures ok { OnOk result ((slice self.old) ≡ Ok self.new) }
        ensures err { IfErr result (λ e. RefusedAs e (slice self.old) (self.new.asked ≡ self.old.asked)) }
    {
        let mark = self.operands.pop_mark();
        let of = self.operands.pop();
        let parts = self.arguments.take_parts();
        self.ask(Asked::Op(Op::Slice { of, parts }), mark.start)
    }

    fn reduce(&mut self) -> Result<(), Fault>
        ensures ok { OnOk result ((reduce self.old) ≡ Ok self.new) }
        ensures err { IfErr result (λ e. RefusedAs e (reduce self.old) (self.new.asked ≡ self.old.asked)) }
    {
        let mark = self.operands.pop_mark();
        let of = self.operands.pop();
        let axes = self.arguments.take_axes();
        let split = self.arguments.split();
        let fold = fold(mark.kind);
        let op = Op::Reduce {
            fold,
            of,
            axes,
            split,
        };
        self.ask(Asked::Op(op), mark.start)
    }

    fn choose(&mut self) -> Result<(), Fault>
        ensures ok { OnOk result ((choose self.old) ≡ Ok self.new) }
        ensures err { IfErr result (λ e. RefusedAs e (choose self.old) (self.new.asked ≡ self.old.asked)) }
    {
        let mark = self.operands.pop_mark();
        let no = self.operands.pop();
        let yes = self.operands.pop();
        let cond = self.operands.pop();
        self.ask(Asked::Op(Op::Where { cond, yes, no }), mark.start)
    }

    fn transpose(&mut self) -> Result<(), Fault>
        ensures ok { OnOk result ((transpose self.old) ≡ Ok self.new) }
        ensures err { IfErr result (λ e. RefusedAs e (transpose self.old) (self.new.asked ≡ self.old.asked)) }
    {
        let mark = self.operands.pop_mark();
        let of = self.operands.pop();
        let axes = self.arguments.take_dims();
        self.ask(Asked::Op(Op::Transpose { of, axes }), mark.start)
    }

    fn rechunk(&mut self) -> Result<(), Fault>
        ensures ok { OnOk result ((rechunk self.old) ≡ Ok self.new) }
        ensures err { IfErr result (λ e. RefusedAs e (rechunk self.old) (self.new.asked ≡ self.old.asked)) }
    {
        let mark = self.operands.pop_mark();
        let of = self.operands.pop();
        let chunks = self.arguments.take_chunks();
        self.ask(Asked::Op(Op::Rechunk { of, chunks }), mark.start)
    }

    fn concatenate(&mut self) -> Result<(), Fault>
        ensures ok { OnOk result ((concatenate self.old) ≡ Ok self.new) }
        ensures err { IfErr result (λ e. RefusedAs e (concatenate self.old) (self.new.asked ≡ self.old.asked)) }
    {
        let mark = self.operands.pop_mark();
        let nodes = self.operands.pop_list(self.alloc)?;
        let of = NodeIds::from_vec(nodes);
        let axis = self.arguments.axis();
        self.ask(Asked::Op(Op::Concatenate { of, axis }), mark.start)
    }

    fn tensordot(&mut self) -> Result<(), Fault>
        ensures ok { OnOk result ((tensordot self.old) ≡ Ok self.new) }
        ensures err { IfErr result (λ e. RefusedAs e (tensordot self.old) (self.new.asked ≡ self.old.asked)) }
    {
        let mark = self.operands.pop_mark();
        let right = self.operands.pop();
        let left = self.operands.pop();
        let left_axes = self.arguments.take_left_axes();
        let right_axes = self.arguments.take_dims();
        let op = Op::Tensordot {
            left,
            right,
            left_axes,
            right_axes,
        };
        self.ask(Asked::Op(op), mark.start)
    }

    fn full(&mut self) -> Result<(), Fault>
        ensures ok { OnOk result ((full self.old) ≡ Ok self.new) }
        ensures err { IfErr result (λ e. RefusedAs e (full self.old) (self.new.asked ≡ self.old.asked)) }
    {
        let mark = self.operands.pop_mark();
        let dims = self.arguments.take_dims();
        let chunks = self.arguments.take_chunks();
        let value = self.arguments.value();
        let op = Op::Full {
            dims,
            value,
            chunks,
        };
        self.ask(Asked::Op(op), mark.start)
    }

    fn ramp(&mut self) -> Result<(), Fault>
        ensures ok { OnOk result ((ramp self.old) ≡ Ok self.new) }
        ensures err { IfErr result (λ e. RefusedAs e (ramp self.old) (self.new.asked ≡ self.old.asked)) }
    {
        let mark = self.operands.pop_mark();
        let dims = self.arguments.take_dims();
        let chunks = self.arguments.take_chunks();
        let start = self.arguments.value();
        let step = self.arguments.step();
        let op = Op::Ramp {
            dims,
            start,
            step,
            chunks,
        };
        self.ask(Asked::Op(op), mark.start)
    }

    // An array without axes that holds this number.
    fn literal(&mut self, value: i64, at: usize) -> Result<(), Fault>
        ensures ok { OnOk result ((asking_op (literal value) at self.old) ≡ Ok self.new) }
        ensures err { IfErr result (λ e. RefusedAs e (asking_op (literal value) at self.old) (self.new.asked ≡ self.old.asked)) }
    {
        let op = Op::Full {
            dims: Dims::new(self.alloc),
            value,
            chunks: Specs::new(self.alloc),
        };
        self.ask(Asked::Op(op), at)
    }

    fn plain_literal(&mut self, text: &[u8], token: Token) -> Result<(), Fault>
        ensures ok { OnOk result ((after text.now Literal token self.old) ≡ Ok self.new) }
        ensures err { IfErr result (λ e. RefusedAs e (after text.now Literal token self.old) (self.new.asked ≡ self.old.asked)) }
    {
        let number = plain_number(text, token)?;
        self.literal(number as i64, token.start)
    }

    fn negative_literal(&mut self, text: &[u8], token: Token) -> Result<(), Fault>
        ensures ok { OnOk result ((after text.now NegativeLiteral token self.old) ≡ Ok self.new) }
        ensures err { IfErr result (λ e. RefusedAs e (after text.now NegativeLiteral token self.old) (self.new.asked ≡ self.old.asked)) }
    {
        let number = negative_number(text, token)?;
        let mark = self.operands.pop_mark();
        self.literal(below_zero(number), mark.start)
    }

    fn reverse_axes(&mut self, text: &[u8], token: Token) -> Result<(), Fault>
        ensures ok { OnOk result ((after text.now ReverseAxes token self.old) ≡ Ok self.new) }
        ensures err { IfErr result (λ e. RefusedAs e (after text.now ReverseAxes token self.old) (self.new.asked ≡ self.old.asked)) }
    {
        let of = self.operands.pop();
        self.ask(Asked::ReverseAxes(of), token.start)
    }

    fn refer(&mut self, text: &[u8], token: Token) -> Result<(), Fault>
        ensures ok { OnOk result ((after text.now Refer token self.old) ≡ Ok self.new) }
        ensures err { IfErr result (λ e. RefusedAs e (after text.now Refer token self.old) (self.new.asked ≡ self.old.asked)) }
    {
        match self.scope.find(token_bytes(text, token)) {
            None => Err(refusal(token.start, Why::UnknownName)),
            Some(node) => {
                self.operands.push(node)?;
                Ok(())
            }
        }
    }

    fn enter(&mut self, token: Token) -> Result<(), Fault>
        ensures ok { OnOk result ((enter token.start self.old) ≡ Ok self.new) }
        ensures err { IfErr result (λ e. RefusedAs e (enter token.start self.old) (self.new.asked ≡ self.old.asked)) }
    {
        if self.operands.depth() >= OPEN {
            return Err(refusal(token.start, Why::Depth));
        }
        self.operands.enter();
        Ok(())
    }

    // ---- statements

    fn begin(&mut self, token: Token) -> Result<(), Fault>
        ensures ok { OnOk result ((with_scoped (begun token.start self.old.scoped) (with_mark token self.old)) ≡ Ok self.new) }
        ensures err { IfErr result (λ e. RefusedAs e (with_scoped (begun token.start self.old.scoped) (with_mark token self.old)) (self.new.asked ≡ self.old.asked)) }
    {
        self.scope.begin(token.start)?;
        self.operands.mark(token)?;
        Ok(())
    }

    fn input(&mut self) -> Result<(), Fault>
        ensures ok { OnOk result ((input self.old) ≡ Ok self.new) }
        ensures err { IfErr result (λ e. RefusedAs e (input self.old) (self.new.asked ≡ self.old.asked)) }
    {
        let mark = self.operands.pop_mark();
        let dims = self.arguments.take_dims();
        let chunks = self.arguments.take_chunks();
        self.ask(Asked::Op(Op::Input { dims, chunks }), mark.start)?;
        let node = self.operands.pop();
        self.scope.add_input(node)?;
        Ok(())
    }

    fn define(&mut self) -> Result<(), AllocError>
        ensures { OnOk result (self.new ≡ named_let self.old) }
    {
        let _mark = self.operands.pop_mark();
        let node = self.operands.pop();
        self.scope.define(node)
    }

    fn save(&mut self, text: &[u8], token: Token) -> Result<(), Fault>
        ensures ok { OnOk result ((after text.now SaveFile token self.old) ≡ Ok self.new) }
        ensures err { IfErr result (λ e. RefusedAs e (after text.now SaveFile token self.old) (self.new.asked ≡ self.old.asked)) }
    {
        let _mark = self.operands.pop_mark();
        let node = self.operands.pop();
        self.scope.save(token_file(text, token), node, token.start)
    }

    // ---- lists and numbers

    fn give(&mut self, action: Action) -> Result<(), AllocError>
        ensures { OnOk result (self.new ≡ with_given (given_after action self.old.given) self.old) }
    {
        self.arguments.act(action)
    }

    fn give_number(&mut self, text: &[u8], action: Action, token: Token) -> Result<(), Fault>
        ensures ok { OnOk result (with_number text.now token (λ n. with_given (given_with action n self.old.given) self.old) ≡ Ok self.new) }
        ensures err { IfErr result (λ e. RefusedAs e (with_number text.now token (λ n. with_given (given_with action n self.old.given) self.old)) (self.new.asked ≡ self.old.asked)) }
    {
        let number = plain_number(text, token)?;
        self.arguments.act_with(action, number)?;
        Ok(())
    }

    fn give_negative(&mut self, text: &[u8], token: Token) -> Result<(), Fault>
        ensures ok { OnOk result (after text.now Negative token self.old ≡ Ok self.new) }
        ensures err { IfErr result (λ e. RefusedAs e (after text.now Negative token self.old) (self.new.asked ≡ self.old.asked)) }
    {
        let number = negative_number(text, token)?;
        self.arguments.set_int(below_zero(number));
        Ok(())
    }

    fn open_parts(&mut self, token: Token) -> Result<(), AllocError>
        ensures { OnOk result (self.new ≡ with_mark token (with_given (given_after OpenParts self.old.given) self.old)) }
    {
        self.arguments.act(Action::OpenParts)?;
        self.operands.mark(token)
    }

    /// Does one step. Where it is refused, what was asked for so far stays.
    pub(crate) fn act(&mut self, text: &[u8], action: Action, token: Token) -> Result<(), Fault>
        ensures ok { OnOk result (after text.now action token self.old ≡ Ok self.new) }
        ensures err { IfErr result (λ e. RefusedAs e (after text.now action token self.old) (self.new.asked ≡ self.old.asked)) }
    {
        match action {
            Action::Begin => self.begin(token),
            Action::Declare => self.scope.declare(token_bytes(text, token), token.start),
            Action::InputFile => self.scope.set_file(token_file(text, token), token.start),
            Action::AddInput => self.input(),
            Action::Define => Ok(self.define()?),
            Action::SavedName => self.refer(text, token),
            Action::SaveFile => self.save(text, token),
            Action::OpenDims => Ok(self.give(action)?),
            Action::Dim => self.give_number(text, action, token),
            Action::OpenChunks => Ok(self.give(action)?),
            Action::Even => self.give_number(text, action, token),
            Action::OpenSizes => Ok(self.give(action)?),
            Action::Size => self.give_number(text, action, token),
            Action::Sizes => Ok(self.give(action)?),
            Action::Mark => Ok(self.operands.mark(token)?),
            Action::Combine => self.combine(),
            Action::Negate => self.negate(),
            Action::Literal => self.plain_literal(text, token),
            Action::NegativeLiteral => self.negative_literal(text, token),
            Action::Refer => self.refer(text, token),
            Action::Enter => self.enter(token),
            Action::Leave => {
                self.operands.leave();
                Ok(())
            }
            Action::OpenParts => Ok(self.open_parts(token)?),
            Action::AddSlice => self.slice(),
            Action::ReverseAxes => self.reverse_axes(text, token),
            Action::OpenPart => Ok(self.give(action)?),
            Action::Positive => self.give_number(text, action, token),
            Action::Negative => self.give_negative(text, token),
            Action::Index => Ok(self.give(action)?),
            Action::Bound => Ok(self.give(action)?),
            Action::Range => Ok(self.give(action)?),
            Action::PlainFold => Ok(self.give(action)?),
            Action::FoldAxes => Ok(self.give(action)?),
            Action::FoldSplit => self.give_number(text, action, token),
            Action::Reduce => self.reduce(),
            Action::Choose => self.choose(),
            Action::AddTranspose => self.transpose(),
            Action::AddRechunk => self.rechunk(),
            Action::OpenList => Ok(self.operands.open_list()?),
            Action::ListAxis => self.give_number(text, action, token),
            Action::AddConcatenate => self.concatenate(),
            Action::LeftAxes => Ok(self.give(action)?),
            Action::AddTensordot => self.tensordot(),
            Action::Value => Ok(self.give(action)?),
            Action::Step => Ok(self.give(action)?),
            Action::AddFull => self.full(),
            Action::AddRamp => self.ramp(),
        }
    }

    pub(crate) fn has_saves(&self) -> bool
        ensures { result ≡ not (nat_eq (length self.now.scoped.saves) 0) }
    {
        self.scope.has_saves()
    }

    /// What was asked for, and the files that are read and saved.
    pub(crate) fn into_parts(self) -> (Vec<Placed>, Vec<Named>, Vec<Named>)
        ensures asked { result.0.items ≡ self.asked }
        ensures inputs { result.1.items ≡ self.scoped.inputs }
        ensures saves { result.2.items ≡ self.scoped.saves }
    {
        let Draft {
            alloc: _,
            arguments: _,
            operands: _,
            scope,
            asked,
        } = self;
        let (inputs, saves) = scope.into_files();
        (asked, inputs, saves)
    }
}
