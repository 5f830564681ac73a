//! What is done while a job is read.
ghost use Rattle.std.specs.Prelude.{◌≡◌, Option, slice_get};
ghost use Rattle.job_grammar.specs.Actions.{actions};

/// What is complete in a text when the next token, or the end, has been looked at.
///
/// An action comes as soon as the next token can't extend what is complete. Where an action speaks of a token, that is the last
/// one that was taken.
#[derive(Clone, Copy)]
pub enum Action {
    /// A statement begins: at its word.
    Begin,
    /// The name that an `input` or a `let` gives.
    Declare,
    /// The file of an input.
    InputFile,
    /// An `input` is complete.
    AddInput,
    /// A `let` is complete.
    Define,
    /// The name that is saved.
    SavedName,
    /// The file of a `save`, which is complete.
    SaveFile,
    /// A list of lengths or axes begins.
    OpenDims,
    /// A number of that list.
    Dim,
    /// A list of chunks begins.
    OpenChunks,
    /// A number in a list of chunks.
    Even,
    /// A list of sizes begins, in a list of chunks.
    OpenSizes,
    /// A number of that list.
    Size,
    /// A list of sizes is complete.
    Sizes,
    /// An operator or the word of a call.
    Mark,
    /// An operation of two operands is complete.
    Combine,
    /// A negation is complete.
    Negate,
    /// A literal.
    Literal,
    /// A literal behind its `-`.
    NegativeLiteral,
    /// A name that stands for a node.
    Refer,
    /// A parenthesis or a bracket around expressions begins.
    Enter,
    /// It ends.
    Leave,
    /// The parts of a slice begin.
    OpenParts,
    /// A slice is complete.
    AddSlice,
    /// `.T`.
    ReverseAxes,
    /// A part of a slice begins.
    OpenPart,
    /// A number.
    Positive,
    /// A number behind its `-`.
    Negative,
    /// A part that is an index.
    Index,
    /// A colon: what stands before it is a bound.
    Bound,
    /// A part that is a range.
    Range,
    /// The operand of a reduction is complete; neither axes nor `split_every` were given so far.
    PlainFold,
    /// The axes of a reduction.
    FoldAxes,
    /// The `split_every` of a reduction.
    FoldSplit,
    /// A reduction is complete.
    Reduce,
    /// A `where` is complete.
    Choose,
    /// A `transpose` is complete.
    AddTranspose,
    /// A `rechunk` is complete.
    AddRechunk,
    /// The list of a `concatenate` begins.
    OpenList,
    /// The axis of a `concatenate`.
    ListAxis,
    /// A `concatenate` is complete.
    AddConcatenate,
    /// The first axes of a `tensordot`.
    LeftAxes,
    /// A `tensordot` is complete.
    AddTensordot,
    /// The value of a `full`, or the start of a `ramp`.
    Value,
    /// The step of a `ramp`.
    Step,
    /// A `full` is complete.
    AddFull,
    /// A `ramp` is complete.
    AddRamp,
}

// All actions, by their numbers in the rows.
const ACTIONS: [Action; 47] = [
    Action::Begin,
    Action::Declare,
    Action::InputFile,
    Action::AddInput,
    Action::Define,
    Action::SavedName,
    Action::SaveFile,
    Action::OpenDims,
    Action::Dim,
    Action::OpenChunks,
    Action::Even,
    Action::OpenSizes,
    Action::Size,
    Action::Sizes,
    Action::Mark,
    Action::Combine,
    Action::Negate,
    Action::Literal,
    Action::NegativeLiteral,
    Action::Refer,
    Action::Enter,
    Action::Leave,
    Action::OpenParts,
    Action::AddSlice,
    Action::ReverseAxes,
    Action::OpenPart,
    Action::Positive,
    Action::Negative,
    Action::Index,
    Action::Bound,
    Action::Range,
    Action::PlainFold,
    Action::FoldAxes,
    Action::FoldSplit,
    Action::Reduce,
    Action::Choose,
    Action::AddTranspose,
    Action::AddRechunk,
    Action::OpenList,
    Action::ListAxis,
    Action::AddConcatenate,
    Action::LeftAxes,
    Action::AddTensordot,
    Action::Value,
    Action::Step,
    Action::AddFull,
    Action::AddRamp,
];

fn nth(actions: &[Action], number: usize) -> Option<Action>
    ensures { result ≡ slice_get actions.now number }
{
    match actions.get(number) {
        Some(action) => Some(*action),
        None => None,
    }
}

/// The action of a number of the rows. Takes no memory.
pub fn action_of(number: u16) -> Option<Action>
    ensures { result ≡ slice_get actions number }
{
    nth(&ACTIONS, number as usize)
}
