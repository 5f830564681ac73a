//! The kinds of tokens, and the reserved words.
ghost use Rattle.std.specs.Prelude.{◌≡◌, find};
ghost use Rattle.std.specs.Str.{bytes_eq};
ghost use Rattle.job_tokens.specs.Words.{spelling, word_kind, kind_number};

/// What a token is. Each sign and each reserved word is a kind of its own.
#[derive(Clone, Copy)]
pub enum Kind {
    /// The end of a statement.
    Newline,
    Name,
    /// A file name with its quotes.
    File,
    Number,
    Equals,
    Plus,
    Minus,
    Times,
    FloorDivide,
    Remainder,
    OpenParenthesis,
    CloseParenthesis,
    Comma,
    OpenBracket,
    CloseBracket,
    Colon,
    /// The sign `.T`.
    Transposed,
    Input,
    Shape,
    Chunks,
    Let,
    Save,
    Sum,
    Prod,
    Min,
    Max,
    Axis,
    SplitEvery,
    Minimum,
    Maximum,
    Where,
    Transpose,
    Rechunk,
    Concatenate,
    Tensordot,
    Full,
    Ramp,
}

/// The reserved words.
pub const RESERVED: [Kind; 20] = [
    Kind::Input,
    Kind::Shape,
    Kind::Chunks,
    Kind::Let,
    Kind::Save,
    Kind::Sum,
    Kind::Prod,
    Kind::Min,
    Kind::Max,
    Kind::Axis,
    Kind::SplitEvery,
    Kind::Minimum,
    Kind::Maximum,
    Kind::Where,
    Kind::Transpose,
    Kind::Rechunk,
    Kind::Concatenate,
    Kind::Tensordot,
    Kind::Full,
    Kind::Ramp,
];

impl Kind {
    /// The kind's place among the kinds, from 0. Takes no memory.
    pub fn number(self) -> u16
        ensures { result ≡ kind_number self }
    {
        self as u16
    }

    /// A reserved word as it is written, and nothing for every other kind. Takes no memory.
    #[tactic(auto, unfolding(crate::specs::Words::spelling))]
    pub fn spelling(self) -> &'static str
        ensures { result.now ≡ spelling self }
    {
        match self {
            Kind::Input => "input",
            Kind::Shape => "shape",
            Kind::Chunks => "chunks",
            Kind::Let => "let",
            Kind::Save => "save",
            Kind::Sum => "sum",
            Kind::Prod => "prod",
            Kind::Min => "min",
            Kind::Max => "max",
            Kind::Axis => "axis",
            Kind::SplitEvery => "split_every",
            Kind::Minimum => "minimum",
            Kind::Maximum => "maximum",
            Kind::Where => "where",
            Kind::Transpose => "transpose",
            Kind::Rechunk => "rechunk",
            Kind::Concatenate => "concatenate",
            Kind::Tensordot => "tensordot",
            Kind::Full => "full",
            Kind::Ramp => "ramp",
            _ => "",
        }
    }
}

fn is_spelled(kind: Kind, word: &[u8]) -> bool
    ensures { result ≡ bytes_eq (spelling kind) word.now }
{
    kind.spelling().as_bytes() == word
}

fn spelled_so(kinds: &[Kind], word: &[u8]) -> Option<Kind>
    ensures { result ≡ find (λ k. bytes_eq (spelling k) word.now) kinds.now }
{
    kinds.iter().copied().find(|kind| is_spelled(*kind, word))
}

// The kind of a word: a reserved one, or a name.
pub(crate) fn kind_of_word(word: &[u8]) -> Kind
    ensures { result ≡ word_kind word.now }
{
    spelled_so(&RESERVED, word).unwrap_or(Kind::Name)
}
