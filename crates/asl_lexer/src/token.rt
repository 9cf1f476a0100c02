//! Tokens, the words that they are, and why bytes are refused.

ghost use Rattle.std.specs.Prelude.{◌≡◌};

use asl_term::sequence::{Seq, Starved};
use asl_term::syntax::Text;

#[derive(Clone, Copy, Debug, PartialEq, Eq, Drop)]
pub enum TokKind {
    Atom,
    Var,
    /// A dot directly followed by an atom.
    Inner,
    Number,
    Str,
    Sign,
    /// A dot that no lower-case letter follows.
    End,
}

/// A token. Of a string the text is its content, with the escapes resolved; of an Inner its name without the
/// dot; of the others the bytes as they stand. Its place counts from 0, line and column from 1, and a column
/// counts bytes.
pub struct Tok {
    pub kind: TokKind,
    pub text: Text,
    pub at: u64,
    pub line: u64,
    pub column: u64,
}

/// By hand, so that a crate above that lets one go proves nothing of its parts.
impl Drop for Tok {
    fn drop(self) {
        let Tok {
            kind: _,
            text: _,
            at: _,
            line: _,
            column: _,
        } = self;
    }
}

pub type Toks = Seq<Tok>;

/// Where a byte stands: how many bytes are before it, and its line and column, counted from 1.
#[derive(Clone, Copy, Drop)]
pub struct Place {
    pub at: u64,
    pub line: u64,
    pub column: u64,
}

/// Why bytes have no tokens. Each place counts from 0.
#[derive(Clone, Copy, Debug, Drop)]
pub enum LexFault {
    Memory,
    /// A byte that stands in no token: in a string a control byte, or a backslash that escapes nothing.
    BadByte(u64),
    /// A string that meets a line feed or the end, at its quote.
    OpenString(u64),
    /// A `/*` without its `*/`.
    OpenComment(u64),
    /// A number above 9223372036854775807, at its first digit.
    NumberRange(u64),
}

impl From<Starved> for LexFault {
    ghost use Rattle.asl_lexer.specs.declared.token.LexFault.TheVariants.{Memory};

    ghost from_gives = { λ _ e. e ≡ Memory };

    fn from(_e: Starved) -> LexFault {
        LexFault::Memory
    }
}

/// A sign.
#[derive(Clone, Copy, Debug, PartialEq, Eq, Drop)]
pub enum Sign {
    Open,
    Close,
    OpenSquare,
    CloseSquare,
    OpenBrace,
    CloseBrace,
    Comma,
    Semicolon,
    Colon,
    /// `:-`
    If,
    /// `<-`
    LeftArrow,
    /// `->`
    RightArrow,
    Ampersand,
    Bar,
    Bang,
    /// `!!`
    Bangs,
    Question,
    Plus,
    Minus,
    /// `-+`
    MinusPlus,
    Star,
    Tilde,
    At,
    Hash,
    Less,
    LessEq,
    More,
    MoreEq,
    /// `==`
    Same,
    /// `\==`
    Differ,
    /// `=`
    Unify,
}

/// What a token is to a grammar. A reserved word is no atom.
#[derive(Clone, Copy, Debug, PartialEq, Eq, Drop)]
pub enum Word {
    Not,
    Div,
    Mod,
    True,
    False,
    Atom,
    Var,
    Inner,
    Number,
    Str,
    Sign(Sign),
    End,
    /// A sign that is none; no token that `tokens` gives is one.
    Other,
}
