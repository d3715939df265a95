//! The tokens as they are spelled.
ghost use Rattle.std.specs.Prelude.{◌≡◌};
ghost use Rattle.xpath_words.specs.Meaning.{is_star, closes};

use sig_base::Text;

/// A token of one or two signs (XPath 1.0 §3.7).
#[derive(Clone, Copy, Debug, PartialEq, Eq, Drop)]
pub enum Sign {
    /// `(`.
    Open,
    /// `)`.
    Close,
    /// `[`.
    OpenBracket,
    /// `]`.
    CloseBracket,
    /// `.`.
    Dot,
    /// `..`.
    DoubleDot,
    /// `@`.
    At,
    /// `,`.
    Comma,
    /// `::`.
    DoubleColon,
    /// `/`.
    Slash,
    /// `//`.
    DoubleSlash,
    /// `|`.
    Bar,
    /// `+`.
    Plus,
    /// `-`.
    Minus,
    /// `=`.
    Equal,
    /// `!=`.
    NotEqual,
    /// `<`.
    Less,
    /// `<=`.
    LessEqual,
    /// `>`.
    Greater,
    /// `>=`.
    GreaterEqual,
    /// `*`.
    Star,
    /// `$`.
    Dollar,
}

impl Sign {
    /// Whether this is the star.
    pub fn is_star(self) -> bool
        ensures { result ≡ is_star self }
    {
        matches!(self, Sign::Star)
    }

    /// Whether an operand may end with these signs.
    pub fn closes(self) -> bool
        ensures { result ≡ closes self }
    {
        matches!(
            self,
            Sign::Close | Sign::CloseBracket | Sign::Dot | Sign::DoubleDot
        )
    }
}

/// A token as it is spelled (ExprToken of XPath 1.0 §3.7).
#[derive(Drop)]
pub enum Word {
    /// Signs.
    Sign(Sign),
    /// The text between two quotation marks or two apostrophes.
    Literal(Text),
    /// The digits of a number, with its point where it has one.
    Number(Text),
    /// A QName.
    Name {
        /// The prefix, empty where there is none.
        prefix: Text,
        /// The local name.
        local: Text,
    },
    /// `prefix:*`.
    AnyIn(Text),
}
