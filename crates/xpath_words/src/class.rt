//! The classes of characters by which tokens are told apart.
ghost use Rattle.std.specs.Prelude.{◌≡◌};
ghost use Rattle.xpath_words.specs.Classes.{test_of};

use xml_names::{is_name_char, is_name_start};

/// A kind of character.
#[derive(Clone, Copy)]
pub enum Class {
    /// White space.
    Space,
    /// A digit.
    Digit,
    /// A quotation mark or an apostrophe.
    Quote,
    /// The point.
    Point,
    /// The colon.
    Colon,
    /// The star.
    Star,
    /// What a name without a colon begins with.
    NameStart,
    /// What a name without a colon goes on with.
    Name,
    /// Any character but this one.
    Other(char),
}

impl Class {
    /// Whether the character is of this kind.
    pub fn holds(self, c: char) -> bool
        ensures { result ≡ test_of self c }
    {
        match self {
            Class::Space => c == ' ' || c == '\t' || c == '\r' || c == '\n',
            Class::Digit => '0' <= c && c <= '9',
            Class::Quote => c == '"' || c == '\'',
            Class::Point => c == '.',
            Class::Colon => c == ':',
            Class::Star => c == '*',
            Class::NameStart => is_name_start(c) && c != ':',
            Class::Name => is_name_char(c) && c != ':',
            Class::Other(mark) => c != mark,
        }
    }
}
