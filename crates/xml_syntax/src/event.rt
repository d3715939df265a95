//! What a document is told by.
ghost use Rattle.std.specs.Prelude.{◌≡◌};
ghost use Rattle.xml_syntax.specs.Seen.{seen_text};

/// A text or a value.
#[derive(Debug, Drop)]
pub enum Text<'a> {
    /// It stands so in the document.
    Plain(&'a str),
    /// It was made of what stands in the document.
    Made(String),
}

impl Text<'_> {
    /// Its characters.
    pub fn as_str(&self) -> &str
        ensures { result.now ≡ seen_text self.now }
    {
        match self {
            Text::Plain(text) => text,
            Text::Made(text) => text.as_str(),
        }
    }
}

/// An attribute as it stands in a tag, a declaration of a namespace among them.
#[derive(Debug, Drop)]
pub struct Attribute<'a> {
    /// The name, with its prefix, as it stands in the document.
    pub name: &'a str,
    /// The value, normalized as that of an attribute without a declaration (XML 1.0 §3.3.3).
    pub value: Text<'a>,
}

/// A start tag or an empty-element tag. Offsets count the octets of the document before a place.
#[derive(Debug, Drop)]
pub struct Tag<'a> {
    /// The name, with its prefix, as it stands in the document.
    pub name: &'a str,
    /// The attributes as they stand. No name stands twice.
    pub attributes: Vec<Attribute<'a>>,
    /// The offset of `<`.
    pub from: u32,
    /// The offset behind the `>` of a start tag, or of the `/` of an empty-element tag.
    pub body_from: u32,
    /// Whether it is an empty-element tag.
    pub is_empty: bool,
}

/// A processing instruction.
#[derive(Debug, Drop)]
pub struct Instruction<'a> {
    /// The target, as it stands in the document.
    pub target: &'a str,
    /// What is behind the white space that follows the target.
    pub value: String,
}

/// What stands in a document, in document order.
#[derive(Debug, Drop)]
pub enum Event<'a> {
    /// A text that isn't empty. Neighbouring characters, references and CDATA sections are one text.
    Text(Text<'a>),
    /// A comment.
    Comment(String),
    /// A processing instruction.
    Instruction(Instruction<'a>),
    /// The begin of an element.
    Start(Tag<'a>),
    /// The end of an element: the offset of its `</`, or that behind its empty-element tag.
    End(u32),
}
