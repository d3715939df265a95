//! The functions, by name.
ghost use Rattle.std.specs.Prelude.{◌≡◌};
ghost use Rattle.xpath_words.specs.Named.{function_named};

/// A function of XPath's core library (XPath 1.0 §4), or `here` (XML Signature 1.1 §6.6.3).
#[derive(Clone, Copy, Debug, PartialEq, Eq, Drop)]
pub enum Function {
    /// `last` (XPath 1.0 §4.1).
    Last,
    /// `position` (XPath 1.0 §4.1).
    Position,
    /// `count` (XPath 1.0 §4.1).
    Count,
    /// `id` (XPath 1.0 §4.1).
    Id,
    /// `local-name` (XPath 1.0 §4.1).
    LocalName,
    /// `namespace-uri` (XPath 1.0 §4.1).
    NamespaceUri,
    /// `name` (XPath 1.0 §4.1).
    Name,
    /// `string` (XPath 1.0 §4.2).
    String,
    /// `concat` (XPath 1.0 §4.2).
    Concat,
    /// `starts-with` (XPath 1.0 §4.2).
    StartsWith,
    /// `contains` (XPath 1.0 §4.2).
    Contains,
    /// `substring-before` (XPath 1.0 §4.2).
    SubstringBefore,
    /// `substring-after` (XPath 1.0 §4.2).
    SubstringAfter,
    /// `substring` (XPath 1.0 §4.2).
    Substring,
    /// `string-length` (XPath 1.0 §4.2).
    StringLength,
    /// `normalize-space` (XPath 1.0 §4.2).
    NormalizeSpace,
    /// `translate` (XPath 1.0 §4.2).
    Translate,
    /// `boolean` (XPath 1.0 §4.3).
    Boolean,
    /// `not` (XPath 1.0 §4.3).
    Not,
    /// `true` (XPath 1.0 §4.3).
    True,
    /// `false` (XPath 1.0 §4.3).
    False,
    /// `lang` (XPath 1.0 §4.3).
    Lang,
    /// `number` (XPath 1.0 §4.4).
    Number,
    /// `sum` (XPath 1.0 §4.4).
    Sum,
    /// `floor` (XPath 1.0 §4.4).
    Floor,
    /// `ceiling` (XPath 1.0 §4.4).
    Ceiling,
    /// `round` (XPath 1.0 §4.4).
    Round,
    /// `here` (XML Signature 1.1 §6.6.3).
    Here,
}

impl Function {
    /// The function of this name. `None` comes exactly where none has it.
    pub(crate) fn named(name: &str) -> Option<Function>
        ensures { result ≡ function_named name.now }
    {
        match name {
            "last" => Some(Function::Last),
            "position" => Some(Function::Position),
            "count" => Some(Function::Count),
            "id" => Some(Function::Id),
            "local-name" => Some(Function::LocalName),
            "namespace-uri" => Some(Function::NamespaceUri),
            "name" => Some(Function::Name),
            "string" => Some(Function::String),
            "concat" => Some(Function::Concat),
            "starts-with" => Some(Function::StartsWith),
            "contains" => Some(Function::Contains),
            "substring-before" => Some(Function::SubstringBefore),
            "substring-after" => Some(Function::SubstringAfter),
            "substring" => Some(Function::Substring),
            "string-length" => Some(Function::StringLength),
            "normalize-space" => Some(Function::NormalizeSpace),
            "translate" => Some(Function::Translate),
            "boolean" => Some(Function::Boolean),
            "not" => Some(Function::Not),
            "true" => Some(Function::True),
            "false" => Some(Function::False),
            "lang" => Some(Function::Lang),
            "number" => Some(Function::Number),
            "sum" => Some(Function::Sum),
            "floor" => Some(Function::Floor),
            "ceiling" => Some(Function::Ceiling),
            "round" => Some(Function::Round),
            "here" => Some(Function::Here),
            _ => None,
        }
    }
}
