//! Tokens that the grammar takes as one terminal.
ghost use Rattle.std.specs.Prelude.{◌≡◌, Some, None, IfOk, drop, encode_utf8_all};
ghost use Rattle.xpath_words.specs.Named.{type_named};
ghost use Rattle.xpath_words.specs.Prefixes.{namespace_of};
ghost use Rattle.xpath_words.specs.Terminals.{alone, any_in_token, axis_at, begins_close, begins_colons, begins_name};
ghost use Rattle.xpath_words.specs.Terminals.{begins_open, behind_first, call_token, called, closed};
ghost use Rattle.xpath_words.specs.Terminals.{group_at, grouped, instruction_at, lawful, name_at, name_token};
ghost use Rattle.xpath_words.specs.Terminals.{number_token, offending, operator_token, sign_at, type_at, variable};
ghost use Rattle.xpath_words.specs.Given.{Collects};
ghost use Rattle.xpath_words.specs.Code.Given.{Gives};

use crate::axis::AxisName;
use crate::fault::TokensFault;
use crate::function::Function;
use crate::meaning::{Meant, OperatorName, is_empty};
use crate::operator::BinaryOp;
use crate::prefixes::Prefixes;
use crate::terminal::{Offence, Terminal, Token};
use crate::test::NodeTest;
use crate::word::Sign;
use sig_base::{NoMemory, Text};
use std::alloc::Global;
use xpath_value::{Number, NumberFault, number_of_text};

/// A node type (XPath 1.0 §3.7, NodeType).
#[derive(Clone, Copy, Debug, PartialEq, Eq, Drop)]
pub enum NodeType {
    /// `comment`.
    Comment,
    /// `text`.
    Words,
    /// `node`.
    Node,
    /// `processing-instruction`.
    Instruction,
}

impl NodeType {
    /// The node type of this name.
    fn named(name: &str) -> Option<NodeType>
        ensures { result ≡ type_named name.now }
    {
        match name {
            "comment" => Some(NodeType::Comment),
            "text" => Some(NodeType::Words),
            "node" => Some(NodeType::Node),
            "processing-instruction" => Some(NodeType::Instruction),
            _ => None,
        }
    }
}

impl Token {
    /// A terminal with which nothing is wrong.
    fn lawful(terminal: Terminal) -> Token
        ensures { result ≡ lawful terminal }
    {
        Token {
            terminal,
            offence: None,
        }
    }

    /// A terminal with which something is wrong.
    fn offending(terminal: Terminal, offence: Offence) -> Token
        ensures { result ≡ offending terminal offence }
    {
        Token {
            terminal,
            offence: Some(offence),
        }
    }
}

/// A terminal, and how many tokens behind the first one belong to it.
type Group = (Token, usize);

/// A terminal of one token.
fn alone(terminal: Terminal) -> Result<Group, TokensFault>
    ensures { Gives result (alone terminal) }
{
    Ok((Token::lawful(terminal), 0))
}

/// Another text of the same characters.
fn copied(alloc: Global, text: &Text) -> Result<Text, NoMemory>
    ensures { IfOk result (λ t. t ≡ text.now) }
{
    Text::from_str(alloc, text.as_str())
}

/// Whether `(` comes next.
fn begins_open(behind: &[Meant]) -> bool
    ensures { result ≡ begins_open behind.now }
{
    matches!(behind, [Meant::Sign(Sign::Open), ..])
}

/// Whether `)` comes next.
fn begins_close(behind: &[Meant]) -> bool
    ensures { result ≡ begins_close behind.now }
{
    matches!(behind, [Meant::Sign(Sign::Close), ..])
}

/// Whether `::` comes next.
fn begins_colons(behind: &[Meant]) -> bool
    ensures { result ≡ begins_colons behind.now }
{
    matches!(behind, [Meant::Sign(Sign::DoubleColon), ..])
}

/// Whether a name comes next.
fn begins_name(behind: &[Meant]) -> bool
    ensures { result ≡ begins_name behind.now }
{
    matches!(behind, [Meant::Name { .. }, ..])
}

/// What is behind the next token.
fn behind_first(behind: &[Meant]) -> &[Meant]
    ensures { result.now ≡ behind_first behind.now }
{
    match behind {
        [_, more @ ..] => more,
        [] => behind,
    }
}

/// A variable, behind its `$`.
fn variable(alloc: Global, behind: &[Meant]) -> Result<Group, TokensFault>
    ensures { Gives result (variable behind.now) }
{
    if begins_name(behind) {
        let stand_in = Terminal::Literal(Text::new(alloc));
        Ok((Token::offending(stand_in, Offence::Variable), 1))
    } else {
        Err(TokensFault::NotXPath)
    }
}

/// The terminal that begins with these signs.
fn sign_at(alloc: Global, sign: Sign, behind: &[Meant]) -> Result<Group, TokensFault>
    ensures { Gives result (sign_at sign behind.now) }
{
    match sign {
        Sign::Open => alone(Terminal::Open),
        Sign::Close => alone(Terminal::Close),
        Sign::OpenBracket => alone(Terminal::OpenBracket),
        Sign::CloseBracket => alone(Terminal::CloseBracket),
        Sign::Dot => alone(Terminal::Dot),
        Sign::DoubleDot => alone(Terminal::DoubleDot),
        Sign::At => alone(Terminal::Axis(AxisName::Attribute)),
        Sign::Comma => alone(Terminal::Comma),
        Sign::Slash => alone(Terminal::Slash),
        Sign::DoubleSlash => alone(Terminal::DoubleSlash),
        Sign::Bar => alone(Terminal::Operator(BinaryOp::Union)),
        Sign::Plus => alone(Terminal::Operator(BinaryOp::Add)),
        Sign::Minus => alone(Terminal::Minus),
        Sign::Equal => alone(Terminal::Operator(BinaryOp::Equal)),
        Sign::NotEqual => alone(Terminal::Operator(BinaryOp::NotEqual)),
        Sign::Less => alone(Terminal::Operator(BinaryOp::Less)),
        Sign::LessEqual => alone(Terminal::Operator(BinaryOp::LessEqual)),
        Sign::Greater => alone(Terminal::Operator(BinaryOp::Greater)),
        Sign::GreaterEqual => alone(Terminal::Operator(BinaryOp::GreaterEqual)),
        Sign::Dollar => variable(alloc, behind),
        Sign::DoubleColon | Sign::Star => Err(TokensFault::NotXPath),
    }
}

/// An operator that is a name.
fn operator_token(name: OperatorName) -> Token
    ensures { result ≡ operator_token name }
{
    match name {
        OperatorName::Or => Token::lawful(Terminal::Operator(BinaryOp::Or)),
        OperatorName::And => Token::lawful(Terminal::Operator(BinaryOp::And)),
        OperatorName::Mod => Token::lawful(Terminal::Operator(BinaryOp::Mod)),
        OperatorName::Div => Token::offending(Terminal::Operator(BinaryOp::Mod), Offence::Div),
    }
}

/// A number.
fn number_token(number: Result<Number, NumberFault>) -> Token
    ensures { result ≡ number_token number }
{
    match number {
        Ok(number) => Token::lawful(Terminal::Number(number)),
        Err(NumberFault::Fraction) => {
            Token::offending(Terminal::Number(Number::Nan), Offence::Fraction)
        }
        Err(NumberFault::NumberRange) => {
            Token::offending(Terminal::Number(Number::Nan), Offence::NumberRange)
        }
    }
}

/// `prefix:*`.
fn any_in_token(alloc: Global, prefix: &Text, prefixes: &Prefixes<'_>) -> Result<Token, TokensFault>
    ensures { Gives result (Some (any_in_token (namespace_of (encode_utf8_all prefix.now) prefixes.now))) }
{
    match prefixes.namespace_of(prefix.as_str()) {
        Some(uri) => {
            let uri = Text::from_str(alloc, uri)?;
            Ok(Token::lawful(Terminal::Test(NodeTest::AnyIn(uri))))
        }
        None => {
            let test = NodeTest::AnyIn(Text::new(alloc));
            Ok(Token::offending(Terminal::Test(test), Offence::UnboundPrefix))
        }
    }
}

/// A name as a test.
fn name_token(
    alloc: Global,
    prefix: &Text,
    local: &Text,
    prefixes: &Prefixes<'_>,
) -> Result<Token, TokensFault>
    ensures { Gives result (Some (name_token prefixes.now prefix.now local.now)) }
{
    let local = copied(alloc, local)?;
    if is_empty(prefix) {
        let uri = Text::new(alloc);
        return Ok(Token::lawful(Terminal::Test(NodeTest::Named { uri, local })));
    }
    match prefixes.namespace_of(prefix.as_str()) {
        Some(uri) => {
            let uri = Text::from_str(alloc, uri)?;
            Ok(Token::lawful(Terminal::Test(NodeTest::Named { uri, local })))
        }
        None => {
            let uri = Text::new(alloc);
            let test = NodeTest::Named { uri, local };
            Ok(Token::offending(Terminal::Test(test), Offence::UnboundPrefix))
        }
    }
}

/// An axis, by its name before `::`.
fn axis_at(prefix: &Text, local: &Text) -> Result<Group, TokensFault>
    ensures { Gives result (axis_at prefix.now local.now) }
{
    if !is_empty(prefix) {
        return Err(TokensFault::NotXPath);
    }
    match AxisName::named(local.as_str()) {
        Some(axis) => Ok((Token::lawful(Terminal::Axis(axis)), 1)),
        None => Err(TokensFault::NotXPath),
    }
}

/// A function's name and `(`.
fn call_token(function: Option<Function>) -> Token
    ensures { result ≡ call_token function }
{
    match function {
        Some(function) => Token::lawful(Terminal::Call(function)),
        None => Token::offending(Terminal::Call(Function::Last), Offence::UnknownFunction),
    }
}

/// A node test of so many tokens behind the first one, of which `)` is the last.
fn closed(test: NodeTest, count: usize, behind: &[Meant]) -> Result<Group, TokensFault>
    ensures { Gives result (closed test count behind.now) }
{
    if begins_close(behind) {
        Ok((Token::lawful(Terminal::Test(test)), count))
    } else {
        Err(TokensFault::NotXPath)
    }
}

/// `processing-instruction(`, before these tokens.
fn instruction_at(alloc: Global, behind: &[Meant]) -> Result<Group, TokensFault>
    ensures { Gives result (instruction_at behind.now) }
{
    match behind {
        [Meant::Literal(target), more @ ..] => {
            let target = copied(alloc, target)?;
            closed(NodeTest::Instruction(Some(target)), 3, more)
        }
        _ => closed(NodeTest::Instruction(None), 2, behind),
    }
}

/// A node type and `(`, before these tokens.
fn type_at(alloc: Global, node_type: NodeType, behind: &[Meant]) -> Result<Group, TokensFault>
    ensures { Gives result (type_at node_type behind.now) }
{
    match node_type {
        NodeType::Comment => closed(NodeTest::Comment, 2, behind),
        NodeType::Words => closed(NodeTest::Words, 2, behind),
        NodeType::Node => closed(NodeTest::Node, 2, behind),
        NodeType::Instruction => instruction_at(alloc, behind),
    }
}

/// A name and `(`, before these tokens: a node type or a function.
fn called(
    alloc: Global,
    prefix: &Text,
    local: &Text,
    behind: &[Meant],
) -> Result<Group, TokensFault>
    ensures { Gives result (called prefix.now local.now behind.now) }
{
    if !is_empty(prefix) {
        return Ok((call_token(None), 1));
    }
    match NodeType::named(local.as_str()) {
        Some(node_type) => type_at(alloc, node_type, behind),
        None => Ok((call_token(Function::named(local.as_str())), 1)),
    }
}

/// The terminal that begins with a name.
fn name_at(
    alloc: Global,
    prefix: &Text,
    local: &Text,
    behind: &[Meant],
    prefixes: &Prefixes<'_>,
) -> Result<Group, TokensFault>
    ensures { Gives result (name_at prefixes.now prefix.now local.now behind.now) }
{
    if begins_colons(behind) {
        return axis_at(prefix, local);
    }
    if begins_open(behind) {
        return called(alloc, prefix, local, behind_first(behind));
    }
    Ok((name_token(alloc, prefix, local, prefixes)?, 0))
}

/// The terminal that begins with this token, before these ones.
#[tactic(auto, unfolding(crate::specs::Terminals::group_at))]
fn group_at(
    alloc: Global,
    first: &Meant,
    behind: &[Meant],
    prefixes: &Prefixes<'_>,
) -> Result<Group, TokensFault>
    ensures { Gives result (group_at prefixes.now first.now behind.now) }
{
    match first {
        Meant::Sign(sign) => sign_at(alloc, *sign, behind),
        Meant::Multiply => alone(Terminal::Operator(BinaryOp::Multiply)),
        Meant::Any => alone(Terminal::Test(NodeTest::Any)),
        Meant::Operator(name) => Ok((operator_token(*name), 0)),
        Meant::Name { prefix, local } => name_at(alloc, prefix, local, behind, prefixes),
        Meant::AnyIn(prefix) => Ok((any_in_token(alloc, prefix, prefixes)?, 0)),
        Meant::Literal(text) => alone(Terminal::Literal(copied(alloc, text)?)),
        Meant::Number(text) => Ok((number_token(number_of_text(text.as_str())), 0)),
    }
}

/// What is behind so many tokens.
fn behind_many(all: &[Meant], count: usize) -> &[Meant]
    ensures { result.now ≡ drop count all.now }
{
    if count <= all.len() {
        &all[count..]
    } else {
        &[]
    }
}

/// The terminals of meant tokens.
pub fn grouped(
    alloc: Global,
    meant: &[Meant],
    prefixes: &Prefixes<'_>,
) -> Result<Vec<Token>, TokensFault>
    ensures { Collects result (grouped prefixes.now meant.now) }
{
    let mut tokens = Vec::new(alloc);
    let mut rest = meant;
    while let Some(first) = rest.first() {
        let behind = behind_first(rest);
        let (token, count) = group_at(alloc, first, behind, prefixes)?;
        tokens.push(token)?;
        rest = behind_many(behind, count);
    }
    Ok(tokens)
}
