use crate::fault::TokensFault;
use crate::prefixes::Prefixes;
use crate::terminal::{Terminal, Token};
use crate::test::NodeTest;
use crate::tokens::tokens_of;
use std::alloc::{AllocError, Global};
use xpath_value::Number;

// A node test as a text.
fn told_test(alloc: Global, test: &NodeTest) -> Result<String, AllocError> {
    match test {
        NodeTest::Any => String::from_str(alloc, "any"),
        NodeTest::AnyIn(uri) => format!(in alloc; "any {}", uri.as_str()),
        NodeTest::Named { uri, local } => format!(in alloc; "{} {}", uri.as_str(), local.as_str()),
        NodeTest::Comment => String::from_str(alloc, "comment"),
        NodeTest::Words => String::from_str(alloc, "text"),
        NodeTest::Node => String::from_str(alloc, "node"),
        NodeTest::Instruction(None) => String::from_str(alloc, "instruction"),
        NodeTest::Instruction(Some(target)) => {
            format!(in alloc; "instruction {}", target.as_str())
        }
    }
}

// A terminal as a text.
fn told(alloc: Global, terminal: &Terminal) -> Result<String, AllocError> {
    match terminal {
        Terminal::Open => String::from_str(alloc, "("),
        Terminal::Close => String::from_str(alloc, ")"),
        Terminal::OpenBracket => String::from_str(alloc, "["),
        Terminal::CloseBracket => String::from_str(alloc, "]"),
        Terminal::Comma => String::from_str(alloc, ","),
        Terminal::Slash => String::from_str(alloc, "/"),
        Terminal::DoubleSlash => String::from_str(alloc, "//"),
        Terminal::Dot => String::from_str(alloc, "."),
        Terminal::DoubleDot => String::from_str(alloc, ".."),
        Terminal::Minus => String::from_str(alloc, "-"),
        Terminal::Operator(op) => format!(in alloc; "{op:?}"),
        Terminal::Axis(axis) => format!(in alloc; "{axis:?}::"),
        Terminal::Test(test) => {
            let test = told_test(alloc, test)?;
            format!(in alloc; "<{test}>")
        }
        Terminal::Call(function) => format!(in alloc; "{function:?}("),
        Terminal::Literal(text) => format!(in alloc; "'{}'", text.as_str()),
        Terminal::Number(Number::Whole(n)) => format!(in alloc; "{n}"),
        Terminal::Number(Number::Nan) => String::from_str(alloc, "NaN"),
    }
}

// The tokens of a text, each with a space before it and its offence behind it, or `none`.
fn told_all(alloc: Global, text: &str) -> Result<String, TokensFault> {
    let mut prefixes = Prefixes::new(alloc);
    prefixes.add("p", "urn:p")?;
    prefixes.add("q", "urn:q")?;
    prefixes.add("p", "urn:r")?;
    let mut all = String::new(alloc);
    match tokens_of(alloc, text, &prefixes) {
        Ok(tokens) => {
            for token in &tokens {
                let terminal = told(alloc, &token.terminal)?;
                all.push_str(" ")?;
                all.push_str(terminal.as_str())?;
                if let Some(offence) = token.offence {
                    let offence = format!(in alloc; "!{offence:?}")?;
                    all.push_str(offence.as_str())?;
                }
            }
        }
        Err(_) => all.push_str("none")?,
    }
    Ok(all)
}

#[test]
fn the_longest_token_is_taken(rt: HostRuntime) -> Result<(), TokensFault> {
    let rows = [
        (".5", " NaN!Fraction"),
        ("5..", " 5 ."),
        ("...", " .. ."),
        ("a::b", "none"),
        ("a-b", " < a-b>"),
        ("a - b", " < a> - < b>"),
        ("a<=b", " < a> LessEqual < b>"),
        ("a< =b", " < a> Less Equal < b>"),
        ("\u{E9}\u{A0}", "none"),
    ];
    for (text, wanted) in rows {
        assert_eq!(rt; told_all(rt.alloc(), text)?.as_str(), wanted, "{text}");
    }
    Ok(())
}

#[test]
fn the_token_before_decides(rt: HostRuntime) -> Result<(), TokensFault> {
    let rows = [
        ("* * *", " <any> Multiply <any>"),
        ("div div div", " < div> Mod!Div < div>"),
        ("last()*2", " Last( ) Multiply 2"),
        ("$or or or", " ''!Variable Or < or>"),
        ("a b", "none"),
        ("a p:or b", "none"),
        ("-1", " - 1"),
        ("/ *", " / <any>"),
    ];
    for (text, wanted) in rows {
        assert_eq!(rt; told_all(rt.alloc(), text)?.as_str(), wanted, "{text}");
    }
    Ok(())
}

#[test]
fn names_are_told_apart_by_what_follows(rt: HostRuntime) -> Result<(), TokensFault> {
    let rows = [
        ("text ( )", " <text>"),
        ("text", " < text>"),
        ("text(1)", "none"),
        ("processing-instruction('x')", " <instruction x>"),
        ("f(", " Last(!UnknownFunction"),
        ("p:f(", " Last(!UnknownFunction"),
        ("count (", " Count("),
        ("self ::node()", " SelfNode:: <node>"),
        ("p:self::a", "none"),
    ];
    for (text, wanted) in rows {
        assert_eq!(rt; told_all(rt.alloc(), text)?.as_str(), wanted, "{text}");
    }
    Ok(())
}

#[test]
fn prefixes_stand_for_namespace_names(rt: HostRuntime) -> Result<(), TokensFault> {
    let rows = [
        ("p:b", " <urn:p b>"),
        ("q:*", " <any urn:q>"),
        ("a:b", " < b>!UnboundPrefix"),
        ("a:*", " <any >!UnboundPrefix"),
        ("p :*", "none"),
        ("p:b:c", "none"),
    ];
    for (text, wanted) in rows {
        assert_eq!(rt; told_all(rt.alloc(), text)?.as_str(), wanted, "{text}");
    }
    Ok(())
}

#[test]
fn terminals_carry_texts_and_numbers(rt: HostRuntime) -> Result<(), TokensFault> {
    let rows = [
        ("", ""),
        ("..", " .."),
        ("\"x'\"", " 'x''"),
        ("'x", "none"),
        ("$a", " ''!Variable"),
        ("$ a", " ''!Variable"),
        ("$*", "none"),
        ("2.0 9007199254740992", " 2 NaN!NumberRange"),
    ];
    for (text, wanted) in rows {
        assert_eq!(rt; told_all(rt.alloc(), text)?.as_str(), wanted, "{text}");
    }
    Ok(())
}
