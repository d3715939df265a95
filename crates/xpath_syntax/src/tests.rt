use super::*;
use std::alloc::{AllocError, Global};
use xpath_value::Number;

/// A part of the notation that is still to be written.
#[derive(Drop)]
enum Piece<'e> {
    Whole(&'e Expr),
    Step(&'e PathStep),
    Word(&'static str),
}

/// A stack of parts, the next one last.
#[derive(Drop)]
struct Pieces<'e> {
    pieces: Vec<Piece<'e>>,
}

impl<'e> Pieces<'e> {
    fn push(&mut self, piece: Piece<'e>) -> Result<(), AllocError> {
        self.pieces.push(piece)?;
        Ok(())
    }

    fn push_each(
        &mut self,
        items: &'e [Expr],
        before: &'static str,
        behind: &'static str,
    ) -> Result<(), AllocError> {
        for item in items.iter().rev() {
            self.push(Piece::Word(behind))?;
            self.push(Piece::Whole(item))?;
            self.push(Piece::Word(before))?;
        }
        Ok(())
    }

    fn push_path(&mut self, start: &'e PathStart, steps: &'e [PathStep]) -> Result<(), AllocError> {
        for step in steps.iter().rev() {
            self.push(Piece::Step(step))?;
        }
        match start {
            PathStart::Context => Ok(()),
            PathStart::Root => self.push(Piece::Word("root")),
            PathStart::From(base) => self.push(Piece::Whole(base.get())),
        }
    }
}

fn write_test(out: &mut String, test: &NodeTest) -> Result<(), AllocError> {
    match test {
        NodeTest::Any => out.push_str("*"),
        NodeTest::AnyIn(uri) => {
            out.push_str(uri.as_str())?;
            out.push_str("#*")
        }
        NodeTest::Named { uri, local } => {
            if !uri.as_str().is_empty() {
                out.push_str(uri.as_str())?;
                out.push_str("#")?;
            }
            out.push_str(local.as_str())
        }
        NodeTest::Comment => out.push_str("comment()"),
        NodeTest::Words => out.push_str("text()"),
        NodeTest::Node => out.push_str("node()"),
        NodeTest::Instruction(None) => out.push_str("pi()"),
        NodeTest::Instruction(Some(target)) => {
            out.push_str("pi-")?;
            out.push_str(target.as_str())
        }
    }
}

/// A step, as `/Axis::test[predicate]`.
fn write_step<'e>(
    alloc: Global,
    pieces: &mut Pieces<'e>,
    out: &mut String,
    step: &'e PathStep,
) -> Result<(), AllocError> {
    let axis = format!(in alloc; "/{:?}::", step.axis)?;
    out.push_str(axis.as_str())?;
    write_test(out, &step.test)?;
    pieces.push_each(step.predicates.as_slice(), "[", "]")
}

/// An expression: an operator with its operands as `(left Op right)`, a call as `Function(first)(second)`.
fn write_whole<'e>(
    alloc: Global,
    pieces: &mut Pieces<'e>,
    out: &mut String,
    expr: &'e Expr,
) -> Result<(), AllocError> {
    match expr {
        Expr::Binary { op, left, right } => {
            pieces.push(Piece::Word(")"))?;
            pieces.push(Piece::Whole(right.get()))?;
            pieces.push(Piece::Word(" "))?;
            pieces.push(Piece::Whole(left.get()))?;
            let sign = format!(in alloc; "{op:?}(")?;
            out.push_str(sign.as_str())
        }
        Expr::Negate(operand) => {
            pieces.push(Piece::Word(")"))?;
            pieces.push(Piece::Whole(operand.get()))?;
            out.push_str("Negate(")
        }
        Expr::Literal(text) => out.push_str(text.as_str()),
        Expr::Number(Number::Whole(n)) => {
            let digits = format!(in alloc; "{n}")?;
            out.push_str(digits.as_str())
        }
        Expr::Number(Number::Nan) => out.push_str("NaN"),
        Expr::Call { function, args } => {
            pieces.push_each(args.as_slice(), "(", ")")?;
            let name = format!(in alloc; "{function:?}")?;
            out.push_str(name.as_str())
        }
        Expr::Filtered { base, predicates } => {
            pieces.push_each(predicates.as_slice(), "[", "]")?;
            pieces.push(Piece::Whole(base.get()))
        }
        Expr::Path { start, steps } => pieces.push_path(start, steps.as_slice()),
    }
}

/// The notation of an expression.
fn notation(alloc: Global, expr: &Expr) -> Result<String, AllocError> {
    let mut out = String::new(alloc);
    let mut pieces = Pieces {
        pieces: Vec::new(alloc),
    };
    pieces.push(Piece::Whole(expr))?;
    for _ in 0..100_000 {
        match pieces.pieces.pop() {
            Some(Piece::Whole(expr)) => write_whole(alloc, &mut pieces, &mut out, expr)?,
            Some(Piece::Step(step)) => write_step(alloc, &mut pieces, &mut out, step)?,
            Some(Piece::Word(word)) => out.push_str(word)?,
            None => return Ok(out),
        }
    }
    Ok(out)
}

/// What a text comes to, where `p` stands for `urn:p`: the notation of its expression, or the name of its refusal.
fn shown(alloc: Global, text: &str) -> Result<String, AllocError> {
    let mut prefixes = Prefixes::new(alloc);
    if prefixes.add("p", "urn:p").is_err() {
        return String::from_str(alloc, "no memory");
    }
    match parse(alloc, text, &prefixes) {
        Ok(expr) => notation(alloc, &expr),
        Err(refusal) => format!(in alloc; "{refusal:?}"),
    }
}

#[test]
fn operators_group_from_the_left(rt: HostRuntime) -> Result<(), AllocError> {
    let rows = [
        ("1-2-3", "Subtract(Subtract(1 2) 3)"),
        ("1+2*3", "Add(1 Multiply(2 3))"),
        ("1*2+3", "Add(Multiply(1 2) 3)"),
        ("(1-(2-3))", "Subtract(1 Subtract(2 3))"),
        ("* * *", "Multiply(/Child::* /Child::*)"),
        ("-a*b", "Multiply(Negate(/Child::a) /Child::b)"),
        ("- - 1 | 2", "Negate(Negate(Union(1 2)))"),
        ("1 = 2 < 3 and 4 or 5", "Or(And(Equal(1 Less(2 3)) 4) 5)"),
        ("1 != 2 >= 3 mod 4", "NotEqual(1 GreaterEqual(2 Mod(3 4)))"),
        ("1 > 2 <= 3", "LessEqual(Greater(1 2) 3)"),
    ];
    for (text, want) in rows {
        let found = shown(rt.alloc(), text)?;
        assert_eq!(rt; found.as_str(), want, "{text}");
    }
    Ok(())
}

#[test]
fn paths_are_written_out(rt: HostRuntime) -> Result<(), AllocError> {
    let rows = [
        ("/", "root"),
        (
            "//a[1]/@b",
            "root/DescendantOrSelf::node()/Child::a[1]/Attribute::b",
        ),
        ("a/b | c", "Union(/Child::a/Child::b /Child::c)"),
        (
            ".//..",
            "/SelfNode::node()/DescendantOrSelf::node()/Parent::node()",
        ),
        ("/self::p:a", "root/SelfNode::urn:p#a"),
        ("p:*/text()", "/Child::urn:p#*/Child::text()"),
        ("processing-instruction('x')[1][2]", "/Child::pi-x[1][2]"),
        (
            "(a)[1]//b",
            "/Child::a[1]/DescendantOrSelf::node()/Child::b",
        ),
        ("concat('x', 2.0)[3]", "Concat(x)(2)[3]"),
        ("last()", "Last"),
        ("/ = 1", "Equal(root 1)"),
    ];
    for (text, want) in rows {
        let found = shown(rt.alloc(), text)?;
        assert_eq!(rt; found.as_str(), want, "{text}");
    }
    Ok(())
}

#[test]
fn texts_out_of_the_grammar_are_refused(rt: HostRuntime) -> Result<(), AllocError> {
    let rows = [
        "",
        "(",
        "1 | -2",
        ".[1]",
        "..[1]",
        "1 2",
        "f(1,)",
        "f(,1)",
        "a[]",
        "a//",
        "/ //a",
        "(1))",
        "a b",
        "1 +",
        "a::",
        "$",
        "div div $",
    ];
    for text in rows {
        let found = shown(rt.alloc(), text)?;
        assert_eq!(rt; found.as_str(), "NotXPath", "{text}");
    }
    Ok(())
}

#[test]
fn the_leftmost_offence_decides(rt: HostRuntime) -> Result<(), AllocError> {
    let rows = [
        ("div div div", "Div"),
        ("9007199254740992", "NumberRange"),
        ("2.0", "2"),
        ("1.5", "Fraction"),
        ("1 div 1", "Div"),
        ("$a", "Variable"),
        ("f()", "UnknownFunction"),
        ("p:count(1)", "UnknownFunction"),
        ("count()", "Arity"),
        ("a:b", "UnboundPrefix"),
        ("1.5 + 9007199254740992", "Fraction"),
        ("9007199254740992 div 1.5", "NumberRange"),
        ("1 div $a", "Div"),
        ("$a + f()", "Variable"),
        ("f(count())", "UnknownFunction"),
        ("count(f(), 1.5)", "Arity"),
        ("count(count(a:b), count())", "Arity"),
        ("a:b[1.5]", "UnboundPrefix"),
        ("translate('a[,', ',(', ')')", "Translate(a[,)(,()())"),
        ("count(a[concat(1, 2)])", "Count(/Child::a[Concat(1)(2)])"),
    ];
    for (text, want) in rows {
        let found = shown(rt.alloc(), text)?;
        assert_eq!(rt; found.as_str(), want, "{text}");
    }
    Ok(())
}

/// A text so many times, another, and a third so many times.
fn nested(
    alloc: Global,
    before: &str,
    middle: &str,
    behind: &str,
    count: usize,
) -> Result<String, AllocError> {
    let mut text = String::new(alloc);
    for _ in 0..count {
        text.push_str(before)?;
    }
    text.push_str(middle)?;
    for _ in 0..count {
        text.push_str(behind)?;
    }
    Ok(text)
}

#[test]
fn nesting_is_limited(rt: HostRuntime) -> Result<(), AllocError> {
    let rows = [
        ("(", "1.5", ")", 64, "Fraction"),
        ("(", "1.5", ")", 65, "TooDeep"),
        ("(", "1.5", "", 65, "NotXPath"),
        ("-", "1.5", "", 64, "Fraction"),
        ("-", "1.5", "", 65, "TooDeep"),
        ("a[", "1.5", "]", 64, "Fraction"),
        ("a[", "1.5", "]", 65, "TooDeep"),
        ("not(", "1.5", ")", 64, "Fraction"),
        ("not(", "1.5", ")", 65, "TooDeep"),
        ("not(", "text()", ")", 63, "Not"),
        ("not(", "text()", ")", 64, "TooDeep"),
        ("1+", "1.5", "", 200, "Fraction"),
        ("-1+", "1.5", "", 200, "Fraction"),
        ("a[1]/", "a[1.5]", "", 200, "Fraction"),
        ("(", "1.5", ")", 2046, "TooDeep"),
        ("(", "1.5", ")", 2047, "TooLong"),
    ];
    for (before, middle, behind, count, want) in rows {
        let text = nested(rt.alloc(), before, middle, behind, count)?;
        let found = shown(rt.alloc(), text.as_str())?;
        assert!(rt; found.as_str().starts_with(want), "{text}");
    }
    Ok(())
}
