//! Expressions.

use sig_base::Text;
use sqlite_items::{Boxed, Items};
use xpath_value::Number;
use xpath_words::{AxisName, BinaryOp, Function, NodeTest};

/// A list of expressions.
pub type ExprList = Items<Expr>;

/// A list of steps.
pub type PathSteps = Items<PathStep>;

/// An expression (XPath 1.0 §3). A part in parentheses is the expression within.
#[cycle(expr)]
pub enum Expr {
    /// Two operands with an operator between them. Those of one rank group from the left.
    Binary {
        /// The operator.
        op: BinaryOp,
        /// What stands before the operator.
        left: Boxed<Expr>,
        /// What stands behind it.
        right: Boxed<Expr>,
    },
    /// A minus sign before its operand.
    Negate(Boxed<Expr>),
    /// A text between quotation marks.
    Literal(Text),
    /// A number.
    Number(Number),
    /// A function's name with its arguments.
    Call {
        /// The function.
        function: Function,
        /// The arguments, in order.
        args: ExprList,
    },
    /// A primary expression with predicates behind it, of which there is at least one.
    Filtered {
        /// The primary expression.
        base: Boxed<Expr>,
        /// What stands in the brackets, in order.
        predicates: ExprList,
    },
    /// A location path. Without steps it is `/` alone.
    Path {
        /// Where it begins.
        start: PathStart,
        /// The steps, in order, with the abbreviations written out (XPath 1.0 §2.5).
        steps: PathSteps,
    },
}

// The operands on the left of one another are as many as a text has room for, so they are let go by a loop. The others are as
// few as ranks and brackets nest, and take calls.
impl Drop for Expr {
    #[cycle(expr)]
    fn drop(mut self) {
        loop {
            match self {
                Expr::Binary { op: _, left, right } => {
                    drop(right);
                    self = left.into_inner();
                }
                Expr::Negate(operand) => self = operand.into_inner(),
                Expr::Literal(_) | Expr::Number(_) => return,
                Expr::Call { function: _, args } => return drop(args),
                Expr::Filtered { base, predicates } => {
                    drop(predicates);
                    self = base.into_inner();
                }
                Expr::Path { start, steps } => {
                    drop(steps);
                    return drop(start);
                }
            }
        }
    }
}

/// Where a path begins.
#[cycle(expr)]
#[derive(Drop)]
pub enum PathStart {
    /// The context node.
    Context,
    /// The root of the document.
    Root,
    /// The nodes of the expression before the first `/` or `//`.
    From(Boxed<Expr>),
}

/// A step of a path (XPath 1.0 §2.1).
#[cycle(expr)]
#[derive(Drop)]
pub struct PathStep {
    /// Where it goes.
    pub axis: AxisName,
    /// What it asks of a node.
    pub test: NodeTest,
    /// What stands in the brackets behind it, in order.
    pub predicates: ExprList,
}
