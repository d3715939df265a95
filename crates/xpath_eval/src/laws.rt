//! Laws of the meaning of expressions, as contracts of functions that do nothing.
ghost use Rattle.std.specs.Prelude.{◌≡◌, ◌<◌, List, ℕ, false, length, Ok, IfSome};
ghost use Rattle.xpath_syntax.specs.declared.expr.Expr.{Expr};
ghost use Rattle.xpath_eval.specs.declared.found.Found.TheVariants.{Nodes};
ghost use Rattle.xpath_eval.specs.Context.{Context, at};
ghost use Rattle.xpath_eval.specs.Meaning.{meaning};
ghost use Rattle.xpath_eval.specs.Order.{Ascends};
ghost use Rattle.xpath_eval.specs.Reads.{reads_context};

/// Where an expression comes to a node set, its rows stand in document order, each once.
///
/// The context node and the node of `here()` are rows of the document, as [`eval`](crate::eval) requires.
pub fn document_order()
    ensures { (e : Expr) (c : Context) (ys : List ℕ) → c.node < length c.rows → IfSome c.here (λ h. h < length c.rows)
        → meaning e c ≡ Ok (Nodes ys) → Ascends 0 (length c.rows) ys }
{}

/// An expression that doesn't read the context comes to the same at each node, position and size (XPath 1.0 §1).
pub fn independent_of_context()
    ensures { (e : Expr) (c : Context) (y place size : ℕ) → reads_context e ≡ false → meaning e (at c y place size) ≡ meaning e c }
{}
