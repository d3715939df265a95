//! Laws of the grammar, as contracts of functions that do nothing.
ghost use Rattle.std.specs.Prelude.{◌≡◌, ℕ, List, None, Result};
ghost use Rattle.xpath_words.specs.declared.terminal.Terminal.{Terminal};
ghost use Rattle.xpath_words.specs.declared.terminal.Token.{Token};
ghost use Rattle.xpath_words.specs.declared.function.Function.{Function};
ghost use Rattle.xpath_syntax.specs.declared.expr.Expr.{Expr};
ghost use Rattle.xpath_syntax.specs.declared.refusal.SyntaxRefusal.{SyntaxRefusal};
ghost use Rattle.xpath_words.specs.Prefixes.{Pair};
ghost use Rattle.xpath_syntax.specs.Outcome.{Means, parse_outcome};
ghost use Rattle.xpath_syntax.specs.Counts.{ArgumentsCounted};
ghost use Rattle.xpath_syntax.specs.Grammar.{Spells, Level, Passing};
ghost use Rattle.xpath_syntax.specs.Lawful.{Lawful, One, Subject, Inside};
ghost use Rattle.xpath_syntax.specs.Offences.{NoneByItself, first_offence, terminals};

/// No terminals spell two expressions, however many they are.
pub fn one_expression()
    ensures { (s : List Terminal) (x y : Expr) → Spells (Level 0 x) s → Spells (Level 0 y) s → x ≡ y }
{}

/// The arguments counted by the commas behind a call's parenthesis are those of the grammar.
pub fn counted_arguments()
    ensures { (g : Function) (args : List Expr) (s : List Terminal) → Spells (Passing g args) s → ArgumentsCounted g args s }
{}

/// Where no token offends, the expression that the terminals spell is lawful.
pub fn lawful_expression()
    ensures { (ts : List Token) (x : Expr) → first_offence ts ≡ None → Spells (Level 0 x) (terminals ts) → Lawful (One x) }
{}

/// Where no token is offensive in itself and the expression that the terminals spell is lawful, no token offends.
pub fn lawful_unrefused()
    ensures { (ts : List Token) (x : Expr) → NoneByItself ts → Spells (Level 0 x) (terminals ts) → Lawful (One x)
        → first_offence ts ≡ None }
{}

/// What a lawful expression holds is lawful.
pub fn lawful_inside()
    ensures { (s : Subject) → Lawful s → Inside s }
{}

/// A text means just what it comes to: the first refusal that holds, and else the one expression that the grammar gives.
pub fn one_meaning()
    ensures one { (text : List ℕ) (ps : List Pair) (r : Result Expr SyntaxRefusal) → Means text ps r → parse_outcome text ps ≡ r }
    ensures some { (text : List ℕ) (ps : List Pair) → Means text ps (parse_outcome text ps) }
{}
