//! How deep an expression nests.
ghost use Rattle.std.specs.Prelude.{◌≡◌, ◌+◌, ◌≤◌, ◌∷◌, List, length, reverse};
ghost use Rattle.xpath_syntax.specs.Nesting.{own_levels};
ghost use Rattle.xpath_syntax.specs.Reading.{levels, deepens};

use crate::frame::Frame;
use xpath_words::{NodeTest, Terminal};

/// How deep an expression may nest.
const DEEPEST: usize = 64;

/// The levels of a terminal's own: one for the parentheses of a node type's test, else none.
pub fn own_levels(terminal: &Terminal) -> usize
    ensures levels { result ≡ own_levels terminal.now }
    ensures one { result ≤ 1 }
{
    match terminal {
        Terminal::Test(NodeTest::Comment) => 1,
        Terminal::Test(NodeTest::Words) => 1,
        Terminal::Test(NodeTest::Node) => 1,
        Terminal::Test(NodeTest::Instruction(_)) => 1,
        _ => 0,
    }
}

/// The levels that a frame is: none for an operator that waits for its right operand, else one.
#[tactic(auto, unfolding(crate::specs::Reading::levels))]
fn level_of_frame(frame: &Frame) -> usize
    ensures level { (k : List Frame) → levels (frame.now ∷ k) ≡ result + levels k }
    ensures one { result ≤ 1 }
{
    match frame {
        Frame::Left(_, _) => 0,
        _ => 1,
    }
}

/// How many levels the frames are.
#[tactic(auto, unfolding(crate::specs::Reading::levels))]
fn levels(stack: &[Frame]) -> usize
    ensures count { result ≡ levels stack.now }
    ensures few { result ≤ length stack.now }
{
    let mut count = 0;
    for frame in stack {
        count += level_of_frame(frame);
    }
    count
}

/// Whether a terminal with so many levels of its own nests too deep behind these frames.
#[tactic(auto, using(crate::proofs::Levels::levels_reversed))]
pub fn deepens(stack: &[Frame], own: usize) -> bool
    requires { own ≤ 1 }
    ensures { result ≡ deepens (reverse stack.now) own }
{
    levels(stack) + own > DEEPEST
}
