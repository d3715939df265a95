//! What is left of a text.
ghost use Rattle.std.specs.Prelude.{◌≡◌, ◌++◌, List, ℕ, IfOk, OnOk};
ghost use Rattle.std.specs.Str.{chars};
ghost use Rattle.xpath_words.specs.Characters.{is_empty, begins, first, behind_first, front, behind};
ghost use Rattle.xpath_words.specs.Classes.{test_of};

use crate::class::Class;
use sig_base::{NoMemory, Text, split_first};
use std::alloc::Global;
use std::marker::Model;

/// What is left of a text, as characters.
#[derive(Drop)]
pub struct Cursor<'a> {
    rest: &'a str,
}

impl<'a> Model for Cursor<'a> {
    ghost Value = { List ℕ };

    ghost view = { λ c. chars c.rest.now };
}

impl<'a> Cursor<'a> {
    /// All of a text.
    pub fn new(text: &'a str) -> Self
        ensures { result ≡ chars text.now }
    {
        Cursor { rest: text }
    }

    /// The next character.
    pub fn peek(&self) -> Option<char>
        ensures { result ≡ first self.now }
    {
        match split_first(self.rest) {
            Some((c, _)) => Some(c),
            None => None,
        }
    }

    /// Whether nothing is left.
    pub fn is_empty(&self) -> bool
        ensures { result ≡ is_empty self.now }
    {
        self.peek().is_none()
    }

    /// Whether a character of this class comes next.
    pub fn begins(&self, class: Class) -> bool
        ensures { result ≡ begins (test_of class) self.now }
    {
        match self.peek() {
            Some(c) => class.holds(c),
            None => false,
        }
    }

    /// Whether a character of this class comes behind the next one.
    pub fn goes_on(&self, class: Class) -> bool
        ensures { result ≡ begins (test_of class) (behind_first self.now) }
    {
        match split_first(self.rest) {
            Some((_, rest)) => Cursor { rest }.begins(class),
            None => false,
        }
    }

    /// The next character, which is taken.
    pub fn next(&mut self) -> Option<char>
        ensures first { result ≡ first self.old }
        ensures rest { self.new ≡ behind_first self.old }
    {
        match split_first(self.rest) {
            Some((c, rest)) => {
                self.rest = rest;
                Some(c)
            }
            None => None,
        }
    }
}

/// Takes the characters of a class that come next, behind those of `text`.
pub fn take_run(cursor: &mut Cursor<'_>, class: Class, text: &mut Text) -> Result<(), NoMemory>
    ensures taken { OnOk result (text.new ≡ text.old ++ front (test_of class) cursor.old) }
    ensures rest { OnOk result (cursor.new ≡ behind (test_of class) cursor.old) }
{
    while let Some(c) = cursor.peek() {
        if !class.holds(c) {
            break;
        }
        text.push(c)?;
        cursor.next();
    }
    Ok(())
}

/// The characters of a class that come next.
pub fn run(alloc: Global, cursor: &mut Cursor<'_>, class: Class) -> Result<Text, NoMemory>
    ensures taken { IfOk result (λ t. t ≡ front (test_of class) cursor.old) }
    ensures rest { OnOk result (cursor.new ≡ behind (test_of class) cursor.old) }
{
    let mut text = Text::new(alloc);
    take_run(cursor, class, &mut text)?;
    Ok(text)
}
