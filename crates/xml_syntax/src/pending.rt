//! A text that goes on.
ghost use Rattle.std.specs.Prelude.{◌≡◌, ◌++◌, [], encode_utf8, IfOk, OnOk};
ghost use Rattle.xml_syntax.specs.Seen.{seen_text};
ghost use Rattle.xml_syntax.specs.Code.Seen.{seen_pending};

use crate::event::Text;
use std::alloc::{AllocError, Global};

/// What was read of a text. Most texts are one piece of the document, for which no memory is taken.
#[derive(Drop)]
pub struct Pending<'a> {
    /// The piece of the document that it begins with.
    pub front: &'a str,
    /// What was made behind that.
    pub made: String,
}

impl<'a> Pending<'a> {
    /// Nothing.
    pub fn new(alloc: Global) -> Pending<'a>
        ensures { seen_pending result ≡ [] }
    {
        Pending {
            front: "",
            made: String::new(alloc),
        }
    }

    /// Adds a piece of the document.
    pub fn add_run(&mut self, run: &'a str) -> Result<(), AllocError>
        ensures { OnOk result (seen_pending self.new ≡ seen_pending self.old ++ run.now) }
    {
        if self.front.is_empty() && self.made.is_empty() {
            self.front = run;
        } else {
            self.made.push_str(run)?;
        }
        Ok(())
    }

    /// Adds a character.
    pub fn add(&mut self, c: char) -> Result<(), AllocError>
        ensures { OnOk result (seen_pending self.new ≡ seen_pending self.old ++ encode_utf8 c) }
    {
        self.made.push(c)?;
        Ok(())
    }

    /// The text.
    pub fn into_text(self, alloc: Global) -> Result<Text<'a>, AllocError>
        ensures { IfOk result (λ text. seen_text text ≡ seen_pending self.entry) }
    {
        if self.made.is_empty() {
            return Ok(Text::Plain(self.front));
        }
        if self.front.is_empty() {
            return Ok(Text::Made(self.made));
        }
        let mut text = String::from_str(alloc, self.front)?;
        text.push_str(&self.made)?;
        Ok(Text::Made(text))
    }
}
