//! Letters compared without case.
ghost use Rattle.std.specs.Prelude.{◌≡◌, map, IfOk};
ghost use Rattle.std.specs.Str.{chars};
ghost use Rattle.xpath_eval.specs.Functions.{small};

use sig_base::{NoMemory, Text};
use std::alloc::Global;

/// A letter from A to Z as the small letter.
fn small(c: char) -> char
    ensures { result ≡ small c }
{
    if 'A' <= c && c <= 'Z' {
        c.to_ascii_lowercase()
    } else {
        c
    }
}

/// A text with small letters for those from A to Z.
pub(crate) fn lowered(alloc: Global, text: &str) -> Result<Text, NoMemory>
    ensures { IfOk result (λ t. t ≡ map small (chars text.now)) }
{
    let mut out = Text::new(alloc);
    for c in text.chars() {
        out.push(small(c))?;
    }
    Ok(out)
}
