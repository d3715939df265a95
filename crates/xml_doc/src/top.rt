//! The document element.
ghost use Rattle.std.specs.Prelude.{◌≡◌, ◌<◌, length, IfSome};
ghost use Rattle.xml_doc.specs.Top.{document_element, is_top_element};

use crate::doc::Doc;
use crate::row::Kind;

impl<'a> Doc<'a> {
    /// Whether a row is an element whose parent is the root.
    fn is_top_element(&self, y: u32) -> bool
        requires { y < length self.now }
        ensures { result ≡ is_top_element self.now y }
    {
        match self.kind(y) {
            Kind::Element => self.above(y) == 0,
            _ => false,
        }
    }

    /// The document element (XML 1.0 §2.1). Every document has one.
    pub fn document_element(&self) -> Option<u32>
        ensures element { result ≡ document_element self.now }
        ensures within { IfSome result (λ e. e < length self.now) }
    {
        for y in 1..self.rows() {
            if self.is_top_element(y) {
                return Some(y);
            }
        }
        None
    }
}
