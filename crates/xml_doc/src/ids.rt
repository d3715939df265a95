//! The element that bears an ID.
ghost use Rattle.std.specs.Prelude.{◌≡◌, ◌<◌, ◌&&◌, length};
ghost use Rattle.xml_doc.specs.Ids.{answer_of, bearers, gives_id, is_id_name};
ghost use Rattle.xml_doc.specs.Kinds.{is_attribute};
ghost use Rattle.xml_doc.specs.Rows.{RowOf};
ghost use Rattle.xml_doc.specs.Shape.{row_at};

use crate::doc::Doc;
use crate::row::Kind;
use sig_base::XML_NAME;

/// The elements that bear an ID.
#[derive(Clone, Copy, Debug, PartialEq, Eq)]
pub enum IdAnswer {
    /// The one element that bears it.
    One(u32),
    /// No element bears it.
    None,
    /// Several elements bear it, and these are the first two in document order.
    Several(u32, u32),
}

/// Whether an attribute of that name is an ID.
fn is_id_name(uri: &str, local_name: &str) -> bool
    ensures { (r : RowOf) → r.uri ≡ uri.now → r.local_name ≡ local_name.now → result ≡ is_id_name r }
{
    if uri.is_empty() {
        local_name == "Id" || local_name == "ID" || local_name == "id"
    } else {
        uri == XML_NAME && local_name == "id"
    }
}

impl<'a> Doc<'a> {
    /// Whether row `k` is an attribute that gives its element this ID.
    fn gives_id(&self, k: u32, id: &str) -> bool
        requires { k < length self.now }
        ensures { result ≡ (is_attribute (row_at self.now k).kind && gives_id id.now (row_at self.now k)) }
    {
        let row = self.at(k);
        row.kind == Kind::Attribute && is_id_name(self.uri(k), row.local_name) && row.value == id
    }

    /// The elements that bear this ID (XML Signature 1.1 §4.4.3.2). An element bears the value of its `xml:id`, and of
    /// its attributes `Id`, `ID` and `id` that have no namespace. The comparison is exact.
    ///
    /// Each row is looked at once.
    pub fn element_by_id(&self, id: &str) -> IdAnswer
        ensures { result ≡ answer_of (bearers self.now id.now) }
    {
        let mut first = None;
        for k in 0..self.rows() {
            if self.gives_id(k, id) {
                let bearer = self.above(k);
                match first {
                    None => first = Some(bearer),
                    Some(e) => {
                        if e != bearer {
                            return IdAnswer::Several(e, bearer);
                        }
                    }
                }
            }
        }
        match first {
            Some(e) => IdAnswer::One(e),
            None => IdAnswer::None,
        }
    }
}
