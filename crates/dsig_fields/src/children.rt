//! A cursor over the children of an element.

ghost use Rattle.std.specs.Prelude.{◌≡◌, ◌<◌, length, drop, IfOk, IfSome};
ghost use Rattle.std.specs.List.{list_all};
ghost use Rattle.sig_base.specs.Space.{is_space};
ghost use Rattle.xml_doc.specs.Kinds.{is_element};
ghost use Rattle.xml_doc.specs.Rows.{row_of};
ghost use Rattle.dsig_fields.specs.Cursor.{Leaves, any_element, next_of};
ghost use Rattle.dsig_fields.specs.Reading as spec;

use crate::element::is_named;
use crate::names::ElementName;
use crate::refusal::FieldRefusal;
use sig_base::is_space;
use std::marker::Model;
use xml_doc::{Axis, AxisWalk, Doc, Kind, Row};

/// The children of an element that are still to be read, in document order.
#[derive(Drop)]
pub(crate) struct Children<'d> {
    next: Option<u32>,
    behind: AxisWalk<'d>,
}

impl<'d> Model for Children<'d> {
    ghost use Rattle.std.specs.Prelude.{List, ℕ};
    ghost use Rattle.dsig_fields.specs.Cursor.{left_of};

    ghost Value = { List ℕ };

    ghost view = { λ c. left_of c.next c.behind };
}

impl<'d> Children<'d> {
    /// All children of a row.
    pub(crate) fn of(doc: &'d Doc<'d>, x: u32) -> Children<'d>
        requires { x < length doc.now }
        ensures { result ≡ spec.children doc.now x }
    {
        let mut behind = doc.axis(Axis::Child, x);
        let next = behind.next();
        Children { next, behind }
    }

    /// The next child.
    fn first(&self) -> Option<u32>
        ensures { result ≡ next_of self.now }
    {
        self.next
    }

    /// Goes past the next child.
    fn advance(&mut self)
        ensures { self.new ≡ drop 1 self.old }
    {
        if self.next.is_some() {
            self.next = self.behind.next();
        }
    }

    /// Goes to the next element, past what may stand between elements. Another child before it is refused.
    fn pass(&mut self, doc: &Doc<'_>) -> Result<Option<u32>, FieldRefusal>
        ensures within { IfOk result (λ o. IfSome o (λ y. y < length doc.now)) }
        ensures next { IfOk result (λ o. o ≡ next_of self.new) }
        ensures left { Leaves result self.new (spec.passed doc.now self.old) }
    {
        while let Some(y) = self.first() {
            match doc.row(y) {
                Some(row) if is_element(&row) => return Ok(Some(y)),
                Some(row) if passes_over(&row) => self.advance(),
                _ => return Err(FieldRefusal::Extra(y)),
            }
        }
        Ok(None)
    }

    /// Any element, which may stand next.
    #[tactic(auto, unfolding(crate::specs::Cursor::any_element))]
    pub(crate) fn any_element(&mut self, doc: &Doc<'_>) -> Result<Option<u32>, FieldRefusal>
        ensures within { IfOk result (λ o. IfSome o (λ y. y < length doc.now)) }
        ensures reads { spec.Reads (λ o. o) result self.new (any_element doc.now self.old) }
    {
        let next = self.pass(doc)?;
        self.advance();
        Ok(next)
    }

    /// An element of this name, which has to stand next.
    #[tactic(auto, unfolding(crate::specs::Reading::required))]
    pub(crate) fn required(&mut self, doc: &Doc<'_>, name: ElementName) -> Result<u32, FieldRefusal>
        ensures within { IfOk result (λ y. y < length doc.now) }
        ensures reads { spec.Reads (λ y. y) result self.new (spec.required doc.now name self.old) }
    {
        match self.pass(doc)? {
            Some(y) if is_named(doc, y, name) => {
                self.advance();
                Ok(y)
            }
            _ => Err(FieldRefusal::Missing(name)),
        }
    }

    /// An element of this name, which may stand next.
    #[tactic(auto, unfolding(crate::specs::Reading::optional))]
    pub(crate) fn optional(
        &mut self,
        doc: &Doc<'_>,
        name: ElementName,
    ) -> Result<Option<u32>, FieldRefusal>
        ensures within { IfOk result (λ o. IfSome o (λ y. y < length doc.now)) }
        ensures reads { spec.Reads (λ o. o) result self.new (spec.optional doc.now name self.old) }
    {
        match self.pass(doc)? {
            Some(y) if is_named(doc, y, name) => {
                self.advance();
                Ok(Some(y))
            }
            _ => Ok(None),
        }
    }

    /// An element of this name, which may stand next where it is permitted.
    pub(crate) fn optional_if(
        &mut self,
        doc: &Doc<'_>,
        name: ElementName,
        permitted: bool,
    ) -> Result<Option<u32>, FieldRefusal>
        ensures within { IfOk result (λ o. IfSome o (λ y. y < length doc.now)) }
        ensures reads { spec.Reads (λ o. o) result self.new (spec.optional_if permitted doc.now name self.old) }
    {
        if permitted {
            self.optional(doc, name)
        } else {
            Ok(None)
        }
    }

    /// Goes past any number of elements of this name, whatever stands in them.
    pub(crate) fn behind_all(
        &mut self,
        doc: &Doc<'_>,
        name: ElementName,
    ) -> Result<(), FieldRefusal>
        ensures { Leaves result self.new (spec.behind_all doc.now name self.old) }
    {
        while self.optional(doc, name)?.is_some() {}
        Ok(())
    }

    /// No element may stand next.
    #[tactic(auto, unfolding(crate::specs::Reading::at_end))]
    pub(crate) fn at_end(&mut self, doc: &Doc<'_>) -> Result<(), FieldRefusal>
        ensures { spec.Gives (λ _. tt) result (spec.at_end doc.now self.old) }
    {
        match self.pass(doc)? {
            Some(y) => Err(FieldRefusal::Extra(y)),
            None => Ok(()),
        }
    }
}

/// Whether the row is an element.
fn is_element(row: &Row<'_>) -> bool
    ensures { result ≡ is_element (row_of row.now).kind }
{
    row.kind == Kind::Element
}

/// Whether the row may stand between elements.
fn passes_over(row: &Row<'_>) -> bool
    ensures { result ≡ spec.passes_over (row_of row.now).kind (row_of row.now).value }
{
    match row.kind {
        Kind::Text => is_white(row.value),
        Kind::Comment | Kind::Instruction => true,
        _ => false,
    }
}

/// Whether the text is white space alone (XML 1.0 §2.3).
fn is_white(text: &str) -> bool
    ensures { result ≡ list_all is_space text.now }
{
    text.as_bytes().iter().all(|octet| is_space(*octet))
}
