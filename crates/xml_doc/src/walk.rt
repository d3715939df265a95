//! The rows of an axis, one after another.
//!
//! A walk keeps two row numbers, between which all rows of the axis that are still to come stand, and takes no memory. It
//! begins with as few numbers as the axis allows, and jumps over the subtrees of children and of following siblings, and
//! from an ancestor to its parent.
ghost use Rattle.std.specs.Prelude.{◌≡◌, ◌<◌, ◌≤◌, ◌+◌, ◌^◌, length, MatchOption, true};
ghost use Rattle.std.specs.Iterator.{YieldsFirst, item_count};
ghost use Rattle.xml_doc.specs.Axes.{axis_rows, on_axis};
ghost use Rattle.xml_doc.specs.Fields.{is_attribute_of};
ghost use Rattle.xml_doc.specs.Searches.{IsFirst, IsLast, NonePass};

use crate::axis::Axis;
use crate::doc::Doc;
use std::marker::Model;

/// The rows of an axis that are still to come, in the order of the axis.
#[derive(Drop)]
pub struct AxisWalk<'w> {
    doc: &'w Doc<'w>,
    axis: Axis,
    from: u32,
    at: u32,
    until: u32,
}

impl<'w> Model for AxisWalk<'w> {
    ghost use Rattle.std.specs.Prelude.{List, ℕ, ◌<◌, ◌≤◌, length};
    ghost use Rattle.xml_doc.specs.Axes.{in_axis_order, on_axis};
    ghost use Rattle.xml_doc.specs.Searches.{passing};

    ghost Value = { List ℕ };

    ghost view = { λ w. in_axis_order w.axis (passing (on_axis w.axis w.doc.now w.from) w.at w.until) };

    ghost invariant = { λ w. (w.from < length w.doc.now) × (w.until ≤ length w.doc.now) };
}

impl<'w> Iterator for AxisWalk<'w> {
    type Item = u32;

    ghost next_gives = { YieldsFirst (λ s. s) };

    ghost remaining = { item_count (λ s. s) };

    fn next(&mut self) -> Option<u32> {
        let doc = self.doc;
        if self.axis.is_reverse() {
            let y = doc.last_on(self.axis, self.from, self.at, self.until)?;
            self.until = doc.until_before(self.axis, self.from, y);
            Some(y)
        } else {
            let y = doc.first_on(self.axis, self.from, self.at, self.until)?;
            self.at = doc.at_behind(self.axis, self.from, y);
            Some(y)
        }
    }
}

impl<'a> Doc<'a> {
    /// The rows on an axis of row `i`, in the order of the axis (XPath 1.0 §2.2 and §2.4): document order, or against it
    /// where the axis [is reverse](Axis::is_reverse).
    pub fn axis(&self, axis: Axis, i: u32) -> AxisWalk<'_>
        requires { i < length self.now }
        ensures rows { result ≡ axis_rows axis self.now i }
        ensures few { length result < 2 ^ 32 }
    {
        let _count = self.rows();
        let (at, until) = self.axis_bounds(axis, i);
        AxisWalk {
            doc: self,
            axis,
            from: i,
            at,
            until,
        }
    }

    /// Numbers from which on, and before which, all rows of an axis stand.
    fn axis_bounds(&self, axis: Axis, x: u32) -> (u32, u32)
        requires { x < length self.now }
        ensures before { NonePass (on_axis axis self.now x) 0 result.0 }
        ensures behind { NonePass (on_axis axis self.now x) result.1 (length self.now) }
        ensures within { result.1 ≤ length self.now }
    {
        let count = self.rows();
        match axis {
            Axis::Child => (x + 1, self.behind(x)),
            Axis::Descendant => (x + 1, self.behind(x)),
            Axis::Parent => match self.parent(x) {
                Some(parent) => (parent, parent + 1),
                None => (0, 0),
            },
            Axis::Ancestor => match self.parent(x) {
                Some(parent) => (0, parent + 1),
                None => (0, 0),
            },
            Axis::FollowingSibling => match self.parent(x) {
                Some(parent) => (self.behind(x), self.behind(parent)),
                None => (0, 0),
            },
            Axis::PrecedingSibling => match self.parent(x) {
                Some(parent) => (parent + 1, x),
                None => (0, 0),
            },
            Axis::Following => (self.behind(x), count),
            Axis::Preceding => (0, x),
            Axis::Attribute => self.attribute_bounds(x),
            Axis::Namespace => (x + 1, self.namespaces_end(x)),
            Axis::SelfNode => (x, x + 1),
            Axis::DescendantOrSelf => (x, self.behind(x)),
            Axis::AncestorOrSelf => (0, x + 1),
        }
    }

    /// The same of the attribute axis.
    fn attribute_bounds(&self, x: u32) -> (u32, u32)
        requires { x < length self.now }
        ensures before { NonePass (is_attribute_of self.now x) 0 result.0 }
        ensures behind { NonePass (is_attribute_of self.now x) result.1 (length self.now) }
        ensures within { result.1 ≤ length self.now }
    {
        let _count = self.rows();
        let from = self.namespaces_end(x);
        (from, self.attributes_end(x, from))
    }

    /// The first row on the axis from `at` to before `until`.
    fn first_on(&self, axis: Axis, x: u32, at: u32, until: u32) -> Option<u32>
        requires here { x < length self.now }
        requires within { until ≤ length self.now }
        ensures { MatchOption result (NonePass (on_axis axis self.now x) at until) (IsFirst (on_axis axis self.now x) at until) }
    {
        for y in at..until {
            if self.on_axis(axis, x, y) {
                return Some(y);
            }
        }
        None
    }

    /// The last row on the axis from `at` to before `until`.
    fn last_on(&self, axis: Axis, x: u32, at: u32, until: u32) -> Option<u32>
        requires here { x < length self.now }
        requires within { until ≤ length self.now }
        ensures { MatchOption result (NonePass (on_axis axis self.now x) at until) (IsLast (on_axis axis self.now x) at until) }
    {
        let mut end = until;
        while end > at {
            end -= 1;
            if self.on_axis(axis, x, end) {
                return Some(end);
            }
        }
        None
    }

    /// Where a walk goes on behind a row of the axis.
    fn at_behind(&self, axis: Axis, x: u32, y: u32) -> u32
        requires x { x < length self.now }
        requires y { y < length self.now }
        requires on { on_axis axis self.now x y ≡ true }
        ensures behind { y < result }
        ensures none { NonePass (on_axis axis self.now x) (y + 1) result }
    {
        let _count = self.rows();
        match axis {
            Axis::Child | Axis::FollowingSibling => self.behind(y),
            _ => y + 1,
        }
    }

    /// Before which number a walk against document order goes on after a row of the axis.
    fn until_before(&self, axis: Axis, x: u32, y: u32) -> u32
        requires x { x < length self.now }
        requires y { y < length self.now }
        requires on { on_axis axis self.now x y ≡ true }
        ensures before { result ≤ y }
        ensures none { NonePass (on_axis axis self.now x) result y }
    {
        let _count = self.rows();
        match axis {
            Axis::Ancestor | Axis::AncestorOrSelf => match self.parent(y) {
                Some(parent) => parent + 1,
                None => 0,
            },
            _ => y,
        }
    }
}
