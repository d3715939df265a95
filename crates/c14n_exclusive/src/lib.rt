//! Exclusive XML Canonicalization 1.0 of any set of rows (Exclusive XML Canonicalization 1.0 §3), by a [`Renderer`] that has its memory from the start.
#![tactic(auto)]

ghost use Rattle.std.specs.Prelude.{◌≡◌, IfOk, OnErr, map, encode_utf8_all};
ghost use Rattle.sig_base.specs.Puts.{Puts};
ghost use Rattle.node_sets.specs.View.{in_view, rows_of};
ghost use Rattle.c14n_text.specs.Namespaces.{exclusive};
ghost use Rattle.c14n_text.specs.Canon.{canon};

use c14n_rows::{Listed, Method};
use node_sets::SetView;
use sig_base::{NoMemory, OctetSink, PrefixList, Put};
use std::alloc::Global;
use std::marker::Model;
use xml_doc::Doc;

/// Writes exclusive canonical forms of sets over one document.
#[derive(Drop)]
pub struct Renderer<'d> {
    walks: c14n_rows::Renderer<'d>,
}

impl<'d> Model for Renderer<'d> {
    ghost use Rattle.std.specs.Prelude.{List};
    ghost use Rattle.xml_doc.specs.Rows.{RowOf};

    ghost Value = { List RowOf };

    ghost view = { λ r. r.walks };
}

impl<'d> Renderer<'d> {
    /// Takes all memory that writing needs.
    pub fn prepare(alloc: Global, doc: &'d Doc<'d>) -> Result<Renderer<'d>, NoMemory>
        ensures { IfOk result (λ r. r ≡ doc.now) }
    {
        let walks = c14n_rows::Renderer::prepare(alloc, doc)?;
        Ok(Renderer { walks })
    }

    /// Writes the exclusive canonical form of a set over the document, with comments or without, and takes no memory.
    /// `prefixes` is the PrefixList of an InclusiveNamespaces element, in which `#default` stands for the default namespace.
    ///
    /// `Refused` comes where the sink refused a piece, and leaves a prefix of the form in it. Either answer leaves the
    /// renderer as prepared.
    pub fn write<S: OctetSink>(
        &mut self,
        set: SetView<'_>,
        prefixes: &PrefixList,
        comments: bool,
        sink: &mut S,
    ) -> Put
        requires { rows_of set ≡ self.old }
        ensures puts { Puts S.stands_for S.refusals S.makes sink.old sink.new
            (canon (exclusive (map encode_utf8_all prefixes.now)) comments self.old (in_view set.entry)) result }
        ensures as_prepared { self.new ≡ self.old }
    {
        let listed = Listed::new(prefixes);
        self.walks
            .write(set, Method::Exclusive(&listed), comments, sink)
    }
}

/// Writes the exclusive canonical form of one set of rows, with comments or without. Memory is taken for the names of the
/// PrefixList, and for the rows of the set's range and the rows above them alone, before anything is written: where it isn't
/// given, nothing was.
///
/// `Refused` comes where the sink refused a piece, and leaves a prefix of the form in it.
pub fn write_once<S: OctetSink>(
    alloc: Global,
    set: SetView<'_>,
    prefixes: &PrefixList,
    comments: bool,
    sink: &mut S,
) -> Result<Put, NoMemory>
    ensures puts { IfOk result (λ put. Puts S.stands_for S.refusals S.makes sink.old sink.new
        (canon (exclusive (map encode_utf8_all prefixes.now)) comments (rows_of set.entry) (in_view set.entry)) put) }
    ensures untouched { OnErr result (sink.new ≡ sink.old) }
{
    let listed = Listed::in_order(alloc, prefixes)?;
    c14n_rows::write_once(alloc, set, Method::Exclusive(&listed), comments, sink)
}
