//! From the bytes of a document to its rows.
ghost use Rattle.std.specs.Prelude.{◌≡◌, ◌≤◌, ◌+◌, ◌<◌, ◌^◌, [], drop, length};
ghost use Rattle.std.specs.Str.{chars};
ghost use Rattle.xml_syntax.specs.Characters.{characters};
ghost use Rattle.xml_syntax.specs.Seen.{seen_all};
ghost use Rattle.xml_syntax.specs.Tree as tree;
ghost use Rattle.xml_read.specs.ReadOutcome.{Answers, read_outcome, resolved_outcome};
ghost use Rattle.xml_read.specs.SpelledTree.{mark_length};
ghost use Rattle.xml_read.specs.Code.Told.{HasTree, characters_outcome, row_refusal};
ghost use Rattle.xml_resolve.specs.Resolve.{resolve};

use bumpalo::Bump;
use std::alloc::Global;
use std::str::from_utf8;
use xml_doc::Doc;
use xml_resolve::{ResolveFault, RowFault, build_rows, check_names, depth_of};
use xml_syntax::{Event, SyntaxFault, read_events};

/// The greatest length of a document, in bytes.
const DOCUMENT_LIMIT: usize = 4_194_304;

/// How many elements may be open at once, the document element among them.
const DEPTH_LIMIT: usize = 512;

/// The byte order mark in UTF-8.
const BYTE_ORDER_MARK: &[u8] = b"\xef\xbb\xbf";

/// Why bytes are no document. The first that holds, in this order, is the answer.
#[derive(Clone, Copy, Debug, PartialEq, Eq)]
pub enum ReadRefusal {
    /// There are more than 4,194,304 bytes.
    TooLarge,
    /// They aren't UTF-8, a byte order mark aside, or the XML declaration names another encoding (XML 1.0 §4.3.3).
    Encoding,
    /// There is a document type declaration (XML 1.0 §2.8).
    DocType,
    /// They spell no tree (XML 1.0 §2.1).
    NotWellFormed,
    /// A name or a declaration breaks a rule of Namespaces in XML 1.0, or a namespace name is relative.
    Namespaces,
    /// More than 512 elements are open at once.
    TooDeep,
    /// There are more than 1,000,000 rows.
    TooManyRows,
    /// Memory that was asked for was not given.
    Memory,
}

/// The document of events, whose texts stand in the arena.
fn document_of<'a>(
    alloc: Global,
    bump: &'a Bump,
    events: Vec<Event<'a>>,
) -> Result<Doc<'a>, ReadRefusal>
    requires { HasTree (seen_all events.items) }
    ensures { (t : tree.Content) → seen_all events.entry.items ≡ tree.events t → Answers result (resolved_outcome t (resolve [] t)) }
{
    match check_names(alloc, &events) {
        Ok(()) => {}
        Err(ResolveFault::Namespaces) => return Err(ReadRefusal::Namespaces),
        Err(ResolveFault::Memory) => return Err(ReadRefusal::Memory),
    }
    if depth_of(&events) > DEPTH_LIMIT {
        return Err(ReadRefusal::TooDeep);
    }
    match build_rows(alloc, bump, events) {
        Ok(rows) => Ok(Doc::from_rows(rows)),
        Err(fault) => Err(row_refusal(fault)),
    }
}

/// The refusal where there are no rows.
fn row_refusal(fault: RowFault) -> ReadRefusal
    ensures { result ≡ row_refusal fault }
{
    match fault {
        RowFault::Namespaces => ReadRefusal::Namespaces,
        RowFault::TooManyRows => ReadRefusal::TooManyRows,
        RowFault::Memory => ReadRefusal::Memory,
    }
}

/// The document of a text in the arena whose first character stands at that offset. Its rows borrow from the text.
fn read_kept<'a>(
    alloc: Global,
    bump: &'a Bump,
    text: &'a str,
    at: u32,
) -> Result<Doc<'a>, ReadRefusal>
    requires { at + length text.now < 2 ^ 32 }
    ensures { Answers result (characters_outcome (characters at (chars text.now))) }
{
    match read_events(alloc, text, at) {
        Ok(events) => document_of(alloc, bump, events),
        Err(SyntaxFault::Encoding) => Err(ReadRefusal::Encoding),
        Err(SyntaxFault::DocType) => Err(ReadRefusal::DocType),
        Err(SyntaxFault::NotWellFormed) => Err(ReadRefusal::NotWellFormed),
        Err(SyntaxFault::Memory) => Err(ReadRefusal::Memory),
    }
}

/// The document of a text whose first character stands at that offset. The text is put into the arena.
fn read_text<'a>(alloc: Global, bump: &'a Bump, text: &str, at: u32) -> Result<Doc<'a>, ReadRefusal>
    requires { at + length text.now < 2 ^ 32 }
    ensures { Answers result (characters_outcome (characters at (chars text.now))) }
{
    match bump.try_alloc_str(text) {
        Ok(text) => read_kept(alloc, bump, text, at),
        Err(_) => Err(ReadRefusal::Memory),
    }
}

/// The length of the byte order mark that the bytes begin with, 3 or 0 where there is none, and the bytes behind it.
fn behind_mark(bytes: &[u8]) -> (u32, &[u8])
    ensures mark { result.0 ≡ mark_length bytes.now }
    ensures text { result.1.now ≡ drop result.0 bytes.now }
    ensures small { result.0 ≤ 3 }
    ensures shorter { length result.1.now ≤ length bytes.now }
{
    match bytes.strip_prefix(BYTE_ORDER_MARK) {
        Some(text) => (3, text),
        None => (0, bytes),
    }
}

/// Reads a document. Its texts stand in the arena, and it has its rows; an answer leaves nothing else behind.
///
/// # Errors
///
/// Each exactly where `ReadRefusal` says; `Memory` for want of memory alone.
#[tactic(auto, unfolding(crate::specs::ReadOutcome::read_outcome))]
pub fn read_document<'a>(
    alloc: Global,
    bump: &'a Bump,
    bytes: &[u8],
) -> Result<Doc<'a>, ReadRefusal>
    ensures { Answers result (read_outcome bytes.now) }
{
    if bytes.len() > DOCUMENT_LIMIT {
        return Err(ReadRefusal::TooLarge);
    }
    let (at, text) = behind_mark(bytes);
    match from_utf8(text) {
        Ok(text) => read_text(alloc, bump, text, at),
        Err(_) => Err(ReadRefusal::Encoding),
    }
}
