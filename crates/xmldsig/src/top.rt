//! The top call.
ghost use Rattle.std.specs.Prelude.{[], map, string_bytes};
ghost use Rattle.job_words.specs.Job.{job_of};
ghost use Rattle.xmldsig.specs.Ending.{fault_ending};
ghost use Rattle.xmldsig.specs.Headline.{Headline};
ghost use Rattle.xmldsig.specs.Outside.{asking, outside, stream};
ghost use Rattle.xmldsig.specs.Printed.{Said, err_of, status_of};

use crate::ending::{Ending, Status};
use crate::print::print;
use crate::settle::settle;
use job_words::WordsFault;
use sig_outside::{Folder, Sink, ViewKeeper};
use std::alloc::Global;

/// Does what the words say, prints what it came to, and tells how it ended.
///
/// The folder's files and the words alone decide. A validation is `Valid` exactly where the HMAC over the canonical
/// SignedInfo is the signature value and the digest of each Reference's view is its DigestValue (XML Signature 1.1 §3.2).
/// What Manifests say of their entries is looked at behind that, if the words ask for it, and changes no verdict. Then each keeper
/// receives the views, if the words ask for them, and only then anything is printed.
pub fn run<F: Folder, K: ViewKeeper, O: Sink, E: Sink>(
    alloc: Global,
    words: &[String],
    folder: &mut F,
    keepers: &mut Vec<K>,
    out: &mut O,
    err: &mut E,
) -> Status
    ensures { Headline K.pairs K.faults (job_of (map string_bytes words.now)) (F.held folder.old) result
        (outside (asking F.asked F.faults folder.old) keepers.old.items (stream O.written O.faults out.old) (stream E.written E.faults err.old))
        (outside (asking F.asked F.faults folder.new) keepers.new.items (stream O.written O.faults out.new) (stream E.written E.faults err.new)) }
{
    let ending = settle(alloc, words, folder, keepers);
    print(&ending, out, err)
}

/// Ends a run whose words could not be had: they aren't UTF-8, or memory for them was wanting.
pub fn end_without_words<O: Sink, E: Sink>(fault: WordsFault, out: &mut O, err: &mut E) -> Status
    ensures { Said [] (err_of (fault_ending fault)) (status_of (fault_ending fault)) result
        (stream O.written O.faults out.old) (stream O.written O.faults out.new) (stream E.written E.faults err.old) (stream E.written E.faults err.new) }
{
    match fault {
        WordsFault::Usage => print(&Ending::Usage, out, err),
        WordsFault::Memory => print(&Ending::Memory, out, err),
    }
}
