//! What is printed about an ending.
ghost use Rattle.std.specs.Prelude.{◌≡◌, []};
ghost use Rattle.xmldsig.specs.Outside.{stream};
ghost use Rattle.xmldsig.specs.Printed.{Said, report_status, status_of, err_of};
ghost use Rattle.xmldsig.specs.Code.Printed.{out_of};
ghost use Rattle.xmldsig.specs.Texts as spec;

use crate::ending::{Ending, Status};
use crate::fault_line::view_fault_line;
use core_validate::Report;
use sig_outside::{Sink, Wrote};

/// The status of a report.
fn report_status(report: &Report) -> Status
    ensures { result ≡ report_status report.now }
{
    match report {
        Report::Valid(_) => Status::Valid,
        Report::SignatureDiffers | Report::ShortTruncation(_) => Status::Invalid,
        Report::DigestsDiffer(_) => Status::Invalid,
    }
}

/// Writes a text to out. Where that fails, the fault is tried on err.
fn say_out<O: Sink, E: Sink>(text: &[u8], status: Status, out: &mut O, err: &mut E) -> Status
    ensures { Said text.now [] status result (stream O.written O.faults out.old) (stream O.written O.faults out.new)
        (stream E.written E.faults err.old) (stream E.written E.faults err.new) }
{
    match out.write_all(text) {
        Wrote::Done => status,
        Wrote::Failed => {
            let _ = err.write_all(b"fault write\n");
            Status::WriteFault
        }
    }
}

/// Writes a line to err, and nothing to out.
fn say_err<O: Sink, E: Sink>(line: &[u8], status: Status, out: &mut O, err: &mut E) -> Status
    ensures { Said [] line.now status result (stream O.written O.faults out.old) (stream O.written O.faults out.new)
        (stream E.written E.faults err.old) (stream E.written E.faults err.new) }
{
    let _ = out;
    match err.write_all(line) {
        Wrote::Done => status,
        Wrote::Failed => Status::WriteFault,
    }
}

/// Writes the line of a keeper's fault to err, and nothing to out.
fn say_view_fault<O: Sink, E: Sink>(view: u64, keeper: u64, out: &mut O, err: &mut E) -> Status
    ensures { Said [] (spec.view_fault_line view keeper) Status.ViewFault result (stream O.written O.faults out.old)
        (stream O.written O.faults out.new) (stream E.written E.faults err.old) (stream E.written E.faults err.new) }
{
    let line = view_fault_line(view, keeper);
    say_err(line.as_str().as_bytes(), Status::ViewFault, out, err)
}

/// Prints an ending: the text of a report or octets on out, or one line on err. Takes no memory.
pub(crate) fn print<O: Sink, E: Sink>(ending: &Ending, out: &mut O, err: &mut E) -> Status
    ensures { Said (out_of ending.now) (err_of ending.now) (status_of ending.now) result (stream O.written O.faults out.old)
        (stream O.written O.faults out.new) (stream E.written E.faults err.old) (stream E.written E.faults err.new) }
{
    match ending {
        Ending::Reported { told, text } => {
            say_out(text.bytes(), report_status(&told.report), out, err)
        }
        Ending::Written { octets } => say_out(octets.bytes(), Status::Done, out, err),
        Ending::Refused { line, .. } => say_err(line.bytes(), Status::Refused, out, err),
        Ending::Usage => say_err(
            b"usage: xmldsig validate|sign|canon|template|selftest\n",
            Status::Usage,
            out,
            err,
        ),
        Ending::ViewFault { view, keeper } => say_view_fault(*view, *keeper, out, err),
        Ending::ReadFault => say_err(b"fault read\n", Status::ReadFault, out, err),
        Ending::Memory => say_err(b"fault memory\n", Status::Memory, out, err),
    }
}
