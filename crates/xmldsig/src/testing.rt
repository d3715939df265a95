//! From the words of `selftest` to its line.
ghost use Rattle.std.specs.Prelude.{◌≡◌, ◌≢◌, Err};
ghost use Rattle.xmldsig.specs.Code.Stops.{Answers};
ghost use Rattle.xmldsig.specs.SelfTest as spec;

use crate::stop::Stop;
use self_test::self_test;
use sig_base::Octets;
use std::alloc::Global;

/// Makes the line of a self-test, which asks for no file.
pub(crate) fn make_line(alloc: Global, paragraphs: u32) -> Result<Octets, Stop>
    ensures outcome { Answers result (spec.line_outcome paragraphs) }
    ensures no_fault { result ≢ Err Stop.ReadFault }
{
    match self_test(alloc, paragraphs) {
        Ok(line) => Ok(line),
        Err(cause) => Err(Stop::by_self_test(cause)),
    }
}
