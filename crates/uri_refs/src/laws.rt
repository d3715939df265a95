//! Laws of the definitions. Their functions do nothing; what they ensure holds of every argument.

ghost use Rattle.sig_base.specs.LineFaults.{FileDecides};
ghost use Rattle.uri_refs.specs.CatalogFiles.{fault_of, spelled};
ghost use Rattle.uri_refs.specs.Catalogs.{catalog_of};

/// A catalog is accepted exactly where none of its lines is refused, and its entries are those that its lines spell. The first
/// line that is refused decides the fault.
#[tactic(auto, using(crate::proofs::FileLaws::file_decides))]
pub fn the_first_refused_line_decides(file: &[u8])
    ensures { FileDecides spelled fault_of file.now (catalog_of file.now) }
{}
