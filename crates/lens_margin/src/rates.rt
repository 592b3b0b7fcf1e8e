// The fastest clock of any controller.
ghost use Rattle.std.specs.Prelude.{◌≡◌};
ghost use Rattle.script_reader.specs.Documents.{doc_of};
ghost use Rattle.lens_margin.specs.Margins.{fastest as fastest_of};

use script_reader::{Document, rates_of};

// The greatest rate of any controller's clock.
pub(crate) fn fastest(document: &Document) -> u32
    ensures { result ≡ fastest_of (doc_of document.now) }
{
    let mut greatest = 0;
    for controller in 0..document.controllers.as_slice().len() {
        greatest = rates_of(document, controller).greatest.max(greatest);
    }
    greatest
}
