// A document and its clocks.
ghost use Rattle.script_reader.specs.Documents.{doc_of};
ghost use Rattle.script_reader.specs.Lawful.{AreLawful};
ghost use Rattle.lens_lateness.specs.Clocks.{AreClocks};

use script_reader::Document;
use skew_clock::Clock;

/// A document, and the clock of each of its controllers.
#[derive(Drop)]
pub(crate) struct Timing<'a> {
    pub document: &'a Document,
    pub clocks: &'a [Clock],
    ghost settings: { AreLawful document.now.settings },
    ghost of_controllers: { AreClocks (doc_of document.now) clocks.now },
}
