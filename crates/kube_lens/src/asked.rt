// What is asked of an input.
ghost use Rattle.kube_lens.specs.Outcome.{IsReply};

use kube_base::NoMemory;
use run_edge::{Answer, Question};
use std::alloc::Global;

/// What is asked of an input, by the words after the program's name.
#[derive(Clone, Copy)]
pub enum Asked {
    /// The margins of a document's leases.
    Margin,
    /// The same as one JSON object.
    MarginJson,
    /// How long nobody leads in a document's calm spans, and how long a dead node's pods stay.
    Bounds,
    /// The same as one JSON object.
    BoundsJson,
    /// Who led in a trace, and when nobody did.
    Leaders,
    /// The same as one JSON object.
    LeadersJson,
    /// What a trace comes to, as tables.
    Summary,
    /// The same as one JSON object.
    SummaryJson,
    /// The tables of a document's trace, and how late its evictions were.
    Lateness,
    /// The same as one JSON object.
    LatenessJson,
    /// The lines of a trace, as JSON objects.
    Lines,
    /// Why a document is refused.
    Explain,
    /// The same as one JSON object.
    ExplainJson,
}

impl Question for Asked {
    ghost is_reply = { λ asked bytes reply. IsReply asked bytes reply };

    fn answer(&self, alloc: Global, input: &[u8]) -> Result<Answer, NoMemory> {
        match *self {
            Asked::Margin => lens_room::margins_in(alloc, input),
            Asked::MarginJson => lens_room::margin_json::room_in(alloc, input),
            Asked::Bounds => lens_calm::bounds_in(alloc, input),
            Asked::BoundsJson => lens_calm::json_in(alloc, input),
            Asked::Leaders => lens_trace::leaders_in(alloc, input),
            Asked::LeadersJson => lens_trace::leaders_json::leaders_in(alloc, input),
            Asked::Summary => lens_summary::summary_of(alloc, input),
            Asked::SummaryJson => lens_summary::figures::figures_of(alloc, input),
            Asked::Lateness => lens_lateness::lateness_of(alloc, input),
            Asked::LatenessJson => lens_lateness::figures::figures_of(alloc, input),
            Asked::Lines => lens_trace::lines::lines_in(alloc, input),
            Asked::Explain => lens_explain::explained(alloc, input, false),
            Asked::ExplainJson => lens_explain::explained(alloc, input, true),
        }
    }
}
