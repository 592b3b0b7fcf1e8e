//! The margin of a document's leader elections: what each controller's lease has to outlast, and what is left. The numbers alone.
#![tactic(auto)]

mod margin;
mod rates;

pub use margin::{Margin, controller_margin, margin_at};
