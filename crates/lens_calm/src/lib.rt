//! How long at most, how long at least: the command `bounds`, of a document or by flags, in lines or as JSON, from bytes to text, or from words
//! to text and status.
#![tactic(auto)]

mod document;
mod document_json;
mod fault;
mod given;
mod lines;
mod objects;
mod running;
mod setting;
mod settings;
mod tolerated;
mod usage;

pub use document::bounds_in;
pub use document_json::json_in;
pub use fault::Fault;
pub use given::read_settings;
pub use running::run;
pub use setting::Setting;
pub use settings::Settings;
