// The margin of a lease by flags that read like kube-controller-manager's, without a document: from words to lines.

mod duration;
mod flag;
mod flags;
mod given;
mod lines;
mod margin;
mod misread;
mod misuse;
mod object;
mod running;
mod setting;
mod taking;
mod words;
mod wrong;

pub use duration::{Reading, Stage, durations_are_sums, millis_of};
pub use flag::{Flag, flag_by, is, value_of, whole_seconds, within};
pub use flags::Flags;
pub use given::{read_flags, rule};
pub use lines::{name_of, origin, values_of};
pub use margin::{flags_margin, greatest_skew, is_safe, slowest_controller};
pub use misread::Misread;
pub use misuse::Misuse;
pub use object::is_renew_deadline;
pub use running::{behind, run};
pub use setting::Setting;
pub use taking::{Named, Taking};
pub use words::{Given, add_misread, misused, read_from, tell_answer};
pub use wrong::Wrong;
