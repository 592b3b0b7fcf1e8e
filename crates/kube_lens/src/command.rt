// The words that are commands.
ghost use Rattle.std.specs.Prelude.{◌≡◌, map, string_bytes};
ghost use Rattle.kube_lens.specs.Commands.{are_both, as_json, by_flags, by_form, by_forms, by_word, command_of};

use crate::asked::Asked;

/// What the words after the program's name ask for.
#[derive(Clone, Copy)]
pub enum Command {
    /// The commands are told.
    Help,
    /// The margin of the lease that flags describe, in lines or as one JSON object.
    Flags,
    /// The bounds of the settings that flags describe, in lines or as one JSON object.
    BoundsFlags,
    /// The greatest plan of an election that fits what flags want, in lines or as one JSON object.
    Tune,
    /// The input is answered.
    Asks(Asked),
}

/// The command that the words are, if any.
pub(crate) fn command_in(words: &Vec<String>) -> Option<Command>
    ensures { result ≡ command_of (map string_bytes words.now.items) }
{
    match words.as_slice() {
        [] => None,
        [word] => by_word(word.as_str()),
        [word, form] => by_form(word.as_str(), form.as_str()),
        [word, one, other] => by_forms(word.as_str(), one.as_str(), other.as_str()),
        [word, ..] => by_flags(word.as_str()),
    }
}

/// The command that is one word.
fn by_word(word: &str) -> Option<Command>
    ensures { result ≡ by_word word.now }
{
    if word == "margin" {
        Some(Command::Asks(Asked::Margin))
    } else if word == "bounds" {
        Some(Command::Asks(Asked::Bounds))
    } else if word == "leaders" {
        Some(Command::Asks(Asked::Leaders))
    } else if word == "summary" {
        Some(Command::Asks(Asked::Summary))
    } else if word == "explain" {
        Some(Command::Asks(Asked::Explain))
    } else {
        by_flags(word)
    }
}

/// The command with one word behind it.
fn by_form(word: &str, form: &str) -> Option<Command>
    ensures { result ≡ by_form word.now form.now }
{
    if form == "--json" {
        as_json(word)
    } else if word == "summary" && form == "--document" {
        Some(Command::Asks(Asked::Lateness))
    } else {
        by_flags(word)
    }
}

/// The command with `--json` behind it.
fn as_json(word: &str) -> Option<Command>
    ensures { result ≡ as_json word.now }
{
    if word == "margin" {
        Some(Command::Asks(Asked::MarginJson))
    } else if word == "bounds" {
        Some(Command::Asks(Asked::BoundsJson))
    } else if word == "leaders" {
        Some(Command::Asks(Asked::LeadersJson))
    } else if word == "summary" {
        Some(Command::Asks(Asked::SummaryJson))
    } else if word == "explain" {
        Some(Command::Asks(Asked::ExplainJson))
    } else if word == "lines" {
        Some(Command::Asks(Asked::Lines))
    } else {
        by_flags(word)
    }
}

/// The command with two words behind it: `summary` may have both of its flags.
fn by_forms(word: &str, one: &str, other: &str) -> Option<Command>
    ensures { result ≡ by_forms word.now one.now other.now }
{
    if word == "summary" && are_both(one, other) {
        Some(Command::Asks(Asked::LatenessJson))
    } else {
        by_flags(word)
    }
}

/// Whether the words are `--document` and `--json`, in either order.
fn are_both(one: &str, other: &str) -> bool
    ensures { result ≡ are_both one.now other.now }
{
    if one == "--document" {
        other == "--json"
    } else {
        one == "--json" && other == "--document"
    }
}

/// The command that takes whatever stands behind it: that of `margin`, `bounds` and `tune` are flags.
#[tactic(auto, unfolding(crate::specs::Commands::by_flags))]
fn by_flags(word: &str) -> Option<Command>
    ensures { result ≡ by_flags word.now }
{
    if word == "margin" {
        Some(Command::Flags)
    } else if word == "bounds" {
        Some(Command::BoundsFlags)
    } else if word == "tune" {
        Some(Command::Tune)
    } else if word == "--help" {
        Some(Command::Help)
    } else {
        None
    }
}
