// The settings that words can give, and what each takes.
ghost use Rattle.std.specs.Prelude.{◌≡◌, IfSome};
ghost use Rattle.script_reader.specs.Choices.{release_of, in_release_of};
ghost use Rattle.lens_room.specs.Flags as spec;
ghost use Rattle.lens_room.specs.Ranges.{AreInRange};

use crate::by_flags::flag::{Flag, flag_by, is, value_of};
use crate::by_flags::flags::Flags;
use crate::by_flags::lines::{name_of, values_of};
use crate::by_flags::taking::Named;
use kube_objects::{ReleaseActing, ReleaseRule};

/// A setting that words can give.
#[derive(Clone, Copy)]
pub enum Setting {
    /// One that is a number.
    Number(Flag),
    /// How a leader gives up its Lease.
    Release,
    /// Whether a leader whose deadline has come acts until its release has ended.
    InRelease,
}

impl Named for Setting {
    ghost use Rattle.lens_room.specs.FlagReplies as replies;

    ghost name_text = { replies.setting_text };

    ghost takes_text = { replies.takes_text };

    fn name(self) -> &'static [u8] {
        match self {
            Setting::Number(flag) => name_of(flag),
            Setting::Release => b"--release",
            Setting::InRelease => b"--in-release",
        }
    }

    fn takes(self) -> &'static [u8] {
        match self {
            Setting::Number(flag) => values_of(flag),
            Setting::Release => b" takes stop, own, checked or reread, not ",
            Setting::InRelease => b" takes still or acts, not ",
        }
    }
}

/// The setting of this name.
pub(crate) fn setting_by(name: &[u8]) -> Option<Setting>
    ensures { result ≡ spec.setting_by name.now }
{
    match flag_by(name) {
        Some(flag) => Some(Setting::Number(flag)),
        None => release_setting(name),
    }
}

fn release_setting(name: &[u8]) -> Option<Setting>
    ensures { result ≡ spec.release_setting name.now }
{
    if is(name, b"--release") {
        Some(Setting::Release)
    } else if is(name, b"--in-release") {
        Some(Setting::InRelease)
    } else {
        None
    }
}

/// The settings with what a text says of one of them, if it says it.
pub(crate) fn set(flags: Flags, setting: Setting, text: &[u8]) -> Option<Flags>
    requires { AreInRange flags }
    ensures set { result ≡ spec.set flags setting text.now }
    ensures ranges { IfSome result (λ flags. AreInRange flags) }
{
    match setting {
        Setting::Number(flag) => Some(flags.with(flag, value_of(flag, text)?)),
        Setting::Release => Some(Flags {
            release: release_by(text)?,
            ..flags
        }),
        Setting::InRelease => Some(Flags {
            in_release: acting_by(text)?,
            ..flags
        }),
    }
}

fn release_by(text: &[u8]) -> Option<ReleaseRule>
    ensures { result ≡ release_of text.now }
{
    if is(text, b"stop") {
        Some(ReleaseRule::Stop)
    } else if is(text, b"own") {
        Some(ReleaseRule::Own)
    } else if is(text, b"checked") {
        Some(ReleaseRule::Checked)
    } else if is(text, b"reread") {
        Some(ReleaseRule::Reread)
    } else {
        None
    }
}

fn acting_by(text: &[u8]) -> Option<ReleaseActing>
    ensures { result ≡ in_release_of text.now }
{
    if is(text, b"still") {
        Some(ReleaseActing::Still)
    } else if is(text, b"acts") {
        Some(ReleaseActing::Acts)
    } else {
        None
    }
}
