// The lines on settings, and on words that give none.
ghost use Rattle.std.specs.Prelude.{◌≡◌, ◌++◌, OnOk};
ghost use Rattle.lens_room.specs.Ranges.{AreInRange};
ghost use Rattle.lens_room.specs.Flags as flags;
ghost use Rattle.lens_room.specs.FlagReplies as spec;

use crate::by_flags::flag::Flag;
use crate::by_flags::flags::Flags;
use crate::by_flags::margin::{flags_margin, greatest_skew, is_safe};
use crate::by_flags::misuse::Misuse;
use crate::by_flags::words::add_misread;
use crate::by_flags::wrong::Wrong;
use crate::lines::{add_line, verdict_line};
use kube_base::NoMemory;
use kube_objects::{ReleaseActing, ReleaseRule};
use std::alloc::Global;
use trace_writer::{add, add_number};

/// Adds what settings come to.
#[tactic(auto, unfolding(crate::specs::FlagReplies::settings_text))]
pub(crate) fn add_settings(text: &mut Vec<u8>, alloc: Global, flags: &Flags) -> Result<(), NoMemory>
    requires { AreInRange flags.now }
    ensures { OnOk result (text.new.items ≡ text.old.items ++ spec.settings_text flags.now) }
{
    let mut taken = Vec::new(alloc);
    add_taken(&mut taken, flags)?;
    add_line(text, &taken, flags_margin(flags))?;
    add_skew(text, greatest_skew(flags))?;
    add(text, late_line(flags.in_release))?;
    add(text, verdict_line(is_safe(flags)))
}

/// Adds which call timeout, which skew and which releases were taken.
#[tactic(auto, unfolding(crate::specs::FlagReplies::taken_text))]
fn add_taken(text: &mut Vec<u8>, flags: &Flags) -> Result<(), NoMemory>
    ensures { OnOk result (text.new.items ≡ text.old.items ++ spec.taken_text flags.now) }
{
    add(text, b"timeout=")?;
    add_number(text, u64::from(flags.timeout()))?;
    add(text, b"ms")?;
    add(text, origin(flags.timeout_millis))?;
    add(text, b" skew=")?;
    add_number(text, u64::from(flags.skew_ppm))?;
    add(text, b"ppm")?;
    add_release(text, flags.release, flags.in_release)
}

/// Adds releases, if they aren't those of stops alone.
fn add_release(
    text: &mut Vec<u8>,
    release: ReleaseRule,
    acting: ReleaseActing,
) -> Result<(), NoMemory>
    ensures { OnOk result (text.new.items ≡ text.old.items ++ spec.release_text release acting) }
{
    match release {
        ReleaseRule::Stop => Ok(()),
        ReleaseRule::Own => add_named(text, b"own", acting),
        ReleaseRule::Checked => add_named(text, b"checked", acting),
        ReleaseRule::Reread => add_named(text, b"reread", acting),
    }
}

#[tactic(auto, unfolding(crate::specs::FlagReplies::named_text))]
fn add_named(text: &mut Vec<u8>, word: &[u8], acting: ReleaseActing) -> Result<(), NoMemory>
    ensures { OnOk result (text.new.items ≡ text.old.items ++ spec.named_text word.now acting) }
{
    add(text, b" release=")?;
    add(text, word)?;
    add(text, b" in-release=")?;
    add(text, acting_word(acting))
}

/// As a document has it.
pub fn acting_word(acting: ReleaseActing) -> &'static [u8]
    ensures { result.now ≡ flags.acting_word acting }
{
    match acting {
        ReleaseActing::Still => b"still",
        ReleaseActing::Acts => b"acts",
    }
}

/// As a document has it.
pub fn release_word(release: ReleaseRule) -> &'static [u8]
    ensures { result.now ≡ flags.release_word release }
{
    match release {
        ReleaseRule::Stop => b"stop",
        ReleaseRule::Own => b"own",
        ReleaseRule::Checked => b"checked",
        ReleaseRule::Reread => b"reread",
    }
}

/// The line that says why no lease is enough, if none is.
pub fn late_line(acting: ReleaseActing) -> &'static [u8]
    ensures { result.now ≡ spec.late_text acting }
{
    match acting {
        ReleaseActing::Still => b"",
        ReleaseActing::Acts =>
            b"late-reply=any: no lease is enough, since a leader acts in its release until it has the answer; where each comes within 3 beats, one over must-exceed is\n",
    }
}

/// The words that say that a call timeout is the renew deadline, if it is.
pub fn origin(timeout: Option<u32>) -> &'static [u8]
    ensures { result.now ≡ spec.origin_text timeout }
{
    match timeout {
        None => b"(renew-deadline)",
        Some(_) => b"",
    }
}

fn add_skew(text: &mut Vec<u8>, skew: Option<u64>) -> Result<(), NoMemory>
    ensures { OnOk result (text.new.items ≡ text.old.items ++ spec.skew_text skew) }
{
    match skew {
        None => add(text, b"greatest-skew=none\n"),
        Some(ppm) => add_ppm(text, ppm),
    }
}

#[tactic(auto, unfolding(crate::specs::FlagReplies::ppm_text))]
fn add_ppm(text: &mut Vec<u8>, ppm: u64) -> Result<(), NoMemory>
    ensures { OnOk result (text.new.items ≡ text.old.items ++ spec.ppm_text ppm) }
{
    add(text, b"greatest-skew=")?;
    add_number(text, ppm)?;
    add(text, b"ppm\n")
}

impl Misuse for Wrong {
    ghost usage_line = { spec.usage_line };

    ghost wrong_text = { spec.wrong_text };

    fn usage() -> &'static [u8] {
        b"usage: kube_lens margin [--lease 15s] [--renew 10s] [--retry 2s] [--timeout 10s] [--skew 0ppm] [--beat 100ms] [--release stop] [--in-release still] [--json]\n"
    }

    fn add_to(self, text: &mut Vec<u8>, words: &[String]) -> Result<(), NoMemory> {
        match self {
            Wrong::Words(misread) => add_misread(text, words, misread),
            Wrong::LongRenew => add(text, b"the renew deadline must be shorter than the lease"),
            Wrong::LongRetry => add(
                text,
                b"the retry period must be shorter than five sixths of the renew deadline",
            ),
            Wrong::LongTimeout => add(
                text,
                b"a call timeout is at most 10m: give one by --timeout, or a shorter renew deadline",
            ),
            Wrong::NoRelease => add(
                text,
                b"--in-release acts goes with --release own, checked or reread",
            ),
        }
    }
}

/// A flag's own name.
pub fn name_of(flag: Flag) -> &'static [u8]
    ensures { result.now ≡ spec.name_text flag }
{
    match flag {
        Flag::Lease => b"--lease",
        Flag::Renew => b"--renew",
        Flag::Retry => b"--retry",
        Flag::Timeout => b"--timeout",
        Flag::Skew => b"--skew",
        Flag::Beat => b"--beat",
    }
}

/// What a flag takes, up to the word that it doesn't.
pub fn values_of(flag: Flag) -> &'static [u8]
    ensures { result.now ≡ spec.values_text flag }
{
    match flag {
        Flag::Lease => b" takes whole seconds from 1s to 24h, as 15s or 1m30s, not ",
        Flag::Renew => b" takes a duration from 1ms to 24h, as 10s, 1m30s or 500ms, not ",
        Flag::Retry => b" takes a duration from 1ms to 24h, as 2s or 500ms, not ",
        Flag::Timeout => b" takes a duration from 1ms to 10m, as 5s or 500ms, not ",
        Flag::Skew => b" takes parts per million up to 500000ppm, as 20000ppm, not ",
        Flag::Beat => b" takes a duration from 1ms to 1s, as 100ms, not ",
    }
}
