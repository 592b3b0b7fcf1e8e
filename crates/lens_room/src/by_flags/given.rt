// The settings that the words behind the command give.
ghost use Rattle.std.specs.Prelude.{◌≡◌, IfOk, map, string_bytes};
ghost use Rattle.lens_room.specs.Flags as spec;
ghost use Rattle.lens_room.specs.Ranges.{AreInRange};

use crate::by_flags::flags::Flags;
use crate::by_flags::setting::{Setting, set, setting_by};
use crate::by_flags::taking::Taking;
use crate::by_flags::words::read_from;
use crate::by_flags::wrong::Wrong;
use script_reader::has_release;

impl Taking for Flags {
    type Flag = Setting;

    ghost IsFit = { λ flags. AreInRange flags };

    ghost command = { spec.command };

    fn by_name(name: &[u8]) -> Option<Setting> {
        setting_by(name)
    }

    fn with_text(self, flag: Setting, text: &[u8]) -> Option<Flags> {
        set(self, flag, text)
    }

    fn in_json(self) -> Flags {
        Flags {
            as_json: true,
            ..self
        }
    }
}

/// The settings that the words behind the command give. Takes no memory.
#[tactic(auto, unfolding(crate::specs::Flags::flags_of))]
pub fn read_flags(words: &[String]) -> Result<Flags, Wrong>
    ensures flags { result ≡ spec.flags_of (map string_bytes words.now) }
    ensures ranges { IfOk result (λ flags. AreInRange flags) }
{
    match read_from(Flags::standard(), words) {
        Ok(flags) => rule(flags),
        Err(misread) => Err(Wrong::Words(misread)),
    }
}

/// The settings, if they fit each other.
pub fn rule(flags: Flags) -> Result<Flags, Wrong>
    requires { AreInRange flags }
    ensures flags { result ≡ spec.ruled flags }
    ensures ranges { IfOk result (λ flags. AreInRange flags) }
{
    if u64::from(flags.lease_seconds) * 1000 <= u64::from(flags.renew_millis) {
        Err(Wrong::LongRenew)
    } else if 5 * u64::from(flags.renew_millis) <= 6 * u64::from(flags.retry_millis) {
        Err(Wrong::LongRetry)
    } else if flags.timeout() > 600_000 {
        Err(Wrong::LongTimeout)
    } else if !has_release(flags.in_release, flags.release) {
        Err(Wrong::NoRelease)
    } else {
        Ok(flags)
    }
}
