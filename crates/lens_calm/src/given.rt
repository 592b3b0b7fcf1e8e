// The settings that the words behind the command give.
ghost use Rattle.std.specs.Prelude.{◌≡◌, IfOk, map, string_bytes};
ghost use Rattle.lens_room.specs.Flags.{ruled};
ghost use Rattle.lens_calm.specs.Settings.{AreGiven};
ghost use Rattle.lens_calm.specs.Words as spec;

use crate::fault::Fault;
use crate::setting::{Setting, number_of, setting_by};
use crate::settings::Settings;
use lens_room::by_flags::{Taking, read_from, rule};

impl Taking for Settings {
    type Flag = Setting;

    ghost IsFit = { λ settings. AreGiven settings };

    ghost command = { spec.command };

    fn by_name(name: &[u8]) -> Option<Setting> {
        setting_by(name)
    }

    fn with_text(self, flag: Setting, text: &[u8]) -> Option<Settings> {
        let number = number_of(flag, text)?;
        Some(self.with(flag, number))
    }

    fn in_json(self) -> Settings {
        self.as_json()
    }
}

/// The settings that the words behind the command give. Takes no memory.
#[tactic(auto, unfolding(crate::specs::Words::settings_of))]
pub fn read_settings(words: &[String]) -> Result<Settings, Fault>
    ensures settings { result ≡ spec.settings_of (map string_bytes words.now) }
    ensures ranges { IfOk result AreGiven }
{
    match read_from(Settings::usual(), words) {
        Ok(settings) => rule_all(settings),
        Err(misread) => Err(Fault::Words(misread)),
    }
}

/// The settings, if they fit each other.
fn rule_all(settings: Settings) -> Result<Settings, Fault>
    requires { AreGiven settings }
    ensures settings { result ≡ spec.rules settings (ruled settings.flags) }
    ensures ranges { IfOk result AreGiven }
{
    match rule(settings.flags) {
        Err(wrong) => Err(Fault::Unruly(wrong)),
        Ok(_) => own_rules(settings),
    }
}

fn own_rules(settings: Settings) -> Result<Settings, Fault>
    requires { AreGiven settings }
    ensures settings { result ≡ spec.own_rules settings }
    ensures ranges { IfOk result AreGiven }
{
    let retry = settings.flags.retry_millis;
    if retry > settings.wait_millis.unwrap_or(retry) {
        Err(Fault::ShortWait)
    } else if settings.least_delay_millis.unwrap_or(1) > settings.delay_millis {
        Err(Fault::ShortDelay)
    } else {
        Ok(settings)
    }
}
