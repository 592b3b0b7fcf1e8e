// What the words behind the command want.
ghost use Rattle.std.specs.Prelude.{◌≡◌, IfOk, map, string_bytes};
ghost use Rattle.lens_tune.specs.Wishes.{IsWish};
ghost use Rattle.lens_plan.specs.Words as spec;

use crate::fault::Fault;
use crate::setting::{Setting, number_of, setting_by};
use crate::wanted::Wanted;
use lens_room::by_flags::{Taking, is, read_from};

/// What words want up to a place.
#[derive(Clone, Copy)]
pub struct Asked {
    pub wanted: Wanted,
    /// A failover is among it.
    pub has_failover: bool,
}

impl Taking for Asked {
    type Flag = Setting;

    ghost IsFit = { λ asked. IsWish asked.wanted.wish };

    ghost command = { spec.command };

    fn by_name(name: &[u8]) -> Option<Setting> {
        setting_by(name)
    }

    fn with_text(self, flag: Setting, text: &[u8]) -> Option<Asked> {
        if is_timeout(flag) && is(text, b"half") {
            return Some(Asked {
                wanted: self.wanted.with_half(),
                ..self
            });
        }
        let number = number_of(flag, text)?;
        Some(Asked {
            wanted: self.wanted.with(flag, number),
            has_failover: self.has_failover || is_failover(flag),
        })
    }

    fn in_json(self) -> Asked {
        Asked {
            wanted: Wanted {
                as_json: true,
                ..self.wanted
            },
            ..self
        }
    }
}

/// What the words behind the command want. Takes no memory.
#[tactic(auto, unfolding(crate::specs::Words::wanted_of))]
pub fn read_wanted(words: &[String]) -> Result<Wanted, Fault>
    ensures wanted { result ≡ spec.wanted_of (map string_bytes words.now) }
    ensures wish { IfOk result (λ wanted. IsWish wanted.wish) }
{
    let nothing = Asked {
        wanted: Wanted::usual(),
        has_failover: false,
    };
    match read_from(nothing, words) {
        Ok(asked) => if asked.has_failover {
            Ok(asked.wanted)
        } else {
            Err(Fault::NoFailover)
        },
        Err(misread) => Err(Fault::Words(misread)),
    }
}

fn is_timeout(setting: Setting) -> bool
    ensures { result ≡ spec.is_timeout setting }
{
    match setting {
        Setting::Timeout => true,
        _ => false,
    }
}

fn is_failover(setting: Setting) -> bool
    ensures { result ≡ spec.is_failover setting }
{
    match setting {
        Setting::Failover => true,
        _ => false,
    }
}
