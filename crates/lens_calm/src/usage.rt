// What is wrong with words, in a line.
ghost use Rattle.lens_calm.specs.Answers as spec;

use crate::fault::Fault;
use crate::setting::Setting;
use kube_base::NoMemory;
use lens_room::by_flags::{Misuse, Named, add_misread, name_of, values_of};
use trace_writer::add;

impl Misuse for Fault {
    ghost usage_line = { spec.usage_line };

    ghost wrong_text = { spec.fault_text };

    fn usage() -> &'static [u8] {
        b"usage: kube_lens bounds [--lease 15s] [--renew 10s] [--retry 2s] [--timeout 10s] [--skew 0ppm] [--beat 10ms] [--wait 2s] [--delay 100ms] [--least-delay 10ms] [--grace 40s] [--monitor 5s] [--node-lease 40s] [--rate 100] [--ahead 0] [--toleration 300s] [--json]\n"
    }

    fn add_to(self, text: &mut Vec<u8>, words: &[String]) -> Result<(), NoMemory> {
        match self {
            Fault::Words(misread) => add_misread(text, words, misread),
            Fault::Unruly(wrong) => wrong.add_to(text, words),
            Fault::ShortWait => add(
                text,
                b"the longest wait must not be shorter than the retry period",
            ),
            Fault::ShortDelay => add(text, b"the delay must not be shorter than the least delay"),
        }
    }
}

impl Named for Setting {
    ghost name_text = { spec.setting_text };

    ghost takes_text = { spec.takes_text };

    fn name(self) -> &'static [u8] {
        match self {
            Setting::Election(flag) => name_of(flag),
            Setting::Wait => b"--wait",
            Setting::Delay => b"--delay",
            Setting::LeastDelay => b"--least-delay",
            Setting::Grace => b"--grace",
            Setting::Monitor => b"--monitor",
            Setting::NodeLease => b"--node-lease",
            Setting::Rate => b"--rate",
            Setting::Ahead => b"--ahead",
            Setting::Toleration => b"--toleration",
        }
    }

    fn takes(self) -> &'static [u8] {
        match self {
            Setting::Election(flag) => values_of(flag),
            Setting::Wait => b" takes a duration from 1ms to 24h, as 4400ms, not ",
            Setting::Delay => b" takes a duration from 1ms to 10m, as 100ms, not ",
            Setting::LeastDelay => b" takes a duration from 1ms to 10m, as 10ms, not ",
            Setting::Grace => b" takes a duration from 1ms to 24h, as 40s, not ",
            Setting::Monitor => b" takes a duration from 1ms to 24h, as 5s, not ",
            Setting::NodeLease => b" takes whole seconds from 1s to 24h, as 40s, not ",
            Setting::Rate => b" takes nodes per 1,000 s up to 1000000, as 100, not ",
            Setting::Ahead => b" takes a number up to 1000000, as 3, not ",
            Setting::Toleration => b" takes whole seconds from 0s to 24h, as 300s, not ",
        }
    }
}
