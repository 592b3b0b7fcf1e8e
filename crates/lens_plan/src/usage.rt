// What is wrong with words, in a line.
ghost use Rattle.lens_plan.specs.Answers as spec;

use crate::fault::Fault;
use crate::setting::Setting;
use kube_base::NoMemory;
use lens_room::by_flags::{Misuse, Named, add_misread};
use trace_writer::add;

impl Misuse for Fault {
    ghost usage_line = { spec.usage_line };

    ghost wrong_text = { spec.fault_text };

    fn usage() -> &'static [u8] {
        b"usage: kube_lens tune --failover 10s [--timeout 10s|half] [--skew 0ppm] [--wait-factor 2.2] [--stall 0s] [--delay 100ms] [--least-retry 100ms] [--beat 10ms] [--json]\n"
    }

    fn add_to(self, text: &mut Vec<u8>, words: &[String]) -> Result<(), NoMemory> {
        match self {
            Fault::Words(misread) => add_misread(text, words, misread),
            Fault::NoFailover => add(text, b"--failover has to be given, as --failover 10s"),
        }
    }
}

impl Named for Setting {
    ghost name_text = { spec.setting_text };

    ghost takes_text = { spec.takes_text };

    fn name(self) -> &'static [u8] {
        match self {
            Setting::Failover => b"--failover",
            Setting::Timeout => b"--timeout",
            Setting::Skew => b"--skew",
            Setting::WaitFactor => b"--wait-factor",
            Setting::Stall => b"--stall",
            Setting::Delay => b"--delay",
            Setting::LeastRetry => b"--least-retry",
            Setting::Beat => b"--beat",
        }
    }

    fn takes(self) -> &'static [u8] {
        match self {
            Setting::Failover => b" takes a duration from 1ms to 24h, as 10s, not ",
            Setting::Timeout => b" takes a duration from 1ms to 10m, as 3s, or half, not ",
            Setting::Skew =>
                b" takes a percentage up to 50% or parts per million up to 500000ppm, as 1% or 500ppm, not ",
            Setting::WaitFactor =>
                b" takes a number from 1 to 10 with at most two decimals, as 2.2, not ",
            Setting::Stall => b" takes a duration from 0s to 24h, as 2s, not ",
            Setting::Delay => b" takes a duration from 1ms to 10m, as 100ms, not ",
            Setting::LeastRetry =>
                b" takes tenths of a second from 100ms to 24h, as 500ms or 2s, not ",
            Setting::Beat => b" takes a duration from 1ms to 1s, as 10ms, not ",
        }
    }
}
