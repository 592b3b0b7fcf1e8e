// How large a cluster a document may say, by its version.
ghost use Rattle.std.specs.Prelude.{◌≡◌, ◌≤◌};
ghost use Rattle.script_reader.specs.Limits as spec;

use crate::table::Version;
use manifest_json::Scale;

pub(crate) fn scale_of(version: Version) -> Scale
    ensures { result ≡ spec.scale_of version }
{
    match version {
        Version::One => Scale::Usual,
        Version::Two => Scale::Usual,
        Version::Three => Scale::Usual,
        Version::Four => Scale::Large,
    }
}

pub(crate) fn kubelet_limit(version: Version) -> usize
    ensures value { result ≡ spec.kubelet_limit (spec.scale_of version) }
    ensures most { result ≤ 15000 }
{
    match scale_of(version) {
        Scale::Usual => 1_000,
        Scale::Large => 15_000,
    }
}

pub(crate) fn event_limit(version: Version) -> usize
    ensures { result ≡ spec.event_limit (spec.scale_of version) }
{
    match scale_of(version) {
        Scale::Usual => 100_000,
        Scale::Large => 1_000_000,
    }
}
