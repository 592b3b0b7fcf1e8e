// The exit status of a program.
ghost use Rattle.std.specs.Prelude.{◌≡◌, ◌≢◌, IfErr, IfOk};
ghost use Rattle.std.specs.IoError.{error_kind};
ghost use Rattle.std.specs.Process as process;
ghost use Rattle.run_edge.specs.Exits.{exit_status_of};

use crate::status::{Status, Verdict};
use std::io;
use std::io::ErrorKind;
use std::process::ExitCode;

/// Want of memory.
const OUT_OF_MEMORY: u8 = 5;

/// A word that the runtime refuses, as one that isn't UTF-8.
const BAD_WORD: u8 = 6;

/// The exit status of a program whose run ends so: 0 to 5.
pub fn exit_status(status: Status) -> u8
    ensures { result ≡ exit_status_of status }
{
    match status {
        Status::Answered(Verdict::Done | Verdict::Safe) => 0,
        Status::Answered(Verdict::Unsafe | Verdict::Refused) => 1,
        Status::Answered(Verdict::Usage) => 2,
        Status::SourceFault => 3,
        Status::SinkFault => 4,
        Status::OutOfMemory => OUT_OF_MEMORY,
    }
}

/// The exit code of a program whose run ends so: its exit status, and where no words could be had to run on, 5 or 6.
pub fn exit_of(ended: io::Result<Status>) -> ExitCode
    ensures run { IfOk ended (λ status. process.exit_status result ≡ exit_status_of status) }
    ensures no_memory { IfErr ended (λ error. error_kind error ≡ ErrorKind.OutOfMemory → process.exit_status result ≡ 5) }
    ensures bad_word { IfErr ended (λ error. error_kind error ≢ ErrorKind.OutOfMemory → process.exit_status result ≡ 6) }
{
    match ended {
        Ok(status) => ExitCode::from(exit_status(status)),
        Err(error) => ExitCode::from(status_without_words(error.kind())),
    }
}

/// The exit status of a program whose words can't be had for such an error.
fn status_without_words(kind: ErrorKind) -> u8
    ensures no_memory { kind ≡ ErrorKind.OutOfMemory → result ≡ 5 }
    ensures bad_word { kind ≢ ErrorKind.OutOfMemory → result ≡ 6 }
{
    match kind {
        ErrorKind::OutOfMemory => OUT_OF_MEMORY,
        _ => BAD_WORD,
    }
}
