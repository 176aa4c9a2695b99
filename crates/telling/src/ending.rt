//! How a program ends.

ghost use Rattle.std.specs.Prelude.{◌≡◌, MatchResult};
ghost use Rattle.std.specs.Process.{exit_status};

use std::process::ExitCode;

/// How a program ends: as it says, or by an error, which is told on standard error, with its causes, behind the program's name, and gives the status 1.
pub fn end(rt: &impl Eprint, program: &str, outcome: anyhow::Result<ExitCode>) -> ExitCode
    ensures { MatchResult outcome (λ code. result ≡ code) (λ _. exit_status result ≡ 1) }
{
    match outcome {
        Ok(code) => code,
        Err(error) => {
            // Where this fails, there is nowhere left to tell it.
            let _ = eprintln!(rt; "{program}: {error:#}");
            ExitCode::FAILURE
        }
    }
}
