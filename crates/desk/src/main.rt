// The desk at a prompt.
#![tactic(auto)]

ghost use Rattle.std.specs.Prelude.{◌≡◌};
ghost use Rattle.std.specs.Process.{exit_status};
ghost use Rattle.files.specs.declared.status.Status.TheVariants.{Found, Nothing, Failed};

use files::status::Status;
use std::process::ExitCode;

// The exit status for a script.
fn exit_code(status: Status) -> ExitCode
    ensures found { status ≡ Found → exit_status result ≡ 0 }
    ensures nothing { status ≡ Nothing → exit_status result ≡ 1 }
    ensures failed { status ≡ Failed → exit_status result ≡ 2 }
{
    match status {
        Status::Found => ExitCode::from(0),
        Status::Nothing => ExitCode::from(1),
        Status::Failed => ExitCode::from(2),
    }
}

fn main(rt: HostRuntime) -> ExitCode {
    exit_code(commands::obey(&rt))
}
