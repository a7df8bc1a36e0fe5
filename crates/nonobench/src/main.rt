//! The program nonobench: it passes the arguments, files and streams of the operating system to the crate `program`.
#![tactic(auto)]

ghost use Rattle.std.specs.Prelude.{◌≡◌, ◌⊎◌};
ghost use Rattle.std.specs.declared.io.ErrorKind.TheVariants.{OutOfMemory};
ghost use Rattle.program_options.specs.declared.fault.ProgramFault.TheVariants.{Memory, NotText};

mod log;
mod system;

use crate::system::System;
use program::run;
use program_options::ProgramFault;
use std::process::ExitCode;
use std::rt::Env;
use std::{env, io};

fn main(rt: HostRuntime) -> ExitCode {
    let arguments = arguments(&rt);
    let mut files = System::new(&rt);
    let mut reader = rt.reader();
    let mut writer = io::writer(&rt);
    let mut errors = rt.stderr();
    run(
        rt.alloc(),
        arguments,
        &mut files,
        &mut reader,
        &mut writer,
        &mut errors,
    )
    .code
}

// The arguments after the program's own name.
fn arguments(rt: &(impl AllocGlobal + Env)) -> Result<Vec<String>, ProgramFault> {
    match env::args(rt) {
        Ok(arguments) => Ok(arguments.skip(1).collect(rt.alloc())?),
        Err(error) => Err(fault_of(error.kind())),
    }
}

// Why there are no arguments: memory ran out, or one is no text.
fn fault_of(kind: io::ErrorKind) -> ProgramFault
    ensures memory { kind ≡ OutOfMemory → result ≡ Memory }
    ensures text { result ≡ Memory → kind ≡ OutOfMemory }
    ensures either { (result ≡ Memory) ⊎ (result ≡ NotText) }
{
    match kind {
        io::ErrorKind::OutOfMemory => ProgramFault::Memory,
        _ => ProgramFault::NotText,
    }
}
