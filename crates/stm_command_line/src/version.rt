//! The version of stmdesk.

ghost use Rattle.std.specs.Prelude.{◌≡◌, ◌++◌, IfErr, IfOk, OnOk, string_bytes};
ghost use Rattle.stm_command_line.specs.CommandLine.{version_line};

use std::alloc::Global;
use stm_lines::RunFault;
use stm_terms::NoMemory;

/// The version, which `--version` prints. The header, the library and the Python client state it, too; tests compare.
pub const VERSION: &str = "0.30.0";

/// Appends the line that `--version` prints.
fn write_version(out: &mut String) -> Result<(), NoMemory>
    ensures { OnOk result (string_bytes out.new ≡ string_bytes out.old ++ version_line) }
{
    out.push_str("stmdesk ")?;
    out.push_str(VERSION)?;
    out.push_str("\n")
}

/// The line that `--version` prints.
pub fn version_line(alloc: Global) -> Result<String, RunFault>
    ensures text { IfOk result (λ text. string_bytes text ≡ version_line) }
    ensures fault { IfErr result (λ e. e ≡ RunFault.NoMemory) }
{
    let mut text = String::new(alloc);
    match write_version(&mut text) {
        Ok(()) => Ok(text),
        Err(_) => Err(RunFault::NoMemory),
    }
}
