//! The compiler.
ghost use Rattle.std.specs.Prelude.{◌≡◌, Bool, List, length, IfOk};
ghost use Rattle.sieve_check.specs.view.Checked.{commands_of};
ghost use Rattle.sieve_code.specs.Compiles.{Compiles};
ghost use Rattle.sieve_code.specs.Walk.{code_walk, gone, script_walk};
ghost use Rattle.sieve_code.specs.view.Code.{ops_of};

use crate::code::Code;
use crate::command_code::put_commands;
use crate::tail::Tail;
use sieve_check::Checked;
use std::alloc::{AllocError, Global};

/// Compiles a checked script. The code does what the script does: its walk is the script's. So for
/// each list of answers it meets the same tests and commands, in the same order. It also ends as
/// the script ends. An error is out of memory, or more strings, parts or places than 4,294,967,295.
/// No text that is read has so many.
pub fn compile(alloc: Global, checked: Checked) -> Result<Code, AllocError>
    ensures code { IfOk result (λ code. Compiles (commands_of checked) (ops_of code)) }
    ensures answers { IfOk result (λ code. (answers : List Bool) → gone (code_walk (ops_of code)
        (length (ops_of code))) answers ≡ gone (script_walk (commands_of checked)) answers) }
{
    let mut tail = Tail::new(alloc);
    put_commands(checked.into_statements(), &mut tail)?;
    let (ops, pools) = tail.into_parts();
    Ok(Code { ops, pools })
}
