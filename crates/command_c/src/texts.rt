// The texts that are written.
ghost use Rattle.std.specs.Prelude.{◌≡◌, ◌↔◌, IsTrue, IfOk, IfErr, string_bytes};
ghost use Rattle.c_language.specs.Text.{program_text};
ghost use Rattle.command_line.specs.Answers.{IsAnswer};
ghost use Rattle.command_line.specs.TwoTexts.{IsUnmade};
ghost use Rattle.command_c.specs.Compiled.{HasAnyProgram, any_program, ProgramCalls, AreProgramTexts};

use c_writer::{has_program, write_fast_program, write_header, write_program};
use command_line::{Status, Texts};
use controller_file::AnyController;
use overflow_check::Machine;
use std::alloc::{AllocError, Global};

// Whether a controller of either machine has a program.
fn has_any_program(alloc: Global, controller: &AnyController) -> Result<bool, AllocError>
    ensures { IfOk result (λ found. IsTrue found ↔ HasAnyProgram controller.now) }
{
    match controller {
        AnyController::Plain(controller) => {
            has_program(alloc, Machine::Plain, controller.parts())
        }
        AnyController::Fast(controller) => {
            has_program(alloc, Machine::Accelerated, controller.parts())
        }
    }
}

// The source of its program.
fn source_of(alloc: Global, controller: &AnyController, name: &str) -> Result<String, AllocError>
    requires { HasAnyProgram controller.now }
    ensures { IfOk result (λ text. string_bytes text ≡ program_text name.now (any_program controller.now)) }
{
    match controller {
        AnyController::Plain(controller) => write_program(alloc, controller, name),
        AnyController::Fast(controller) => write_fast_program(alloc, controller, name),
    }
}

/// The source of a controller's program with this name, and its header; or the status that tells why there are none.
pub fn program_texts(alloc: Global, controller: &AnyController, name: &str) -> Result<Texts, Status>
    ensures texts { IfOk result (λ t. AreProgramTexts name.now controller.now t.first.items t.second.items) }
    ensures called { IfOk result (λ _. IsAnswer (ProgramCalls controller.now) Status.Done) }
    ensures unmade { IfErr result (IsUnmade (ProgramCalls controller.now)) }
{
    let parts = controller.parts();
    let found = has_any_program(alloc, controller)?;
    if !found {
        return Err(Status::TooWideForC { width: parts.w });
    }
    let source = source_of(alloc, controller, name)?;
    let header = write_header(alloc, parts, name)?;
    Ok(Texts {
        first: source.into_bytes(),
        second: header.into_bytes(),
    })
}
