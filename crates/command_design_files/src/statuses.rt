// What was read of a text, or the status that tells of its first fault.
ghost use Rattle.command_design_files.specs.Texts.{TellsText, TellsController, IsToldBy};

use command_line::Status;
use controller_text::BadController;
use number_text::TextFault;

// The status that tells of the first fault of the text of the file at a position.
fn text_status(file: u32, fault: TextFault) -> Status
    ensures { TellsText file fault result }
{
    match fault {
        TextFault::Memory => Status::Memory,
        fault => Status::Text { file, fault },
    }
}

/// What was read of the text of the file at a position, or the status that tells of the text's first fault.
pub fn told_text<T>(file: u32, read: Result<T, TextFault>) -> Result<T, Status>
    ensures { IsToldBy (TellsText file) read result }
{
    match read {
        Ok(value) => Ok(value),
        Err(fault) => Err(text_status(file, fault)),
    }
}

// The status that tells why the bytes of the file at a position are no controller's text.
fn controller_status(file: u32, fault: BadController) -> Status
    ensures { TellsController file fault result }
{
    match fault {
        BadController::Memory => Status::Memory,
        fault => Status::Controller { file, fault },
    }
}

/// What was read of controllers in the file at a position, or the status that tells why its bytes are no such text.
pub fn told_controller<T>(file: u32, read: Result<T, BadController>) -> Result<T, Status>
    ensures { IsToldBy (TellsController file) read result }
{
    match read {
        Ok(value) => Ok(value),
        Err(fault) => Err(controller_status(file, fault)),
    }
}
