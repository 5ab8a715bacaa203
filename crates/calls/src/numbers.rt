//! The codes of refusals as numbers: 9 for V9, 103 for G3, 205 for I5.

ghost use Rattle.std.specs.Prelude.{◌≡◌};
ghost use Rattle.image.specs.Messages.{code_of as image_code};
ghost use Rattle.control_flow.specs.Messages.{code_of as flow_code};
ghost use Rattle.transfer.specs.Messages.{code_of as step_code};
ghost use Rattle.walks.specs.Messages.{code_of as program_code};
ghost use Rattle.calls.specs.Numbers.{code_number};

use control_flow::FlowError;
use image::ImageError;
use walks::Refusal;

/// The number of the code for bytes that are no image.
pub fn number_of_image_error(error: ImageError) -> u32
    ensures { result ≡ code_number (image_code error) }
{
    match error {
        ImageError::Magic => 201,
        ImageError::Short => 202,
        ImageError::Long => 203,
        ImageError::TooManyMaps => 204,
        ImageError::MapRow(_index) => 205,
        ImageError::SlotCount => 206,
        ImageError::MapRoom => 207,
        ImageError::Code(_slot, _error) => 208,
        ImageError::Memory => 209,
        ImageError::UnknownMap(_slot) => 210,
        ImageError::ValuePointer(_slot) => 211,
    }
}

fn number_of_flow_error(error: FlowError) -> u32
    ensures { result ≡ code_number (flow_code error) }
{
    match error {
        FlowError::TargetOutside => 101,
        FlowError::SecondHalf => 102,
        FlowError::FallsOff => 103,
        FlowError::Unreachable => 104,
        FlowError::OtherFunction => 105,
        FlowError::Memory => 106,
    }
}

fn number_of_step(refusal: transfer::Refusal) -> u32
    ensures { result ≡ code_number (step_code refusal) }
{
    match refusal {
        transfer::Refusal::UnsetRegister => 1,
        transfer::Refusal::ReadOnlyRegister => 2,
        transfer::Refusal::PointerOperand => 3,
        transfer::Refusal::PointerOffset => 4,
        transfer::Refusal::NotMemory => 5,
        transfer::Refusal::StackPlace => 6,
        transfer::Refusal::StackBytes => 7,
        transfer::Refusal::ContextAccess => 8,
        transfer::Refusal::PacketBytes => 9,
        transfer::Refusal::MapValueBytes => 10,
        transfer::Refusal::NullNotTested => 11,
        transfer::Refusal::PointerStored => 12,
        transfer::Refusal::Comparison => 13,
        transfer::Refusal::HelperArgument => 14,
        transfer::Refusal::HelperBytes => 15,
        transfer::Refusal::TooManyFrames => 16,
        transfer::Refusal::ExitValue => 17,
        transfer::Refusal::PacketAtomic => 20,
        transfer::Refusal::NoAction => 21,
    }
}

/// The number of the code for a program that is refused.
pub fn number_of_refusal(refusal: Refusal) -> u32
    ensures { result ≡ code_number (program_code refusal) }
{
    match refusal {
        Refusal::Flow(error) => number_of_flow_error(error),
        Refusal::Step(refusal) => number_of_step(refusal),
        Refusal::Repeats => 18,
        Refusal::TooLong => 19,
        Refusal::Memory => 0,
    }
}
