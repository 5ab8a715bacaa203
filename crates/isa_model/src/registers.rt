//! The registers of the machine. RFC 9669, section 2.

ghost use Rattle.std.specs.Prelude.{◌≡◌, ◌<◌};
ghost use Rattle.isa_model.specs.Code.Registers.{reg_number, reg_numbered};

/// A register: r0 has an answer, r1 to r5 have arguments, r6 to r9 are kept over calls, and r10 is
/// the read-only frame pointer.
#[derive(Clone, Copy, PartialEq, Eq)]
pub enum Reg {
    R0,
    R1,
    R2,
    R3,
    R4,
    R5,
    R6,
    R7,
    R8,
    R9,
    R10,
}

impl Reg {
    /// Says how many registers there are.
    pub const COUNT: usize = 11;

    /// Its number in an encoding, and its index in a list of all registers.
    pub fn number(self) -> usize
        ensures value { result ≡ reg_number self }
        ensures below { result < Reg.COUNT }
    {
        self as usize
    }

    /// The register with that number, if it is below 11.
    pub fn numbered(number: u8) -> Option<Self>
        ensures { result ≡ reg_numbered number }
    {
        match number {
            0 => Some(Reg::R0),
            1 => Some(Reg::R1),
            2 => Some(Reg::R2),
            3 => Some(Reg::R3),
            4 => Some(Reg::R4),
            5 => Some(Reg::R5),
            6 => Some(Reg::R6),
            7 => Some(Reg::R7),
            8 => Some(Reg::R8),
            9 => Some(Reg::R9),
            10 => Some(Reg::R10),
            _ => None,
        }
    }
}
