//! What is to be done, and why arguments ask for nothing, however a command line is written.

ghost use Rattle.std.specs.Prelude.{◌≤◌};
ghost use Rattle.isa_model.specs.Code.Limits.{max_steps};

use std::alloc::AllocError;

/// Says what is to be done, and on which files.
#[derive(Clone, Copy)]
pub enum Task<'a> {
    /// Run a program with checks.
    Trace(RunPaths<'a>, StepLimit),
    /// Verify a program and run it. If a proof table is given, it is tested in place of verifying.
    Run(RunPaths<'a>, Option<&'a str>),
    /// Verify a program.
    Verify(&'a str),
    /// Verify a program and write a proof table of it.
    Prove(TablePaths<'a>),
    /// Test a proof table of a program.
    Recheck(TablePaths<'a>),
    /// Make an image of the text that a file has.
    Assemble(AssemblyPaths<'a>),
    /// Write the text of the image that a file has.
    Disassemble(&'a str),
    /// Print what a code means, such as `V9`.
    Explain(&'a str),
}

/// The limit of steps of a run: from 1 to 1,000,000.
#[derive(Clone, Copy)]
pub struct StepLimit {
    pub steps: u32,
    ghost some: { 1 ≤ steps },
    ghost most: { steps ≤ max_steps },
}

/// The files of `run` and `trace`: the image and the frame stream that are read, and the frames
/// out.
#[derive(Clone, Copy)]
pub struct RunPaths<'a> {
    pub image: &'a str,
    pub frames: &'a str,
    pub out: &'a str,
}

/// The files of `asm`: the text, and the image that is made.
#[derive(Clone, Copy)]
pub struct AssemblyPaths<'a> {
    pub text: &'a str,
    pub image: &'a str,
}

/// The files of `prove` and `recheck`: the image, and the proof table of its program.
#[derive(Clone, Copy)]
pub struct TablePaths<'a> {
    pub image: &'a str,
    pub table: &'a str,
}

/// The message for arguments that are not UTF-8.
pub const NOT_UNICODE: &str = "error: an argument is not UTF-8\n";

/// Says why the arguments ask for nothing.
#[derive(Drop)]
pub enum WordsError {
    /// The arguments are invalid, or they ask for help or the version. With the message, the help
    /// or the version, in whole lines, which may be empty.
    Wrong(String),
    /// An argument is not UTF-8.
    NotUnicode,
    Memory,
}

impl From<AllocError> for WordsError {
    ghost use Rattle.std.specs.Prelude.{◌≡◌};
    ghost use Rattle.words.specs.declared.tasks.WordsError.TheVariants.{Memory};

    ghost from_gives = { λ _ e. e ≡ Memory };

    fn from(_error: AllocError) -> WordsError {
        WordsError::Memory
    }
}
