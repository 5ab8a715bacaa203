//! The command line of the program, for clap.

ghost use Rattle.std.specs.Prelude.{◌≡◌, false, map, IfOk, IsOkAnd};
ghost use Rattle.clap.specs.Words.{app_of, rule_of, with_rule};
ghost use Rattle.words.specs.CommandLine.{wanted, optional, command, running, with_command, empty_program, program};

use clap::{Arg, ArgAction, Command};
use std::alloc::{AllocError, Global};

// The program's name.
const NAME: &str = "xdpvm";

/// The version of the program, which `--version` prints.
pub const VERSION: &str = "0.1.0";

/// An argument that a command requires, and its help text.
#[derive(Clone, Copy)]
pub struct Argument {
    pub name: &'static str,
    pub help: &'static str,
}

const TEXT: Argument = Argument {
    name: "text",
    help: "The program as text; /dev/stdin is taken, too",
};

const MADE: Argument = Argument {
    name: "image",
    help: "The image that is made; a file that is there is replaced",
};

/// The argument of a program's image.
pub const IMAGE: Argument = Argument {
    name: "image",
    help: "The image of the program, as `asm` makes it; /dev/stdin is taken, too",
};

const FRAMES: Argument = Argument {
    name: "frames",
    help: "The stream of frames, as `xdpvm_filter convert` makes it; /dev/stdin is taken, too",
};

const OUT: Argument = Argument {
    name: "out",
    help: "Gets the frames that are sent on; a file that is there is replaced",
};

const PROVED: Argument = Argument {
    name: "table",
    help: "The proof table that is made; a file that is there is replaced",
};

const CODE: Argument = Argument {
    name: "code",
    help: "The code of a refusal, a fault or another answer, such as V9",
};

const TABLE: Argument = Argument {
    name: "table",
    help: "The proof table, as `prove` makes it",
};

/// An option of a command, the name of its value in the help, and its help text.
#[derive(Clone, Copy)]
pub struct Choice {
    pub name: &'static str,
    pub value: &'static str,
    pub help: &'static str,
}

/// The option of a limit of steps.
pub const LIMIT: Choice = Choice {
    name: "limit",
    value: "N",
    help: "The most steps on one frame, from 1 to 1000000 [default: 1000000]",
};

/// The option of a proof table.
pub const INSTEAD: Choice = Choice {
    name: "table",
    value: "TABLE",
    help: "A proof table, which is tested in place of verifying the program",
};

// The help text of each command, in the order of the list.
const ASM_ABOUT: &str = "Makes the image of a program that is written as text";

const DIS_ABOUT: &str = "Prints the text of an image";

const VERIFY_ABOUT: &str = "Verifies a program and prints the most steps that a run takes";

const RUN_ABOUT: &str = "Verifies a program, runs it on each frame, and prints the report";

const TRACE_ABOUT: &str = "Runs a program with every access tested, verified or not";

const PROVE_ABOUT: &str = "Verifies a program and writes a proof table, which others can test";

const RECHECK_ABOUT: &str = "Tests a proof table and prints the most steps that a run takes";

const EXPLAIN_ABOUT: &str = "Prints what a code means, with an example, and what to do";

const PROGRAM_ABOUT: &str = "Verifies BPF programs of type XDP and runs them on streams of frames";

// An argument that is required, and takes one value.
fn wanted<'a>(alloc: Global, argument: Argument) -> Arg<'a>
    ensures rule { rule_of result ≡ wanted argument.name.now }
    ensures local { result.global ≡ false }
{
    Arg::new(alloc, argument.name)
        .required(true)
        .action(ArgAction::Set)
        .help(argument.help)
}

/// The command of this name that requires these arguments.
pub fn command<'a>(
    alloc: Global,
    name: &'static str,
    about: &'static str,
    arguments: &[Argument],
) -> Result<Command<'a>, AllocError>
    ensures { IfOk result (λ made. app_of made
        ≡ command name.now (map (λ argument. argument.name.now) arguments.now)) }
{
    let mut command = Command::new(alloc, name).about(about);
    for argument in arguments {
        command = command.arg(wanted(alloc, *argument))?;
    }
    Ok(command)
}

/// A command with an option.
pub fn with_choice<'a>(
    alloc: Global,
    command: Command<'a>,
    choice: Choice,
) -> Result<Command<'a>, AllocError>
    ensures { IfOk result
        (λ made. app_of made ≡ with_rule (app_of command.entry) (optional choice.name.now)) }
{
    let option = Arg::new(alloc, choice.name)
        .long(choice.name)
        .action(ArgAction::Set)
        .value_name(choice.value)
        .help(choice.help);
    command.arg(option)
}

// The command of this name that runs a program on a frame stream, and takes this option.
fn running<'a>(
    alloc: Global,
    name: &'static str,
    about: &'static str,
    choice: Choice,
) -> Result<Command<'a>, AllocError>
    ensures { IfOk result (λ made. app_of made ≡ running name.now choice.name.now) }
{
    let plain = command(alloc, name, about, &[IMAGE, FRAMES, OUT])?;
    with_choice(alloc, plain, choice)
}

// The command line with one more command, of this name, that requires these arguments, unless
// memory ran out before.
fn with_command<'a>(
    alloc: Global,
    program: Result<Command<'a>, AllocError>,
    name: &'static str,
    about: &'static str,
    arguments: &[Argument],
) -> Result<Command<'a>, AllocError>
    ensures { IfOk result (λ made. IsOkAnd program.entry (λ before. app_of made
        ≡ with_command (app_of before)
        (command name.now (map (λ argument. argument.name.now) arguments.now)))) }
{
    let before = program?;
    let made = command(alloc, name, about, arguments)?;
    before.subcommand(made)
}

// The command line with one more command, of this name, that runs a program on a frame stream and
// takes this option, unless memory ran out before.
fn with_running<'a>(
    alloc: Global,
    program: Result<Command<'a>, AllocError>,
    name: &'static str,
    about: &'static str,
    choice: Choice,
) -> Result<Command<'a>, AllocError>
    ensures { IfOk result (λ made. IsOkAnd program.entry (λ before. app_of made
        ≡ with_command (app_of before) (running name.now choice.name.now))) }
{
    let before = program?;
    let made = running(alloc, name, about, choice)?;
    before.subcommand(made)
}

// The program without its commands; it requires one.
fn empty_program<'a>(alloc: Global) -> Result<Command<'a>, AllocError>
    ensures { IfOk result (λ made. app_of made ≡ empty_program) }
{
    // Help and messages have this name, whatever the executable file is called.
    Command::new(alloc, NAME)
        .version(VERSION)
        .subcommand_required(true)
        .about(PROGRAM_ABOUT)
        .bin_name(NAME)
}

/// The program with its commands; it requires one.
pub fn program<'a>(alloc: Global) -> Result<Command<'a>, AllocError>
    ensures { IfOk result (λ made. app_of made ≡ program) }
{
    let empty = empty_program(alloc);
    let with_asm = with_command(alloc, empty, "asm", ASM_ABOUT, &[TEXT, MADE]);
    let with_dis = with_command(alloc, with_asm, "dis", DIS_ABOUT, &[IMAGE]);
    let with_verify = with_command(alloc, with_dis, "verify", VERIFY_ABOUT, &[IMAGE]);
    let with_run = with_running(alloc, with_verify, "run", RUN_ABOUT, INSTEAD);
    let with_trace = with_running(alloc, with_run, "trace", TRACE_ABOUT, LIMIT);
    let with_prove = with_command(alloc, with_trace, "prove", PROVE_ABOUT, &[IMAGE, PROVED]);
    let with_recheck = with_command(alloc, with_prove, "recheck", RECHECK_ABOUT, &[IMAGE, TABLE]);
    with_command(alloc, with_recheck, "explain", EXPLAIN_ABOUT, &[CODE])
}
