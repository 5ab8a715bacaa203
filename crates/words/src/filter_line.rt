//! The command line of xdpvm_filter, for clap.

ghost use Rattle.std.specs.Prelude.{◌≡◌, IfOk};
ghost use Rattle.clap.specs.Words.{app_of, with_rule};
ghost use Rattle.words.specs.FilterLine.{app_by, convert_program, flag, filter_start, filter_program, show_program};

use super::command_line::{Argument, Choice, IMAGE, INSTEAD, LIMIT, VERSION, command, with_choice};
use super::filter_commands::FilterCommand;
use clap::{Arg, ArgAction, Command};
use std::alloc::{AllocError, Global};

// The program's name.
const NAME: &str = "xdpvm_filter";

const ABOUT: &str = "Verifies a BPF program of type XDP, runs it on a stream of frames, and counts";

// What stands below the options: the commands, as clap would list them.
const AFTER: &str =
    "Commands:\n  convert  Writes frames again: as a capture, a frame stream or a text\n  \
     show     Prints frames as a text, with their bytes in hexadecimal and as characters";

const CONVERT_ABOUT: &str = "Writes frames again: as a capture, a frame stream or a text";

const SHOW_ABOUT: &str =
    "Prints frames as a text, with their bytes in hexadecimal and as characters";

const FRAMES: Argument = Argument {
    name: "frames",
    help: "The stream of frames, as `xdpvm_filter convert` makes it; - is standard input",
};

const OUT: Argument = Argument {
    name: "out",
    help: "Gets the frames that are sent on; - is standard output, and then all lines go to \
         standard error",
};

const CONVERTED: Argument = Argument {
    name: "in",
    help: "A frame stream or a capture (pcap, pcapng); - is standard input",
};

const WRITTEN: Argument = Argument {
    name: "out",
    help: "Gets the frames, as its name ends: .pcap, .pcapng, .frames or .txt; with another name \
         the frames of a capture become a frame stream. - is standard output",
};

const TO: Choice = Choice {
    name: "to",
    value: "KIND",
    help: "What OUT becomes, whatever its name is: pcap, pcapng, frames or text",
};

const INTERFACE: Choice = Choice {
    name: "interface",
    value: "N",
    help: "The interface of all frames, from 0 to 4294967295, whatever IN says",
};

const QUEUE: Choice = Choice {
    name: "queue",
    value: "N",
    help: "The queue of all frames, from 0 to 4294967295, whatever IN says",
};

const MAPS: Choice = Choice {
    name: "maps",
    value: "MAPS",
    help: "The lines that fill the maps before the first frame, as a report has them",
};

const MAPS_OUT: Choice = Choice {
    name: "maps-out",
    value: "FILE",
    help: "Gets the lines of what the maps hold after the last frame",
};

const REPORT: Choice = Choice {
    name: "report",
    value: "FILE",
    help: "Gets the report, with a line for each frame, as `xdpvm run` writes it",
};

// The name of the option that takes no value, and its help text.
const CHECKED: &str = "checked";

const CHECKED_HELP: &str = "Tests every access while the program runs, in place of verifying it";

const REASONS: &str = "reasons";

const REASONS_HELP: &str = "A frame stream has reasons (XPF2), and frames of up to 9216 bytes";

// A command with an option that takes no value.
fn with_flag<'a>(
    alloc: Global,
    command: Command<'a>,
    name: &'static str,
    help: &'static str,
) -> Result<Command<'a>, AllocError>
    ensures { IfOk result
        (λ made. app_of made ≡ with_rule (app_of command.entry) (flag name.now)) }
{
    let option = Arg::new(alloc, name)
        .long(name)
        .action(ArgAction::SetTrue)
        .help(help);
    command.arg(option)
}

// The program with its required arguments and a version.
fn filter_start<'a>(alloc: Global) -> Result<Command<'a>, AllocError>
    ensures { IfOk result (λ made. app_of made ≡ filter_start) }
{
    let plain = command(alloc, NAME, ABOUT, &[IMAGE, FRAMES, OUT])?;
    plain.version(VERSION).after_help(AFTER).bin_name(NAME)
}

// The program with its arguments.
fn filter_program<'a>(alloc: Global) -> Result<Command<'a>, AllocError>
    ensures { IfOk result (λ made. app_of made ≡ filter_program) }
{
    let start = filter_start(alloc)?;
    let with_maps = with_choice(alloc, start, MAPS)?;
    let with_maps_out = with_choice(alloc, with_maps, MAPS_OUT)?;
    let with_table = with_choice(alloc, with_maps_out, INSTEAD)?;
    let with_checked = with_flag(alloc, with_table, CHECKED, CHECKED_HELP)?;
    let with_limit = with_choice(alloc, with_checked, LIMIT)?;
    with_choice(alloc, with_limit, REPORT)
}

// The command that writes frames again.
fn convert_program<'a>(alloc: Global) -> Result<Command<'a>, AllocError>
    ensures { IfOk result (λ made. app_of made ≡ convert_program) }
{
    let plain = command(alloc, "convert", CONVERT_ABOUT, &[CONVERTED, WRITTEN])?;
    let named = plain.bin_name("xdpvm_filter convert")?;
    let with_to = with_choice(alloc, named, TO)?;
    let with_interface = with_choice(alloc, with_to, INTERFACE)?;
    let with_queue = with_choice(alloc, with_interface, QUEUE)?;
    with_flag(alloc, with_queue, REASONS, REASONS_HELP)
}

// The command that prints frames.
fn show_program<'a>(alloc: Global) -> Result<Command<'a>, AllocError>
    ensures { IfOk result (λ made. app_of made ≡ show_program) }
{
    command(alloc, "show", SHOW_ABOUT, &[CONVERTED])?.bin_name("xdpvm_filter show")
}

/// The command line of a command.
pub fn line_of<'a>(alloc: Global, command: FilterCommand) -> Result<Command<'a>, AllocError>
    ensures { IfOk result (λ made. app_of made ≡ app_by command) }
{
    match command {
        FilterCommand::Filter => filter_program(alloc),
        FilterCommand::Convert => convert_program(alloc),
        FilterCommand::Show => show_program(alloc),
    }
}
