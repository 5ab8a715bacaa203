//! The command line of xdpvm_survey, for clap.

use super::survey_run_line::{hits, steps};
use clap::{Arg, ArgAction, Command};
use std::alloc::{AllocError, Global};

const NAME: &str = "xdpvm_survey";

const VERSION: &str = "0.1.0";

const ABOUT: &str = "Judges many images at once, a row for each, and looks into one";

const AFTER: &str =
    "Of a folder the files that end in .image are judged, in the order of their names. The \
     status is 0 where all are accepted, 2 where one is refused, 4 where one cannot be read, 5 \
     where memory runs out.";

const LOG_ABOUT: &str = "Prints each explored instruction with the state that it was reached in";

const HTML: &str =
    "Writes a page: of each instruction how often it was explored and what is known there";

const DIS_ABOUT: &str =
    "Prints slots, bytes, labels and text of an image, or its basic blocks as a graph";

/// An option, the name of its value in the help, if it takes one, and its help text.
#[derive(Clone, Copy)]
pub struct ValueChoice {
    pub name: &'static str,
    pub value_name: Option<&'static str>,
    pub help: &'static str,
}

const CHOICES: &[ValueChoice] = &[
    ValueChoice {
        name: "format",
        value_name: Some("FORMAT"),
        help: "How rows are written: table, csv or json [default: table]",
    },
    ValueChoice {
        name: "sort",
        value_name: Some("COLUMN"),
        help: "Sorts by a column: texts from a to z, numbers from the greatest to the least",
    },
    ValueChoice {
        name: "only",
        value_name: Some("refused"),
        help: "Prints only the rows of refused images",
    },
    ValueChoice {
        name: "compare",
        value_name: Some("OLD.csv"),
        help: "Prints what differs from an earlier survey, written as csv",
    },
    ValueChoice {
        name: "tables",
        value_name: Some("FOLDER"),
        help: "Writes a proof table of each accepted image there, and tests it",
    },
    ValueChoice {
        name: "most",
        value_name: Some("BYTES"),
        help: "Writes no table of more bytes than this",
    },
    ValueChoice {
        name: "no-header",
        value_name: None,
        help: "Leaves the names of the columns out",
    },
];

const LOG_CHOICES: &[ValueChoice] = &[
    ValueChoice {
        name: "slot",
        value_name: Some("N"),
        help: "Prints only what was explored at this slot",
    },
    ValueChoice {
        name: "states",
        value_name: Some("N"),
        help: "Prints at most so many states [default: 10000]",
    },
    ValueChoice {
        name: "html",
        value_name: None,
        help: HTML,
    },
];

const DIS_CHOICES: &[ValueChoice] = &[ValueChoice {
    name: "dot",
    value_name: None,
    help: "Prints the basic blocks as a graph for dot -Tsvg",
}];

/// An option.
pub fn option<'a>(alloc: Global, choice: ValueChoice) -> Arg<'a> {
    let option = Arg::new(alloc, choice.name).long(choice.name);
    match choice.value_name {
        Some(name) => option
            .action(ArgAction::Set)
            .value_name(name)
            .help(choice.help),
        None => option.action(ArgAction::SetTrue).help(choice.help),
    }
}

/// A command with these options, unless memory ran out before.
pub fn with_options<'a>(
    alloc: Global,
    command: Result<Command<'a>, AllocError>,
    choices: &[ValueChoice],
) -> Result<Command<'a>, AllocError> {
    let mut command = command?;
    for choice in choices {
        command = command.arg(option(alloc, *choice))?;
    }
    Ok(command)
}

/// A command on one image.
pub fn look<'a>(
    alloc: Global,
    name: &'static str,
    about: &'static str,
) -> Result<Command<'a>, AllocError> {
    let image = Arg::new(alloc, "image")
        .required(true)
        .action(ArgAction::Set)
        .help("The image of the program");
    Command::new(alloc, name).about(about).arg(image)
}

// The program, with the images of a survey as arguments.
fn with_paths<'a>(alloc: Global) -> Result<Command<'a>, AllocError> {
    let empty = Command::new(alloc, NAME)
        .version(VERSION)
        .about(ABOUT)
        .after_help(AFTER)
        .args_conflicts_with_subcommands(true)
        .bin_name(NAME)?;
    let paths = Arg::new(alloc, "paths")
        .required(true)
        .num_args(1..)
        .action(ArgAction::Append)
        .value_name("IMAGE|FOLDER")
        .help("Images, and folders of them");
    empty.arg(paths)
}

// The command that prints a search.
fn log<'a>(alloc: Global) -> Result<Command<'a>, AllocError> {
    with_options(alloc, look(alloc, "log", LOG_ABOUT), LOG_CHOICES)
}

// The command that prints an image.
fn dis<'a>(alloc: Global) -> Result<Command<'a>, AllocError> {
    with_options(alloc, look(alloc, "dis", DIS_ABOUT), DIS_CHOICES)
}

// The program with one more command, unless memory ran out before.
fn with_command<'a>(
    program: Result<Command<'a>, AllocError>,
    made: Result<Command<'a>, AllocError>,
) -> Result<Command<'a>, AllocError> {
    match program {
        Ok(program) => program.subcommand(made?),
        Err(error) => Err(error),
    }
}

/// The program, whose arguments are those of a survey, with its commands.
pub fn program<'a>(alloc: Global) -> Result<Command<'a>, AllocError> {
    let surveying = with_options(alloc, with_paths(alloc), CHOICES);
    let with_log = with_command(surveying, log(alloc));
    let with_dis = with_command(with_log, dis(alloc));
    let with_hits = with_command(with_dis, hits(alloc));
    with_command(with_hits, steps(alloc))
}
