//! The commands of xdpvm_survey that run an image on a frame stream, for clap.

use super::survey_line::{ValueChoice, look, option, with_options};
use clap::{Arg, ArgAction, Command};
use std::alloc::{AllocError, Global};

const HITS_ABOUT: &str =
    "Runs an image on packet frames, and prints how often each instruction was run";

const STEPS_ABOUT: &str = "Runs an image on packet frames, and prints the steps of one frame's run";

const RUN_CHOICES: &[ValueChoice] = &[
    ValueChoice {
        name: "maps",
        value_name: Some("MAPS"),
        help: "The text that fills the maps before the first frame",
    },
    ValueChoice {
        name: "limit",
        value_name: Some("N"),
        help: "The most steps of a frame's run, 1 to 1000000 [default: 1000000]",
    },
];

const HITS_CHOICES: &[ValueChoice] = &[ValueChoice {
    name: "format",
    value_name: Some("FORMAT"),
    help: "How the counts are written: text, csv or json [default: text]",
}];

const FRAME: ValueChoice = ValueChoice {
    name: "frame",
    value_name: Some("K"),
    help: "The number of the frame, from 0 on as in reports",
};

const STEPS_CHOICES: &[ValueChoice] = &[ValueChoice {
    name: "json",
    value_name: None,
    help: "Prints one JSON object, in place of text",
}];

// A command that runs an image on a frame stream.
fn run<'a>(
    alloc: Global,
    name: &'static str,
    about: &'static str,
) -> Result<Command<'a>, AllocError> {
    let looking = look(alloc, name, about)?;
    let frames = Arg::new(alloc, "frames")
        .required(true)
        .action(ArgAction::Set)
        .help("The frame stream");
    with_options(alloc, looking.arg(frames), RUN_CHOICES)
}

/// The command for the counts.
pub fn hits<'a>(alloc: Global) -> Result<Command<'a>, AllocError> {
    with_options(alloc, run(alloc, "hits", HITS_ABOUT), HITS_CHOICES)
}

/// The command for one frame's steps.
pub fn steps<'a>(alloc: Global) -> Result<Command<'a>, AllocError> {
    let running = run(alloc, "steps", STEPS_ABOUT)?;
    let frame = option(alloc, FRAME).required(true);
    with_options(alloc, running.arg(frame), STEPS_CHOICES)
}
