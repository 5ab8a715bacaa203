//! Which function does each task.

ghost use Rattle.std.specs.Prelude.{Some, option_map};
ghost use Rattle.words.specs.Requests.{Run, files_of, request_of};
ghost use Rattle.xdpvm.specs.Serving.{Serves, ServesTold};

use super::codes::explain_code;
use super::proving::prove_file;
use commands::{
    Ending, assemble_file, disassemble_file, recheck_file, run_shown, run_verified, trace,
    verify_file,
};
use std::alloc::Global;
use std::io::Write;
use std::rt::{Clock, Files};
use words::{RunPaths, Task};

// Runs a program after verifying it, or after testing its table if one is given.
fn run<'a, R: Files + Clock, W: Write>(
    rt: &R,
    alloc: Global,
    paths: RunPaths<'a>,
    table: Option<&'a str>,
    out: &mut W,
) -> Ending<'a>
    ensures { Serves (Some (Run (files_of paths.entry) (option_map (λ path. path.now) table.entry)))
        (W.contents out.old) (W.contents out.new) result }
{
    match table {
        None => run_verified(rt, alloc, paths, out),
        Some(table) => run_shown(rt, alloc, paths, table, out),
    }
}

/// Does a task. Files are opened by their paths, `out` is standard output, and `err` is standard
/// error, to which `prove` writes before the message.
pub fn serve<'a, R: Files + Clock, W1: Write, W2: Write>(
    rt: &R,
    alloc: Global,
    task: Task<'a>,
    out: &mut W1,
    err: &mut W2,
) -> Ending<'a>
    ensures { ServesTold (Some (request_of task.entry)) (W1.contents out.old) (W1.contents out.new)
        (W2.contents err.old) (W2.contents err.new) result }
{
    match task {
        Task::Trace(paths, limit) => trace(rt, alloc, paths, limit, out),
        Task::Run(paths, table) => run(rt, alloc, paths, table, out),
        Task::Verify(path) => verify_file(rt, alloc, path, out),
        Task::Prove(paths) => prove_file(rt, alloc, paths, out, err),
        Task::Recheck(paths) => recheck_file(rt, alloc, paths, out),
        Task::Assemble(paths) => assemble_file(rt, alloc, paths, out),
        Task::Disassemble(path) => Ending {
            outcome: disassemble_file(rt, alloc, path, out),
            why: None,
        },
        Task::Explain(code) => Ending {
            outcome: explain_code(code, out),
            why: None,
        },
    }
}
