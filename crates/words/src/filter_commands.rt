//! Which command the arguments of xdpvm_filter name.

ghost use Rattle.std.specs.Prelude.{◌≡◌, map};
ghost use Rattle.std.specs.String.{string_bytes};
ghost use Rattle.words.specs.FilterCommands.{command_named, command_of, words_by};

/// A command of xdpvm_filter.
#[derive(Clone, Copy)]
pub enum FilterCommand {
    /// Runs a program. It has no name.
    Filter,
    /// Writes frames again.
    Convert,
    /// Prints frames.
    Show,
}

// The command of this name, if there is one, or else the one without a name.
fn command_named(name: &str) -> FilterCommand
    ensures { result ≡ command_named name.now }
{
    match name {
        "convert" => FilterCommand::Convert,
        "show" => FilterCommand::Show,
        _ => FilterCommand::Filter,
    }
}

/// The command that the first argument names, and its command line: a command with a name stands
/// in the place of the program's name.
pub fn command_in<'a>(words: &'a [String]) -> (FilterCommand, &'a [String])
    ensures command { result.0 ≡ command_of (map string_bytes words.now) }
    ensures words { map string_bytes result.1.now
        ≡ words_by result.0 (map string_bytes words.now) }
{
    if words.len() < 2 {
        return (FilterCommand::Filter, words);
    }
    match command_named(words[1].as_str()) {
        FilterCommand::Filter => (FilterCommand::Filter, words),
        command => (command, &words[1..]),
    }
}
