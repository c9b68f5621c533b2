// Descriptions of commands.

/// How an argument is given. An option stands at most once.
#[derive(Clone, Copy, Debug)]
pub enum Form {
    /// The option `--NAME`, without a value.
    Flag,
    /// The option `--NAME TEXT` or `--NAME=TEXT`, with any text.
    Text,
    /// The option `--NAME N` or `--NAME=N`, where N is the decimal form of a number from `least` to `most`, maybe with a plus in front.
    Number { least: u64, most: u64 },
    /// The option `--NAME WORD` or `--NAME=WORD`, where WORD is one of these.
    OneOf(&'static [&'static str]),
    /// A word by its place among those that are no options. It has to be given.
    Positional,
    /// All words from its place on that are no options. It is the last positional; where it is required, one word at least has to be given.
    Positionals { required: bool },
}

/// How a count of samples, blocks or records is given: as a number from 1 to 1,000,000,000.
pub const COUNT: Form = Form::Number {
    least: 1,
    most: 1_000_000_000,
};

/// An argument that a command accepts.
#[derive(Clone, Copy, Debug)]
pub struct Argument {
    /// The name of the option without its two hyphens, or what the program calls the positional.
    pub name: &'static str,
    pub form: Form,
}

/// A command: its name, what it accepts, and the texts that tell of it. `-h`, `--help`, `-V`, `--version` and `--` need no argument here.
#[derive(Clone, Copy, Debug)]
pub struct Description {
    pub name: &'static str,
    /// The positionals stand in the order in which they are given.
    pub arguments: &'static [Argument],
    /// The line on Messages where the arguments are refused.
    pub usage: &'static str,
    /// The text on Report where they ask for help.
    pub help: &'static str,
    /// The text on Report where they ask for the version.
    pub version: &'static str,
}
