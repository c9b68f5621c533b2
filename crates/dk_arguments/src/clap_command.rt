// The command as `clap` knows it.
ghost use Rattle.std.specs.Prelude.{◌≡◌, [], false, IfOk};
ghost use Rattle.clap.specs.Words.{app_of, rule_of, with_rule};
ghost use Rattle.dk_arguments.specs.Commands.{app_of_command, app_with, option_rule, rule_for};
ghost use Rattle.dk_arguments.specs.Descriptions.{argument_of, described};

use crate::{Argument, Description, Form};
use clap::builder::ValueParser;
use clap::{Arg, ArgAction, Command};
use dk_base::NoMemory;
use std::alloc::Global;

// The option of this name that takes a value.
fn option<'a>(alloc: Global, name: &'a str) -> Arg<'a>
    ensures rule { rule_of result ≡ option_rule name.entry.now }
    ensures local { result.global ≡ false }
{
    Arg::new(alloc, name).long(name).action(ArgAction::Set)
}

// The argument as `clap` knows it.
fn clap_argument<'a>(alloc: Global, argument: Argument) -> Arg<'a>
    ensures rule { rule_of result ≡ rule_for (argument_of argument) }
    ensures local { result.global ≡ false }
{
    let name = argument.name;
    match argument.form {
        Form::Flag => Arg::new(alloc, name).long(name).action(ArgAction::SetTrue),
        Form::Text => option(alloc, name),
        Form::Number { least, most } => {
            option(alloc, name).value_parser(ValueParser::unsigned(least, most))
        }
        Form::OneOf(_) => option(alloc, name),
        Form::Positional => Arg::new(alloc, name).required(true).action(ArgAction::Set),
        Form::Positionals { required } => Arg::new(alloc, name)
            .required(required)
            .action(ArgAction::Append),
    }
}

fn with_argument<'a>(command: Command<'a>, argument: Arg<'a>) -> Result<Command<'a>, NoMemory>
    requires { argument.global ≡ false }
    ensures { IfOk result (λ next. app_of next ≡ with_rule (app_of command.entry) (rule_of argument.entry)) }
{
    Ok(command.arg(argument)?)
}

// The command without arguments.
fn bare<'a>(alloc: Global, description: &Description) -> Command<'a>
    ensures { app_of result ≡ app_with description.now.name.now [] }
{
    Command::new(alloc, description.name).version(description.version)
}

/// The command with its arguments.
pub(crate) fn clap_command<'a>(
    alloc: Global,
    description: &Description,
) -> Result<Command<'a>, NoMemory>
    ensures { IfOk result (λ command. app_of command ≡ app_of_command (described description.now)) }
{
    let mut command = bare(alloc, description);
    for argument in description.arguments {
        command = with_argument(command, clap_argument(alloc, *argument))?;
    }
    Ok(command)
}
