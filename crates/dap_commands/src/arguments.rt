//! Describes a command line by values, and defines it for `clap`.
ghost use Rattle.std.specs.Prelude.{◌≡◌, IfOk};
ghost use Rattle.clap.specs.Words.{app_of};
ghost use Rattle.dap_commands.specs.Arguments.{IsArgument, IsSubcommand, app_for, rule_for};
ghost use Rattle.dap_commands.specs.Arguments.{shape_for};

use clap::{Arg, ArgAction, Command};
use std::alloc::{AllocError, Global};

/// The version of the program, and the profile that it checks recordings against.
const VERSION: &str = "0.1.0 (profile of 188 rows)";

/// An argument of a subcommand: its name, its kind and its help.
#[derive(Clone, Copy)]
pub(crate) struct Argument<'a>(pub(crate) &'a str, pub(crate) Kind<'a>, pub(crate) &'a str);

/// A kind of argument. An option contains the name of its value.
#[derive(Clone, Copy)]
pub(crate) enum Kind<'a> {
    /// A flag, such as `--open`.
    Flag,
    /// An option with a value, such as `--rules RULES`.
    Value(&'a str),
    /// An option with a value that may be given several times, such as `--word TEXT=WORD`.
    Values(&'a str),
    /// An option with a value that also has a letter, such as `-o`, `--output`.
    Lettered(char, &'a str),
    /// A required argument: a file.
    File,
    /// An optional argument.
    Optional,
}

/// A subcommand.
pub(crate) struct Subcommand<'a> {
    pub(crate) name: &'a str,
    pub(crate) about: &'a str,
    pub(crate) example: &'a str,
    pub(crate) arguments: &'a [Argument<'a>],
}

/// A program: its description and its subcommands.
pub(crate) struct Program<'a> {
    pub(crate) about: &'a str,
    pub(crate) subcommands: &'a [Subcommand<'a>],
}

/// Builds a program. A row has the name of a subcommand, its arguments, its description, and the
/// arguments of an example.
macro_rules! define_program {
    (
        $program:literal;
        $($name:literal($($argument:expr),*): $about:literal, $example:literal;)*
    ) => {
        Program {
            about: $program,
            subcommands: &[$(Subcommand {
                name: $name,
                about: $about,
                example: concat!("Example: dapnorm ", $name, " ", $example),
                arguments: &[$($argument),*],
            }),*],
        }
    };
}

pub(crate) use define_program;

/// Returns the definition of an argument.
fn clap_argument<'a>(alloc: Global, argument: Argument<'a>) -> Arg<'a>
    ensures { IsArgument (rule_for argument.entry) result }
{
    let Argument(name, kind, help) = argument;
    let argument = Arg::new(alloc, name).action(ArgAction::Set).help(help);
    match kind {
        Kind::Flag => argument.long(name).action(ArgAction::SetTrue),
        Kind::Value(value) => argument.long(name).value_name(value),
        Kind::Values(value) => argument
            .long(name)
            .value_name(value)
            .action(ArgAction::Append),
        Kind::Lettered(letter, value) => argument.long(name).value_name(value).short(letter),
        Kind::File => argument.required(true),
        Kind::Optional => argument,
    }
}

/// Returns the definition of a subcommand.
fn clap_subcommand<'a>(alloc: Global, row: &Subcommand<'a>) -> Result<Command<'a>, AllocError>
    ensures { IfOk result (IsSubcommand (shape_for row.now)) }
{
    let mut command = Command::new(alloc, row.name)
        .about(row.about)
        .after_help(row.example);
    for argument in row.arguments {
        command = command.arg(clap_argument(alloc, *argument))?;
    }
    Ok(command)
}

/// Returns the definition of a program.
pub(crate) fn clap_program<'a>(
    alloc: Global,
    program: &Program<'a>,
) -> Result<Command<'a>, AllocError>
    ensures { IfOk result (λ c. app_of c ≡ app_for program.now) }
{
    let mut command = Command::new(alloc, "dapnorm")
        .version(VERSION)
        .about(program.about)
        .subcommand_required(true);
    for row in program.subcommands {
        command = command.subcommand(clap_subcommand(alloc, row)?)?;
    }
    Ok(command)
}
