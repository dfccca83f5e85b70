//! The command line as a command of `clap`.

ghost use Rattle.std.specs.Prelude.{◌≡◌, IfOk, MatchResult, false};
ghost use Rattle.clap.specs.Words.{app_of, with_rule, with_subcommand};
ghost use Rattle.clap.specs.declared.builder.command.Command.TheViews.{out-Command as fields_of};
ghost use Rattle.rept_opening.specs.Words.CommandLine.{needed, other, plain_app, bare_app, files_app, maps_app, self_app, rept_app};

use clap::{Arg, ArgAction, Command};
use rept_word::OutOfMemory;
use std::alloc::Global;

/// A command of this name without help, which has no words yet.
fn plain_command<'a>(alloc: Global, name: &'a str) -> Command<'a>
    ensures app { app_of result ≡ plain_app name.now }
    ensures local { (fields_of result).has_globals ≡ false }
{
    Command::new(alloc, name).disable_help_flag(true)
}

/// The command with one word more, which has to be there.
fn with_needed<'a>(
    alloc: Global,
    command: Command<'a>,
    id: &'a str,
) -> Result<Command<'a>, OutOfMemory>
    requires { (fields_of command).has_globals ≡ false }
    ensures app { IfOk result (λ c. app_of c ≡ with_rule (app_of command.entry) (needed id.entry.now)) }
    ensures local { IfOk result (λ c. (fields_of c).has_globals ≡ false) }
{
    command.arg(Arg::new(alloc, id).required(true).action(ArgAction::Set))
}

/// The command with one word more, which may be left out.
fn with_other<'a>(
    alloc: Global,
    command: Command<'a>,
    id: &'a str,
) -> Result<Command<'a>, OutOfMemory>
    requires { (fields_of command).has_globals ≡ false }
    ensures app { IfOk result (λ c. app_of c ≡ with_rule (app_of command.entry) (other id.entry.now)) }
    ensures local { IfOk result (λ c. (fields_of c).has_globals ≡ false) }
{
    command.arg(Arg::new(alloc, id).action(ArgAction::Set))
}

/// A command of this name whose words are the files of a crash, and maybe a packet's number.
fn files_command<'a>(alloc: Global, name: &'a str) -> Result<Command<'a>, OutOfMemory>
    ensures app { IfOk result (λ c. app_of c ≡ files_app name.entry.now) }
    ensures local { IfOk result (λ c. (fields_of c).has_globals ≡ false) }
{
    let command = with_needed(alloc, plain_command(alloc, name), "exe")?;
    let command = with_needed(alloc, command, "core")?;
    let command = with_needed(alloc, command, "trace")?;
    with_other(alloc, command, "from")
}

/// The command `maps`, whose words are a core file and a trace, and maybe a packet's number.
fn maps_command<'a>(alloc: Global) -> Result<Command<'a>, OutOfMemory>
    ensures app { IfOk result (λ c. app_of c ≡ maps_app) }
    ensures local { IfOk result (λ c. (fields_of c).has_globals ≡ false) }
{
    let command = with_needed(alloc, plain_command(alloc, "maps"), "core")?;
    let command = with_needed(alloc, command, "trace")?;
    with_other(alloc, command, "from")
}

/// The command `self`, whose words are a seed and a count of steps.
fn self_command<'a>(alloc: Global) -> Result<Command<'a>, OutOfMemory>
    ensures app { IfOk result (λ c. app_of c ≡ self_app) }
    ensures local { IfOk result (λ c. (fields_of c).has_globals ≡ false) }
{
    let command = with_needed(alloc, plain_command(alloc, "self"), "seed")?;
    with_needed(alloc, command, "steps")
}

/// The program without its subcommands: it has no help of its own, and no name before the words.
fn bare_command<'a>(alloc: Global) -> Command<'a>
    ensures { app_of result ≡ bare_app }
{
    plain_command(alloc, "rept")
        .no_binary_name(true)
        .disable_help_subcommand(true)
        .subcommand_required(true)
}

/// The program with one subcommand more, where that could be made.
fn with_command<'a>(
    program: Command<'a>,
    command: Result<Command<'a>, OutOfMemory>,
) -> Result<Command<'a>, OutOfMemory>
    requires { IfOk command (λ c. (fields_of c).has_globals ≡ false) }
    ensures { IfOk result (λ r. MatchResult command.entry (λ c. app_of r ≡ with_subcommand (app_of program.entry) (app_of c).top) (λ _. ⊥)) }
{
    program.subcommand(command?)
}

/// The command `rept`, with the subcommands `open`, `bits`, `infer`, `maps` and `self`, whose words
/// go by their places. It has no help of its own.
pub fn rept_command<'a>(alloc: Global) -> Result<Command<'a>, OutOfMemory>
    ensures { IfOk result (λ c. app_of c ≡ rept_app) }
{
    let program = with_command(bare_command(alloc), files_command(alloc, "open"))?;
    let program = with_command(program, files_command(alloc, "bits"))?;
    let program = with_command(program, files_command(alloc, "infer"))?;
    let program = with_command(program, maps_command(alloc))?;
    with_command(program, self_command(alloc))
}
