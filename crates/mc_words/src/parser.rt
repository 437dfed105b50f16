//! The command line as `clap` reads it: the name of a command, and as many words as it takes.

ghost use Rattle.std.specs.Prelude.{◌≡◌, ◌≢◌, true, false, List, [], None, Some, map, option_map, string_bytes, IfOk, IfErr};
ghost use Rattle.std.specs.Prelude.{IfSome};
ghost use Rattle.std.specs.List.{list_all};
ghost use Rattle.clap.specs.Words.{Text, app_of, fault_of, shape_of, subcommand_of, subcommand_rows_of, with_subcommand};
ghost use Rattle.clap.specs.declared.builder.command.Command.TheViews.{out-Command};
ghost use Rattle.mc_words.specs.Asked.{asked, IsNarrow};
ghost use Rattle.mc_words.specs.Given.{Gives};
ghost use Rattle.mc_words.specs.Grammar as stated;
ghost use Rattle.mc_words.specs.Words.{is_plain, command_named, plain_command};

use crate::WordsFault;
use crate::command::{Command, command_named};
use clap::error::ErrorKind;
use clap::{Arg, ArgMatches, Command as Program};
use std::alloc::{AllocError, Global};

/// A subcommand with one argument, which takes exactly this many words.
fn counted<'a>(alloc: Global, name: &'a str, count: usize) -> Result<Program<'a>, AllocError>
    ensures shape { IfOk result (λ command. shape_of command ≡ stated.counted name.now count) }
    ensures local { IfOk result (λ command. (out-Command command).has_globals ≡ false) }
{
    let words = Arg::new(alloc, "words").num_args(count).required(true);
    Program::new(alloc, name).arg(words)
}

/// The program with no subcommand yet.
fn program<'a>(alloc: Global) -> Program<'a>
    ensures { app_of result ≡ stated.program }
{
    Program::new(alloc, "mcol")
        .no_binary_name(true)
        .disable_help_flag(true)
        .disable_help_subcommand(true)
        .disable_version_flag(true)
        .subcommand_required(true)
}

/// One more command.
fn with_command<'a>(
    alloc: Global,
    program: Program<'a>,
    name: &'a str,
    count: usize,
) -> Result<Program<'a>, AllocError>
    ensures { IfOk result (λ command. app_of command ≡ with_subcommand (app_of program.entry) (stated.counted name.now count)) }
{
    let command = counted(alloc, name, count)?;
    program.subcommand(command)
}

/// The commands that lay out no page.
fn with_plain_commands<'a>(alloc: Global, program: Program<'a>) -> Result<Program<'a>, AllocError>
    ensures { IfOk result (λ command. app_of command ≡ stated.with_plain_commands (app_of program.entry)) }
{
    let program = with_command(alloc, program, "rows", 1)?;
    let program = with_command(alloc, program, "rows-check", 2)?;
    let program = with_command(alloc, program, "gen", 2)?;
    with_command(alloc, program, "trial", 2)
}

/// The commands that lay a page out.
fn with_page_commands<'a>(alloc: Global, program: Program<'a>) -> Result<Program<'a>, AllocError>
    ensures { IfOk result (λ command. app_of command ≡ stated.with_page_commands (app_of program.entry)) }
{
    let program = with_command(alloc, program, "layout", 5)?;
    let program = with_command(alloc, program, "check", 6)?;
    let program = with_command(alloc, program, "all", 5)?;
    let program = with_command(alloc, program, "hit", 7)?;
    with_command(alloc, program, "draw", 6)
}

/// The program with its commands.
#[tactic(auto, unfolding(crate::specs::Grammar::grammar))]
fn grammar<'a>(alloc: Global) -> Result<Program<'a>, AllocError>
    ensures { IfOk result (λ command. app_of command ≡ stated.grammar) }
{
    let program = with_plain_commands(alloc, program(alloc))?;
    with_page_commands(alloc, program)
}

/// Why words weren't parsed.
fn fault_for(kind: ErrorKind) -> WordsFault
    ensures { result ≡ WordsFault.Refused → kind ≢ ErrorKind.OutOfMemory }
{
    match kind {
        ErrorKind::OutOfMemory => WordsFault::NoMemory,
        _ => WordsFault::Refused,
    }
}

/// The matches of the words. They are refused only where clap finds a fault in them.
#[tactic(auto, using(crate::proofs::Grammar::grammar_is))]
fn parse<'a>(alloc: Global, words: &'a [String]) -> Result<ArgMatches<'a>, WordsFault>
    ensures ok { IfOk result (λ matches. (fault_of stated.grammar (map string_bytes words.now) ≡ [])
        × (subcommand_rows_of matches ≡ subcommand_of stated.grammar (map string_bytes words.now))) }
    ensures err { IfErr result (λ fault. fault ≡ WordsFault.Refused → fault_of stated.grammar (map string_bytes words.now) ≢ []) }
{
    let Ok(program) = grammar(alloc) else {
        return Err(WordsFault::NoMemory);
    };
    match program.try_get_matches_from(words) {
        Ok(matches) => Ok(matches),
        Err(error) => Err(fault_for(error.kind())),
    }
}

/// What the subcommand that was found asks for.
fn given_command<'a>(matches: &ArgMatches<'a>) -> Option<Command<'a>>
    ensures asked { (name : Text) → (words : List Text) → Gives (subcommand_rows_of matches.now) name words
        → option_map asked result ≡ command_named name words }
    ensures narrow { IfSome result IsNarrow }
{
    let (name, given) = matches.subcommand()?;
    let words = given.get_raw("words")?;
    command_named(name, words)
}

/// What plain words ask for.
#[tactic(auto, using(crate::proofs::Taken::plain_err))]
pub fn read_plain<'a>(alloc: Global, words: &'a [String]) -> Result<Command<'a>, WordsFault>
    requires { list_all is_plain (map string_bytes words.now) ≡ true }
    ensures ok { IfOk result (λ command. plain_command (map string_bytes words.now) ≡ Some (asked command)) }
    ensures narrow { IfOk result IsNarrow }
    ensures err { IfErr result (λ fault. fault ≡ WordsFault.Refused → plain_command (map string_bytes words.now) ≡ None) }
{
    let matches = match parse(alloc, words) {
        Ok(matches) => matches,
        Err(fault) => return Err(fault),
    };
    match given_command(&matches) {
        Some(command) => Ok(command),
        None => Err(WordsFault::Refused),
    }
}
