//! The options of `solve`, as the parser of command lines reads them.
ghost use Rattle.std.specs.Prelude.{◌≡◌, ◌<◌, IfErr, IfOk, IsSome, MatchResult, Some, drop, map, option_and_then};
ghost use Rattle.std.specs.String.{string_bytes};
ghost use Rattle.clap.specs.Words.{app_of, first_value, found_of, kind_of, with_rule};
ghost use Rattle.lp_words.specs.declared.given.Given.{Given};
ghost use Rattle.lp_words.specs.Inner.{HasOptions, flag, number, option_app};
ghost use Rattle.lp_words.specs.Words.{given_of, number_from_to};

use crate::fault::WordsFault;
use crate::given::Given;
use crate::number::number;
use clap::error::ErrorKind;
use clap::{Arg, ArgAction, ArgMatches, Command, Error};
use std::alloc::{AllocError, Global};

// The options that the words after the first give.
pub fn given(alloc: Global, words: &[String]) -> Result<Given, WordsFault>
    requires { IsSome (given_of (drop 1 (map string_bytes words.now))) }
    ensures { MatchResult result (λ given. given_of (drop 1 (map string_bytes words.now)) ≡ Some given) (λ fault. fault ≡ WordsFault.Memory) }
{
    match parsed(alloc, words) {
        Ok(matches) => Ok(read(&matches)),
        Err(_) => Err(WordsFault::Memory),
    }
}

// The parse of the words. It fails for want of memory alone.
fn parsed<'a>(alloc: Global, words: &'a [String]) -> Result<ArgMatches<'a>, Error>
    requires { IsSome (given_of (drop 1 (map string_bytes words.now))) }
    ensures ok { (given : Given) → given_of (drop 1 (map string_bytes words.entry.now)) ≡ Some given → IfOk result (λ matches. HasOptions given matches) }
    ensures err { IfErr result (λ fault. kind_of fault ≡ ErrorKind.OutOfMemory) }
{
    let command = command(alloc)?;
    command.try_get_matches_from(words)
}

// The command with the options.
fn command<'a>(alloc: Global) -> Result<Command<'a>, AllocError>
    ensures { IfOk result (λ command. app_of command ≡ option_app) }
{
    let bare = Command::new(alloc, "solve");
    let one = with_number(alloc, bare, "workers")?;
    let two = with_number(alloc, one, "reinverters")?;
    let three = with_number(alloc, two, "budget")?;
    let four = with_number(alloc, three, "report")?;
    let five = with_flag(alloc, four, "log")?;
    with_flag(alloc, five, "free")
}

// The command with one more option, which takes a number.
fn with_number<'a>(
    alloc: Global,
    command: Command<'a>,
    name: &'a str,
) -> Result<Command<'a>, AllocError>
    ensures { IfOk result (λ more. app_of more ≡ with_rule (app_of command.entry) (number name.entry.now)) }
{
    let option = Arg::new(alloc, name).long(name);
    command.arg(option)
}

// The command with one more flag.
fn with_flag<'a>(
    alloc: Global,
    command: Command<'a>,
    name: &'a str,
) -> Result<Command<'a>, AllocError>
    ensures { IfOk result (λ more. app_of more ≡ with_rule (app_of command.entry) (flag name.entry.now)) }
{
    let option = Arg::new(alloc, name).long(name).action(ArgAction::SetTrue);
    command.arg(option)
}

// The options that the matches have.
fn read(matches: &ArgMatches) -> Given
    ensures { (given : Given) → HasOptions given matches.now → result ≡ given }
{
    Given {
        workers: number_of(matches, "workers", 0, 64),
        reinverters: number_of(matches, "reinverters", 0, 8),
        budget: number_of(matches, "budget", 0, 1_000_000),
        report: number_of(matches, "report", 1, 2),
        log: matches.get_flag("log"),
        free: matches.get_flag("free"),
    }
}

// The number that the matches have of this option, if it is one from the least to the most.
fn number_of(matches: &ArgMatches, name: &str, least: u32, most: u32) -> Option<u32>
    requires { most < 10000000 }
    ensures { result ≡ option_and_then (number_from_to least most) (first_value (found_of matches.now) name.now) }
{
    number(matches.get_str(name)?, least, most)
}
