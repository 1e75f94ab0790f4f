//! The program's words, read by the rules of its command line.

ghost use Rattle.std.specs.Prelude.{
  ◌≡◌,
  ◌∷◌,
  [],
  ◌++◌,
  All,
  IfErr,
  IfOk,
  MatchOption,
  OnOk,
  Some,
  map,
  string_bytes,
};
ghost use Rattle.clap.specs.Words.{FailsBy, kind_of, rows_of, found_of, subcommand_of, subcommand_rows_of};
ghost use Rattle.cw_words.specs.Command.{command_line, command_name};
ghost use Rattle.cw_words.specs.Requests.{
  AreProper,
  Asks,
  IsArgument,
  IsAskedBy,
  IsFaultUnless,
  IsSaidAt,
  IsSaidOf,
  NamesNoCommand,
  asks_table,
  faults,
  value_of,
};
ghost use Rattle.cw_words.specs.NumberOptions.{IsGivenNumber};

use crate::asked::{Options, Request, Said};
use crate::command::{TABLE, command};
use crate::edges::edges_of;
use crate::misused::misuse_text;
use crate::number::{BURDEN, LIMIT, NumberOption, PROCESSORS, TOP, UP_TO, WORKERS, read_number};
use crate::verb::{Verb, mode_of, verb_named};
use clap::error::ErrorKind;
use clap::{ArgMatches, Error};
use cw_model::burden::Burden;
use cw_model::limits::MOST_NUMBER;
use cw_text::Fault;
use std::alloc::Global;

/// Reads the program's words, without the program's own name and without `--explain`, which `take_explain` takes away:
/// the request explains nothing.
///
/// The error is what to say in place of a run: the help, what is wrong with the words, `Arguments`
/// where the limit, the burden, the processors, the functions, the workers or an argument of `main` is no number or out of
/// range, or the word for the edges is neither `spawn` nor `both`; or `Memory`.
pub fn request(alloc: Global, words: &[String]) -> Result<Request, Said>
    ensures ok { IfOk result (Asks (map string_bytes words.now)) }
    ensures why { IfErr result (IsSaidOf (map string_bytes words.now)) }
{
    let matches = match matches_of(alloc, words) {
        Ok(matches) => matches,
        Err(error) => return Err(said_of(alloc, &error, words)),
    };
    let Some((verb, given)) = command_given(&matches) else {
        return Err(Said::Fault(Fault::Arguments));
    };
    let request = asked_by(alloc, verb, given)?;
    Ok(request)
}

// The command that is given, with the matches of its words.
fn command_given<'a, 'b>(words: &'b ArgMatches<'a>) -> Option<(Verb, &'b ArgMatches<'a>)>
    ensures { MatchOption result (NamesNoCommand (subcommand_rows_of words.now))
        (λ p. subcommand_rows_of words.now ≡ Some (command_name p.0, rows_of (found_of p.1.now))) }
{
    let (name, given) = words.subcommand()?;
    let verb = verb_named(name)?;
    Some((verb, given))
}

fn matches_of<'a>(alloc: Global, words: &'a [String]) -> Result<ArgMatches<'a>, Error>
    ensures rows { IfOk result (λ m. subcommand_rows_of m
        ≡ subcommand_of command_line (map string_bytes words.now)) }
    ensures kinds { FailsBy (faults (map string_bytes words.now)) result }
{
    let matches = command(alloc)?.try_get_matches_from(words)?;
    Ok(matches)
}

fn asked_by(alloc: Global, verb: Verb, given: &ArgMatches<'_>) -> Result<Request, Fault>
    ensures ok { IfOk result (IsAskedBy verb (rows_of (found_of given.now))) }
    ensures why { IfErr result (IsFaultUnless (AreProper (rows_of (found_of given.now)))) }
{
    let (
        Some(file),
        Some(limit),
        Some(charge),
        Some(edges),
        Some(processors),
        Some(up_to),
        Some(top),
        Some(workers),
    ) = (
        given.get_str("FILE"),
        number_of(given, LIMIT),
        number_of(given, BURDEN),
        edges_of(given),
        number_of(given, PROCESSORS),
        number_of(given, UP_TO),
        number_of(given, TOP),
        number_of(given, WORKERS),
    ) else {
        return Err(Fault::Arguments);
    };
    let args = args_of(alloc, given.get_strs("ARGS").unwrap_or(&[]))?;
    let file = String::from_str(alloc, file)?;
    let options = Options {
        mode: mode_of(verb, processors, up_to, top),
        limit,
        burden: Burden { charge, edges },
        table: asks_table(given),
    };
    Ok(Request {
        file,
        args,
        options,
        workers,
        explain: false,
    })
}

// Returns whether aligned columns are asked for.
fn asks_table(given: &ArgMatches<'_>) -> bool
    ensures { result ≡ asks_table (rows_of (found_of given.now)) }
{
    match given.get_str(TABLE) {
        Some(text) => text == "true",
        None => false,
    }
}

// The number that is given, or the usual one.
fn number_of(given: &ArgMatches<'_>, option: NumberOption) -> Option<u64>
    ensures { IsGivenNumber (rows_of (found_of given.now)) option result }
{
    let text = given.get_str(option.name).unwrap_or(option.usual);
    read_number(text, option.least, option.most)
}

fn args_of(alloc: Global, texts: &[&str]) -> Result<Vec<i64>, Fault>
    ensures ok { IfOk result (λ v. v.items ≡ map (λ text. value_of text.now) texts.now) }
    ensures digits { OnOk result (All (λ text. IsArgument text.now) texts.now) }
    ensures why { IfErr result (IsFaultUnless (All (λ text. IsArgument text.now) texts.now)) }
{
    let mut args = Vec::new(alloc);
    for text in texts {
        push_arg(&mut args, text)?;
    }
    Ok(args)
}

fn push_arg(args: &mut Vec<i64>, text: &str) -> Result<(), Fault>
    ensures ok { OnOk result (args.new.items ≡ args.old.items ++ value_of text.now ∷ []) }
    ensures digits { OnOk result (IsArgument text.now) }
    ensures why { IfErr result (IsFaultUnless (IsArgument text.now)) }
{
    match read_number(text, 0, MOST_NUMBER) {
        Some(value) => {
            args.push(value as i64)?;
            Ok(())
        }
        None => Err(Fault::Arguments),
    }
}

// The help, or what is wrong with the words.
fn said_of(alloc: Global, error: &Error, words: &[String]) -> Said
    ensures { IsSaidAt (kind_of error.now) result }
{
    let text = match error.to_string(alloc) {
        Ok(text) => text,
        Err(_) => return Said::Fault(Fault::Memory),
    };
    match error.kind() {
        ErrorKind::OutOfMemory => Said::Fault(Fault::Memory),
        ErrorKind::DisplayHelp | ErrorKind::DisplayVersion => Said::Help(text),
        _ => match misuse_text(alloc, text.as_str(), words) {
            Ok(text) => Said::Misuse(text),
            Err(_) => Said::Fault(Fault::Memory),
        },
    }
}
