// The command line: `polipo [-c FILE] [-g SEED] [name=value ...]`.
ghost use Rattle.std.specs.Prelude.{◌≡◌, ◌⊎◌, [], true, false, map, Option, IfOk, OnOk, IfErr, is_some, filter_map, ◌++◌, option_map, string_bytes, codes};
ghost use Rattle.clap.specs.Words.{app_of, rows_of, found_of, fault_of, matches_of};
ghost use Rattle.clap.specs.Walk.{all_of, first_of, is_empty};
ghost use Rattle.pp_conf.specs.Words.{all_assign, assignment_by, has_reading, polipo_app, positionals_in, seed_stands};
ghost use Rattle.pp_conf.specs.Shown.{seed_number, shown_assignment, shown_list, shown_text, shown_words, RefusesWords, ReadsWords};

use crate::assignments::{Assignment, add};
use crate::fault::ConfFault;
use crate::setting::Setting;
use crate::text::halves;
use clap::error::ErrorKind;
use clap::{Arg, ArgAction, ArgMatches, Command};
use pp_text::read_u64;
use std::alloc::{AllocError, Global};

/// What the words say.
#[derive(Drop)]
pub(crate) struct Line<'a> {
    pub file: Option<&'a str>,
    pub seed: Option<u64>,
    pub settings: Vec<Assignment<'a>>,
}

fn make_command<'a>(alloc: Global) -> Result<Command<'a>, AllocError>
    ensures { IfOk result (λ c. app_of c ≡ polipo_app) }
{
    let config = Arg::new(alloc, "config").short('c').action(ArgAction::Set);
    let seed = Arg::new(alloc, "seed").short('g').action(ArgAction::Set);
    let settings = Arg::new(alloc, "settings")
        .action(ArgAction::Append)
        .num_args(0..);
    Ok(
        Command::new(alloc, "polipo")
            .no_binary_name(true)
            .disable_help_flag(true)
            .disable_version_flag(true)
            .arg(config)?
            .arg(seed)?
            .arg(settings)?,
    )
}

/// The matches of the words.
fn parse<'a>(alloc: Global, words: &'a [String]) -> Result<ArgMatches<'a>, ConfFault>
    ensures taken { IfOk result (λ m. fault_of polipo_app (map string_bytes words.now) ≡ []) }
    ensures rows { IfOk result (λ m. rows_of (found_of m) ≡ matches_of polipo_app (map string_bytes words.now)) }
    ensures refused { IfErr result (RefusesWords (is_empty (fault_of polipo_app (map string_bytes words.now)))) }
{
    let command = make_command(alloc)?;
    match command.try_get_matches_from(words) {
        Ok(matches) => Ok(matches),
        Err(error) => {
            if error.kind() == ErrorKind::OutOfMemory {
                Err(ConfFault::OutOfMemory)
            } else {
                Err(ConfFault::Usage)
            }
        }
    }
}

/// What the words say, where they have a reading.
pub(crate) fn read_words<'a>(alloc: Global, words: &'a [String]) -> Result<Line<'a>, ConfFault>
    ensures line { IfOk result (ReadsWords (map string_bytes words.now)) }
    ensures refused { IfErr result (RefusesWords (has_reading (map string_bytes words.now))) }
{
    let matches = parse(alloc, words)?;
    let settings = settings_in(alloc, &matches)?;
    let file = value_in(&matches, "config");
    let seed = value_in(&matches, "seed");
    line_of(file, seed, settings)
}

/// The value of an option of one value.
fn value_in<'a>(matches: &ArgMatches<'a>, id: &str) -> Option<&'a str>
    ensures { shown_text result ≡ first_of id.now (rows_of (found_of matches.now)) }
{
    matches.get_str(id)
}

/// The settings that the positionals assign, each `NAME=VALUE`.
fn settings_in<'a>(
    alloc: Global,
    matches: &ArgMatches<'a>,
) -> Result<Vec<Assignment<'a>>, ConfFault>
    ensures settings { IfOk result (λ v. map shown_assignment v.items ≡ filter_map assignment_by (positionals_in (rows_of (found_of matches.now)))) }
    ensures each { OnOk result (all_assign (positionals_in (rows_of (found_of matches.now))) ≡ true) }
    ensures refused { IfErr result (RefusesWords (all_assign (positionals_in (rows_of (found_of matches.now))))) }
{
    let mut settings = Vec::new(alloc);
    match positionals_in(matches) {
        Some(positionals) => {
            read_settings(positionals, &mut settings)?;
            Ok(settings)
        }
        None => Ok(settings),
    }
}

/// The words that are no options.
fn positionals_in<'m, 'a>(matches: &'m ArgMatches<'a>) -> Option<&'m [&'a str]>
    ensures { shown_list result ≡ all_of (codes "settings") (rows_of (found_of matches.now)) }
{
    matches.get_strs("settings")
}

/// Adds the settings of the positionals.
fn read_settings<'a>(
    positionals: &[&'a str],
    settings: &mut Vec<Assignment<'a>>,
) -> Result<(), ConfFault>
    ensures settings { OnOk result (map shown_assignment settings.new.items ≡ map shown_assignment settings.old.items ++ filter_map assignment_by (shown_words positionals.now)) }
    ensures each { OnOk result (all_assign (shown_words positionals.now) ≡ true) }
    ensures refused { IfErr result (RefusesWords (all_assign (shown_words positionals.now))) }
{
    for word in positionals {
        match assignment_by(word.as_bytes()) {
            Some(assignment) => add(settings, assignment)?,
            None => return Err(ConfFault::Usage),
        }
    }
    Ok(())
}

/// The setting that a word assigns.
fn assignment_by(word: &[u8]) -> Option<Assignment<'_>>
    ensures { option_map shown_assignment result ≡ assignment_by word.now }
{
    let (name, value) = halves(word)?;
    let setting = Setting::named(name)?;
    Some(Assignment { setting, value })
}

/// The line of these values, where they may stand together.
fn line_of<'a>(
    file: Option<&'a str>,
    seed: Option<&'a str>,
    settings: Vec<Assignment<'a>>,
) -> Result<Line<'a>, ConfFault>
    ensures same { IfOk result (λ l. (shown_text l.file ≡ shown_text file.entry) × (l.seed ≡ seed_number (shown_text seed.entry)) × (map shown_assignment l.settings.items ≡ map shown_assignment settings.entry.items)) }
    ensures stands { OnOk result (seed_stands (shown_text file.entry) (map shown_assignment settings.entry.items) (shown_text seed.entry) ≡ true) }
    ensures refused { IfErr result (RefusesWords (seed_stands (shown_text file.entry) (map shown_assignment settings.entry.items) (shown_text seed.entry))) }
{
    let Some(seed) = seed else {
        return Ok(Line {
            file,
            seed: None,
            settings,
        });
    };
    let Some(number) = read_u64(seed.as_bytes()) else {
        return Err(ConfFault::Usage);
    };
    if file.is_some() || !settings.is_empty() {
        return Err(ConfFault::Usage);
    }
    Ok(Line {
        file: None,
        seed: Some(number),
        settings,
    })
}
