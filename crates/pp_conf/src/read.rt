// From words and text to settings.
ghost use Rattle.std.specs.Prelude.{◌≡◌, ◌<◌, ◌≤◌, ◌++◌, true, map, length, string_bytes};
ghost use Rattle.pp_conf.specs.Conf.{settings_of};
ghost use Rattle.pp_conf.specs.Words.{or_out_of_range, reading_of};
ghost use Rattle.pp_conf.specs.Shown.{Answers, AnswersFile, shown_assignment, shown_conf, shown_draft, shown_settled, shown_text, shown_file};

use crate::assignments::Assignment;
use crate::command::read_words;
use crate::conf::{Conf, Draft};
use crate::fault::ConfFault;
use crate::setting::Setting;
use crate::text::read_text;
use std::alloc::Global;

/// The most bytes of a configuration's text.
pub const MAX_TEXT: usize = 65_536;

/// What the program is to do.
#[derive(Drop)]
pub enum Command {
    /// Serve with these settings.
    Serve(Conf),
    /// Show the demo of this seed.
    Demo(u64),
}

/// The FILE of `-c`: None exactly without it. The faults are `Usage` and `OutOfMemory`.
pub fn config_name(alloc: Global, words: &[String]) -> Result<Option<String>, ConfFault>
    ensures { AnswersFile (map string_bytes words.now) (shown_file result) }
{
    let line = read_words(alloc, words)?;
    match line.file {
        Some(file) => Ok(Some(String::from_str(alloc, file)?)),
        None => Ok(None),
    }
}

impl Conf {
    /// What the words and the text of the configuration say, the words after the text. The fault is the first
    /// that applies, in the order of `ConfFault`.
    pub fn read(alloc: Global, words: &[String], text: Option<&[u8]>) -> Result<Command, ConfFault>
        ensures { Answers result (reading_of (map string_bytes words.now) (shown_text text.entry)) }
    {
        let line = read_words(alloc, words)?;
        if let Some(seed) = line.seed {
            return Ok(Command::Demo(seed));
        }
        let mut assignments = Vec::new(alloc);
        if let Some(text) = text {
            if text.len() > MAX_TEXT {
                return Err(ConfFault::TooLong);
            }
            read_text(text, &mut assignments)?;
        }
        assignments.extend_from_slice(line.settings.as_slice())?;
        serve(alloc, assignments.as_slice())
    }
}

/// The settings of the assignments, or the one that is refused.
fn serve(alloc: Global, assignments: &[Assignment<'_>]) -> Result<Command, ConfFault>
    ensures { Answers result (or_out_of_range (settings_of (map shown_assignment assignments.now))) }
{
    match settle(assignments) {
        Ok(draft) => Ok(Command::Serve(draft.keep(alloc)?)),
        Err(setting) => Err(ConfFault::BadValue(setting)),
    }
}

/// What the assignments set, or the first setting that is refused.
fn settle<'a>(assignments: &[Assignment<'a>]) -> Result<Draft<'a>, Setting>
    ensures { shown_settled result ≡ settings_of (map shown_assignment assignments.now) }
{
    let mut draft = Draft::new();
    for assignment in assignments {
        if !assignment.setting.accepts(assignment.value) {
            return Err(assignment.setting);
        }
        draft.set(assignment.setting, assignment.value);
    }
    match draft.misfit() {
        Some(setting) => Err(setting),
        None => Ok(draft),
    }
}
