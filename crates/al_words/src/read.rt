ghost use Rattle.std.specs.Prelude.{◌≡◌, Some, None, map, IfOk, option_map, is_some, if◌then◌else◌};
ghost use Rattle.clap.specs.Walk.{rows_of, first_of};
ghost use Rattle.clap.specs.Words.{found_of};
ghost use Rattle.al_words.specs.Job as spec;
ghost use Rattle.al_words.specs.Job.{job_of, job_given, in_mode, given_by, IsReadOf};

use crate::command::line;
use crate::job::{Job, Mode, Name};
use crate::number::number_in;
use crate::stop::{WordsFault, WordsStop};
use clap::ArgMatches;
use clap::error::ErrorKind;
use std::alloc::{AllocError, Global};

fn mode_of(word: &str) -> Option<Mode>
    ensures { result ≡ spec.mode_of word.now }
{
    match word {
        "run" => Some(Mode::Run),
        "replay" => Some(Mode::Replay),
        "record" => Some(Mode::Recorded),
        "build" => Some(Mode::Build),
        "exec" => Some(Mode::Exec),
        "check" => Some(Mode::Check),
        "sample" => Some(Mode::Sample),
        "race" => Some(Mode::Race),
        "step" => Some(Mode::Step),
        "link" => Some(Mode::Link),
        _ => None,
    }
}

fn files_of(mode: Mode) -> u8
    ensures { result ≡ spec.files_of mode }
{
    match mode {
        Mode::Sample => 0,
        Mode::Replay | Mode::Race | Mode::Step => 2,
        _ => 1,
    }
}

/// The number that is given, or the one that holds where none is.
fn number_or(default: u64, least: u64, most: u64, text: Option<&str>) -> Option<u64>
    ensures { result ≡ spec.number_or default least most (option_map (λ t. t.now) text.entry) }
{
    match text {
        None => Some(default),
        Some(text) => number_in(least, most, text),
    }
}

/// What stood for one part of the line.
#[tactic(auto, using(crate::proofs::Rows::got))]
fn given<'a>(matches: &ArgMatches<'a>, id: &str) -> Option<&'a str>
    ensures { option_map (λ t. t.now) result ≡ first_of id.now (rows_of (found_of matches.now)) }
{
    matches.get_str(id)
}

fn count(name: Option<&str>) -> u8
    ensures { result ≡ (if is_some name.entry then 1 else 0) }
{
    match name {
        None => 0,
        Some(_) => 1,
    }
}

fn name_or_empty(alloc: Global, name: Option<&str>) -> Result<Name, AllocError>
    ensures { IfOk result (λ n. n ≡ spec.name_or_empty (option_map (λ t. t.now) name.entry)) }
{
    match name {
        None => Ok(Name::new(String::new(alloc))),
        Some(name) => Ok(Name::new(String::from_str(alloc, name)?)),
    }
}

const NO_JOB: WordsStop = WordsStop::Fault(WordsFault);

fn job_in(alloc: Global, matches: &ArgMatches<'_>, mode: Mode) -> Result<Job, WordsStop>
    ensures { IsReadOf (in_mode (given_by (rows_of (found_of matches.now))) mode) result }
{
    let file = given(matches, "file");
    let schedule = given(matches, "schedule");
    if count(file) + count(schedule) != files_of(mode) {
        return Err(NO_JOB);
    }
    let Some(workers) = number_or(4, 1, 64, given(matches, "workers")) else {
        return Err(NO_JOB);
    };
    let Some(entries) = number_or(4194304, 1, 67108864, given(matches, "entries")) else {
        return Err(NO_JOB);
    };
    let Some(region) = number_or(16, 1, 256, given(matches, "region")) else {
        return Err(NO_JOB);
    };
    let Some(number) = number_or(0, 0, 4294967295, given(matches, "number")) else {
        return Err(NO_JOB);
    };
    Ok(Job {
        mode,
        file: name_or_empty(alloc, file)?,
        schedule: name_or_empty(alloc, schedule)?,
        workers: workers as u8,
        entries,
        region: region as u32,
        number: number as u32,
    })
}

fn job_given_by(alloc: Global, matches: &ArgMatches<'_>) -> Result<Job, WordsStop>
    ensures { IsReadOf (job_given (given_by (rows_of (found_of matches.now)))) result }
{
    match given(matches, "mode") {
        None => Err(NO_JOB),
        Some(word) => match mode_of(word) {
            None => Err(NO_JOB),
            Some(mode) => job_in(alloc, matches, mode),
        },
    }
}

/// The job that the words after the program's name are.
pub fn read_job<'a>(alloc: Global, words: &'a [&'a str]) -> Result<Job, WordsStop>
    ensures { IsReadOf (job_of (map (λ w. w.now) words.entry.now)) result }
{
    match line(alloc)?.try_get_matches_from(words) {
        Ok(matches) => job_given_by(alloc, &matches),
        Err(error) => match error.kind() {
            ErrorKind::OutOfMemory => Err(WordsStop::NoMemory),
            _ => Err(NO_JOB),
        },
    }
}
