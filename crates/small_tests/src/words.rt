use al_words::{Job, WordsStop, read_job};
use std::alloc::Global;
use std::process::Abort;
use std::test::Fail;

/// Words, and behind a bar what they name: mode, file, schedule, workers, entries, region and number.
static JOBS: &str = "\
run a | Run <a> <> 4 4194304 16 0
replay a b | Replay <a> <b> 4 4194304 16 0
record a | Recorded <a> <> 4 4194304 16 0
build a | Build <a> <> 4 4194304 16 0
exec a | Exec <a> <> 4 4194304 16 0
check a | Check <a> <> 4 4194304 16 0
sample | Sample <> <> 4 4194304 16 0
race a b | Race <a> <b> 4 4194304 16 0
step a b --number 3 | Step <a> <b> 4 4194304 16 3
link a | Link <a> <> 4 4194304 16 0
run a --workers 1 | Run <a> <> 1 4194304 16 0
run a --workers=64 | Run <a> <> 64 4194304 16 0
--workers 2 run a | Run <a> <> 2 4194304 16 0
run --workers 2 a | Run <a> <> 2 4194304 16 0
run a --entries 1 | Run <a> <> 4 1 16 0
run a --entries=67108864 | Run <a> <> 4 67108864 16 0
run a --region 256 --number=4294967295 | Run <a> <> 4 4194304 256 4294967295
run a --workers 0000000004 | Run <a> <> 4 4194304 16 0
run -- a | Run <a> <> 4 4194304 16 0
-- run --workers | Run <--workers> <> 4 4194304 16 0
run -- --help | Run <--help> <> 4 4194304 16 0
run - | Run <-> <> 4 4194304 16 0
";

/// Words that are no job.
static OTHERS: &str = "\
run
walk a
Run a
run a b
replay a
replay a b c
sample a
step a
link
--help
--version
-h
-V
run a --help
run a --workers
run a --workers 0
run a --workers 65
run a --workers=
run a --workers -1
run a --workers +1
run a --workers 1x
run a --workers 00000000004
run a --workers 1 --workers 1
run a --entries 0
run a --entries 67108865
run a --region 0
run a --region 257
run a --number 4294967296
run a --work 3
run a -x
run a --workers 1 2 3
run a --workers --entries 3
";

/// What a job names.
fn named(alloc: Global, job: &Job) -> Result<String, Fail> {
    let (file, schedule) = (job.file.as_str(), job.schedule.as_str());
    let mode = job.mode;
    let (workers, entries, region, number) = (job.workers, job.entries, job.region, job.number);
    Ok(format!(in alloc; "{mode:?} <{file}> <{schedule}> {workers} {entries} {region} {number}")?)
}

fn is_job(rt: &impl Abort, alloc: Global, line: &str) -> Result<(), Fail> {
    let Some((line, want)) = line.split_once(" | ") else {
        panic!(rt; "no bar: {line}");
    };
    let words: Vec<&str> = line.split(' ').collect(alloc)?;
    match read_job(alloc, words.as_slice()) {
        Ok(job) => assert_eq!(rt; named(alloc, &job)?.as_str(), want, "at {line}"),
        Err(stop) => assert!(rt; false, "{stop:?} at {line}"),
    }
    Ok(())
}

#[test]
fn lines_that_are_jobs(rt: HostRuntime) -> Result<(), Fail> {
    for line in JOBS.lines() {
        is_job(&rt, rt.alloc(), line)?;
    }
    Ok(())
}

fn is_no_job(rt: &impl Abort, alloc: Global, line: &str) -> Result<(), Fail> {
    let words: Vec<&str> = line.split(' ').collect(alloc)?;
    match read_job(alloc, words.as_slice()) {
        Ok(_) => assert!(rt; false, "at {line}"),
        Err(stop) => assert!(rt; matches!(stop, WordsStop::Fault(_)), "at {line}"),
    }
    Ok(())
}

#[test]
fn lines_that_are_no_job(rt: HostRuntime) -> Result<(), Fail> {
    for line in OTHERS.lines() {
        is_no_job(&rt, rt.alloc(), line)?;
    }
    let none: [&str; 0] = [];
    assert!(rt; read_job(rt.alloc(), none.as_slice()).is_err());
    Ok(())
}
