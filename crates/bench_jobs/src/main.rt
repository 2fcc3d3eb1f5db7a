//! Does a job that users wait for, and prints a digest of all its results: `bench_jobs JOB AMOUNT SEED`, where JOB is a name below, or `all`
//! for each of them. The inputs are made as the program runs: AMOUNT says how many, and SEED which. `bench/by_turns` measures with it.
#![tactic(auto)]

mod archive;
mod awkward;
mod changes;
mod devices;
mod digest;
mod failure;
mod history;
mod interleaved;
mod kinds;
mod layout;
mod random;
mod recording;
mod ride;
mod texts;
mod uploads;

use std::alloc::Global;
use std::process::ExitCode;

const USAGE: &str =
    "usage: bench_jobs uploads|history|changes|texts|archive|awkward|devices|all AMOUNT SEED";

/// What users wait for.
static JOBS: [&str; 7] = [
    "uploads", "history", "changes", "texts", "archive", "awkward", "devices",
];

fn main(rt: HostRuntime) -> ExitCode {
    let done = match words(&rt) {
        Ok([job, amount, seed]) => run(&rt, job.as_str(), amount.as_str(), seed.as_str()),
        Err(failure) => Err(failure),
    };
    match done {
        Ok(()) => ExitCode::SUCCESS,
        Err(failure::Failure::Usage) => {
            let _ = eprintln!(rt; "{USAGE}");
            ExitCode::from(2)
        }
        Err(failure) => {
            let _ = eprintln!(rt; "{failure:?}");
            ExitCode::FAILURE
        }
    }
}

/// The words after the program's name, which are three.
fn words(rt: &HostRuntime) -> Result<[String; 3], failure::Failure> {
    let Ok(mut words) = std::env::args(rt) else {
        return Err(failure::Failure::Usage);
    };
    match (
        words.next(),
        words.next(),
        words.next(),
        words.next(),
        words.next(),
    ) {
        (Some(_), Some(job), Some(amount), Some(seed), None) => Ok([job, amount, seed]),
        _ => Err(failure::Failure::Usage),
    }
}

/// Does what the words ask for.
fn run(rt: &HostRuntime, job: &str, amount: &str, seed: &str) -> Result<(), failure::Failure> {
    let (Ok(amount), Ok(seed)) = (amount.parse::<u32>(), seed.parse::<u32>()) else {
        return Err(failure::Failure::Usage);
    };
    let mut count = 0u8;
    for name in JOBS {
        if job == name || job == "all" {
            let digest = do_job(rt.alloc(), name, amount, u64::from(seed))?;
            let _ = println!(rt; "{name} {digest:016x}");
            count = count.saturating_add(1);
        }
    }
    if count == 0 {
        return Err(failure::Failure::Usage);
    }
    Ok(())
}

/// The digest of a job.
fn do_job(alloc: Global, name: &str, amount: u32, seed: u64) -> Result<u64, failure::Failure> {
    match name {
        "uploads" => uploads::run(alloc, amount, seed),
        "history" => history::run(alloc, amount, seed),
        "changes" => changes::run(alloc, amount, seed),
        "texts" => texts::run(alloc, amount, seed),
        "archive" => archive::run(alloc, amount, seed),
        "awkward" => awkward::run(alloc, amount, seed),
        "devices" => devices::run(alloc, amount, seed),
        _ => Err(failure::Failure::Usage),
    }
}
