//! Tests command lines whose jobs differ only beyond the limits, and lines without a file.
use dapnorm::{Job, UsageFault, job};
use std::alloc::Global;

/// Arguments, and the job that they select.
const JOBS: [(&[&str], Job<'static>); 4] = [
    (
        &["dapnorm", "check"],
        Job::Check {
            complete: false,
            per_stop: false,
        },
    ),
    (
        &["dapnorm", "check", "--complete"],
        Job::Check {
            complete: true,
            per_stop: false,
        },
    ),
    (
        &["dapnorm", "check", "--per-stop"],
        Job::Check {
            complete: false,
            per_stop: true,
        },
    ),
    (
        &["dapnorm", "check", "--per-stop", "--complete"],
        Job::Check {
            complete: true,
            per_stop: true,
        },
    ),
];

fn is_job(alloc: Global, words: &[&str], wanted: &Job) -> bool {
    matches!(job(alloc, words), Ok(found) if found == *wanted)
}

#[test]
fn words_that_are_a_job(rt: HostRuntime) {
    for (words, wanted) in &JOBS {
        assert!(rt; is_job(rt.alloc(), words, wanted), "{wanted:?}");
    }
}

/// Arguments without a required file.
const MISSING: [&[&str]; 3] = [
    &["dapnorm", "compare"],
    &["dapnorm", "compare", "a.rec"],
    &["dapnorm", "compare", "--per-stop", "a.rec"],
];

fn is_usage_error(alloc: Global, words: &[&str]) -> bool {
    matches!(job(alloc, words), Err(UsageFault::Usage(_)))
}

#[test]
fn words_without_a_file_are_no_job(rt: HostRuntime) {
    for words in &MISSING {
        assert!(rt; is_usage_error(rt.alloc(), words), "{words:?}");
    }
}
