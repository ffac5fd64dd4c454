// What is timed, by its words.
ghost use Rattle.std.specs.Prelude.{◌≡◌, ◌≢◌, None, IfSome};
ghost use Rattle.source_bench.specs.Word.{word_of};
ghost use Rattle.source_bench.specs.declared.job.Job.{Job};

/// A job. Each does what the ones above it do once, and then its own.
#[derive(Clone, Copy, Debug, PartialEq, Eq)]
pub(crate) enum Job {
    /// The source that the file makes.
    Source,
    /// All its rows, one after the other.
    Cells,
    /// The bytes of all its rows.
    Write,
}

/// The job of a word.
pub(crate) fn named(word: &str) -> Option<Job>
    ensures some { IfSome result (λ j. word.now ≡ word_of j) }
    ensures none { result ≡ None → (j : Job) → word.now ≢ word_of j }
{
    match word {
        "source" => Some(Job::Source),
        "cells" => Some(Job::Cells),
        "write" => Some(Job::Write),
        _ => None,
    }
}
