// What is timed, by its words.
ghost use Rattle.std.specs.Prelude.{◌≡◌, ◌≢◌, None, IfSome};
ghost use Rattle.join_bench.specs.Word.{word_of};
ghost use Rattle.join_bench.specs.declared.job.Job.{Job};

/// A job: the join of two files by their first columns, or the first of equal rows of one file.
#[derive(Clone, Copy, Debug, PartialEq, Eq)]
pub(crate) enum Job {
    Join,
    Unique,
}

/// The job of a word.
pub(crate) fn named(word: &str) -> Option<Job>
    ensures some { IfSome result (λ j. word.now ≡ word_of j) }
    ensures none { result ≡ None → (j : Job) → word.now ≢ word_of j }
{
    match word {
        "join" => Some(Job::Join),
        "unique" => Some(Job::Unique),
        _ => None,
    }
}
