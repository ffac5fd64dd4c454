// What is timed, by its words.
ghost use Rattle.std.specs.Prelude.{◌≡◌, ◌≢◌, None, IfSome};
ghost use Rattle.function_bench.specs.Word.{word_of};
ghost use Rattle.function_bench.specs.declared.job.Job.{Job};

/// A job: the calls on all rows, or the call on the first row alone, whose answer is added for each row. The time of the
/// second is that of reading and adding.
#[derive(Clone, Copy, Debug, PartialEq, Eq)]
pub(crate) enum Job {
    Each,
    First,
}

/// The job of a word.
pub(crate) fn named(word: &str) -> Option<Job>
    ensures some { IfSome result (λ j. word.now ≡ word_of j) }
    ensures none { result ≡ None → (j : Job) → word.now ≢ word_of j }
{
    match word {
        "each" => Some(Job::Each),
        "first" => Some(Job::First),
        _ => None,
    }
}
