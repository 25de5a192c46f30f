// Calls and what they give, as values, so that lists of calls can be spoken of.
use crate::controller::Answer;

// What a step answers.
#[derive(Clone, Copy, Debug, PartialEq, Eq)]
pub enum StepOutcome {
    Moved,
    Waiting,
    Finished,
}

// A call on a board that is set up, with any numbers and keys. The code of a start stays a byte: a
// caller may give any number, and one outside 1 to 6 is refused.
#[derive(Clone, Copy, Debug, PartialEq, Eq)]
pub enum Call<K> {
    Start { who: usize, code: u8, u: K, v: K },
    Step { who: usize },
    Collect { who: usize },
    Count,
}

// What a call gives that is not refused: a step its outcome, a collect the answer, a count jobs, waits
// and nodes free to be used.
#[derive(Clone, Copy, Debug, PartialEq, Eq)]
pub enum Outcome {
    Started,
    Stepped(StepOutcome),
    Collected(Answer),
    Counted {
        jobs: usize,
        waits: usize,
        free: usize,
    },
}
