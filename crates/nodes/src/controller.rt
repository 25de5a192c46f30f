// Controllers: what each is at, in cases that carry just what that phase needs.
ghost use Rattle.std.specs.Prelude.{◌≡◌};
ghost use Rattle.nodes.specs.Operations.{decoded};

use crate::node::Pair;

// What an operation answers.
#[derive(Clone, Copy, Debug, PartialEq, Eq)]
pub enum Answer {
    Yes,
    No,
    Circle,
    Full,
}

// The six operations. They are asked for by the codes 1 to 6.
#[derive(Clone, Copy, Debug, PartialEq, Eq)]
pub enum Operation {
    AddJob,
    RemoveJob,
    HasJob,
    AddWait,
    RemoveWait,
    HasWait,
}

// A code that asks for no operation.
#[derive(Clone, Copy, Debug, PartialEq, Eq)]
pub struct UnknownOperation(pub u8);

impl TryFrom<u8> for Operation {
    type Error = UnknownOperation;

    ghost try_from_gives = { λ code r. r ≡ decoded code };

    fn try_from(code: u8) -> Result<Self, UnknownOperation> {
        match code {
            1 => Ok(Operation::AddJob),
            2 => Ok(Operation::RemoveJob),
            3 => Ok(Operation::HasJob),
            4 => Ok(Operation::AddWait),
            5 => Ok(Operation::RemoveWait),
            6 => Ok(Operation::HasWait),
            _ => Err(UnknownOperation(code)),
        }
    }
}

// A job, by its node, its generation and its sentinel.
#[derive(Clone, Copy, Debug, PartialEq, Eq)]
pub struct JobRef {
    pub node: u16,
    pub generation: u32,
    pub sentinel: u16,
}

// What is to be done about a wait, once both of its jobs are found.
#[derive(Clone, Copy, Debug, PartialEq, Eq)]
pub enum WaitAction {
    Add,
    Remove,
    Has,
}

// What a traversal without locks is for: whether a job is in, the first job of a wait, the second
// one, or whether the wait stands in the chain of the first.
#[derive(Clone, Copy, Debug, PartialEq, Eq)]
pub enum Goal {
    HasJob,
    First { action: WaitAction },
    Second { action: WaitAction, u: JobRef },
    HasWait { u: JobRef, v: JobRef },
}

// What is to be done with a pair of neighbouring nodes, once it is located and locked. `Empty` takes
// the first wait out of the chain of a removed job; `Sweep` takes the wait to a removed job out of the
// chain of the job at `place`, which hangs from `sentinel`. The jobs of a wait, u and v, stay two
// fields here and in phases: the rules look at each by itself, so one struct of both is no plainer.
#[derive(Clone, Copy, Debug, PartialEq, Eq)]
pub enum Edit {
    AddJob,
    RemoveJob,
    AddWait {
        u: JobRef,
        v: JobRef,
    },
    RemoveWait {
        u: JobRef,
        v: JobRef,
    },
    Empty {
        job: JobRef,
    },
    Sweep {
        job: JobRef,
        place: u16,
        sentinel: u16,
    },
}

// How an operation goes on when it has unlocked its nodes.
#[derive(Clone, Copy, Debug, PartialEq, Eq)]
pub enum Then {
    Finish { answer: Answer },
    Again { edit: Edit },
    NextJob { job: JobRef, place: u16 },
}

// Where a controller's operation is. `at` and `place` are the node it stands on, where it explores
// none while it stands in no chain; a pair is a node and the next one, if there is one.
#[derive(Clone, Copy, Debug, PartialEq, Eq)]
pub enum Phase {
    Idle,
    Find {
        goal: Goal,
        at: u16,
    },
    Locate {
        edit: Edit,
        at: u16,
    },
    LockFirst {
        edit: Edit,
        pair: Pair,
    },
    LockSecond {
        edit: Edit,
        pair: Pair,
    },
    Validate {
        edit: Edit,
        pair: Pair,
    },
    Explore {
        u: JobRef,
        v: JobRef,
        pair: Pair,
        tentative: u16,
        place: Option<u16>,
    },
    Unlink {
        pair: Pair,
        taken: u16,
        then: Then,
    },
    Unlock {
        pair: Pair,
        other: Option<u16>,
        then: Then,
    },
    NextJob {
        job: JobRef,
        place: u16,
    },
    Finished {
        answer: Answer,
    },
}

// A controller: the operation that it was last given, its two keys, its ticket and its phase.
#[derive(Clone, Copy, Debug, PartialEq, Eq)]
pub struct Controller<K> {
    pub operation: Option<Operation>,
    pub u: K,
    pub v: K,
    pub ticket: u32,
    pub phase: Phase,
}
