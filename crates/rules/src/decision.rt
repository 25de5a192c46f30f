// What a step decides, before anything is written.
ghost use Rattle.std.specs.Prelude.{◌≡◌};
ghost use Rattle.rules.specs.Marks.{mark_byte};

use nodes::controller::{JobRef, Phase};
use nodes::node::Pair;

// What a step writes to nodes. There are only these effects.
#[derive(Clone, Copy, PartialEq, Eq, Debug)]
pub enum Effect<K> {
    Nothing,
    Lock {
        node: u16,
    },
    Unlock {
        pair: Pair,
        other: Option<u16>,
    },
    LinkJob {
        pair: Pair,
        job: JobRef,
        key: K,
    },
    LinkWait {
        pair: Pair,
        wait: u16,
        key: K,
        to: JobRef,
    },
    MarkRemoved {
        node: u16,
    },
    Commit {
        node: u16,
    },
    Unlink {
        first: u16,
        taken: u16,
    },
    Retire {
        node: u16,
    },
}

// What a mark says of a node while a controller explores: not reached, reached, or followed. The
// caller's memory holds marks as bytes, and may hold others than these three.
#[derive(Clone, Copy, PartialEq, Eq, Debug)]
pub enum Mark {
    Unvisited,
    Frontier,
    Expanded,
}

// The byte by which memory holds a mark.
impl From<Mark> for u8 {
    ghost from_gives = { λ mark byte. byte ≡ mark_byte mark };

    fn from(mark: Mark) -> u8 {
        match mark {
            Mark::Unvisited => 0,
            Mark::Frontier => 1,
            Mark::Expanded => 2,
        }
    }
}

// What a step writes to its controller's marks: nothing, all unvisited but for one node that is the
// frontier, or one mark.
#[derive(Clone, Copy, PartialEq, Eq, Debug)]
pub enum Marking {
    Keep,
    Begin { node: u16 },
    Set { node: u16, mark: Mark },
}

// A step is blocked by a lock that another controller holds, or writes and goes on to a phase.
// An enum, and no `Option`: blocked is an answer of the step, and in the rules `None` is damage.
#[derive(Clone, Copy, PartialEq, Eq, Debug)]
pub enum Decision<K> {
    Blocked,
    Take {
        effect: Effect<K>,
        marking: Marking,
        phase: Phase,
    },
}
