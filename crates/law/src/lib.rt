// The law over runs: its statement, and the half of its history that does not depend on the board's rules.
#![tactic(auto)]

ghost use Rattle.std.specs.Prelude.{◌≡◌};
ghost use Rattle.law.specs.Assembling.{HistoryFromMoves};
ghost use Rattle.law.specs.Bites.{Bites};
ghost use Rattle.law.specs.Schedule.{ScheduleExplained};

use order::key::Key;
use std::cmp::Ordering;

// How two keys of a kind stand to each other. What its contract adds, for that kind: on every fresh board, and
// for every list of calls whose steps make the moves of a ledger, the history exists; the statement of a
// history refutes two wrong runs and is met by an honest one and by the empty list; and the history of the
// worked schedule of two controllers is right.
pub fn history_assembles<K: Key>(first: K, second: K) -> Ordering
    ensures value { result ≡ K.order first second }
    ensures history { HistoryFromMoves K.order }
    ensures bites { Bites K.order }
    ensures schedule { ScheduleExplained }
{
    first.compare(second)
}
