// What the law's proof stands on and no rule of the board enters: chains, reachability, ways, counts, lists as
// memory, and keys along chains. The lemmas are in proofs/; the central ones stand on a contract here.
#![tactic(auto)]

ghost use Rattle.std.specs.Prelude.{◌≡◌};
ghost use Rattle.theory.specs.Theory.{ChainFacts, ReachFacts, WayFacts, CountFacts, FieldFacts, KeyFacts, Examples};

use order::key::Key;
use std::cmp::Ordering;

// How two keys of a kind stand to each other. The value only carries the contract, which adds the central facts
// of this crate: for this kind of key, for elements of any type `A`, and for fields of any type `B`.
pub fn theory_holds<K: Key, A, B>(first: K, second: K) -> Ordering
    ensures value { result ≡ K.order first second }
    ensures chains { ChainFacts }
    ensures reachability { ReachFacts }
    ensures ways { WayFacts A }
    ensures counts { CountFacts A }
    ensures fields { FieldFacts A B }
    ensures keys { KeyFacts K.order A }
    ensures examples { Examples }
{
    facts::<K, A, B>(first);
    first.compare(second)
}

// Does nothing. Its contract has the facts, so that their proof stands apart from that of the value above. That both
// write them out is plainer than one record of all: each clause names one fact.
fn facts<K: Key, A, B>(_kind: K)
    ensures chains { ChainFacts }
    ensures reachability { ReachFacts }
    ensures ways { WayFacts A }
    ensures counts { CountFacts A }
    ensures fields { FieldFacts A B }
    ensures keys { KeyFacts K.order A }
    ensures examples { Examples }
{}
