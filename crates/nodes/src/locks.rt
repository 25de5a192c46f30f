// Locks of nodes.
ghost use Rattle.std.specs.Prelude.{◌≡◌};
ghost use Rattle.nodes.specs.Effects.{lockable, try_lock, there, unlock_one, unlock_maybe, unlock as unlocked, written};

use crate::access::{put, read};
use crate::call::StepOutcome;
use crate::node::{Node, Pair};
use crate::refusal::Damage;

// Whether a lock is free, or this controller's own.
fn is_lockable(lock: Option<u8>, who: u8) -> bool
    ensures { result ≡ lockable who lock }
{
    lock.is_none_or(|holder| holder == who)
}

// Locks a node for a controller; waiting, with no change, where another one holds it.
pub fn lock<K: Copy>(nodes: &mut [Node<K>], at: u16, who: u8) -> Result<StepOutcome, Damage>
    ensures { (result, nodes.new) ≡ try_lock who at nodes.old }
{
    let node = read(nodes, usize::from(at)).ok_or(Damage)?;
    if !is_lockable(node.lock, who) {
        return Ok(StepOutcome::Waiting);
    }
    let lock = Some(who);
    put(nodes, usize::from(at), Node { lock, ..node });
    Ok(StepOutcome::Moved)
}

// Unlocks a node, if this controller holds it.
fn unlock_one<K: Copy>(nodes: &mut [Node<K>], at: u16, who: u8)
    ensures { nodes.new ≡ unlock_one who at nodes.old }
{
    match read(nodes, usize::from(at)) {
        Some(node) if node.lock == Some(who) => {
            put(nodes, usize::from(at), Node { lock: None, ..node })
        }
        _ => (),
    }
}

// The same for a node that may be none.
fn unlock_maybe<K: Copy>(nodes: &mut [Node<K>], at: Option<u16>, who: u8)
    ensures { nodes.new ≡ unlock_maybe who at nodes.old }
{
    if let Some(at) = at {
        unlock_one(nodes, at, who);
    }
}

// Whether a node number, if it is one, is below the number of nodes.
fn is_there<K>(nodes: &[Node<K>], at: Option<u16>) -> bool
    ensures { result ≡ there nodes.now at }
{
    at.is_none_or(|at| usize::from(at) < nodes.len())
}

// Of a pair and another node, unlocks those that this controller holds.
pub fn unlock<K: Copy>(
    nodes: &mut [Node<K>],
    pair: Pair,
    other: Option<u16>,
    who: u8,
) -> Result<(), Damage>
    ensures { (result, nodes.new) ≡ written nodes.old (unlocked who pair other nodes.old) }
{
    let (first, second) = pair;
    if !is_there(nodes, Some(first)) || !is_there(nodes, second) || !is_there(nodes, other) {
        return Err(Damage);
    }
    unlock_one(nodes, first, who);
    unlock_maybe(nodes, second, who);
    unlock_maybe(nodes, other, who);
    Ok(())
}
