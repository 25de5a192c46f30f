// What the rules write to chains. Each function looks at the nodes that it names before it writes.
ghost use Rattle.std.specs.Prelude.{◌≡◌, Option};
ghost use Rattle.nodes.specs.declared.node.Kind.{Kind as KindOf};
ghost use Rattle.nodes.specs.Closures.{Computes};
ghost use Rattle.nodes.specs.Effects.{written, link_job, link_wait, rewrite_kind, mark_removed, commit as committed, unlink as unlinked, retire as retired_with};

use crate::access::{put, read};
use crate::controller::JobRef;
use crate::node::{Kind, Node, Pair, WaitState};
use crate::refusal::Damage;
use crate::traverse::Chain;

// Links a new job between a pair of neighbours, with a sentinel of its own.
pub fn link_job<K: Copy>(
    nodes: &mut [Node<K>],
    pair: Pair,
    job: JobRef,
    key: K,
) -> Result<(), Damage>
    ensures { (result, nodes.new) ≡ written nodes.old (link_job pair job key nodes.old) }
{
    let JobRef {
        node,
        generation,
        sentinel,
    } = job;
    let (first, next) = pair;
    let before = read(nodes, usize::from(first)).ok_or(Damage)?;
    read(nodes, usize::from(node)).ok_or(Damage)?;
    read(nodes, usize::from(sentinel)).ok_or(Damage)?;
    put(nodes, usize::from(sentinel), Node::new(key, Kind::Sentinel));
    let kind = Kind::Job {
        generation,
        sentinel,
        removed: false,
    };
    put(
        nodes,
        usize::from(node),
        Node {
            next,
            ..Node::new(key, kind)
        },
    );
    let next = Some(node);
    put(nodes, usize::from(first), Node { next, ..before });
    Ok(())
}

// Links a new tentative wait to a job between a pair of neighbours, locked by its maker. The wait, its
// key and its target stay parameters: a struct of them would be the effect's fields once more.
pub fn link_wait<K: Copy>(
    nodes: &mut [Node<K>],
    pair: Pair,
    wait: u16,
    key: K,
    who: u8,
    to: JobRef,
) -> Result<(), Damage>
    ensures { (result, nodes.new) ≡ written nodes.old (link_wait pair wait key who to nodes.old) }
{
    let (first, next) = pair;
    let before = read(nodes, usize::from(first)).ok_or(Damage)?;
    read(nodes, usize::from(wait)).ok_or(Damage)?;
    let kind = Kind::Wait {
        generation: to.generation,
        target: to.node,
        state: WaitState::Tentative,
    };
    let lock = Some(who);
    put(
        nodes,
        usize::from(wait),
        Node {
            next,
            lock,
            ..Node::new(key, kind)
        },
    );
    put(
        nodes,
        usize::from(first),
        Node {
            next: Some(wait),
            ..before
        },
    );
    Ok(())
}

// Gives a node the kind that its kind becomes; where it becomes none, that is damage.
fn rewrite_kind<K: Copy, F: FnOnce(Kind) -> Option<Kind>>(
    nodes: &mut [Node<K>],
    at: u16,
    change: F,
) -> Result<(), Damage>
    requires { F.IsAlwaysCallable change }
    ensures { (becomes : KindOf → Option KindOf) → Computes (F.post change) becomes → (result, nodes.new) ≡ written nodes.old (rewrite_kind becomes at nodes.old) }
{
    let node = read(nodes, usize::from(at)).ok_or(Damage)?;
    let kind = change(node.kind).ok_or(Damage)?;
    put(nodes, usize::from(at), Node { kind, ..node });
    Ok(())
}

// Marks a job or a wait removed.
pub fn mark_removed<K: Copy>(nodes: &mut [Node<K>], at: u16) -> Result<(), Damage>
    ensures { (result, nodes.new) ≡ written nodes.old (mark_removed at nodes.old) }
{
    rewrite_kind(nodes, at, Kind::removed)
}

// Commits a wait.
pub fn commit<K: Copy>(nodes: &mut [Node<K>], at: u16) -> Result<(), Damage>
    ensures { (result, nodes.new) ≡ written nodes.old (committed at nodes.old) }
{
    rewrite_kind(nodes, at, Kind::committed)
}

// Takes a job or a wait out of its chain, behind the node `first`; it retires with this number.
pub fn unlink<K: Copy>(
    nodes: &mut [Node<K>],
    first: u16,
    taken: u16,
    number: u32,
) -> Result<(), Damage>
    ensures { (result, nodes.new) ≡ written nodes.old (unlinked first taken number nodes.old) }
{
    let before = read(nodes, usize::from(first)).ok_or(Damage)?;
    let out = read(nodes, usize::from(taken)).ok_or(Damage)?;
    let chain = Chain::of(out.kind).ok_or(Damage)?;
    if !chain.heads(before.kind) {
        return Err(Damage);
    }
    let next = out.next;
    put(nodes, usize::from(first), Node { next, ..before });
    let retired = Some(number);
    put(nodes, usize::from(taken), Node { retired, ..out });
    Ok(())
}

// Retires a sentinel with this number.
pub fn retire<K: Copy>(nodes: &mut [Node<K>], at: u16, number: u32) -> Result<(), Damage>
    ensures { (result, nodes.new) ≡ written nodes.old (retired_with at number nodes.old) }
{
    let node = read(nodes, usize::from(at)).ok_or(Damage)?;
    if !matches!(node.kind, Kind::Sentinel) {
        return Err(Damage);
    }
    let retired = Some(number);
    put(nodes, usize::from(at), Node { retired, ..node });
    Ok(())
}
