// Which nodes may be used again. Controllers and nodes are two slices here, since the pool hands its
// own slice on, a rule of the project.
ghost use Rattle.std.specs.Prelude.{◌≡◌, length};
ghost use Rattle.nodes.specs.Reuse.{is_running, precedes as comes_before, awaited as is_awaited, retired_long, reusable, reusable_at, highest, reusable_count};

use crate::controller::{Controller, Phase};
use crate::node::{Kind, Node};

impl Phase {
    // Whether an operation runs: it is started, and not finished.
    pub fn is_running(self) -> bool
        ensures { result ≡ is_running self }
    {
        !matches!(self, Phase::Idle | Phase::Finished { .. })
    }
}

// Whether a controller runs an operation with a ticket below this number.
fn precedes<K>(controller: &Controller<K>, number: u32) -> bool
    ensures { result ≡ comes_before controller.now number }
{
    controller.phase.is_running() && controller.ticket < number
}

// Whether some controller does. A `for` over the controllers decides it: a rule of the project.
fn is_awaited<K>(controllers: &[Controller<K>], number: u32) -> bool
    ensures { result ≡ is_awaited controllers.now number }
{
    for c in controllers {
        if precedes(c, number) {
            return true;
        }
    }
    false
}

// Whether a retire number is one, and no operation that was started before that still runs.
fn is_retired_long<K>(controllers: &[Controller<K>], retired: Option<u32>) -> bool
    ensures { result ≡ retired_long controllers.now retired }
{
    retired.is_some_and(|number| !is_awaited(controllers, number))
}

// Whether the node with this number may be used again: it is not node 0, and it is vacant, or it
// retired and no operation that was started before that still runs.
pub fn is_reusable<K>(controllers: &[Controller<K>], at: usize, node: &Node<K>) -> bool
    ensures { result ≡ reusable controllers.now at node.now }
{
    at != 0 && (matches!(node.kind, Kind::Vacant) || is_retired_long(controllers, node.retired))
}

// Whether there is a node with this number that may be used again.
fn is_reusable_at<K>(controllers: &[Controller<K>], nodes: &[Node<K>], at: usize) -> bool
    ensures { result ≡ reusable_at controllers.now nodes.now at }
{
    nodes
        .get(at)
        .is_some_and(|node| is_reusable(controllers, at, node))
}

// The highest number below the bound of a node that may be used again. By a loop: where one of the
// highest is found at once, a chain of `rev` and `find` took half as long again.
pub fn highest_reusable<K>(
    controllers: &[Controller<K>],
    nodes: &[Node<K>],
    bound: u16,
) -> Option<u16>
    ensures { result ≡ highest controllers.now nodes.now bound }
{
    for n in (0..bound).rev() {
        if is_reusable_at(controllers, nodes, usize::from(n)) {
            return Some(n);
        }
    }
    None
}

// How many nodes may be used again.
pub fn count_reusable<K>(controllers: &[Controller<K>], nodes: &[Node<K>]) -> usize
    ensures { result ≡ reusable_count controllers.now nodes.now (length nodes.now) }
{
    nodes
        .iter()
        .enumerate()
        .filter(|(n, node)| is_reusable(controllers, *n, node))
        .count()
}
