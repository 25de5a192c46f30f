// Set-up of a board in the memory that the caller lends.
ghost use Rattle.std.specs.Prelude.{◌≡◌, map};
ghost use Rattle.nodes.specs.Closures.{Computes};
ghost use Rattle.nodes.specs.Memory.{sizes_fit, cleared, fresh_nodes, fresh_controller, set_up, lent};
ghost use Rattle.nodes.specs.declared.node.Kind.TheVariants.{Vacant};

use crate::controller::{Controller, Phase};
use crate::node::{Kind, Node};
use crate::refusal::Refusal;

// The head of a board: the ticket that the next start takes.
#[derive(Clone, Copy, Debug, PartialEq, Eq)]
pub struct Header {
    pub next_ticket: u32,
}

// Whether the sizes are those of a board: 1 to 4096 nodes, 1 to 16 controllers, and a mark of each
// controller for each node.
pub fn fits(nodes: usize, controllers: usize, marks: usize) -> bool
    ensures { result ≡ sizes_fit nodes controllers marks }
{
    (1..=4096).contains(&nodes) && (1..=16).contains(&controllers) && marks == controllers * nodes
}

// Puts in the place of each element what a closure makes of it.
fn replace_each<T: Copy, F: Fn(T) -> T>(items: &mut [T], change: F)
    requires { F.IsAlwaysCallable change }
    ensures { (becomes : T → T) → Computes (F.post change) becomes → items.new ≡ map becomes items.old }
{
    for item in items.iter_mut() {
        *item = change(*item);
    }
}

// Every node becomes vacant, with its key alone.
fn vacate<K: Copy>(nodes: &mut [Node<K>])
    ensures { nodes.new ≡ map (cleared Vacant) nodes.old }
{
    replace_each(nodes, |node| Node::new(node.key, Kind::Vacant));
}

// Node 0 becomes the main sentinel, the others vacant.
fn set_up_nodes<K: Copy>(nodes: &mut [Node<K>])
    ensures { nodes.new ≡ fresh_nodes nodes.old }
{
    vacate(nodes);
    if let Some(node) = nodes.first_mut() {
        node.kind = Kind::Sentinel;
    }
}

// Every controller becomes idle, with its keys alone.
fn set_up_controllers<K: Copy>(controllers: &mut [Controller<K>])
    ensures { controllers.new ≡ map fresh_controller controllers.old }
{
    replace_each(
        controllers,
        |c| Controller {
            operation: None,
            ticket: 0,
            phase: Phase::Idle,
            ..c
        },
    );
}

// Every mark becomes unvisited.
fn set_up_marks(marks: &mut [u8])
    ensures { marks.new ≡ map (λ _. 0) marks.old }
{
    marks.fill(0);
}

// The memory of a board, which the caller lends, by a rule of the project: slices, whose nodes name
// one another by number, and no heap.
#[derive(Drop)]
pub struct Board<'a, K> {
    pub header: &'a mut Header,
    pub nodes: &'a mut [Node<K>],
    pub controllers: &'a mut [Controller<K>],
    pub marks: &'a mut [u8],
}

impl<K: Copy> Board<'_, K> {
    // Sets the board up, with the ticket that the first start takes. Keys stay, all else is none.
    pub fn set_up(&mut self, first: u32) -> Result<(), Refusal>
        ensures after { (result, lent self.new) ≡ set_up first (lent self.old) }
        ensures same_header { self.new.header.ghost_name ≡ self.old.header.ghost_name }
        ensures same_nodes { self.new.nodes.ghost_name ≡ self.old.nodes.ghost_name }
        ensures same_controllers { self.new.controllers.ghost_name ≡ self.old.controllers.ghost_name }
        ensures same_marks { self.new.marks.ghost_name ≡ self.old.marks.ghost_name }
    {
        if !fits(self.nodes.len(), self.controllers.len(), self.marks.len()) {
            return Err(Refusal::Misfit);
        }
        if first == 0 {
            return Err(Refusal::BadFirst);
        }
        self.header.next_ticket = first;
        set_up_nodes(self.nodes);
        set_up_controllers(self.controllers);
        set_up_marks(self.marks);
        Ok(())
    }
}
