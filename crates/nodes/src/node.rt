// Nodes, from which all chains of the board are made.
ghost use Rattle.std.specs.Prelude.{◌≡◌};
ghost use Rattle.nodes.specs.Effects.{with_state, removed_kind, committed_kind};
ghost use Rattle.nodes.specs.Access.{new_node};

// A pair of neighbours: a node and the next one of its chain, or none. It is a tuple and no struct, by
// a rule of the project.
pub type Pair = (u16, Option<u16>);

// How far a wait has come: `Tentative` while its maker still explores whether it would close a
// circle, `Committed` once it stands, `Removed` when it is to be unlinked or has been.
#[derive(Clone, Copy, Debug, PartialEq, Eq)]
pub enum WaitState {
    Tentative,
    Committed,
    Removed,
}

// What a node is. A sentinel heads a chain: node 0 that of the jobs, and each job's own sentinel that
// of the waits from it. A job's generation is the ticket of the operation that added it, so a job
// that was removed and added again is another job. A wait names its target by node and generation.
#[derive(Clone, Copy, Debug, PartialEq, Eq)]
pub enum Kind {
    Vacant,
    Sentinel,
    Job {
        generation: u32,
        sentinel: u16,
        removed: bool,
    },
    Wait {
        generation: u32,
        target: u16,
        state: WaitState,
    },
}

impl Kind {
    // The kind of a wait in another state.
    fn with_state(self, state: WaitState) -> Option<Kind>
        ensures { result ≡ with_state state self }
    {
        match self {
            Kind::Wait {
                generation,
                target,
                ..
            } => Some(Kind::Wait {
                generation,
                target,
                state,
            }),
            _ => None,
        }
    }

    // The kind of a job or a wait once it is removed. Each kind has its arm: with one for all others,
    // marking a wait took half as long again.
    pub(crate) fn removed(self) -> Option<Kind>
        ensures { result ≡ removed_kind self }
    {
        match self {
            Kind::Vacant | Kind::Sentinel => None,
            Kind::Job {
                generation,
                sentinel,
                ..
            } => Some(Kind::Job {
                generation,
                sentinel,
                removed: true,
            }),
            Kind::Wait { .. } => self.with_state(WaitState::Removed),
        }
    }

    // The kind of a wait once it is committed.
    pub(crate) fn committed(self) -> Option<Kind>
        ensures { result ≡ committed_kind self }
    {
        self.with_state(WaitState::Committed)
    }
}

// A node: its key (a wait's is its target's), its kind, the next node of its chain, the controller
// that holds its lock, and, once it has left its chain, the next ticket at that moment.
#[derive(Clone, Copy, Debug, PartialEq, Eq)]
pub struct Node<K> {
    pub key: K,
    pub kind: Kind,
    pub next: Option<u16>,
    pub lock: Option<u8>,
    pub retired: Option<u32>,
}

impl<K> Node<K> {
    // A node with a key and a kind: no next node, no lock, not retired.
    pub(crate) fn new(key: K, kind: Kind) -> Node<K>
        ensures { result ≡ new_node key kind }
    {
        Node {
            key,
            kind,
            next: None,
            lock: None,
            retired: None,
        }
    }
}
