// Set-up at the edges of its sizes, and the size of a node.
use nodes::controller::{Controller, JobRef, Phase};
use nodes::node::{Kind, Node};
use nodes::refusal::Refusal;
use nodes::setup::{Board, Header};
use order::row::Row;
use std::alloc::Global;
use std::test::Fail;

const USED: Node<u32> = Node {
    key: 7,
    kind: Kind::Sentinel,
    next: Some(3),
    lock: Some(2),
    retired: Some(9),
};

const BUSY: Controller<u32> = Controller {
    operation: None,
    u: 5,
    v: 6,
    ticket: 8,
    phase: Phase::NextJob {
        job: JobRef {
            node: 1,
            generation: 1,
            sentinel: 2,
        },
        place: 0,
    },
};

// What set-up answers on so many nodes, controllers and marks, as the number by which its refusal is told, so
// that the numbers are tried too; 0 if it is taken.
fn answer(heap: Global, n: usize, c: usize, m: usize, first: u32) -> Result<u8, Fail> {
    let mut header = Header { next_ticket: 77 };
    let mut nodes = vec![in heap; USED; n]?;
    let mut controllers = vec![in heap; BUSY; c]?;
    let mut marks = vec![in heap; 3u8; m]?;
    let mut board = Board {
        header: &mut header,
        nodes: &mut nodes,
        controllers: &mut controllers,
        marks: &mut marks,
    };
    Ok(board.set_up(first).err().map_or(0, Refusal::number))
}

#[test]
fn sizes_of_a_board(rt: HostRuntime) -> Result<(), Fail> {
    let heap = rt.alloc();
    for (nodes, controllers, marks, first, number) in [
        (1, 1, 1, 1, 0),
        (4096, 16, 65536, 1, 0),
        (4096, 17, 69632, 1, 1),
        (4097, 1, 4097, 1, 1),
        (0, 1, 0, 1, 1),
        (1, 0, 0, 1, 1),
        (8, 2, 15, 1, 1),
        (8, 2, 17, 1, 1),
        (8, 2, 16, 0, 2),
        (8, 2, 15, 0, 1),
        (8, 2, 16, u32::MAX, 0),
    ] {
        assert_eq!(rt; answer(heap, nodes, controllers, marks, first)?, number);
    }
    Ok(())
}

#[test]
fn set_up_clears_all_but_keys(rt: HostRuntime) {
    let mut header = Header { next_ticket: 77 };
    let mut nodes = [USED; 2];
    let mut controllers = [BUSY; 1];
    let mut marks = [3u8; 2];
    let mut board = Board {
        header: &mut header,
        nodes: &mut nodes,
        controllers: &mut controllers,
        marks: &mut marks,
    };
    assert_eq!(rt; board.set_up(4), Ok(()));
    assert_eq!(rt; header.next_ticket, 4);
    let vacant = Node {
        key: 7,
        kind: Kind::Vacant,
        next: None,
        lock: None,
        retired: None,
    };
    let kind = Kind::Sentinel;
    assert_eq!(rt; nodes, [Node { kind, ..vacant }, vacant]);
    assert_eq!(rt;
        controllers,
        [Controller {
            operation: None,
            u: 5,
            v: 6,
            ticket: 0,
            phase: Phase::Idle,
        }]
    );
    assert_eq!(rt; marks, [0, 0]);
}

#[test]
fn node_is_small(rt: HostRuntime) {
    assert_eq!(rt; std::mem::size_of::<Node<u32>>(), 32);
    assert_eq!(rt; std::mem::size_of::<Node<Row>>(), 36);
}
