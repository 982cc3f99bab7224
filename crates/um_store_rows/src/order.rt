//! Numberings along pairs, and cycles.
use std::process::Abort;
use um_asserts::same;
use um_order::{Order, check};

/// Nodes, pairs, and how many nodes are numbered if they can be; else the cycles of which one is reported.
struct Row {
    nodes: usize,
    pairs: &'static [(usize, usize)],
    numbered: usize,
    cycles: &'static [&'static [usize]],
}

const ROWS: &[Row] = &[
    // a chain is numbered along its pairs
    Row {
        nodes: 4,
        pairs: &[(2, 3), (3, 0), (0, 1)],
        numbered: 4,
        cycles: &[],
    },
    Row {
        nodes: 4,
        pairs: &[(1, 0), (1, 2), (0, 3), (2, 3), (1, 3)],
        numbered: 4,
        cycles: &[],
    },
    // a ring is reported from its least node on
    Row {
        nodes: 5,
        pairs: &[(4, 0), (3, 1), (2, 3), (1, 2)],
        numbered: 0,
        cycles: &[&[1, 2, 3]],
    },
    // of two rings one is reported
    Row {
        nodes: 4,
        pairs: &[(0, 1), (1, 0), (3, 2), (2, 3)],
        numbered: 0,
        cycles: &[&[0, 1], &[2, 3]],
    },
    // a pair of a node with itself is a cycle
    Row {
        nodes: 3,
        pairs: &[(0, 1), (1, 1), (1, 2)],
        numbered: 0,
        cycles: &[&[1]],
    },
    // no nodes have no numbers
    Row {
        nodes: 0,
        pairs: &[],
        numbered: 0,
        cycles: &[],
    },
    // a pair may name a number past the last node: all up to it are numbered, and it may stand in a cycle
    Row {
        nodes: 2,
        pairs: &[(4, 0), (1, 2)],
        numbered: 5,
        cycles: &[],
    },
    Row {
        nodes: 2,
        pairs: &[(0, 1), (1, 2), (2, 0)],
        numbered: 0,
        cycles: &[&[0, 1, 2]],
    },
    Row {
        nodes: 0,
        pairs: &[(0, 0)],
        numbered: 0,
        cycles: &[&[0]],
    },
];

/// Asserts that each node has a number, that these ascend along each pair, and that no cycle is wanted.
fn is_numbered(rt: &impl Abort, numbers: &[usize], row: &Row) {
    same!(rt, (numbers.len(), row.cycles.len()), (row.numbered, 0));
    for pair in row.pairs {
        let before = *numbers.get(pair.0).expect(rt, "no number");
        let after = *numbers.get(pair.1).expect(rt, "no number");
        assert!(rt; before < after, "{numbers:?} at {pair:?}");
    }
}

/// Asserts that the cycle is one of those that are wanted.
fn is_wanted(rt: &impl Abort, cycle: &[usize], row: &Row) {
    let is_one = row.cycles.iter().any(|wanted| cycle == *wanted);
    assert!(rt; is_one, "a cycle: {cycle:?}, wanted {:?}", row.cycles);
}

/// Asserts that the nodes are numbered along their pairs, or that a wanted cycle is reported.
fn is_ordered(rt: &(impl AllocGlobal + Abort), row: &Row) {
    match check(rt.alloc(), row.nodes, row.pairs).expect(rt, "no order") {
        Order::Numbering(numbers) => is_numbered(rt, &numbers, row),
        Order::Cycle(cycle) => is_wanted(rt, &cycle, row),
    }
}

#[test]
fn nodes_are_numbered_along_pairs_or_have_a_cycle(rt: HostRuntime) {
    for row in ROWS {
        is_ordered(&rt, row);
    }
}

#[test]
fn no_list_is_long_enough_for_the_greatest_number(rt: HostRuntime) {
    assert!(&rt; check(rt.alloc(), 0, &[(0, usize::MAX)]).is_err());
}
