// Pairs of graphs that hold the same commands but for merges, and so have one order of commands, at other places. The payloads
// name the commands. The orders are worked out by hand from the rule; where priorities are equal, by ids that another program made.
use crate::rows::Row;
use samples::made::Step;

pub const ONE_ORDER: Row = Row {
    name: "one stored order",
    steps: &[
        Step::Init(0),
        Step::Basic(5, 0, 1),
        Step::Basic(5, 0, 2),
        Step::Basic(9, 1, 3),
        Step::Basic(2, 2, 4),
        Step::Merge(3, 4),
        Step::Basic(30, 5, 5),
        Step::Finalize(2, 6),
        Step::Basic(7, 0, 7),
        Step::Basic(7, 0, 8),
    ],
    tips: &[6, 7, 8, 9],
    braid: &[0, 2, 7, 1, 3, 4, 6, 8, 9],
    heads: &[6, 7, 8, 9],
    ancestors: &[
        &[],
        &[0],
        &[0],
        &[0, 1],
        &[0, 2],
        &[0, 1, 2, 3, 4],
        &[0, 1, 2, 3, 4, 5],
        &[0, 2],
        &[0],
        &[0],
    ],
};

pub const OTHER_ORDER: Row = Row {
    name: "another stored order of the same commands",
    steps: &[
        Step::Init(0),
        Step::Basic(7, 0, 8),
        Step::Basic(7, 0, 7),
        Step::Basic(5, 0, 2),
        Step::Finalize(3, 6),
        Step::Basic(2, 3, 4),
        Step::Basic(5, 0, 1),
        Step::Basic(9, 6, 3),
        Step::Merge(7, 5),
        Step::Basic(30, 8, 5),
    ],
    tips: &[1, 2, 4, 9],
    braid: &[0, 3, 4, 6, 7, 5, 9, 2, 1],
    heads: &[1, 2, 4, 9],
    ancestors: &[
        &[],
        &[0],
        &[0],
        &[0],
        &[0, 3],
        &[0, 3],
        &[0],
        &[0, 6],
        &[0, 3, 5, 6, 7],
        &[0, 3, 5, 6, 7, 8],
    ],
};

pub const ONE_JOIN: Row = Row {
    name: "strands merged in one way",
    steps: &[
        Step::Init(0),
        Step::Basic(5, 0, 1),
        Step::Basic(5, 0, 2),
        Step::Basic(8, 0, 3),
        Step::Basic(1, 1, 4),
        Step::Merge(1, 2),
        Step::Basic(20, 5, 5),
        Step::Merge(3, 4),
        Step::Merge(7, 6),
    ],
    tips: &[8],
    braid: &[0, 1, 2, 6, 3, 4],
    heads: &[8],
    ancestors: &[
        &[],
        &[0],
        &[0],
        &[0],
        &[0, 1],
        &[0, 1, 2],
        &[0, 1, 2, 5],
        &[0, 1, 3, 4],
        &[0, 1, 2, 3, 4, 5, 6, 7],
    ],
};

pub const OTHER_JOIN: Row = Row {
    name: "the same strands merged in another way",
    steps: &[
        Step::Init(0),
        Step::Basic(8, 0, 3),
        Step::Basic(5, 0, 2),
        Step::Merge(1, 2),
        Step::Basic(5, 0, 1),
        Step::Basic(1, 4, 4),
        Step::Merge(3, 5),
        Step::Merge(4, 2),
        Step::Basic(20, 7, 5),
        Step::Merge(6, 8),
    ],
    tips: &[9],
    braid: &[0, 4, 2, 8, 1, 5],
    heads: &[9],
    ancestors: &[
        &[],
        &[0],
        &[0],
        &[0, 1, 2],
        &[0],
        &[0, 4],
        &[0, 1, 2, 3, 4, 5],
        &[0, 2, 4],
        &[0, 2, 4, 7],
        &[0, 1, 2, 3, 4, 5, 6, 7, 8],
    ],
};

#[derive(Clone, Copy)]
pub struct Pair {
    pub one: Row,
    pub other: Row,
}

pub const PAIRS: [Pair; 2] = [
    Pair {
        one: ONE_ORDER,
        other: OTHER_ORDER,
    },
    Pair {
        one: ONE_JOIN,
        other: OTHER_JOIN,
    },
];
