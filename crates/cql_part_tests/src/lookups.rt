// What joins look up: how often their condition is asked, by figures worked by hand.
use crate::joins::{Does, keyed, plain};
use crate::made::holds;
use crate::operators::{Case, Has, Rows, Shown, Tells};
use std::test::Fail;

// The columns of the joined row, by the inputs of two columns each.
const X_A: usize = 0;

const X_B: usize = 1;

const Y_A: usize = 2;

const Y_B: usize = 3;

const Z_A: usize = 4;

const Z_B: usize = 5;

// Ten rows into two ports, which tell behind the last of them.
const TENS: Case = Case {
    shown: Shown::Join(2, &[Has::Equal(X_A, Y_A)]),
    rows: &[Rows::Both(0, 1, 11), Rows::Both(1, 1, 11)],
    limit: 100,
    tells: Tells::AtLast,
};

// The same, with the one number in each first column.
const ONES: Case = Case {
    rows: &[Rows::OneKey(0, 1, 11), Rows::OneKey(1, 1, 11)],
    ..TENS
};

// Ten rows with the one number in each first column, into three ports.
const THREE_TENS: Case = Case {
    shown: Shown::Join(3, &[]),
    rows: &[
        Rows::OneKey(0, 1, 11),
        Rows::OneKey(1, 1, 11),
        Rows::OneKey(2, 1, 11),
    ],
    limit: 1000,
    tells: Tells::AtLast,
};

static BEHIND_EACH: Case = Case {
    tells: Tells::BehindEach,
    ..TENS
};

#[test]
fn each_change_is_looked_up_once(rt: HostRuntime) -> Result<(), Fail> {
    // Each row of the second port is joined to one of the first, and nothing is looked up again.
    holds(keyed(rt.alloc(), &BEHIND_EACH, Does::Tell(10), 10))
}

static AT_THE_LIMIT: Case = Case {
    rows: &[Rows::Both(0, 1, 6_001), Rows::Both(1, 1, 6_001)],
    limit: 6_000,
    ..TENS
};

#[test]
fn as_many_changes_are_kept_as_the_limit_allows(rt: HostRuntime) -> Result<(), Fail> {
    holds(keyed(rt.alloc(), &AT_THE_LIMIT, Does::Tell(6_000), 6_000))
}

static TWO_EQUAL: Case = Case {
    shown: Shown::Join(2, &[Has::Equal(X_A, Y_A), Has::Equal(Y_B, X_B)]),
    ..ONES
};

#[test]
fn the_rarer_value_is_looked_up(rt: HostRuntime) -> Result<(), Fail> {
    // Of the ten rows with the one value of the first columns, one has the second column's too.
    holds(keyed(rt.alloc(), &TWO_EQUAL, Does::Tell(10), 10))
}

static SECOND_EQUAL: Case = Case {
    shown: Shown::Join(2, &[Has::Equal(X_B, Y_B)]),
    ..ONES
};

#[test]
fn columns_behind_the_first_are_looked_up(rt: HostRuntime) -> Result<(), Fail> {
    holds(keyed(rt.alloc(), &SECOND_EQUAL, Does::Tell(10), 10))
}

static CHAIN: Case = Case {
    shown: Shown::Join(3, &[Has::Equal(X_A, Y_A), Has::Equal(Y_B, Z_B)]),
    rows: &[
        Rows::OneEnd(0, 1, 11),
        Rows::Both(1, 1, 11),
        Rows::OneKey(2, 1, 11),
    ],
    ..TENS
};

#[test]
fn ports_behind_the_second_are_looked_up(rt: HostRuntime) -> Result<(), Fail> {
    // A row of the second port finds none of the third. One of the third is put to one of the second,
    // and both to one of the first.
    holds(keyed(rt.alloc(), &CHAIN, Does::Tell(10), 20))
}

static NEVER_LESS: Case = Case {
    shown: Shown::Join(2, &[Has::Equal(X_A, Y_A), Has::Less(X_B, Y_B)]),
    ..TENS
};

#[test]
fn what_meets_nothing_is_counted(rt: HostRuntime) -> Result<(), Fail> {
    holds(keyed(rt.alloc(), &NEVER_LESS, Does::Tell(0), 10))
}

static IN_VAIN: Case = Case {
    shown: Shown::Join(
        3,
        &[
            Has::Equal(X_A, Y_A),
            Has::Equal(Y_A, Z_A),
            Has::Less(X_B, Y_B),
            Has::Less(Y_B, X_B),
        ],
    ),
    rows: &[
        Rows::OneKey(0, 1, 31),
        Rows::OneKey(1, 1, 31),
        Rows::OneKey(2, 1, 31),
    ],
    ..TENS
};

#[test]
fn what_is_asked_in_vain_has_an_end(rt: HostRuntime) -> Result<(), Fail> {
    // A row of the second port finds none of the third. One of the third is put to thirty of the second,
    // and each of these pairs to thirty of the first: 930 in vain, eleven times, and no more of the
    // nineteen rows behind these. Then thirty rows of the first port are put to thirty of the second, of
    // which none meets.
    holds(keyed(rt.alloc(), &IN_VAIN, Does::Tell(0), 11 * 930 + 900))
}

static OF_THREE: Case = Case {
    shown: Shown::Join(
        2,
        &[
            Has::Equal(X_A, Y_A),
            Has::Number(X_B, 3),
            Has::Number(Y_B, 3),
        ],
    ),
    ..ONES
};

#[test]
fn rows_that_fail_alone_are_joined_to_none(rt: HostRuntime) -> Result<(), Fail> {
    // Of ten rows of one value in each port one has the constant.
    holds(keyed(rt.alloc(), &OF_THREE, Does::Tell(1), 1))
}

static ONE_OF_THREE: Case = Case {
    shown: Shown::Join(2, &[Has::Number(Y_B, 3)]),
    rows: &[Rows::Both(1, 1, 11), Rows::Both(0, 1, 11)],
    ..TENS
};

#[test]
fn rows_that_fail_alone_are_in_no_ports_way(rt: HostRuntime) -> Result<(), Fail> {
    // Of ten rows of the second port one has the constant, and each of the first is put to that one.
    holds(keyed(rt.alloc(), &ONE_OF_THREE, Does::Tell(10), 10))
}

static SIEVES: Case = Case {
    shown: Shown::Join(
        3,
        &[
            Has::Equal(X_A, Y_A),
            Has::Less(X_B, Y_B),
            Has::Less(Y_B, X_B),
            Has::Number(Z_B, 1),
        ],
    ),
    rows: &[
        Rows::OneEnd(2, 1, 11),
        Rows::OneKey(1, 1, 11),
        Rows::OneKey(0, 1, 11),
    ],
    ..TENS
};

#[test]
fn links_go_before_sieves(rt: HostRuntime) -> Result<(), Fail> {
    // Each of ten rows of the first port is put to ten of the second, of which none meets, and none of these
    // pairs to the ten of the third.
    holds(keyed(rt.alloc(), &SIEVES, Does::Tell(0), 100))
}

static EMPTY_PORT: Case = Case {
    shown: Shown::Join(3, &[Has::Less(X_A, Y_A)]),
    rows: &[Rows::Both(0, 1, 11), Rows::Both(1, 1, 11)],
    ..TENS
};

#[test]
fn a_port_without_a_row_ends_a_walk(rt: HostRuntime) -> Result<(), Fail> {
    // A row of either port finds none of the third, and is put to none of the other.
    holds(keyed(rt.alloc(), &EMPTY_PORT, Does::Tell(0), 0))
}

static ONE_VALUE: Case = Case {
    shown: Shown::Join(3, &[Has::Equal(X_A, Y_A), Has::Equal(Y_A, Z_A)]),
    ..THREE_TENS
};

#[test]
fn a_keyed_join_is_given_up(rt: HostRuntime) -> Result<(), Fail> {
    // Each row of the third port is put to ten of the second, and each of these pairs to ten of the
    // first. A row of the second finds none of the third.
    holds(keyed(rt.alloc(), &ONE_VALUE, Does::GiveUp(1000), 1100))
}

static NO_LINKS: Case = THREE_TENS;

#[test]
fn a_plain_join_is_given_up(rt: HostRuntime) -> Result<(), Fail> {
    // A hundred pairs of the first two ports' rows, each put to ten of the third.
    holds(plain(rt.alloc(), &NO_LINKS, Does::GiveUp(1000), 1100))
}

static FILTER: Case = Case {
    shown: Shown::Join(1, &[]),
    rows: &[Rows::Both(0, 1, 601)],
    limit: 600,
    tells: Tells::AtLast,
};

#[test]
fn a_filter_is_given_up(rt: HostRuntime) -> Result<(), Fail> {
    // Each row is pushed and told: neither alone is as many steps as stand between two looks.
    holds(plain(rt.alloc(), &FILTER, Does::GiveUp(600), 0))
}

static MANY_PAIRS: Case = Case {
    rows: &[Rows::Both(0, 1, 301), Rows::Both(1, 1, 301)],
    limit: 300,
    ..TENS
};

#[test]
fn a_keyed_join_is_given_up_as_it_tells(rt: HostRuntime) -> Result<(), Fail> {
    // 600 rows are pushed, and 300 pairs tried and told.
    holds(keyed(rt.alloc(), &MANY_PAIRS, Does::GiveUp(300), 300))
}

#[test]
fn a_join_without_equal_columns_is_given_up(rt: HostRuntime) -> Result<(), Fail> {
    // A row of the first port or the second finds none of the third. One of the third is put to ten of
    // the first, and each of these pairs to ten of the second.
    holds(keyed(rt.alloc(), &NO_LINKS, Does::GiveUp(1000), 1100))
}

static THREE_LINKS: Case = Case {
    shown: Shown::Join(
        3,
        &[
            Has::Equal(X_A, Y_A),
            Has::Equal(Y_A, Z_A),
            Has::Equal(Y_B, Z_B),
        ],
    ),
    rows: &[
        Rows::Both(0, 1, 11),
        Rows::Both(1, 1, 11),
        Rows::Both(2, 1, 11),
    ],
    ..TENS
};

#[test]
fn what_meets_nothing_is_counted_in_a_plain_join(rt: HostRuntime) -> Result<(), Fail> {
    // A hundred pairs of the first two ports' rows, of which ninety fail alone and are put to none of
    // the third; behind each other one the third's row with both numbers is looked up.
    holds(plain(rt.alloc(), &THREE_LINKS, Does::Tell(10), 110))
}
