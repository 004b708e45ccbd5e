use crate::work::Work;
use bdd_store::Node;

// Whether a queen on one field takes one on the other.
fn takes(row: u32, column: u32, r: u32, c: u32) -> bool {
    let same = row == r && column == c;
    !same && (row == r || column == c || row.abs_diff(r) == column.abs_diff(c))
}

fn field(n: u32, row: u32, column: u32) -> u32 {
    row.wrapping_mul(n).wrapping_add(column)
}

// Some queen stands in this row.
fn row_is_taken(work: &mut Work, n: u32, row: u32) -> Node {
    let mut some = Node::of(false);
    for column in 0..n {
        let queen = work.var(field(n, row, column));
        some = work.or(some, queen);
    }
    some
}

// A queen on this field takes no other.
fn takes_none(work: &mut Work, n: u32, row: u32, column: u32) -> Node {
    let mut alone = Node::of(true);
    for r in 0..n {
        for c in 0..n {
            if takes(row, column, r, c) {
                let other = work.var(field(n, r, c));
                let free = work.not(other);
                alone = work.and(alone, free);
            }
        }
    }
    let queen = work.var(field(n, row, column));
    let absent = work.not(queen);
    work.or(absent, alone)
}

/// All ways to place n queens on a board of n rows so that none takes another.
pub fn queens(work: &mut Work, n: u32) {
    work.start(n.wrapping_mul(n));
    let mut all = Node::of(true);
    for row in 0..n {
        let taken = row_is_taken(work, n, row);
        all = work.and(all, taken);
    }
    for row in 0..n {
        for column in 0..n {
            let fine = takes_none(work, n, row, column);
            all = work.and(all, fine);
        }
    }
}
