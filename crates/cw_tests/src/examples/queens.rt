//! The program examples/queens.cilk and its reports.

use crate::examples::{Example, holds};
use std::test::Fail;

const EXAMPLE: Example = Example {
    words: "queens.cilk 7",
    source: "// Counts the ways to place n queens on a board of n by n squares so that no two of them attack each other. The columns of a
// row are halved, one half is searched in parallel with the other on its own board, and a reducer counts.
// cilkwork run queens.cilk 7
// There are 40 ways for 7 queens.

reducer sum ways;

// returns whether no queen above attacks a queen in this row and column
int is_free(int board[], int row, int column) {
  int r = 0;
  while (r < row) {
    if (board[r] == column) {
      return 0;
    }
    if (board[r] - column == row - r) {
      return 0;
    }
    if (column - board[r] == row - r) {
      return 0;
    }
    r = r + 1;
  }
  return 1;
}

void search(int board[], int row, int from, int to) {
  int fits = 0;
  int column = from;
  int r = 0;
  if (to - from == 1) {
    fits = is_free(board, row, column);
    if (fits) {
      if (row + 1 == len(board)) {
        ways += 1;
      } else {
        board[row] = column;
        search(board, row + 1, 0, len(board));
      }
    }
    return;
  }
  int other[len(board)];
  while (r < row) {
    other[r] = board[r];
    r = r + 1;
  }
  cilk_spawn search(other, row, from, from + (to - from) / 2);
  search(board, row, from + (to - from) / 2, to);
}

int main(int n) {
  int board[n];
  search(board, 0, 0, n);
  return 0;
}
",
    run: "sum ways = 40
return 0
",
    scale: "tag,work,span,parallelism,burdened_span,burdened_parallelism
,630747,2483,254.026,212429,2.969
",
    sites: "site,kind,line,callee,calls,own_work,own_span,work,span
0,root,51,main,1,8,8,630747,2483
1,call,31,is_free,3584,263752,701,263752,263752
2,call,37,search,511,49036,487,630218,16210
3,spawn,47,search,3072,139655,505,630394,11619
4,call,48,search,3072,178257,743,630485,9409
5,call,53,search,1,39,39,630739,2475
",
    gain: "function,line,calls,own_work,own_span,span_if_free,parallelism_if_free,burdened_span_if_free
,0,0,630747,2483,2483,254.026,212429
search,26,6656,366987,1774,736,856.993,210645
is_free,9,3584,263752,701,1792,351.979,211792
main,51,1,8,8,2475,254.847,212421
",
    greedy: "processors,work,span,greedy
8,630747,2483,79224
",
    speedup: "processors,steps,speedup,speedup_bound,burdened_steps,burdened_speedup
1,630747,1.000,1.000,630747,1.000
2,315398,1.999,2.000,421588,1.496
4,157937,3.993,4.000,317008,1.989
8,79224,7.961,8.000,264718,2.382
16,40137,15.714,16.000,238573,2.643
32,20820,30.295,32.000,225501,2.797
64,11118,56.732,64.000,218965,2.880
",
};

#[test]
fn reports_as_expected(rt: HostRuntime) -> Result<(), Fail> {
    holds(rt, &EXAMPLE)
}
