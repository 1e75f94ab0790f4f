//! A monoid at a concrete type, called through its bound.

ghost use Rattle.std.specs.Prelude.{◌≡◌, IfOk};

use cw_model::monoid::Monoid;
use std::alloc::{AllocError, Global};
use std::marker::Model;
use std::test::Fail;

/// A list of numbers.
#[derive(Drop)]
struct Listed {
    numbers: Vec<u8>,
}

impl Model for Listed {
    ghost use Rattle.std.specs.Prelude.{List, ℕ};

    ghost Value = { List ℕ };

    ghost view = { λ l. l.numbers.items };
}

impl Monoid for Listed {
    ghost use Rattle.std.specs.Prelude.{◌++◌, []};
    ghost use Rattle.std.proofs.Common.{rules};
    ghost use Rattle.std.proofs.lemmas.Grind.{common_steps};

    ghost empty = { [] };

    ghost joined = { λ x y. x ++ y };

    fn unit(alloc: Global) -> Listed {
        Listed {
            numbers: Vec::new(alloc),
        }
    }

    fn join(self, right: Listed) -> Result<Listed, AllocError> {
        let mut numbers = self.numbers;
        numbers.extend_from_slice(right.numbers.as_slice())?;
        Ok(Listed { numbers })
    }

    ghost unit_first = { Prim.search (rules, common_steps) };

    ghost unit_last = { Prim.search (rules, common_steps) };

    ghost associative = { Prim.search (rules, common_steps) };
}

/// Joins three values in order, grouped to the right.
fn join_three<M: Monoid + Drop>(a: M, b: M, c: M) -> Result<M, AllocError>
    ensures { IfOk result (λ whole. whole ≡ M.joined (M.joined a b) c) }
{
    let tail = b.join(c)?;
    let whole = a.join(tail)?;
    Ok(whole)
}

#[test]
fn parts_are_joined_in_order(rt: HostRuntime) -> Result<(), Fail> {
    let alloc = rt.alloc();
    let first = Listed {
        numbers: vec![in alloc; 1, 2]?,
    };
    let last = Listed {
        numbers: vec![in alloc; 3]?,
    };
    let whole = join_three(first, Listed::unit(alloc), last)?;
    assert_eq!(rt; whole.numbers.as_slice(), [1, 2, 3].as_slice());
    Ok(())
}
