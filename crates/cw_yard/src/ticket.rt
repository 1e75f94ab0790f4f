//! Tickets and duties.
ghost use Rattle.std.specs.Prelude.{◌≡◌, ◌<◌, [], true};
ghost use Rattle.cw_yard.specs.declared.view.Stage.TheVariants.{Free};
ghost use Rattle.cw_yard.specs.declared.view.CellView.TheVariants.{Owner};
ghost use Rattle.cw_yard.specs.Words.{is_out, is_duty};

use crate::cells::Token;
use crate::left::Left;

/// The right to take back an offered job or to collect its effect. It must be spent.
pub struct Ticket {
    pub(crate) cell: usize,
    pub(crate) token: Token,
    ghost inside: { cell < token.table_id.slots },
    ghost out: { is_out cell token.me.0 ≡ true },
    ghost empty: { token.me.1 ≡ [] },
}

/// The duty to settle a stolen job, with memory for its effect. It must be spent.
pub struct Duty {
    pub(crate) cell: usize,
    pub(crate) token: Token,
    pub(crate) left: Left,
    ghost inside: { cell < token.table_id.slots },
    ghost open: { is_duty cell token.me.0 ≡ true },
    ghost empty: { token.me.1 ≡ [] },
}

/// A cell without a job.
#[derive(Drop)]
pub struct FreeCell {
    pub cell: usize,
    pub token: Token,
    pub ghost inside: { cell < token.table_id.slots },
    pub ghost free: { token.me ≡ (Owner cell Free, []) },
}

impl Ticket {
    /// Returns the number of the cell that its job has, which the duty of the same job has too.
    pub fn cell(&self) -> usize {
        self.cell
    }
}

impl Duty {
    /// Returns the number of the cell in which the effect of its job is left.
    pub fn cell(&self) -> usize {
        self.cell
    }
}
