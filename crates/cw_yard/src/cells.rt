//! The steps at a cell. Each is one step at the cell's word.
ghost use Rattle.std.specs.Prelude.{◌≡◌, ◌<◌, ◌+◌, ◌^◌, ℕ, IfOk, [], ◌∷◌, true, false, None, Some};
ghost use Rattle.cw_jobs.specs.declared.job.Job.{Job};
ghost use Rattle.cw_yard.specs.declared.view.Stage.{Stage};
ghost use Rattle.cw_yard.specs.declared.view.Stage.TheVariants.{Free, Held, Out, Back, Taken};
ghost use Rattle.cw_yard.specs.declared.view.CellView.TheVariants.{Idle, Rest, Owner, Duty};
ghost use Rattle.cw_yard.specs.declared.left.Left.{Left};
ghost use Rattle.cw_yard.specs.Cells.{Kept, Means, dealt, duty, back, rest_of, owner_of};
ghost use Rattle.cw_yard.specs.Steps.{Fitting, Gains, Reads, IsWhole, HoldsAs, PutsFrom, Empties};

use crate::left::Left;
use crate::view::CellView;
use atomic_table::{Join, Play, Seat, Shared, Split, Table, TableRule};
use cw_jobs::job::Job;
use std::alloc::{AllocError, Global};
use std::marker::{Brand, PhantomData};

pub struct CellRule;

impl TableRule<Option<Left>, CellView, ()> for CellRule {
    ghost holds = { λ _. Kept };

    ghost first = { λ _. Rest 0 };
}

pub type Cells = Shared<Option<Left>, CellView, (), CellRule>;

pub type Token = Seat<Option<Left>, CellView>;

/// The stage at which a cell is opened: held for a number and its job. Each call of a program picks it.
pub trait Holding {
    ghost stage: { Stage };
}

impl Holding for Brand {
    ghost stage = { Free };
}

pub struct Opens<B> {
    of: PhantomData<B>,
}

impl<B: Holding> Play<Option<Left>, CellView> for Opens<B> {
    ghost then = { λ s me r n. HoldsAs s.word B.stage n };
}

pub struct Frees;

impl Play<Option<Left>, CellView> for Frees {
    ghost then = { λ s me r n. (n ≡ (Owner s.word Free, [])) × Gains me.0 };
}

pub struct Puts;

impl Play<Option<Left>, CellView> for Puts {
    ghost then = { λ s me r n. PutsFrom s.word me.0 n };
}

pub struct Marks;

impl Play<Option<Left>, CellView> for Marks {
    ghost then = { λ s me r n. n ≡ (Idle, []) };
}

pub struct ReadsMark;

impl Play<Option<Left>, CellView> for ReadsMark {
    ghost then = { λ s me r n. Reads s.word me.0 r n };
}

pub struct Deals;

impl Split<CellView> for Deals {
    ghost left = { dealt };

    ghost right = { duty };
}

impl Join<CellView> for Deals {
    ghost both = { back };

    ghost spent = { Idle };
}

pub struct Cuts;

impl Split<CellView> for Cuts {
    ghost left = { rest_of };

    ghost right = { owner_of };
}

pub type CellTable = Table<Option<Left>, CellView, (), CellRule, Global>;

/// Returns a table of `cells` free cells, and the token that owns them.
///
/// # Errors
///
/// An `AllocError` if there is not enough memory.
pub fn new(alloc: Global, cells: usize) -> Result<(CellTable, Token), AllocError>
    requires { cells < 2 ^ 60 }
    ensures { IfOk result (λ r. IsWhole cells r.0.shared.table_id r.1) }
{
    let words = Vec::from_elem(alloc, 0u64, cells + 1)?;
    Table::vacant(alloc, words.as_slice(), cells, &())
}

/// Splits off the token of the next cell.
pub fn cut(table: &Cells, all: &mut Token, next: usize) -> Token
    requires table { Fitting table.now.table_id all.old.table_id next }
    requires rest { all.old.me ≡ (Rest next, []) }
    ensures same { (all.new.table_id ≡ all.old.table_id) × (result.table_id ≡ all.old.table_id) }
    ensures rest { all.new.me ≡ (Rest (next + 1), []) }
    ensures free { result.me ≡ (Owner next Free, []) }
{
    table.split_seat::<Cuts>(all)
}

/// Opens a cell for its owner. The word of the cell stays 0; only a full cell has another word.
pub fn open<B: Holding>(table: &Cells, token: &mut Token, cell: usize)
    requires table { Fitting table.now.table_id token.old.table_id cell }
    requires free { token.old.me ≡ (Owner cell Free, []) }
    requires stage { (n : ℕ) × (j : Job) × (B.stage ≡ Held n j) }
    ensures same { token.new.table_id ≡ token.old.table_id }
    ensures held { HoldsAs cell B.stage token.new.me }
{
    table.load::<Opens<B>>(token, cell);
}

/// Returns the duty of a held cell.
pub fn deal(table: &Cells, token: &mut Token, cell: usize) -> Token
    requires table { Fitting table.now.table_id token.old.table_id cell }
    requires held { (n : ℕ) × (j : Job) × (token.old.me ≡ (Owner cell (Held n j), [])) }
    ensures same { (token.new.table_id ≡ token.old.table_id)
        × (result.table_id ≡ token.old.table_id) }
    ensures out { token.new.me ≡ (dealt token.old.me.0, []) }
    ensures duty { result.me ≡ (duty token.old.me.0, []) }
{
    table.split_seat::<Deals>(token)
}

/// Takes the duty back and frees the cell. The duty must name the job of this ticket.
pub fn undo(table: &Cells, token: &mut Token, other: Token, cell: usize)
    requires table { Fitting table.now.table_id token.old.table_id cell
        × (other.table_id ≡ table.now.table_id) }
    requires out { (n : ℕ) × (j : Job) × (token.old.me ≡ (Owner cell (Out n j), [])) }
    requires duty { (n : ℕ) × (j : Job) × (other.me ≡ (Duty cell false n j, [])) }
    ensures same { token.new.table_id ≡ token.old.table_id }
    ensures free { token.new.me ≡ (Owner cell Free, []) }
    ensures job { Gains (back token.old.me.0 other.me.0) }
{
    table.join_seat::<Deals>(token, other);
    table.load::<Frees>(token, cell);
}

/// Puts an effect into the slot of a cell, then marks the cell full.
pub fn settle(table: &Cells, mut token: Token, cell: usize, left: Left)
    requires table { Fitting table.now.table_id token.table_id cell }
    requires means { (n : ℕ) × (j : Job) × (token.me ≡ (Duty cell false n j, []))
        × Means j left }
{
    table.load::<Puts>(&mut token, cell);
    let _none = table.exchange(&mut token, cell, Some(left));
    table.store::<Marks>(&mut token, cell, 2);
}

/// Returns the effect in a cell and frees the cell, if its mark is set; otherwise changes nothing.
pub fn collect(table: &Cells, token: &mut Token, cell: usize) -> Option<Left>
    requires table { Fitting table.now.table_id token.old.table_id cell }
    requires out { (n : ℕ) × (j : Job) × (token.old.me ≡ (Owner cell (Out n j), [])) }
    ensures same { token.new.table_id ≡ token.old.table_id }
    ensures later { result ≡ None → token.new.me ≡ token.old.me }
    ensures done { (e : Left) → result ≡ Some e → Empties cell token.old.me token.new.me e }
{
    if table.load::<ReadsMark>(token, cell) != 2 {
        return None;
    }
    let left = table.exchange(token, cell, None);
    table.store::<Frees>(token, cell, 0);
    left
}
