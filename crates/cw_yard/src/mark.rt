//! The end mark: one word, in its own table.
ghost use Rattle.std.specs.Prelude.{◌≡◌, ◌+◌, [], ◌∷◌, true, false, IfOk};
ghost use Rattle.cw_yard.specs.declared.mark.MarkView.TheVariants.{Unseen, Seen, Marked};
ghost use Rattle.cw_yard.specs.Marks.{Ends, same, unseen, Finds, HasSeen, HasMarked, IsWatchOf};

use atomic_table::{Play, Seat, Shared, Split, Table, TableRule};
use std::alloc::{AllocError, Global};

/// The knowledge of a token at the mark. No value of this type is made.
pub enum MarkView {
    Unseen,
    Seen,
    Marked,
}

pub struct MarkRule;

impl TableRule<(), MarkView, ()> for MarkRule {
    ghost holds = { λ _. Ends };

    ghost first = { λ _. Unseen };
}

pub type Mark = Shared<(), MarkView, (), MarkRule>;

pub type MarkTable = Table<(), MarkView, (), MarkRule, Global>;

pub type Watch = Seat<(), MarkView>;

pub struct Sets;

impl Play<(), MarkView> for Sets {
    ghost then = { λ s me r n. n.0 ≡ Marked };
}

pub struct Looks;

impl Play<(), MarkView> for Looks {
    ghost then = { λ s me r n. Finds me.0 r n.0 };
}

pub struct Shares;

impl Split<MarkView> for Shares {
    ghost left = { same };

    ghost right = { unseen };
}

/// Returns a mark that is not set, and the token of its first watcher.
///
/// # Errors
///
/// An `AllocError` if there is not enough memory.
pub fn unmarked(alloc: Global) -> Result<(MarkTable, Watch), AllocError>
    ensures { IfOk result (λ r. IsWatchOf r.0.shared.table_id r.1) }
{
    Table::of_words(alloc, &[0u64], &())
}

/// Returns the token of another watcher.
pub fn another(mark: &Mark, watch: &mut Watch) -> Watch
    requires { IsWatchOf mark.now.table_id watch.old }
    ensures of { IsWatchOf mark.now.table_id watch.new × IsWatchOf mark.now.table_id result
        × (watch.new.me.0 ≡ watch.old.me.0) }
    ensures unseen { result.me.0 ≡ Unseen }
{
    mark.split_seat::<Shares>(watch)
}

/// Sets the end mark.
pub fn end(mark: &Mark, watch: &mut Watch)
    requires { IsWatchOf mark.now.table_id watch.old }
    ensures mine { IsWatchOf mark.now.table_id watch.new }
    ensures seen { HasSeen watch.new }
    ensures marked { HasMarked watch.new }
{
    mark.store::<Sets>(watch, 0, 1);
}

/// Returns whether the end mark is set.
pub fn ended(mark: &Mark, watch: &mut Watch) -> bool
    requires { IsWatchOf mark.now.table_id watch.old }
    ensures mine { IsWatchOf mark.now.table_id watch.new }
    ensures seen { HasSeen watch.old → result ≡ true }
    ensures told { result ≡ true → HasSeen watch.new }
    ensures same { result ≡ false → watch.new.me.0 ≡ watch.old.me.0 }
    ensures marks_nothing { HasMarked watch.new → HasMarked watch.old }
{
    mark.load::<Looks>(watch, 0) == 1
}
