//! The columns of aligned tables.

ghost use Rattle.std.specs.Prelude.{◌≡◌};
ghost use Rattle.cw_report.specs.Layouts as layouts;

/// A column of an aligned table: the fields of a CSV line that it shows, counted from 0.
#[derive(Clone, Copy)]
pub enum Column {
    /// A word, flush left.
    Word(usize),
    /// The number of a line or of a call site, flush right.
    Label(usize),
    /// A number, flush right and with thousands separators.
    Number(usize),
    /// The share that the first field has of the work, in percent. The work is the second field of the first row.
    OfWork(usize, usize),
    /// The share that the first field has of the span, in percent. The span is the second field of the first row.
    OfSpan(usize, usize),
}

// Returns the columns of the scale report.
pub(crate) fn of_scale() -> &'static [Column]
    ensures { result.now ≡ layouts.scale_columns }
{
    &[
        Column::Word(0),
        Column::Number(1),
        Column::Number(2),
        Column::Number(3),
        Column::Number(4),
        Column::Number(5),
    ]
}

// Returns the columns of the sites report.
pub(crate) fn of_sites() -> &'static [Column]
    ensures { result.now ≡ layouts.sites_columns }
{
    &[
        Column::Label(0),
        Column::Word(1),
        Column::Label(2),
        Column::Word(3),
        Column::Number(4),
        Column::Number(5),
        Column::OfWork(5, 7),
        Column::Number(6),
        Column::OfSpan(6, 8),
        Column::Number(7),
        Column::Number(8),
    ]
}

// Returns the columns of the gain report.
pub(crate) fn of_gain() -> &'static [Column]
    ensures { result.now ≡ layouts.gain_columns }
{
    &[
        Column::Word(0),
        Column::Label(1),
        Column::Number(2),
        Column::Number(3),
        Column::OfWork(3, 3),
        Column::Number(4),
        Column::OfSpan(4, 4),
        Column::Number(5),
        Column::Number(6),
        Column::Number(7),
    ]
}

// Returns the columns of the speedup report.
pub(crate) fn of_speedup() -> &'static [Column]
    ensures { result.now ≡ layouts.speedup_columns }
{
    &[
        Column::Number(0),
        Column::Number(1),
        Column::Number(2),
        Column::Number(3),
        Column::Number(4),
        Column::Number(5),
    ]
}
