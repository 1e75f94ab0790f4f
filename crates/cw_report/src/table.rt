//! A table as CSV in memory, which the crate `csv` writes row by row.

ghost use Rattle.std.specs.Prelude.{◌≡◌, ◌≤◌, ℕ, List, [], IfOk, length, map};
ghost use Rattle.cw_model.specs.Report.{csv_line};
ghost use Rattle.cw_report.specs.Tables.{Adds, Holds};

use csv::Writer;
use std::alloc::{AllocError, Global};

/// A table under construction.
#[derive(Drop)]
pub struct Table {
    writer: Writer<Vec<u8>>,
}

impl Table {
    /// Creates a table with the names of its columns, two or more, and no other row.
    ///
    /// # Errors
    ///
    /// `AllocError` if memory runs out.
    pub fn titled(alloc: Global, names: &[&[u8]]) -> Result<Self, AllocError>
        requires { 2 ≤ length names.now }
        ensures { IfOk result (λ table. Holds table (csv_line (map (λ f. f.now) names.now))) }
    {
        let mut table = Table::new(alloc);
        table.push(names)?;
        Ok(table)
    }

    // Creates a table without rows.
    fn new(alloc: Global) -> Self
        ensures { Holds result [] }
    {
        Table {
            writer: Writer::from_writer(Vec::new(alloc)),
        }
    }

    /// Adds a row of two fields or more, each quoted if necessary.
    ///
    /// # Errors
    ///
    /// `AllocError` if memory runs out.
    pub fn push(&mut self, fields: &[&[u8]]) -> Result<(), AllocError>
        requires { 2 ≤ length fields.now }
        ensures { Adds self.old self.new (csv_line (map (λ f. f.now) fields.now)) result }
    {
        if self.writer.write_fields(fields).is_err() {
            return Err(AllocError);
        }
        Ok(())
    }

    /// Returns the text of all rows.
    ///
    /// # Errors
    ///
    /// `AllocError` if memory runs out.
    pub fn into_text(self) -> Result<Vec<u8>, AllocError>
        ensures { IfOk result (λ text. (all : List ℕ) → Holds self all → text.items ≡ all) }
    {
        let Table { writer } = self;
        match writer.into_inner() {
            Ok(text) => Ok(text),
            Err(_) => Err(AllocError),
        }
    }
}
