//! The distinct tags of a program.

ghost use Rattle.std.specs.Prelude.{◌≡◌, ◌<◌, ◌^◌, length, IfOk};
ghost use Rattle.cw_types.specs.Regions.{AreFirst, tags_of};

use crate::known::Known;
use crate::regions::Marked;
use crate::table::Table;
use cw_model::syntax::NameKind;
use cw_tree::syntax::Name;
use std::alloc::{AllocError, Global};

/// Returns the first region of each tag.
///
/// # Errors
///
/// Returns an error if memory runs out.
pub fn different<'a>(alloc: Global, regions: &[Marked<'a>]) -> Result<Vec<Marked<'a>>, AllocError>
    ensures { IfOk result (AreFirst regions.now) }
{
    let mut seen = Known::new(alloc);
    let mut found = Vec::new(alloc);
    for region in regions {
        if !seen.has(region.tag) {
            seen.declare(region.tag, NameKind::Integer, region.line)?;
            found.push(*region)?;
        }
    }
    Ok(found)
}

/// Returns a table of the tags of these regions.
///
/// # Errors
///
/// Returns an error if memory runs out.
pub fn tag_table<'a>(alloc: Global, regions: &[Marked<'a>]) -> Result<Table<'a>, AllocError>
    requires { length regions.now < 2 ^ 32 }
    ensures { IfOk result (λ names. names ≡ tags_of regions.now) }
{
    let mut names = Table::new(alloc);
    for region in regions {
        names.add(region.tag)?;
    }
    Ok(names)
}

/// Returns copies of the tags of these regions.
///
/// # Errors
///
/// Returns an error if memory runs out.
pub fn tag_names(alloc: Global, regions: &[Marked]) -> Result<Vec<Name>, AllocError>
    ensures { IfOk result (λ names. names.items ≡ tags_of regions.now) }
{
    let mut names = Vec::new(alloc);
    for region in regions {
        let name = Name::new(alloc, region.tag)?;
        names.push(name)?;
    }
    Ok(names)
}
