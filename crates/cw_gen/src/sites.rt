//! The call sites of functions, in source order.

ghost use Rattle.std.specs.Prelude.{◌≡◌, IfOk};
ghost use Rattle.cw_code.specs.Code as code;
ghost use Rattle.cw_gen.specs.Emit as spec;
ghost use Rattle.cw_gen.specs.Written as written;
ghost use Rattle.cw_gen.specs.Written.{AddsSites, call_site, seen_sites};
ghost use Rattle.cw_tree.specs.ResolvedView.{block_of, stmt_of};

use cw_code::code::Site;
use cw_tree::resolved::{Call, Function, Line, Stmt};
use std::alloc::{AllocError, Global};

/// Returns the call sites of functions, in source order.
///
/// # Errors
///
/// Returns an error if memory runs out.
pub(crate) fn sites_of(alloc: Global, functions: &[Function]) -> Result<Vec<Site>, AllocError>
    ensures { IfOk result (λ sites. seen_sites sites.items ≡ written.sites_of functions.now) }
{
    let mut sites = Vec::new(alloc);
    for f in functions {
        sites_in(alloc, &mut sites, &f.body)?;
    }
    Ok(sites)
}

// Appends the call sites of a block, in source order.
#[cycle(sites)]
fn sites_in(alloc: Global, sites: &mut Vec<Site>, lines: &[Line]) -> Result<(), AllocError>
    ensures { AddsSites sites.old sites.new (spec.emitted_sites_in (block_of lines.now)) result }
{
    for line in lines {
        sites_at(alloc, sites, line.line, &line.stmt)?;
    }
    Ok(())
}

// Appends the call sites of a statement in this line, in source order.
#[cycle(sites)]
fn sites_at(alloc: Global, sites: &mut Vec<Site>, line: u32, stmt: &Stmt) -> Result<(), AllocError>
    ensures { AddsSites sites.old sites.new (spec.emitted_sites line (stmt_of stmt.now)) result }
{
    match stmt {
        Stmt::Call(c) => {
            sites.push(site_of(alloc, line, c)?)?;
            Ok(())
        }
        Stmt::If(_, b) | Stmt::While(_, b) => sites_in(alloc, sites, b),
        Stmt::For(_, b) => sites_in(alloc, sites, b),
        Stmt::IfElse(_, b, c) => {
            sites_in(alloc, sites, b)?;
            sites_in(alloc, sites, c)
        }
        Stmt::Scope(b) => sites_in(alloc, sites, b),
        Stmt::Cut(_, b) => sites_in(alloc, sites, b),
        Stmt::Region(_, b) => sites_in(alloc, sites, b),
        Stmt::Declare(_, _)
        | Stmt::DeclareArray(_, _)
        | Stmt::Assign(_, _)
        | Stmt::AssignElement(_, _, _)
        | Stmt::Reduce(_, _, _)
        | Stmt::Sync
        | Stmt::Print(_)
        | Stmt::Return(_) => Ok(()),
    }
}

// Returns the call site of a call in this line, with the name of its callee.
fn site_of(alloc: Global, line: u32, c: &Call) -> Result<Site, AllocError>
    ensures { IfOk result (λ made. code.site_view made ≡ call_site line c.now) }
{
    let callee = c.callee.name.share(alloc)?;
    Ok(Site {
        number: c.site,
        kind: c.kind,
        line,
        callee,
        function: c.callee.index,
    })
}
