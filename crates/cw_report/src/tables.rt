//! The tables of tags, of call sites and of a schedule, built completely before any byte is written.

ghost use Rattle.std.specs.Prelude.{◌≡◌, [], IfErr};
ghost use Rattle.cw_model.specs.Report.{scale_line, site_kind_text};
ghost use Rattle.cw_model.specs.Sites.{Of};
ghost use Rattle.cw_code.specs.Code.{code_view, site_view};
ghost use Rattle.cw_report.specs.Tables.{Adds};
ghost use Rattle.cw_report.specs.Texts.{Makes, told_line};
ghost use Rattle.cw_report.specs.Texts as texts;

use crate::fields::parallelism_text;
use crate::table::Table;
use cw_code::code::{Code, Site};
use cw_greedy_schedule::schedules::Schedule;
use cw_machine::alone::Ended;
use cw_model::syntax::CallKind;
use cw_regions::RegionRow;
use cw_sites::table::SiteRow;
use cw_text::Fault;
use indexmap::IndexMap;
use itoa::Buffer;
use std::alloc::{AllocError, Global};

// The columns of the report on tags.
const SCALE: &[&[u8]] = &[
    b"tag",
    b"work",
    b"span",
    b"parallelism",
    b"burdened_span",
    b"burdened_parallelism",
];

// The columns of the report on call sites.
const SITES: &[&[u8]] = &[
    b"site",
    b"kind",
    b"line",
    b"callee",
    b"calls",
    b"own_work",
    b"own_span",
    b"work",
    b"span",
];

// The columns of the report on a schedule.
const SCHEDULE: &[&[u8]] = &[b"processors", b"work", b"span", b"greedy"];

/// Returns the scale report of a run that ended: work, span and parallelism of the run and of each of its tags, one
/// line each.
///
/// # Errors
///
/// `Fault::Memory` if there is no memory for the text.
pub fn scale_text(alloc: Global, ended: &Ended) -> Result<Vec<u8>, Fault>
    ensures ok { Makes (texts.scale_text ended.now) result }
    ensures why { IfErr result (λ e. e ≡ Fault.Memory) }
{
    let whole = ended.measure;
    let mut table = Table::titled(alloc, SCALE)?;
    push_scale(
        alloc,
        &mut table,
        b"",
        whole.work,
        whole.span,
        whole.burdened,
    )?;
    push_tags(alloc, &mut table, &ended.regions)?;
    let text = table.into_text()?;
    Ok(text)
}

/// Returns the sites report of a run that ended: the measures of the call of `main` by the run itself and of each
/// call site of its code, one line each.
///
/// # Errors
///
/// `Fault::Memory` if there is no memory for the text.
pub fn sites_text(alloc: Global, code: &Code, ended: &Ended) -> Result<Vec<u8>, Fault>
    ensures ok { Makes (texts.sites_text (code_view code.now) ended.now) result }
    ensures why { IfErr result (λ e. e ≡ Fault.Memory) }
{
    let mut table = Table::titled(alloc, SITES)?;
    push_rows(&mut table, code, ended.sites.values().as_slice())?;
    let text = table.into_text()?;
    Ok(text)
}

/// Returns the schedule report of a run that ended: its schedule, on one line.
///
/// # Errors
///
/// `Fault::Memory` if there is no memory for the text.
pub fn schedule_text(alloc: Global, schedule: &Schedule) -> Result<Vec<u8>, Fault>
    ensures ok { Makes (texts.schedule_text schedule.now) result }
    ensures why { IfErr result (λ e. e ≡ Fault.Memory) }
{
    let mut table = Table::titled(alloc, SCHEDULE)?;
    push_schedule(&mut table, schedule)?;
    let text = table.into_text()?;
    Ok(text)
}

// Adds the line of the schedule report.
fn push_schedule(table: &mut Table, schedule: &Schedule) -> Result<(), AllocError>
    ensures { Adds table.old table.new (texts.schedule_line schedule.now) result }
{
    let mut first = (Buffer::new(), Buffer::new());
    let mut last = (Buffer::new(), Buffer::new());
    table.push(&[
        first.0.format(schedule.processors).as_bytes(),
        first.1.format(schedule.work).as_bytes(),
        last.0.format(schedule.span).as_bytes(),
        last.1.format(schedule.greedy).as_bytes(),
    ])
}

// Adds a line for each tag, from its row.
fn push_tags(
    alloc: Global,
    table: &mut Table,
    regions: &IndexMap<Vec<u8>, RegionRow>,
) -> Result<(), AllocError>
    ensures { Adds table.old table.new (texts.tag_lines regions.now.entries) result }
{
    for (tag, row) in regions {
        push_scale(
            alloc,
            table,
            tag.as_slice(),
            row.work,
            row.span,
            row.burdened,
        )?;
    }
    Ok(())
}

// Adds a line of the scale report.
fn push_scale(
    alloc: Global,
    table: &mut Table,
    tag: &[u8],
    work: u64,
    span: u64,
    burdened: u128,
) -> Result<(), AllocError>
    ensures { Adds table.old table.new (scale_line tag.now work span burdened) result }
{
    let mut numbers = (Buffer::new(), Buffer::new(), Buffer::new());
    let plain = parallelism_text(alloc, work, u128::from(span))?;
    let with_burden = parallelism_text(alloc, work, burdened)?;
    table.push(&[
        tag,
        numbers.0.format(work).as_bytes(),
        numbers.1.format(span).as_bytes(),
        plain.as_slice(),
        numbers.2.format(burdened).as_bytes(),
        with_burden.as_slice(),
    ])
}

// Adds a line for the call of `main` by the run itself and for each call site, from its row.
fn push_rows(table: &mut Table, code: &Code, rows: &[SiteRow]) -> Result<(), AllocError>
    ensures { Adds table.old table.new (texts.told_rows (code_view code.now) rows.now) result }
{
    match rows.split_first() {
        Some((row, rest)) => {
            push_told(table, 0, b"root", code.main_line, b"main", row)?;
            push_sites(table, code.sites.as_slice(), rest)
        }
        None => Ok(()),
    }
}

// Adds a line for each call site, from its row.
fn push_sites(table: &mut Table, sites: &[Site], rows: &[SiteRow]) -> Result<(), AllocError>
    ensures { Adds table.old table.new (texts.site_lines sites.now rows.now) result }
{
    for (site, row) in sites.iter().zip(rows) {
        push_site(table, site, row)?;
    }
    Ok(())
}

// Adds the line of a call site.
fn push_site(table: &mut Table, site: &Site, row: &SiteRow) -> Result<(), AllocError>
    ensures { Adds table.old table.new (texts.row_line (site_view site.now).told row.now) result }
{
    let kind = kind_text(site.kind);
    push_told(
        table,
        site.number,
        kind,
        site.line,
        site.callee.as_bytes(),
        row,
    )
}

// Adds a line of the sites report: the fields that come from the source, and the measures.
fn push_told(
    table: &mut Table,
    number: u32,
    kind: &[u8],
    line: u32,
    callee: &[u8],
    row: &SiteRow,
) -> Result<(), AllocError>
    ensures { Adds table.old table.new (told_line number kind.now line callee.now row.now) result }
{
    let mut told = (Buffer::new(), Buffer::new());
    let mut own = (Buffer::new(), Buffer::new(), Buffer::new());
    let mut whole = (Buffer::new(), Buffer::new());
    table.push(&[
        told.0.format(number).as_bytes(),
        kind,
        told.1.format(line).as_bytes(),
        callee,
        own.0.format(row.calls).as_bytes(),
        own.1.format(row.own_work).as_bytes(),
        own.2.format(row.own_span).as_bytes(),
        whole.0.format(row.work).as_bytes(),
        whole.1.format(row.span).as_bytes(),
    ])
}

// Returns the word for the kind of a call.
fn kind_text(kind: CallKind) -> &'static [u8]
    ensures { result.now ≡ site_kind_text (Of kind) }
{
    match kind {
        CallKind::Plain => b"call",
        CallKind::Spawned => b"spawn",
    }
}
