//! The text of a page, built completely before any byte is written.

ghost use Rattle.std.specs.Prelude.{◌≡◌, ◌≤◌, ◌∷◌, ◌++◌, ℤ, List, IfErr, drop, length, take};
ghost use Rattle.std.specs.Fmt.{signed_decimal};
ghost use Rattle.cw_code.specs.Code.{code_view};
ghost use Rattle.cw_report.specs.Pages.{
  about_line,
  about_of,
  edges_word,
  head_of,
  hole,
  lines_in,
  lines_within,
  page_around,
  page_of,
  program_of,
  reports_of,
  results_of,
  settings_of,
  shown_output,
  spaced,
  title_of,
};
ghost use Rattle.cw_report.specs.Pages as pages;
ghost use Rattle.cw_report.specs.Texts.{Grows, Makes};

use crate::drawing::{Drawn, MOST_OUTPUT_BYTES};
use crate::escaping::push_escaped;
use crate::gain_table::gain_text;
use crate::page_frame;
use crate::page_script::script;
use crate::page_style::style;
use crate::speedup_table::speedup_text;
use crate::tables::{scale_text, sites_text};
use crate::text::output_text;
use cw_code::code::Code;
use cw_machine::alone::Ended;
use cw_model::burden::{Burden, Edges};
use cw_text::Fault;
use itoa::Buffer;
use std::alloc::Global;

/// Returns the page of a run of code.
///
/// # Errors
///
/// `Fault::Memory` if there is no memory for the text.
pub fn page_text(
    alloc: Global,
    name: &[u8],
    version: &[u8],
    args: &[i64],
    burden: Burden,
    source: &[u8],
    code: &Code,
    drawn: &Drawn,
) -> Result<Vec<u8>, Fault>
    ensures ok { Makes (pages.drawn_page name.now version.now args.now burden source.now
        (code_view code.now) drawn.now) result }
    ensures why { IfErr result (λ e. e ≡ Fault.Memory) }
{
    let output = output_text(alloc, code, &drawn.ended)?;
    let title = title_text(alloc, name, args)?;
    let about = about_text(
        alloc,
        version,
        args,
        burden,
        &drawn.ended,
        output.as_slice(),
    )?;
    page_around(
        alloc,
        title.as_slice(),
        about.as_slice(),
        output.as_slice(),
        source,
        code,
        drawn,
    )
}

// Returns the page of a run of code with this title, these settings and this output.
fn page_around(
    alloc: Global,
    title: &[u8],
    about: &[u8],
    output: &[u8],
    source: &[u8],
    code: &Code,
    drawn: &Drawn,
) -> Result<Vec<u8>, Fault>
    ensures ok { Makes (page_around title.now about.now output.now source.now (code_view code.now)
        drawn.now) result }
    ensures why { IfErr result (λ e. e ≡ Fault.Memory) }
{
    let scale = scale_text(alloc, &drawn.ended)?;
    let speedup = speedup_text(alloc, &drawn.speedup)?;
    let gain = gain_text(alloc, &drawn.gains)?;
    let sites = sites_text(alloc, code, &drawn.ended)?;
    whole(
        alloc,
        title,
        about,
        scale.as_slice(),
        speedup.as_slice(),
        gain.as_slice(),
        sites.as_slice(),
        shown(output),
        source,
    )
}

// Returns a page with these texts in its holes.
fn whole(
    alloc: Global,
    title: &[u8],
    about: &[u8],
    scale: &[u8],
    speedup: &[u8],
    gain: &[u8],
    sites: &[u8],
    output: &[u8],
    source: &[u8],
) -> Result<Vec<u8>, Fault>
    ensures ok { Makes (page_of title.now about.now scale.now speedup.now gain.now sites.now
        output.now source.now) result }
    ensures why { IfErr result (λ e. e ≡ Fault.Memory) }
{
    let mut page = Vec::new(alloc);
    push_head(&mut page, title)?;
    push_reports(&mut page, about, scale, speedup, gain, sites)?;
    push_program(&mut page, output, source)?;
    Ok(page)
}

// Appends the page up to its heading.
fn push_head(page: &mut Vec<u8>, title: &[u8]) -> Result<(), Fault>
    ensures ok { Grows page.old page.new (head_of title.now) result }
    ensures why { IfErr result (λ e. e ≡ Fault.Memory) }
{
    push_hole(page, page_frame::before_title(), title)?;
    page.extend_from_slice(page_frame::before_style())?;
    page.extend_from_slice(style())?;
    page.extend_from_slice(page_frame::before_script())?;
    page.extend_from_slice(script())?;
    push_hole(page, page_frame::before_heading(), title)
}

// Appends the settings of the run and its reports.
fn push_reports(
    page: &mut Vec<u8>,
    about: &[u8],
    scale: &[u8],
    speedup: &[u8],
    gain: &[u8],
    sites: &[u8],
) -> Result<(), Fault>
    ensures ok { Grows page.old page.new
        (reports_of about.now scale.now speedup.now gain.now sites.now) result }
    ensures why { IfErr result (λ e. e ≡ Fault.Memory) }
{
    push_hole(page, page_frame::before_about(), about)?;
    push_hole(page, page_frame::before_scale(), scale)?;
    push_hole(page, page_frame::before_speedup(), speedup)?;
    push_hole(page, page_frame::before_gain(), gain)?;
    push_hole(page, page_frame::before_sites(), sites)
}

// Appends the output and the source of the program.
fn push_program(page: &mut Vec<u8>, output: &[u8], source: &[u8]) -> Result<(), Fault>
    ensures ok { Grows page.old page.new (program_of output.now source.now) result }
    ensures why { IfErr result (λ e. e ≡ Fault.Memory) }
{
    push_hole(page, page_frame::before_output(), output)?;
    push_hole(page, page_frame::before_source(), source)?;
    page.extend_from_slice(page_frame::end())?;
    Ok(())
}

// Appends a constant piece and the text in the hole after it.
fn push_hole(page: &mut Vec<u8>, piece: &[u8], text: &[u8]) -> Result<(), Fault>
    ensures ok { Grows page.old page.new (hole piece.now text.now) result }
    ensures why { IfErr result (λ e. e ≡ Fault.Memory) }
{
    page.extend_from_slice(piece)?;
    push_escaped(page, text)
}

// Returns the arguments of `main`, each after a space.
fn spaced_text(alloc: Global, args: &[i64]) -> Result<Vec<u8>, Fault>
    ensures ok { Makes (spaced args.now) result }
    ensures why { IfErr result (λ e. e ≡ Fault.Memory) }
{
    let mut text = Vec::new(alloc);
    for arg in args {
        push_argument(&mut text, *arg)?;
    }
    Ok(text)
}

// Appends an argument after a space.
fn push_argument(text: &mut Vec<u8>, arg: i64) -> Result<(), Fault>
    ensures ok { Grows text.old text.new (32 ∷ signed_decimal arg) result }
    ensures why { IfErr result (λ e. e ≡ Fault.Memory) }
{
    let mut buffer = Buffer::new();
    text.push(b' ')?;
    text.extend_from_slice(buffer.format(arg).as_bytes())?;
    Ok(())
}

// Returns the title of a page: the name of the file, and the arguments after it.
fn title_text(alloc: Global, name: &[u8], args: &[i64]) -> Result<Vec<u8>, Fault>
    ensures ok { Makes (title_of name.now args.now) result }
    ensures why { IfErr result (λ e. e ≡ Fault.Memory) }
{
    let words = spaced_text(alloc, args)?;
    let mut text = Vec::from_slice(alloc, name)?;
    text.extend_from_slice(words.as_slice())?;
    Ok(text)
}

// Returns the settings of a run.
fn about_text(
    alloc: Global,
    version: &[u8],
    args: &[i64],
    burden: Burden,
    ended: &Ended,
    output: &[u8],
) -> Result<Vec<u8>, Fault>
    ensures ok { Makes (about_of version.now args.now burden ended.now.value (lines_in output.now))
        result }
    ensures why { IfErr result (λ e. e ≡ Fault.Memory) }
{
    let words = spaced_text(alloc, args)?;
    let mut text = Vec::new(alloc);
    push_settings(&mut text, version, words.as_slice(), burden)?;
    push_results(&mut text, ended.value, lines_in(output))?;
    Ok(text)
}

// Appends the settings of a run, from its arguments with a space before each.
fn push_settings(
    text: &mut Vec<u8>,
    version: &[u8],
    words: &[u8],
    burden: Burden,
) -> Result<(), Fault>
    ensures ok { Grows text.old text.new (settings_of version.now words.now burden) result }
    ensures why { IfErr result (λ e. e ≡ Fault.Memory) }
{
    let mut charge = Buffer::new();
    push_line(text, b"name", b"value")?;
    push_line(text, b"version", version)?;
    push_line(text, b"arguments", without_first(words))?;
    push_line(text, b"burden", charge.format(burden.charge).as_bytes())?;
    push_line(text, b"edges", edges_text(burden.edges))
}

// Appends the value of a run and the number of lines of its output.
fn push_results(text: &mut Vec<u8>, value: i64, lines: usize) -> Result<(), Fault>
    ensures ok { Grows text.old text.new (results_of value lines) result }
    ensures why { IfErr result (λ e. e ≡ Fault.Memory) }
{
    let mut first = Buffer::new();
    let mut second = Buffer::new();
    push_line(text, b"value", first.format(value).as_bytes())?;
    push_line(text, b"output_lines", second.format(lines).as_bytes())
}

// Appends a line with a name and a value.
fn push_line(text: &mut Vec<u8>, name: &[u8], value: &[u8]) -> Result<(), Fault>
    ensures ok { Grows text.old text.new (about_line name.now value.now) result }
    ensures why { IfErr result (λ e. e ≡ Fault.Memory) }
{
    text.extend_from_slice(name)?;
    text.extend_from_slice(b",")?;
    text.extend_from_slice(value)?;
    text.push(b'\n')?;
    Ok(())
}

// Returns a text without its first byte.
fn without_first(text: &[u8]) -> &[u8]
    ensures { result.now ≡ drop 1 text.now }
{
    match text.split_first() {
        Some((_, rest)) => rest,
        None => text,
    }
}

// Returns the word for the edges that a burden is charged on.
fn edges_text(edges: Edges) -> &'static [u8]
    ensures { result.now ≡ edges_word edges }
{
    match edges {
        Edges::Spawn => b"spawn",
        Edges::Both => b"both",
    }
}

// Returns the number of lines of a text.
fn lines_in(text: &[u8]) -> usize
    ensures { result ≡ lines_in text.now }
{
    let mut lines = 0;
    for byte in text {
        if *byte == b'\n' {
            lines += 1;
        }
    }
    lines
}

// Returns an output as a page shows it.
fn shown(output: &[u8]) -> &[u8]
    ensures { result.now ≡ shown_output output.now }
{
    if output.len() <= MOST_OUTPUT_BYTES {
        return output;
    }
    let end = end_of_lines(output, MOST_OUTPUT_BYTES);
    &output[..end]
}

// Returns the length of the longest beginning of at most `most` bytes that ends with a line feed.
fn end_of_lines(text: &[u8], most: usize) -> usize
    requires { most ≤ length text.now }
    ensures bound { result ≤ length text.now }
    ensures text { take result text.now ≡ lines_within most text.now }
{
    let mut end = most;
    while end > 0 && text[end - 1] != b'\n' {
        end -= 1;
    }
    end
}
