//! The loop that writes every text to a sink, and the line of a fault.

ghost use Rattle.std.specs.Prelude.{◌≡◌, [], ◌<◌, ◌-◌, ◌^◌, ◌++◌, codes, decimal};
ghost use Rattle.cw_text.specs.Faults.{fault_text};
ghost use Rattle.cw_report.specs.Sinks.{Writes};
ghost use Rattle.cw_report.specs.Texts.{line_after, trap_line};

use crate::sink::Sink;
use cw_text::Fault;
use itoa::Buffer;

/// Writes the whole text. If the text is empty, the sink is not called.
///
/// Requires that fewer than 2^64 - 1 writes to the sink failed before.
///
/// # Errors
///
/// `Fault::Write` if a write failed or took no byte. The sink took a prefix of the text, and counts one more failed
/// write.
pub fn write_text<W: Sink>(to: &mut W, text: &[u8]) -> Result<(), Fault>
    requires { (W.seen to.old).failures < 2 ^ 64 - 1 }
    ensures idle { text.now ≡ [] → to.new ≡ to.old }
    ensures writes { Writes (W.seen to.old) (W.seen to.new) text.now result }
{
    let mut rest = text;
    while !rest.is_empty() {
        match to.put(rest) {
            Ok(0) => return Err(Fault::Write),
            Ok(n) => rest = &rest[n..],
            Err(_) => return Err(Fault::Write),
        }
    }
    Ok(())
}

/// Writes the line of a fault, with its line feed. Allocates nothing.
///
/// Requires that fewer than 2^64 - 1 writes to the sink failed before.
///
/// # Errors
///
/// The error of `write_text`.
pub fn write_fault<W: Sink>(to: &mut W, fault: &Fault) -> Result<(), Fault>
    requires { (W.seen to.old).failures < 2 ^ 64 - 1 }
    ensures { Writes (W.seen to.old) (W.seen to.new) (fault_text fault.now ++ codes "\n") result }
{
    match fault {
        Fault::Lexical(place) => write_line(to, b"refused 1 line ", place.line),
        Fault::Syntax(place) => write_line(to, b"refused 2 line ", place.line),
        Fault::Types(place) => write_line(to, b"refused 3 line ", place.line),
        Fault::Ownership(place) => write_line(to, b"refused 4 line ", place.line),
        Fault::Size(place) => write_line(to, b"refused 5 line ", place.line),
        Fault::Code => write_text(to, b"refused 6\n"),
        Fault::OverLimit => write_text(to, b"over limit\n"),
        Fault::Trap { code, line, .. } => { write_trap(to, u32::from(code.number()), *line) }
        Fault::Memory => write_text(to, b"memory\n"),
        Fault::Write => write_text(to, b"write failed\n"),
        Fault::Arguments => write_text(to, b"arguments\n"),
        Fault::Strands(_) => write_text(to, b"too many strands\n"),
    }
}

// Writes the line of a trap.
fn write_trap<W: Sink>(to: &mut W, number: u32, line: u32) -> Result<(), Fault>
    requires { (W.seen to.old).failures < 2 ^ 64 - 1 }
    ensures { Writes (W.seen to.old) (W.seen to.new) (trap_line number line) result }
{
    write_number(to, b"trap ", number)?;
    write_line(to, b" line ", line)
}

// Writes a text, then a number and a line feed.
fn write_line<W: Sink>(to: &mut W, front: &[u8], number: u32) -> Result<(), Fault>
    requires { (W.seen to.old).failures < 2 ^ 64 - 1 }
    ensures { Writes (W.seen to.old) (W.seen to.new) (line_after front.now number) result }
{
    write_number(to, front, number)?;
    write_text(to, b"\n")
}

// Writes a text, then a number.
fn write_number<W: Sink>(to: &mut W, front: &[u8], number: u32) -> Result<(), Fault>
    requires { (W.seen to.old).failures < 2 ^ 64 - 1 }
    ensures { Writes (W.seen to.old) (W.seen to.new) (front.now ++ decimal number) result }
{
    write_text(to, front)?;
    let mut buffer = Buffer::new();
    write_text(to, buffer.format(number).as_bytes())
}
