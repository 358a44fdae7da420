ghost use Rattle.std.specs.Prelude.{◌≡◌, codes, ◌+◌, ◌∷◌, ◌++◌, [], map, slice_get, IfOk, OnOk};
ghost use Rattle.std.specs.Fmt.{decimal, signed_decimal};
ghost use Rattle.std.specs.Option.{option_copied};
ghost use Rattle.base16.specs.Hexadecimal as hexadecimal;
ghost use Rattle.report.specs.Report.{value_text, end_word, stamp_text, value_line, stamp_line, shown_line, reading_line, commit_line, record_lines, report_lines, line};

use base16::{EndKind, Kind, NoMemory, Reading, Scalar, Sequence, hex4, to_signed};
use std::alloc::Global;
use world::{Record, Shown};

/// Adds a text to a line.
fn push_text(line: &mut Vec<u8>, text: &[u8]) -> Result<(), NoMemory>
    ensures { OnOk result (line.new.items ≡ line.old.items ++ text.now) }
{
    line.extend_from_slice(text)?;
    Ok(())
}

/// Adds a text and a number in decimal.
fn push_number(alloc: Global, line: &mut Vec<u8>, label: &[u8], number: u32) -> Result<(), NoMemory>
    ensures { OnOk result (line.new.items ≡ line.old.items ++ label.now ++ decimal number) }
{
    push_text(line, label)?;
    let digits = number.to_string(alloc)?;
    push_text(line, digits.as_bytes())
}

/// Adds a number in decimal, with its sign where it is below 0.
fn push_signed(alloc: Global, line: &mut Vec<u8>, number: i16) -> Result<(), NoMemory>
    ensures { OnOk result (line.new.items ≡ line.old.items ++ signed_decimal number) }
{
    let digits = number.to_string(alloc)?;
    push_text(line, digits.as_bytes())
}

/// Adds a text and a word in four hexadecimal digits.
fn push_hex(line: &mut Vec<u8>, label: &[u8], word: u16) -> Result<(), NoMemory>
    ensures { OnOk result (line.new.items ≡ line.old.items ++ label.now ++ hexadecimal.hex4 word) }
{
    push_text(line, label)?;
    push_text(line, &hex4(word))
}

/// Ends a line.
fn ended(mut text: Vec<u8>) -> Result<Sequence<u8>, NoMemory>
    ensures { IfOk result (λ ended. ended ≡ line text.items) }
{
    text.push(b'\n')?;
    Ok(Sequence::from_vec(text))
}

/// A line of a text and a number.
fn number_line(alloc: Global, label: &[u8], number: u32) -> Result<Sequence<u8>, NoMemory>
    ensures { IfOk result (λ text. text ≡ line (label.now ++ decimal number)) }
{
    let mut text = Vec::new(alloc);
    push_number(alloc, &mut text, label, number)?;
    ended(text)
}

/// Adds a word as the value of a scalar.
fn push_value(alloc: Global, line: &mut Vec<u8>, kind: Kind, word: u16) -> Result<(), NoMemory>
    ensures { OnOk result (line.new.items ≡ line.old.items ++ value_text kind word) }
{
    match kind {
        Kind::Char | Kind::UInt => push_number(alloc, line, b"", u32::from(word)),
        Kind::Int => push_signed(alloc, line, to_signed(word)),
        Kind::Pointer => push_hex(line, b"", word),
    }
}

/// The line of a scalar's value; nothing where there is no such scalar.
fn value_line(alloc: Global, scalar: Option<&Scalar>, word: u16) -> Result<Sequence<u8>, NoMemory>
    ensures { IfOk result (λ text. text ≡ value_line (option_copied scalar.entry) word) }
{
    let mut text = Vec::new(alloc);
    let Some(scalar) = scalar else {
        return Ok(Sequence::from_vec(text));
    };
    push_text(&mut text, b"set ")?;
    push_text(&mut text, scalar.name.bytes())?;
    push_text(&mut text, b" ")?;
    push_value(alloc, &mut text, scalar.kind, word)?;
    ended(text)
}

/// Adds a stamp in milliseconds, or `none`.
fn push_stamp(alloc: Global, line: &mut Vec<u8>, ms: Option<u32>) -> Result<(), NoMemory>
    ensures { OnOk result (line.new.items ≡ line.old.items ++ stamp_text ms) }
{
    match ms {
        None => push_text(line, b"none"),
        Some(ms) => push_number(alloc, line, b"", ms),
    }
}

/// The line of a scalar's stamp; nothing where there is no such scalar.
fn stamp_line(
    alloc: Global,
    scalar: Option<&Scalar>,
    ms: Option<u32>,
) -> Result<Sequence<u8>, NoMemory>
    ensures { IfOk result (λ text. text ≡ stamp_line (option_copied scalar.entry) ms) }
{
    let mut text = Vec::new(alloc);
    let Some(scalar) = scalar else {
        return Ok(Sequence::from_vec(text));
    };
    push_text(&mut text, b"stamp ")?;
    push_text(&mut text, scalar.name.bytes())?;
    push_text(&mut text, b" ")?;
    push_stamp(alloc, &mut text, ms)?;
    ended(text)
}

/// The line of one difference.
fn shown_line(alloc: Global, scalars: &[Scalar], shown: Shown) -> Result<Sequence<u8>, NoMemory>
    ensures { IfOk result (λ text. text ≡ shown_line scalars.now shown) }
{
    match shown {
        Shown::Value { scalar, word } => value_line(alloc, scalars.get(scalar as usize), word),
        Shown::Stamp { scalar, ms } => stamp_line(alloc, scalars.get(scalar as usize), ms),
        Shown::Outs { length } => number_line(alloc, b"outs ", u32::from(length)),
        Shown::Out { index, word } => {
            let mut text = Vec::new(alloc);
            push_number(alloc, &mut text, b"out ", u32::from(index))?;
            push_number(alloc, &mut text, b" ", u32::from(word))?;
            ended(text)
        }
    }
}

/// The line of a reading.
fn reading_line(alloc: Global, reading: Reading) -> Result<Sequence<u8>, NoMemory>
    ensures { IfOk result (λ text. text ≡ reading_line reading) }
{
    match reading {
        Reading::Sense { channel, value } => {
            let mut text = Vec::new(alloc);
            push_number(alloc, &mut text, b"sense ", u32::from(channel))?;
            push_number(alloc, &mut text, b" ", u32::from(value))?;
            ended(text)
        }
        Reading::Clock { ms } => number_line(alloc, b"clock ", ms),
    }
}

/// The line of an end.
fn end_line(alloc: Global, kind: EndKind) -> Result<Sequence<u8>, NoMemory>
    ensures { IfOk result (λ text. text ≡ line (codes "end " ++ end_word kind)) }
{
    let mut text = Vec::new(alloc);
    push_text(&mut text, b"end ")?;
    match kind {
        EndKind::Done => push_text(&mut text, b"done")?,
        EndKind::Power => push_text(&mut text, b"power")?,
        EndKind::StackFull => push_text(&mut text, b"stack")?,
        EndKind::BlockFull => push_text(&mut text, b"block")?,
        EndKind::OutputFull => push_text(&mut text, b"output")?,
        EndKind::Wild { address } => push_hex(&mut text, b"wild ", address)?,
    }
    ended(text)
}

/// Adds the fields of a commit up to its instructions.
fn push_commit_counts(
    alloc: Global,
    line: &mut Vec<u8>,
    number: u32,
    marks: u32,
    instrs: u32,
) -> Result<(), NoMemory>
    ensures { OnOk result (line.new.items ≡ line.old.items ++ codes "commit " ++ decimal number ++ codes " marks " ++ decimal marks
        ++ codes " instrs " ++ decimal instrs) }
{
    push_number(alloc, line, b"commit ", number)?;
    push_number(alloc, line, b" marks ", marks)?;
    push_number(alloc, line, b" instrs ", instrs)
}

/// Adds the other fields of a commit.
fn push_commit_state(
    alloc: Global,
    line: &mut Vec<u8>,
    pc: u16,
    sp: u16,
    words: u16,
    log: u16,
) -> Result<(), NoMemory>
    ensures { OnOk result (line.new.items ≡ line.old.items ++ codes " pc " ++ hexadecimal.hex4 pc ++ codes " sp "
        ++ hexadecimal.hex4 sp ++ codes " words " ++ decimal words ++ codes " log " ++ decimal log) }
{
    push_hex(line, b" pc ", pc)?;
    push_hex(line, b" sp ", sp)?;
    push_number(alloc, line, b" words ", u32::from(words))?;
    push_number(alloc, line, b" log ", u32::from(log))
}

/// Adds the lines of the differences of a commit.
fn push_shown(
    alloc: Global,
    lines: &mut Vec<Sequence<u8>>,
    scalars: &[Scalar],
    sets: &[Shown],
) -> Result<(), NoMemory>
    ensures { OnOk result (lines.new.items ≡ lines.old.items ++ map (shown_line scalars.now) sets.now) }
{
    for shown in sets {
        lines.push(shown_line(alloc, scalars, *shown)?)?;
    }
    Ok(())
}

/// Adds the lines of one record.
fn push_record(
    alloc: Global,
    lines: &mut Vec<Sequence<u8>>,
    scalars: &[Scalar],
    entry: &Record,
) -> Result<(), NoMemory>
    ensures { OnOk result (lines.new.items ≡ lines.old.items ++ record_lines scalars.now entry.now) }
{
    match entry {
        Record::On { cycle } => lines.push(number_line(alloc, b"on ", *cycle)?)?,
        Record::Read { reading } => lines.push(reading_line(alloc, *reading)?)?,
        Record::Commit {
            number,
            marks,
            instrs,
            pc,
            sp,
            words,
            log,
            sets,
        } => {
            let mut text = Vec::new(alloc);
            push_commit_counts(alloc, &mut text, *number, *marks, *instrs)?;
            push_commit_state(alloc, &mut text, *pc, *sp, *words, *log)?;
            lines.push(ended(text)?)?;
            push_shown(alloc, lines, scalars, sets.as_slice())?;
        }
        Record::Off => {
            let mut text = Vec::new(alloc);
            push_text(&mut text, b"off")?;
            lines.push(ended(text)?)?;
        }
        Record::End { kind } => lines.push(end_line(alloc, *kind)?)?,
    }
    Ok(())
}

/// The lines of the report of a history, each with its line feed, over the scalars of its program. A difference of a scalar
/// that is not there has an empty line.
pub fn report_lines(
    alloc: Global,
    scalars: &[Scalar],
    records: &[Record],
) -> Result<Vec<Sequence<u8>>, NoMemory>
    ensures { IfOk result (λ lines. lines.items ≡ report_lines scalars.now records.now) }
{
    let mut lines = Vec::new(alloc);
    for entry in records {
        push_record(alloc, &mut lines, scalars, entry)?;
    }
    Ok(lines)
}
