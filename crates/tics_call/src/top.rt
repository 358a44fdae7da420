ghost use Rattle.std.specs.Prelude.{◌≡◌, ◌⊎◌, [], Some, None, List, IfOk, OnErr};
ghost use Rattle.std.specs.List.{concat};
ghost use Rattle.edge.specs.Counts.{HasRisen};
ghost use Rattle.edge.specs.Told.{Appends};
ghost use Rattle.world.specs.declared.history.Record.{Record};
ghost use Rattle.tics_front.specs.declared.fault.SourceFault.{SourceFault as ASourceFault};
ghost use Rattle.tics_front.specs.Source.{refusal_text};
ghost use Rattle.tics_meaning.specs.declared.fault.ReadingsFault.{ReadingsFault as AReadingsFault};
ghost use Rattle.tics_meaning.specs.Meant.{readings_text};
ghost use Rattle.tics_call.specs.declared.source.Program.{Program};
ghost use Rattle.tics_call.specs.Command.{Run, Meaning, texts, command_of};
ghost use Rattle.tics_call.specs.Form.{IsProgram};
ghost use Rattle.tics_call.specs.Run.{history_of};
ghost use Rattle.tics_call.specs.Outcome.{ComesTo, seen_by, HasDone, HasRun, IsStatus, RefusesSource, RefusesItsReadings, NamesItsRead, IsNotBuilt, IsFrontOfText, MeaningsAreByTheRules, report_of, usage_text, fault_text, unsupported_text};

use crate::accept::{Refusal, accept};
use crate::command::{Verb, command};
use crate::outcome::Outcome;
use crate::player::{play, symbols};
use crate::print::print;
use crate::source::Program;
use base16::{NoMemory, Sequence};
use edge::{Files, Sink};
use fram::Fram;
use report::report_lines;
use std::alloc::Global;
use tics_meaning::{AskErr, ask, text_of};
use world::History;

const USAGE: &[u8] = b"usage\n";

const READ_FAULT: &[u8] = b"fault read\n";

const UNSUPPORTED: &[u8] = b"unsupported\n";

/// Runs a program and gives the lines of its report. The history it leaves is the whole one or the one before.
fn run_and_report(
    alloc: Global,
    program: &Program,
    book: &mut History,
) -> Result<Vec<Sequence<u8>>, NoMemory>
    requires { IsProgram program.now }
    ensures history { IfOk result (λ lines. book.new.records ≡ history_of program.now) }
    ensures lines { IfOk result (λ lines. concat lines.items ≡ report_of program.now) }
    ensures err { OnErr result ((book.new.records ≡ book.old.records) ⊎ (book.new.records ≡ history_of program.now)) }
{
    let symbols = symbols(alloc, program)?;
    play(alloc, program, book)?;
    let lines = report_lines(alloc, symbols.scalars.as_slice(), book.records.as_slice())?;
    Ok(lines)
}

/// Runs the program of a source under a trace.
fn run_order<F: Files, K: Sink>(
    alloc: Global,
    files: &mut F,
    out: &mut K,
    book: &mut History,
    source: &str,
    trace: &str,
) -> Outcome
    ensures comes_to { ComesTo (seen_by F.contents F.faults F.last K.bytes K.faults (Some (Run (source.now, trace.now)))
        files.old files.new out.old out.new book.old.records book.new.records) result }
    ensures files { F.contents files.new ≡ F.contents files.old }
{
    let program = match accept(alloc, files, source, trace) {
        Ok(program) => program,
        Err(Refusal::ReadFault) => return Outcome::ReadFault.said(out.put(READ_FAULT)),
        Err(Refusal::Source(fault)) => {
            return match fault.text(alloc) {
                Ok(text) => Outcome::Refused(fault).said(out.put(text.as_slice())),
                Err(_) => Outcome::NoMemory,
            };
        }
        Err(Refusal::Unsupported) => return Outcome::Unsupported.said(out.put(UNSUPPORTED)),
        Err(Refusal::NoMemory) => return Outcome::NoMemory,
    };
    match run_and_report(alloc, &program, book) {
        Ok(lines) => Outcome::Done.said(print(out, lines.as_slice())),
        Err(_) => Outcome::NoMemory,
    }
}

/// Says what the program of a source means on readings.
fn meaning_order<F: Files, K: Sink>(
    alloc: Global,
    files: &mut F,
    out: &mut K,
    source: &str,
    readings: &str,
) -> Outcome
    ensures comes_to { (records : List Record) → ComesTo (seen_by F.contents F.faults F.last K.bytes K.faults
        (Some (Meaning (source.now, readings.now))) files.old files.new out.old out.new records records) result }
    ensures files { F.contents files.new ≡ F.contents files.old }
{
    let asked = match ask(alloc, files, source, readings) {
        Ok(asked) => asked,
        Err(AskErr::Fault) => return Outcome::ReadFault.said(out.put(READ_FAULT)),
        Err(AskErr::Source(fault)) => {
            return match fault.text(alloc) {
                Ok(text) => Outcome::Refused(fault).said(out.put(text.as_slice())),
                Err(_) => Outcome::NoMemory,
            };
        }
        Err(AskErr::Readings(fault)) => {
            return match fault.text(alloc) {
                Ok(text) => Outcome::ReadingsRefused(fault).said(out.put(text.as_slice())),
                Err(_) => Outcome::NoMemory,
            };
        }
        Err(AskErr::Annotated) => return Outcome::Unsupported.said(out.put(UNSUPPORTED)),
        Err(AskErr::NoMemory) => return Outcome::NoMemory,
    };
    match text_of(alloc, &asked) {
        Ok(text) => Outcome::Told.said(out.put(text.as_slice())),
        Err(_) => Outcome::NoMemory,
    }
}

/// Does what the words say.
fn perform<F: Files, K: Sink>(
    alloc: Global,
    words: &[String],
    files: &mut F,
    out: &mut K,
    book: &mut History,
) -> Outcome
    ensures comes_to { ComesTo (seen_by F.contents F.faults F.last K.bytes K.faults (command_of (texts words.now))
        files.old files.new out.old out.new book.old.records book.new.records) result }
    ensures files { F.contents files.new ≡ F.contents files.old }
{
    match command(words) {
        None => Outcome::Usage.said(out.put(USAGE)),
        Some((Verb::Run, source, trace)) => run_order(alloc, files, out, book, source, trace),
        Some((Verb::Meaning, source, readings)) => {
            meaning_order(alloc, files, out, source, readings)
        }
    }
}

/// The program: it reads the files that the words name, and for `run` runs the source's program under the trace and prints
/// the report, for `meaning` prints the state of the program behind 4,000,000 marks on the readings. It answers the exit
/// status: 0 where that was done, 1 where the source is refused, 2 where the words are no command, 3 where the readings are
/// refused, 8 where a read and 9 where a put answered a fault, 10 for want of memory, 13 where the source or the trace is in
/// no form that is built yet. The board's memory is not used yet.
#[tactic(auto, using(crate::proofs::RuleLaws::meanings_by_the_rules))]
pub fn tics<F: Files, K: Sink>(
    alloc: Global,
    words: &Vec<String>,
    files: &mut F,
    out: &mut K,
    fram: &mut Fram,
    book: &mut History,
) -> u8
    requires { book.old.records ≡ [] }

    ensures statuses { IsStatus result }

    // 0: what was asked for was done, and the text of that was put.
    ensures done { result ≡ 0 → HasDone (F.contents files.old) (command_of (texts words.now.items)) book.new.records
        (K.bytes out.old) (K.bytes out.new) }

    // A program whose meaning is asked for is undefined only where one of the rules is broken, at one of its nodes.
    ensures rules { MeaningsAreByTheRules (F.contents files.old) (command_of (texts words.now.items)) }

    // 1: the source has a fault, of its text, of its size or by the rules of the language, and what was put is its line.
    ensures refused { result ≡ 1 → (fault : ASourceFault)
        × RefusesSource (F.contents files.old) (command_of (texts words.now.items)) fault
        × Appends (K.bytes out.old) (K.bytes out.new) (refusal_text fault) }

    // 2
    ensures usage { result ≡ 2 → command_of (texts words.now.items) ≡ None }
    ensures usage_text { result ≡ 2 → Appends (K.bytes out.old) (K.bytes out.new) usage_text }

    // 3: a meaning was asked for, the source is a program, the readings have a fault, and what was put is its line.
    ensures readings { result ≡ 3 → (fault : AReadingsFault)
        × RefusesItsReadings (F.contents files.old) (command_of (texts words.now.items)) fault
        × Appends (K.bytes out.old) (K.bytes out.new) (readings_text fault) }

    // 8: the read of the source answered a fault, or that of the trace or the readings, once the source was a program.
    ensures read_fault { result ≡ 8 → HasRisen (F.faults files.old) (F.faults files.new) }
    ensures read_name { result ≡ 8 → NamesItsRead (F.contents files.old) (command_of (texts words.now.items)) (F.last files.new) }
    ensures read_text { result ≡ 8 → Appends (K.bytes out.old) (K.bytes out.new) fault_text }

    // 9
    ensures write_fault { result ≡ 9 → HasRisen (K.faults out.old) (K.faults out.new) }

    // 13
    ensures unsupported { result ≡ 13 → IsNotBuilt (F.contents files.old) (command_of (texts words.now.items)) }
    ensures unsupported_text { result ≡ 13 → Appends (K.bytes out.old) (K.bytes out.new) unsupported_text }

    // What was put by then is a front of the text of what was done.
    ensures front_9 { result ≡ 9 → IsFrontOfText (F.contents files.old) (command_of (texts words.now.items))
        (F.faults files.old) (F.faults files.new) book.new.records (K.bytes out.old) (K.bytes out.new) }
    ensures front_10 { result ≡ 10 → (K.bytes out.new ≡ K.bytes out.old) ⊎ IsFrontOfText (F.contents files.old)
        (command_of (texts words.now.items)) (F.faults files.old) (F.faults files.new) book.new.records
        (K.bytes out.old) (K.bytes out.new) }

    // The book is empty after a refusal, and never holds a part of a run.
    ensures book_refused { (result ≡ 1) ⊎ (result ≡ 2) ⊎ (result ≡ 3) ⊎ (result ≡ 8) ⊎ (result ≡ 13) → book.new.records ≡ [] }
    ensures book_stopped { (result ≡ 9) ⊎ (result ≡ 10) → (book.new.records ≡ [])
        ⊎ ((program : Program) × HasRun (F.contents files.old) (command_of (texts words.now.items)) book.new.records program) }

    // No file changes, and the board's memory does not.
    ensures files { F.contents files.new ≡ F.contents files.old }
    ensures fram { fram.new ≡ fram.old }
{
    perform(alloc, words.as_slice(), files, out, book).status()
}
