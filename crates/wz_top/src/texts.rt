//! The line that tells how a run ended.

ghost use Rattle.std.specs.Prelude.{◌≡◌, OnOk, OnErr};
ghost use Rattle.std.specs.Bool.{OnTrue, OnFalse};
ghost use Rattle.wz_io.specs.World.{Said};
ghost use Rattle.wz_top.specs.Saying.{SaysAll, SaysFirst};
ghost use Rattle.wz_top.specs.Texts.{numbered, with_name, report_words, usage_words};
ghost use Rattle.wz_top.specs.Texts.{decode_words, part_word, invalid_words};
ghost use Rattle.wz_top.specs.Texts.{large_table_words, many_locals_words};
ghost use Rattle.wz_top.specs.Texts.{valid_words, profile_words, export_words, outcome_words};
ghost use Rattle.wz_top.specs.Texts.{phase_word, trap_words, trapped_words, opcode_words};
ghost use Rattle.wz_top.specs.Texts.{float_words, init_words, line, is_silent, text};

use crate::pieces::{Piece, put_pieces, put_words};
use crate::{Outcome, Report};
use wz_code::{NumOp, opcode};
use wz_decode::DecodeFault;
use wz_exports::ExportFault;
use wz_init::{InitFault, Phase};
use wz_io::{Failed, Sink};
use wz_types::{Text, TrapKind};
use wz_valid::{OutOfProfile, Part, ValidFault};
use wz_words::Usage;

const NO_MEMORY: &str = "out of memory";

fn put_report<E: Sink>(report: Report, messages: &mut E) -> Result<(), Failed>
    ensures all { OnOk result
        (SaysAll (report_words report) (E.said messages.old) (E.said messages.new)) }
    ensures some { OnErr result
        (SaysFirst (report_words report) (E.said messages.old) (E.said messages.new)) }
{
    let pieces = [
        Piece::Number(report.ticks),
        Piece::Words(" ticks, "),
        Piece::Number(u64::from(report.pages)),
        Piece::Words(" pages, "),
        Piece::Number(u64::from(report.segments)),
        Piece::Words(" segments, "),
        Piece::Number(report.bytes),
        Piece::Words(" bytes"),
    ];
    put_pieces(&pieces, messages)
}

/// Words with a number between them.
fn put_numbered<'t, E: Sink>(
    before: &'t str,
    number: u64,
    after: &'t str,
    messages: &mut E,
) -> Result<(), Failed>
    ensures all { OnOk result (SaysAll (numbered before.now number after.now)
        (E.said messages.old) (E.said messages.new)) }
    ensures some { OnErr result (SaysFirst (numbered before.now number after.now)
        (E.said messages.old) (E.said messages.new)) }
{
    let pieces = [
        Piece::Words(before),
        Piece::Number(number),
        Piece::Words(after),
    ];
    put_pieces(&pieces, messages)
}

/// Words with a name between them.
fn put_named<'t, E: Sink>(
    before: &'t str,
    name: &'t Text,
    after: &'t str,
    messages: &mut E,
) -> Result<(), Failed>
    ensures all { OnOk result (SaysAll (with_name before.now name.now after.now)
        (E.said messages.old) (E.said messages.new)) }
    ensures some { OnErr result (SaysFirst (with_name before.now name.now after.now)
        (E.said messages.old) (E.said messages.new)) }
{
    let pieces = [
        Piece::Words(before),
        Piece::Name(name.as_str()),
        Piece::Words(after),
    ];
    put_pieces(&pieces, messages)
}

fn put_usage<E: Sink>(usage: Usage, messages: &mut E) -> Result<(), Failed>
    ensures all { OnOk result
        (SaysAll (usage_words usage) (E.said messages.old) (E.said messages.new)) }
    ensures some { OnErr result
        (SaysFirst (usage_words usage) (E.said messages.old) (E.said messages.new)) }
{
    match usage {
        Usage::UnknownOption { at } => put_numbered(
            "word ",
            at as u64,
            " is no known option",
            messages,
        ),
        Usage::MissingValue { at } => put_numbered("word ", at as u64, " needs a value", messages),
        Usage::RepeatedOption { at } => put_numbered(
            "word ",
            at as u64,
            " repeats an option",
            messages,
        ),
        Usage::ExtraWord { at } => put_numbered(
            "word ",
            at as u64,
            " is one input too many",
            messages,
        ),
        Usage::BadNumber { at } => put_numbered(
            "word ",
            at as u64,
            " is no number in range",
            messages,
        ),
        Usage::BadRename { at } => put_numbered(
            "word ",
            at as u64,
            " is no rename of the form dst=src",
            messages,
        ),
        Usage::RenamesTooLong { at } => put_numbered(
            "the renames up to word ",
            at as u64,
            " are longer than 1048576 bytes",
            messages,
        ),
        Usage::RenameTwiceTo { at } => put_numbered(
            "word ",
            at as u64,
            " renames to a name that was given before",
            messages,
        ),
        Usage::RenameTwiceFrom { at } => put_numbered(
            "word ",
            at as u64,
            " renames an export that was renamed before",
            messages,
        ),
        Usage::NoMemory => put_words(NO_MEMORY, messages),
    }
}

fn put_decode<E: Sink>(fault: DecodeFault, messages: &mut E) -> Result<(), Failed>
    ensures all { OnOk result
        (SaysAll (decode_words fault) (E.said messages.old) (E.said messages.new)) }
    ensures some { OnErr result
        (SaysFirst (decode_words fault) (E.said messages.old) (E.said messages.new)) }
{
    match fault {
        DecodeFault::NotWasm => {
            put_words("the input is no WebAssembly module of version 1", messages)
        }
        DecodeFault::BadSection { at } => put_numbered(
            "section ",
            u64::from(at),
            " is outside this profile's grammar",
            messages,
        ),
        DecodeFault::BadCounts => put_words("the counts of the sections don't agree", messages),
        DecodeFault::NoMemory => put_words(NO_MEMORY, messages),
    }
}

fn part_word(part: Part) -> &'static str
    ensures { result.now ≡ part_word part }
{
    match part {
        Part::Import => "import",
        Part::Function => "function",
        Part::Table => "table",
        Part::Memory => "memory",
        Part::Global => "global",
        Part::Export => "export",
        Part::Start => "start",
        Part::Element => "element",
        Part::Code => "code",
        Part::DataSegment => "data",
    }
}

fn put_invalid<E: Sink>(part: Part, index: u32, messages: &mut E) -> Result<(), Failed>
    ensures all { OnOk result
        (SaysAll (invalid_words part index) (E.said messages.old) (E.said messages.new)) }
    ensures some { OnErr result
        (SaysFirst (invalid_words part index) (E.said messages.old) (E.said messages.new)) }
{
    let pieces = [
        Piece::Words("invalid: "),
        Piece::Words(part_word(part)),
        Piece::Words(" "),
        Piece::Number(u64::from(index)),
    ];
    put_pieces(&pieces, messages)
}

fn put_valid<E: Sink>(fault: ValidFault, messages: &mut E) -> Result<(), Failed>
    ensures all { OnOk result
        (SaysAll (valid_words fault) (E.said messages.old) (E.said messages.new)) }
    ensures some { OnErr result
        (SaysFirst (valid_words fault) (E.said messages.old) (E.said messages.new)) }
{
    match fault {
        ValidFault::Invalid { part, index } => put_invalid(part, index, messages),
        ValidFault::NoMemory => put_words(NO_MEMORY, messages),
    }
}

fn put_large_table<E: Sink>(index: u32, entries: u64, messages: &mut E) -> Result<(), Failed>
    ensures all { OnOk result
        (SaysAll (large_table_words index entries) (E.said messages.old) (E.said messages.new)) }
    ensures some { OnErr result (SaysFirst (large_table_words index entries)
        (E.said messages.old) (E.said messages.new)) }
{
    let pieces = [
        Piece::Words("the tables up to "),
        Piece::Number(u64::from(index)),
        Piece::Words(" start with "),
        Piece::Number(entries),
        Piece::Words(" entries, more than 10000000"),
    ];
    put_pieces(&pieces, messages)
}

fn put_many_locals<E: Sink>(function: u32, count: u64, messages: &mut E) -> Result<(), Failed>
    ensures all { OnOk result
        (SaysAll (many_locals_words function count) (E.said messages.old) (E.said messages.new)) }
    ensures some { OnErr result (SaysFirst (many_locals_words function count)
        (E.said messages.old) (E.said messages.new)) }
{
    let pieces = [
        Piece::Words("function "),
        Piece::Number(u64::from(function)),
        Piece::Words(" has "),
        Piece::Number(count),
        Piece::Words(" locals, more than 50000"),
    ];
    put_pieces(&pieces, messages)
}

fn put_profile<E: Sink>(cause: OutOfProfile, messages: &mut E) -> Result<(), Failed>
    ensures all { OnOk result
        (SaysAll (profile_words cause) (E.said messages.old) (E.said messages.new)) }
    ensures some { OnErr result
        (SaysFirst (profile_words cause) (E.said messages.old) (E.said messages.new)) }
{
    match cause {
        OutOfProfile::ImportKind { index } => {
            put_numbered("import ", u64::from(index), " is no function", messages)
        }
        OutOfProfile::MemoryTooLarge { pages } => put_numbered(
            "the memories start with ",
            pages,
            " pages, more than 16384",
            messages,
        ),
        OutOfProfile::TableTooLarge { index, entries } => put_large_table(index, entries, messages),
        OutOfProfile::TooManyLocals { function, count } => {
            put_many_locals(function, count, messages)
        }
    }
}

fn put_exports<E: Sink>(fault: &ExportFault, messages: &mut E) -> Result<(), Failed>
    ensures all { OnOk result
        (SaysAll (export_words fault.now) (E.said messages.old) (E.said messages.new)) }
    ensures some { OnErr result
        (SaysFirst (export_words fault.now) (E.said messages.old) (E.said messages.new)) }
{
    match fault {
        ExportFault::NoInit { name } => put_named("there is no export ", name, "", messages),
        ExportFault::InitNotFunction { name } => {
            put_named("the export ", name, " is no function", messages)
        }
        ExportFault::InitType { name } => {
            put_named(
                "the function ",
                name,
                " has parameters or results",
                messages,
            )
        }
        ExportFault::RenameMissing { src } => {
            put_named("there is no export ", src, " to rename", messages)
        }
        ExportFault::RenameNotFunction { src } => {
            put_named("the export ", src, " to rename is no function", messages)
        }
        ExportFault::RenameInit { src } => {
            put_named("the export ", src, " leaves and can't be renamed", messages)
        }
        ExportFault::NoMemory => put_words(NO_MEMORY, messages),
    }
}

fn phase_word(phase: Phase) -> &'static str
    ensures { result.now ≡ phase_word phase }
{
    match phase {
        Phase::Start => "start",
        Phase::Reactor => "_initialize",
        Phase::Init => "initialisation",
    }
}

fn trap_words(kind: TrapKind) -> &'static str
    ensures { result.now ≡ trap_words kind }
{
    match kind {
        TrapKind::Unreachable => "unreachable",
        TrapKind::DivideByZero => "integer divide by zero",
        TrapKind::IntegerOverflow => "integer overflow",
        TrapKind::MemoryBounds => "out of bounds memory access",
        TrapKind::TableBounds => "out of bounds table access",
        TrapKind::UndefinedElement => "undefined element",
        TrapKind::UninitializedElement => "uninitialized element",
        TrapKind::IndirectType => "indirect call type mismatch",
        TrapKind::Float => "float",
        TrapKind::Host => "host",
    }
}

fn put_trapped<E: Sink>(phase: Phase, kind: TrapKind, messages: &mut E) -> Result<(), Failed>
    ensures all { OnOk result
        (SaysAll (trapped_words phase kind) (E.said messages.old) (E.said messages.new)) }
    ensures some { OnErr result
        (SaysFirst (trapped_words phase kind) (E.said messages.old) (E.said messages.new)) }
{
    let pieces = [
        Piece::Words(phase_word(phase)),
        Piece::Words(" trapped: "),
        Piece::Words(trap_words(kind)),
    ];
    put_pieces(&pieces, messages)
}

/// The byte of an operation, and the number behind it where there is one.
fn put_opcode<E: Sink>(byte: u8, number: Option<u32>, messages: &mut E) -> Result<(), Failed>
    ensures all { OnOk result
        (SaysAll (opcode_words (byte, number)) (E.said messages.old) (E.said messages.new)) }
    ensures some { OnErr result
        (SaysFirst (opcode_words (byte, number)) (E.said messages.old) (E.said messages.new)) }
{
    match number {
        None => put_pieces(&[Piece::Byte(byte)], messages),
        Some(number) => {
            let pieces = [
                Piece::Byte(byte),
                Piece::Words(" "),
                Piece::Number(u64::from(number)),
            ];
            put_pieces(&pieces, messages)
        }
    }
}

fn put_float<E: Sink>(op: NumOp, messages: &mut E) -> Result<(), Failed>
    ensures all { OnOk result
        (SaysAll (float_words op) (E.said messages.old) (E.said messages.new)) }
    ensures some { OnErr result
        (SaysFirst (float_words op) (E.said messages.old) (E.said messages.new)) }
{
    let (byte, number) = opcode(op);
    put_words("the initialisation uses the float operation ", messages)?;
    put_opcode(byte, number, messages)
}

fn put_init<E: Sink>(fault: InitFault, messages: &mut E) -> Result<(), Failed>
    ensures all { OnOk result
        (SaysAll (init_words fault) (E.said messages.old) (E.said messages.new)) }
    ensures some { OnErr result
        (SaysFirst (init_words fault) (E.said messages.old) (E.said messages.new)) }
{
    match fault {
        InitFault::ElementOutOfBounds { index } => put_numbered(
            "element segment ",
            index as u64,
            " doesn't fit its table",
            messages,
        ),
        InitFault::DataOutOfBounds { index } => put_numbered(
            "data segment ",
            index as u64,
            " doesn't fit its memory",
            messages,
        ),
        InitFault::Trap { phase, kind } => put_trapped(phase, kind, messages),
        InitFault::OutOfFuel => put_words("the fuel ran out", messages),
        InitFault::ImportCalled { import } => put_numbered(
            "the initialisation calls import ",
            import as u64,
            "",
            messages,
        ),
        InitFault::FloatUsed { op } => put_float(op, messages),
        InitFault::TableChanged => put_words("the initialisation changes a table", messages),
        InitFault::TooManyFrames => put_words("more than 20000 frames", messages),
        InitFault::TooManyFrameLocals => {
            put_words("more than 4000000 locals in all frames", messages)
        }
        InitFault::NoMemory => put_words(NO_MEMORY, messages),
    }
}

/// The words of the line, without the tool's name.
fn put_outcome<E: Sink>(outcome: &Outcome, messages: &mut E) -> Result<(), Failed>
    ensures all { OnOk result
        (SaysAll (outcome_words outcome.now) (E.said messages.old) (E.said messages.new)) }
    ensures some { OnErr result
        (SaysFirst (outcome_words outcome.now) (E.said messages.old) (E.said messages.new)) }
{
    match outcome {
        Outcome::Done(report) => put_report(*report, messages),
        Outcome::Usage(usage) => put_usage(*usage, messages),
        Outcome::InputFault => put_words("the input can't be read", messages),
        Outcome::InputTooLong => { put_words("the input is longer than 33554432 bytes", messages) }
        Outcome::Decode(fault) => put_decode(*fault, messages),
        Outcome::Valid(fault) => put_valid(*fault, messages),
        Outcome::Profile(cause) => put_profile(*cause, messages),
        Outcome::Exports(fault) => put_exports(fault, messages),
        Outcome::Init(fault) => put_init(*fault, messages),
        Outcome::OutputFault => put_words("the output can't be written", messages),
        Outcome::NoMemory => put_words(NO_MEMORY, messages),
    }
}

fn put_line<E: Sink>(outcome: &Outcome, messages: &mut E) -> Result<(), Failed>
    ensures all { OnOk result
        (SaysAll (line outcome.now) (E.said messages.old) (E.said messages.new)) }
    ensures some { OnErr result
        (SaysFirst (line outcome.now) (E.said messages.old) (E.said messages.new)) }
{
    put_words("wizer: ", messages)?;
    put_outcome(outcome, messages)?;
    put_words("\n", messages)
}

/// A run that succeeded says nothing unless its report is asked for.
fn is_silent(outcome: &Outcome, report: bool) -> bool
    ensures { result ≡ is_silent outcome.now report }
{
    match outcome {
        Outcome::Done(_) => !report,
        _ => false,
    }
}

/// Puts the line that tells how the run ended, with the report of a run that succeeded only where
/// it is asked for. It takes no memory.
///
/// False comes only where the sink failed; then some first bytes of the line were put.
pub fn print_outcome<E: Sink>(outcome: &Outcome, report: bool, messages: &mut E) -> bool
    ensures all { OnTrue result
        (SaysAll (text outcome.now report) (E.said messages.old) (E.said messages.new)) }
    ensures some { OnFalse result
        (SaysFirst (text outcome.now report) (E.said messages.old) (E.said messages.new)) }
{
    if is_silent(outcome, report) {
        return true;
    }
    put_line(outcome, messages).is_ok()
}
