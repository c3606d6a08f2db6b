//! The page that a person reads of a tape that was played: how it ended, the registers, the interrupts and the store.

ghost use Rattle.std.specs.Prelude.{◌≡◌, ◌==◌, not, IfOk, [], ◌∷◌, ◌++◌, replicate};
ghost use Rattle.std.specs.List.{list_any};
ghost use Rattle.std.specs.Fmt.{decimal};
ghost use Rattle.queue.specs.Rows.{queued};
ghost use Rattle.outcome.specs.Texts.{Adds, hex};
ghost use Rattle.outcome.specs.PanelTexts.{words_of, newline, column, letter_words, place_line, fault_lines, ending_lines, spaced, denial_line, register_row, registers_lines, psw_line, interrupt_status_line, processor_lines, saved_words, cause_end, record_line, trace_lines, store_row, row_line, store_lines, page_text, PageOf};

use crate::hex::add_hex;
use crate::played::play_new;
use crate::shown::Shown;
use model::{BLANK, Cause, Denial, Record};
use queue::Queue;
use session::session::{STORE_HALFWORDS, TAPE_BYTES, TRACE_RECORDS};
use std::alloc::{AllocError, Global};
use tape::orders::TapeFault;

/// The fixed words of the page.
#[derive(Clone, Copy)]
enum Phrase {
    FaultAt,
    LetterThere,
    NoLetter,
    Hexadecimal,
    DenialNumber,
    Meaning,
    Obeyed,
    Psw,
    Location,
    LowerSet,
    UpperSet,
    Segments,
    InterruptStatus,
    Interrupts,
    Saved,
    Faults,
    Because,
    Store,
}

impl Phrase {
    #[tactic(auto, unfolding(crate::specs::PanelTexts::words_of))]
    fn words(self) -> &'static str
        ensures { result.now ≡ words_of self }
    {
        match self {
            Phrase::FaultAt => "Fault at byte ",
            Phrase::LetterThere => ", letter ",
            Phrase::NoLetter => ", no letter",
            Phrase::Hexadecimal => "X'",
            Phrase::DenialNumber => "Denial ",
            Phrase::Meaning => ": ",
            Phrase::Obeyed => "Commands obeyed: ",
            Phrase::Psw => "PSW: status ",
            Phrase::Location => ", location ",
            Phrase::LowerSet => "Register set 0",
            Phrase::UpperSet => "Register set 15",
            Phrase::Segments => "Segmentation registers",
            Phrase::InterruptStatus => "Interrupt status: ",
            Phrase::Interrupts => "Interrupts: ",
            Phrase::Saved => ": status ",
            Phrase::Faults => ", interrupt status ",
            Phrase::Because => ", ",
            Phrase::Store => "Store, where it is not zero\n",
        }
    }
}

/// Adds characters.
fn add_bytes(text: &mut Vec<u8>, bytes: &[u8]) -> Result<(), AllocError>
    ensures { Adds result text.old.items text.new.items bytes.now }
{
    text.extend_from_slice(bytes)
}

/// Adds fixed words.
fn add_words(text: &mut Vec<u8>, phrase: Phrase) -> Result<(), AllocError>
    ensures { Adds result text.old.items text.new.items (words_of phrase) }
{
    add_bytes(text, phrase.words().as_bytes())
}

/// Adds a character.
fn add_byte(text: &mut Vec<u8>, byte: u8) -> Result<(), AllocError>
    ensures { Adds result text.old.items text.new.items (byte ∷ []) }
{
    text.push(byte)?;
    Ok(())
}

/// Adds a number in decimal.
fn add_decimal(text: &mut Vec<u8>, value: u64) -> Result<(), AllocError>
    ensures { Adds result text.old.items text.new.items (decimal value) }
{
    let heap = *text.allocator();
    let digits = format!(in heap; "{value}")?;
    add_bytes(text, digits.as_bytes())
}

/// Adds a number in decimal, behind spaces where it has fewer than five digits.
#[tactic(auto, unfolding(crate::specs::PanelTexts::column))]
fn add_column(text: &mut Vec<u8>, value: u64) -> Result<(), AllocError>
    ensures { Adds result text.old.items text.new.items (column value) }
{
    let heap = *text.allocator();
    let digits = format!(in heap; "{value}")?;
    add_spaces(text, 5usize.saturating_sub(digits.len()))?;
    add_bytes(text, digits.as_bytes())
}

/// Adds spaces.
fn add_spaces(text: &mut Vec<u8>, count: usize) -> Result<(), AllocError>
    ensures { Adds result text.old.items text.new.items (replicate count 32) }
{
    for _place in 0..count {
        add_byte(text, b' ')?;
    }
    Ok(())
}

/// Adds words and then a number in so many hexadecimal digits.
fn add_named(text: &mut Vec<u8>, phrase: Phrase, places: u32, value: u32) -> Result<(), AllocError>
    ensures { Adds result text.old.items text.new.items (words_of phrase ++ hex places value) }
{
    add_words(text, phrase)?;
    add_hex(text, places, u64::from(value))
}

/// Adds the letter of a fault: itself where it is a character from `!` to `~`, else its two hexadecimal digits.
#[tactic(auto, unfolding(crate::specs::PanelTexts::letter_words))]
fn add_letter(text: &mut Vec<u8>, letter: Option<u8>) -> Result<(), AllocError>
    ensures { Adds result text.old.items text.new.items (letter_words letter) }
{
    let Some(letter) = letter else {
        return add_words(text, Phrase::NoLetter);
    };
    add_words(text, Phrase::LetterThere)?;
    if (b'!'..=b'~').contains(&letter) {
        add_byte(text, letter)
    } else {
        add_named(text, Phrase::Hexadecimal, 2, u32::from(letter))?;
        add_byte(text, b'\'')
    }
}

/// Adds a denial: its number and its words.
#[tactic(auto, unfolding(crate::specs::PanelTexts::denial_line))]
fn add_denial(text: &mut Vec<u8>, denial: Denial) -> Result<(), AllocError>
    ensures { Adds result text.old.items text.new.items (denial_line denial) }
{
    add_words(text, Phrase::DenialNumber)?;
    add_decimal(text, u64::from(u8::from(denial)))?;
    add_words(text, Phrase::Meaning)?;
    add_bytes(text, denial.words().as_bytes())?;
    add_byte(text, b'\n')
}

/// Adds where a fault is: its place and the letter there.
#[tactic(auto, unfolding(crate::specs::PanelTexts::place_line))]
fn add_place(text: &mut Vec<u8>, place: usize, letter: Option<u8>) -> Result<(), AllocError>
    ensures { Adds result text.old.items text.new.items (place_line place letter) }
{
    add_words(text, Phrase::FaultAt)?;
    add_decimal(text, place as u64)?;
    add_letter(text, letter)?;
    add_byte(text, b'\n')
}

/// Adds the two lines of a fault: its place and the letter there, and the denial.
pub fn add_fault(text: &mut Vec<u8>, fault: TapeFault) -> Result<(), AllocError>
    ensures { Adds result text.old.items text.new.items (fault_lines fault) }
{
    add_place(text, fault.place, fault.letter)?;
    add_denial(text, fault.denial)
}

/// Adds words, a number in decimal and the end of the line.
fn add_count(text: &mut Vec<u8>, phrase: Phrase, count: usize) -> Result<(), AllocError>
    ensures { Adds result text.old.items text.new.items (words_of phrase ++ (decimal count ++ (10 ∷ []))) }
{
    add_words(text, phrase)?;
    add_decimal(text, count as u64)?;
    add_byte(text, b'\n')
}

/// Adds how the tape ended: the commands obeyed, or the fault.
pub fn add_ending(text: &mut Vec<u8>, ending: Result<usize, TapeFault>) -> Result<(), AllocError>
    ensures { Adds result text.old.items text.new.items (ending_lines ending) }
{
    match ending {
        Ok(obeyed) => add_count(text, Phrase::Obeyed, obeyed),
        Err(fault) => add_fault(text, fault),
    }
}

/// Adds a space and a number in so many hexadecimal digits.
fn add_spaced(text: &mut Vec<u8>, places: u32, value: u32) -> Result<(), AllocError>
    ensures { Adds result text.old.items text.new.items (32 ∷ hex places value) }
{
    add_byte(text, b' ')?;
    add_hex(text, places, u64::from(value))
}

/// Adds fullwords in 8 hexadecimal digits, a space before each.
fn add_fullwords(text: &mut Vec<u8>, words: &[u32]) -> Result<(), AllocError>
    ensures { Adds result text.old.items text.new.items (spaced 8 words.now) }
{
    for word in words {
        add_spaced(text, 8, *word)?;
    }
    Ok(())
}

/// Adds halfwords in 4 hexadecimal digits, a space before each.
fn add_halfwords(text: &mut Vec<u8>, words: &[u16]) -> Result<(), AllocError>
    ensures { Adds result text.old.items text.new.items (spaced 4 words.now) }
{
    for word in words {
        add_spaced(text, 4, u32::from(*word))?;
    }
    Ok(())
}

/// Adds eight registers or fewer behind the number of the first, and the end of the line.
#[tactic(auto, unfolding(crate::specs::PanelTexts::register_row))]
fn add_register_row(text: &mut Vec<u8>, first: u64, registers: &[u32]) -> Result<(), AllocError>
    ensures { Adds result text.old.items text.new.items (register_row first registers.now) }
{
    add_column(text, first)?;
    add_byte(text, b':')?;
    add_fullwords(text, registers)?;
    add_byte(text, b'\n')
}

/// Adds sixteen registers under a title, eight to a line.
#[tactic(auto, unfolding(crate::specs::PanelTexts::registers_lines))]
fn add_registers(text: &mut Vec<u8>, title: Phrase, registers: &[u32; 16]) -> Result<(), AllocError>
    ensures { Adds result text.old.items text.new.items (registers_lines title registers.now) }
{
    let (low, high) = registers.split_at(8);
    add_words(text, title)?;
    add_byte(text, b'\n')?;
    add_register_row(text, 0, low)?;
    add_register_row(text, 8, high)
}

/// Adds the line of the PSW.
#[tactic(auto, unfolding(crate::specs::PanelTexts::psw_line))]
fn add_psw(text: &mut Vec<u8>, shown: &Shown) -> Result<(), AllocError>
    ensures { Adds result text.old.items text.new.items (psw_line shown.now) }
{
    add_named(text, Phrase::Psw, 8, shown.status)?;
    add_named(text, Phrase::Location, 5, shown.location)?;
    add_byte(text, b'\n')
}

/// Adds the line of the interrupt status.
#[tactic(auto, unfolding(crate::specs::PanelTexts::interrupt_status_line))]
fn add_interrupt_status(text: &mut Vec<u8>, faults: u32) -> Result<(), AllocError>
    ensures { Adds result text.old.items text.new.items (interrupt_status_line faults) }
{
    add_named(text, Phrase::InterruptStatus, 8, faults)?;
    add_byte(text, b'\n')
}

/// Adds what the console shows of the processor: the PSW, both register sets, the segmentation registers and the interrupt status.
#[tactic(auto, unfolding(crate::specs::PanelTexts::processor_lines))]
pub fn add_processor(text: &mut Vec<u8>, shown: &Shown) -> Result<(), AllocError>
    ensures { Adds result text.old.items text.new.items (processor_lines shown.now) }
{
    add_psw(text, shown)?;
    add_registers(text, Phrase::LowerSet, &shown.lower)?;
    add_registers(text, Phrase::UpperSet, &shown.upper)?;
    add_registers(text, Phrase::Segments, &shown.segments)?;
    add_interrupt_status(text, shown.interrupt_status)
}

/// Adds what an interrupt saved, and the interrupt status.
#[tactic(auto, unfolding(crate::specs::PanelTexts::saved_words))]
fn add_saved(text: &mut Vec<u8>, item: Record) -> Result<(), AllocError>
    ensures { Adds result text.old.items text.new.items (saved_words item) }
{
    add_named(text, Phrase::Saved, 8, item.status)?;
    add_named(text, Phrase::Location, 5, item.location)?;
    add_named(text, Phrase::Faults, 2, item.faults)
}

/// Adds the cause of an interrupt, and the end of the line.
#[tactic(auto, unfolding(crate::specs::PanelTexts::cause_end))]
fn add_cause(text: &mut Vec<u8>, cause: Cause) -> Result<(), AllocError>
    ensures { Adds result text.old.items text.new.items (cause_end cause) }
{
    add_words(text, Phrase::Because)?;
    add_bytes(text, cause.words().as_bytes())?;
    add_byte(text, b'\n')
}

/// Adds a record of the trace behind its number.
#[tactic(auto, unfolding(crate::specs::PanelTexts::record_line))]
fn add_record(text: &mut Vec<u8>, number: usize, item: Record) -> Result<(), AllocError>
    ensures { Adds result text.old.items text.new.items (record_line number item) }
{
    add_column(text, number as u64)?;
    add_saved(text, item)?;
    add_cause(text, item.cause)
}

/// Adds how many records the trace has, and each record, the oldest first.
pub fn add_trace(text: &mut Vec<u8>, trace: &Queue<'_, Record>) -> Result<(), AllocError>
    ensures { Adds result text.old.items text.new.items (trace_lines (queued trace.now)) }
{
    add_count(text, Phrase::Interrupts, trace.len())?;
    for (number, item) in trace.iter().enumerate() {
        add_record(text, number, *item)?;
    }
    Ok(())
}

/// A row of the store: eight halfwords, or those that are left.
fn row_of(words: &[u16], number: usize) -> &[u16]
    ensures { result.now ≡ store_row words.now number }
{
    let rest = words.get(number.saturating_mul(8)..).unwrap_or(&[]);
    &rest[..rest.len().min(8)]
}

/// Whether a row holds more than zeros.
fn holds_more(row: &[u16]) -> bool
    ensures { result ≡ list_any (λ w. not (w == 0)) row.now }
{
    row.iter().any(|word| *word != 0)
}

/// Adds the halfwords of a row behind the address of the first; nothing where all are zero.
#[tactic(auto, unfolding(crate::specs::PanelTexts::row_line))]
fn add_row(text: &mut Vec<u8>, address: u64, row: &[u16]) -> Result<(), AllocError>
    ensures { Adds result text.old.items text.new.items (row_line address row.now) }
{
    if !holds_more(row) {
        return Ok(());
    }
    add_hex(text, 5, address)?;
    add_byte(text, b':')?;
    add_halfwords(text, row)?;
    add_byte(text, b'\n')
}

/// Adds the halfwords of the store, eight to a line; lines of zeros are left out.
pub fn add_store(text: &mut Vec<u8>, words: &[u16]) -> Result<(), AllocError>
    ensures { Adds result text.old.items text.new.items (store_lines words.now) }
{
    add_words(text, Phrase::Store)?;
    for number in 0..words.len().div_ceil(8) {
        add_row(text, 16 * (number as u64), row_of(words, number))?;
    }
    Ok(())
}

/// Adds the page of a tape that was played: how it ended, the processor, the trace and the store.
pub fn add_page(
    text: &mut Vec<u8>,
    ending: Result<usize, TapeFault>,
    shown: &Shown,
    trace: &Queue<'_, Record>,
    words: &[u16],
) -> Result<(), AllocError>
    ensures { Adds result text.old.items text.new.items (page_text ending shown.now (queued trace.now) words.now) }
{
    add_ending(text, ending)?;
    add_processor(text, shown)?;
    add_trace(text, trace)?;
    add_store(text, words)
}

/// The page that an input leaves: its first 65,536 bytes are played over 32,768 words, all 0, a silent bus and a trace of 64 records.
/// The only error is want of memory.
pub fn page_of(heap: Global, input: &[u8]) -> Result<Vec<u8>, AllocError>
    ensures { IfOk result (λ page. PageOf input.now page.items) }
{
    let tape = &input[..input.len().min(TAPE_BYTES)];
    let mut page = Vec::new(heap);
    let mut words = vec![in heap; 0u16; STORE_HALFWORDS]?;
    let mut slots = [BLANK; TRACE_RECORDS];
    let mut trace = Queue::new(&mut slots);
    let outcome = play_new(tape, &mut words, &mut trace);
    let words = outcome.words;
    add_page(&mut page, outcome.ending, &outcome.shown, &trace, words)?;
    Ok(page)
}
