// The sentence of a status. It is in pieces, so that it can be told where memory ran out.
ghost use Rattle.std.specs.Prelude.{◌≡◌, ◌++◌, IfOk, OnOk, codes, decimal};
ghost use Rattle.status_text.specs.StatusText.{cfg_text, dat_fault_text, limit_text, number_text, quantity_word, selection_text, sentence_of, sentence_view, twice_numbered, unsupported_text, unsupported_word};

use crate::status::Status;
use comtrade_cfg::{Quantity, Unsupported};
use comtrade_dat::DatFault;
use itoa::Buffer;
use pq_base::{OutOfMemory, Text};
use std::alloc::{AllocError, Global};

/// The sentence of a status, without a line end; empty where all is done.
pub fn fault_text(alloc: Global, status: &Status) -> Result<Text, OutOfMemory>
    ensures { IfOk result (λ text. text ≡ sentence_of status.now) }
{
    let sentence = Sentence::of(status);
    let mut text = Vec::new(alloc);
    text.extend_from_slice(sentence.opening.as_bytes())?;
    push_number(&mut text, sentence.first)?;
    text.extend_from_slice(sentence.middle.as_bytes())?;
    push_number(&mut text, sentence.second)?;
    text.extend_from_slice(sentence.closing.as_bytes())?;
    Ok(Text::new(text))
}

/// The digits of a number; nothing where there is none.
pub fn digits<'a>(buffer: &'a mut Buffer, number: Option<u64>) -> &'a str
    ensures { result.now ≡ number_text number }
{
    match number {
        Some(number) => buffer.format(number),
        None => "",
    }
}

fn push_number(text: &mut Vec<u8>, number: Option<u64>) -> Result<(), AllocError>
    ensures { OnOk result (text.new.items ≡ text.old.items ++ number_text number) }
{
    let mut buffer = Buffer::new();
    text.extend_from_slice(digits(&mut buffer, number).as_bytes())
}

/// A sentence: texts, and numbers between them.
#[derive(Clone, Copy)]
pub struct Sentence {
    pub opening: &'static str,
    pub first: Option<u64>,
    pub middle: &'static str,
    pub second: Option<u64>,
    pub closing: &'static str,
}

impl Sentence {
    ghost use Rattle.std.specs.Prelude.{◌≡◌};
    ghost use Rattle.status_text.specs.StatusText.{sentence_of, sentence_view};

    /// The sentence of a status.
    #[tactic(auto, unfolding(crate::specs::StatusText::sentence_of))]
    pub fn of(status: &Status) -> Sentence
        ensures { sentence_view result ≡ sentence_of status.now }
    {
        match *status {
            Status::Done => plain("", ""),
            Status::Usage => plain("usage: words not understood", ""),
            Status::CfgFault { line, field } => cfg_sentence(line, field),
            Status::Unsupported { what, line } => unsupported_sentence(
                line,
                unsupported_word(what),
            ),
            Status::Limit { what, line } => limit_sentence(line, quantity_word(what)),
            Status::Selection { channel } => selection_sentence(channel),
            Status::BadLimits => plain("settings: thresholds out of order", ""),
            Status::DatFault { kind } => dat_sentence(kind),
            Status::ReadFault { faults } => numbered("read failed (", faults, ")", ""),
            Status::WriteFault { faults } => numbered("write failed (", faults, ")", ""),
            Status::ScheduleFault { line } => {
                numbered("schedule line ", line, ": not allowed", "")
            }
            Status::OutOfMemory => plain("out of memory", ""),
            Status::NoFile { file } => file_sentence(file),
        }
    }
}

fn plain(opening: &'static str, closing: &'static str) -> Sentence
    ensures { sentence_view result ≡ opening.now ++ closing.now }
{
    Sentence {
        opening,
        first: None,
        middle: "",
        second: None,
        closing,
    }
}

fn numbered(
    opening: &'static str,
    first: u64,
    middle: &'static str,
    closing: &'static str,
) -> Sentence
    ensures { sentence_view result ≡ opening.now ++ (decimal first ++ (middle.now ++ closing.now)) }
{
    Sentence {
        opening,
        first: Some(first),
        middle,
        second: None,
        closing,
    }
}

fn twice_numbered(
    opening: &'static str,
    first: u64,
    middle: &'static str,
    second: u64,
    closing: &'static str,
) -> Sentence
    ensures { sentence_view result ≡ twice_numbered opening.now first middle.now second closing.now }
{
    Sentence {
        opening,
        first: Some(first),
        middle,
        second: Some(second),
        closing,
    }
}

fn cfg_sentence(line: u32, field: u32) -> Sentence
    ensures { sentence_view result ≡ cfg_text line field }
{
    let line = u64::from(line);
    if field == 0 {
        let fault = ": missing, surplus or wrong number of fields";
        numbered("cfg line ", line, fault, "")
    } else {
        twice_numbered(
            "cfg line ",
            line,
            " field ",
            u64::from(field),
            ": not readable",
        )
    }
}

fn unsupported_sentence(line: u32, what: &'static str) -> Sentence
    ensures { sentence_view result ≡ unsupported_text line what.now }
{
    numbered("cfg line ", u64::from(line), ": unsupported ", what)
}

fn file_sentence(file: u32) -> Sentence
    ensures { sentence_view result ≡ codes "file " ++ (decimal file ++ codes ": not found") }
{
    numbered("file ", u64::from(file), ": not found", "")
}

fn limit_sentence(line: u32, what: &'static str) -> Sentence
    ensures { sentence_view result ≡ limit_text line what.now }
{
    if line == 0 {
        plain("limit passed: ", what)
    } else {
        numbered("cfg line ", u64::from(line), ": limit passed: ", what)
    }
}

fn selection_sentence(channel: u32) -> Sentence
    ensures { sentence_view result ≡ selection_text channel }
{
    if channel == 0 {
        plain("selection: no voltage channel", "")
    } else {
        numbered("selection: channel ", u64::from(channel), "", "")
    }
}

fn dat_sentence(kind: DatFault) -> Sentence
    ensures { sentence_view result ≡ dat_fault_text kind }
{
    match kind {
        DatFault::Short { at } => numbered("dat record ", at, ": cut off", ""),
        DatFault::Number { at, found } => {
            twice_numbered("dat record ", at, ": sample number ", u64::from(found), "")
        }
        DatFault::Missing { at, channel } => {
            twice_numbered(
                "dat record ",
                at,
                ": channel ",
                u64::from(channel),
                " missing",
            )
        }
        DatFault::Long { bytes } => numbered("dat: ", bytes, " bytes after the last record", ""),
        DatFault::OutOfMemory => plain("out of memory", ""),
    }
}

fn unsupported_word(what: Unsupported) -> &'static str
    ensures { result.now ≡ unsupported_word what }
{
    match what {
        Unsupported::Revision => "revision",
        Unsupported::Frequency => "frequency",
        Unsupported::Rates => "rates",
        Unsupported::FileType => "file type",
        Unsupported::LeapSecond => "leap second",
    }
}

fn quantity_word(what: Quantity) -> &'static str
    ensures { result.now ≡ quantity_word what }
{
    match what {
        Quantity::CfgBytes => "cfg bytes",
        Quantity::DatBytes => "dat bytes",
        Quantity::ScheduleBytes => "schedule bytes",
        Quantity::ReportBytes => "report bytes",
        Quantity::Analogue => "analogue channels",
        Quantity::Status => "status channels",
        Quantity::Samples => "samples",
        Quantity::Rate => "rate",
        Quantity::Value => "value",
        Quantity::Channels => "selected channels",
    }
}
