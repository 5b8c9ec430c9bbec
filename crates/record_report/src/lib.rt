// The record layer, the report record: its writer and its reader.
#![tactic(auto)]

ghost use Rattle.std.specs.Prelude.{◌≡◌};
ghost use Rattle.record_format.specs.Answer.{written_answer, report_answer};
ghost use Rattle.record_format.specs.Report.{write_report, read_report};

use record_format::{Refusal, Report};

// The two bytes that a report record begins with.
pub const REPORT_MARK: [u8; 2] = [0x51, 0x56];

// The bytes of a report record.
pub const REPORT_SIZE: usize = 12;

// Verdicts are from 0 to this.
pub const LAST_VERDICT: u8 = 3;

// The twelve bytes of a report at the front of the buffer: 5, then 11.
#[tactic(auto, unfolding(record_format::specs::Report::write_report, record_format::specs::Writing::write, record_format::specs::Row::first))]
pub fn write_report(buffer: &mut [u8], report: Report) -> Result<usize, Refusal>
    ensures answers { written_answer result ≡ (write_report report buffer.old).answer }
    ensures leaves { buffer.new ≡ (write_report report buffer.old).buffer }
{
    let Report {
        verdict,
        first,
        second,
        pins,
        sums,
        turns,
        joins,
        left,
    } = report;
    if verdict > LAST_VERDICT {
        return Err(Refusal::UnknownVerdict);
    }
    if buffer.len() < REPORT_SIZE {
        return Err(Refusal::BufferShort);
    }
    buffer[..2].copy_from_slice(&REPORT_MARK);
    buffer[2] = verdict;
    buffer[3..5].copy_from_slice(&first.to_le_bytes());
    buffer[5..7].copy_from_slice(&second.to_le_bytes());
    buffer[7..REPORT_SIZE].copy_from_slice(&[pins, sums, turns, joins, left]);
    Ok(REPORT_SIZE)
}

// The fields of the report at the start of s: 1, 2, 5.
#[tactic(auto, unfolding(record_format::specs::Report::read_report, record_format::specs::Row::first))]
pub fn read_report(s: &[u8]) -> Result<Report, Refusal>
    ensures { report_answer result ≡ read_report s.now }
{
    let Some(bytes) = s.first_chunk::<REPORT_SIZE>() else {
        return Err(Refusal::Short);
    };
    if !s.starts_with(&REPORT_MARK) {
        return Err(Refusal::WrongMark);
    }
    let [
        _,
        _,
        verdict,
        first_low,
        first_high,
        second_low,
        second_high,
        pins,
        sums,
        turns,
        joins,
        left,
    ] = *bytes;
    if verdict > LAST_VERDICT {
        return Err(Refusal::UnknownVerdict);
    }
    Ok(Report {
        verdict,
        first: u16::from_le_bytes([first_low, first_high]),
        second: u16::from_le_bytes([second_low, second_high]),
        pins,
        sums,
        turns,
        joins,
        left,
    })
}
