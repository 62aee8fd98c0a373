//! The text of a report.
ghost use Rattle.std.specs.Prelude.{◌≡◌, ◌++◌, [], false, IfOk, OnOk};
ghost use Rattle.csv.specs.Records.{fields_of, partial_of};
ghost use Rattle.csv.specs.Writing.{default_writer, fields_written, has_written, writer_setup};
ghost use Rattle.jc_report.specs.Csv.{count_fields, csv_of, row_line, row_fields};
ghost use Rattle.jc_report.specs.Written.{written};

use crate::Row;
use csv::{ByteRecord, Writer, WriterBuilder};
use jc_bytes::Memory;
use jc_cover::Count;
use std::alloc::Global;
use std::string::ToString;

static HEADER: &[u8] =
    b"GROUP,PACKAGE,CLASS,INSTRUCTION_MISSED,INSTRUCTION_COVERED,BRANCH_MISSED,BRANCH_COVERED,\
      LINE_MISSED,LINE_COVERED,COMPLEXITY_MISSED,COMPLEXITY_COVERED,METHOD_MISSED,METHOD_COVERED\n";

/// Adds the two numbers of a count to the fields of a row.
fn push_count(alloc: Global, fields: &mut ByteRecord, count: &Count) -> Result<(), Memory>
    requires { partial_of fields.old ≡ [] }
    ensures fields { OnOk result (fields_of fields.new ≡ fields_of fields.old ++ count_fields count.now) }
    ensures partial { OnOk result (partial_of fields.new ≡ []) }
{
    let missed = count.missed.to_string(alloc)?;
    fields.push_field(missed.as_bytes())?;
    let covered = count.covered.to_string(alloc)?;
    fields.push_field(covered.as_bytes())?;
    Ok(())
}

/// The fields of a row.
fn record_of(alloc: Global, row: &Row) -> Result<ByteRecord, Memory>
    ensures { IfOk result (λ fields. fields_of fields ≡ row_fields row.now) }
{
    let mut fields = ByteRecord::new(alloc);
    fields.push_field(row.group.as_slice())?;
    fields.push_field(row.package.as_slice())?;
    fields.push_field(row.class.as_slice())?;
    push_count(alloc, &mut fields, &row.counters.instruction)?;
    push_count(alloc, &mut fields, &row.counters.branch)?;
    push_count(alloc, &mut fields, &row.counters.line)?;
    push_count(alloc, &mut fields, &row.counters.complexity)?;
    push_count(alloc, &mut fields, &row.counters.method)?;
    Ok(fields)
}

/// Writes the line of a row.
fn write_row(alloc: Global, writer: &mut Writer<Vec<u8>>, row: &Row) -> Result<(), Memory>
    requires fields { fields_written writer.old ≡ 0 }
    requires wrote { has_written writer.old ≡ false }
    requires setup { writer_setup writer.old ≡ default_writer }
    ensures text { OnOk result (written writer.new ≡ written writer.old ++ row_line row.now) }
    ensures fields { OnOk result (fields_written writer.new ≡ 0) }
    ensures wrote { OnOk result (has_written writer.new ≡ false) }
    ensures setup { OnOk result (writer_setup writer.new ≡ default_writer) }
{
    let fields = record_of(alloc, row)?;
    match writer.write_byte_record(&fields) {
        Ok(()) => Ok(()),
        Err(_) => Err(Memory),
    }
}

/// The text of a report (RFC 4180, with LF at the end of each line): the header line, and a line for
/// each row, in the order of the rows. A field is quoted where it holds a comma, a quote, CR or LF.
///
/// # Errors
///
/// `Memory` where memory was refused.
pub fn csv_text(alloc: Global, rows: &[Row]) -> Result<Vec<u8>, Memory>
    ensures { IfOk result (λ text. text.items ≡ csv_of rows.now) }
{
    let text = Vec::from_slice(alloc, HEADER)?;
    let mut writer = WriterBuilder::new().from_writer(text);
    'writing: for row in rows {
        write_row(alloc, &mut writer, row)?;
    }
    match writer.into_inner() {
        Ok(text) => Ok(text),
        Err(_) => Err(Memory),
    }
}
