//! The rows in front of one that ends them.
ghost use Rattle.std.specs.Prelude.{◌≡◌};
ghost use Rattle.record_faults.specs.Known as known;
ghost use Rattle.record_script.specs.Plans as spec;

use record_faults::{begins_stream, is_object};
use record_rows::Row;

/// A row that begins a section.
fn ends_section(row: &Row) -> bool
    ensures { result ≡ spec.ends_section row.now }
{
    match row {
        Row::Plan | Row::Steps => true,
        _ => false,
    }
}

/// The rows before the next job or stream.
pub(crate) fn until_object<'a>(rows: &'a [Row]) -> &'a [Row]
    ensures { result.now ≡ known.until known.is_object rows.now }
{
    for (i, row) in rows.iter().enumerate() {
        if is_object(row) {
            return &rows[..i];
        }
    }
    rows
}

/// The rows before the next stream or section.
pub(crate) fn until_stream<'a>(rows: &'a [Row]) -> &'a [Row]
    ensures { result.now ≡ known.until known.begins_stream rows.now }
{
    for (i, row) in rows.iter().enumerate() {
        if begins_stream(row) {
            return &rows[..i];
        }
    }
    rows
}

/// The rows before the next section.
pub(crate) fn until_section<'a>(rows: &'a [Row]) -> &'a [Row]
    ensures { result.now ≡ known.until spec.ends_section rows.now }
{
    for (i, row) in rows.iter().enumerate() {
        if ends_section(row) {
            return &rows[..i];
        }
    }
    rows
}
