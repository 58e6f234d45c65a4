//! The rows of a text, each judged by those above it.
ghost use Rattle.std.specs.Prelude.{◌≡◌, ◌<◌, Some, length, slice_get, slice_set};
ghost use Rattle.record_rows.specs.declared.rows.Row as declared;
ghost use Rattle.record_faults.specs.Places as spec;
ghost use Rattle.record_faults.specs.Places.{placed_from};
ghost use Rattle.record_faults.specs.declared.places.Place.TheVariants as place;

use crate::places::{Fate, Place, below_row, fate_of};
use base_types::Items;
use record_rows::Row;

/// The row at a place becomes what it is below these. Gives what stands above the next row.
fn place_row(rows: &mut Items<Row>, i: usize, above: Place) -> Place
    requires { i < length rows.old }
    ensures row { (r : declared.Row) → slice_get rows.old i ≡ Some r → rows.new ≡ slice_set rows.old i (spec.row_at above r) }
    ensures below { (r : declared.Row) → slice_get rows.old i ≡ Some r → result ≡ spec.below_row above (spec.row_at above r) }
{
    let Some(row) = rows.get(i) else {
        return above;
    };
    let fate = fate_of(above, row);
    let below = below_row(above, row);
    match fate {
        Fate::Stands => below,
        Fate::Skipped => {
            rows.set(i, Row::Skipped);
            above
        }
        Fate::NoForm => {
            rows.set(i, Row::NoForm);
            above
        }
    }
}

/// Each row of a text becomes what it is where it stands: itself, a line of no form, or one that is skipped.
pub fn place_rows(rows: &mut Items<Row>)
    ensures { rows.new ≡ placed_from place.Nothing rows.old }
{
    let mut above = Place::Nothing;
    for i in 0..rows.len() {
        above = place_row(rows, i, above);
    }
}
