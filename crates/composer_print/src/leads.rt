//! What stands between the texts of a list.
ghost use Rattle.std.specs.Prelude.{◌≡◌, ◌++◌, OnOk};
ghost use Rattle.composer_print.specs.Texts as spec;

use std::io::{self, Write};

/// Writes the separator behind texts of a list, and its beginning before the first.
pub(crate) fn write_lead(
    out: &mut Vec<u8>,
    separator: &str,
    beginning: &str,
    begun: bool,
) -> io::Result<()>
    ensures { OnOk result (out.new.items ≡ out.old.items ++ spec.lead separator.now beginning.now begun) }
{
    if begun {
        write!(out, "{separator}")
    } else {
        write!(out, "{beginning}")
    }
}
