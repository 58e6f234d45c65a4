//! Words with numbers behind them.
ghost use Rattle.std.specs.Prelude.{◌≡◌, ◌++◌, OnOk, codes};
ghost use Rattle.std.specs.Fmt.{decimal};

use base_types::Moment;
use std::io::{self, Write};

/// Writes a word and the number behind it.
pub(crate) fn write_number(out: &mut Vec<u8>, word: &str, number: u32) -> io::Result<()>
    ensures { OnOk result (out.new.items ≡ out.old.items ++ (word.now ++ decimal number)) }
{
    write!(out, "{word}{number}")
}

/// Writes a word and two numbers.
pub(crate) fn write_two(out: &mut Vec<u8>, word: &str, first: u32, second: u32) -> io::Result<()>
    ensures { OnOk result (out.new.items ≡ out.old.items ++
        (word.now ++ decimal first ++ codes " " ++ decimal second)) }
{
    write!(out, "{word}{first} {second}")
}

/// Writes a word and a time.
pub(crate) fn write_time(out: &mut Vec<u8>, word: &str, time: &Moment) -> io::Result<()>
    ensures { OnOk result (out.new.items ≡ out.old.items ++ (word.now ++ decimal time.now)) }
{
    write!(out, "{word}{}", time.0)
}

/// Writes a word and another one.
pub(crate) fn write_words(out: &mut Vec<u8>, word: &str, other: &str) -> io::Result<()>
    ensures { OnOk result (out.new.items ≡ out.old.items ++ (word.now ++ other.now)) }
{
    write!(out, "{word}{other}")
}
