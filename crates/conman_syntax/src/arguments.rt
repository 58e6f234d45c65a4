//! A line's command word and its arguments.
ghost use Rattle.std.specs.Prelude.{◌≡◌, ◌≤◌, ◌<◌, length};
ghost use Rattle.std.specs.List.{position_or_len};
ghost use Rattle.conman_syntax.specs.Arguments as spec;
ghost use Rattle.conman_syntax.specs.Arguments.{word_of, behind_word, argument_from, left_from, argument_behind};
ghost use Rattle.conman_syntax.specs.Arguments.{left_behind};
ghost use Rattle.conman_syntax.specs.declared.arguments.Quoting.TheVariants.{Outside};

/// Where a byte of a line stands.
#[derive(Clone, Copy)]
pub enum Quoting {
    Outside,
    /// Between quotes.
    Inside,
    /// Between quotes, behind a backslash.
    Guarded,
}

/// The text without one `;noask` at its end.
pub fn without_noask(text: &str) -> &str
    ensures { result.now ≡ spec.without_noask text.now }
{
    match text.strip_suffix(";noask") {
        Some(line) => line,
        None => text,
    }
}

/// The command word, which a blank or a `;` ends, and what is left of the line from there on.
pub fn command_word(line: &str) -> (&str, &str)
    ensures word { result.0.now ≡ word_of line.now }
    ensures left { result.1.now ≡ behind_word line.now }
{
    line.split_at(word_length(line.as_bytes()))
}

/// The argument that the mark introduces, and what is left of the line behind it. Where something else stands there,
/// or nothing, the argument is empty.
#[tactic(auto, unfolding(crate::specs::Arguments::argument_behind, crate::specs::Arguments::left_behind))]
pub fn take_argument(left: &str, mark: char) -> (&str, &str)
    requires small { mark < 128 }
    requires no_null { 0 < mark }
    ensures argument { result.0.now ≡ argument_behind mark left.now }
    ensures left { result.1.now ≡ left_behind mark left.now }
{
    match left.strip_prefix(mark) {
        Some(text) => split_argument(text),
        None => ("", left),
    }
}

/// What stands before the first `;` outside quotes, and the rest from there on.
#[tactic(auto, unfolding(crate::specs::Arguments::argument_from, crate::specs::Arguments::left_from))]
fn split_argument(text: &str) -> (&str, &str)
    ensures argument { result.0.now ≡ argument_from text.now }
    ensures left { result.1.now ≡ left_from text.now }
{
    text.split_at(argument_length(text.as_bytes()))
}

fn word_length(line: &[u8]) -> usize
    ensures { result ≡ position_or_len spec.ends_word line.now }
{
    for (i, byte) in line.iter().enumerate() {
        if ends_word(*byte) {
            return i;
        }
    }
    line.len()
}

fn argument_length(text: &[u8]) -> usize
    ensures { result ≡ spec.argument_length Outside text.now }
{
    let mut quoting = Quoting::Outside;
    for (i, byte) in text.iter().enumerate() {
        if ends_argument(quoting, *byte) {
            return i;
        }
        quoting = past(quoting, *byte);
    }
    text.len()
}

fn ends_word(byte: u8) -> bool
    ensures { result ≡ spec.ends_word byte }
{
    byte == b' ' || byte == b';'
}

fn ends_argument(quoting: Quoting, byte: u8) -> bool
    ensures { result ≡ spec.ends_argument quoting byte }
{
    match quoting {
        Quoting::Outside => byte == b';',
        Quoting::Inside => false,
        Quoting::Guarded => false,
    }
}

fn past(quoting: Quoting, byte: u8) -> Quoting
    ensures { result ≡ spec.past quoting byte }
{
    match quoting {
        Quoting::Outside => {
            if byte == b'"' {
                Quoting::Inside
            } else {
                Quoting::Outside
            }
        }
        Quoting::Inside => {
            if byte == b'"' {
                Quoting::Outside
            } else if byte == b'\\' {
                Quoting::Guarded
            } else {
                Quoting::Inside
            }
        }
        Quoting::Guarded => Quoting::Inside,
    }
}
