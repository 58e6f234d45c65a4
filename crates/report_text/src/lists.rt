//! Lists within a line.
ghost use Rattle.std.specs.Prelude.{◌≡◌, ◌++◌, OnOk, map};
ghost use Rattle.base_types.specs.declared.StreamDoc.{StreamDoc};
ghost use Rattle.report_text.specs.Lists as spec;

use crate::names::name;
use crate::words::{write_number, write_words};
use base_types::{Net, StreamDoc, StreamNo, Ws};
use std::io::{self, Write};

/// Writes a word and the numbers of streams.
#[tactic(auto, unfolding(crate::specs::Lists::numbers_text))]
pub(crate) fn write_numbers(out: &mut Vec<u8>, word: &str, numbers: &[StreamNo]) -> io::Result<()>
    ensures { OnOk result (out.new.items ≡ out.old.items ++ (word.now ++ spec.numbers_text numbers.now)) }
{
    let [first, rest @ ..] = numbers else {
        return write_words(out, word, "-");
    };
    write_number(out, word, first.0)?;
    for number in rest {
        write_number(out, ",", number.0)?;
    }
    Ok(())
}

/// Writes a word and the numbers that streams of a plan have.
#[tactic(auto, unfolding(crate::specs::Lists::numbers_text))]
pub(crate) fn write_numbers_of(
    out: &mut Vec<u8>,
    word: &str,
    streams: &[StreamDoc],
) -> io::Result<()>
    ensures { OnOk result (out.new.items ≡ out.old.items ++
        (word.now ++ spec.numbers_text (map (λ (s : StreamDoc). s.no) streams.now))) }
{
    let [first, rest @ ..] = streams else {
        return write_words(out, word, "-");
    };
    write_number(out, word, first.no.0)?;
    for stream in rest {
        write_number(out, ",", stream.no.0)?;
    }
    Ok(())
}

/// Writes a word and how many entries of each workstation were seen.
#[tactic(auto, unfolding(crate::specs::Lists::seen_text))]
pub(crate) fn write_seen(
    out: &mut Vec<u8>,
    net: &Net,
    word: &str,
    seen: &[(Ws, u32)],
) -> io::Result<()>
    ensures { OnOk result (out.new.items ≡ out.old.items ++ (word.now ++ spec.seen_text net.now seen.now)) }
{
    let [first, rest @ ..] = seen else {
        return write_words(out, word, "-");
    };
    write_count(out, net, word, first)?;
    for count in rest {
        write_count(out, net, ",", count)?;
    }
    Ok(())
}

#[tactic(auto, unfolding(crate::specs::Lists::count_text))]
fn write_count(out: &mut Vec<u8>, net: &Net, word: &str, count: &(Ws, u32)) -> io::Result<()>
    ensures { OnOk result (out.new.items ≡ out.old.items ++ (word.now ++ spec.count_text net.now count.now)) }
{
    write!(out, "{word}{}:{}", name(net, &count.0), count.1)
}
