//! Lines, words, names, numbers, quoted texts and rules.
use crate::outs::Out;
use base_types::{NoMemory, Text};
use run_rules::{is_in_range, rule_has};
use syntax::{first_word, lines, name, number_u32, quoted, words};

fn put_texts(out: &mut Out, texts: Result<Vec<&str>, NoMemory>) {
    if let Some(texts) = out.kept(texts) {
        out.show("", &texts.len());
        for text in texts.as_slice() {
            out.quote(" ", text);
        }
    }
}

/// `lines TEXT`: how many there are, and each of them.
pub fn put_lines(out: &mut Out, text: &str) {
    let found = lines(out.alloc, text);
    put_texts(out, found)
}

/// `words LINE`: how many there are, and each of them.
pub fn put_words(out: &mut Out, text: &str) {
    let found = words(out.alloc, text);
    put_texts(out, found)
}

fn put_text(out: &mut Out, found: Result<Option<Text>, NoMemory>) {
    match out.kept(found) {
        Some(Some(text)) => out.quote("", &text),
        _ => out.word("None"),
    }
}

/// `name WORD`
pub fn put_name(out: &mut Out, text: &str) {
    let found = name(out.alloc, text);
    put_text(out, found)
}

/// `quoted TEXT`
pub fn put_quoted(out: &mut Out, text: &str) {
    let found = quoted(out.alloc, text);
    put_text(out, found)
}

/// `first_word LINE`: the word and what follows it.
pub fn put_first_word(out: &mut Out, text: &str) {
    let (first, rest) = first_word(text);
    out.quote("", &first);
    out.quote(" ", &rest)
}

/// `rule_has FIRST DAY RULE`, with another word for FIRST where there is no first day.
pub fn put_rule(out: &mut Out, text: &str) {
    let (first, rest) = first_word(text);
    let (day, rule) = first_word(rest);
    let day = number_u32(day).unwrap_or(0);
    out.show("", &rule_has(rule, number_u32(first), day))
}

/// `is_in_range yes RULE`, with `no` where there is no first day.
pub fn put_range(out: &mut Out, text: &str) {
    let (first, rule) = first_word(text);
    out.show("", &is_in_range(rule, first == "yes"))
}
