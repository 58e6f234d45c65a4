//! Which question it is.
use crate::asked::Asked;
use crate::audits::ask_audit;
use crate::decisions::{ask_best, decision};
use crate::facts::fact;
use crate::groups::ask_groups;
use crate::mails::{ask_mail, do_mail};
use crate::nets::of_net;
use crate::nights::Night;
use crate::nodes::{ask_deeds, ask_node};
use crate::orders::{ask_entry, ask_orders};
use crate::outs::Out;
use crate::symphonies::ask_symphony;
use crate::told::{Told, put_told};
use crate::views::{ask_net, ask_plan, state};
use crate::walks::ask_lists;
use crate::worlds::ask_world;

/// The short answer.
fn told(night: &Night, asked: &Asked) -> Option<Told> {
    if let Some(told) = of_net(&night.net, asked) {
        return Some(told);
    }
    if let Some(told) = fact(night.held(), asked) {
        return Some(told);
    }
    if let Some(told) = decision(&night.net, night.held(), asked) {
        return Some(told);
    }
    state(&night.net, night.held(), asked)
}

fn ask_short(night: &Night, out: &mut Out, asked: &Asked) -> bool {
    match told(night, asked) {
        Some(told) => {
            put_told(out, &told);
            true
        }
        None => false,
    }
}

/// What is shown.
fn ask_shown(night: &Night, out: &mut Out, asked: &Asked) -> bool {
    ask_plan(night, out, asked)
        || ask_net(night, out, asked)
        || ask_mail(night, out, asked)
        || ask_node(night, out, asked)
        || ask_lists(out, night.held(), asked)
}

/// What is worked out.
fn ask_worked(night: &Night, out: &mut Out, asked: &Asked) -> bool {
    ask_best(night, out, asked)
        || ask_orders(night, out, asked)
        || ask_symphony(night, out, asked)
        || ask_audit(night, out, asked)
        || ask_entry(night, out, asked)
}

/// What is done.
fn ask_done(night: &mut Night, out: &mut Out, asked: &Asked) -> bool {
    ask_deeds(night, out, asked)
        || ask_groups(&mut night.groups, out, asked)
        || do_mail(night, out, asked)
        || ask_world(night, out, asked)
}

/// Writes the answer to a question, and tells whether it is one.
pub fn ask(night: &mut Night, out: &mut Out, asked: &Asked) -> bool {
    ask_short(night, out, asked)
        || ask_done(night, out, asked)
        || ask_shown(night, out, asked)
        || ask_worked(night, out, asked)
}
