//! Definitions, each behind its line and before a semicolon.
use crate::outs::Out;
use base_types::{Text, Work};
use composer_parser::{
    Clause, CpuDef, Defs, EntryDef, JobDef, Lined, Need, OnDef, OnItem, Pred, PredPart, PromptItem,
    ScheduleDef, Shift,
};

fn put_option(out: &mut Out, name: &Option<Text>) {
    match name {
        Some(name) => out.quote(" ", name),
        None => out.word(" -"),
    }
}

fn put_cpu(out: &mut Out, line: u32, cpu: &CpuDef) {
    out.two("", &line, " cpu ", &cpu.name);
    out.two(" ", &cpu.os, " ", &cpu.host);
    out.debug(" ", &cpu.port);
    out.show(" ", &cpu.domain);
    out.show(" ", &cpu.manager);
    out.debug(" ", &cpu.autolink);
    out.debug(" ", &cpu.full);
    out.word(";")
}

fn put_work(out: &mut Out, work: &Work) {
    match work {
        Work::Script(file) => out.quote(" script ", file),
        Work::Command(text) => out.quote(" command ", text),
    }
}

fn put_job(out: &mut Out, line: u32, job: &JobDef) {
    out.two("", &line, " job ", &job.ws);
    out.show(" ", &job.name);
    put_work(out, &job.work.work);
    put_option(out, &job.work.logon);
    put_option(out, &job.work.cond);
    out.debug(" ", &job.work.recovery);
    out.word(";")
}

fn put_on_item(out: &mut Out, item: &OnItem) {
    match item {
        OnItem::Weekday(day) => out.show(" weekday ", day),
        OnItem::EveryDay => out.word(" everyday"),
        OnItem::Weekdays => out.word(" weekdays"),
        OnItem::Workdays => out.word(" workdays"),
        OnItem::FreeDays => out.word(" freedays"),
        OnItem::Request => out.word(" request"),
        OnItem::Date(day) => out.show(" date ", day),
        OnItem::Rule(text) => out.quote(" rule ", text),
        OnItem::Calendar(name, _) => out.show(" calendar ", name),
    }
}

fn shift_word(shift: &Option<Shift>) -> &'static str {
    match shift {
        None => ";",
        Some(Shift::Ignore) => " ignore;",
        Some(Shift::Next) => " next;",
        Some(Shift::Prev) => " prev;",
    }
}

fn put_on(out: &mut Out, line: u32, on: &OnDef) {
    out.two("", &line, " except ", &on.except);
    out.show(" cycle ", &on.cycle.is_some());
    for item in on.items.as_slice() {
        put_on_item(out, item);
    }
    out.word(shift_word(&on.shift))
}

fn put_preds(out: &mut Out, preds: &[Pred]) {
    out.word(" follows");
    for pred in preds {
        put_option(out, &pred.ws);
        out.show(" ", &pred.name);
        match &pred.part {
            PredPart::Plain => {}
            PredPart::All => out.word(" all"),
            PredPart::Job(job) => out.show(" ", job),
        }
    }
}

fn put_needs(out: &mut Out, needs: &[Need]) {
    out.word(" needs");
    for need in needs {
        out.debug(" ", &need.units);
        put_option(out, &need.ws);
        out.show(" ", &need.name);
    }
}

fn put_prompts(out: &mut Out, prompts: &[PromptItem]) {
    out.word(" prompt");
    for prompt in prompts {
        match prompt {
            PromptItem::Name(name) => out.show(" ", name),
            PromptItem::Own(text) => out.quote(" ", text),
        }
    }
}

fn put_time(out: &mut Out, before: &str, minutes: &u16, days: &Option<u32>) {
    out.show(before, minutes);
    out.debug(" ", days)
}

fn put_clause(out: &mut Out, clause: &Clause) {
    match clause {
        Clause::At(minutes, days) => put_time(out, " at ", minutes, days),
        Clause::Until(minutes, days, then) => {
            put_time(out, " until ", minutes, days);
            out.debug(" ", then)
        }
        Clause::Deadline(minutes, days) => put_time(out, " deadline ", minutes, days),
        Clause::Priority(number) => out.show(" priority ", number),
        Clause::Limit(number) => out.show(" limit ", number),
        Clause::CarryForward => out.word(" carry"),
        Clause::Follows(preds) => put_preds(out, preds.as_slice()),
        Clause::Needs(needs) => put_needs(out, needs.as_slice()),
        Clause::Prompt(prompts) => put_prompts(out, prompts.as_slice()),
        Clause::Opens(files) => out.show(" opens ", &files.len()),
    }
}

fn put_clauses(out: &mut Out, clauses: &[Lined<Clause>]) {
    for clause in clauses {
        out.show(" ", &clause.line);
        put_clause(out, &clause.item);
    }
    out.word(";")
}

fn put_entry(out: &mut Out, line: u32, entry: &EntryDef) {
    out.show("", &line);
    put_option(out, &entry.ws);
    out.two(" entry ", &entry.name, " work ", &entry.work.is_some());
    put_clauses(out, entry.clauses.as_slice())
}

fn put_stream(out: &mut Out, line: u32, stream: &ScheduleDef) {
    out.show("", &line);
    put_option(out, &stream.ws);
    out.two(" stream ", &stream.name, " free ", &stream.free.is_some());
    out.word(";");
    for on in stream.ons.as_slice() {
        put_on(out, on.line, &on.item);
    }
    put_clauses(out, stream.clauses.as_slice());
    for entry in stream.entries.as_slice() {
        put_entry(out, entry.line, &entry.item);
    }
}

fn put_options(out: &mut Out, defs: &Defs) {
    out.show("lines ", &defs.last_line);
    if let Some(start) = &defs.start {
        out.two(";", &start.line, " start ", &start.item);
    }
    if let Some(zone) = &defs.zone {
        out.two(";", &zone.line, " zone ", &zone.item);
    }
    if let Some(carry) = &defs.carry {
        out.show(";", &carry.line);
        out.debug(" carry ", &carry.item);
    }
    out.word(";")
}

fn put_network(out: &mut Out, defs: &Defs) {
    for cpu in defs.cpus.as_slice() {
        put_cpu(out, cpu.line, &cpu.item);
    }
    for domain in defs.domains.as_slice() {
        out.two("", &domain.line, " domain ", &domain.item.name);
        out.show(" ", &domain.item.manager);
        put_option(out, &domain.item.parent);
        out.word(";");
    }
    for calendar in defs.calendars.as_slice() {
        out.two("", &calendar.line, " calendar ", &calendar.item.name);
        put_option(out, &calendar.item.text);
        out.debug(" ", &calendar.item.days.as_slice());
        out.word(";");
    }
}

fn put_groups(out: &mut Out, defs: &Defs) {
    for prompt in defs.prompts.as_slice() {
        out.two("", &prompt.line, " prompt ", &prompt.item.name);
        out.quote(" ", &prompt.item.text);
        out.word(";");
    }
    for resource in defs.resources.as_slice() {
        out.two("", &resource.line, " resource ", &resource.item.ws);
        out.two(" ", &resource.item.name, " ", &resource.item.total);
        put_option(out, &resource.item.text);
        out.word(";");
    }
    for job in defs.jobs.as_slice() {
        put_job(out, job.line, &job.item);
    }
}

/// Each definition behind its line.
pub fn put_defs(out: &mut Out, defs: &Defs) {
    put_options(out, defs);
    put_network(out, defs);
    put_groups(out, defs);
    for stream in defs.schedules.as_slice() {
        put_stream(out, stream.line, &stream.item);
    }
}
