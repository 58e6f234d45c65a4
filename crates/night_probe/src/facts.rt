//! Facts of what a node took.
use crate::asked::Asked;
use crate::told::{
    Told, maybe_number, maybe_small, maybe_stream, maybe_truth, maybe_ws, number, small, truth,
};
use base_types::Feed;
use owner_fold::{Outcome, Owners};

fn of_launches(o: &Owners, asked: &Asked) -> Option<Told> {
    let j = asked.job(0);
    if asked.is("launches", 1) {
        number(o.launches(j))
    } else if asked.is("reruns", 1) {
        number(o.reruns(j))
    } else if asked.is("open-launch", 1) {
        maybe_number(o.open_launch(j))
    } else if asked.is("is-started", 2) {
        truth(o.is_started(j, asked.count(1)))
    } else if asked.is("is-last-started", 1) {
        truth(o.is_last_started(j))
    } else {
        None
    }
}

fn ended(outcome: Option<Outcome>) -> Option<Told> {
    match outcome {
        Some(outcome) => Some(Told::Ended(outcome)),
        None => Some(Told::None),
    }
}

fn code(code: Option<i32>) -> Option<Told> {
    match code {
        Some(code) => Some(Told::Code(code)),
        None => Some(Told::None),
    }
}

fn priority(set: Option<u8>) -> Option<Told> {
    match set {
        Some(priority) => small(u16::from(priority)),
        None => Some(Told::None),
    }
}

fn of_ends(o: &Owners, asked: &Asked) -> Option<Told> {
    let j = asked.job(0);
    if asked.is("last-outcome", 1) {
        ended(o.last_outcome(j))
    } else if asked.is("last-end", 1) {
        code(o.last_end(j))
    } else if asked.is("is-due", 1) {
        truth(o.is_due(j))
    } else if asked.is("is-good", 1) {
        truth(o.is_good(j))
    } else {
        None
    }
}

fn of_streams(o: &Owners, asked: &Asked) -> Option<Told> {
    let s = asked.stream(0);
    if asked.is("is-released", 1) {
        truth(o.is_released(s))
    } else if asked.is("is-ended", 1) {
        truth(o.is_ended(s))
    } else if asked.is("stream-limit", 1) {
        maybe_small(o.stream_limit_set(s))
    } else if asked.is("is-member", 1) {
        truth(o.is_member(s))
    } else if asked.is("has-stream", 1) {
        truth(o.stream(s).is_some())
    } else {
        None
    }
}

fn of_plans(o: &Owners, asked: &Asked) -> Option<Told> {
    if asked.is("has-plan", 0) {
        truth(o.has_plan())
    } else if asked.is("run", 0) {
        number(o.run())
    } else if asked.is("last-stream", 0) {
        number(o.last_stream().0)
    } else if asked.is("last-job", 0) {
        number(o.last_job().0)
    } else if asked.is("has-job", 1) {
        truth(o.job(asked.job(0)).is_some())
    } else if asked.is("has-planned-job", 1) {
        truth(o.planned_job(asked.job(0)).is_some())
    } else if asked.is("stream-of", 1) {
        maybe_stream(o.stream_of(asked.job(0)))
    } else {
        None
    }
}

fn of_dependencies(o: &Owners, asked: &Asked) -> Option<Told> {
    let object = asked.object(0);
    let i = asked.small(2);
    if asked.is("is-fulfilled", 3) {
        truth(o.is_fulfilled(object, i))
    } else if asked.is("is-late", 3) {
        truth(o.is_late(object, i))
    } else if asked.is("is-until-recorded", 3) {
        truth(o.is_until_recorded(object, i))
    } else if asked.is("own-reply", 3) {
        maybe_truth(o.own_reply(object, i))
    } else if asked.is("is-waived", 3) {
        truth(o.is_waived(object, i))
    } else if asked.is("dep-count", 2) {
        small(o.dep_count(object))
    } else {
        None
    }
}

fn of_objects(o: &Owners, asked: &Asked) -> Option<Told> {
    let object = asked.object(0);
    if asked.is("is-ever-late", 2) {
        truth(o.is_ever_late(object))
    } else if asked.is("is-cancelled", 2) {
        truth(o.is_cancelled(object))
    } else if asked.is("priority", 2) {
        priority(o.priority_set(object))
    } else if asked.is("owner", 2) {
        maybe_ws(o.owner(object))
    } else {
        None
    }
}

fn of_stations(o: &Owners, asked: &Asked) -> Option<Told> {
    let w = asked.ws(0);
    if asked.is("now", 1) {
        Some(Told::Number(o.now(w).0))
    } else if asked.is("fence", 1) {
        small(u16::from(o.fence(w)))
    } else if asked.is("limit", 1) {
        small(o.limit(w))
    } else if asked.is("is-stopped", 1) {
        truth(o.is_stopped(w))
    } else if asked.is("total", 2) {
        maybe_small(o.total_set(w, asked.small(1)))
    } else if asked.is("used", 2) {
        Some(Told::Number(o.used(w, asked.small(1))))
    } else {
        None
    }
}

fn of_feeds(o: &Owners, asked: &Asked) -> Option<Told> {
    let w = asked.ws(0);
    if asked.is("answered", 2) {
        number(o.answered(w, asked.ws(1)))
    } else if asked.is("may-involve", 2) {
        truth(o.may_involve(w, asked.ws(1)))
    } else if asked.is("has-issued", 1) {
        truth(o.has_issued(w))
    } else if asked.is("event-count", 1) {
        number(o.count(Feed::Events(w)))
    } else if asked.is("order-count", 2) {
        number(o.count(Feed::Orders(w, asked.ws(1))))
    } else if asked.is("global-reply", 1) {
        maybe_truth(o.global_reply(asked.small(0)))
    } else {
        None
    }
}

/// The fact that is asked for.
pub fn fact(o: &Owners, asked: &Asked) -> Option<Told> {
    if let Some(told) = of_launches(o, asked) {
        return Some(told);
    }
    if let Some(told) = of_ends(o, asked) {
        return Some(told);
    }
    if let Some(told) = of_streams(o, asked) {
        return Some(told);
    }
    if let Some(told) = of_plans(o, asked) {
        return Some(told);
    }
    if let Some(told) = of_dependencies(o, asked) {
        return Some(told);
    }
    if let Some(told) = of_objects(o, asked) {
        return Some(told);
    }
    if let Some(told) = of_stations(o, asked) {
        return Some(told);
    }
    of_feeds(o, asked)
}
