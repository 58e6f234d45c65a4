//! What is shown of a plan, of its documents and of the network.
use crate::asked::Asked;
use crate::entries::entry;
use crate::nights::Night;
use crate::outs::Out;
use crate::texts::{
    put_body, put_command, put_dependency, put_job, put_nodes, put_printed, put_stream,
};
use crate::told::Told;
use base_types::Feed;
use file_watch::path_at;
use manager_switch::{present_after, present_net, switched};
use network_tree::Network;
use owner_fold::Owners;
use symphony_view::{job_state, listing, stream_state};

/// The state of a job or a stream.
pub fn state(net: &Network, o: &Owners, asked: &Asked) -> Option<Told> {
    if asked.is("job-state", 1) {
        let j = asked.job(0);
        if o.job(j).is_some() {
            return Some(Told::OfJob(job_state(net, o, j)));
        }
        Some(Told::None)
    } else if asked.is("stream-state", 1) {
        let s = asked.stream(0);
        if o.stream(s).is_some() {
            return Some(Told::OfStream(stream_state(net, o, s)));
        }
        Some(Told::None)
    } else {
        None
    }
}

fn put_event(night: &Night, out: &mut Out, asked: &Asked) {
    let feed = Feed::Events(asked.ws(0));
    match night.held().entry(feed, asked.count(1)) {
        Some(body) => put_body(out, night.net.net(), body),
        None => out.word("none"),
    }
}

fn put_ordered(night: &Night, out: &mut Out, asked: &Asked) {
    let (a, w) = (asked.ws(0), asked.ws(1));
    match night.held().order(a, w, asked.count(2)) {
        Some(cmd) => put_command(out, night.net.net(), cmd),
        None => out.word("none"),
    }
}

fn put_dep(night: &Night, out: &mut Out, asked: &Asked) {
    let object = asked.object(0);
    match night.held().dep(object, asked.small(2)) {
        Some(dep) => put_dependency(out, night.net.net(), &object, dep),
        None => out.word("none"),
    }
}

fn put_path(night: &Night, out: &mut Out, asked: &Asked) {
    match path_at(night.held(), &asked.object(0), asked.small(2)) {
        Some(path) => out.word(path.as_str()),
        None => out.word("none"),
    }
}

fn put_stream_doc(night: &Night, out: &mut Out, asked: &Asked) {
    match night.held().stream(asked.stream(0)) {
        Some(doc) => put_stream(out, night.net.net(), doc),
        None => out.word("none"),
    }
}

fn put_job_doc(night: &Night, out: &mut Out, asked: &Asked) {
    match night.held().job(asked.job(0)) {
        Some(doc) => put_job(out, night.net.net(), doc),
        None => out.word("none"),
    }
}

/// Writes what of the plan is asked for, and tells whether something is.
pub fn ask_plan(night: &Night, out: &mut Out, asked: &Asked) -> bool {
    if asked.is("event", 2) {
        put_event(night, out, asked);
    } else if asked.is("order", 3) {
        put_ordered(night, out, asked);
    } else if asked.is("dep", 3) {
        put_dep(night, out, asked);
    } else if asked.is("path", 3) {
        put_path(night, out, asked);
    } else if asked.is("stream-document", 1) {
        put_stream_doc(night, out, asked);
    } else if asked.is("job-document", 1) {
        put_job_doc(night, out, asked);
    } else if asked.is("listing", 0) {
        let listing = listing(out.alloc, &night.net, night.held());
        put_printed(out, listing);
    } else {
        return false;
    }
    true
}

fn put_parts(net: &Network, out: &mut Out) {
    let net = net.net();
    out.two(
        "nodes ",
        &net.nodes.len(),
        " resources ",
        &net.resources.len(),
    );
    out.show(" prompts ", &net.prompts.len());
    out.debug(" carry ", &net.carry)
}

fn put_switched(night: &Night, out: &mut Out, asked: &Asked) {
    match switched(out.alloc, &night.net, asked.ws(0)) {
        Ok(net) => put_nodes(out, net.net()),
        Err(fault) => out.debug("", &fault),
    }
}

fn put_present(night: &Night, out: &mut Out) {
    let entries = night.held().kept().entries();
    let present = present_net(out.alloc, &night.net, entries);
    if let Some(net) = out.kept(present) {
        put_nodes(out, net.net())
    }
}

fn put_present_after(night: &Night, out: &mut Out, asked: &Asked) -> bool {
    match entry(out, asked.text) {
        Some(entry) => {
            let after = present_after(out.alloc, &night.net, &entry);
            match out.kept(after) {
                Some(Some(net)) => put_nodes(out, net.net()),
                _ => out.word("none"),
            }
            true
        }
        None => false,
    }
}

/// Writes which network is asked for, and tells whether one is.
pub fn ask_net(night: &Night, out: &mut Out, asked: &Asked) -> bool {
    if asked.is_with_text("present-after", 0) {
        return put_present_after(night, out, asked);
    }
    if asked.is("nodes", 0) {
        put_nodes(out, night.net.net());
    } else if asked.is("parts", 0) {
        put_parts(&night.net, out);
    } else if asked.is("switch", 1) {
        put_switched(night, out, asked);
    } else if asked.is("present", 0) {
        put_present(night, out);
    } else {
        return false;
    }
    true
}
