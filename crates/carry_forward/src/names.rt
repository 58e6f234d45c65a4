//! Streams and jobs by their names.
ghost use Rattle.std.specs.Prelude.{◌≡◌, ◌+◌, ◌≤◌, ◌^◌, ◌++◌, ◌∷◌, [], IfOk, OnOk, List, filter_map, length, map, option_map, option_and_then};
ghost use Rattle.std.specs.List.{enumerate_from};
ghost use Rattle.model.specs.History.{view_of};
ghost use Rattle.model.specs.Catalogue.{stream};
ghost use Rattle.model.specs.NewPlan.{Named, NamedJob, named_doc, named_fresh, resolve_job, resolve_stream};
ghost use Rattle.carry_forward.specs.Known.{AreJobsOf, IsIndexOf, IsTarget, job_at, named_job, named_jobs};
ghost use Rattle.carry_forward.specs.Known.{numbered_jobs, told_named, told_target};

use crate::numbers::Fresh;
use base_types::{JobDoc, JobDraft, JobNo, NoMemory, StreamDoc, StreamNo, Text, Ws};
use indexmap::IndexMap;
use owner_fold::Owners;
use std::alloc::Global;
use std::marker::Model;

/// The numbers of jobs by their names.
type JobNames<'a> = IndexMap<&'a Text, u32>;

/// Streams by workstation and name.
type StreamNames<'a> = IndexMap<(u16, &'a Text), Target<'a>>;

/// A stream that a name stands for.
#[derive(Drop)]
struct Target<'a> {
    number: StreamNo,
    jobs: JobNames<'a>,
}

impl<'a> Target<'a> {
    /// The number of the stream.
    fn stream(&self) -> StreamNo
        ensures { result ≡ self.now.number }
    {
        self.number
    }

    /// The number of a job by its name.
    fn job(&self, name: &'a Text) -> Option<JobNo>
        ensures { result ≡ job_at self.now.jobs.entries name.now }
    {
        match self.jobs.get(&name) {
            None => None,
            Some(number) => Some(JobNo(*number)),
        }
    }
}

/// Puts a job before the others: it takes the place of one of its name.
fn put_job<'a>(names: &mut JobNames<'a>, name: &'a Text, number: u32) -> Result<(), NoMemory>
    ensures { OnOk result ((jobs : List NamedJob) → AreJobsOf names.old.entries jobs →
        AreJobsOf names.new.entries (named_job name.now number ∷ jobs)) }
{
    match names.insert(name, number) {
        Ok(_) => Ok(()),
        Err(_) => Err(NoMemory),
    }
}

/// The jobs of a document by their names.
fn jobs_of_document<'a>(alloc: Global, jobs: &'a [JobDoc]) -> Result<JobNames<'a>, NoMemory>
    ensures { IfOk result (λ names. AreJobsOf names.entries (named_jobs jobs.now)) }
{
    let mut names = IndexMap::new(alloc);
    // From the last on, so that the first of a name stays.
    for i in (0..jobs.len()).rev() {
        let job = &jobs[i];
        put_job(&mut names, &job.name, job.no.0)?;
    }
    Ok(names)
}

/// The jobs of a draft by their names, numbered from this one on.
fn jobs_of_draft<'a>(
    alloc: Global,
    first: u64,
    jobs: &'a [JobDraft],
) -> Result<JobNames<'a>, NoMemory>
    requires { first + length jobs.now ≤ 2 ^ 32 }
    ensures { IfOk result (λ names. AreJobsOf names.entries (numbered_jobs (enumerate_from first jobs.now))) }
{
    let mut names = IndexMap::new(alloc);
    for i in (0..jobs.len()).rev() {
        let number = first + i as u64;
        let job = &jobs[i];
        put_job(&mut names, &job.name, number as u32)?;
    }
    Ok(names)
}

/// Puts a stream before the others: it takes the place of one of its workstation and name.
fn put_stream<'a>(
    names: &mut StreamNames<'a>,
    ws: u16,
    name: &'a Text,
    target: Target<'a>,
) -> Result<(), NoMemory>
    ensures fresh { OnOk result ((fresh earlier : List Named) (s : Named) → IsTarget target.entry s →
        ws ≡ s.ws → name.now ≡ s.name → IsIndexOf names.old.entries fresh earlier →
        IsIndexOf names.new.entries (s ∷ fresh) earlier) }
    ensures earlier { OnOk result ((earlier : List Named) (s : Named) → IsTarget target.entry s →
        ws ≡ s.ws → name.now ≡ s.name → IsIndexOf names.old.entries [] earlier →
        IsIndexOf names.new.entries [] (earlier ++ s ∷ [])) }
{
    let key = (ws, name);
    match names.insert(key, target) {
        Ok(_) => Ok(()),
        Err(_) => Err(NoMemory),
    }
}

/// What the name of an earlier stream stands for.
fn earlier_target<'a>(alloc: Global, doc: &'a StreamDoc) -> Result<Target<'a>, NoMemory>
    ensures { IfOk result (λ t. IsTarget t (named_doc doc.now)) }
{
    Ok(Target {
        number: doc.no,
        jobs: jobs_of_document(alloc, doc.jobs.as_slice())?,
    })
}

/// Earlier streams by workstation and name, without those that the catalogue lacks. Of one name the last counts.
fn earlier_names<'a>(
    alloc: Global,
    o: &'a Owners,
    earlier: &[StreamNo],
) -> Result<StreamNames<'a>, NoMemory>
    ensures { IfOk result (λ names. IsIndexOf names.entries []
        (map named_doc (filter_map (stream (view_of o.now)) earlier.now))) }
{
    let mut names = IndexMap::new(alloc);
    for s in earlier {
        if let Some(doc) = o.stream(*s) {
            let target = earlier_target(alloc, doc)?;
            put_stream(&mut names, doc.ws.0, &doc.name, target)?;
        }
    }
    Ok(names)
}

/// What the name of a fresh stream stands for.
fn fresh_target<'a>(alloc: Global, fresh: &Fresh<'a>) -> Result<Target<'a>, NoMemory>
    ensures { IfOk result (λ t. IsTarget t (named_fresh fresh.now)) }
{
    Ok(Target {
        number: StreamNo(fresh.number),
        jobs: jobs_of_draft(alloc, fresh.first_job, fresh.draft.jobs.as_slice())?,
    })
}

/// The same with fresh streams, which come first. Of one name the first counts.
fn with_fresh<'a>(
    alloc: Global,
    earlier: StreamNames<'a>,
    fresh: &[Fresh<'a>],
) -> Result<StreamNames<'a>, NoMemory>
    ensures { IfOk result (λ names. (others : List Named) → IsIndexOf earlier.entry.entries [] others →
        IsIndexOf names.entries (map named_fresh fresh.now) others) }
{
    let mut names = earlier;
    // From the last on, so that the first of a name stays.
    for i in (0..fresh.len()).rev() {
        let stream = &fresh[i];
        let target = fresh_target(alloc, stream)?;
        let draft = stream.draft;
        put_stream(&mut names, draft.ws.0, &draft.name, target)?;
    }
    Ok(names)
}

/// The streams that a FOLLOWS may name: fresh ones, and earlier ones where no fresh one has the name.
#[derive(Drop)]
pub(crate) struct Names<'a> {
    fresh: &'a [Fresh<'a>],
    owners: &'a Owners,
    earlier: &'a [StreamNo],
    streams: StreamNames<'a>,
}

impl<'a> Model for Names<'a> {
    ghost use Rattle.std.specs.Prelude.{filter_map, map};
    ghost use Rattle.model.specs.History.{view_of};
    ghost use Rattle.model.specs.Catalogue.{stream};
    ghost use Rattle.model.specs.NewPlan.{named_doc, named_fresh};
    ghost use Rattle.carry_forward.specs.Known.{Known, IsIndexOf};

    ghost Value = { Known };

    ghost view = { λ n. record {
      fresh = map named_fresh n.fresh.now;
      earlier = map named_doc (filter_map (stream (view_of n.owners.now)) n.earlier.now);
    } };

    ghost invariant = { λ n. IsIndexOf n.streams.entries (map named_fresh n.fresh.now)
        (map named_doc (filter_map (stream (view_of n.owners.now)) n.earlier.now)) };
}

impl<'a> Names<'a> {
    /// The names of these streams, without earlier ones that the catalogue lacks.
    pub(crate) fn of(
        alloc: Global,
        fresh: &'a [Fresh<'a>],
        o: &'a Owners,
        earlier: &'a [StreamNo],
    ) -> Result<Names<'a>, NoMemory>
        ensures fresh { IfOk result (λ n. n.fresh ≡ map named_fresh fresh.now) }
        ensures earlier { IfOk result (λ n.
            n.earlier ≡ map named_doc (filter_map (stream (view_of o.now)) earlier.now)) }
    {
        let names = earlier_names(alloc, o, earlier)?;
        let streams = with_fresh(alloc, names, fresh)?;
        Ok(Names {
            fresh,
            owners: o,
            earlier,
            streams,
        })
    }

    /// The stream that a workstation and name resolve to.
    fn target(&self, ws: Ws, name: &'a Text) -> Option<&Target<'a>>
        ensures { option_map (λ t. told_target t.now) result
            ≡ option_map told_named (resolve_stream self.now.fresh self.now.earlier ws name.now) }
    {
        self.streams.get(&(ws.0, name))
    }

    /// The number of the stream that a workstation and name resolve to.
    pub(crate) fn stream(&self, ws: Ws, name: &'a Text) -> Option<StreamNo>
        ensures { result ≡ option_map (λ (s : Named). s.number)
            (resolve_stream self.now.fresh self.now.earlier ws name.now) }
    {
        match self.target(ws, name) {
            None => None,
            Some(target) => Some(target.stream()),
        }
    }

    /// The number of a job, by its name, of the stream that a workstation and name resolve to.
    #[tactic(auto, using(crate::proofs::Indexed::told_job_so))]
    pub(crate) fn job(&self, ws: Ws, name: &'a Text, job: &'a Text) -> Option<JobNo>
        ensures { result ≡ option_and_then (resolve_job job.now)
            (resolve_stream self.now.fresh self.now.earlier ws name.now) }
    {
        match self.target(ws, name) {
            None => None,
            Some(target) => target.job(job),
        }
    }
}
