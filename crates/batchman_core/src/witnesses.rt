//! On whose events an entry stands, and how many of them there are.
ghost use Rattle.std.specs.Prelude.{◌≡◌, ◌∷◌, [], IfOk, OnOk, map, option_map};
ghost use Rattle.std.specs.Option.{option_map_or};
ghost use Rattle.model.specs.Types.{StreamDoc};
ghost use Rattle.model.specs.Words.{ascending, insert_once};
ghost use Rattle.model.specs.History.{view_of};
ghost use Rattle.model.specs.Catalogue.{StreamJob, jobs_of_stream, stream_of};
ghost use Rattle.model.specs.Dependencies.{cites, dep_cites};
ghost use Rattle.model.specs.NewPlan.{seen_of};
ghost use Rattle.model.specs.Turn as spec;
ghost use Rattle.batchman_core.specs.Gathered.{with_all};

use base_types::{Dep, Feed, JobNo, NoMemory, Obj, PromptRef, Seen, StreamNo, Ws};
use owner_fold::Owners;
use std::alloc::Global;
use std::collections::BTreeSet;
use std::marker::Model;

const MASTER: Ws = Ws(0);

/// Workstations, each once. A contract sees their numbers in ascending order.
#[derive(Drop)]
struct Witnesses {
    numbers: BTreeSet<u16>,
}

impl Model for Witnesses {
    ghost use Rattle.std.specs.Prelude.{List, ℕ};

    ghost Value = { List ℕ };

    ghost view = { λ a. a.numbers.keys };
}

impl Witnesses {
    /// Nobody, which takes no memory yet.
    fn new(alloc: Global) -> Self
        ensures { result ≡ [] }
    {
        Witnesses {
            numbers: BTreeSet::new(alloc),
        }
    }

    /// Adds a workstation, where it is not there already.
    fn add(&mut self, w: Ws) -> Result<(), NoMemory>
        ensures { OnOk result (self.new ≡ insert_once w self.old) }
    {
        self.numbers.insert(w.0)?;
        Ok(())
    }

    /// How many events of each were taken, those without events left out.
    #[tactic(auto, unfolding(model::specs::NewPlan::seen_of))]
    fn counts(&self, alloc: Global, o: &Owners) -> Result<Seen, NoMemory>
        ensures { IfOk result (λ seen. seen ≡ seen_of (view_of o.now) self.now) }
    {
        let mut seen = Seen::new(alloc);
        for w in &self.numbers {
            let count = o.count(Feed::Events(Ws(*w)));
            if count > 0 {
                seen.push((Ws(*w), count))?;
            }
        }
        Ok(seen)
    }
}

/// The counts of w, of the master and of these workstations.
fn seen_by(alloc: Global, o: &Owners, w: Ws, mut found: Witnesses) -> Result<Seen, NoMemory>
    ensures { IfOk result (λ seen. seen ≡ seen_of (view_of o.now) (insert_once w (insert_once 0 found))) }
{
    found.add(MASTER)?;
    found.add(w)?;
    found.counts(alloc, o)
}

/// The counts of a launch or a release at w: of w, of the master, of the stream's owner, and of whom the object's
/// dependencies cite.
#[tactic(auto, unfolding(model::specs::Turn::seen_for, model::specs::Turn::witnesses))]
pub(crate) fn seen_by_object(alloc: Global, o: &Owners, w: Ws, obj: &Obj) -> Result<Seen, NoMemory>
    ensures { let V = view_of o.now in IfOk result (λ seen. seen ≡ spec.seen_for V (spec.witnesses V w obj.now)) }
{
    let found = stream_witnesses(alloc, o, obj)?;
    seen_by(alloc, o, w, found)
}

/// The counts of a stream's end at w: of w, of the master, and of the owners of the stream's jobs.
#[tactic(auto, unfolding(model::specs::Turn::seen_for, model::specs::Turn::end_witnesses))]
pub(crate) fn seen_by_end(alloc: Global, o: &Owners, w: Ws, s: StreamNo) -> Result<Seen, NoMemory>
    ensures { let V = view_of o.now in IfOk result (λ seen. seen ≡ spec.seen_for V (spec.end_witnesses V w s)) }
{
    let found = job_owners(alloc, o, s)?;
    seen_by(alloc, o, w, found)
}

/// The owner of the object's stream and whom the object's dependencies cite. Nobody outside the catalogue.
fn stream_witnesses(alloc: Global, o: &Owners, obj: &Obj) -> Result<Witnesses, NoMemory>
    ensures { let V = view_of o.now in IfOk result (λ found. found
        ≡ ascending (option_map_or (λ (d : StreamDoc). d.ws ∷ cites V obj.now) (stream_of V obj.now) [])) }
{
    match stream_owner(o, obj) {
        None => Ok(Witnesses::new(alloc)),
        Some(owner) => {
            let mut found = cited(alloc, o, obj)?;
            found.add(owner)?;
            Ok(found)
        }
    }
}

/// The owner of the stream that the object is or belongs to.
#[tactic(auto, unfolding(model::specs::Catalogue::stream_of))]
fn stream_owner(o: &Owners, obj: &Obj) -> Option<Ws>
    ensures { result ≡ option_map (λ (d : StreamDoc). d.ws) (stream_of (view_of o.now) obj.now) }
{
    match obj {
        Obj::Job(j) => match o.planned_job(*j) {
            None => None,
            Some((parent, _)) => Some(parent.ws),
        },
        Obj::Stream(s) => match o.stream(*s) {
            None => None,
            Some(doc) => Some(doc.ws),
        },
    }
}

/// Whom the object's dependencies cite, the waived ones too.
#[tactic(auto, unfolding(model::specs::Dependencies::cites))]
fn cited(alloc: Global, o: &Owners, obj: &Obj) -> Result<Witnesses, NoMemory>
    ensures { let V = view_of o.now in IfOk result (λ found. found ≡ ascending (cites V obj.now)) }
{
    let mut found = Witnesses::new(alloc);
    for passed in 0..o.dep_count(*obj) {
        match o.dep(*obj, passed + 1) {
            None => continue,
            Some(dep) => add_cited(o, dep, &mut found)?,
        }
    }
    Ok(found)
}

/// Adds whom a dependency on a job cites.
#[tactic(auto, unfolding(model::specs::Dependencies::dep_cites))]
fn add_cited_job(o: &Owners, j: JobNo, found: &mut Witnesses) -> Result<(), NoMemory>
    ensures { OnOk result (found.new ≡ with_all (dep_cites (view_of o.now) (Dep.FollowsJob j)) found.old) }
{
    match o.planned_job(j) {
        None => Ok(()),
        Some((parent, doc)) => {
            found.add(parent.ws)?;
            found.add(doc.ws)
        }
    }
}

/// Adds whom a dependency on a stream cites.
#[tactic(auto, unfolding(model::specs::Dependencies::dep_cites))]
fn add_cited_stream(o: &Owners, s: StreamNo, found: &mut Witnesses) -> Result<(), NoMemory>
    ensures { OnOk result (found.new ≡ with_all (dep_cites (view_of o.now) (Dep.FollowsStream s)) found.old) }
{
    match o.stream(s) {
        None => Ok(()),
        Some(doc) => found.add(doc.ws),
    }
}

/// Adds whom a dependency cites.
#[tactic(auto, unfolding(model::specs::Dependencies::dep_cites))]
fn add_cited(o: &Owners, dep: &Dep, found: &mut Witnesses) -> Result<(), NoMemory>
    ensures { OnOk result (found.new ≡ with_all (dep_cites (view_of o.now) dep.now) found.old) }
{
    match dep {
        Dep::FollowsJob(j) => add_cited_job(o, *j, found),
        Dep::FollowsStream(s) => add_cited_stream(o, *s, found),
        Dep::Prompt(PromptRef::Global(_)) => found.add(MASTER),
        Dep::Prompt(PromptRef::Own(_))
        | Dep::Needs(_, _)
        | Dep::At(_)
        | Dep::Until(_, _)
        | Dep::Outside(_)
        | Dep::Deadline(_) => Ok(()),
    }
}

/// The owners of a stream's jobs.
#[tactic(auto, using(crate::proofs::Gatherings::with_one_more, crate::proofs::Gatherings::all_gathered))]
fn job_owners(alloc: Global, o: &Owners, s: StreamNo) -> Result<Witnesses, NoMemory>
    ensures { let V = view_of o.now in IfOk result (λ found. found
        ≡ ascending (map (λ (p : StreamJob). p.doc.ws) (jobs_of_stream V s))) }
{
    let mut found = Witnesses::new(alloc);
    for (_parent, doc) in o.jobs_of_stream(s) {
        found.add(doc.ws)?;
    }
    Ok(found)
}
