//! The command words, and what each stands for.
ghost use Rattle.std.specs.Prelude.{◌≡◌};
ghost use Rattle.conman_syntax.specs.Heads as spec;
ghost use Rattle.conman_syntax.specs.Heads.{dependency_head, object_head, job_head, station_head, network_head};
ghost use Rattle.conman_syntax.specs.Heads.{show_head, node_head};

/// What a line asks for, by its command word.
#[derive(Clone, Copy)]
pub enum Command {
    AddDep,
    DelDep,
    Release,
    AltPri,
    Cancel,
    Confirm,
    Kill,
    Rerun,
    Fence,
    Limit,
    Resource,
    Reply,
    Start,
    Stop,
    Submit,
    SwitchMgr,
    ShowJobs,
    ShowSchedules,
    ShowCpus,
    ShowPrompts,
    ShowResources,
    Link,
    Unlink,
    Shutdown,
    JNextPlan,
}

/// The second word of a long form: what the first argument names.
#[derive(Clone, Copy)]
pub enum What {
    Job,
    Sched,
    Cpu,
    DoCommand,
}

/// What a command word stands for.
#[derive(Clone, Copy)]
pub struct Head {
    pub command: Command,
    /// The second word, where the command word is a short form that stands for both.
    pub what: Option<What>,
}

/// What the word stands for, in any case. None where it is no command's.
#[tactic(auto, unfolding(crate::specs::Heads::head_of))]
pub fn head_of(word: &str) -> Option<Head>
    ensures { result ≡ spec.head_of word.now }
{
    if let Some(head) = dependency_head(word) {
        return Some(head);
    }
    if let Some(head) = object_head(word) {
        return Some(head);
    }
    if let Some(head) = job_head(word) {
        return Some(head);
    }
    if let Some(head) = station_head(word) {
        return Some(head);
    }
    if let Some(head) = network_head(word) {
        return Some(head);
    }
    if let Some(head) = show_head(word) {
        return Some(head);
    }
    node_head(word)
}

#[tactic(auto, unfolding(crate::specs::Heads::dependency_head))]
fn dependency_head(word: &str) -> Option<Head>
    ensures { result ≡ spec.dependency_head word.now }
{
    if is_word(word, "adddep") {
        long(Command::AddDep)
    } else if is_word(word, "adj") {
        short(Command::AddDep, What::Job)
    } else if is_word(word, "ads") {
        short(Command::AddDep, What::Sched)
    } else if is_word(word, "deldep") {
        long(Command::DelDep)
    } else if is_word(word, "ddj") {
        short(Command::DelDep, What::Job)
    } else if is_word(word, "dds") {
        short(Command::DelDep, What::Sched)
    } else {
        None
    }
}

#[tactic(auto, unfolding(crate::specs::Heads::object_head))]
fn object_head(word: &str) -> Option<Head>
    ensures { result ≡ spec.object_head word.now }
{
    if is_word(word, "release") {
        long(Command::Release)
    } else if is_word(word, "rj") {
        short(Command::Release, What::Job)
    } else if is_word(word, "rs") {
        short(Command::Release, What::Sched)
    } else if is_word(word, "altpri") {
        long(Command::AltPri)
    } else if is_word(word, "ap") {
        long(Command::AltPri)
    } else if is_word(word, "cancel") {
        long(Command::Cancel)
    } else if is_word(word, "cj") {
        short(Command::Cancel, What::Job)
    } else if is_word(word, "cs") {
        short(Command::Cancel, What::Sched)
    } else {
        None
    }
}

#[tactic(auto, unfolding(crate::specs::Heads::job_head))]
fn job_head(word: &str) -> Option<Head>
    ensures { result ≡ spec.job_head word.now }
{
    if is_word(word, "confirm") {
        long(Command::Confirm)
    } else if is_word(word, "conf") {
        long(Command::Confirm)
    } else if is_word(word, "kill") {
        long(Command::Kill)
    } else if is_word(word, "k") {
        long(Command::Kill)
    } else if is_word(word, "rerun") {
        long(Command::Rerun)
    } else if is_word(word, "rr") {
        long(Command::Rerun)
    } else {
        None
    }
}

#[tactic(auto, unfolding(crate::specs::Heads::station_head))]
fn station_head(word: &str) -> Option<Head>
    ensures { result ≡ spec.station_head word.now }
{
    if is_word(word, "fence") {
        long(Command::Fence)
    } else if is_word(word, "limit") {
        long(Command::Limit)
    } else if is_word(word, "lc") {
        short(Command::Limit, What::Cpu)
    } else if is_word(word, "ls") {
        short(Command::Limit, What::Sched)
    } else if is_word(word, "resource") {
        long(Command::Resource)
    } else if is_word(word, "reso") {
        long(Command::Resource)
    } else if is_word(word, "reply") {
        long(Command::Reply)
    } else if is_word(word, "rep") {
        long(Command::Reply)
    } else {
        None
    }
}

#[tactic(auto, unfolding(crate::specs::Heads::network_head))]
fn network_head(word: &str) -> Option<Head>
    ensures { result ≡ spec.network_head word.now }
{
    if is_word(word, "start") {
        long(Command::Start)
    } else if is_word(word, "stop") {
        long(Command::Stop)
    } else if is_word(word, "submit") {
        long(Command::Submit)
    } else if is_word(word, "sbd") {
        short(Command::Submit, What::DoCommand)
    } else if is_word(word, "switchmgr") {
        long(Command::SwitchMgr)
    } else {
        None
    }
}

#[tactic(auto, unfolding(crate::specs::Heads::show_head))]
fn show_head(word: &str) -> Option<Head>
    ensures { result ≡ spec.show_head word.now }
{
    if is_word(word, "showjobs") {
        long(Command::ShowJobs)
    } else if is_word(word, "sj") {
        long(Command::ShowJobs)
    } else if is_word(word, "showschedules") {
        long(Command::ShowSchedules)
    } else if is_word(word, "ss") {
        long(Command::ShowSchedules)
    } else if is_word(word, "showcpus") {
        long(Command::ShowCpus)
    } else if is_word(word, "sc") {
        long(Command::ShowCpus)
    } else {
        other_show_head(word)
    }
}

#[tactic(auto, unfolding(crate::specs::Heads::other_show_head))]
fn other_show_head(word: &str) -> Option<Head>
    ensures { result ≡ spec.other_show_head word.now }
{
    if is_word(word, "showprompts") {
        long(Command::ShowPrompts)
    } else if is_word(word, "sp") {
        long(Command::ShowPrompts)
    } else if is_word(word, "showresources") {
        long(Command::ShowResources)
    } else if is_word(word, "sr") {
        long(Command::ShowResources)
    } else {
        None
    }
}

#[tactic(auto, unfolding(crate::specs::Heads::node_head))]
fn node_head(word: &str) -> Option<Head>
    ensures { result ≡ spec.node_head word.now }
{
    if is_word(word, "link") {
        long(Command::Link)
    } else if is_word(word, "unlink") {
        long(Command::Unlink)
    } else if is_word(word, "shutdown") {
        long(Command::Shutdown)
    } else if is_word(word, "jnextplan") {
        long(Command::JNextPlan)
    } else {
        None
    }
}

fn long(command: Command) -> Option<Head>
    ensures { result ≡ spec.long command }
{
    Some(Head {
        command,
        what: None,
    })
}

fn short(command: Command, what: What) -> Option<Head>
    ensures { result ≡ spec.short command what }
{
    Some(Head {
        command,
        what: Some(what),
    })
}

#[tactic(auto, unfolding(crate::specs::Heads::is_word))]
fn is_word(word: &str, spelling: &str) -> bool
    ensures { result ≡ spec.is_word word.now spelling.now }
{
    word.eq_ignore_ascii_case(spelling)
}
