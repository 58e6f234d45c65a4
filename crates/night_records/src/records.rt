//! Records of either kind as they are read.
ghost use Rattle.std.specs.Prelude.{◌≡◌};

use record_script::Script;
use workload_defs::Workload;

/// A record.
pub struct Record {
    /// The network, the plans and the steps. A record that begins with definitions has no plans.
    pub script: Script,
    /// The definitions, where it begins with them.
    pub workload: Option<Workload>,
}

impl Drop for Record {
    fn drop(self) {
        let Record {
            script: _script,
            workload: _workload,
        } = self;
    }
}

impl Record {
    /// The record without its definitions, and these.
    pub fn into_parts(self) -> (Script, Option<Workload>)
        ensures script { result.0 ≡ self.script }
        ensures workload { result.1 ≡ self.workload }
    {
        let Record { script, workload } = self;
        (script, workload)
    }
}
