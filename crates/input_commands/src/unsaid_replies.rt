//! The answer to what words ask for, before it is said.
ghost use Rattle.std.specs.Prelude.{◌≡◌};
ghost use Rattle.input_commands.specs.declared.unsaid_replies.Silence.TheVariants.{NoMemory as NoRoom};

use base_types::{Bytes, NoMemory};
use network_world::World;
use replies::Status;

/// A status, the text that is written with it, and the world of the night that is told.
pub struct Reply {
    pub status: Status,
    pub text: Bytes,
    pub world: Option<World>,
}

/// Written out, so that dropping one is a call for whoever owns it.
impl Drop for Reply {
    fn drop(self) {
        let Reply {
            status: _status,
            text: _text,
            world: _world,
        } = self;
    }
}

impl Reply {
    /// The status, the text and the world, each by itself.
    pub fn into_parts(self) -> (Status, Bytes, Option<World>)
        ensures status { result.0 ≡ self.status }
        ensures text { result.1 ≡ self.text }
        ensures world { result.2 ≡ self.world }
    {
        let Reply {
            status,
            text,
            world,
        } = self;
        (status, text, world)
    }
}

/// Why nothing is said.
#[derive(Clone, Copy)]
pub enum Silence {
    SourceFailed,
    NoMemory,
}

impl From<NoMemory> for Silence {
    ghost from_gives = { λ _ s. s ≡ NoRoom };

    fn from(_error: NoMemory) -> Silence {
        Silence::NoMemory
    }
}
