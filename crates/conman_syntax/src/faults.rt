//! Why a text is no line.
ghost use Rattle.std.specs.Prelude.{◌≡◌, ◌==◌, length, Ok, Err, if◌then◌else◌};
ghost use Rattle.conman_syntax.specs.Answers as spec;
ghost use Rattle.conman_syntax.specs.declared.faults.ArgumentFault.TheVariants as fault;

use base_types::NoMemory;

/// Why a text is no line.
#[derive(Clone, Copy, Debug)]
pub enum CommandFault {
    /// The first word is no command's.
    UnknownCommand,
    /// The argument of this number, from 1, is missing or not of its form, and those before it are good.
    BadArgument(u32),
    /// The arguments are good, and a further one follows.
    TooMany,
    /// There was no memory for the parts.
    NoMemory,
}

/// Why what follows a command word is not its arguments.
#[derive(Clone, Copy)]
pub enum ArgumentFault {
    BadArgument(u32),
    TooMany,
    NoMemory,
}

impl From<NoMemory> for ArgumentFault {
    ghost from_gives = { λ _ f. f ≡ fault.NoMemory };

    fn from(_error: NoMemory) -> ArgumentFault {
        ArgumentFault::NoMemory
    }
}

impl From<ArgumentFault> for CommandFault {
    ghost from_gives = { λ f g. g ≡ spec.fault_of f };

    fn from(fault: ArgumentFault) -> CommandFault {
        match fault {
            ArgumentFault::BadArgument(n) => CommandFault::BadArgument(n),
            ArgumentFault::TooMany => CommandFault::TooMany,
            ArgumentFault::NoMemory => CommandFault::NoMemory,
        }
    }
}

/// The value, where nothing is left of the line.
pub fn ended<T: Drop>(left: &str, value: T) -> Result<T, ArgumentFault>
    ensures { result ≡ (if length left.now == 0 then Ok value else Err fault.TooMany) }
{
    if left.is_empty() {
        Ok(value)
    } else {
        Err(ArgumentFault::TooMany)
    }
}
