//! The words that ask for a service: `node NAME TURNS` and `ask NAME COMMAND`.
ghost use Rattle.std.specs.Prelude.{◌≡◌};
ghost use Rattle.node_commands.specs.Forms as spec;

use base_types::{LONGEST_TEXT, Text};
use syntax::number_u32;

/// What is asked of a workstation.
#[derive(Clone, Copy)]
pub enum Service {
    /// To serve it for so many turns.
    Node(u32),
    /// To ask it a command line.
    Ask,
}

/// The service that words ask for. None where they ask for none.
#[tactic(auto, unfolding(crate::specs::Forms::service_in))]
pub fn asked_service(words: &[Text]) -> Option<Service>
    ensures { result ≡ spec.service_in words.now }
{
    match words {
        [word, _, last] => service_by(word.as_str(), last.as_str()),
        _ => None,
    }
}

#[tactic(auto, unfolding(crate::specs::Forms::service_of))]
fn service_by(word: &str, last: &str) -> Option<Service>
    ensures { result ≡ spec.service_of word.now last.now }
{
    if word == "node" {
        return node(number_u32(last));
    }
    if word == "ask" {
        return ask(last.len());
    }
    None
}

fn node(turns: Option<u32>) -> Option<Service>
    ensures { result ≡ spec.node_of turns }
{
    match turns {
        None => None,
        Some(turns) => Some(Service::Node(turns)),
    }
}

fn ask(length: usize) -> Option<Service>
    ensures { result ≡ spec.ask_of length }
{
    if length > LONGEST_TEXT {
        return None;
    }
    Some(Service::Ask)
}
