//! The numbered lists of a network, which are short.
ghost use Rattle.std.specs.Prelude.{◌≡◌, ◌≤◌, length};

use base_types::{PromptDef, Resource};
use network_tree::Network;

/// The resources, numbered from 1.
#[tactic(auto, using(network_tree::proofs::Sizes::few_resources))]
pub(crate) fn resources(net: &Network) -> &[Resource]
    ensures value { result.now ≡ net.now.resources }
    ensures few { length result.now ≤ 65535 }
{
    net.net().resources.as_slice()
}

/// The global prompts, numbered from 1.
#[tactic(auto, using(network_tree::proofs::Sizes::few_prompts))]
pub(crate) fn prompts(net: &Network) -> &[PromptDef]
    ensures value { result.now ≡ net.now.prompts }
    ensures few { length result.now ≤ 65535 }
{
    net.net().prompts.as_slice()
}
