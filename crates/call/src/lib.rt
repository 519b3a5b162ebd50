// The box's entry point for a journal line. Whatever state, stores, text and area come, it answers.
#![tactic(auto)]

ghost use Rattle.std.specs.Prelude.{◌≡◌, OnErr};
ghost use Rattle.node.specs.Held.{held};
ghost use Rattle.node.specs.View.{lent, SameStores};
ghost use Rattle.node.specs.Calls.{called_of, called_on};

use answer::Refusal;
use node::{State, Stores};

// Answers one call: it is refused, and everything is left as it was, or it is done; then the answer is how many records there are.
pub fn call(
    state: &mut State,
    stores: &mut Stores<'_>,
    text: &[u8],
    area: &mut [u8],
) -> Result<u32, Refusal>
    ensures same_stores { SameStores stores.old stores.new }
    ensures called { called_of result state.new stores.new area.new ≡ called_on (held state.old) (lent stores.old) text.now area.old }
    ensures refused { OnErr result (state.new ≡ state.old) }
{
    let read = journal::read_call(text);
    let k = call_decision::decide(state, stores, read, area.len())?;
    Ok(call_acceptance::accept(state, stores, area, k))
}
