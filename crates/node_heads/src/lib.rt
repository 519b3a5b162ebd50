// How many readings each line keeps; and, in proofs/, that what is held fixes the state.
#![tactic(auto)]

ghost use Rattle.std.specs.Prelude.{◌≡◌, map};
ghost use Rattle.node.specs.declared.LineHead.{LineHead as Head};

use node::{HEADS, LineHead};

// How many readings each line keeps.
pub fn kept_of(heads: &[LineHead; HEADS]) -> [u32; HEADS]
    ensures { result ≡ map (λ (h : Head). h.kept) heads.now }
{
    heads.map(|head| head.kept)
}
