// A run of a column's elements moved down.
#![tactic(auto)]

ghost use Rattle.std.specs.Prelude.{◌≡◌, ◌+◌, ◌≤◌, length};
ghost use Rattle.std.proofs.lemmas.List.Edits.{sets};
ghost use Rattle.store.specs.Parts.{share};

// Moves the n elements from `from` on down to `to` on.
pub fn move_down<T: Copy>(xs: &mut [T], from: usize, to: usize, n: usize)
    requires { (to ≤ from) × (from + n ≤ length xs.old) }
    ensures { xs.new ≡ sets xs.old to (share from n xs.old) }
{
    xs.copy_within(from..from + n, to);
}
