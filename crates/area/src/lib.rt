// Lent areas of bytes.
#![tactic(auto)]

ghost use Rattle.std.specs.Prelude.{◌≡◌, ◌+◌, ◌≤◌, length};
ghost use Rattle.area.specs.Laid.{laid};

// Lays bytes over an area from `at` on; answers the place behind them. One by one, so that bytes which the compiler knows are laid as
// constants; the library's copy asks first whether the two overlap.
#[tactic(auto, using(crate::proofs::Laid::laid_more, crate::proofs::Laid::laid_none))]
pub fn put_bytes(out: &mut [u8], at: usize, bytes: &[u8]) -> usize
    requires { at + length bytes.now ≤ length out.old }
    ensures value { result ≡ at + length bytes.now }
    ensures out_after { out.new ≡ laid out.old at bytes.now }
{
    for i in 0..bytes.len() {
        out[at + i] = bytes[i];
    }
    at + bytes.len()
}
