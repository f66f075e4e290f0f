#![tactic(auto)]

ghost use Rattle.std.specs.Prelude.{◌≡◌};
// No code: the definitions stand below specs/, their laws below proofs/. A crate has to have a function.
pub fn definitions() -> u8
    ensures { result ≡ 0 }
{
    0
}
