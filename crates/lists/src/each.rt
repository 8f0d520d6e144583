// A list made entry by entry, anew or in place: what each entry becomes is the caller's closure, of its index and of what stood there.
#![tactic(auto)]

ghost use Rattle.std.specs.Prelude.{◌≡◌, ℕ, ◌<◌, length, get_or};

pub fn set_each<F: Fn(usize, u32) -> u32>(out: &mut [u32], entry: F)
    requires { (k : ℕ) → k < length out.old → F.pre entry k (get_or out.old k 0) }
    ensures long { length out.new ≡ length out.old }
    ensures made { (k : ℕ) → k < length out.old → F.post entry k (get_or out.old k 0) (get_or out.new k 0) }
{
    for k in 0..out.len() {
        out[k] = entry(k, out[k]);
    }
}
