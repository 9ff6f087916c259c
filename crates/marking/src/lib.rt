// Tables of marks that code grows in place until nothing new is marked. The laws are in proofs/.
#![tactic(auto)]

ghost use Rattle.std.specs.Prelude.{◌≡◌, ℕ, ◌<◌, Bool};
ghost use Rattle.marking.specs.Steps.{Made, Steps};

// The steps 0 to n - 1, one after another, each of which may change a value. Returns whether one says that it did.
pub fn sweep<M, F: Fn(usize, &mut M) -> bool>(n: usize, value: &mut M, step: F) -> bool
    requires { (i : ℕ) (p : _) (r : Bool) → i < n → Steps (Made (F.post step)) i value.old p.now r → F.pre step i p }
    ensures { Steps (Made (F.post step)) n value.old value.new result }
{
    let mut changed = false;
    for i in 0..n {
        changed |= step(i, value);
    }
    changed
}
