// What a use adds to a fingerprint. The numbers are those of specs/Fingerprints.antt.
ghost use Rattle.std.specs.Prelude.{◌≡◌, ◌+◌, ◌*◌, ◌<◌, ◌≤◌};
ghost use Rattle.fields.specs.Fields.{Readable};
ghost use Rattle.format.specs.Format.{max_arity};
ghost use Rattle.table.specs.Layout.{transition_at};
ghost use Rattle.fingerprints.specs.Fingerprints.{mixed, multiplier, salted, xored};

use fields::{arg_of, arity_of};

// What the label and x, which stands for the output, give. Both halves of x count.
pub fn salt(label: usize, x: usize) -> usize
    requires { label ≤ 65535 }
    ensures { result ≡ salted label x }
{
    label * 9223372037 ^ x % 4294967296 * 3935559001 ^ x / 4294967296 * 2654435769
}

// Argument q at place k.
pub fn scaled(q: usize, k: usize) -> usize
    requires q_bound { q < 256 }
    requires k_lt_max_arity { k < max_arity }
    ensures { result ≡ q * multiplier k }
{
    q * (61169462280107569 - k * 1137794023457893)
}

// The arguments of the transition that starts at a byte, put into y.
pub fn xor_args(transitions: &[u8], at: usize, y: usize) -> usize
    requires { Readable transitions.now at }
    ensures { result ≡ xored (transition_at transitions.now at).args 0 y }
{
    let arity = arity_of(transitions, at);
    let mut all = y;
    for k in 0..arity {
        all ^= scaled(arg_of(transitions, at, k), k);
    }
    all
}

// The value of a slot from what its label, its output and its arguments gave.
pub fn value(y: usize) -> usize
    ensures { result ≡ mixed y }
{
    let g = y % 4294967296 * (y / 4294967296);
    g - g % 65536 + 2
}
