// Numbers of at most eight digits to base 256, padded with zeros to eight.
ghost use Rattle.std.specs.Prelude.{◌≡◌, ◌*◌, ◌<◌, ◌^◌, ◌≤◌};
ghost use Rattle.format.specs.Format.{max_arity};
ghost use Rattle.packed.specs.Packed.{pad_to};

use format::MAX_ARITY;

// A number of `arity` digits, followed by zeros up to eight digits.
pub fn padded(prefix: u64, arity: usize) -> u64
    requires arity_le_max_arity { arity ≤ max_arity }
    requires prefix_bound { prefix < 2 ^ (8 * arity) }
    ensures { result ≡ pad_to arity prefix }
{
    if arity == 0 {
        return 0;
    }
    prefix << (8 * (MAX_ARITY - arity))
}
