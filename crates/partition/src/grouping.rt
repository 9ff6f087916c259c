// A split by keys: a state that has its leader's key stays; the others go each to the least of its part and key.
ghost use Rattle.std.specs.Prelude.{◌≡◌, ◌≤◌, length};
ghost use Rattle.format.specs.Format.{byte_values};
ghost use Rattle.partition.specs.Parts.{Grouped};
ghost use Rattle.partition.specs.Splits.{LeastOf, LedBelow, Regrouped, Settled, is_same, key_of};

use format::BYTE_VALUES;

// Whether p is of q's part and has q's key.
fn is_same(keys: &[usize; BYTE_VALUES], parts: &[u8; BYTE_VALUES], q: usize, p: usize) -> bool
    requires q_bound { q ≤ 255 }
    requires p_bound { p ≤ 255 }
    ensures { result ≡ is_same (key_of keys.now) parts.now q p }
{
    parts[p] == parts[q] && keys[p] == keys[q]
}

// The least state of q's part that has q's key. None is below the leader.
fn first_same(keys: &[usize; BYTE_VALUES], parts: &[u8; BYTE_VALUES], q: usize) -> usize
    requires led_below { LedBelow q parts.now }
    requires q_bound { q ≤ 255 }
    ensures { LeastOf parts.now (key_of keys.now) q result }
{
    for p in usize::from(parts[q])..q {
        if is_same(keys, parts, q, p) {
            return p;
        }
    }
    q
}

// Moves q. Returns whether it leaves its leader.
fn settle(keys: &[usize; BYTE_VALUES], parts: &mut [u8; BYTE_VALUES], q: usize) -> bool
    requires parts_len { length parts.old ≡ byte_values }
    requires led_below { LedBelow q parts.old }
    requires q_bound { q ≤ 255 }
    ensures { Settled (key_of keys.now) q parts.old parts.new result }
{
    if keys[q] == keys[usize::from(parts[q])] {
        return false;
    }
    let first = first_same(keys, parts, q);
    parts[q] = first as u8;
    true
}

// Moves all states, the greatest first: the states below, which `first_same` reads, are where they were. Returns
// whether one leaves its leader.
pub fn regroup(n: usize, keys: &[usize; BYTE_VALUES], parts: &mut [u8; BYTE_VALUES]) -> bool
    requires { Grouped n parts.old }
    ensures { Regrouped n (key_of keys.now) parts.old parts.new result }
{
    let mut changed = false;
    for q in (1..n + 1).rev() {
        changed |= settle(keys, parts, q);
    }
    changed
}
