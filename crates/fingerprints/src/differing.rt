// Whether the fingerprints of the states 1 to n all differ. Each is noted by its first bits, and only if another was
// noted there before are two compared.
ghost use Rattle.std.specs.Prelude.{◌≡◌, ◌<◌, ◌≤◌};
ghost use Rattle.fingerprints.specs.Fingerprints.{TakenBelow, all_differ, all_some, bucket_of, buckets};
ghost use Rattle.fingerprints.specs.Fingerprints.{differs_below};

use format::BYTE_VALUES;

const BUCKETS: usize = 1024;

fn bucket(print: usize) -> usize
    ensures value { result ≡ bucket_of print }
    ensures upper_bound { result < buckets }
{
    print / 18014398509481984
}

// Whether q's fingerprint differs from those of the states below it. No early exit, so the loop vectorises.
fn differs_below(prints: &[usize; BYTE_VALUES], q: usize) -> bool
    requires le_q { 1 ≤ q }
    requires q_bound { q ≤ 255 }
    ensures { result ≡ differs_below prints.now q }
{
    let print = prints[q];
    let mut alone = true;
    for p in 1..q {
        alone &= print != prints[p];
    }
    alone
}

// The same, if the buckets of the states below are known.
fn differs_by_bucket(prints: &[usize; BYTE_VALUES], q: usize, taken: &[u8; BUCKETS]) -> bool
    requires le_q { 1 ≤ q }
    requires q_bound { q ≤ 255 }
    requires taken_below { TakenBelow prints.now q taken.now }
    ensures { result ≡ differs_below prints.now q }
{
    if taken[bucket(prints[q])] == 0 {
        return true;
    }
    differs_below(prints, q)
}

// Whether each two differ.
pub fn all_differ(prints: &[usize; BYTE_VALUES], n: usize) -> bool
    requires { n ≤ 255 }
    ensures { result ≡ all_differ prints.now n }
{
    let mut taken = [0u8; BUCKETS];
    for q in 1..n + 1 {
        if !differs_by_bucket(prints, q, &taken) {
            return false;
        }
        taken[bucket(prints[q])] = 1;
    }
    true
}

// Whether none of the states 1 to n has fingerprint 0.
pub fn all_some(prints: &[usize; BYTE_VALUES], n: usize) -> bool
    requires { n ≤ 255 }
    ensures { result ≡ all_some prints.now n }
{
    let mut all = true;
    for q in 1..n + 1 {
        all &= prints[q] != 0;
    }
    all
}
