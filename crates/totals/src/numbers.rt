// A number for each state: entry q has the number of state q, or none if it is over.
ghost use Rattle.std.specs.Prelude.{◌≡◌, ◌<◌};
ghost use Rattle.format.specs.Format.{byte_values};
ghost use Rattle.lists.specs.Positions.{up_from};
ghost use Rattle.lists.specs.Tests.{every};
ghost use Rattle.totals.specs.Limited.{worth};
ghost use Rattle.totals.specs.Numbers.{Added, same_in};

use crate::limited::plus;
use format::BYTE_VALUES;

pub type Numbers = [Option<u64>; BYTE_VALUES];

// State q gets so many more.
pub fn add(numbers: &mut Numbers, q: usize, more: Option<u64>)
    requires { q < byte_values }
    ensures { Added q (worth more) numbers.old numbers.new }
{
    numbers[q] = plus(numbers[q], more);
}

// Whether the states 1 to n have the same numbers in both.
pub fn same(a: &Numbers, b: &Numbers, n: usize) -> bool
    requires { n < byte_values }
    ensures { result ≡ every (same_in a.now b.now) (up_from 1 n) }
{
    a[1..n + 1] == b[1..n + 1]
}
