// The steps of the walk on a part of an array, and the divisions of the multiplicity. Each `requires` is met by the public functions in lib.rt.
ghost use Rattle.std.specs.Prelude.{◌≡◌, true, ◌≤◌, ◌<◌, cond, ltb, length, Some, None};
ghost use Rattle.partitions.specs.Parts.{total as sum, fact, divide, runs};
ghost use Rattle.partitions.specs.Count.{falls as Falls};
ghost use Rattle.partitions.specs.Walk.{padded};
ghost use Rattle.partitions.specs.Inner.{can_init, greatest, has_next, next_of};

use crate::factorials;

// The sum of the parts, or none where it is greater than 20: the parts after that are not read, however many there are.
pub fn total(list: &[usize]) -> Option<usize>
    ensures { result ≡ cond (ltb 20 (sum list.now)) None (Some (sum list.now)) }
{
    let mut sum = 0usize;
    for a in list {
        sum = sum.saturating_add(*a);
        if 20 < sum {
            return None;
        }
    }
    Some(sum)
}

// Whether the parts are positive and none is greater than the one before it, the first at most max.
pub fn falls(list: &[usize], max: usize) -> bool
    ensures { result ≡ Falls max list.now }
{
    let mut last = max;
    for a in list {
        if *a == 0 || last < *a {
            return false;
        }
        last = *a;
    }
    true
}

// A list in an array, with zeros past it.
pub fn pad(list: &[usize]) -> [usize; 20]
    requires { length list.now ≤ 20 }
    ensures { result ≡ padded list.now }
{
    let mut parts = [0usize; 20];
    parts[..list.len()].copy_from_slice(list);
    parts
}

// Whether there is a list of len parts from 1 to max with the sum n.
pub fn can_init(len: usize, n: usize, max: usize) -> bool
    requires { (len ≤ 20) × (max ≤ 20) }
    ensures { result ≡ can_init len n max }
{
    len <= n && n <= max * len
}

// Fills the array with the greatest list of parts up to max whose sum is n.
pub fn init(array: &mut [usize], n: usize, max: usize)
    requires { length array.old ≤ n }
    ensures { array.new ≡ greatest (length array.old) n max }
{
    let len = array.len();
    if len == 0 {
        return;
    }
    let first = (n - (len - 1)).min(max);
    array[0] = first;
    init(&mut array[1..], n - first, first);
}

// Moves the array on to the next list, or leaves it as it is where there is none.
pub fn next(array: &mut [usize]) -> bool
    requires { (Falls 20 array.old ≡ true) × (sum array.old ≤ 20) }
    ensures { (result ≡ has_next array.old) × (array.new ≡ next_of array.old) }
{
    let len = array.len();
    if len <= 1 {
        return false;
    }
    let n = array[1..].iter().sum::<usize>() + 1;
    let max = array[0] - 1;
    if next(&mut array[1..]) {
        return true;
    }
    if can_init(len - 1, n, max) {
        array[0] = max;
        init(&mut array[1..], n, max);
        true
    } else {
        false
    }
}

// Divides by the factorial of each part.
pub fn over_parts(x: u64, list: &[usize]) -> u64
    requires { sum list.now ≤ 20 }
    ensures { result ≡ divide x list.now }
{
    let mut rest = x;
    for a in list {
        rest /= factorials::factorial(*a);
    }
    rest
}

// Divides by the factorial of the length of each run of equal parts.
pub fn over_runs(x: u64, list: &[usize]) -> u64
    requires { (0 < length list.now) × (length list.now ≤ 20) }
    ensures { result ≡ divide x (runs list.now) }
{
    let mut rest = x;
    let mut run = 1;
    for pair in list.windows(2) {
        if pair[1] == pair[0] {
            run += 1;
        } else {
            rest /= factorials::factorial(run);
            run = 1;
        }
    }
    rest / factorials::factorial(run)
}
