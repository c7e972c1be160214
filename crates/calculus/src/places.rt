// Jets' entries of any type, in arrays and in lists. A surface's array goes by total order, its list by i rising, then j; of a parameter curve there
// are two arrays, and one list u0 v0 u1 v1 .. An order above 20, for which an array has no entries, is cut to 20.
ghost use Rattle.std.specs.Prelude.{◌≡◌, suc, ◌+◌, ◌*◌, ◌≤◌, min, get_or, set};
ghost use Rattle.calculus.specs.Graded.{index as index_of};
ghost use Rattle.calculus.specs.Array.{curve_array, surface_array};
ghost use Rattle.calculus.specs.Surface.{derivative_u, derivative_v};
ghost use Rattle.calculus.specs.Order.{surface_entries, pairs, list_place, overwritten};

// Where [i][j] stands in a surface's array.
#[tactic(auto, unfolding(crate::specs::Graded::index))]
fn index(i: usize, j: usize) -> usize
    requires { i + j ≤ 20 }
    ensures { result ≡ index_of i j }
{
    let n = i + j;
    n * (n + 1) / 2 + i
}

// The entry l of a list, which may be too short for it.
fn entry<T: Copy>(list: &[T], l: usize, zero: T) -> T
    ensures { result ≡ get_or list.now l zero }
{
    list.get(l).copied().unwrap_or(zero)
}

fn put<T: Copy>(out: &mut [T], l: usize, x: T)
    ensures { out.new ≡ set out.old l x }
{
    if l < out.len() {
        out[l] = x;
    }
}

// The array of a surface's list of the order n. Worked out from i and j, the place l would be no plainer: i (2 n + 3 - i) / 2 + j.
pub fn surface_read<T: Copy>(list: &[T], n: usize, zero: T) -> [T; 231]
    ensures { result ≡ surface_array zero (λ i j. get_or list.now (list_place (min n 20) i j) zero) (min n 20) }
{
    let n = n.min(20);
    let mut r = [zero; 231];
    let mut l = 0;
    for i in 0..n + 1 {
        for j in 0..n + 1 - i {
            r[index(i, j)] = entry(list, l, zero);
            l += 1;
        }
    }
    r
}

// Its entries up to the order n into such a list, as far as that reaches.
pub fn surface_write<T: Copy>(a: &[T; 231], n: usize, zero: T, out: &mut [T])
    ensures { out.new ≡ overwritten (surface_entries (λ i j. get_or a.now (index_of i j) zero) (min n 20)) out.old }
{
    let n = n.min(20);
    let mut l = 0;
    for i in 0..n + 1 {
        for j in 0..n + 1 - i {
            put(out, l, entry(a, index(i, j), zero));
            l += 1;
        }
    }
}

// The derivative p times by u and q times by v, of the order n.
fn shifted<T: Copy>(a: &[T; 231], n: usize, p: usize, q: usize, zero: T) -> [T; 231]
    requires { n + (p + q) ≤ 20 }
    ensures { result ≡ surface_array zero (λ i j. get_or a.now (index_of (i + p) (j + q)) zero) n }
{
    let mut r = [zero; 231];
    for i in 0..n + 1 {
        for j in 0..n + 1 - i {
            r[index(i, j)] = entry(a, index(i + p, j + q), zero);
        }
    }
    r
}

// The entries up to the order n of the derivative by u, of which the last reads the order n + 1: n is cut to 19. And of that by v.
pub fn derivative_u<T: Copy>(a: &[T; 231], n: usize, zero: T) -> [T; 231]
    ensures { result ≡ surface_array zero (derivative_u (λ i j. get_or a.now (index_of i j) zero)) (min n 19) }
{
    shifted(a, n.min(19), 1, 0, zero)
}

pub fn derivative_v<T: Copy>(a: &[T; 231], n: usize, zero: T) -> [T; 231]
    ensures { result ≡ surface_array zero (derivative_v (λ i j. get_or a.now (index_of i j) zero)) (min n 19) }
{
    shifted(a, n.min(19), 0, 1, zero)
}

// The arrays of a parameter curve's list of the order n.
pub fn pairs_read<T: Copy>(list: &[T], n: usize, zero: T) -> ([T; 21], [T; 21])
    ensures { result ≡ (curve_array zero (λ m. get_or list.now (2 * m) zero) (min n 20), curve_array zero (λ m. get_or list.now (2 * m + 1) zero) (min n 20)) }
{
    let mut u = [zero; 21];
    let mut v = [zero; 21];
    for m in 0..n.min(20) + 1 {
        u[m] = entry(list, 2 * m, zero);
        v[m] = entry(list, 2 * m + 1, zero);
    }
    (u, v)
}

// Their entries up to the order n into such a list, as far as that reaches.
pub fn pairs_write<T: Copy>(u: &[T; 21], v: &[T; 21], n: usize, zero: T, out: &mut [T])
    ensures { out.new ≡ overwritten (pairs (λ m. get_or u.now m zero) (λ m. get_or v.now m zero) 0 (suc (min n 20))) out.old }
{
    for m in 0..n.min(20) + 1 {
        put(out, 2 * m, entry(u, m, zero));
        put(out, 2 * m + 1, entry(v, m, zero));
    }
}
