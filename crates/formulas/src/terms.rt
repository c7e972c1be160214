// What the loops over a surface read: within the array, so that nothing is cut. Over the cut ones of the root a product took half as long again.
ghost use Rattle.std.specs.Prelude.{◌≡◌, ◌+◌, ◌*◌, ◌≤◌};
ghost use Rattle.calculus.specs.Choose.{choose};
ghost use Rattle.calculus.specs.Graded.{index as index_of};
ghost use Rattle.formulas.specs.Real.{real};
ghost use Rattle.formulas.specs.Numbers.{surface_numbers};

// Where [i][j] stands in a surface's array.
#[tactic(auto, unfolding(calculus::specs::Graded::index))]
pub fn index(i: usize, j: usize) -> usize
    requires { i + j ≤ 20 }
    ensures { result ≡ index_of i j }
{
    let n = i + j;
    n * (n + 1) / 2 + i
}

// The entry [i][j].
pub fn number_at(a: &[f64; 231], i: usize, j: usize) -> f64
    requires { i + j ≤ 20 }
    ensures { result ≡ surface_numbers a.now i j }
{
    a[index(i, j)]
}

// The coefficient of the term [i][j] of Leibniz's rule at [m][n]: a product that is formed before it becomes a float.
pub fn coefficient(m: usize, n: usize, i: usize, j: usize) -> f64
    requires { m + n ≤ 20 }
    ensures { result ≡ real.of_nat (choose m i * choose n j) }
{
    let x = calculus::choose(m, i);
    let y = calculus::choose(n, j);
    (x * y) as f64
}
