// The formulas on derivatives, over any kind of number and any number of variables, and their laws: see specs/ and proofs/.
#![tactic(auto)]

ghost use Rattle.std.specs.Prelude.{◌≡◌, cond, suc, min, ltb};
ghost use Rattle.calculus.specs.Choose.{choose};
ghost use Rattle.calculus.specs.Graded.{triangle};
ghost use Rattle.calculus.specs.Operation.{operation_of};
ghost use Rattle.calculus.specs.Orders.{some_above20, smallest as Smallest};

use refusals::Refusal;

pub mod places;

// A derivative by which of a surface's parameters.
#[derive(Clone, Copy)]
pub enum By {
    U,
    V,
}

// What is formed of two jets.
#[derive(Clone, Copy)]
pub enum Operation {
    Sum,
    Difference,
    Product,
    Quotient,
}

// The operation of a number, as a recipe's lists name it.
impl TryFrom<usize> for Operation {
    type Error = Refusal;

    ghost try_from_gives = { λ n answer. answer ≡ operation_of n };

    fn try_from(n: usize) -> Result<Operation, Refusal> {
        match n {
            0 => Ok(Operation::Sum),
            1 => Ok(Operation::Difference),
            2 => Ok(Operation::Product),
            3 => Ok(Operation::Quotient),
            _ => Err(Refusal::NoRecipe),
        }
    }
}

// The smaller of two orders, at which two jets meet.
pub fn smaller(m: usize, n: usize) -> usize
    ensures { result ≡ min m n }
{
    m.min(n)
}

// Whether one of the orders is above 20.
pub fn some_above_20(orders: &[usize]) -> bool
    ensures { result ≡ some_above20 orders.now }
{
    for n in orders {
        if 20 < *n {
            return true;
        }
    }
    false
}

// The smallest of the orders, or 20 where that is smaller.
pub fn smallest(orders: &[usize]) -> usize
    ensures { result ≡ Smallest orders.now }
{
    let mut least = 20;
    for n in orders {
        least = smaller(least, *n);
    }
    least
}

// How many entries a surface has up to the order n: none where the order is above 20.
pub fn surface_count(n: usize) -> usize
    ensures { result ≡ cond (ltb 20 n) 0 (triangle (suc n)) }
{
    if 20 < n {
        return 0;
    }
    (n + 1) * (n + 2) / 2
}

// Pascal's triangle: the coefficients of the order m stand from m (m + 1)/2 on.
const BINOMIALS: [u32; 231] = [
    1, 1, 1, 1, 2, 1, 1, 3, 3, 1, 1, 4, 6, 4, 1, 1, 5, 10, 10, 5, 1, 1, 6, 15, 20, 15, 6, 1, 1, 7,
    21, 35, 35, 21, 7, 1, 1, 8, 28, 56, 70, 56, 28, 8, 1, 1, 9, 36, 84, 126, 126, 84, 36, 9, 1, 1,
    10, 45, 120, 210, 252, 210, 120, 45, 10, 1, 1, 11, 55, 165, 330, 462, 462, 330, 165, 55, 11, 1,
    1, 12, 66, 220, 495, 792, 924, 792, 495, 220, 66, 12, 1, 1, 13, 78, 286, 715, 1287, 1716, 1716,
    1287, 715, 286, 78, 13, 1, 1, 14, 91, 364, 1001, 2002, 3003, 3432, 3003, 2002, 1001, 364, 91,
    14, 1, 1, 15, 105, 455, 1365, 3003, 5005, 6435, 6435, 5005, 3003, 1365, 455, 105, 15, 1, 1, 16,
    120, 560, 1820, 4368, 8008, 11440, 12870, 11440, 8008, 4368, 1820, 560, 120, 16, 1, 1, 17, 136,
    680, 2380, 6188, 12376, 19448, 24310, 24310, 19448, 12376, 6188, 2380, 680, 136, 17, 1, 1, 18,
    153, 816, 3060, 8568, 18564, 31824, 43758, 48620, 43758, 31824, 18564, 8568, 3060, 816, 153,
    18, 1, 1, 19, 171, 969, 3876, 11628, 27132, 50388, 75582, 92378, 92378, 75582, 50388, 27132,
    11628, 3876, 969, 171, 19, 1, 1, 20, 190, 1140, 4845, 15504, 38760, 77520, 125970, 167960,
    184756, 167960, 125970, 77520, 38760, 15504, 4845, 1140, 190, 20, 1,
];

// The i-th binomial coefficient of the order m; 0 where the order is above 20, whose coefficients the table lacks.
pub fn choose(m: usize, i: usize) -> u32
    ensures { result ≡ cond (ltb 20 m) 0 (choose m i) }
{
    if 20 < m {
        return 0;
    }
    if m < i {
        return 0;
    }
    BINOMIALS[m * (m + 1) / 2 + i]
}
