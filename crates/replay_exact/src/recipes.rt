// Recipes of curves, and both roads of a recipe of surfaces. A recipe is its count of inputs, the jets that are there, its count of steps, and the
// steps that are there: each an operation and two numbers.
use crate::jets::{NO_CURVE, NO_SURFACE, curve_met, next_curve, next_parameter, next_surface};
use replay_text::{next, next_places};
use roads::{Operation, Recipe, Step};
use std::io::Read;

const NO_STEP: Step = Step {
    operation: Operation::Sum,
    left: 0,
    right: 0,
};

// The cases have no other number than the library's: one more would be a quotient.
fn next_operation(input: &mut impl Read) -> Operation {
    let number: usize = next(input);
    Operation::try_from(number).unwrap_or(Operation::Quotient)
}

fn next_step(input: &mut impl Read) -> Step {
    Step {
        operation: next_operation(input),
        left: next(input),
        right: next(input),
    }
}

fn next_recipe<I: Read, J: Copy, F: Fn(&mut I) -> J>(
    input: &mut I,
    blank: J,
    next_jet: F,
) -> Recipe<J>
    requires { F.IsAlwaysCallable next_jet }
{
    Recipe {
        inputs: next(input),
        jets: next_places(input, blank, next_jet),
        steps: next(input),
        program: next_places(input, NO_STEP, |i: &mut I| next_step(i)),
    }
}

pub fn of_curves<I: Read>(input: &mut I) -> bool {
    let recipe = next_recipe(input, NO_CURVE, |i: &mut I| next_curve(i));
    curve_met(input, recipe.build())
}

pub fn both_roads<I: Read>(input: &mut I) -> bool {
    let recipe = next_recipe(input, NO_SURFACE, |i: &mut I| next_surface(i));
    let curve = next_parameter(input);
    let order = next(input);
    curve_met(input, recipe.build_then_carry(curve, order))
        & curve_met(input, recipe.carry_then_build(curve, order))
}
