// Recipes, which build a jet from given ones step by step (document 01's term), and the two ways to bring a recipe of surfaces and a curve
// in their parameters together (document 01's two roads).
#![tactic(auto)]

use exact::{CurveDerivatives, SurfaceDerivatives};

mod checks;
mod jets;
mod recipes;
mod roads;

// What a step does with its two jets.
pub use calculus::Operation;
pub use jets::Jet;

// A step names two earlier jets by their numbers.
#[derive(Clone, Copy)]
pub struct Step {
    pub operation: Operation,
    pub left: usize,
    pub right: usize,
}

// The first `inputs` of the jets are given, numbered from 0; the first `steps` of the program are worked, numbered on from them.
#[derive(Clone, Copy)]
pub struct Recipe<J> {
    pub inputs: usize,
    pub jets: [J; 4],
    pub steps: usize,
    pub program: [Step; 12],
}

pub type SurfaceRecipe = Recipe<SurfaceDerivatives>;

pub type CurveRecipe = Recipe<CurveDerivatives>;
