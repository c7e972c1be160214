// Exact jets of a case, each an order and its array as a list, and the answers wanted: refusal, order and entries.
use exact::{CurveDerivatives, ParameterCurve, SurfaceDerivatives};
use refusals::Refusal;
use replay_text::{list_met, met, next, next_array, numbered, refusal_met};
use std::io::Read;

pub const NO_CURVE: CurveDerivatives = CurveDerivatives {
    order: 0,
    entries: [0; 21],
};

pub const NO_SURFACE: SurfaceDerivatives = SurfaceDerivatives {
    order: 0,
    entries: [0; 231],
};

const NO_PARAMETER: ParameterCurve = ParameterCurve {
    order: 0,
    u: [0; 21],
    v: [0; 21],
};

pub fn next_curve(input: &mut impl Read) -> CurveDerivatives {
    CurveDerivatives {
        order: next(input),
        entries: next_array(input),
    }
}

pub fn next_surface(input: &mut impl Read) -> SurfaceDerivatives {
    SurfaceDerivatives {
        order: next(input),
        entries: next_array(input),
    }
}

pub fn next_parameter(input: &mut impl Read) -> ParameterCurve {
    ParameterCurve {
        order: next(input),
        u: next_array(input),
        v: next_array(input),
    }
}

pub fn curve_met(input: &mut impl Read, answer: Result<CurveDerivatives, Refusal>) -> bool {
    let (number, jet) = numbered(answer, NO_CURVE);
    refusal_met(input, number) & met(input, jet.order) & list_met(input, &jet.entries)
}

pub fn surface_met(input: &mut impl Read, answer: Result<SurfaceDerivatives, Refusal>) -> bool {
    let (number, jet) = numbered(answer, NO_SURFACE);
    refusal_met(input, number) & met(input, jet.order) & list_met(input, &jet.entries)
}

pub fn parameter_met(input: &mut impl Read, answer: Result<ParameterCurve, Refusal>) -> bool {
    let (number, jet) = numbered(answer, NO_PARAMETER);
    refusal_met(input, number)
        & met(input, jet.order)
        & list_met(input, &jet.u)
        & list_met(input, &jet.v)
}
