// Jets read and written with no refusal to look at, and a kind of jet of a crate's own.
ghost use Rattle.std.specs.Prelude.{◌≡◌, refl, ℕ, Float};
ghost use Rattle.callers.specs.Graphs.{graphs};

use derivatives::CurveDerivatives;
use derivatives::jets::Jet;

// A curve as a graph.
#[derive(Clone, Copy)]
pub struct Graph {
    pub of: CurveDerivatives,
}

impl Jet for Graph {
    ghost entries = { ℕ → Float };

    ghost kind = { graphs };

    ghost list_law = { λ l. refl };

    fn order(&self) -> usize {
        self.of.order
    }

    fn is_finite(&self, n: usize) -> bool {
        self.of.is_finite(n)
    }

    fn count(n: usize) -> usize {
        CurveDerivatives::count(n)
    }

    fn read(n: usize, list: &[f64]) -> Graph {
        Graph {
            of: CurveDerivatives::read(n, list),
        }
    }

    fn write(&self, out: &mut [f64]) {
        self.of.write(out)
    }
}

#[cfg(test)]
mod tests {
    use super::Graph;
    use derivatives::jets::{Jet, into_list, of_list};
    use derivatives::{CurveDerivatives, ParameterCurve, SurfaceDerivatives};
    use refusals::{Refusal, number_of};
    use std::process::Abort;
    use vector_derivatives::{VectorCurveDerivatives, VectorSurfaceDerivatives};

    // In each place that is lent, before anything is written.
    const FILL: f64 = -7.0;

    // As many as any jet has, no two alike.
    fn floats() -> [f64; 700] {
        let mut list = [0.5f64; 700];
        let mut x = 0.5f64;
        for place in list.iter_mut() {
            *place = x;
            x += 1.0;
        }
        list
    }

    // A list is read, and the jet written into another, and not into one with a place more or less. Of a list that does not fit: the zero jet of order 0.
    fn there_and_back<J: Jet>(rt: &impl Abort, order: usize, length: usize, fits: bool) {
        let list = floats();
        let a = J::read(order, &list[..length.min(700)]);
        let at = if fits { order } else { 0 };
        assert_eq!(rt; a.order(), at, "order {order}, {length} floats");
        let count = J::count(at).min(699);
        let mut out = [FILL; 700];
        a.write(&mut out[..count + 1]);
        a.write(&mut out[..count.saturating_sub(1)]);
        assert!(rt;
            out.iter().all(|x| *x == FILL),
            "order {order}, {length} floats"
        );
        a.write(&mut out[..count]);
        let (written, rest) = out.split_at(count);
        assert!(rt;
            rest.iter().all(|x| *x == FILL),
            "order {order}, {length} floats"
        );
        let same = if fits {
            written.iter().zip(&list).all(|(x, y)| *x == *y)
        } else {
            written.iter().all(|x| *x == 0.0)
        };
        assert!(rt; same, "order {order}, {length} floats");
    }

    // How many floats a list has of the orders 0, 1 and 20.
    fn lists_of<J: Jet>(rt: &impl Abort, counts: [usize; 3]) {
        for (order, count) in [0, 1, 20].into_iter().zip(counts) {
            there_and_back::<J>(rt, order, count, true);
            there_and_back::<J>(rt, order, count.saturating_add(1), false);
            there_and_back::<J>(rt, order, count.saturating_sub(1), false);
        }
        there_and_back::<J>(rt, 21, counts[2], false);
        there_and_back::<J>(rt, 25, counts[2], false);
    }

    #[test]
    fn lists_are_read_and_written(rt: HostRuntime) {
        lists_of::<CurveDerivatives>(&rt, [1, 2, 21]);
        lists_of::<SurfaceDerivatives>(&rt, [1, 3, 231]);
        lists_of::<ParameterCurve>(&rt, [2, 4, 42]);
        lists_of::<VectorCurveDerivatives>(&rt, [3, 6, 63]);
        lists_of::<VectorSurfaceDerivatives>(&rt, [3, 9, 693]);
        lists_of::<Graph>(&rt, [1, 2, 21]);
    }

    // A list lent to a jet above the order 20 stays as it was, though it has as many places as one of the order 20.
    fn not_written<J: Jet>(rt: &impl Abort, a: J) {
        let mut out = [FILL; 700];
        a.write(&mut out[..J::count(a.order()).min(700)]);
        assert!(rt; out.iter().all(|x| *x == FILL));
    }

    #[test]
    fn an_order_above_20_is_not_written(rt: HostRuntime) {
        let curve = CurveDerivatives {
            order: 21,
            entries: [2.5; 21],
        };
        not_written(&rt, curve);
        not_written(&rt, Graph { of: curve });
        not_written(
            &rt,
            SurfaceDerivatives {
                order: 21,
                entries: [2.5; 231],
            },
        );
        not_written(
            &rt,
            ParameterCurve {
                order: 21,
                u: [2.5; 21],
                v: [2.5; 21],
            },
        );
        not_written(
            &rt,
            VectorCurveDerivatives {
                order: 21,
                entries: [2.5; 63],
            },
        );
        not_written(
            &rt,
            VectorSurfaceDerivatives {
                order: 21,
                entries: [2.5; 693],
            },
        );
    }

    // A kind of jet that has `read` and `write` alone is refused as the others are.
    #[test]
    fn a_graph_is_refused_where_it_does_not_fit(rt: HostRuntime) {
        let list = floats();
        for (order, length, number) in [
            (0, 1, 0),
            (1, 2, 0),
            (20, 21, 0),
            (1, 1, 2),
            (1, 3, 2),
            (0, 0, 2),
            (20, 30, 2),
            (21, 21, 1),
            (21, 22, 1),
            (25, 26, 1),
        ] {
            let read: Result<Graph, Refusal> = of_list(order, &list[..length.min(700)]);
            if let Ok(jet) = read {
                assert_eq!(rt; jet.order(), order);
                assert!(rt; jet.of.entries[0] == list[0]);
            }
            assert_eq!(rt;
                number_of(read.map(|_| ())),
                number,
                "order {order}, {length} floats"
            );
            let a = Graph {
                of: CurveDerivatives {
                    order,
                    entries: [2.5; 21],
                },
            };
            let mut out = [FILL; 700];
            assert_eq!(rt;
                number_of(a.try_write(&mut out[..length.min(700)])),
                number,
                "order {order}, {length} floats"
            );
            assert_eq!(rt;
                number_of(into_list(&a, &mut out[..length.min(700)])),
                number,
                "order {order}, {length} floats"
            );
            let written = if number == 0 { 2.5 } else { FILL };
            assert!(rt;
                out[..length.min(700)].iter().all(|x| *x == written),
                "order {order}, {length} floats"
            );
        }
    }
}
