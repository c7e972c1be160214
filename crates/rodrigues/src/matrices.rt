// The matrices of Rodrigues' rotation, derived by the axis' components.
ghost use Rattle.std.specs.Prelude.{◌≡◌};
ghost use Rattle.rodrigues.specs.Rodrigues.{nine, rodrigues as rodrigues_by, by_x, by_y, by_z, symmetric as symmetric_of};
ghost use Rattle.rodrigues.specs.Rotation.{floats, three_of, matrix_of, by_axis};

use ieee_vectors::{Matrix3, Vector3};

// c·I + s·[axis]× + k·axis axisᵀ.
#[derive(Clone, Copy)]
pub struct Formula {
    pub axis: Vector3,
    pub s: f64,
    pub c: f64,
    pub k: f64,
}

// By columns.
fn matrix(a: f64, b: f64, c: f64, d: f64, e: f64, f: f64, g: f64, h: f64, i: f64) -> Matrix3
    ensures { result ≡ matrix_of (nine a b c d e f g h i) }
{
    Matrix3 {
        c0: Vector3 { x: a, y: b, z: c },
        c1: Vector3 { x: d, y: e, z: f },
        c2: Vector3 { x: g, y: h, z: i },
    }
}

// A symmetric matrix.
pub fn symmetric(xx: f64, xy: f64, xz: f64, yy: f64, yz: f64, zz: f64) -> Matrix3
    ensures { result ≡ matrix_of (symmetric_of xx xy xz yy yz zz) }
{
    matrix(xx, xy, xz, xy, yy, yz, xz, yz, zz)
}

impl Formula {
    fn matrix(self) -> Matrix3
        ensures { result ≡ matrix_of (rodrigues_by floats (three_of self.axis) self.s self.c self.k) }
    {
        let Formula { axis, s, c, k } = self;
        matrix(
            k * axis.x * axis.x + c,
            k * axis.x * axis.y + s * axis.z,
            k * axis.x * axis.z - s * axis.y,
            k * axis.x * axis.y - s * axis.z,
            k * axis.y * axis.y + c,
            k * axis.y * axis.z + s * axis.x,
            k * axis.x * axis.z + s * axis.y,
            k * axis.y * axis.z - s * axis.x,
            k * axis.z * axis.z + c,
        )
    }

    // Derived by one component of the axis.
    fn by_x(self) -> Matrix3
        ensures { result ≡ matrix_of (by_x floats (three_of self.axis) self.s self.k) }
    {
        let Formula { axis, s, k, .. } = self;
        matrix(
            2.0 * axis.x * k,
            axis.y * k,
            axis.z * k,
            axis.y * k,
            0.0,
            s,
            axis.z * k,
            -s,
            0.0,
        )
    }

    fn by_y(self) -> Matrix3
        ensures { result ≡ matrix_of (by_y floats (three_of self.axis) self.s self.k) }
    {
        let Formula { axis, s, k, .. } = self;
        matrix(
            0.0,
            axis.x * k,
            -s,
            axis.x * k,
            2.0 * axis.y * k,
            axis.z * k,
            s,
            axis.z * k,
            0.0,
        )
    }

    fn by_z(self) -> Matrix3
        ensures { result ≡ matrix_of (by_z floats (three_of self.axis) self.s self.k) }
    {
        let Formula { axis, s, k, .. } = self;
        matrix(
            0.0,
            s,
            axis.x * k,
            -s,
            0.0,
            axis.y * k,
            axis.x * k,
            axis.y * k,
            2.0 * axis.z * k,
        )
    }

    // x, y and z times by the axis' components.
    pub fn by_axis(self, x: usize, y: usize, z: usize) -> Matrix3
        ensures { result ≡ by_axis x y z self.axis self.s self.c self.k }
    {
        let k = self.k;
        match (x, y, z) {
            (0, 0, 0) => self.matrix(),
            (1, 0, 0) => self.by_x(),
            (0, 1, 0) => self.by_y(),
            (0, 0, 1) => self.by_z(),
            (2, 0, 0) => symmetric(2.0 * k, 0.0, 0.0, 0.0, 0.0, 0.0),
            (0, 2, 0) => symmetric(0.0, 0.0, 0.0, 2.0 * k, 0.0, 0.0),
            (0, 0, 2) => symmetric(0.0, 0.0, 0.0, 0.0, 0.0, 2.0 * k),
            (0, 1, 1) => symmetric(0.0, 0.0, 0.0, 0.0, k, 0.0),
            (1, 0, 1) => symmetric(0.0, 0.0, k, 0.0, 0.0, 0.0),
            (1, 1, 0) => symmetric(0.0, k, 0.0, 0.0, 0.0, 0.0),
            _ => crate::zero(),
        }
    }
}
