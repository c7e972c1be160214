// Vectors and matrices of floats by value, each operation rounded in document 01's order ("Vectors"), on any bits: a NaN or an infinity passes
// through. The crate `vectors` has the operations that refuse; a quotient or an inverse that does not is called so.
#![tactic(auto)]

ghost use Rattle.std.specs.Prelude.{◌≡◌, Bool};
ghost use Rattle.std.specs.Float.Ieee.Scale.{finite};
ghost use Rattle.ieee_vectors.specs.Vectors.{sum, difference, negative, multiple, quotient, dot, dot2, cross, magnitude};
ghost use Rattle.ieee_vectors.specs.Matrices.{determinant2, inverse2, negative2, image2, transposed, determinant3, inverse3, image3, sum3, multiple3};
ghost use Rattle.ieee_vectors.specs.Finite.{finite_vector2, finite_vector, finite_matrix2, finite_matrix3};

#[derive(Clone, Copy)]
pub struct Vector2 {
    pub x: f64,
    pub y: f64,
}

#[derive(Clone, Copy)]
pub struct Vector3 {
    pub x: f64,
    pub y: f64,
    pub z: f64,
}

// (a b; c d)
#[derive(Clone, Copy)]
pub struct Matrix2 {
    pub a: f64,
    pub b: f64,
    pub c: f64,
    pub d: f64,
}

// By its columns.
#[derive(Clone, Copy)]
pub struct Matrix3 {
    pub c0: Vector3,
    pub c1: Vector3,
    pub c2: Vector3,
}

// A float, or what is made of floats, that can be tested: whether all of it is finite.
pub trait Finite: Copy {
    ghost finite: { Self → Bool };

    fn is_finite(self) -> bool
        ensures { result ≡ finite self };
}

impl Finite for f64 {
    ghost finite = { finite };

    fn is_finite(self) -> bool {
        ieee::is_finite(self)
    }
}

impl Finite for Vector2 {
    ghost finite = { finite_vector2 };

    fn is_finite(self) -> bool {
        ieee::is_finite(self.x) && ieee::is_finite(self.y)
    }
}

impl Finite for Vector3 {
    ghost finite = { finite_vector };

    fn is_finite(self) -> bool {
        ieee::is_finite(self.x) && ieee::is_finite(self.y) && ieee::is_finite(self.z)
    }
}

impl Finite for Matrix2 {
    ghost finite = { finite_matrix2 };

    fn is_finite(self) -> bool {
        ieee::is_finite(self.a)
            && ieee::is_finite(self.b)
            && ieee::is_finite(self.c)
            && ieee::is_finite(self.d)
    }
}

impl Finite for Matrix3 {
    ghost finite = { finite_matrix3 };

    fn is_finite(self) -> bool {
        self.c0.is_finite() && self.c1.is_finite() && self.c2.is_finite()
    }
}

impl Vector2 {
    pub fn dot(self, b: Vector2) -> f64
        ensures { result ≡ dot2 self b }
    {
        self.x * b.x + self.y * b.y
    }
}

impl Vector3 {
    pub fn add(self, b: Vector3) -> Vector3
        ensures { result ≡ sum self b }
    {
        Vector3 {
            x: self.x + b.x,
            y: self.y + b.y,
            z: self.z + b.z,
        }
    }

    pub fn sub(self, b: Vector3) -> Vector3
        ensures { result ≡ difference self b }
    {
        Vector3 {
            x: self.x - b.x,
            y: self.y - b.y,
            z: self.z - b.z,
        }
    }

    pub fn neg(self) -> Vector3
        ensures { result ≡ negative self }
    {
        Vector3 {
            x: -self.x,
            y: -self.y,
            z: -self.z,
        }
    }

    pub fn mul(self, s: f64) -> Vector3
        ensures { result ≡ multiple self s }
    {
        Vector3 {
            x: self.x * s,
            y: self.y * s,
            z: self.z * s,
        }
    }

    pub fn unchecked_div(self, s: f64) -> Vector3
        ensures { result ≡ quotient self s }
    {
        Vector3 {
            x: self.x / s,
            y: self.y / s,
            z: self.z / s,
        }
    }

    pub fn dot(self, b: Vector3) -> f64
        ensures { result ≡ dot self b }
    {
        self.x * b.x + self.y * b.y + self.z * b.z
    }

    pub fn cross(self, b: Vector3) -> Vector3
        ensures { result ≡ cross self b }
    {
        Vector3 {
            x: self.y * b.z - self.z * b.y,
            y: self.z * b.x - self.x * b.z,
            z: self.x * b.y - self.y * b.x,
        }
    }

    pub fn magnitude(self) -> f64
        ensures { result ≡ magnitude self }
    {
        ieee::unchecked_sqrt(self.dot(self))
    }
}

impl Matrix2 {
    pub fn determinant(self) -> f64
        ensures { result ≡ determinant2 self }
    {
        self.a * self.d - self.b * self.c
    }

    pub fn unchecked_inverse(self) -> Matrix2
        ensures { result ≡ inverse2 self }
    {
        let e = self.determinant();
        Matrix2 {
            a: self.d / e,
            b: -self.b / e,
            c: -self.c / e,
            d: self.a / e,
        }
    }

    pub fn neg(self) -> Matrix2
        ensures { result ≡ negative2 self }
    {
        Matrix2 {
            a: -self.a,
            b: -self.b,
            c: -self.c,
            d: -self.d,
        }
    }

    pub fn image(self, v: Vector2) -> Vector2
        ensures { result ≡ image2 self v }
    {
        Vector2 {
            x: self.a * v.x + self.b * v.y,
            y: self.c * v.x + self.d * v.y,
        }
    }
}

impl Matrix3 {
    pub fn transpose(self) -> Matrix3
        ensures { result ≡ transposed self }
    {
        let a = self.c0;
        let b = self.c1;
        let c = self.c2;
        Matrix3 {
            c0: Vector3 {
                x: a.x,
                y: b.x,
                z: c.x,
            },
            c1: Vector3 {
                x: a.y,
                y: b.y,
                z: c.y,
            },
            c2: Vector3 {
                x: a.z,
                y: b.z,
                z: c.z,
            },
        }
    }

    pub fn determinant(self) -> f64
        ensures { result ≡ determinant3 self }
    {
        let a = self.c0;
        let b = self.c1;
        let c = self.c2;
        a.dot(b.cross(c))
    }

    pub fn unchecked_inverse(self) -> Matrix3
        ensures { result ≡ inverse3 self }
    {
        let a = self.c0;
        let b = self.c1;
        let c = self.c2;
        let e = self.determinant();
        let rows = Matrix3 {
            c0: b.cross(c).unchecked_div(e),
            c1: c.cross(a).unchecked_div(e),
            c2: a.cross(b).unchecked_div(e),
        };
        rows.transpose()
    }

    pub fn image(self, v: Vector3) -> Vector3
        ensures { result ≡ image3 self v }
    {
        let rows = self.transpose();
        let a = rows.c0;
        let b = rows.c1;
        let c = rows.c2;
        Vector3 {
            x: a.dot(v),
            y: b.dot(v),
            z: c.dot(v),
        }
    }

    pub fn add(self, n: Matrix3) -> Matrix3
        ensures { result ≡ sum3 self n }
    {
        let a = self.c0;
        let b = self.c1;
        let c = self.c2;
        Matrix3 {
            c0: a.add(n.c0),
            c1: b.add(n.c1),
            c2: c.add(n.c2),
        }
    }

    pub fn mul(self, s: f64) -> Matrix3
        ensures { result ≡ multiple3 self s }
    {
        let a = self.c0;
        let b = self.c1;
        let c = self.c2;
        Matrix3 {
            c0: a.mul(s),
            c1: b.mul(s),
            c2: c.mul(s),
        }
    }
}
