// A rotation of three numbers: the matrix of three angles, in two conventions, and its application,
// plain and transposed.
//
// `rotation_matrix` of helmert.rs of the crate geodesy 0.15.0, based on Karsten Engsager's
// implementation in set_dtm_1.c (trlib), in the Rust's own sequence of roundings and with its
// letters; the products with a matrix are those of its `helmert_common`. Proved equal to
// specs/Matrix.antt, rounding by rounding, for every number; how exact the sines and cosines are is
// the crate trig's to say. A crate of its own because steps other than Helmert turn by it too.
#![tactic(auto)]

ghost use Rattle.std.specs.Prelude.{◌≡◌};
ghost use Rattle.rotation.specs.Matrix.{sines_of, first_order_of, second_order_of, rows_of, rotation_matrix_of, rotate_of, rotate_back_of};

#[derive(Clone, Copy)]
pub struct Vec3 {
    pub x: f64,
    pub y: f64,
    pub z: f64,
}

// ----- rotation matrix builder ---------------------------------------------------------------

// The sines and cosines of the three angles, or what stands for them.
#[derive(Clone, Copy)]
pub struct Sines {
    pub sx: f64,
    pub cx: f64,
    pub sy: f64,
    pub cy: f64,
    pub sz: f64,
    pub cz: f64,
}

// The nine entries, by row and column of the coordinate frame's matrix.
#[derive(Clone, Copy)]
pub struct Entries {
    pub r11: f64,
    pub r12: f64,
    pub r13: f64,
    pub r21: f64,
    pub r22: f64,
    pub r23: f64,
    pub r31: f64,
    pub r32: f64,
    pub r33: f64,
}

fn exact_sines(r: Vec3) -> Sines
    ensures { result ≡ sines_of r }
{
    let x = trig::numbers(trig::sin_cos(r.x));
    let y = trig::numbers(trig::sin_cos(r.y));
    let z = trig::numbers(trig::sin_cos(r.z));
    Sines {
        sx: x.s,
        cx: x.c,
        sy: y.s,
        cy: y.c,
        sz: z.s,
        cz: z.c,
    }
}

// Leaves out the second order infinitesimals in the rotation matrix elements, as small-angle
// approximations do.
fn first_order(a: Sines) -> Entries
    ensures { result ≡ first_order_of a }
{
    Entries {
        r11: a.cy * a.cz,
        r12: a.cx * a.sz,
        r13: -a.cx * a.sy * a.cz,
        r21: -a.cy * a.sz,
        r22: a.cx * a.cz,
        r23: a.sx * a.cz,
        r31: a.sy,
        r32: -a.sx * a.cy,
        r33: a.cx * a.cy,
    }
}

// Applies the second order terms, for the exact case.
fn second_order(a: Sines) -> Entries
    ensures { result ≡ second_order_of a }
{
    let e = first_order(a);
    Entries {
        r11: e.r11,
        r12: e.r12 + a.sx * a.sy * a.cz,
        r13: e.r13 + a.sx * a.sz,
        r21: e.r21,
        r22: e.r22 - a.sx * a.sy * a.sz,
        r23: e.r23 + a.cx * a.sy * a.sz,
        r31: e.r31,
        r32: e.r32,
        r33: e.r33,
    }
}

fn rows(position_vector: bool, e: Entries) -> [[f64; 3]; 3]
    ensures { result ≡ rows_of position_vector e }
{
    if position_vector {
        return [
            [e.r11, e.r21, e.r31],
            [e.r12, e.r22, e.r32],
            [e.r13, e.r23, e.r33],
        ];
    }
    [
        [e.r11, e.r12, e.r13],
        [e.r21, e.r22, e.r23],
        [e.r31, e.r32, e.r33],
    ]
}

// The matrix of three exact angles whose sines and cosines are known.
pub fn exact_matrix(a: Sines, position_vector: bool) -> [[f64; 3]; 3]
    ensures { result ≡ rows_of position_vector (second_order_of a) }
{
    rows(position_vector, second_order(a))
}

// The matrix M of M·v, for a data sheet's three angles in radians.
//
// The small-angle matrices stand here as IOGP 373-7-2 prints them, so that a fitter can lay them
// beside the data sheet: rows X, Y, Z, and in each the factors of the x, y and z that come in.
// Position vector (EPSG method 1033): a positive angle turns the point about its axis,
// anticlockwise as seen from the axis's positive end towards the origin; rz > 0 moves a point on
// the X axis towards +Y. Coordinate frame (EPSG method 1032): a positive angle turns the axes that
// way and the point stands still, so its coordinates go the other way; rz > 0 moves a point on the
// X axis towards -Y. Each matrix is the other's transpose, and the other's for angles of the other
// sign. A minus is a negation and not 0 less the angle, which differs at a zero.
pub fn rotation_matrix(r: Vec3, exact: bool, position_vector: bool) -> [[f64; 3]; 3]
    ensures { result ≡ rotation_matrix_of r exact position_vector }
{
    if exact {
        return exact_matrix(exact_sines(r), position_vector);
    }
    if position_vector {
        return [
            [1.0, -r.z, r.y], // X
            [r.z, 1.0, -r.x], // Y
            [-r.y, r.x, 1.0], // Z
        ];
    }
    [
        [1.0, r.z, -r.y], // X
        [-r.z, 1.0, r.x], // Y
        [r.y, -r.x, 1.0], // Z
    ]
}

// ----- application -----------------------------------------------------------------------------

// M·v
pub fn rotate(m: [[f64; 3]; 3], v: Vec3) -> Vec3
    ensures { result ≡ rotate_of m v }
{
    Vec3 {
        x: v.x * m[0][0] + v.y * m[0][1] + v.z * m[0][2],
        y: v.x * m[1][0] + v.y * m[1][1] + v.z * m[1][2],
        z: v.x * m[2][0] + v.y * m[2][1] + v.z * m[2][2],
    }
}

// Inverse rotation by transposed multiplication.
pub fn rotate_back(m: [[f64; 3]; 3], v: Vec3) -> Vec3
    ensures { result ≡ rotate_back_of m v }
{
    Vec3 {
        x: v.x * m[0][0] + v.y * m[1][0] + v.z * m[2][0],
        y: v.x * m[0][1] + v.y * m[1][1] + v.z * m[2][1],
        z: v.x * m[0][2] + v.y * m[1][2] + v.z * m[2][2],
    }
}
