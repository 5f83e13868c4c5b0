// The quadratic fit about a cell of the difference stack: the samples that it reads, its derivatives, and how far its extremum lies from the cell.
#![tactic(auto)]

ghost use Rattle.std.specs.Prelude.{◌≡◌, length};
ghost use Rattle.detect_fit.specs.Fit.{patch_of, gradient_of, bend_of, mul_sub, outer, det_of, offset_of};
ghost use Rattle.detect_fit.specs.Place.{Amid, Around, near_of};

use picture::Shape;

// A cell and its four nearest in its plane: left, right, up and down.
#[derive(Clone, Copy)]
pub struct Near {
    pub m: f32,
    pub l: f32,
    pub r: f32,
    pub u: f32,
    pub d: f32,
}

// The nineteen samples that the fit reads: the middle plane's nine, and five of the plane before and of the plane after.
#[derive(Clone, Copy)]
pub struct Patch {
    pub im: f32,
    pub il: f32,
    pub ir: f32,
    pub iu: f32,
    pub id: f32,
    pub iul: f32,
    pub iur: f32,
    pub idl: f32,
    pub idr: f32,
    pub pm: f32,
    pub pl: f32,
    pub pr: f32,
    pub pu: f32,
    pub pd: f32,
    pub nm: f32,
    pub nl: f32,
    pub nr: f32,
    pub nu: f32,
    pub nd: f32,
}

// The first derivatives along columns, rows and planes.
#[derive(Clone, Copy)]
pub struct Gradient {
    pub dx: f32,
    pub dy: f32,
    pub ds: f32,
}

// The second derivatives.
#[derive(Clone, Copy)]
pub struct Bend {
    pub xx: f32,
    pub yy: f32,
    pub ss: f32,
    pub xy: f32,
    pub xs: f32,
    pub ys: f32,
}

// How far the extremum of the fit lies from the cell, in planes, rows and columns.
#[derive(Clone, Copy)]
pub struct Offset {
    pub xi: f32,
    pub xr: f32,
    pub xc: f32,
}

// The f32 nearest to 1 / 255, and half of it and a quarter of it, which are exact.
pub const IMG_SCALE: f32 = 0.003921568859368563;

const DERIV: f32 = 0.001960784429684281;

const CROSS: f32 = 0.0009803922148421407;

// The sample at (p, r, c) and its four nearest in the plane.
#[tactic(auto, unfolding(crate::specs::Place::near_of))]
pub fn near_at(dog: &[f32], t: Shape, p: usize, r: usize, c: usize) -> Near
    requires { Amid (length dog.now) t p r c }
    ensures { result ≡ near_of dog.now t p r c }
{
    Near {
        m: picture::at(dog, t, p, r, c),
        l: picture::at(dog, t, p, r, c - 1),
        r: picture::at(dog, t, p, r, c + 1),
        u: picture::at(dog, t, p, r - 1, c),
        d: picture::at(dog, t, p, r + 1, c),
    }
}

// The samples about (p, r, c).
#[tactic(auto, unfolding(crate::specs::Fit::patch_of, crate::specs::Place::near_of))]
pub fn patch_at(dog: &[f32], t: Shape, p: usize, r: usize, c: usize) -> Patch
    requires { Around (length dog.now) t p r c }
    ensures { result ≡ patch_of dog.now t p r c }
{
    let i = near_at(dog, t, p, r, c);
    let b = near_at(dog, t, p - 1, r, c);
    let n = near_at(dog, t, p + 1, r, c);
    Patch {
        im: i.m,
        il: i.l,
        ir: i.r,
        iu: i.u,
        id: i.d,
        iul: picture::at(dog, t, p, r - 1, c - 1),
        iur: picture::at(dog, t, p, r - 1, c + 1),
        idl: picture::at(dog, t, p, r + 1, c - 1),
        idr: picture::at(dog, t, p, r + 1, c + 1),
        pm: b.m,
        pl: b.l,
        pr: b.r,
        pu: b.u,
        pd: b.d,
        nm: n.m,
        nl: n.l,
        nr: n.r,
        nu: n.u,
        nd: n.d,
    }
}

#[tactic(auto, unfolding(crate::specs::Fit::gradient_of))]
pub fn gradient_of(patch: Patch) -> Gradient
    ensures { result ≡ gradient_of patch }
{
    Gradient {
        dx: (patch.ir - patch.il) * DERIV,
        dy: (patch.id - patch.iu) * DERIV,
        ds: (patch.nm - patch.pm) * DERIV,
    }
}

#[tactic(auto, unfolding(crate::specs::Fit::bend_of))]
pub fn bend_of(patch: Patch) -> Bend
    ensures { result ≡ bend_of patch }
{
    let v2 = patch.im * 2.0;
    Bend {
        xx: (patch.ir + patch.il - v2) * IMG_SCALE,
        yy: (patch.id + patch.iu - v2) * IMG_SCALE,
        ss: (patch.nm + patch.pm - v2) * IMG_SCALE,
        xy: (patch.idr - patch.idl - patch.iur + patch.iul) * CROSS,
        xs: (patch.nr - patch.nl - patch.pr + patch.pl) * CROSS,
        ys: (patch.nd - patch.nu - patch.pd + patch.pu) * CROSS,
    }
}

// a * b - c * d: the second product is rounded, the first fused.
#[tactic(auto, unfolding(crate::specs::Fit::mul_sub))]
pub fn mul_sub(a: f32, b: f32, c: f32, d: f32) -> f32
    ensures { result ≡ mul_sub a b c d }
{
    ieee_fused::mul_add(a, b, -(c * d))
}

// p0 * p1 - q0 * q1 + r0 * r1, two fused operations from left to right.
#[tactic(auto, unfolding(crate::specs::Fit::outer))]
fn outer3(p0: f32, p1: f32, q0: f32, q1: f32, r0: f32, r1: f32) -> f32
    ensures { result ≡ outer p0 p1 q0 q1 r0 r1 }
{
    ieee_fused::mul_add(r0, r1, ieee_fused::mul_add(p0, p1, -(q0 * q1)))
}

#[tactic(auto, unfolding(crate::specs::Fit::det_of))]
pub fn det_of(h: Bend) -> f32
    ensures { result ≡ det_of h }
{
    let m0 = mul_sub(h.yy, h.ss, h.ys, h.ys);
    let m1 = mul_sub(h.xy, h.ss, h.xs, h.ys);
    let m2 = mul_sub(h.xy, h.ys, h.xs, h.yy);
    outer3(h.xx, m0, h.xy, m1, h.xs, m2)
}

// The offset, where the determinant is det. The last cofactor is the negation of the first one's, as in the source.
#[tactic(auto, unfolding(crate::specs::Fit::offset_of))]
pub fn offset_of(g: Gradient, h: Bend, det: f32) -> Offset
    ensures { result ≡ offset_of g h det }
{
    let d = 1.0 / det;
    let a = mul_sub(g.dy, h.ss, h.ys, g.ds);
    let b = mul_sub(g.dy, h.ys, h.yy, g.ds);
    let e = mul_sub(h.xy, g.ds, g.dy, h.xs);
    let x0 = d * outer3(g.dx, mul_sub(h.yy, h.ss, h.ys, h.ys), h.xy, a, h.xs, b);
    let x1 = d * outer3(h.xx, a, g.dx, mul_sub(h.xy, h.ss, h.ys, h.xs), h.xs, e);
    let x2 = d * outer3(h.xx, -b, h.xy, e, g.dx, mul_sub(h.xy, h.ys, h.yy, h.xs));
    Offset {
        xi: -x2,
        xr: -x1,
        xc: -x0,
    }
}
