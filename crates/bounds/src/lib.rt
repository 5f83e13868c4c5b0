// Rust's `max`, `min` and `clamp` on floats, and the lesser and the greater by one selection.
// The library's own leave open which of two zeros comes back, and its `clamp` asks that lo <= hi.
#![tactic(auto)]

ghost use Rattle.std.specs.Prelude.{◌≡◌};
ghost use Rattle.bounds.specs.Bounds.{number_or, max_of, min_of, clamp_of, lesser_of, greater_of};

// The first of two, or the second where the first is a not-a-number.
fn number_or(a: f32, b: f32) -> f32
    ensures { result ≡ number_or a b }
{
    if a == a { a } else { b }
}

pub fn max(a: f32, b: f32) -> f32
    ensures { result ≡ max_of a b }
{
    if a <= b { b } else { number_or(a, b) }
}

pub fn min(a: f32, b: f32) -> f32
    ensures { result ≡ min_of a b }
{
    if b <= a { b } else { number_or(a, b) }
}

pub fn clamp(x: f32, lo: f32, hi: f32) -> f32
    ensures { result ≡ clamp_of x lo hi }
{
    if x < lo {
        lo
    } else if hi < x {
        hi
    } else {
        x
    }
}

// The lesser of two, and the greater: selections, with no branch that depends on a value.
pub fn lesser(a: f32, b: f32) -> f32
    ensures { result ≡ lesser_of a b }
{
    if a < b { a } else { b }
}

pub fn greater(a: f32, b: f32) -> f32
    ensures { result ≡ greater_of a b }
{
    if a < b { b } else { a }
}
