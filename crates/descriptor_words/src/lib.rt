// The patch about a position, and its 128 values as words.
#![tactic(auto)]

ghost use Rattle.std.specs.Prelude.{◌≡◌, map, length};
ghost use Rattle.ieee.specs.F32.{bits_of};
ghost use Rattle.params.specs.Limits.{value_count};
ghost use Rattle.descriptor_run.specs.Cells.{samples_of};
ghost use Rattle.descriptor_patch.specs.Place.{Lies};
ghost use Rattle.descriptor_words.specs.Words.{turn_at, words_at};
ghost use Rattle.descriptor_words.specs.Accepted.{Aimed, Ready};

use descriptor_patch::Patch;
use picture::{Size, Spot};

// How the patch lies.
pub fn turn_at(s: Size, p: Spot) -> Patch
    requires { Aimed s p }
    ensures { (result ≡ turn_at s p) × Lies result }
{
    let px = ieee_whole::round_to_i32(p.x).max(0) as usize;
    let py = ieee_whole::round_to_i32(p.y).max(0) as usize;
    descriptor_patch::patch_of(s, px, py, p.scale, p.angle)
}

// The bits of all of v, to a list as long.
fn put(v: &[f32; 128], out: &mut [u32])
    requires { (length v.now ≡ value_count) × (length out.old ≡ value_count) }
    ensures { out.new ≡ map bits_of v.now }
{
    for n in 0..128 {
        out[n] = ieee::bits_of(v[n]);
    }
}

// The values of the patch by their bits, and the number of its samples.
pub fn fill(img: &[f32], s: Size, p: Spot, out: &mut [u32]) -> usize
    requires { Ready img.now s p × (length out.old ≡ value_count) }
    ensures value { result ≡ length (samples_of img.now (turn_at s p)) }
    ensures out_after { out.new ≡ words_at img.now s p }
{
    let mut hist = [0.0; 360];
    let t = turn_at(s, p);
    let used = descriptor_gather::gather(img, t, &mut hist);
    let v = descriptor_values::values(&hist);
    put(&v, out);
    used
}
