// The descriptor: 128 values from the gradients of a turned patch, and how many samples they were made of.
#![tactic(auto)]

ghost use Rattle.std.specs.Prelude.{◌≡◌, ℕ, length, OnOk};
ghost use Rattle.params.specs.Limits.{value_count};
ghost use Rattle.params.specs.Answers.{fault_told};
ghost use Rattle.descriptor_words.specs.Accepted.{Ready};
ghost use Rattle.descriptor.specs.Place.{on_side, spot_wrong, turn_wrong};
ghost use Rattle.descriptor.specs.Entry.{number_of, count_of, used_of, fault_of, described_of, described_out, described_told};

use params::Refusal;
use picture::{Size, Spot};

// How many values a descriptor has.
const VALUES: usize = 128;

// ---- number 5 (rule A11)

// Whether z is a cell of a side of n.
fn on_side(n: usize, z: i32) -> bool
    ensures { result ≡ on_side n z }
{
    usize::try_from(z).is_ok_and(|cell| cell < n)
}

// The position is not finite, or its cell lies outside the picture.
fn spot_wrong(s: Size, p: Spot) -> bool
    ensures { result ≡ spot_wrong s p }
{
    !(ieee::is_finite(p.x)
        & (ieee::is_finite(p.y)
            & (on_side(s.width, ieee_whole::round_to_i32(p.x))
                & on_side(s.height, ieee_whole::round_to_i32(p.y)))))
}

// The scale is outside 0.125 to 64, or the angle outside 0 to 360.
fn turn_wrong(p: Spot) -> bool
    ensures { result ≡ turn_wrong p }
{
    !(((0.125 <= p.scale) & (p.scale <= 64.0)) & ((0.0 <= p.angle) & (p.angle <= 360.0)))
}

// The first fault in the order of the table, but for room, which is tested later.
fn fault(img: &[f32], s: Size, p: Spot) -> Result<(), Refusal>
    ensures value { fault_told result ≡ fault_of img.now s p }
    ensures ready { OnOk result (Ready img.now s p) }
{
    if params::shape_wrong(s.width, s.height) {
        return Err(Refusal::Shape);
    }
    if img.len() != s.height * s.width {
        return Err(Refusal::Length);
    }
    if spot_wrong(s, p) | turn_wrong(p) {
        return Err(Refusal::Fields);
    }
    if descriptor_reads::patch_good(img, descriptor_words::turn_at(s, p)) {
        Ok(())
    } else {
        Err(Refusal::Samples)
    }
}

// ---- the descriptor

// The 128 values of the patch about a position, each by its bits, and the number of its samples. The values are lent as words and not as floats: a lent word is all its
// bits, so that a refusal leaves even the payload of a not-a-number as it stood.
pub fn compute_descriptor(img: &[f32], s: Size, p: Spot, out: &mut [u32]) -> Result<usize, Refusal>
    ensures value { described_told result ≡ described_of img.now s p (length out.old) }
    ensures room { (n : ℕ) → result ≡ Err (Refusal.Room n) → n ≡ value_count }
    ensures out_after { out.new ≡ described_out img.now s p out.old }
{
    fault(img, s, p)?;
    if out.len() != VALUES {
        return Err(Refusal::Room(VALUES));
    }
    Ok(descriptor_words::fill(img, s, p, out))
}

// ---- what an answer says

// The number of an answer (rule A2).
pub fn number_of(a: Result<usize, Refusal>) -> u32
    ensures { result ≡ number_of (described_told a) }
{
    params::number_of(a)
}

// The count beside it (rule A17).
pub fn count_of(a: Result<usize, Refusal>) -> usize
    ensures { result ≡ count_of (described_told a) }
{
    match a {
        Ok(_) => VALUES,
        Err(Refusal::Room(_)) => VALUES,
        Err(_) => 0,
    }
}

// The samples that the values were made of (rule P18).
pub fn used_of(a: Result<usize, Refusal>) -> usize
    ensures { result ≡ used_of (described_told a) }
{
    a.unwrap_or(0)
}
