// The records of a keypoint, made and compared with a sheet's one after the other: none is held.
#![tactic(auto)]

ghost use Rattle.std.specs.Prelude.{◌≡◌, cond, ◌*◌, ◌≤◌, IfOk, eqb, length};
ghost use Rattle.orient_words.specs.Oriented.{oriented_words};
ghost use Rattle.words.specs.Keypoint.{keypoint_in};
ghost use Rattle.words.specs.Oriented.{oriented_in};
ghost use Rattle.record.specs.Record.{record_of};
ghost use Rattle.record.specs.Make.{make_number};
ghost use Rattle.sheet.specs.Sheet.{parts};
ghost use Rattle.sheet.specs.Words.{read_words};
ghost use Rattle.audit_compare.specs.Standing.{refused, standing_of, standing_in, standing_told, compared};
ghost use Rattle.audit_keypoint.specs.Steps.{size_for, given_of, direction_step, direction_steps, turn_step, keypoint_step};
ghost use Rattle.audit_keypoint.specs.Ready.{Stated, Pictured};

use audit_compare::{Agreement, Stopped};
use picture::{Shape, Size};
use sheet::{READ_WORDS, VALUES};
use sheet_edition::Edition;

// What the records of an octave are compared with: the shape of its difference planes, its number, and the edition and the records of the sheet.
#[derive(Clone, Copy)]
pub struct Task {
    pub shape: Shape,
    pub octave: u32,
    pub edition: Edition,
    pub count: usize,
}

// The size of an octave's pictures.
fn size_of(t: Shape) -> Size
    ensures { result ≡ size_for t }
{
    Size {
        width: t.width,
        height: t.height,
    }
}

// After the record of a keypoint, its direction and its values, the samples beside them.
fn add_made(
    body: &[u8],
    k: Task,
    keypoint: &[u32],
    oriented: &[u32],
    values: &[u32],
    samples: usize,
    a: Agreement,
) -> Result<Agreement, Stopped>
    requires { Stated (length body.now) k }
    ensures { standing_in result ≡ cond (eqb (make_number (keypoint_in keypoint.now) (oriented_in oriented.now) values.now samples read_words) 0)
        (compared (given_of body.now k).layout (given_of body.now k).stated (standing_of a) (record_of (keypoint_in keypoint.now) (oriented_in oriented.now) values.now samples))
        refused }
{
    let mut made = [0u32; READ_WORDS];
    record::make_record(keypoint, oriented, values, samples, &mut made)?;
    audit_compare::compared(k.edition, body, k.count, Ok(a), &made)
}

// After the record of a direction, on a picture of the octave.
fn add_direction(
    img: &[f32],
    body: &[u8],
    k: Task,
    keypoint: &[u32],
    oriented: &[u32],
    a: Agreement,
) -> Result<Agreement, Stopped>
    requires { Stated (length body.now) k }
    ensures { standing_in result ≡ direction_step (given_of body.now k) img.now keypoint.now (standing_of a) oriented.now }
{
    let spot = descriptor_inputs::descriptor_inputs(words::oriented_in(oriented), k.octave as i32)?;
    let mut values = [0u32; VALUES];
    let samples = descriptor::compute_descriptor(img, size_of(k.shape), spot, &mut values)?;
    add_made(body, k, keypoint, oriented, &values, samples, a)
}

// After the records of the first n directions, six words each.
fn add_directions(
    img: &[f32],
    body: &[u8],
    k: Task,
    keypoint: &[u32],
    oriented: &[u32],
    n: usize,
    a: Agreement,
) -> Result<Agreement, Stopped>
    requires stated { Stated (length body.now) k }
    requires n_in_bounds { oriented_words * n ≤ length oriented.now }
    ensures { standing_in result ≡ direction_steps (given_of body.now k) img.now keypoint.now (standing_of a) (parts oriented_words n oriented.now) }
{
    let mut now = a;
    // A plain index: the contract counts `parts` of the words, of which j is the next, and says nothing of those behind the n.
    for j in 0..n {
        let from = 6 * j;
        let to = from + 6;
        now = add_direction(img, body, k, keypoint, &oriented[from..to], now)?;
    }
    Ok(now)
}

// After those of a keypoint, on a picture of the octave.
fn add_turned(
    img: &[f32],
    body: &[u8],
    k: Task,
    keypoint: &[u32],
    a: Agreement,
) -> Result<Agreement, Stopped>
    requires { Stated (length body.now) k }
    ensures { standing_in result ≡ turn_step (given_of body.now k) img.now (standing_of a) keypoint.now }
{
    let mut out = [0u32; 108];
    let raw = words::keypoint_in(keypoint);
    let found = orient::assign_orientations(img, size_of(k.shape), raw, &mut out)?;
    add_directions(img, body, k, keypoint, &out, found.count, a)
}

// After those of a keypoint, by its words, and nothing more after a refusal: its picture is the Gaussian plane of the layer where it settled, which may be another than the one searched.
pub fn add_keypoint(
    gauss: &[f32],
    body: &[u8],
    k: Task,
    keypoint: &[u32],
    st: Result<Agreement, Stopped>,
) -> Result<Agreement, Stopped>
    requires stated { Stated (length body.now) k }
    requires pictured { Pictured (length gauss.now) k }
    ensures value { standing_in result ≡ keypoint_step gauss.now (given_of body.now k) (standing_in st) keypoint.now }
    ensures told { IfOk st (λ a. standing_told result ≡ keypoint_step gauss.now (given_of body.now k) (standing_of a) keypoint.now) }
{
    let a = st?;
    let layer = words::keypoint_in(keypoint).layer as usize;
    let t = k.shape;
    if layer > t.planes {
        return Err(audit_compare::stopped());
    }
    let size = t.height * t.width;
    let from = layer * size;
    let to = from + size;
    add_turned(&gauss[from..to], body, k, keypoint, a)
}

#[cfg(test)]
mod tests {
    use super::*;
    use audit_compare::Difference;
    use std::test::Fail;

    // One difference plane of one sample, and two Gaussian planes of one each; a sheet of no records.
    fn small() -> Task
        ensures stated { Stated 0 result }
        ensures pictured { Pictured 2 result }
    {
        Task {
            shape: Shape {
                width: 1,
                height: 1,
                planes: 1,
            },
            octave: 0,
            edition: sheet_edition::edition_of(1),
            count: 0,
        }
    }

    // A keypoint of layer 2, which has no picture among the two.
    const BEHIND_ALL: [u32; 10] = [0, 0, 0, 0, 0, 2, 0, 0, 0, 0];

    // Seven records agree, and one differs.
    fn seven() -> Agreement {
        Agreement {
            place: 7,
            difference: Some(Difference::Field(3)),
        }
    }

    #[test]
    fn refusal_keeps_nothing(rt: HostRuntime) -> Result<(), Fail> {
        let after = add_keypoint(&[0.0; 2], &[], small(), &BEHIND_ALL, Ok(seven()));
        assert_eq!(rt; after, Err(audit_compare::stopped()));
        Ok(())
    }

    #[test]
    fn refused_standing_stays(rt: HostRuntime) -> Result<(), Fail> {
        let refused = Err(Stopped { agreement: seven() });
        let after = add_keypoint(&[0.0; 2], &[], small(), &BEHIND_ALL, refused);
        assert_eq!(rt; after, refused);
        Ok(())
    }
}
