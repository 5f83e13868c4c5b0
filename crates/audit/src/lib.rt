// The checker of a sheet: whether its records are those that the rules give for an octave, and if not, where they first differ.
#![tactic(auto)]

ghost use Rattle.std.specs.Prelude.{◌≡◌, true, false, length};
ghost use Rattle.params.specs.Table.{all_good};
ghost use Rattle.params.specs.Answers.{fault_told};
ghost use Rattle.sheet.specs.Sheet.{bytes_right};
ghost use Rattle.sheet.specs.Reads.{layout_in};
ghost use Rattle.audit_rule.specs.Entry.{form_fault, check_answer};
ghost use Rattle.audit_rule.specs.Fine.{Fine};
ghost use Rattle.audit_verdict.specs.Verdict.{verdict_told};
ghost use Rattle.audit_rule.specs.Left.{answer_left};

use audit_keypoint::Task;
use audit_verdict::Verdict;
use params::{Refusal, Settings};
use picture::{Shape, Size};
use sheet::HEADER_BYTES;

// ---- the form

// The first check that fails of those before the samples.
fn form_fault(
    dogs: usize,
    gausses: usize,
    t: Shape,
    octave: u32,
    s: Settings,
    base: Size,
) -> Result<(), Refusal>
    ensures { fault_told result ≡ form_fault dogs gausses t octave s base }
{
    if params::shape_wrong(t.width, t.height) | params::shape_wrong(base.width, base.height) {
        return Err(Refusal::Shape);
    }
    if params::layers_wrong(t.planes, 1, s.layers) {
        return Err(Refusal::Layers);
    }
    if (dogs != t.planes * t.height * t.width)
        | (gausses != (t.planes + 1) * (t.height * t.width))
    {
        return Err(Refusal::Length);
    }
    if params::settings_wrong(s, octave) {
        return Err(Refusal::Settings);
    }
    Ok(())
}

// ---- the answer

// Of bytes that are no sheet. The records are made all the same: a Gaussian cell that is bad comes before.
fn of_no_sheet(
    dog: &[f32],
    gauss: &[f32],
    t: Shape,
    octave: u32,
    s: Settings,
    base: Size,
    sheet: &[u8],
) -> Result<Verdict, Refusal>
    requires fine { Fine (length dog.now) (length gauss.now) t octave s base }
    requires dog_value { (all_good dog.now ≡ true) × (bytes_right (layout_in sheet.now) sheet.now ≡ false) }
    ensures { verdict_told result ≡ answer_left dog.now gauss.now t octave s base sheet.now }
{
    let k = Task {
        shape: t,
        octave,
        edition: sheet_edition::edition_of(1),
        count: 0,
    };
    match audit_walk::walk(dog, gauss, sheet, k, s) {
        Ok(_) => Err(Refusal::Sheet),
        Err(_) => Err(Refusal::Samples),
    }
}

// Of a sheet that keeps the rules.
fn of_sheet(
    dog: &[f32],
    gauss: &[f32],
    t: Shape,
    octave: u32,
    s: Settings,
    base: Size,
    sheet: &[u8],
) -> Result<Verdict, Refusal>
    requires fine { Fine (length dog.now) (length gauss.now) t octave s base }
    requires dog_value { (all_good dog.now ≡ true) × (bytes_right (layout_in sheet.now) sheet.now ≡ true) }
    ensures { verdict_told result ≡ answer_left dog.now gauss.now t octave s base sheet.now }
{
    let e = sheet_fields::edition_in(sheet);
    let h = sheet_fields::header_in(e, sheet);
    let n = h.count as usize;
    let body = &sheet[HEADER_BYTES..];
    let k = Task {
        shape: t,
        octave,
        edition: e,
        count: n,
    };
    let Ok(agreement) = audit_walk::walk(dog, gauss, body, k, s) else {
        return Err(Refusal::Samples);
    };
    if !audit_compare::octaves_right(e, body, n, octave) {
        return Err(Refusal::Fields);
    }
    if let Some(field) = audit_verdict::header_difference(e, h, base, s.layers) {
        return Ok(Verdict::Header(field));
    }
    Ok(audit_verdict::told(n, Ok(agreement)))
}

// The checker: the difference planes and the Gaussian planes of an octave, of which there is one more, its number, the settings, the size of octave 0, and the bytes of a sheet.
pub fn check_sheet(
    dog: &[f32],
    gauss: &[f32],
    t: Shape,
    octave: u32,
    s: Settings,
    base: Size,
    sheet: &[u8],
) -> Result<Verdict, Refusal>
    ensures { verdict_told result ≡ check_answer dog.now gauss.now t octave s base sheet.now }
{
    form_fault(dog.len(), gauss.len(), t, octave, s, base)?;
    if !samples::all_good(dog) {
        return Err(Refusal::Samples);
    }
    if sheet_read::sheet_sound(sheet) {
        of_sheet(dog, gauss, t, octave, s, base, sheet)
    } else {
        of_no_sheet(dog, gauss, t, octave, s, base, sheet)
    }
}
