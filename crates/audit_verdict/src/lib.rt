// The verdict on a sheet: what the checker answers, how a header differs, and how far the records agree when all records are made.
#![tactic(auto)]

ghost use Rattle.std.specs.Prelude.{◌≡◌, true, ◌≤◌, IfSome};
ghost use Rattle.sheet.specs.Pack.{sound};
ghost use Rattle.sheet.specs.Layout.{header_slots, header_values};
ghost use Rattle.sheet.specs.Writes.{frame_of};
ghost use Rattle.sheet_edition.specs.Edition.{layout_for};
ghost use Rattle.sheet_fields.specs.Fields.{header_list};
ghost use Rattle.audit_compare.specs.Difference.{first_difference};
ghost use Rattle.audit_compare.specs.Numbered.{IsField};
ghost use Rattle.audit_compare.specs.Standing.{number_or_none, standing_in};
ghost use Rattle.audit_verdict.specs.Verdict.{verdict_told, verdict_of, place_of, field_of};
ghost use Rattle.audit_verdict.specs.Told.{told_by};

use audit_compare::{Agreement, Difference, Stopped};
use params::Refusal;
use picture::Size;
use sheet_edition::Edition;
use sheet_fields::Header;

// What the checker answers where nothing is refused: the sheet is the rules' own; the header differs in a field; a record differs in a field; records are missing from one on; or are
// left over from one on.
#[derive(Clone, Copy, Debug, PartialEq, Eq)]
pub enum Verdict {
    Accepted,
    Header(u32),
    Differs(usize, u32),
    Missing(usize),
    LeftOver(usize),
}

// The field in which a header that keeps the rules differs from that of a frame: only width, height and layers can.
pub fn header_difference(e: Edition, h: Header, base: Size, layers: usize) -> Option<u32>
    requires known { sound (header_slots (layout_for e)) (header_list h) ≡ true }
    requires le_width { (1 ≤ base.width) × (1 ≤ base.height) }
    ensures is_field { IfSome result IsField }
    ensures value { number_or_none result ≡ first_difference (header_values (layout_for e) (frame_of base.width base.height layers) h.count) (header_list h) }
{
    let wide = base.width as u64 - 1;
    let high = base.height as u64 - 1;
    if wide != h.width {
        return Some(2);
    }
    if high != h.height {
        return Some(3);
    }
    if layers as u64 != h.layers {
        return Some(4);
    }
    None
}

// What the agreement tells when all records are made, of a sheet of n records; whether a stage has refused is not asked here.
pub fn told(n: usize, st: Result<Agreement, Stopped>) -> Verdict
    ensures { verdict_told (Ok result) ≡ told_by n (standing_in st) }
{
    let a = audit_compare::agreement_of(st);
    match a.difference {
        Some(Difference::Field(field)) => Verdict::Differs(a.place, field),
        Some(Difference::Missing) => Verdict::Missing(a.place),
        None if a.place < n => Verdict::LeftOver(a.place),
        None => Verdict::Accepted,
    }
}

// ---- an answer in numbers

pub fn verdict_of(answer: Result<Verdict, Refusal>) -> u32
    ensures { result ≡ verdict_of (verdict_told answer) }
{
    match answer {
        Err(_) | Ok(Verdict::Accepted) => 0,
        Ok(Verdict::Header(_)) => 1,
        Ok(Verdict::Differs(_, _)) => 2,
        Ok(Verdict::Missing(_)) => 3,
        Ok(Verdict::LeftOver(_)) => 4,
    }
}

pub fn place_of(answer: Result<Verdict, Refusal>) -> usize
    ensures { result ≡ place_of (verdict_told answer) }
{
    match answer {
        Err(_) | Ok(Verdict::Accepted | Verdict::Header(_)) => 0,
        Ok(Verdict::Differs(i, _) | Verdict::Missing(i) | Verdict::LeftOver(i)) => i,
    }
}

pub fn field_of(answer: Result<Verdict, Refusal>) -> u32
    ensures { result ≡ field_of (verdict_told answer) }
{
    match answer {
        Ok(Verdict::Header(f) | Verdict::Differs(_, f)) => f,
        _ => 0,
    }
}
