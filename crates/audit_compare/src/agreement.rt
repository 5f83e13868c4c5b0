// How a record and a sheet's differ, and how far all records agree.
#![tactic(auto)]

ghost use Rattle.audit_compare.specs.Numbered.{Numbered, numbered_prop};

use params::Refusal;

// How a record that the rules give differs from the sheet's at its place: in a field, the first of those that differ, by its number from 1; or the sheet has none there.
#[derive(Clone, Copy, Debug, PartialEq, Eq)]
pub enum Difference {
    Field(u32),
    Missing,
}

// How far the records made so far agree with those of a sheet: `place` of them, and then the first difference, if there is one.
#[derive(Clone, Copy, Debug, PartialEq, Eq)]
pub struct Agreement {
    pub place: usize,
    pub difference: Option<Difference>,
    pub ghost numbered: { Numbered difference } by { numbered_prop difference },
}

// A stage refused. Which number, the checker does not tell; and the agreement beside it counts for nothing.
#[derive(Clone, Copy, Debug, PartialEq, Eq)]
pub struct Stopped {
    pub agreement: Agreement,
}

impl From<Refusal> for Stopped {
    ghost use Rattle.std.specs.Prelude.{◌≡◌, Err};
    ghost use Rattle.audit_compare.specs.Standing.{refused, standing_in};

    ghost from_gives = { λ _ s. standing_in (Err s) ≡ refused };

    fn from(_refusal: Refusal) -> Stopped {
        crate::stopped()
    }
}
