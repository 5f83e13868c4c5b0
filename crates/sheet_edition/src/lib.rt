// An edition of the sheet as the code goes by it: one value, chosen by the edition's number, from which every width and every size is taken.
#![tactic(auto)]

ghost use Rattle.std.specs.Prelude.{◌≡◌, ◌+◌, ◌-◌, ◌*◌, ◌^◌};
ghost use Rattle.sheet.specs.Layout.{layout_of, mark_bits, record_size};
ghost use Rattle.sheet.specs.Words.{taken_words};

use sheet::{PLAIN_WORDS, READ_WORDS};

#[derive(Clone, Copy)]
pub struct Edition {
    // what the header starts with
    pub number: u64,
    // what width and height go up to: the power of two that the bits of a side make
    pub sides: u64,
    // the power of two that the rule bit of the header and the blank bit of a record make, 1 where there are none
    pub marks: u64,
    // that of a record's zero bits; the header has four more
    pub spare: u64,
    // the words of a record as the writer takes them, and its bytes
    pub words: usize,
    pub bytes: usize,
    // all are those of an edition's layout
    pub ghost number_is: { number ≡ (layout_of number).edition },
    pub ghost sides_are: { sides ≡ 2 ^ (layout_of number).side },
    pub ghost marks_are: { marks ≡ 2 ^ mark_bits (layout_of number) },
    pub ghost spare_is: { spare ≡ 2 ^ (32 - (2 * (layout_of number).side + mark_bits (layout_of number))) },
    pub ghost words_are: { words ≡ taken_words (layout_of number) },
    pub ghost bytes_are: { bytes ≡ record_size (layout_of number) },
}

// The edition of a number; edition 1 where the number is no edition's.
#[tactic(auto, unfolding(sheet::specs::Layout::layout_of))]
pub fn edition_of(number: u64) -> Edition
    ensures { result.number ≡ (layout_of number).edition }
{
    if number == 2 {
        return Edition {
            number: 2,
            sides: 8192,
            marks: 2,
            spare: 32,
            words: READ_WORDS,
            bytes: 154,
        };
    }
    Edition {
        number: 1,
        sides: 8192,
        marks: 1,
        spare: 64,
        words: PLAIN_WORDS,
        bytes: 154,
    }
}
