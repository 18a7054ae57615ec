// The refusals: why a record, a message, a figure or a piece is not taken. Each has the number that C callers, reports and papers know it by.
#![tactic(auto)]

ghost use Rattle.std.specs.Prelude.{◌≡◌};
ghost use Rattle.refusals.specs.Refusals.{number_of};

#[derive(Clone, Copy, Debug, PartialEq, Eq, Hash)]
pub enum Refusal {
    // 1: a map, a ledger, a desk or a table that is not sound, or of another size
    Unsound,
    // 2: under 4 bytes, or the stated length is not the record's
    Frame,
    // 3: a kind that is not taken here
    Kind,
    // 4: a length that is wrong for the kind
    Length,
    // 5: no sheet yet, or a second one; of elements a second stock too
    Sheet,
    // 6: a year or a level's total out of range
    Range,
    // 7: number 0, or a code that is not listed
    Code,
    // 8: a number that is not open
    NotOpen,
    // 9: an ordinal or a count of steps that is not the next
    Ordinal,
    // 10: a time that breaks a rule
    Time,
    // 11: a count that exceeds its level's customers
    Count,
    // 12: a count on a level higher than the event's
    Level,
    // 13: nobody off at first, and then somebody
    NoneThenSome,
    // 14: a number that is used already
    Used,
    // 15: no room for one more event, or outage of an element
    Full,
    // 16: no slot of the desk is free
    DeskFull,
    // 17: a figure that divides by nobody, or by nothing
    Nobody,
    // 18: more digits than 6
    Digits,
    // 24: an observation period that is not 1 to 50 years
    Period,
    // 252: a reading in pieces with more refused records than any file has
    ManyRefused,
    // 253: a piece that is told longer than its buffer
    MoreTold,
}

impl From<Refusal> for u8 {
    ghost from_gives = { λ refusal n. n ≡ number_of refusal };

    fn from(refusal: Refusal) -> u8 {
        match refusal {
            Refusal::Unsound => 1,
            Refusal::Frame => 2,
            Refusal::Kind => 3,
            Refusal::Length => 4,
            Refusal::Sheet => 5,
            Refusal::Range => 6,
            Refusal::Code => 7,
            Refusal::NotOpen => 8,
            Refusal::Ordinal => 9,
            Refusal::Time => 10,
            Refusal::Count => 11,
            Refusal::Level => 12,
            Refusal::NoneThenSome => 13,
            Refusal::Used => 14,
            Refusal::Full => 15,
            Refusal::DeskFull => 16,
            Refusal::Nobody => 17,
            Refusal::Digits => 18,
            Refusal::Period => 24,
            Refusal::ManyRefused => 252,
            Refusal::MoreTold => 253,
        }
    }
}
