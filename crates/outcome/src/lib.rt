// What turns a call away: a row of document 01's table of that name, and a position.
#![tactic(auto)]

ghost use Rattle.std.specs.Prelude.{◌≡◌};
ghost use Rattle.outcome.specs.Outcomes.{number_of};

// The rows, by their causes, in the order of their numbers.
#[derive(Clone, Copy, PartialEq, Eq)]
pub enum Row {
    LogEmpty,
    TooManyRecords,
    CommandUnknown,
    RecordCut,
    TimeNotAbove,
    BirthNotAbove,
    SourceUnborn,
    DestinationUnborn,
    SourceIsDestination,
    DirectionUnknown,
    WorkAreaShort,
    OutputShort,
    CommitmentNot32,
    AnswerCut,
    LetterNotDue,
    DigestNotDue,
    BytesAfterEnd,
    CountOutOfRange,
    PositionNotBelow,
    TraceTimeNotAbove,
    RecordUnreferenced,
    FoundRecordDiffers,
    PathDigestDiffers,
    TimesReversed,
    NoPlaceLeft,
}

// A row's number.
impl From<Row> for u64 {
    ghost from_gives = { λ row number. number ≡ number_of row };

    fn from(row: Row) -> u64 {
        match row {
            Row::LogEmpty => 1,
            Row::TooManyRecords => 2,
            Row::CommandUnknown => 3,
            Row::RecordCut => 4,
            Row::TimeNotAbove => 5,
            Row::BirthNotAbove => 6,
            Row::SourceUnborn => 7,
            Row::DestinationUnborn => 8,
            Row::SourceIsDestination => 9,
            Row::DirectionUnknown => 11,
            Row::WorkAreaShort => 12,
            Row::OutputShort => 13,
            Row::CommitmentNot32 => 14,
            Row::AnswerCut => 15,
            Row::LetterNotDue => 16,
            Row::DigestNotDue => 17,
            Row::BytesAfterEnd => 18,
            Row::CountOutOfRange => 19,
            Row::PositionNotBelow => 20,
            Row::TraceTimeNotAbove => 21,
            Row::RecordUnreferenced => 22,
            Row::FoundRecordDiffers => 23,
            Row::PathDigestDiffers => 24,
            Row::TimesReversed => 25,
            Row::NoPlaceLeft => 26,
        }
    }
}

// A row that is met, and where.
#[derive(Clone, Copy, PartialEq, Eq)]
pub struct Refusal {
    pub row: Row,
    pub position: usize,
}

impl Row {
    pub fn at(self, position: usize) -> Refusal
        ensures { result ≡ record { row = self; position = position } }
    {
        Refusal {
            row: self,
            position: position,
        }
    }
}
