// What is sent back: the refusals and the answer of an operation (RULES 8). Cites `specs/Refusal.antt`.
//     Refusal       the thirteen refusals, in the order of their numbers
//     Answer        what an operation sends back: a success or a refusal
//     number_of     the rules' number of a refusal
//     position_of   the position told with it
ghost use Rattle.std.specs.Prelude.{◌≡◌};
ghost use Rattle.answers.specs.Refusal.{number_of, position_of};

// Why an operation was refused. A case holds a position, from 0, where the rules have one.
#[derive(Clone, Copy, Debug, PartialEq, Eq)]
pub enum Refusal {
    // 1: the list has no bytes.
    NoBytes,
    // 2: a list that isn't whole records, or one record of another length.
    WrongLength,
    // 3: the list is longer than its limit.
    TooLong,
    // 4: the degree bound is outside 3 to 5.
    DegreeOut,
    // 5: the record at this position is the first that breaks the record rules.
    BadRecord(usize),
    // 6: the cluster at this position is the first that repeats an earlier one.
    Repeated(usize),
    // 7: there is no tree on the leaf set.
    NoTree,
    // 8: the table isn't fit, or its marks aren't a tree of the best weight.
    Unfit,
    // 9: a rescoring names a cluster that has no row.
    NoRow,
    // 10: the weight and state of a rescoring break the record rules.
    BadScore,
    // 11: the output room is too short.
    NoRoom,
    // 12: this line, from 0, is the first at fault in a gel sheet.
    BadSheet(usize),
    // 13: the list made of a gel sheet would have too many clusters.
    ManyClusters,
}

// How an operation ended: `Ok` with how many bytes or numbers it wrote, 0 where it tells nothing; or `Err` with why it was refused, and then
// it wrote nothing.
pub type Answer = Result<usize, Refusal>;

// The rules' number of a refusal, 1 to 13: told case by case, since the rules give the numbers and no derive does.
pub fn number_of(refusal: Refusal) -> u64
    ensures { result ≡ number_of refusal }
{
    match refusal {
        Refusal::NoBytes => 1,
        Refusal::WrongLength => 2,
        Refusal::TooLong => 3,
        Refusal::DegreeOut => 4,
        Refusal::BadRecord(_) => 5,
        Refusal::Repeated(_) => 6,
        Refusal::NoTree => 7,
        Refusal::Unfit => 8,
        Refusal::NoRow => 9,
        Refusal::BadScore => 10,
        Refusal::NoRoom => 11,
        Refusal::BadSheet(_) => 12,
        Refusal::ManyClusters => 13,
    }
}

// The position told with a refusal: 0 where the rules have none.
pub fn position_of(refusal: Refusal) -> usize
    ensures { result ≡ position_of refusal }
{
    match refusal {
        Refusal::BadRecord(at) | Refusal::Repeated(at) | Refusal::BadSheet(at) => at,
        _ => 0,
    }
}
