// The limits, the marks and the refusals of the format, once for all code. specs/Limits.antt and specs/Refusals.antt have them for the
// definitions: a function whose constant differed from its definition's would not be proved.
#![tactic(auto)]

ghost use Rattle.std.specs.Prelude.{◌≡◌, Some};
ghost use Rattle.std.specs.Fmt.{decimal};
ghost use Rattle.limits.specs.Limits.{marks_tree, marks_spare};
ghost use Rattle.limits.specs.Refusals.{number_of};

use std::fmt;

// Stations of a job.
pub const MOST_NODES: u32 = 64;

// Links of a job; and the same as a count.
pub const MOST_EDGES: u32 = 256;

pub const MOST_COUNT: usize = MOST_EDGES as usize;

// The largest number of a job; the same as a list's length, and the first length above it.
pub const MOST_NUMBER: u32 = 2097151;

pub const MOST_LENGTH: usize = MOST_NUMBER as usize;

pub const TOO_LONG: usize = MOST_LENGTH + 1;

// The longest job frame, in bytes.
pub const JOB_MOST: usize = 1539;

// The longest answer frame.
pub const ANSWER_MOST: usize = 1025;

// The marks of a spare link, of a tree link, and of a link that is laid but not plugged, which is the largest mark.
pub const SPARE_MARK: u32 = 0;

pub const TREE_MARK: u32 = 1;

pub const UNPLUGGED_MARK: u32 = 2;

// Is a link with this mark in the marked tree?
pub fn is_tree(mark: u32) -> bool
    ensures { result ≡ marks_tree mark }
{
    mark == TREE_MARK
}

// Is a link with this mark spare: plugged, and not in the tree?
pub fn is_spare(mark: u32) -> bool
    ensures { result ≡ marks_spare mark }
{
    mark == SPARE_MARK
}

// Why a job, or what comes with it, is refused: a question for each, in the order in which they are put. The first "no" refuses.
#[derive(Clone, Copy, PartialEq, Eq)]
pub enum Refusal {
    // A number is cut off, too long, too large or not in shortest form.
    Numbers,
    // A count is missing or out of range.
    Counts,
    // Behind the counts there are not four numbers a link.
    Length,
    // An end is no station, or both ends are the same.
    Ends,
    // A mark is none of the three.
    Marks,
    // The marked links are no spanning tree.
    Tree,
    // The area, or an array, is too short.
    Room,
    // The costs or the step sheet are not in form, or lead out of the range.
    Sheet,
    // The packet log is none of the job.
    Log,
}

// A refusal's number is that of its question.
impl From<Refusal> for u32 {
    ghost from_gives = { λ r n. n ≡ number_of r };

    fn from(refusal: Refusal) -> u32 {
        match refusal {
            Refusal::Numbers => 1,
            Refusal::Counts => 2,
            Refusal::Length => 3,
            Refusal::Ends => 4,
            Refusal::Marks => 5,
            Refusal::Tree => 6,
            Refusal::Room => 7,
            Refusal::Sheet => 8,
            Refusal::Log => 9,
        }
    }
}

// A refusal is shown by its number.
impl fmt::Display for Refusal {
    ghost output = { λ r. Some (decimal (number_of r)) };

    fn fmt<W: fmt::Write>(&self, f: &mut fmt::Formatter<W>) -> fmt::Result {
        let number = u32::from(*self);
        write!(f, "{number}")
    }
}
