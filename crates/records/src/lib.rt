// Links as records, lent as a list: the first 256 are copied into an array, and every number is tested.
#![tactic(auto)]

ghost use Rattle.std.specs.Prelude.{◌≡◌, min, ◌&&◌, length};
ghost use Rattle.records.specs.Records.{column_put, small_link, list_copy};

use limits::{MOST_COUNT, MOST_NUMBER, TOO_LONG};

#[repr(C)]
#[derive(Clone, Copy)]
pub struct Link {
    pub end1: u32,
    pub end2: u32,
    pub cost: u32,
    pub mark: u32,
}

// Every number of the link is at most 2,097,151. The digits of all four are tested at once: 2,097,151 has every digit below its
// highest.
#[tactic(auto, using(crate::proofs::RecordsLaws::small_at_once))]
fn small(l: Link) -> bool
    ensures { result ≡ small_link l }
{
    l.end1 | l.end2 | l.cost | l.mark <= MOST_NUMBER
}

// The links so far were small, and so is this one.
fn still_small(sofar: bool, l: Link) -> bool
    ensures { result ≡ (sofar && small_link l) }
{
    sofar & small(l)
}

// How many of n links are looked at, if at most so many are.
fn at_most(n: usize, most: usize) -> usize
    ensures { result ≡ min n most }
{
    if n < most {
        return n;
    }
    most
}

// What is handed on of a lent list: its length, whether every number is at most 2,097,151, and its first 256 links, zeros behind
// the last.
#[derive(Clone, Copy)]
pub struct ListCopy {
    pub count: usize,
    pub small: bool,
    pub links: [Link; 256],
}

// A list longer than 2,097,151 is refused whatever it holds: of it only the first 2,097,152 links are looked at.
pub fn copy_list(list: &[Link]) -> ListCopy
    ensures { result ≡ list_copy list.now }
{
    let count = list.len();
    let n = at_most(count, TOO_LONG);
    let mut small = true;
    let mut copy = ListCopy {
        count: count,
        small: true,
        links: [Link {
            end1: 0,
            end2: 0,
            cost: 0,
            mark: 0,
        }; 256],
    };
    for (i, lent) in list[..n].iter().enumerate() {
        // Read once: read from the list twice, it keeps the compiler from clearing the copy only once.
        let link = *lent;
        small = still_small(small, link);
        if i < MOST_COUNT {
            copy.links[i] = link;
        }
    }
    copy.small = small;
    copy
}

// Each number of the first so many links into an array of its own; the places behind them stay.
pub fn spread(
    count: usize,
    links: [Link; 256],
    end1: &mut [u32; 256],
    end2: &mut [u32; 256],
    cost: &mut [u32; 256],
    mark: &mut [u32; 256],
)
    requires { (length end1.old ≡ 256) × (length end2.old ≡ 256) × (length cost.old ≡ 256) × (length mark.old ≡ 256) }
    ensures end1 { end1.new ≡ column_put (λ l. l.end1) (min count 256) links end1.old }
    ensures end2 { end2.new ≡ column_put (λ l. l.end2) (min count 256) links end2.old }
    ensures cost { cost.new ≡ column_put (λ l. l.cost) (min count 256) links cost.old }
    ensures mark { mark.new ≡ column_put (λ l. l.mark) (min count 256) links mark.old }
{
    let n = at_most(count, MOST_COUNT);
    for i in 0..n {
        let l = links[i];
        end1[i] = l.end1;
        end2[i] = l.end2;
        cost[i] = l.cost;
        mark[i] = l.mark;
    }
}
