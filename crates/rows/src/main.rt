// Runs the remaining rows: refusals, areas that are just too short, the example of 13 steps, answers made elsewhere, the
// finders, the readers, step sheets, packet logs, small trees, and the longest job with the longest answer. The rows T1 to T9 are proved
// (specs/Rows.antt).
#![tactic(auto)]

use ids::Edge;
use limits::Refusal;
use reading::AnswerRead;
use records::{Link, ListCopy};
use std::io;

fn print_byte(rt: &impl Print, byte: u8) -> io::Result<()> {
    print!(rt; " {byte:02x}")
}

fn print_bytes(rt: &impl Print, bytes: &[u8]) -> io::Result<()> {
    for byte in bytes {
        print_byte(rt, *byte)?;
    }
    println!(rt)
}

fn print_number(rt: &impl Print, name: &str, number: u32) -> io::Result<()> {
    print!(rt; "{name}{number}")
}

// The number of a refusal, 0 if there is none, and the length written.
fn print_reply(rt: &impl Print, name: &str, reply: Result<usize, Refusal>) -> io::Result<()> {
    match reply {
        Ok(length) => print!(rt; "{name}: refusal 0, length {length}"),
        Err(refusal) => print!(rt; "{name}: refusal {refusal}, length 0"),
    }
}

// Answers a frame into an area of bytes AA, and shows the number and the whole area.
fn show_answer(rt: &impl Print, name: &str, frame: &[u8], area: &mut [u8]) -> io::Result<()> {
    let reply = answering::answer(frame, area);
    print_reply(rt, name, reply)?;
    print!(rt; ", area")?;
    print_bytes(rt, area)
}

// A frame that is refused, and a small area.
fn show_refusal(rt: &impl Print, name: &str, frame: &[u8]) -> io::Result<()> {
    let mut area = [170u8; 2];
    show_answer(rt, name, frame, &mut area)
}

fn show_verdict(rt: &impl Print, name: &str, verdict: Result<bool, Refusal>) -> io::Result<()> {
    match verdict {
        Ok(true) => println!(rt; "{name}: yes"),
        Ok(false) => println!(rt; "{name}: no"),
        Err(refusal) => println!(rt; "{name}: refusal {refusal}"),
    }
}

fn show_part(rt: &impl Print, name: &str, part: &[u8]) -> io::Result<()> {
    print!(rt; "{name}:")?;
    print_bytes(rt, part)
}

// A link's four numbers.
fn print_link(rt: &impl Print, link: Link) -> io::Result<()> {
    print_number(rt, " (", link.end1)?;
    print_number(rt, " ", link.end2)?;
    print_number(rt, " ", link.cost)?;
    print_number(rt, " ", link.mark)?;
    print!(rt; ")")
}

// The first so many links.
fn print_links(rt: &impl Print, count: usize, links: &[Link; 256]) -> io::Result<()> {
    for link in links.iter().take(count) {
        print_link(rt, *link)?;
    }
    println!(rt)
}

// Reads a frame into records, and shows them.
fn show_read(rt: &impl Print, name: &str, frame: &[u8]) -> io::Result<()> {
    match reading::read_job(frame) {
        Ok(job) => {
            let nodes = job.nodes;
            let count = job.count;
            print!(rt; "{name}: refusal 0, stations {nodes}, links {count}")?;
            print_links(rt, count, &job.links)
        }
        Err(refusal) => println!(rt; "{name}: refusal {refusal}, stations 0, links 0"),
    }
}

fn print_pair(rt: &impl Print, tree: u32, spare: u32) -> io::Result<()> {
    print_number(rt, ", pair ", tree)?;
    print_number(rt, " ", spare)
}

// Reads an answer frame into arrays, and shows what of it stands in the first places: zeros if it is no answer.
fn show_contents(rt: &impl Print, name: &str, frame: &[u8], offered: &[u8]) -> io::Result<()> {
    let none = AnswerRead {
        steps: 0,
        costs: [0; 256],
        count: 0,
        pairs: [0; 128],
    };
    let (verdict, answer) = match reading::read_answer(frame, offered) {
        Ok(Some(answer)) => (Ok(true), answer),
        Ok(None) => (Ok(false), none),
        Err(refusal) => (Err(refusal), none),
    };
    show_verdict(rt, name, verdict)?;
    print_number(rt, "  steps ", answer.steps)?;
    print_number(rt, ", costs ", answer.costs[0])?;
    print_number(rt, " ", answer.costs[2])?;
    print_number(rt, " ", answer.costs[3])?;
    let count = answer.count;
    print!(rt; ", pairs {count}")?;
    print_pair(rt, answer.pairs[0], answer.pairs[1])?;
    print_pair(rt, answer.pairs[2], answer.pairs[3])?;
    println!(rt)
}

// A link of the longest job with the longest answer: the tree, a path, stands last; before it a cheap spare along each of its
// links; before those dear spares. Every cost takes three bytes, the number of every link that is paired two.
fn long_link(e: u32) -> Link {
    if e < 130 {
        return Link {
            end1: 0,
            end2: 1,
            cost: 2097151,
            mark: 0,
        };
    }
    if e < 193 {
        return Link {
            end1: e - 130,
            end2: e - 129,
            cost: 16384,
            mark: 0,
        };
    }
    Link {
        end1: e - 193,
        end2: e - 192,
        cost: 2097151,
        mark: 1,
    }
}

fn long_links() -> [Link; 256] {
    let mut links = [Link {
        end1: 0,
        end2: 0,
        cost: 0,
        mark: 0,
    }; 256];
    for e in 0..256 {
        links[e] = long_link(e as u32);
    }
    links
}

// The first so many of them, as a list.
fn long_list(count: usize) -> ListCopy {
    ListCopy {
        count,
        small: true,
        links: long_links(),
    }
}

// Writes the longest job into an area, and shows the number and the length.
fn write_long(rt: &impl Print, name: &str, area: &mut [u8]) -> io::Result<()> {
    let reply = writing::write_links(64, long_list(256), area);
    print_reply(rt, name, reply)?;
    println!(rt)
}

// Answers it.
fn answer_long(rt: &impl Print, name: &str, frame: &[u8], area: &mut [u8]) -> io::Result<()> {
    let reply = answering::answer(frame, area);
    print_reply(rt, name, reply)?;
    println!(rt)
}

// The total that an answer names.
fn show_total(rt: &impl Print, name: &str, answer: &[u8]) -> io::Result<()> {
    match leb128::read_long(answer, 0) {
        Some(total) => print_number(rt, name, total.value)?,
        None => print!(rt; "no total")?,
    }
    println!(rt)
}

// The longest job and its answer, each in an area that is a byte too short and in one that just suffices.
fn longest(rt: &impl Print) -> io::Result<()> {
    let mut short_frame = [170u8; 1538];
    write_long(rt, "64 stations, 256 links, 1538 bytes", &mut short_frame)?;
    let mut frame = [170u8; limits::JOB_MOST];
    write_long(rt, "64 stations, 256 links, 1539 bytes", &mut frame)?;
    let mut short_area = [170u8; 1024];
    answer_long(rt, "their answer, 1024 bytes", &frame, &mut short_area)?;
    let mut area = [170u8; limits::ANSWER_MOST];
    answer_long(rt, "their answer, 1025 bytes", &frame, &mut area)?;
    show_total(rt, "their total ", &area)?;
    show_verdict(rt, "their answer", judging::judge_answer(&frame, &area))?;
    show_part(rt, "their link 255", finding::find_link(&frame, Edge(255)))?;
    show_part(rt, "its cost", finding::find_cost(&frame, &area, Edge(255)))
}

fn refusals(rt: &impl Print) -> io::Result<()> {
    show_refusal(rt, "65 stations", b"\x41\x00")?;
    show_refusal(rt, "no station", b"\x00\x00")?;
    show_refusal(rt, "a cut number", b"\x80")?;
    show_refusal(rt, "a number of four bytes", b"\xff\xff\xff\x01")?;
    show_refusal(rt, "a third byte of 00", b"\x80\x80\x00")?;
    show_refusal(rt, "32767 alone", b"\xff\xff\x01")?;
    show_refusal(rt, "a link missing", b"\x01\x01")?;
    show_refusal(rt, "257 links", b"\x02\x81\x02")?;
    show_refusal(rt, "256 links, all missing", b"\x02\x80\x02")?;
    show_refusal(rt, "an end of 16384", b"\x02\x01\x00\x80\x80\x01\x05\x01")?;
    show_refusal(rt, "a mark of 16384", b"\x02\x01\x00\x01\x05\x80\x80\x01")?;
    show_refusal(rt, "a mark of 3", b"\x02\x01\x00\x01\x05\x03")?;
    show_refusal(
        rt,
        "an unplugged link to its own station",
        b"\x02\x01\x00\x00\x05\x02",
    )?;
    show_refusal(rt, "no link plugged", b"\x02\x01\x00\x01\x05\x02")
}

fn answers(rt: &impl Print, t1: &[u8]) -> io::Result<()> {
    let mut six = [170u8; 6];
    show_answer(rt, "T1, 6 bytes", t1, &mut six)?;
    let mut seven = [170u8; 7];
    show_answer(rt, "T1, 7 bytes", t1, &mut seven)?;
    let mut nine = [170u8; 9];
    show_answer(rt, "T1, 9 bytes", t1, &mut nine)?;
    let mut ten = [170u8; 10];
    let example = b"\x03\x04\x00\x01\x09\x01\x01\x02\x08\x01\x00\x02\x01\x00\x00\x02\x03\x00";
    show_answer(rt, "13 steps", example, &mut ten)
}

fn verdicts(rt: &impl Print, t1: &[u8], other: &[u8]) -> io::Result<()> {
    let low = b"\x04\x03\x03\x03\x01\x00\x02";
    show_verdict(rt, "T1's tree", judging::judge(t1))?;
    show_verdict(rt, "T1's tree, frame cut", judging::judge(b"\x03\x03"))?;
    show_verdict(
        rt,
        "T1, costs 5 4 5 in 3 steps",
        judging::judge_answer(t1, other),
    )?;
    show_verdict(
        rt,
        "T1, costs 3 3 3 in 4 steps",
        judging::judge_answer(t1, low),
    )
}

fn parts(rt: &impl Print, t1: &[u8], other: &[u8]) -> io::Result<()> {
    show_part(rt, "T1's link 1", finding::find_link(t1, Edge(1)))?;
    show_part(rt, "T1's link 3", finding::find_link(t1, Edge(3)))?;
    show_part(rt, "cost of link 0", finding::find_cost(t1, other, Edge(0)))?;
    show_part(rt, "cost of link 3", finding::find_cost(t1, other, Edge(3)))?;
    show_part(rt, "cost in no answer", finding::find_cost(t1, t1, Edge(0)))
}

// Makes the sheet of costs in an area of five bytes AA, and shows the number and the whole area.
fn show_sheet(rt: &impl Print, name: &str, frame: &[u8], costs: &[u8]) -> io::Result<()> {
    let mut area = [170u8; 5];
    let reply = stepping::sheet_of_costs(frame, costs, &mut area);
    print_reply(rt, name, reply)?;
    print!(rt; ", area")?;
    print_bytes(rt, &area)
}

// Applies a sheet, likewise.
fn show_applied(rt: &impl Print, name: &str, frame: &[u8], sheet: &[u8]) -> io::Result<()> {
    let mut area = [170u8; 5];
    let reply = stepping::costs_of_sheet(frame, sheet, &mut area);
    print_reply(rt, name, reply)?;
    print!(rt; ", area")?;
    print_bytes(rt, &area)
}

fn sheets(rt: &impl Print, t1: &[u8]) -> io::Result<()> {
    show_sheet(rt, "sheet of 4 4 4", t1, b"\x04\x04\x04")?;
    show_sheet(rt, "sheet of 5 4 2", t1, b"\x05\x04\x02")?;
    show_sheet(rt, "sheet of 8 bytes", t1, b"\x05\x05\xff\xff\x7f")?;
    show_sheet(rt, "sheet of two costs", t1, b"\x04\x04")?;
    show_sheet(rt, "sheet of no link", b"\x01\x00", b"")?;
    show_sheet(rt, "sheet for no tree", b"\x40\x00", b"\x04")
}

fn applied(rt: &impl Print, t1: &[u8]) -> io::Result<()> {
    show_applied(rt, "down 1, up 2", t1, b"\x02\x00\x01\x02\x04")?;
    show_applied(rt, "up 2097149", t1, b"\x01\x02\xfa\xff\xff\x01")?;
    show_applied(rt, "up 2097150", t1, b"\x01\x02\xfc\xff\xff\x01")?;
    show_applied(rt, "down 6", t1, b"\x01\x00\x0b")?;
    show_applied(rt, "link 0 twice", t1, b"\x02\x00\x02\x00\x02")?;
    show_applied(rt, "a byte more", t1, b"\x00\x00")?;
    show_applied(rt, "no sheet", t1, b"")?;
    show_applied(rt, "80 00", t1, b"\x80\x00")?;
    show_applied(rt, "no link", b"\x01\x00", b"\x00")
}

fn print_first(rt: &impl Print, first: Option<usize>) -> io::Result<()> {
    match first {
        Some(count) => print!(rt; ", cheapest after {count}"),
        None => print!(rt; ", never cheapest"),
    }
}

// Replays a log in an area of five bytes AA, and shows the number, the first number of packets and the whole area.
fn show_replay(rt: &impl Print, name: &str, frame: &[u8], log: &[u8]) -> io::Result<()> {
    let mut area = [170u8; 5];
    let (reply, first) = match replaying::replay(frame, log, &mut area) {
        Ok(replayed) => (Ok(replayed.length), replayed.first),
        Err(refusal) => (Err(refusal), None),
    };
    print_reply(rt, name, reply)?;
    print_first(rt, first)?;
    print!(rt; ", area")?;
    print_bytes(rt, &area)
}

fn replays(rt: &impl Print, t1: &[u8]) -> io::Result<()> {
    let late = b"\x00\x00\x02\x01\x02\x01\x03\x01";
    show_replay(rt, "the answer's packets", t1, b"\x00\x00\x02\x01\x02\x01")?;
    show_replay(rt, "one back", t1, b"\x00\x00\x02\x01\x02\x01\x02\x00")?;
    show_replay(rt, "down from 0", t1, b"\x02\x00\x02\x00\x02\x00")?;
    show_replay(rt, "no link, no packet", b"\x01\x00", b"")?;
    show_replay(rt, "cheapest, then link 3", t1, late)?;
    show_replay(rt, "80 80 80 01", t1, b"\x80\x80\x80\x01")?;
    show_replay(rt, "a log for no tree", b"\x40\x00", b"\x00")
}

// Two stations, a tree link of cost 5 and a link of cost 3 that is laid but not plugged.
fn unplugged(rt: &impl Print) -> io::Result<()> {
    let job = b"\x02\x02\x00\x01\x05\x01\x00\x01\x03\x02";
    let mut area = [170u8; 5];
    show_answer(rt, "an unplugged link, cheaper", job, &mut area)?;
    show_verdict(rt, "its tree", judging::judge(job))?;
    show_verdict(
        rt,
        "the unplugged link moved",
        judging::judge_answer(job, b"\x01\x05\x04\x00"),
    )?;
    show_verdict(
        rt,
        "the unplugged link paired",
        judging::judge_answer(job, b"\x02\x03\x03\x01\x00\x01"),
    )?;
    show_part(rt, "the unplugged link", finding::find_link(job, Edge(1)))?;
    show_read(rt, "its job read", job)?;
    show_sheet(rt, "sheet that moves it", job, b"\x05\x04")
}

fn stars(rt: &impl Print) -> io::Result<()> {
    show_verdict(rt, "one station", judging::judge(b"\x01\x00"))?;
    show_verdict(rt, "two stations, no link", judging::judge(b"\x02\x00"))?;
    show_verdict(
        rt,
        "star, spares as dear",
        judging::judge(
            b"\x04\x05\x00\x01\x05\x01\x00\x02\x05\x01\x00\x03\x05\x01\x01\x02\x05\x00\x02\x03\x06\x00",
        ),
    )?;
    show_verdict(
        rt,
        "star, one spare cheaper",
        judging::judge(
            b"\x04\x05\x00\x01\x05\x01\x00\x02\x05\x01\x00\x03\x05\x01\x01\x02\x05\x00\x02\x03\x04\x00",
        ),
    )?;
    show_verdict(
        rt,
        "star, one mark too few",
        judging::judge(
            b"\x04\x05\x00\x01\x05\x01\x00\x02\x05\x01\x00\x03\x05\x00\x01\x02\x05\x00\x02\x03\x06\x00",
        ),
    )?;
    show_verdict(
        rt,
        "star, link past the stations",
        judging::judge(
            b"\x03\x05\x00\x01\x05\x01\x00\x02\x05\x01\x00\x03\x05\x01\x01\x02\x05\x00\x02\x03\x06\x00",
        ),
    )
}

fn chains(rt: &impl Print) -> io::Result<()> {
    show_verdict(
        rt,
        "path, spares as dear",
        judging::judge(
            b"\x04\x06\x00\x01\x01\x01\x01\x02\x09\x01\x02\x03\x02\x01\x00\x03\x09\x00\x02\x03\x02\x00\x01\x00\x01\x00",
        ),
    )?;
    show_verdict(
        rt,
        "path, the long spare cheaper",
        judging::judge(
            b"\x04\x06\x00\x01\x01\x01\x01\x02\x09\x01\x02\x03\x02\x01\x00\x03\x08\x00\x02\x03\x02\x00\x01\x00\x01\x00",
        ),
    )?;
    show_verdict(
        rt,
        "path, a short spare cheaper",
        judging::judge(
            b"\x04\x06\x00\x01\x01\x01\x01\x02\x09\x01\x02\x03\x02\x01\x00\x03\x09\x00\x02\x03\x02\x00\x01\x00\x00\x00",
        ),
    )
}

// The dearest tree links are the farthest from station 0.
fn far_ends(rt: &impl Print) -> io::Result<()> {
    show_verdict(
        rt,
        "path from its far end, spares as dear",
        judging::judge(
            b"\x05\x06\x04\x03\x09\x01\x03\x02\x08\x01\x02\x01\x07\x01\x01\x00\x06\x01\x04\x00\x09\x00\x02\x00\x07\x00",
        ),
    )?;
    show_verdict(
        rt,
        "path from its far end, one spare cheaper",
        judging::judge(
            b"\x05\x06\x04\x03\x09\x01\x03\x02\x08\x01\x02\x01\x07\x01\x01\x00\x06\x01\x04\x00\x09\x00\x02\x00\x06\x00",
        ),
    )
}

fn parallels(rt: &impl Print) -> io::Result<()> {
    show_verdict(
        rt,
        "parallel links, none cheaper",
        judging::judge(b"\x02\x03\x00\x01\x03\x01\x00\x01\x03\x00\x01\x00\x04\x00"),
    )?;
    show_verdict(
        rt,
        "parallel links, one cheaper",
        judging::judge(b"\x02\x03\x00\x01\x03\x01\x00\x01\x03\x00\x01\x00\x02\x00"),
    )?;
    show_verdict(
        rt,
        "parallel links, the second marked",
        judging::judge(b"\x02\x03\x00\x01\x03\x00\x00\x01\x03\x01\x01\x00\x04\x00"),
    )
}

fn cycles(rt: &impl Print) -> io::Result<()> {
    show_verdict(
        rt,
        "cycle with the right number of marks",
        judging::judge(b"\x04\x04\x00\x01\x01\x01\x01\x02\x01\x01\x02\x00\x01\x01\x02\x03\x01\x00"),
    )?;
    show_verdict(
        rt,
        "all but one station, one link doubled",
        judging::judge(b"\x04\x04\x00\x01\x01\x01\x01\x02\x01\x01\x02\x01\x01\x01\x02\x03\x01\x00"),
    )?;
    show_verdict(
        rt,
        "cycle away from the first station",
        judging::judge(b"\x04\x04\x01\x02\x01\x01\x02\x03\x01\x01\x03\x01\x01\x01\x00\x01\x01\x00"),
    )
}

fn limits(rt: &impl Print) -> io::Result<()> {
    show_verdict(
        rt,
        "spare at the highest cost",
        judging::judge(b"\x03\x03\x00\x01\x00\x01\x01\x02\xff\xff\x7f\x01\x00\x02\xff\xff\x7f\x00"),
    )?;
    show_verdict(
        rt,
        "spare just below the highest cost",
        judging::judge(b"\x03\x03\x00\x01\x00\x01\x01\x02\xff\xff\x7f\x01\x00\x02\xfe\xff\x7f\x00"),
    )?;
    show_verdict(
        rt,
        "all costs 0",
        judging::judge(b"\x03\x03\x00\x01\x00\x01\x01\x02\x00\x01\x00\x02\x00\x00"),
    )?;
    show_verdict(
        rt,
        "tree at the highest cost, spare at 0",
        judging::judge(b"\x03\x03\x00\x01\xff\xff\x7f\x01\x01\x02\xff\xff\x7f\x01\x00\x02\x00\x00"),
    )
}

// Trees that are cheapest, that are not, and marks that are no tree.
fn trees(rt: &impl Print) -> io::Result<()> {
    stars(rt)?;
    chains(rt)?;
    far_ends(rt)?;
    parallels(rt)?;
    cycles(rt)?;
    limits(rt)
}

fn main(rt: HostRuntime) -> io::Result<()> {
    let t1 = b"\x03\x03\x00\x01\x05\x01\x01\x02\x04\x01\x00\x02\x02\x00";
    let other = b"\x03\x05\x04\x05\x01\x00\x02";
    refusals(&rt)?;
    answers(&rt, t1)?;
    verdicts(&rt, t1, other)?;
    parts(&rt, t1, other)?;
    show_read(&rt, "T1 read", t1)?;
    show_read(&rt, "T1's start read", b"\x03\x03")?;
    show_contents(&rt, "costs 5 4 5 read", t1, other)?;
    show_contents(&rt, "T1 read as an answer", t1, t1)?;
    show_verdict(
        &rt,
        "a list of no link, records behind it",
        lists::judge_links(64, long_list(0)),
    )?;
    sheets(&rt, t1)?;
    applied(&rt, t1)?;
    replays(&rt, t1)?;
    unplugged(&rt)?;
    trees(&rt)?;
    longest(&rt)
}
