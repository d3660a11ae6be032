// Reads an answer frame made elsewhere into arrays: new costs for 256 links; tree link and spare link of 64 pairs by turns.
#![tactic(auto)]

ghost use Rattle.std.specs.Prelude.{◌≡◌, ◌+◌, ◌≤◌, IfSome, length};
ghost use Rattle.frame.specs.Answers.{read_answer};
ghost use Rattle.answer_read.specs.Reading.{contents, few, AnswerPlaces, Behind};
ghost use Rattle.codec.specs.Numbers.{place_of};
ghost use Rattle.answer_read.specs.Costs.{CostIn, cost_place_in};

use codec::{Part, number_at, skip};
use division::count_numbers;

// The steps and the number of pairs of an answer frame that was read.
#[derive(Clone, Copy)]
pub struct Contents {
    pub steps: u32,
    pub count: usize,
}

// Reads an answer frame to a job of so many links; the places behind what was read stay. A frame of more than 64 pairs is not
// read: no tree has as many links.
pub fn load_answer(
    frame: &[u8],
    edges: usize,
    costs: &mut [u32; 256],
    pairs: &mut [u32; 128],
) -> Option<Contents>
    requires edges_bound { edges ≤ 256 }
    requires places { AnswerPlaces costs.old pairs.old }
    ensures answer { contents edges result costs.new pairs.new
        ≡ few (read_answer edges frame.now) }
    ensures count { IfSome result (λ k. k.count ≤ 64) }
    ensures behind { IfSome result (λ k. Behind edges k.count costs.old costs.new pairs.old pairs.new) }
{
    let first = leb128::read_long(frame, 0)?;
    let part = &frame[first.next..];
    let total = count_numbers(part)?;
    if total <= edges {
        return None;
    }
    let at = codec::read_numbers(part, 0, costs, edges);
    let many = number_at(part, at);
    if 64 < many.value {
        return None;
    }
    let count = many.value as usize;
    if total != edges + 1 + 2 * count {
        return None;
    }
    codec::read_numbers(part, many.next, pairs, 2 * count);
    Some(Contents {
        steps: first.value,
        count,
    })
}

// Where a link's new cost stands in an answer frame that has one.
pub fn cost_part(frame: &[u8], edge: usize) -> Part
    requires { CostIn frame.now edge }
    ensures place { (k : CostIn frame.now edge) → place_of result ≡ cost_place_in k.answer edge }
    ensures within { result.offset + result.length ≤ length frame.now }
{
    let Some(steps) = leb128::read_long(frame, 0) else {
        return Part {
            offset: 0,
            length: 0,
        };
    };
    let part = &frame[steps.next..];
    let first = skip(part, 0, edge);
    let end = skip(part, first, 1);
    Part {
        offset: steps.next + first,
        length: end - first,
    }
}
