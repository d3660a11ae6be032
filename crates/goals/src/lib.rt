// The next spare rank over a set of tree ranks (specs/Over.antt).
#![tactic(auto)]

ghost use Rattle.std.specs.Prelude.{◌≡◌, ℕ, ◌+◌, ◌*◌, ◌<◌, ◌≤◌, false, ltb, get_or};
ghost use Rattle.loops.specs.Loop.{first};
ghost use Rattle.bits.specs.Bit.{bit};
ghost use Rattle.goals.specs.Over.{meets, next_over};
ghost use Rattle.goals.specs.OverLaws.{PassedOver};

// Whether a spare rank covers one of these tree ranks and is in no pair.
fn meets(s: u32, trees: u64, cols: &[u64; 256]) -> bool
    requires { s < 256 }
    ensures { result ≡ meets trees cols.now s }
{
    bits::both(cols[s as usize], trees) != 0
}

// The lowest spare rank from `from` on that covers one of these tree ranks and is in no pair; `spares` if there is none.
pub fn first_over(from: u32, spares: u32, trees: u64, cols: &[u64; 256]) -> u32
    requires { (from ≤ spares) × (spares ≤ 256) }
    ensures { result ≡ next_over from spares trees cols.now }
{
    (from..spares)
        .find(|s| meets(*s, trees, cols))
        .unwrap_or(spares)
}

// The tree ranks that one of eight spare ranks covers.
fn united(from: u32, cols: &[u64; 256]) -> u64
    requires { from + 8 ≤ 256 }
    ensures { (t : ℕ) → bit result t ≡ ltb (first 8 (λ i. bit (get_or cols.now (from + i) 0) t)) 8 }
{
    let first = from as usize;
    let mut w = 0u64;
    for column in &cols[first..first + 8] {
        w = bits::either(w, *column);
    }
    w
}

// Whether one of eight spare ranks covers one of these tree ranks and is in no pair.
fn block_meets(from: u32, trees: u64, cols: &[u64; 256]) -> bool
    requires { from + 8 ≤ 256 }
    ensures { result ≡ false → PassedOver from (from + 8) trees cols.now }
{
    bits::both(united(from, cols), trees) != 0
}

// How many blocks of eight spare ranks from `from` on cover none of these tree ranks, up to the first that covers one.
fn blocks_passed(from: u32, spares: u32, trees: u64, cols: &[u64; 256]) -> u32
    requires { (from ≤ spares) × (spares ≤ 256) }
    ensures { (from + 8 * result ≤ spares) × PassedOver from (from + 8 * result) trees cols.now }
{
    let blocks = (spares - from) / 8;
    (0..blocks)
        .find(|b| block_meets(from + 8 * *b, trees, cols))
        .unwrap_or(blocks)
}

// The same as `first_over`, eight spare ranks at a time.
pub fn goal_over(from: u32, spares: u32, trees: u64, cols: &[u64; 256]) -> u32
    requires { (from ≤ spares) × (spares ≤ 256) }
    ensures { result ≡ next_over from spares trees cols.now }
{
    let passed = blocks_passed(from, spares, trees, cols);
    first_over(from + 8 * passed, spares, trees, cols)
}
