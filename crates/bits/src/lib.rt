// A word as a set of numbers below 64: number i is a member if digit i is set (specs/Bit.antt).
#![tactic(auto)]

ghost use Rattle.std.specs.Prelude.{◌≡◌, not, ◌&&◌, ◌||◌, ℕ, ◌<◌, eqb, ltb};
ghost use Rattle.std.specs.Bool.{xor};
ghost use Rattle.loops.specs.Loop.{first, last};
ghost use Rattle.bits.specs.Bit.{bit};

// Is `i` a member?
pub fn has(w: u64, i: u32) -> bool
    requires { i < 64 }
    ensures { result ≡ bit w i }
{
    (w >> i) & 1 == 1
}

// `w` with `i` as a member.
pub fn with(w: u64, i: u32) -> u64
    requires { i < 64 }
    ensures { (j : ℕ) → bit result j ≡ (bit w j || eqb i j) }
{
    w | (1u64 << i)
}

// `w` without `i`.
pub fn without(w: u64, i: u32) -> u64
    requires { i < 64 }
    ensures { (j : ℕ) → bit result j ≡ (bit w j && not (eqb i j)) }
{
    w & !(1u64 << i)
}

// `w` with `i` put in if it is no member, and taken out if it is one.
pub fn flip(w: u64, i: u32) -> u64
    requires { i < 64 }
    ensures { (j : ℕ) → bit result j ≡ xor (bit w j) (eqb i j) }
{
    w ^ (1u64 << i)
}

// The members of both.
pub fn both(v: u64, w: u64) -> u64
    ensures { (j : ℕ) → bit result j ≡ (bit v j && bit w j) }
{
    v & w
}

// The members of either.
pub fn either(v: u64, w: u64) -> u64
    ensures { (j : ℕ) → bit result j ≡ (bit v j || bit w j) }
{
    v | w
}

// The members of one of the two only.
pub fn differ(v: u64, w: u64) -> u64
    ensures { (j : ℕ) → bit result j ≡ xor (bit v j) (bit w j) }
{
    v ^ w
}

// The members of `v` that are not in `w`.
pub fn less(v: u64, w: u64) -> u64
    ensures { (j : ℕ) → bit result j ≡ (bit v j && not (bit w j)) }
{
    v & !w
}

// The numbers below `i`.
pub fn below(i: u32) -> u64
    requires { i < 64 }
    ensures { (j : ℕ) → bit result j ≡ ltb j i }
{
    (1u64 << i) - 1
}

// The lowest member; 64 if there is none.
pub fn lowest(w: u64) -> u32
    ensures { result ≡ first 64 (bit w) }
{
    u64::trailing_zeros(w)
}

// The highest member.
pub fn highest(w: u64) -> u32
    requires { 0 < w }
    ensures { result ≡ last 64 (bit w) 64 }
{
    63 - u64::leading_zeros(w)
}

// `w` without its lowest member.
pub fn without_lowest(w: u64) -> u64
    requires { 0 < w }
    ensures { (j : ℕ) → bit result j ≡ (bit w j && not (eqb j (first 64 (bit w)))) }
{
    w & (w - 1)
}
