// Canonical LEB128 numbers in slices, measured and written at a position. The layout is that of specs/Number.antt in crate
// `number`.
#![tactic(auto)]

ghost use Rattle.std.specs.Prelude.{◌≡◌, ◌+◌, ◌≤◌, length};
ghost use Rattle.std.proofs.lemmas.List.Edits.{sets};
ghost use Rattle.number.specs.Number.{encode};

// How many bytes `x` takes, of at most `most`.
fn size(x: u32, most: u32) -> usize
    ensures { result ≡ length (encode most x) }
{
    let mut rest = x;
    for k in 0..most {
        if rest < 128 {
            return k as usize + 1;
        }
        rest /= 128;
    }
    most as usize
}

// How many bytes `x` takes, of at most three.
pub fn size_short(x: u32) -> usize
    ensures { result ≡ length (encode 3 x) }
{
    size(x, 3)
}

// How many bytes `x` takes, of at most four.
pub fn size_long(x: u32) -> usize
    ensures { result ≡ length (encode 4 x) }
{
    size(x, 4)
}

// Puts `x` at `at` in at most `most` bytes and gives the position behind it.
fn write(area: &mut [u8], at: usize, x: u32, most: u32) -> usize
    requires { at + length (encode most x) ≤ length area.old }
    ensures next { result ≡ at + length (encode most x) }
    ensures area { area.new ≡ sets area.old at (encode most x) }
{
    let mut rest = x;
    let mut next = at;
    for _ in 0..most {
        if rest < 128 {
            area[next] = rest as u8;
            return next + 1;
        }
        area[next] = (rest % 128 + 128) as u8;
        rest /= 128;
        next += 1;
    }
    next
}

// Puts `x` at `at` in at most three bytes.
pub fn write_short(area: &mut [u8], at: usize, x: u32) -> usize
    requires { at + length (encode 3 x) ≤ length area.old }
    ensures next { result ≡ at + length (encode 3 x) }
    ensures area { area.new ≡ sets area.old at (encode 3 x) }
{
    write(area, at, x, 3)
}

// Puts `x` at `at` in at most four bytes.
pub fn write_long(area: &mut [u8], at: usize, x: u32) -> usize
    requires { at + length (encode 4 x) ≤ length area.old }
    ensures next { result ≡ at + length (encode 4 x) }
    ensures area { area.new ≡ sets area.old at (encode 4 x) }
{
    write(area, at, x, 4)
}
