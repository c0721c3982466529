// The scalar value of a character whose bytes are known.
ghost use Rattle.std.specs.Prelude.{◌≡◌, ◌+◌, ◌-◌, ◌*◌, ◌<◌, length, get_or};
ghost use Rattle.characters.specs.Reads.{Stands, Wide};
ghost use Rattle.characters.specs.Value.{Between, Tail, Added};

// What a tail byte adds.
fn tail(doc: &[u8], i: usize) -> u32
    requires i_in_bounds { i < length doc.now }
    requires tail { Tail (get_or doc.now i 0) }
    ensures { Added (get_or doc.now i 0) result }
{
    doc[i] as u32 - 128
}

// Stays (point 5): each of the three asks another range of its first byte, which no one type would hold.
// The scalar value of two bytes, of three and of four: the first, and what the others add.
fn of_two(a: u32, b: u32) -> u32
    requires between { Between 192 223 a }
    requires b_bound { b < 64 }
    ensures { result ≡ 64 * (a - 192) + b }
{
    64 * (a - 192) + b
}

fn of_three(a: u32, b: u32, c: u32) -> u32
    requires between { Between 224 239 a }
    requires b_bound { b < 64 }
    requires c_bound { c < 64 }
    ensures { result ≡ 4096 * (a - 224) + 64 * b + c }
{
    4096 * (a - 224) + 64 * b + c
}

fn of_four(a: u32, b: u32, c: u32, d: u32) -> u32
    requires between { Between 240 244 a }
    requires b_bound { b < 64 }
    requires c_bound { c < 64 }
    requires d_bound { d < 64 }
    ensures { result ≡ 262144 * (a - 240) + 4096 * b + 64 * c + d }
{
    262144 * (a - 240) + 4096 * b + 64 * c + d
}

// The scalar value of the character from a up to e.
#[tactic(auto, using(crate::proofs::Chars::valued))]
pub fn value(doc: &[u8], a: usize, e: usize) -> u32
    requires { Wide doc.now a e }
    ensures { Stands doc.now a result e }
{
    let first = doc[a] as u32;
    let second = tail(doc, a + 1);
    if e - a == 2 {
        return of_two(first, second);
    }
    let third = tail(doc, a + 2);
    if e - a == 3 {
        return of_three(first, second, third);
    }
    let fourth = tail(doc, a + 3);
    of_four(first, second, third, fourth)
}
