// Finds the end of an array or an object. Kept, in this crate: that a length is no greater than that of the bytes stands in
// each contract that gives one, since it is about a number and a slice.
ghost use Rattle.std.specs.Prelude.{◌≡◌, ◌+◌, ◌^◌, ◌≤◌, length};
ghost use Rattle.json_text.specs.Beginnings.{deeper, past};
ghost use Rattle.json_text.specs.Beginnings.Spot.{outside};
ghost use Rattle.json_text.specs.Parts.{closing};
ghost use Rattle.json_text.specs.Spots.{spot_of};

// Where the next byte stands: outside strings, in one, or after a backslash in one.
#[derive(Clone, Copy)]
pub enum Spot {
    Outside,
    Inside,
    Escaped,
}

// Where the byte after this one stands.
fn spot_past(spot: Spot, byte: u8) -> Spot
    ensures { spot_of result ≡ past (spot_of spot) byte }
{
    match spot {
        Spot::Outside if byte == b'"' => Spot::Inside,
        Spot::Outside => Spot::Outside,
        Spot::Inside if byte == b'"' => Spot::Outside,
        Spot::Inside if byte == b'\\' => Spot::Escaped,
        Spot::Inside => Spot::Inside,
        Spot::Escaped => Spot::Inside,
    }
}

// How many arrays and objects are open after this byte.
fn depth_past(spot: Spot, depth: usize, byte: u8) -> usize
    requires { depth ≤ 2 ^ 63 }
    ensures value { result ≡ deeper (spot_of spot) depth byte }
    ensures bound { result ≤ depth + 1 }
{
    match spot {
        Spot::Outside if byte == b'[' || byte == b'{' => depth + 1,
        Spot::Outside if byte == b']' || byte == b'}' => depth.saturating_sub(1),
        _ => depth,
    }
}

// How many bytes there are up to the one that closes what the first opened, and with it.
pub fn closing_length(s: &[u8]) -> usize
    ensures value { result ≡ closing outside 0 s.now }
    ensures bound { result ≤ length s.now }
{
    // Kept: a `for` over `enumerate`, since spot and depth go along from byte to byte.
    let mut spot = Spot::Outside;
    let mut depth = 0;
    for (i, byte) in s.iter().enumerate() {
        depth = depth_past(spot, depth, *byte);
        spot = spot_past(spot, *byte);
        if depth == 0 {
            return i + 1;
        }
    }
    s.len()
}
