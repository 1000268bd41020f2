//! In how many bytes two texts differ, and in which first.

ghost use Rattle.std.specs.Prelude.{◌≡◌, ◌+◌, ◌<◌, ◌≤◌, ◌^◌, length};
ghost use Rattle.image_text.specs.DiffText.{unlike_of, with_bytes};

/// In how many bytes two texts differ, and of the first of them its place and what both have there.
#[derive(Clone, Copy)]
pub(crate) struct Unlike {
    pub(crate) count: u32,
    pub(crate) at: u32,
    pub(crate) one: u8,
    pub(crate) two: u8,
}

/// What was found so far, with two bytes at this place.
fn with_bytes(found: Unlike, at: u32, one: u8, two: u8) -> Unlike
    requires { found.count + 1 < 2 ^ 32 }
    ensures value { result ≡ with_bytes found at one two }
    ensures few { result.count ≤ found.count + 1 }
{
    if one == two {
        return found;
    }
    if found.count == 0 {
        return Unlike {
            count: 1,
            at,
            one,
            two,
        };
    }
    Unlike {
        count: found.count + 1,
        at: found.at,
        one: found.one,
        two: found.two,
    }
}

/// In how many bytes two texts differ.
pub(crate) fn unlike_of(one: &[u8], two: &[u8]) -> Unlike
    requires { length one.now < 2 ^ 32 }
    ensures { result ≡ unlike_of one.now two.now }
{
    let mut found = Unlike {
        count: 0,
        at: 0,
        one: 0,
        two: 0,
    };
    let mut at = 0u32;
    let mut rest = one;
    let mut other = two;
    while let Some((x, xs)) = rest.split_first() {
        let Some((y, ys)) = other.split_first() else {
            return found;
        };
        found = with_bytes(found, at, *x, *y);
        rest = xs;
        other = ys;
        at += 1;
    }
    found
}
