//! What the bytes of an image say: the controller's pages of both segments, one behind the other, as the layout
//! has them. Words have their low byte first.
ghost use Rattle.std.specs.Prelude.{◌+◌, ◌≤◌};

/// The bytes of both segments.
pub type Image = [u8; 38];

/// How long an injector is to be open at a pressure (kPa), in microseconds: the map's value, corrected, and the time
/// that an injector takes to open.
pub fn injection(image: &Image, pressure: f64) -> f64 {
    map_at(image, pressure * 10.0) * word(image, 32) * 0.001 + word(image, 34)
}

/// How far the throttle may move in ten milliseconds, per cent.
pub fn step(image: &Image) -> f64 {
    word(image, 36) * 0.01
}

// A tool may write any axis, also one that doesn't rise: then a wrong value of the map comes of it, and nothing else.
fn map_at(image: &Image, pressure: f64) -> f64 {
    let point = 2 * point_before(image, pressure);
    let (from, to) = (word(image, point + 16), word(image, point + 18));
    let width = word(image, point + 2) - word(image, point);
    let part = if width > 0.0 {
        (pressure - word(image, point)) / width
    } else {
        0.0
    };
    from + (to - from) * part.max(0.0).min(1.0)
}

// The point of the map's axis before a pressure, if it has one before it, but for the last.
fn point_before(image: &Image, pressure: f64) -> usize
    ensures { result ≤ 6 }
{
    for point in 1..7 {
        if pressure < word(image, 2 * point) {
            return point - 1;
        }
    }
    6
}

fn word(image: &Image, at: usize) -> f64
    requires { at + 2 ≤ 38 }
{
    f64::from(u16::from_le_bytes([image[at], image[at + 1]]))
}
