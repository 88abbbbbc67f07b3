//! The layout: what the slave tells a tool, and the parameters with which it begins. Words have their low byte first.

/// Segment 0 has the injection map (eight pressures in 0.1 kPa, and a time for each in microseconds), its correction
/// in 0.001, and the time that an injector takes to open. Segment 1 says how fast the throttle may move, in per cent a
/// second. The signals are throttle (0.01 per cent), pressure (0.01 kPa) and lambda (0.0001).
pub const TEXT: &str = "
id = \"ENGINE-IN-RATTLE 1\"
max_cto = 32
max_dto = 32
segment = [
    { address = 0x0008_0000, data = \"C8002C019001F4015802BC025203E803CA09AF0E941379185E1D43229A29F230E8032003\" },
    { address = 0x0008_0200, data = \"C800\" },
]
signals = { address = 0x2000_0000, length = 6 }
event = [{ name = \"10 ms\", cycle = 10, unit = 6 }, { name = \"crank\" }]
";
