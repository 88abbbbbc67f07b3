//! A law of samples: the function's contract is the law, and it does nothing.
ghost use Rattle.xcp_daq.specs.SampleLaws.{SamplesAreBounded};

/// An event gives no more packets than the class has ODTs, each of 1 to 255 bytes.
pub fn samples_are_bounded()
    ensures { SamplesAreBounded }
{}
