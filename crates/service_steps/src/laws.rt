//! Frames are read in one way only: laws over the definitions alone, which run nothing.

ghost use Rattle.service_steps.specs.Distinct.{NoTwoRequestsHaveOneFrame, NoTwoStepsHaveOneFrame};

/// Bytes begin with the frame of at most one step, and what follows it is known with it. So a run
/// of steps is read from its bytes in one way only.
pub fn no_two_steps_have_one_frame()
    ensures { NoTwoStepsHaveOneFrame }
{}

/// The same of requests. In particular it is known where the wanted names of a Missing end and the
/// had ones begin.
pub fn no_two_requests_have_one_frame()
    ensures { NoTwoRequestsHaveOneFrame }
{}
