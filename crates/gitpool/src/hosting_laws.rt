//! What a host does with frames of steps alone, and in each part of a run: laws over the
//! definitions, which run nothing.

ghost use Rattle.std.specs.Prelude.{ℕ, List, ◌++◌, Result};
ghost use Rattle.git_objects.specs.Device.{Device};
ghost use Rattle.service_steps.specs.declared.frame_fault.FrameFault.{FrameFault};
ghost use Rattle.gitpool.specs.{Requests.{Hosted}, Hosting.{Hosts, IsOfSteps, ServesAlone}};
ghost use Rattle.gitpool.specs.Hosting.{HostRun, Leads, IsStretch};

/// Without requests of the operator `host` does what `serve` does: whatever the contract of `host`
/// says of a run that has steps alone, and after which no frame of the operator begins, the
/// contract of `serve` says too, and the pool file is as it was.
pub fn hosting_of_steps_is_serving()
    ensures { (digest : List ℕ → List ℕ) → (before after : Hosted)
        → (reader reader' writer writer' : Device) → (answer : Result Unit FrameFault)
        → (hosts : Hosts digest before after reader reader' writer writer' answer)
        → IsOfSteps hosts.taken.run hosts.taken.rest
        → ServesAlone digest before after reader reader' writer writer' answer }
{}

/// Cut a run of `host` in three, anywhere. In the middle part each tenant that no request of the
/// operator changes there is told by its steps what it is told in a repository of its own. So a
/// request that names a tenant, also one that is refused, ends one such part, and the next begins
/// after it.
pub fn stretches_are_isolated()
    ensures { (digest : List ℕ → List ℕ) → (before after : Hosted)
        → (first stretch last : HostRun)
        → Leads digest before (first ++ stretch ++ last) after
        → IsStretch digest before after first stretch last }
{}
