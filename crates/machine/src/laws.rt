//! What holds of all states. The function does nothing: its contract is the law.
ghost use Rattle.machine.specs.Ready.{AbsorbingIsChanging};

/// On the state that it was prepared for, a change that is absorbed leaves what the change leaves.
pub fn absorbing_is_changing()
    ensures { AbsorbingIsChanging }
{}
