// States that follow one another.
ghost use Rattle.switch_state.specs.Follows.{Follows};

use switch_state::SwitchState;

/// A state follows itself. It does nothing when it runs.
pub fn follows_itself(state: &SwitchState)
    ensures { Follows state.now state.now }
{
    state.shape();
}

/// To follow is transitive. It does nothing when it runs.
pub fn follows_on(first: &SwitchState, second: &SwitchState, third: &SwitchState)
    requires first { Follows first.now second.now }
    requires second { Follows second.now third.now }
    ensures { Follows first.now third.now }
{}
