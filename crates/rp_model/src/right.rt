//! Actions whose numbers are known to be within their ranges.

ghost use Rattle.std.specs.Prelude.{◌≡◌};
ghost use Rattle.rp_base.specs.Action.{IsRight};

use rp_base::Action;
use std::marker::Model;

/// An action that is right. Contracts see a list of them as the list of what they hold, so that the
/// definitions need not speak of ranges.
#[derive(Clone, Copy)]
pub struct RightAction {
    action: Action,
}

impl Model for RightAction {
    ghost use Rattle.rp_base.specs.declared.action.Action.{Action};
    ghost use Rattle.rp_base.specs.Action.{IsRight};

    ghost Value = { Action };

    ghost view = { λ a. a.action };

    ghost invariant = { λ a. IsRight a.action };

    ghost inverse = { λ action. record { action = action } };
}

impl RightAction {
    pub fn new(action: Action) -> Self
        requires { IsRight action }
        ensures { result ≡ action }
    {
        RightAction { action }
    }

    pub fn get(self) -> Action
        ensures value { result ≡ self }
        ensures right { IsRight self }
    {
        self.action
    }
}
