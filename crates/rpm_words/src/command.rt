//! The mode and the selection that a command line begins with.

ghost use Rattle.std.specs.Prelude.{◌≡◌};
ghost use Rattle.rpm_words.specs.Prelude.{chosen_of, command_of, is_other, is_same_chosen, is_same_command};

use crate::switch::{Chosen, Command, Switch};
use crate::token::{Said, Token};

impl Token {
    /// The mode that the token gives.
    pub(crate) fn command(&self) -> Option<Command>
        ensures { result ≡ command_of self.now }
    {
        match self.said {
            Said::Sets(Switch::Mode(command)) => Some(command),
            _ => None,
        }
    }

    /// The selection that the token gives.
    pub(crate) fn chosen(&self) -> Option<Chosen>
        ensures { result ≡ chosen_of self.now }
    {
        match self.said {
            Said::Sets(Switch::Choose(chosen)) => Some(chosen),
            _ => None,
        }
    }
}

impl Command {
    /// Whether both are one mode.
    fn is_same(self, other: Command) -> bool
        ensures { result ≡ is_same_command self other }
    {
        self == other
    }
}

impl Chosen {
    /// Whether both are one selection.
    fn is_same(self, other: Chosen) -> bool
        ensures { result ≡ is_same_chosen self other }
    {
        self == other
    }
}

impl Token {
    /// Whether the token gives a mode or a selection other than these.
    pub(crate) fn is_other(&self, command: Option<Command>, chosen: Option<Chosen>) -> bool
        ensures { result ≡ is_other command chosen self.now }
    {
        match (self.command(), command) {
            (Some(this), Some(first)) if !this.is_same(first) => return true,
            _ => {}
        }
        match (self.chosen(), chosen) {
            (Some(this), Some(first)) => !this.is_same(first),
            _ => false,
        }
    }
}
