ghost use Rattle.std.specs.Prelude.{◌≡◌};
ghost use Rattle.c_typing.specs.declared.fault.Stop.TheVariants as stop;
ghost use Rattle.c_typing.specs.Outcome.{rule_line};

use c_conversions::broken;
use c_typing::{Rule, Stop};

/// The lines of a call and of its first argument, which is the channel where `sense` is called.
#[derive(Clone, Copy)]
pub struct CallLines {
    pub own: u32,
    pub channel: u32,
}

impl CallLines {
    /// What ends the check where a call breaks a rule: E10 at the line of the channel, every other rule at its own.
    pub fn broken(self, rule: Rule) -> Stop
        ensures { result ≡ stop.Broken (record { rule = rule; line = rule_line self.own self.channel rule }) }
    {
        match rule {
            Rule::NotConstant => broken(rule, self.channel),
            _ => broken(rule, self.own),
        }
    }
}
