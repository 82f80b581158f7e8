// The settings of a replay, by five numbers.
ghost use Rattle.std.specs.Prelude.{◌≡◌, ◌<◌, cond, None, Some};
ghost use Rattle.replay_ends.specs.Ends.{window_of, settings_of, numbers_refused};

use answers::window_refused;
use clocked::{LAST_RULE, Settings};
use machine::Window;

// The rule, 1 for late store data, 1 for a code window, its first address and its end, which are looked at only then.
#[derive(Clone, Copy)]
pub struct Numbers {
    pub rule: u64,
    pub late: u64,
    pub windowed: u64,
    pub first: u64,
    pub end: u64,
}

// A late or a windowed of 1 says yes.
const YES: u64 = 1;

impl Numbers {
    #[tactic(auto, unfolding(crate::specs::Ends::window_of))]
    fn window(self) -> Window
        ensures { result ≡ window_of self }
    {
        (self.windowed == YES).then_some((self.first, self.end))
    }

    // What they choose, in their range or out of it; a rule is a byte.
    #[tactic(auto, unfolding(crate::specs::Ends::settings_of))]
    pub fn chosen(self) -> Settings
        requires { self.rule < 256 }
        ensures { result ≡ settings_of self }
    {
        Settings {
            rule: self.rule as u8,
            late: self.late == YES,
            window: self.window(),
        }
    }

    // The same in memory of that size; nothing where one of them is out of its range.
    #[tactic(auto, unfolding(crate::specs::Ends::numbers_refused, crate::specs::Ends::settings_of, crate::specs::Ends::window_of, clocked::specs::PipeRuns::settings_refused))]
    pub fn settings(self, size: usize) -> Option<Settings>
        ensures { result ≡ cond (numbers_refused self size) None (Some (settings_of self)) }
    {
        let refused = (YES < self.late)
            | ((YES < self.windowed)
                | ((u64::from(LAST_RULE) < self.rule) | window_refused(self.window(), size)));
        if refused {
            return None;
        }
        Some(self.chosen())
    }
}
