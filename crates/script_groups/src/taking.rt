//! Who takes a group's checkpoints and sends its updates now. (Chapter 23, "Logging and Recovery Management".)
ghost use Rattle.std.specs.Prelude.{◌≡◌};
ghost use Rattle.script_groups.specs.Acting.{IsKept};
ghost use Rattle.script_groups.specs.Takers.{checkpoint_taker, update_taker};

use crate::groups::ScriptGroup;
use ft_base::HostNo;

impl ScriptGroup {
    /// The host that takes its checkpoints: the primary of its newest view, in an active group the first
    /// member that is up; none where that host is down.
    pub fn checkpoint_taker(&self) -> Option<HostNo>
        requires { IsKept self.now }
        ensures { result ≡ checkpoint_taker self.now }
    {
        self.core().taker()
    }

    /// The host that sends its updates: that of its checkpoints, in a warm group.
    pub fn update_taker(&self) -> Option<HostNo>
        requires { IsKept self.now }
        ensures { result ≡ update_taker self.now }
    {
        self.core().updater()
    }
}
