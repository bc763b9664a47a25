use crate::listed::Listed;
use crate::ready::{Cause, Ready};
use exec_goal::GoalInfo;
use exec_msg::{Elements, EntityNo, Moment};
use exec_plan::{GroupNo, Script};
use std::marker::Model;

/// Whose callback it is: the entity, its callback group, whether that is mutually exclusive, and the script.
#[derive(Drop)]
pub struct Handler {
    /// The entity.
    pub entity: EntityNo,
    /// Its callback group.
    pub group: GroupNo,
    /// Whether that is mutually exclusive.
    pub exclusive: bool,
    /// What runs.
    pub script: Script,
}

impl Model for Handler {
    ghost use Rattle.exec_rules.specs.World.{Handler as Data};

    ghost Value = { Data };

    ghost view = { λ handler. record { entity = handler.entity; group = handler.group; exclusive = handler.exclusive; script = handler.script } };
}

impl Handler {
    ghost use Rattle.std.specs.Prelude.{◌≡◌, None};
    ghost use Rattle.exec_rules.specs.Ready.{ready_for};

    /// The callback as a snapshot lists it, and whether a script runs. Its place in the ready list isn't known yet.
    #[inline(always)]
    pub fn listed(
        &self,
        moment: Moment,
        cause: Cause,
        candidates: Elements<GoalInfo>,
        runs: bool,
    ) -> Listed
        ensures { result ≡ record { ready = ready_for moment self.now cause candidates None; runs = runs } }
    {
        Listed {
            ready: Ready {
                position: 0,
                entity: self.entity,
                group: self.group,
                exclusive: self.exclusive,
                moment,
                cause,
                candidates,
                script: None,
            },
            runs,
        }
    }
}
