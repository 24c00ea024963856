// A phaser's phase and counts.
ghost use Rattle.std.specs.Prelude.{◌≡◌, ◌<◌, ◌≤◌, false};

use super::member::Member;
use bells::Refusal;

#[derive(Clone, Copy, PartialEq, Eq, Debug)]
pub struct Counts {
    pub phase: u64,
    pub closed: bool,
    pub registered: u64,
    pub unarrived: u64,
    ghost within: { unarrived ≤ registered },
    // Open with members, somebody is still to arrive.
    ghost awaited: { (closed ≡ false → 0 < registered → 0 < unarrived) },
}

impl Counts {
    ghost use Rattle.phaser.specs.Model.{tally_of};
    ghost use Rattle.phaser.specs.Members.{is_arrived, unarrived_after};

    // How many are unarrived once the member, too, has arrived.
    pub(crate) fn unarrived_after(self, member: Member) -> Result<u64, Refusal>
        ensures { result ≡ unarrived_after (is_arrived self.phase member) (tally_of self) }
    {
        if self.registered == 0 {
            return Err(Refusal::Miscounted);
        }
        if member.is_arrived(self.phase) {
            return Ok(self.unarrived);
        }
        self.unarrived.checked_sub(1).ok_or(Refusal::Miscounted)
    }
}
