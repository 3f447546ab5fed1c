// What is made of a claimed number of entries or pairs before they come.
ghost use Rattle.std.specs.Prelude.{◌≤◌};
ghost use Rattle.sm_tree.specs.Limits.{first_room};

use sm_tree::FIRST_ROOM;

/// How many entries or pairs room is made for where so many are claimed. No claim makes more room than the first push
/// into an empty vector does.
pub fn expected(claimed: u64) -> usize
    ensures { result ≤ first_room }
{
    if claimed < FIRST_ROOM as u64 {
        claimed as usize
    } else {
        FIRST_ROOM
    }
}
