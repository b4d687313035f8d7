// The room for rows and their offsets.
ghost use Rattle.std.specs.Prelude.{◌≡◌, ◌≤◌};
ghost use Rattle.format.specs.Limits.{max_rows};
ghost use Rattle.room_checks.specs.Room.{room_fault};

use format::Refusal;

// 13, 14.
pub fn room_fault(total: u64, room: u64, n: u64, ends: u64) -> Result<(), Refusal>
    requires { n ≤ max_rows }
    ensures { result ≡ room_fault total room n ends }
{
    let count = n + 1;
    if room < total {
        return Err(Refusal::RowRoom(total));
    }
    if ends < count {
        return Err(Refusal::OffsetRoom(count));
    }
    Ok(())
}
