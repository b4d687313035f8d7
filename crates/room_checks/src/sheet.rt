// The room for a sheet.
ghost use Rattle.std.specs.Prelude.{◌≡◌};
ghost use Rattle.room_checks.specs.Room.{sheet_room_fault};

use format::Refusal;

// 24.
pub fn room_fault(bytes: usize, room: usize) -> Result<(), Refusal>
    ensures { result ≡ sheet_room_fault bytes room }
{
    if room < bytes {
        return Err(Refusal::SheetRoom(bytes));
    }
    Ok(())
}
