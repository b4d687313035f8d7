// The numbers of document 01 for each answer.
ghost use Rattle.std.specs.Prelude.{◌≡◌};
ghost use Rattle.format.specs.Numbers.{fault_number, refusal_numbers, numbers_of};
ghost use Rattle.format.specs.CutterBytes.{check_numbers};

use crate::{Refusal, Returned, RowFault};

// The number of a row's fault.
impl From<RowFault> for u64 {
    ghost from_gives = { λ fault n. n ≡ fault_number fault };

    fn from(fault: RowFault) -> u64 {
        match fault {
            RowFault::Cut => 16,
            RowFault::Lead => 17,
            RowFault::NullRest => 18,
            RowFault::BoolByte => 19,
            RowFault::EndByte => 20,
            RowFault::Padding => 21,
            RowFault::Extra => 22,
            RowFault::TooLong => 23,
            RowFault::Unfolded => 28,
        }
    }
}

// The numbers of a refusal.
impl From<Refusal> for Returned {
    ghost from_gives = { λ refusal numbers. numbers ≡ refusal_numbers refusal };

    fn from(refusal: Refusal) -> Returned {
        match refusal {
            Refusal::ListCut(place) => Returned(1, place as u64, 0, 0),
            Refusal::UnknownKind(place) => Returned(2, place as u64, 0, 0),
            Refusal::OptionBits(place) => Returned(3, place as u64, 0, 0),
            Refusal::Width(place) => Returned(4, place as u64, 0, 0),
            Refusal::ManyColumns(place) => Returned(5, place as u64, 0, 0),
            Refusal::ManyRows(n) => Returned(6, n, 0, 0),
            Refusal::ColumnCut(c) => Returned(7, c as u64, 0, 0),
            Refusal::SpareBit(c) => Returned(8, c as u64, 0, 0),
            Refusal::Ends(c, row) => Returned(9, c as u64, row as u64, 0),
            Refusal::LongSlot(c, row) => Returned(10, c as u64, row as u64, 0),
            Refusal::BytesAfter(place) => Returned(11, place as u64, 0, 0),
            Refusal::ManyBytes(total, rows) => Returned(12, total, rows, 0),
            Refusal::RowRoom(total) => Returned(13, total, 0, 0),
            Refusal::OffsetRoom(count) => Returned(14, count, 0, 0),
            Refusal::Offsets(i) => Returned(15, i as u64, 0, 0),
            Refusal::Row(fault, row, c, place) => {
                Returned(u64::from(fault), row as u64, c as u64, place as u64)
            }
            Refusal::SheetRoom(bytes) => Returned(24, bytes as u64, 0, 0),
            Refusal::Input => Returned(25, 0, 0, 0),
            Refusal::OutOfOrder(pass, row) => Returned(26, pass as u64, row as u64, 0),
            Refusal::Missing(c, row) => Returned(27, c as u64, row as u64, 0),
            Refusal::ColumnRoom(count) => Returned(29, count as u64, 0, 0),
            Refusal::KeyColumns(k) => Returned(31, k as u64, 0, 0),
            Refusal::SheetRow(sheet, row) => Returned(32, sheet as u64, row, 0),
            Refusal::BrokenState => Returned(33, 0, 0, 0),
        }
    }
}

// The four numbers of an answer.
impl From<Result<(u64, u64), Refusal>> for Returned {
    ghost from_gives = { λ answer numbers. numbers ≡ numbers_of answer };

    fn from(answer: Result<(u64, u64), Refusal>) -> Returned {
        match answer {
            Ok((second, third)) => Returned(0, second, third, 0),
            Err(refusal) => Returned::from(refusal),
        }
    }
}

// Those of a check: zeros where it passes.
impl From<Result<(), Refusal>> for Returned {
    ghost from_gives = { λ check numbers. numbers ≡ check_numbers check };

    fn from(check: Result<(), Refusal>) -> Returned {
        match check {
            Ok(()) => Returned(0, 0, 0, 0),
            Err(refusal) => Returned::from(refusal),
        }
    }
}
