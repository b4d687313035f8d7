// The types that every crate shares, and in `columns` and `numbers` their conversions. What a column list, a sheet and a row mean stands in
// specs/.
#![tactic(auto)]

ghost use Rattle.std.specs.Prelude.{◌≡◌, ◌≤◌, length};
ghost use Rattle.format.specs.Limits.{max_columns};
ghost use Rattle.format.specs.Schemas.{cols_of};

mod columns;
mod numbers;

// The ceilings of document 01; specs/Limits.antt has the same numbers.
pub const MAX_COLUMNS: usize = 64;

pub const MAX_ROWS: u64 = 4096;

// Where each row begins and the last ends: no batch uses more offsets.
pub const MAX_OFFSETS: usize = MAX_ROWS as usize + 1;

pub const MAX_WIDTH: usize = 1024;

pub const MAX_SLOT: usize = 65535;

pub const MAX_TOTAL: u64 = 16777216;

// The highest kind byte.
pub const LAST_KIND: u8 = 18;

// What the values of a column are, kinds 1 to 18 in this order; fixed binary carries its width.
#[derive(Clone, Copy)]
pub enum Kind {
    Bool,
    I8,
    I16,
    I32,
    I64,
    U8,
    U16,
    U32,
    U64,
    F16,
    F32,
    F64,
    DayTime,
    MonthDayNano,
    FixedBinary(u16),
    Variable,
    I128,
    I256,
}

// Bits 0 to 3 of the options byte; only floats fold.
#[derive(Clone, Copy)]
pub struct SortOptions {
    pub descending: bool,
    pub nulls_first: bool,
    pub required: bool,
    pub fold: bool,
}

#[derive(Clone, Copy)]
pub struct Column {
    pub kind: Kind,
    pub options: SortOptions,
}

// The columns of a list: the first `count` of the array. No Vec: the library has no heap.
#[derive(Clone, Copy)]
pub struct Schema {
    pub columns: [Column; MAX_COLUMNS],
    pub count: usize,
}

impl Schema {
    // The columns in use.
    pub fn in_use(&self) -> &[Column]
        requires { self.now.count ≤ max_columns }
        ensures says { result.now ≡ cols_of self.now }
        ensures long { length result.now ≡ self.now.count }
    {
        &self.columns[..self.count]
    }
}

// What can be wrong in the bytes of a row: refusals 16 to 23, and 28.
#[derive(Clone, Copy)]
pub enum RowFault {
    Cut,
    Lead,
    NullRest,
    BoolByte,
    EndByte,
    Padding,
    Extra,
    TooLong,
    Unfolded,
}

// The reasons in the order of their numbers, each with what is reported of it; 12 has the rows ended where a stream is cut, and else
// 0; 16 to 23 and 28 are one case, with row, column and place in the row.
#[derive(Clone, Copy)]
pub enum Refusal {
    ListCut(usize),
    UnknownKind(usize),
    OptionBits(usize),
    Width(usize),
    ManyColumns(usize),
    ManyRows(u64),
    ColumnCut(usize),
    SpareBit(usize),
    Ends(usize, usize),
    LongSlot(usize, usize),
    BytesAfter(usize),
    ManyBytes(u64, u64),
    RowRoom(u64),
    OffsetRoom(u64),
    Offsets(usize),
    Row(RowFault, usize, usize, usize),
    SheetRoom(usize),
    Input,
    OutOfOrder(usize, usize),
    Missing(usize, usize),
    ColumnRoom(usize),
    KeyColumns(usize),
    SheetRow(usize, u64),
    BrokenState,
}

// Where in its field a row cutter stands: before the lead byte; after a fixed null's lead, with the bytes seen and the place in the row
// of the first that is not zero (0: none yet); after a fixed value's 01, with the bytes seen and, where the column folds, the number
// that they spell high byte first; in a block, with its number, the bytes of it seen, and a bit for each of those that is not zero.
#[derive(Clone, Copy)]
pub enum Spot {
    Start,
    Nulls(usize, u64),
    Value(usize, u64),
    Block(usize, usize, u64),
}

// A row cutter's state: the columns; the refusal that stands; rows ended, bytes of the stream, bytes of the row that is being read, its
// column, and where in that field.
#[derive(Clone, Copy)]
pub struct Cutter {
    pub schema: Schema,
    pub refusal: Result<(), Refusal>,
    pub rows: u64,
    pub bytes: u64,
    pub row: u64,
    pub column: usize,
    pub spot: Spot,
}

// What a field reader finds in front of the part of the row that is left: the field's length, and how many bytes its value has in the
// sheet; a null has none.
#[derive(Clone, Copy)]
pub struct FieldRead {
    pub length: usize,
    pub value: Option<usize>,
}

// What is wrong with a field, and how many bytes are left from the bad byte on.
#[derive(Clone, Copy)]
pub struct FieldFault(pub RowFault, pub usize);

// The four numbers returned.
#[derive(Clone, Copy)]
pub struct Returned(pub u64, pub u64, pub u64, pub u64);
